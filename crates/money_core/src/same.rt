//! Equality of values that a record holds: whether contracts see the same.

ghost use Rattle.std.specs.Prelude.{◌≡◌, ◌↔◌, IsTrue};

use crate::items::Items;
use crate::text::Text;

/// A value that can be compared with another, exactly.
pub trait Same {
    /// Whether the two are equal. Takes no memory.
    fn is_same(&self, other: &Self) -> bool
        ensures { IsTrue result ↔ (self.now ≡ other.now) };
}

impl Same for Text {
    fn is_same(&self, other: &Self) -> bool {
        self.as_str() == other.as_str()
    }
}

/// Whether the lists have equal items in one order.
fn are_same<T: Same>(items: &[T], others: &[T]) -> bool
    ensures { IsTrue result ↔ (items.now ≡ others.now) }
{
    if items.len() != others.len() {
        return false;
    }
    for (i, item) in items.iter().enumerate() {
        if !item.is_same(&others[i]) {
            return false;
        }
    }
    true
}

impl<T: Same> Same for Items<T> {
    fn is_same(&self, other: &Self) -> bool {
        are_same(self.items(), other.items())
    }
}
