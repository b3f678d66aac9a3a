//! The classes of bytes in an amount.

ghost use Rattle.std.specs.Prelude.{◌≡◌, ◌==◌, ◌≤◌, not, drop, length, position, slice_index};
ghost use Rattle.money_core.specs.Class.{is_of_class};
ghost use Rattle.money_core.specs.Cutting.{end_of, skip_blanks};

use crate::bytes::behind;

/// A class of bytes.
#[derive(Clone, Copy)]
pub enum Class {
    /// A space or a tab.
    Blank,
    /// A byte of a symbol without quotes.
    Symbol,
    /// A digit, a point or a comma.
    Number,
}

impl Class {
    /// Whether the byte is of the class.
    pub fn has(self, byte: u8) -> bool
        ensures { result ≡ is_of_class self byte }
    {
        match self {
            Class::Blank => byte == b' ' || byte == b'\t',
            Class::Symbol => byte.is_ascii_alphabetic() || byte == b'$' || byte >= 128,
            Class::Number => byte.is_ascii_digit() || byte == b'.' || byte == b',',
        }
    }
}

/// Where the first byte stands that is not of the class.
fn find_other(text: &[u8], class: Class) -> Option<usize>
    ensures { result ≡ position (λ b. not (is_of_class class b)) text.now }
{
    text.iter().position(|b| !class.has(*b))
}

/// Where the front of the class ends.
pub fn end_of(text: &[u8], class: Class) -> usize
    ensures place { result ≡ end_of class text.now }
    ensures bound { result ≤ length text.now }
{
    match find_other(text, class) {
        Some(at) => at,
        None => text.len(),
    }
}

/// What follows the blanks at the front.
pub fn skip_blanks(text: &[u8]) -> &[u8]
    ensures { result.now ≡ skip_blanks text.now }
{
    behind(text, end_of(text, Class::Blank))
}
