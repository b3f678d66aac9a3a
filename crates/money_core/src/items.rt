//! A list that contracts see as its items, for the records of every crate.

ghost use Rattle.std.specs.Prelude.{◌≡◌, List, [], ◌∷◌, ◌++◌, OnOk, OnErr, IfOk};
ghost use Rattle.std.specs.Result.{IsOkUnless};

use crate::cause::Cause;
use std::alloc::Global;
use std::marker::Model;

/// A list of items, in order.
#[derive(Debug, Drop)]
pub struct Items<T> {
    list: Vec<T>,
}

impl<T> Model for Items<T> {
    ghost Value = { List T };

    ghost view = { λ a. a.list.items };
}

/// A value of which an equal one can be made.
pub trait Copied: Drop {
    /// An equal value. Where memory for it is refused, it answers 40.
    fn copy(&self) -> Result<Self, Cause>
        ensures equal { IfOk result (λ x. x ≡ self.now) }
        ensures memory { IsOkUnless result Cause.OutOfMemory };
}

impl<T> Items<T> {
    /// No items.
    pub fn empty(alloc: Global) -> Self
        ensures { result ≡ [] }
    {
        Items {
            list: Vec::new(alloc),
        }
    }

    /// The items of a vector, without a copy.
    pub fn from_vec(list: Vec<T>) -> Self
        ensures { result ≡ list.items }
    {
        Items { list }
    }

    /// The items as a vector, without a copy.
    pub fn into_vec(self) -> Vec<T>
        ensures { result.items ≡ self }
    {
        let Items { list } = self;
        list
    }

    /// All items, in order.
    pub fn items(&self) -> &[T]
        ensures { result.now ≡ self.now }
    {
        self.list.as_slice()
    }
}

impl<T: Drop> Items<T> {
    /// Puts the item last. Where memory is refused (40), the list stays as it is, and the item is lost.
    pub fn push(&mut self, item: T) -> Result<(), Cause>
        ensures ok { OnOk result (self.new ≡ self.old ++ item ∷ []) }
        ensures err { OnErr result (self.new ≡ self.old) }
        ensures memory { IsOkUnless result Cause.OutOfMemory }
    {
        self.list.push(item)?;
        Ok(())
    }
}

/// Copies of the items, in order.
fn copies_of<T: Copied>(alloc: Global, items: &[T]) -> Result<Items<T>, Cause>
    ensures equal { IfOk result (λ list. list ≡ items.now) }
    ensures memory { IsOkUnless result Cause.OutOfMemory }
{
    let mut list = Vec::with_capacity(alloc, items.len())?;
    for item in items {
        let copy = item.copy()?;
        list.push(copy)?;
    }
    Ok(Items::from_vec(list))
}

impl<T: Copied> Copied for Items<T> {
    fn copy(&self) -> Result<Self, Cause> {
        copies_of(*self.list.allocator(), self.list.as_slice())
    }
}
