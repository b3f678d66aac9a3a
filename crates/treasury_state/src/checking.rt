//! New records checked against a book.

ghost use Rattle.std.specs.Prelude.{◌≡◌, ◌++◌, IfOk};
ghost use Rattle.std.specs.List.{AllByRecursion};
ghost use Rattle.std.specs.Result.{IsOkUnless};
ghost use Rattle.book_core.specs.GoodBook.{IsFit, IsGoodBook, Checks};
ghost use Rattle.treasury_state.specs.Federation.{entries};

use crate::record::Record;
use book_core::{Count, Entry, Ledger, Refusal};
use money_core::{Cause, Copied, Items};
use std::alloc::Global;

/// The entries of records, in order.
fn entries_of(alloc: Global, rows: &[Record]) -> Result<Items<Entry>, Cause>
    ensures value { IfOk result (λ list. list ≡ entries rows.now) }
    ensures memory { IsOkUnless result Cause.OutOfMemory }
{
    let mut list = Vec::with_capacity(alloc, rows.len())?;
    for row in rows {
        let entry = row.entry.copy()?;
        list.push(entry)?;
    }
    Ok(Items::from_vec(list))
}

/// Checks the book with all new records; where there are none, it stays as good as it is.
pub fn check<L: Ledger>(alloc: Global, ledger: &L, new: &[Record]) -> Result<(), Refusal>
    requires good { IsGoodBook (L.book ledger.now) }
    requires fit { AllByRecursion IsFit (entries new.now) }
    ensures { Checks (L.book ledger.now ++ entries new.now) result }
{
    if new.is_empty() {
        return Ok(());
    }
    match entries_of(alloc, new) {
        Ok(list) => ledger.check(list.items(), &mut Count { claims: 0 }),
        Err(cause) => Err(Refusal::Plain(cause)),
    }
}
