//! A ledger's book with new entries after it, whose balances are found by sums.

ghost use Rattle.std.specs.Prelude.{◌≡◌, ◌≤◌, ◌<◌, ◌-◌, ◌⊎◌, length, slice_index_or, IfSome, None};
ghost use Rattle.book_core.specs.Balance.{turnover};
ghost use Rattle.book_core.specs.Query.{is_stray_for, stray_for};
ghost use Rattle.book_core.specs.DayRows.{IsNextMoved};

use crate::balance::Query;
use crate::commodity::lower_of;
use crate::entry::Entry;
use crate::judging::Balances;
use crate::new_entries::NewEntries;
use crate::sums::Sums;
use crate::turnover_table::next_moved;
use money_core::Unit;
use std::marker::Model;

/// A book within the limits on count and turnover: entries with their sums, and new ones after them. Clauses see one
/// list.
#[derive(Drop)]
pub struct DayBook<'a> {
    pub old: &'a [Entry],
    pub sums: &'a Sums,
    pub new: NewEntries<'a>,
}

impl<'a> Model for DayBook<'a> {
    ghost use Rattle.std.specs.Prelude.{◌++◌, List};
    ghost use Rattle.book_core.specs.declared.entry.Entry.{Entry as Line};
    ghost use Rattle.book_core.specs.GoodBook.{IsWithin};
    ghost use Rattle.book_core.specs.Sums.{AreSumsOf};

    ghost Value = { List Line };

    ghost view = { λ b. b.old.now ++ b.new };

    ghost invariant = { λ b. IsWithin (b.old.now ++ b.new) × AreSumsOf b.sums.now b.old.now };
}

impl<'a> DayBook<'a> {
    /// The entry with that number, if there is one.
    pub fn entry(&self, number: usize) -> Option<&'a Entry>
        ensures some { IfSome result (λ e. (1 ≤ number) × (number ≤ length self.now)
            × (e.now ≡ slice_index_or self.now (number - 1) e.now)) }
        ensures none { result ≡ None → (number ≡ 0) ⊎ (length self.now < number) }
    {
        if number == 0 {
            return None;
        }
        let at = number - 1;
        if at < self.old.len() {
            return Some(&self.old[at]);
        }
        let new = self.new.entries();
        let behind = at - self.old.len();
        if behind < new.len() {
            return Some(&new[behind]);
        }
        None
    }
}

/// Whether a commodity is another than the one that is asked, and not zero in the account.
fn strays(book: &DayBook<'_>, query: &Query<'_>, unit: Unit) -> bool
    ensures { result ≡ is_stray_for query.now book.now unit }
{
    if unit.0 == query.unit.0 {
        return false;
    }
    let found = book.found(&Query { unit, ..*query });
    found != 0
}

/// The first commodity after `unit` that has a turnover.
fn next_unit(book: &DayBook<'_>, unit: Unit) -> Option<Unit>
    ensures { IsNextMoved (λ v. turnover v book.now) unit result }
{
    let kept = next_moved(&book.sums.moved, unit);
    let added = book.new.next_unit(unit);
    lower_of(kept, added)
}

/// The first other commodity of the account that is not zero, among those that have a turnover.
fn first_stray(book: &DayBook<'_>, query: &Query<'_>) -> Option<Unit>
    ensures { result ≡ stray_for query.now book.now }
{
    let mut unit = Unit(0);
    'units: loop {
        if strays(book, query, unit) {
            return Some(unit);
        }
        match next_unit(book, unit) {
            Some(next) => unit = next,
            None => return None,
        }
    }
}

/// Costs what the balance of the old entries costs, and as much for the new ones, or one pass over these.
impl<'a> Balances for DayBook<'a> {
    ghost book = { λ b. b };

    fn found(&self, query: &Query<'_>) -> i64 {
        let kept = self.sums.balance(self.old, query);
        let added = self.new.sum_behind(query, self.old.len());
        kept + added
    }

    fn stray(&self, query: &Query<'_>) -> Option<Unit> {
        first_stray(self, query)
    }
}
