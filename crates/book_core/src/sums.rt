//! What a ledger keeps of its entries beside their list, so that no question passes over all of them.

ghost use Rattle.std.specs.Prelude.{◌≡◌, [], ◌∷◌, ◌++◌, OnOk, OnErr, IfOk};
ghost use Rattle.std.specs.Result.{IsOkUnless};
ghost use Rattle.book_core.specs.GoodBook.{IsWithin, HasRoom};
ghost use Rattle.book_core.specs.Query.{balance_for};
ghost use Rattle.book_core.specs.Sums.{AreSumsOf};

use crate::account::Reach;
use crate::balance::Query;
use crate::day_balance::balance_at;
use crate::day_rows::{open_legs, raise_legs};
use crate::entry::Entry;
use crate::place::Until;
use crate::turnover_table::{add_legs, list_units};
use day_sums::{DaySums, Period};
use money_core::Cause;
use std::alloc::Global;

/// The sums of a book by day, and on each day by entry, and its turnovers.
#[derive(Drop)]
pub struct Sums {
    /// By account and commodity, the balance through each day, and on each day what is added through each entry.
    pub own: DaySums,
    /// The same with subaccounts, for each account and those above it.
    pub inside: DaySums,
    /// The turnover of each commodity, in smallest units, by the commodity's number.
    pub moved: Vec<u64>,
}

impl Sums {
    /// Those of the empty book.
    pub fn empty(alloc: Global) -> Self
        ensures { AreSumsOf result [] }
    {
        Sums {
            own: DaySums::empty(alloc),
            inside: DaySums::empty(alloc),
            moved: Vec::new(alloc),
        }
    }

    /// The balance that is asked. Costs a search, and at a place one more and the legs of the place's own entry.
    pub fn balance(&self, entries: &[Entry], query: &Query<'_>) -> i64
        requires sums { AreSumsOf self.now entries.now }
        requires room { HasRoom entries.now }
        ensures { result ≡ balance_for query.now entries.now }
    {
        let rows = match query.reach {
            Reach::Own => &self.own,
            Reach::Inside => &self.inside,
        };
        match query.limit {
            Until::At(place) => balance_at(rows, entries, query, place),
            Until::Through(day) => {
                rows.sum(query.account.as_bytes(), query.unit, Period::Through(day))
            }
        }
    }

    /// Adds the entry, which comes after the entries. On 40 they are the sums of the entries alone.
    ///
    /// All room is made before a sum changes: what is opened holds the sum before it.
    pub fn add(&mut self, entries: &[Entry], entry: &Entry) -> Result<(), Cause>
        requires sums { AreSumsOf self.old entries.now }
        requires room { IsWithin (entries.now ++ entry.now ∷ []) }
        ensures ok { OnOk result (AreSumsOf self.new (entries.now ++ entry.now ∷ [])) }
        ensures err { OnErr result (AreSumsOf self.new entries.now × (result ≡ Err Cause.OutOfMemory)) }
    {
        let legs = entry.legs.items();
        let day = entry.day;
        let number = (entries.len() + 1) as u32;
        if open_legs(&mut self.own, Reach::Own, legs, day, number).is_err() {
            return Err(Cause::OutOfMemory);
        }
        if open_legs(&mut self.inside, Reach::Inside, legs, day, number).is_err() {
            return Err(Cause::OutOfMemory);
        }
        if list_units(&mut self.moved, legs).is_err() {
            return Err(Cause::OutOfMemory);
        }
        add_legs(&mut self.moved, legs);
        raise_legs(&mut self.own, Reach::Own, legs, day, number);
        raise_legs(&mut self.inside, Reach::Inside, legs, day, number);
        Ok(())
    }

    /// Those of the entries: 40 where memory is refused. Costs what adding each of them costs.
    pub fn of(alloc: Global, entries: &[Entry]) -> Result<Self, Cause>
        requires { IsWithin entries.now }
        ensures value { IfOk result (λ sums. AreSumsOf sums entries.now) }
        ensures memory { IsOkUnless result Cause.OutOfMemory }
    {
        let mut sums = Sums::empty(alloc);
        'entries: for (i, entry) in entries.iter().enumerate() {
            sums.add(&entries[..i], entry)?;
        }
        Ok(sums)
    }
}
