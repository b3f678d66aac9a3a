//! A ledger's book with the sums of one entry's legs, over which this entry's assertions are judged.

ghost use Rattle.std.specs.Prelude.{◌≡◌};
ghost use Rattle.book_core.specs.declared.account.Reach.TheVariants.{Own};
ghost use Rattle.book_core.specs.declared.place.Until.TheVariants.{At};
ghost use Rattle.book_core.specs.OwnLegs.{AreOwnIn};
ghost use Rattle.book_core.specs.Query.{balance_for};

use crate::account::Reach;
use crate::balance::Query;
use crate::day_book::DayBook;
use crate::judging::Balances;
use crate::own_legs::OwnLegs;
use crate::place::{Place, Until};
use money_core::Unit;
use std::marker::Model;

/// A ledger's book, and the sums of the legs of one of its entries. Clauses see the entries.
#[derive(Drop)]
pub struct EntryBook<'a> {
    book: &'a DayBook<'a>,
    own: &'a OwnLegs,
}

impl<'a> Model for EntryBook<'a> {
    ghost use Rattle.std.specs.Prelude.{List};
    ghost use Rattle.book_core.specs.declared.entry.Entry.{Entry as Line};
    ghost use Rattle.book_core.specs.GoodBook.{IsWithin};
    ghost use Rattle.book_core.specs.OwnLegs.{AreOwnIn};

    ghost Value = { List Line };

    ghost view = { λ b. b.book.now };

    ghost invariant = { λ b. AreOwnIn b.own.now b.book.now × IsWithin b.book.now };
}

impl<'a> EntryBook<'a> {
    /// The book with the sums of the legs of one of its entries.
    pub fn of(book: &'a DayBook<'a>, own: &'a OwnLegs) -> Self
        requires { AreOwnIn own.now book.now }
        ensures { result ≡ book.now }
    {
        let _old = book.old;
        EntryBook { book, own }
    }

    /// The balance of an account alone at a place. In the entry whose legs are summed it costs a search more than that
    /// before the entry, and passes over no leg of it.
    fn found_at(&self, query: &Query<'_>, place: Place) -> i64
        requires reach { query.now.reach ≡ Own }
        requires at { query.now.limit ≡ At place }
        ensures { result ≡ balance_for query.now self.now }
    {
        if place.entry != self.own.number || place.day.0 != self.own.day.0 {
            return self.book.found(query);
        }
        let start = Until::At(Place { leg: 0, ..place });
        let before = self.book.found(&Query {
            limit: start,
            ..*query
        });
        let own = self.own.sum_up_to(query.account, query.unit, place.leg);
        before + own
    }
}

impl<'a> Balances for EntryBook<'a> {
    ghost book = { λ b. b };

    fn found(&self, query: &Query<'_>) -> i64 {
        match (query.reach, query.limit) {
            (Reach::Own, Until::At(place)) => self.found_at(query, place),
            _ => self.book.found(query),
        }
    }

    fn stray(&self, query: &Query<'_>) -> Option<Unit> {
        self.book.stray(query)
    }
}
