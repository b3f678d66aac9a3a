//! The commodities that an account holds beside one, found by passes over the whole book.

ghost use Rattle.std.specs.Prelude.{◌≡◌};
ghost use Rattle.book_core.specs.Book.{legs_of};
ghost use Rattle.book_core.specs.Claim.{lower, least_unit};
ghost use Rattle.book_core.specs.Query.{is_stray_for, stray_for};

use crate::balance::{Query, balance_over};
use crate::book::Book;
use crate::commodity::lower_of;
use crate::entry::Entry;
use crate::judging::Balances;
use crate::leg::Leg;
use money_core::Unit;

/// Whether a commodity is another than the one that is asked, and not zero in the account.
fn strays(book: &Book<'_>, query: &Query<'_>, unit: Unit) -> bool
    ensures { result ≡ is_stray_for query.now book.now unit }
{
    if unit.0 == query.unit.0 {
        return false;
    }
    let found = balance_over(book, &Query { unit, ..*query });
    found != 0
}

/// Of the legs' commodities that stray and one that is known, the one declared first.
fn stray_legs(book: &Book<'_>, query: &Query<'_>, legs: &[Leg], known: Option<Unit>) -> Option<Unit>
    ensures { result ≡ lower known (least_unit (is_stray_for query.now book.now) legs.now) }
{
    let mut first = known;
    for leg in legs {
        let unit = leg.unit;
        let one = if strays(book, query, unit) {
            Some(unit)
        } else {
            None
        };
        first = lower_of(first, one);
    }
    first
}

/// The same over the legs of several entries.
fn stray_entries(
    book: &Book<'_>,
    query: &Query<'_>,
    scanned: &[Entry],
    known: Option<Unit>,
) -> Option<Unit>
    ensures { result ≡ lower known (least_unit (is_stray_for query.now book.now) (legs_of scanned.now)) }
{
    let mut first = known;
    for entry in scanned {
        first = stray_legs(book, query, entry.legs.items(), first);
    }
    first
}

/// The first other commodity of the account that is not zero.
pub fn stray_over(book: &Book<'_>, query: &Query<'_>) -> Option<Unit>
    ensures { result ≡ stray_for query.now book.now }
{
    let first = stray_entries(book, query, book.old, None);
    stray_entries(book, query, book.new, first)
}

impl<'a> Balances for Book<'a> {
    ghost book = { λ b. b };

    fn found(&self, query: &Query<'_>) -> i64 {
        balance_over(self, query)
    }

    fn stray(&self, query: &Query<'_>) -> Option<Unit> {
        stray_over(self, query)
    }
}
