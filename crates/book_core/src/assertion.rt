//! Assertions against the whole book, one after another.

ghost use Rattle.std.specs.Prelude.{◌≡◌, ◌+◌, ◌<◌, ◌^◌, length};
ghost use Rattle.book_core.specs.Claim.{account_at, fault, earlier, first_fault, asserted_on, asserted_claims};
ghost use Rattle.book_core.specs.Claim.{asserted_from, failure, claims_of, counted};

use crate::book::Book;
use crate::claim::Placed;
use crate::entry::Entry;
use crate::judging::claim_fault;
use crate::leg::Leg;
use crate::place::{Place, is_at_most};
use crate::refusal::{Count, Failure};

/// The account of a leg by its number from 1; the empty text where there is none.
pub fn account_of(legs: &[Leg], number: usize) -> &str
    ensures { result.now ≡ account_at legs.now number }
{
    if number == 0 {
        return "";
    }
    if number > legs.len() {
        return "";
    }
    legs[number - 1].account.as_str()
}

/// Why a claim of entry `number` fails, if it does.
fn fault_of(book: &Book<'_>, entry: &Entry, number: usize, placed: Placed) -> Option<Failure>
    ensures { result ≡ fault book.now (asserted_on entry.now.day number entry.now.legs placed) }
{
    let place = Place {
        day: entry.day,
        entry: number,
        leg: placed.leg,
    };
    let account = account_of(entry.legs.items(), placed.leg);
    claim_fault(book, place, account, placed.claim)
}

/// Of two failures, the one with the earlier place.
pub fn earlier_of(a: Option<Failure>, b: Option<Failure>) -> Option<Failure>
    ensures { result ≡ earlier a b }
{
    match (a, b) {
        (Some(x), Some(y)) => {
            if is_at_most(x.place, y.place) {
                Some(x)
            } else {
                Some(y)
            }
        }
        (Some(x), None) => Some(x),
        (None, y) => y,
    }
}

/// The first failure among those of an entry's claims and one that is known.
fn scan_entry(
    book: &Book<'_>,
    entry: &Entry,
    number: usize,
    known: Option<Failure>,
    count: &mut Count,
) -> Option<Failure>
    ensures first { result ≡ earlier known
        (first_fault book.now (asserted_claims entry.now.day number entry.now.legs entry.now.claims)) }
    ensures count { count.new.claims ≡ counted count.old.claims (length entry.now.claims) }
{
    let _start = count.claims;
    let mut first = known;
    for placed in entry.claims.items() {
        count.claims = count.claims.saturating_add(1);
        let fault = fault_of(book, entry, number, *placed);
        first = earlier_of(first, fault);
    }
    first
}

/// The same over several entries, numbered from `start`.
pub fn scan_entries(
    book: &Book<'_>,
    scanned: &[Entry],
    start: usize,
    known: Option<Failure>,
    count: &mut Count,
) -> Option<Failure>
    requires numbers { start + length scanned.now < 2 ^ 64 }
    ensures first { result ≡ earlier known (first_fault book.now (asserted_from start scanned.now)) }
    ensures count { count.new.claims ≡ counted count.old.claims (length (asserted_from start scanned.now)) }
{
    let _start = count.claims;
    let mut first = known;
    let mut number = start;
    for entry in scanned {
        first = scan_entry(book, entry, number, first, count);
        number += 1;
    }
    first
}

/// The first failure by place in a book, each of its claims being counted.
pub fn first_failure(book: &Book<'_>, count: &mut Count) -> Option<Failure>
    ensures first { result ≡ failure book.now }
    ensures count { count.new.claims ≡ counted count.old.claims (claims_of book.now) }
{
    let first = scan_entries(book, book.old, 1, None, count);
    scan_entries(book, book.new, book.old.len() + 1, first, count)
}
