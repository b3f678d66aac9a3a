//! Assertions at given places, judged one after another.

ghost use Rattle.std.specs.Prelude.{◌≡◌, ◌≤◌, ◌<◌, length, Contains, Ok, None, IfSome, IfOk};
ghost use Rattle.std.specs.List.{AllByRecursion};
ghost use Rattle.std.specs.Result.{IsOkUnless};
ghost use Rattle.book_core.specs.declared.claim.Asserted.{Asserted as Assertion};
ghost use Rattle.book_core.specs.declared.claim.Placed.{Placed as OnLeg};
ghost use Rattle.book_core.specs.Claim.{account_at, asserted_from, fault, counted};
ghost use Rattle.book_core.specs.Examine.{examined, ArePlaces};
ghost use Rattle.book_core.specs.GoodBook.{AreApart, IsFit};
ghost use Rattle.book_core.specs.OwnLegs.{AreOwnIn};

use crate::assertion::account_of;
use crate::day_book::DayBook;
use crate::entry::Entry;
use crate::entry_book::EntryBook;
use crate::judging::{Balances, claim_fault};
use crate::own_legs::OwnLegs;
use crate::place::Place;
use crate::plain_ledger::MAX_ENTRIES;
use crate::refusal::{Count, Failure};
use money_core::Cause;
use std::alloc::Global;

/// From so many assertions of one entry on, sums of its legs cost less than a pass over them for each assertion.
const MANY: usize = 128;

/// Why the entry's assertion on the place's leg fails, if it does.
fn fault_in<B: Balances>(book: &B, entry: &Entry, place: Place) -> Option<Failure>
    requires { AreApart entry.now.claims }
    ensures { (y : OnLeg) → Contains entry.now.claims y → y.leg ≡ place.leg
        → result ≡ fault (B.book book.now)
        (record { place = place; account = account_at entry.now.legs y.leg; claim = y.claim }) }
{
    for placed in entry.claims.items() {
        if placed.leg == place.leg {
            let account = account_of(entry.legs.items(), placed.leg);
            return claim_fault(book, place, account, placed.claim);
        }
    }
    None
}

/// Why the book's assertion at the place fails, if it does; the legs of one entry may be summed.
fn fault_at(book: &DayBook<'_>, own: &Option<OwnLegs>, place: Place) -> Option<Failure>
    requires fit { AllByRecursion IsFit book.now }
    requires own { IfSome own.now (λ o. AreOwnIn o book.now) }
    ensures { (x : Assertion) → Contains (asserted_from 1 book.now) x → x.place ≡ place → result ≡ fault book.now x }
{
    let entry = match book.entry(place.entry) {
        Some(entry) => entry,
        None => return None,
    };
    match own {
        Some(own) => fault_in(&EntryBook::of(book, own), entry, place),
        None => fault_in(book, entry, place),
    }
}

/// The first failure by place among the book's assertions at the places; it looks at no other, and at none after it.
pub fn first_at(book: &DayBook<'_>, places: &[Place], count: &mut Count) -> Option<Failure>
    requires fit { AllByRecursion IsFit book.now }
    requires places { ArePlaces book.now places.now }
    ensures first { result ≡ examined book.now places.now }
    ensures exact { result ≡ None → count.new.claims ≡ counted count.old.claims (length places.now) }
    ensures least { count.old.claims ≤ count.new.claims }
    ensures most { count.new.claims ≤ counted count.old.claims (length places.now) }
{
    let _start = count.claims;
    for place in places {
        count.claims = count.claims.saturating_add(1);
        let fault = fault_at(book, &None, *place);
        if fault.is_some() {
            return fault;
        }
    }
    None
}

/// Whether the places from that one on begin with many of one entry.
fn are_many(places: &[Place], at: usize) -> bool
    requires { at < length places.now }
{
    if places.len() - at < MANY {
        return false;
    }
    places[at + (MANY - 1)].entry == places[at].entry
}

/// The sums of the legs of the entry of the place, where they are known already, or where many of the places from that
/// one on are of the entry.
fn own_for(
    alloc: Global,
    book: &DayBook<'_>,
    known: Option<OwnLegs>,
    places: &[Place],
    at: usize,
) -> Result<Option<OwnLegs>, Cause>
    requires low { at < length places.now }
    requires known { IfSome known (λ o. AreOwnIn o book.now) }
    ensures own { IfOk result (λ own. IfSome own (λ o. AreOwnIn o book.now)) }
    ensures memory { IsOkUnless result Cause.OutOfMemory }
{
    let _old = book.old;
    let number = places[at].entry;
    if let Some(own) = known {
        if own.number == number {
            return Ok(Some(own));
        }
    }
    if !are_many(places, at) {
        return Ok(None);
    }
    let entry = match book.entry(number) {
        Some(entry) => entry,
        None => return Ok(None),
    };
    if entry.legs.items().len() > MAX_ENTRIES {
        return Ok(None);
    }
    let own = OwnLegs::of(alloc, entry, number)?;
    Ok(Some(own))
}

/// The same as `first_at`, with the legs of entries summed of which many assertions are judged: 40 where memory is
/// refused.
pub fn first_by_sums(
    alloc: Global,
    book: &DayBook<'_>,
    places: &[Place],
    count: &mut Count,
) -> Result<Option<Failure>, Cause>
    requires fit { AllByRecursion IsFit book.now }
    requires places { ArePlaces book.now places.now }
    ensures first { IfOk result (λ first. first ≡ examined book.now places.now) }
    ensures exact { result ≡ Ok None → count.new.claims ≡ counted count.old.claims (length places.now) }
    ensures least { count.old.claims ≤ count.new.claims }
    ensures most { count.new.claims ≤ counted count.old.claims (length places.now) }
    ensures memory { IsOkUnless result Cause.OutOfMemory }
{
    let _start = count.claims;
    let mut own: Option<OwnLegs> = None;
    'places: for (i, place) in places.iter().enumerate() {
        count.claims = count.claims.saturating_add(1);
        own = own_for(alloc, book, own, places, i)?;
        let fault = fault_at(book, &own, *place);
        if fault.is_some() {
            return Ok(fault);
        }
    }
    Ok(None)
}
