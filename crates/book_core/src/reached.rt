//! The assertions that new entries reach.

ghost use Rattle.std.specs.Prelude.{◌≡◌, ◌+◌, ◌<◌, ◌≤ℤ◌, ◌^◌, ◌++◌, ◌&&◌, true, nat_eq, length, map, Contains, IsTrue};
ghost use Rattle.std.specs.Prelude.{IfOk, OnOk};
ghost use Rattle.std.specs.Result.{IsOkUnless};
ghost use Rattle.std.specs.List.{AllByRecursion, list_any};
ghost use Rattle.book_core.specs.declared.claim.Asserted.{Asserted as Assertion};
ghost use Rattle.book_core.specs.declared.entry.Entry.{Entry as Line};
ghost use Rattle.book_core.specs.declared.place.Place.{Place as Spotted};
ghost use Rattle.book_core.specs.Book.{posted_legs, posted_from};
ghost use Rattle.book_core.specs.Claim.{asserted_claims, asserted_from, reach_of};
ghost use Rattle.book_core.specs.ClaimIndex.{spot_at, FindsEach};
ghost use Rattle.book_core.specs.Reached.{touches, is_touched};
ghost use Rattle.book_core.specs.Gathered.{places_of, IsReachedAt, AreReachedAt, HasReached, Gathered};
ghost use Rattle.book_core.specs.GoodBook.{IsFit};

use crate::account::{Reach, is_reached};
use crate::assertion::account_of;
use crate::claim_index::{ClaimIndex, rows_for};
use crate::entry::Entry;
use crate::judging::{is_sole_kind, reach_of_kind};
use crate::leg::Leg;
use crate::place::{Place, is_at_most};
use day_sums::Spot;
use money_core::{Cause, Claim, Day};
use std::alloc::Global;

/// Whether a leg stands before an assertion's place, where the assertion looks.
fn touches_leg(place: Place, account: &str, claim: Claim, at: Place, leg: &Leg) -> bool
    ensures { result ≡ touches (record { place = place; account = account.now; claim = claim })
        (record { place = at; leg = leg.now }) }
{
    if is_at_most(place, at) {
        return false;
    }
    let is_asked = is_sole_kind(claim.kind) || leg.unit.0 == claim.unit.0;
    if !is_asked {
        return false;
    }
    is_reached(reach_of_kind(claim.kind), account, leg.account.as_str())
}

fn touched_by_entry(place: Place, account: &str, claim: Claim, entry: &Entry, number: usize) -> bool
    ensures { result ≡ list_any (touches (record { place = place; account = account.now; claim = claim }))
        (posted_legs entry.now.day number 1 entry.now.legs) }
{
    for (i, leg) in entry.legs.items().iter().enumerate() {
        let at = Place {
            day: entry.day,
            entry: number,
            leg: i + 1,
        };
        if touches_leg(place, account, claim, at, leg) {
            return true;
        }
    }
    false
}

/// Whether one of the legs of the entries, numbered from `first`, touches an assertion.
fn touched_by(place: Place, account: &str, claim: Claim, entries: &[Entry], first: usize) -> bool
    requires { first + length entries.now < 2 ^ 64 }
    ensures { result ≡ is_touched (posted_from first entries.now)
        (record { place = place; account = account.now; claim = claim }) }
{
    let mut number = first;
    for entry in entries {
        if touched_by_entry(place, account, claim, entry, number) {
            return true;
        }
        number += 1;
    }
    false
}

/// Whether an entry has an assertion on the leg which a leg of the new entries touches.
fn touched_on(entry: &Entry, number: usize, leg: usize, new: &[Entry], first: usize) -> bool
    requires { first + length new.now < 2 ^ 64 }
    ensures { result ≡ list_any (λ (x : Assertion). nat_eq x.place.leg leg && is_touched (posted_from first new.now) x)
        (asserted_claims entry.now.day number entry.now.legs entry.now.claims) }
{
    for placed in entry.claims.items() {
        if placed.leg == leg {
            let place = Place {
                day: entry.day,
                entry: number,
                leg,
            };
            let account = account_of(entry.legs.items(), leg);
            if touched_by(place, account, placed.claim, new, first) {
                return true;
            }
        }
    }
    false
}

/// Whether an assertion of the book stands at the place which a leg of the new entries touches.
fn touched_at(old: &[Entry], place: Place, new: &[Entry]) -> bool
    requires { length old.now + length new.now < 2 ^ 63 }
    ensures some { IsTrue result → IsReachedAt old.now new.now place }
    ensures all { (x : Assertion) → Contains (asserted_from 1 old.now) x → x.place ≡ place
        → is_touched (posted_from (length old.now + 1) new.now) x ≡ true → IsTrue result }
{
    if place.entry == 0 {
        return false;
    }
    if place.entry > old.len() {
        return false;
    }
    let entry = &old[place.entry - 1];
    if entry.day.0 != place.day.0 {
        return false;
    }
    touched_on(entry, place.entry, place.leg, new, old.len() + 1)
}

fn place_of(spot: Spot) -> Place
    ensures { spot ≡ spot_at result }
{
    Place {
        day: spot.day,
        entry: spot.number,
        leg: spot.part,
    }
}

/// Puts those of the spots last at which an assertion of the book is touched by a leg of the new entries.
fn push_touched(
    places: &mut Vec<Place>,
    spots: &[Spot],
    old: &[Entry],
    new: &[Entry],
) -> Result<(), Cause>
    requires numbers { length old.now + length new.now < 2 ^ 63 }
    requires only { AreReachedAt old.now new.now places.old.items }
    ensures only { OnOk result (AreReachedAt old.now new.now places.new.items) }
    ensures kept { (p : Spotted) → Contains places.old.items p → Contains places.new.items p }
    ensures all { OnOk result (HasReached old.now new.now spots.now places.new.items) }
    ensures memory { IsOkUnless result Cause.OutOfMemory }
{
    for spot in spots {
        let place = place_of(*spot);
        if touched_at(old, place, new) {
            places.push(place)?;
        }
    }
    Ok(())
}

/// A day that is not after that of any entry.
fn first_day(entries: &[Entry]) -> Day
    ensures { AllByRecursion (λ (e : Line). result.0 ≤ℤ e.day.0) entries.now }
{
    let mut first = Day(i32::MAX);
    for entry in entries {
        if entry.day < first {
            first = entry.day;
        }
    }
    first
}

/// Puts the places of the book's assertions of that reach last that the new entries touch; one may come twice.
///
/// It looks at the assertions of that reach after the first new day, on the accounts of new legs, and for `Inside` on
/// those above them.
fn push_reached(
    places: &mut Vec<Place>,
    alloc: Global,
    old: &[Entry],
    index: &ClaimIndex,
    reach: Reach,
    new: &[Entry],
) -> Result<(), Cause>
    requires index { FindsEach index.now (asserted_from 1 old.now) }
    requires numbers { length old.now + length new.now < 2 ^ 63 }
    requires only { AreReachedAt old.now new.now places.old.items }
    ensures only { OnOk result (AreReachedAt old.now new.now places.new.items) }
    ensures kept { (p : Spotted) → Contains places.old.items p → Contains places.new.items p }
    ensures all { OnOk result ((x : Assertion) → Contains (asserted_from 1 old.now) x
        → reach_of x.claim.kind ≡ reach
        → is_touched (posted_from (length old.now + 1) new.now) x ≡ true → Contains places.new.items x.place) }
    ensures memory { IsOkUnless result Cause.OutOfMemory }
{
    let day = first_day(new);
    let part = index.part(reach);
    let rows = rows_for(alloc, part, reach, new)?;
    for row in &rows {
        push_touched(places, part.spots_behind(*row, day), old, new)?;
    }
    Ok(())
}

/// The places of the book's assertions that the new entries touch; one may come twice.
fn touched_places(
    alloc: Global,
    old: &[Entry],
    index: &ClaimIndex,
    new: &[Entry],
) -> Result<Vec<Place>, Cause>
    requires index { FindsEach index.now (asserted_from 1 old.now) }
    requires numbers { length old.now + length new.now < 2 ^ 63 }
    ensures only { IfOk result (λ v. AreReachedAt old.now new.now v.items) }
    ensures all { IfOk result (λ v. (x : Assertion) → Contains (asserted_from 1 old.now) x
        → is_touched (posted_from (length old.now + 1) new.now) x ≡ true → Contains v.items x.place) }
    ensures memory { IsOkUnless result Cause.OutOfMemory }
{
    let mut places = Vec::new(alloc);
    push_reached(&mut places, alloc, old, index, Reach::Own, new)?;
    push_reached(&mut places, alloc, old, index, Reach::Inside, new)?;
    Ok(places)
}

/// Puts the places of an entry's assertions last.
fn push_places(places: &mut Vec<Place>, entry: &Entry, number: usize) -> Result<(), Cause>
    ensures own { OnOk result (places.new.items
        ≡ places.old.items ++ places_of (asserted_claims entry.now.day number entry.now.legs entry.now.claims)) }
    ensures memory { IsOkUnless result Cause.OutOfMemory }
{
    for placed in entry.claims.items() {
        places.push(Place {
            day: entry.day,
            entry: number,
            leg: placed.leg,
        })?;
    }
    Ok(())
}

/// Puts the places of the assertions of entries, numbered from `first`, last.
fn push_own_places(places: &mut Vec<Place>, new: &[Entry], first: usize) -> Result<(), Cause>
    requires { first + length new.now < 2 ^ 64 }
    ensures own { OnOk result (places.new.items ≡ places.old.items ++ places_of (asserted_from first new.now)) }
    ensures memory { IsOkUnless result Cause.OutOfMemory }
{
    let mut number = first;
    for entry in new {
        push_places(places, entry, number)?;
        number += 1;
    }
    Ok(())
}

/// The places of the assertions that the new entries reach, in order, each once.
pub fn reached_places(
    alloc: Global,
    old: &[Entry],
    index: &ClaimIndex,
    new: &[Entry],
) -> Result<Vec<Place>, Cause>
    requires fit { AllByRecursion IsFit (old.now ++ new.now) }
    requires index { FindsEach index.now (asserted_from 1 old.now) }
    requires numbers { length old.now + length new.now < 2 ^ 63 }
    ensures places { IfOk result (λ v. Gathered old.now new.now v.items) }
    ensures memory { IsOkUnless result Cause.OutOfMemory }
{
    let mut places = touched_places(alloc, old, index, new)?;
    push_own_places(&mut places, new, old.len() + 1)?;
    places.sort()?;
    places.dedup();
    Ok(places)
}
