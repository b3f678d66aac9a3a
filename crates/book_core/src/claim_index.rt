//! Where the assertions of a book stand, by account.
//!
//! Assertions that look at one account and those that take in subaccounts are kept apart, so that a late leg passes
//! over the `=` and `==` of the accounts above its own, which it cannot change.

ghost use Rattle.std.specs.Prelude.{◌≡◌, ℕ, List, [], true, Contains, IfOk, OnOk};
ghost use Rattle.std.specs.Result.{IsOkUnless};
ghost use Rattle.day_sums.specs.Spots.{spots_of};
ghost use Rattle.book_core.specs.declared.account.Reach.{Reach as Looks};
ghost use Rattle.book_core.specs.Account.{is_inside, reaches};
ghost use Rattle.book_core.specs.Book.{legs_of};
ghost use Rattle.book_core.specs.Claim.{asserted_claims};
ghost use Rattle.book_core.specs.ClaimIndex.{index_part, KeepsFound, FindsEach, IsListed, AreListed};

use crate::account::Reach;
use crate::assertion::account_of;
use crate::entry::Entry;
use crate::judging::reach_of_kind;
use crate::leg::Leg;
use day_sums::{NamedSpots, Spot};
use money_core::Cause;
use std::alloc::Global;

/// Where the assertions of a book stand, by account. Those that look at their account alone are apart from those that
/// take in its subaccounts, so that a leg on a subaccount leads to none of the former.
#[derive(Drop)]
pub struct ClaimIndex {
    own: NamedSpots,
    inside: NamedSpots,
}

impl ClaimIndex {
    /// That of no assertions.
    pub fn empty(alloc: Global) -> Self
        ensures { (r : Looks) (a : List ℕ) → spots_of (index_part r result) a ≡ [] }
    {
        ClaimIndex {
            own: NamedSpots::empty(alloc),
            inside: NamedSpots::empty(alloc),
        }
    }

    /// The part for the assertions of that reach.
    pub fn part(&self, reach: Reach) -> &NamedSpots
        ensures { result.now ≡ index_part reach self.now }
    {
        match reach {
            Reach::Own => &self.own,
            Reach::Inside => &self.inside,
        }
    }

    /// Notes where an assertion of that reach stands. What was noted stays, also where memory is refused (40).
    fn put(&mut self, reach: Reach, account: &[u8], spot: Spot) -> Result<(), Cause>
        ensures kept { KeepsFound self.old self.new }
        ensures put { OnOk result (Contains (spots_of (index_part reach self.new) account.now) spot) }
        ensures memory { IsOkUnless result Cause.OutOfMemory }
    {
        match reach {
            Reach::Own => self.own.put_spot(account, spot),
            Reach::Inside => self.inside.put_spot(account, spot),
        }
    }
}

/// Notes where the assertions of an entry stand. What was noted stays, also where memory is refused (40).
pub fn put_claims(index: &mut ClaimIndex, entry: &Entry, number: usize) -> Result<(), Cause>
    ensures kept { KeepsFound index.old index.new }
    ensures put { OnOk result (FindsEach index.new
        (asserted_claims entry.now.day number entry.now.legs entry.now.claims)) }
    ensures memory { IsOkUnless result Cause.OutOfMemory }
{
    for placed in entry.claims.items() {
        let account = account_of(entry.legs.items(), placed.leg);
        let spot = Spot {
            day: entry.day,
            number,
            part: placed.leg,
        };
        index.put(reach_of_kind(placed.claim.kind), account.as_bytes(), spot)?;
    }
    Ok(())
}

/// Lists the row of an account, where it has one.
fn list_row(rows: &mut Vec<usize>, index: &NamedSpots, account: &[u8]) -> Result<(), Cause>
    ensures kept { (n : ℕ) → Contains rows.old.items n → Contains rows.new.items n }
    ensures listed { OnOk result (IsListed rows.new.items index.now account.now) }
    ensures memory { IsOkUnless result Cause.OutOfMemory }
{
    if let Some(row) = index.row_of(account) {
        rows.push(row)?;
    }
    Ok(())
}

/// Lists the rows of an account and of those above it.
fn list_fronts(rows: &mut Vec<usize>, index: &NamedSpots, account: &[u8]) -> Result<(), Cause>
    ensures kept { (n : ℕ) → Contains rows.old.items n → Contains rows.new.items n }
    ensures listed { OnOk result ((a : List ℕ) → is_inside a account.now ≡ true → IsListed rows.new.items index.now a) }
    ensures memory { IsOkUnless result Cause.OutOfMemory }
{
    for i in 0..account.len() {
        if account[i] == b':' {
            list_row(rows, index, &account[..i])?;
        }
    }
    list_row(rows, index, account)
}

/// Lists the rows of the accounts of which an assertion of that reach takes in the account.
fn list_account(
    rows: &mut Vec<usize>,
    index: &NamedSpots,
    reach: Reach,
    account: &[u8],
) -> Result<(), Cause>
    ensures kept { (n : ℕ) → Contains rows.old.items n → Contains rows.new.items n }
    ensures listed { OnOk result ((a : List ℕ) → reaches reach a account.now ≡ true
        → IsListed rows.new.items index.now a) }
    ensures memory { IsOkUnless result Cause.OutOfMemory }
{
    match reach {
        Reach::Own => list_row(rows, index, account),
        Reach::Inside => list_fronts(rows, index, account),
    }
}

/// Lists the rows of the accounts of which an assertion of that reach takes in one of the legs.
fn list_legs(
    rows: &mut Vec<usize>,
    index: &NamedSpots,
    reach: Reach,
    legs: &[Leg],
) -> Result<(), Cause>
    ensures kept { (n : ℕ) → Contains rows.old.items n → Contains rows.new.items n }
    ensures listed { OnOk result (AreListed reach rows.new.items index.now legs.now) }
    ensures memory { IsOkUnless result Cause.OutOfMemory }
{
    for leg in legs {
        list_account(rows, index, reach, leg.account.as_str().as_bytes())?;
    }
    Ok(())
}

/// The rows of the accounts of which an assertion of that reach takes in one of the entries' legs, each once.
pub fn rows_for(
    alloc: Global,
    index: &NamedSpots,
    reach: Reach,
    entries: &[Entry],
) -> Result<Vec<usize>, Cause>
    ensures listed { IfOk result (λ rows. AreListed reach rows.items index.now (legs_of entries.now)) }
    ensures memory { IsOkUnless result Cause.OutOfMemory }
{
    let mut rows = Vec::new(alloc);
    for entry in entries {
        list_legs(&mut rows, index, reach, entry.legs.items())?;
    }
    rows.sort()?;
    rows.dedup();
    Ok(rows)
}
