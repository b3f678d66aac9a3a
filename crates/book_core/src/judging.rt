//! How an assertion is judged, over any book whose balances can be found.

ghost use Rattle.std.specs.Prelude.{◌≡◌, List};
ghost use Rattle.book_core.specs.declared.entry.Entry.{Entry};
ghost use Rattle.book_core.specs.Claim.{reach_of, is_sole, fault};
ghost use Rattle.book_core.specs.Query.{balance_for, stray_for};

use crate::account::Reach;
use crate::balance::Query;
use crate::place::{Place, Until};
use crate::refusal::Failure;
use money_core::{Claim, ClaimKind, Unit};

/// A book whose balances can be found, however it is kept. Neither call takes memory.
pub trait Balances {
    /// The entries, in order of entry.
    ghost book: { Self → List Entry };

    /// The balance that is asked, in smallest units.
    fn found(&self, query: &Query<'_>) -> i64
        ensures { result ≡ balance_for query.now (book self.now) };

    /// The first other commodity of the account, in declared order, that is not zero.
    fn stray(&self, query: &Query<'_>) -> Option<Unit>
        ensures { result ≡ stray_for query.now (book self.now) };
}

/// Which accounts an assertion of the kind looks at.
pub fn reach_of_kind(kind: ClaimKind) -> Reach
    ensures { result ≡ reach_of kind }
{
    match kind {
        ClaimKind::Exact | ClaimKind::Sole => Reach::Own,
        ClaimKind::ExactIn | ClaimKind::SoleIn => Reach::Inside,
    }
}

/// Whether an assertion of the kind asks that every other commodity is zero.
pub fn is_sole_kind(kind: ClaimKind) -> bool
    ensures { result ≡ is_sole kind }
{
    match kind {
        ClaimKind::Exact | ClaimKind::ExactIn => false,
        ClaimKind::Sole | ClaimKind::SoleIn => true,
    }
}

/// Why a claim fails, if it does.
pub fn claim_fault<B: Balances>(
    book: &B,
    place: Place,
    account: &str,
    claim: Claim,
) -> Option<Failure>
    ensures { result ≡ fault (B.book book.now) (record { place = place; account = account.now; claim = claim }) }
{
    let query = Query {
        reach: reach_of_kind(claim.kind),
        account,
        unit: claim.unit,
        limit: Until::At(place),
    };
    let found = book.found(&query);
    if found != claim.qty {
        return Some(Failure {
            place,
            unit: claim.unit,
            asserted: claim.qty,
            found,
        });
    }
    if !is_sole_kind(claim.kind) {
        return None;
    }
    match book.stray(&query) {
        None => None,
        Some(unit) => {
            let other = book.found(&Query { unit, ..query });
            Some(Failure {
                place,
                unit,
                asserted: 0,
                found: other,
            })
        }
    }
}
