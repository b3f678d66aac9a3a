//! Whether transfers are good, and in order.

ghost use Rattle.std.specs.Prelude.{◌≡◌, ◌↔◌, ◌≤◌, IsTrue, pos, int_le, true, unsigned_abs};
ghost use Rattle.std.specs.List.{AllByRecursion};
ghost use Rattle.money_core.specs.Amount.{limit};
ghost use Rattle.treasury_state.specs.declared.transfer.Part.{Part as TransferPart};
ghost use Rattle.treasury_state.specs.declared.transfer.Transfer.{Transfer as Moved};
ghost use Rattle.treasury_state.specs.Transfer.{is_key, sum_of_parts};
ghost use Rattle.treasury_state.specs.Good.{AreAscending, AreKeyed, IsGoodPart, HasGoodParts, IsGoodRest};
ghost use Rattle.treasury_state.specs.Good.{IsGoodTransfer};
ghost use Rattle.treasury_state.specs.Room.{is_before, is_key_before};

use super::has_name;
use money_core::Day;
use treasury_state::{DraftBranch, Part, Transfer, is_id, is_key, is_reserved_account, rest_of};

/// The greatest quantity, in smallest units.
const MAX_QUANTITY: u64 = 10_000_000_000_000_000;

/// Whether the transfer's ID is before that of the other.
fn is_before(transfer: &Transfer, other: &Transfer) -> bool
    ensures { result ≡ is_before other.now.id transfer.now }
{
    transfer.id.as_str() < other.id.as_str()
}

/// Whether the transfers are in byte order of their IDs, each once.
pub(super) fn are_ascending(transfers: &[Transfer]) -> bool
    ensures { IsTrue result ↔ AreAscending transfers.now }
{
    for i in 1..transfers.len() {
        if !is_before(&transfers[i - 1], &transfers[i]) {
            return false;
        }
    }
    true
}

/// Whether each key is well formed, and none is `all`.
fn are_keys(parts: &[Part]) -> bool
    ensures { IsTrue result ↔ AllByRecursion (λ (p : TransferPart). is_key p.key ≡ true) parts.now }
{
    for part in parts {
        if !is_key(part.key.as_str()) {
            return false;
        }
    }
    true
}

/// Whether the part's key is before that of the other.
fn is_key_before(part: &Part, other: &Part) -> bool
    ensures { result ≡ is_key_before other.now.key part.now }
{
    part.key.as_str() < other.key.as_str()
}

/// Whether the parts are in byte order of their keys, each once.
fn are_keyed(parts: &[Part]) -> bool
    ensures { IsTrue result ↔ AreKeyed parts.now }
{
    for i in 1..parts.len() {
        if !is_key_before(&parts[i - 1], &parts[i]) {
            return false;
        }
    }
    true
}

/// Whether the part is of a positive quantity, no earlier than the dispatch, and its payee no transit account.
fn is_good_part(dispatched: Day, part: &Part) -> bool
    ensures { IsTrue result ↔ IsGoodPart dispatched part.now }
{
    part.qty >= 1 && dispatched.0 <= part.day.0 && !is_reserved_account(part.payee.as_str())
}

/// Whether each part is.
fn are_good_parts(dispatched: Day, parts: &[Part]) -> bool
    ensures { IsTrue result ↔ AllByRecursion (IsGoodPart dispatched) parts.now }
{
    for part in parts {
        if !is_good_part(dispatched, part) {
            return false;
        }
    }
    true
}

/// Whether parts, each of a positive quantity, are together at most that quantity. No sum is formed, which may be
/// large.
fn are_within(qty: i64, parts: &[Part]) -> bool
    requires { AllByRecursion (λ (p : TransferPart). int_le (pos 1) p.qty ≡ true) parts.now }
    ensures { IsTrue result ↔ (int_le (sum_of_parts parts.now) qty ≡ true) }
{
    let mut left = qty;
    'part: for part in parts {
        if part.qty > left {
            return false;
        }
        left -= part.qty;
    }
    left >= 0
}

/// Whether the parts of the transfer are good, and together at most its amount.
fn has_good_parts(transfer: &Transfer) -> bool
    ensures { IsTrue result ↔ HasGoodParts transfer.now }
{
    let parts = transfer.parts.items();
    are_keys(parts)
        && are_keyed(parts)
        && are_good_parts(transfer.day, parts)
        && are_within(transfer.qty, parts)
}

/// Whether the receipt of the rest, if there is one, is good: something is left for it.
fn is_good_rest(transfer: &Transfer) -> bool
    requires { HasGoodParts transfer.now }
    ensures { IsTrue result ↔ IsGoodRest transfer.now transfer.now.receipt }
{
    match &transfer.receipt {
        None => true,
        Some(receipt) => {
            rest_of(transfer) >= 1
                && transfer.day.0 <= receipt.day.0
                && !is_reserved_account(receipt.payee.as_str())
        }
    }
}

/// Whether the transfer is a good one between these branches.
fn is_good_transfer(transfer: &Transfer, branches: &[DraftBranch]) -> bool
    ensures { IsTrue result ↔ IsGoodTransfer branches.now transfer.now }
{
    is_id(transfer.id.as_str().as_bytes())
        && has_name(branches, transfer.source.as_str())
        && has_name(branches, transfer.target.as_str())
        && transfer.source.as_str() != transfer.target.as_str()
        && transfer.qty >= 1
        && !is_reserved_account(transfer.payer.as_str())
        && has_good_parts(transfer)
        && is_good_rest(transfer)
}

/// Whether each transfer is.
pub(super) fn are_good_transfers(transfers: &[Transfer], branches: &[DraftBranch]) -> bool
    ensures { IsTrue result ↔ AllByRecursion (IsGoodTransfer branches.now) transfers.now }
{
    for transfer in transfers {
        if !is_good_transfer(transfer, branches) {
            return false;
        }
    }
    true
}

/// Whether each quantity is within the limit.
pub(super) fn are_small(transfers: &[Transfer]) -> bool
    ensures { IsTrue result ↔ AllByRecursion (λ (t : Moved). unsigned_abs t.qty ≤ limit) transfers.now }
{
    for transfer in transfers {
        if transfer.qty.unsigned_abs() > MAX_QUANTITY {
            return false;
        }
    }
    true
}
