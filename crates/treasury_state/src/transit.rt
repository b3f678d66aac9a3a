//! What is on its way between branches.

ghost use Rattle.std.specs.Prelude.{◌≡◌, ◌≤ℤ◌, ◌&&◌, pos, true, false, int_le, if◌then◌else◌};
ghost use Rattle.std.specs.List.{AllByRecursion};
ghost use Rattle.std.specs.Str.{bytes_eq};
ghost use Rattle.treasury_state.specs.declared.transfer.Part.{Part as TransferPart};
ghost use Rattle.treasury_state.specs.Federation.{has_branch};
ghost use Rattle.treasury_state.specs.Transfer.{sum_of_parts, received_by, open_amount, open_of, is_between, AddsUp};
ghost use Rattle.treasury_state.specs.Fair.{IsFair};

use crate::state::State;
use crate::transfer::{Part, Transfer, rest_of};
use book_core::Ledger;
use money_core::{Day, Unit};

/// What was received of a part through the day.
fn part_by(part: &Part, day: Day) -> i64
    ensures { result ≡ (if int_le part.now.day.0 day.0 then part.now.qty else pos 0) }
{
    if part.day.0 <= day.0 { part.qty } else { 0 }
}

/// What was received of parts through the day, each of which has a positive quantity.
fn received_by(parts: &[Part], day: Day) -> i64
    requires positive { AllByRecursion (λ (p : TransferPart). int_le (pos 1) p.qty ≡ true) parts.now }
    requires small { sum_of_parts parts.now ≤ℤ pos 9223372036854775807 }
    ensures { result ≡ received_by parts.now day }
{
    let mut sum: i64 = 0;
    'part: for part in parts {
        let share = part_by(part, day);
        sum += share;
    }
    sum
}

/// What is open of a transfer that was dispatched through the day.
fn open_from(transfer: &Transfer, day: Day) -> i64
    requires fair { IsFair transfer.now }
    requires sent { int_le transfer.now.day.0 day.0 ≡ true }
    ensures { result ≡ open_of transfer.now day }
{
    let open = transfer.qty - received_by(transfer.parts.items(), day);
    match &transfer.receipt {
        None => open,
        Some(receipt) => {
            if receipt.day.0 <= day.0 {
                open - rest_of(transfer)
            } else {
                open
            }
        }
    }
}

/// What is open of a transfer through the day, in smallest units: nothing before its dispatch.
pub fn open_of(transfer: &Transfer, day: Day) -> i64
    requires { IsFair transfer.now }
    ensures { result ≡ open_of transfer.now day }
{
    if day.0 < transfer.day.0 {
        return 0;
    }
    open_from(transfer, day)
}

/// The same, if it goes that way.
fn open_on_way(transfer: &Transfer, from: &str, to: &str, unit: Unit, day: Day) -> i64
    requires { IsFair transfer.now }
    ensures { result ≡ (if is_between from.now to.now unit transfer.now then open_of transfer.now day else pos 0) }
{
    let is_from = transfer.source.as_str() == from;
    let is_to = transfer.target.as_str() == to;
    let is_unit = transfer.unit.0 == unit.0;
    let is_meant = is_from && is_to && is_unit;
    if !is_meant {
        return 0;
    }
    open_of(transfer, day)
}

/// The open amount between two branches, in smallest units.
fn open_between(transfers: &[Transfer], from: &str, to: &str, unit: Unit, day: Day) -> i64
    requires fair { AllByRecursion IsFair transfers.now }
    requires small { open_amount transfers.now from.now to.now unit day ≤ℤ pos 20000000000000000 }
    ensures { result ≡ open_amount transfers.now from.now to.now unit day }
{
    let mut sum: i64 = 0;
    for transfer in transfers {
        let share = open_on_way(transfer, from, to, unit, day);
        sum += share;
    }
    sum
}

/// What was dispatched from one branch to another and not received through the day, in smallest units; 0 where a branch
/// is not there. One pass over the transfers.
pub fn open_amount<L: Ledger>(state: &State<L>, from: &str, to: &str, unit: Unit, day: Day) -> i64
    ensures value { result ≡ open_amount state.now.transfers from.now to.now unit day }
    ensures low { pos 0 ≤ℤ result }
    ensures unknown { (has_branch state.now from.now && has_branch state.now to.now) ≡ false → result ≡ pos 0 }
    ensures adds_up { has_branch state.now from.now ≡ true → has_branch state.now to.now ≡ true
        → bytes_eq from.now to.now ≡ false → AddsUp state.now from.now to.now }
{
    state.is_good();
    open_between(state.transfers(), from, to, unit, day)
}
