//! Transfers in byte order of their IDs, and receipts of parts in byte order of their keys.

ghost use Rattle.std.specs.Prelude.{◌≡◌, ◌≤◌, length, find, option_copied, OnOk};
ghost use Rattle.std.specs.List.{prefix_len};
ghost use Rattle.std.specs.Result.{IsOkUnless};
ghost use Rattle.treasury_state.specs.Transfer.{has_id};
ghost use Rattle.treasury_state.specs.Joined.{inserted, put_part, with_receipt, received};
ghost use Rattle.treasury_state.specs.Good.{AreAscending};
ghost use Rattle.treasury_state.specs.Room.{is_before, is_key_before};

use crate::transfer::{Part, Receipt, Transfer, is_all};
use money_core::{Cause, Items};
use std::alloc::Global;

/// How many transfers have an ID before that one.
fn place_of(transfers: &[Transfer], id: &str) -> usize
    requires { AreAscending transfers.now }
    ensures bound { result ≤ length transfers.now }
    ensures value { result ≡ prefix_len (is_before id.now) transfers.now }
{
    transfers.partition_point(|transfer| transfer.id.as_str() < id)
}

/// The transfer of that ID, by a binary search.
pub fn find_transfer<'a>(transfers: &'a [Transfer], id: &str) -> Option<&'a Transfer>
    requires { AreAscending transfers.now }
    ensures { option_copied result ≡ find (has_id id.now) transfers.now }
{
    let Some(transfer) = transfers.get(place_of(transfers, id)) else {
        return None;
    };
    if transfer.id.as_str() == id {
        Some(transfer)
    } else {
        None
    }
}

/// Puts a transfer in its place. Where memory is refused, it is lost.
pub(crate) fn insert_transfer(
    transfers: &mut Vec<Transfer>,
    transfer: Transfer,
) -> Result<(), Cause>
    requires { AreAscending transfers.old.items }
    ensures ok { OnOk result (transfers.new.items ≡ inserted transfer transfers.old.items) }
    ensures memory { IsOkUnless result Cause.OutOfMemory }
{
    let place = place_of(transfers, transfer.id.as_str());
    match transfers.insert(place, transfer) {
        Ok(()) => Ok(()),
        Err(_) => Err(Cause::OutOfMemory),
    }
}

/// Whether the part's key is before that one.
fn is_key_before(part: &Part, key: &str) -> bool
    ensures { result ≡ is_key_before key.now part.now }
{
    part.key.as_str() < key
}

/// How many parts stand before that key.
fn place_of_key(parts: &[Part], key: &str) -> usize
    ensures bound { result ≤ length parts.now }
    ensures value { result ≡ prefix_len (is_key_before key.now) parts.now }
{
    let mut count = 0;
    'part: for part in parts {
        if !is_key_before(part, key) {
            return count;
        }
        count += 1;
    }
    count
}

/// Puts a receipt of a part in its place. Where memory is refused, the parts are lost.
fn put_part(alloc: Global, parts: &mut Items<Part>, part: Part) -> Result<(), Cause>
    ensures ok { OnOk result (parts.new ≡ put_part part parts.old) }
    ensures memory { IsOkUnless result Cause.OutOfMemory }
{
    let place = place_of_key(parts.items(), part.key.as_str());
    let mut list = std::mem::replace(parts, Items::empty(alloc)).into_vec();
    match list.insert(place, part) {
        Ok(()) => {
            *parts = Items::from_vec(list);
            Ok(())
        }
        Err(_) => Err(Cause::OutOfMemory),
    }
}

/// One receipt more of the transfer: of the rest, or of a part. Where memory is refused, its parts are lost.
fn add_receipt(alloc: Global, transfer: &mut Transfer, part: Part) -> Result<(), Cause>
    ensures ok { OnOk result (transfer.new ≡ with_receipt part transfer.old) }
    ensures memory { IsOkUnless result Cause.OutOfMemory }
{
    if !is_all(part.key.as_str()) {
        return put_part(alloc, &mut transfer.parts, part);
    }
    let Part {
        key: _key,
        qty: _qty,
        day,
        payee,
    } = part;
    transfer.receipt = Some(Receipt { day, payee });
    Ok(())
}

/// Keeps a receipt of the transfer of that ID, if it is there. Where memory is refused, the transfer's parts are lost.
pub(crate) fn receive_transfer(
    alloc: Global,
    transfers: &mut Vec<Transfer>,
    id: &str,
    part: Part,
) -> Result<(), Cause>
    requires { AreAscending transfers.old.items }
    ensures ok { OnOk result (transfers.new.items ≡ received id.now part transfers.old.items) }
    ensures memory { IsOkUnless result Cause.OutOfMemory }
{
    let place = place_of(transfers, id);
    if place >= transfers.len() {
        return Ok(());
    }
    let transfer = &mut transfers[place];
    if transfer.id.as_str() != id {
        return Ok(());
    }
    add_receipt(alloc, transfer, part)
}
