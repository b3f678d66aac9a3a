//! Transfers, read from their rows.

ghost use Rattle.std.specs.Prelude.{◌≡◌, ◌↔◌, ◌≤◌, ◌++◌, IsTrue, ℕ, ℤ, pos, true, List, Option, map, length};
ghost use Rattle.std.specs.List.{list_any, AllByRecursion};
ghost use Rattle.std.specs.Option.{option_map};
ghost use Rattle.treasury_state.specs.declared.rows.PartRow.{PartRow as Row};
ghost use Rattle.treasury_state.specs.declared.transfer.Part.{Part as TransferPart};
ghost use Rattle.treasury_state.specs.declared.transfer.Receipt.{Receipt as TransferReceipt};
ghost use Rattle.treasury_state.specs.declared.transfer.Transfer.{Transfer as FederationTransfer};
ghost use Rattle.treasury_state.specs.Federation.{has_name, name_place};
ghost use Rattle.treasury_state.specs.Good.{AreAscending, IsShort};
ghost use Rattle.treasury_state.specs.Rows.{transfer_row, part_row, part_rows};
ghost use Rattle.treasury_rows.specs.Drafted.{IsReading, HasShortReceipt, HaveShortDays, IsNamed};

use super::number::{read_day, read_place, read_unit, rows_before, rows_from};
use money_core::{Cause, Copied, Items, Same, Text};
use std::alloc::Global;
use treasury_state::{DraftBranch, Part, PartRow, Receipt, Transfer, TransferRow};

/// The name of the branch at that place.
fn name_at(branches: &[DraftBranch], place: usize) -> Result<Text, Cause>
    ensures { IsReading (λ (name : List ℕ).
        (list_any (has_name name) branches.now ≡ true) × (name_place branches.now name ≡ place)) result }
{
    match branches.get(place) {
        Some(branch) => branch.name.copy(),
        None => Err(Cause::Damaged),
    }
}

/// The name of the branch of that number.
fn read_name(branches: &[DraftBranch], value: i64) -> Result<Text, Cause>
    ensures { IsReading (λ (name : List ℕ).
        (list_any (has_name name) branches.now ≡ true) × (pos (name_place branches.now name) ≡ value)) result }
{
    match read_place(value) {
        Ok(place) => name_at(branches, place),
        Err(cause) => Err(cause),
    }
}

/// A receipt, if there is one.
fn read_receipt(received: Option<i64>, payee: &Option<Text>) -> Result<Option<Receipt>, Cause>
    ensures { IsReading (λ (o : Option TransferReceipt). HasShortReceipt o
        × ((option_map (λ (r : TransferReceipt). r.day.0) o ≡ received)
        × (option_map (λ (r : TransferReceipt). r.payee) o ≡ payee.now))) result }
{
    match (received, payee) {
        (None, None) => Ok(None),
        (Some(value), Some(account)) => {
            let day = read_day(value)?;
            let payee = account.copy()?;
            Ok(Some(Receipt { day, payee }))
        }
        _ => Err(Cause::Damaged),
    }
}

/// A part of the transfer of that ID.
fn read_part(id: &Text, row: &PartRow) -> Result<Part, Cause>
    ensures { IsReading (λ (p : TransferPart). IsShort p.day × (part_row id.now p ≡ row.now)) result }
{
    if !id.is_same(&row.transfer) {
        return Err(Cause::Damaged);
    }
    let day = read_day(row.received)?;
    let key = row.part.copy()?;
    let payee = row.payee.copy()?;
    Ok(Part {
        key,
        qty: row.qty,
        day,
        payee,
    })
}

/// The parts of the transfer of that ID, in order.
fn read_parts(alloc: Global, id: &Text, rows: &[PartRow]) -> Result<Items<Part>, Cause>
    ensures { IsReading (λ (ps : List TransferPart). HaveShortDays ps × (map (part_row id.now) ps ≡ rows.now)) result }
{
    let mut list = Items::empty(alloc);
    'part: for row in rows {
        let part = read_part(id, row)?;
        list.push(part)?;
    }
    Ok(list)
}

/// Whether the row is of a part of the transfer of that ID.
fn is_own(id: &Text, row: &PartRow) -> bool
    ensures { IsTrue result ↔ (row.now.transfer ≡ id.now) }
{
    row.transfer.is_same(id)
}

/// How many rows at the front are of the transfer of that ID.
fn count_own(rows: &[PartRow], id: &Text) -> usize
    ensures bound { result ≤ length rows.now }
    ensures value { (own rest : List Row) → AllByRecursion (λ (r : Row). r.transfer ≡ id.now) own
        → AllByRecursion (λ (r : Row). r.transfer ≡ id.now → ⊥) rest
        → rows.now ≡ own ++ rest → result ≡ length own }
{
    let mut count = 0;
    'part: for row in rows {
        if !is_own(id, row) {
            return count;
        }
        count += 1;
    }
    count
}

/// A transfer between those branches, with its parts.
fn read_transfer(
    alloc: Global,
    branches: &[DraftBranch],
    row: &TransferRow,
    own: &[PartRow],
) -> Result<Transfer, Cause>
    ensures { IsReading (λ (t : FederationTransfer).
        IsNamed branches.now t
        × ((transfer_row branches.now t ≡ row.now) × (map (part_row row.now.id) t.parts ≡ own.now))) result }
{
    let source = read_name(branches, row.source)?;
    let target = read_name(branches, row.target)?;
    let unit = read_unit(row.unit)?;
    let day = read_day(row.dispatched)?;
    let receipt = read_receipt(row.received, &row.payee)?;
    let parts = read_parts(alloc, &row.id, own)?;
    let id = row.id.copy()?;
    let payer = row.payer.copy()?;
    Ok(Transfer {
        id,
        source,
        target,
        unit,
        qty: row.qty,
        day,
        payer,
        parts,
        receipt,
    })
}

/// The transfers between those branches, in order of their IDs, each with its parts.
pub(super) fn read_transfers(
    alloc: Global,
    branches: &[DraftBranch],
    rows: &[TransferRow],
    parts: &[PartRow],
) -> Result<Items<Transfer>, Cause>
    ensures { IsReading (λ (ts : List FederationTransfer). AllByRecursion (IsNamed branches.now) ts × (AreAscending ts
        × ((map (transfer_row branches.now) ts ≡ rows.now) × (part_rows ts ≡ parts.now)))) result }
{
    let mut list = Items::empty(alloc);
    let mut left = parts;
    'transfer: for row in rows {
        let count = count_own(left, &row.id);
        let transfer = read_transfer(alloc, branches, row, rows_before(left, count))?;
        list.push(transfer)?;
        left = rows_from(left, count);
    }
    if !left.is_empty() {
        return Err(Cause::Damaged);
    }
    Ok(list)
}
