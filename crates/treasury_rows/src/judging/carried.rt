//! Whether the records of transfers in a branch are those that the transfers ask for.

ghost use Rattle.std.specs.Prelude.{◌≡◌, ◌↔◌, ◌≤◌, ◌++◌, map, Some, None, true, IsTrue, IfOk, OnOk, unsigned_abs};
ghost use Rattle.std.specs.List.{AllByRecursion};
ghost use Rattle.std.specs.Result.{IsOkUnless};
ghost use Rattle.std.specs.Str.{bytes_eq};
ghost use Rattle.money_core.specs.Amount.{limit};
ghost use Rattle.treasury_state.specs.declared.record.Record.{Record as Row};
ghost use Rattle.treasury_state.specs.declared.transfer.Part.{Part as TransferPart};
ghost use Rattle.treasury_state.specs.declared.transfer.Transfer.{Transfer as Moved};
ghost use Rattle.treasury_state.specs.Mark.{held, is_held, is_of_transfer};
ghost use Rattle.treasury_state.specs.Transfer.{of_rest, receipts_of, asked, in_records, out_records, receipt_record};
ghost use Rattle.treasury_state.specs.Good.{AreAscending, HasGoodParts, IsCarried};
ghost use Rattle.treasury_state.specs.Fair.{IsMarked};
ghost use Rattle.treasury_state.specs.Index.{IsIndexOf};

use super::is_of_transfer;
use super::marks::own_index;
use super::same::is_same_record;
use money_core::{Cause, Items};
use std::alloc::Global;
use std::collections::HashMap;
use treasury_state::{
    DraftBranch, Part, Record, Transfer, dispatch_record, find_mark, receipt_record, rest_part,
};

/// Puts the record of the dispatch last, where the branch is the source.
fn add_dispatch(
    alloc: Global,
    transfer: &Transfer,
    name: &str,
    rows: &mut Items<Record>,
) -> Result<(), Cause>
    requires { unsigned_abs transfer.now.qty ≤ limit }
    ensures ok { OnOk result (rows.new ≡ rows.old ++ out_records transfer.now (bytes_eq transfer.now.source name.now)) }
    ensures memory { IsOkUnless result Cause.OutOfMemory }
{
    if transfer.source.as_str() != name {
        return Ok(());
    }
    let row = dispatch_record(alloc, transfer)?;
    rows.push(row)
}

/// Puts the records of the parts last.
fn add_parts(
    alloc: Global,
    transfer: &Transfer,
    parts: &[Part],
    rows: &mut Items<Record>,
) -> Result<(), Cause>
    requires { AllByRecursion (λ (p : TransferPart). unsigned_abs p.qty ≤ limit) parts.now }
    ensures ok { OnOk result (rows.new ≡ rows.old ++ map (receipt_record transfer.now) parts.now) }
    ensures memory { IsOkUnless result Cause.OutOfMemory }
{
    'part: for part in parts {
        let row = receipt_record(alloc, transfer, part)?;
        rows.push(row)?;
    }
    Ok(())
}

/// Puts the record of the receipt of the rest last, if there is one.
fn add_rest(alloc: Global, transfer: &Transfer, rows: &mut Items<Record>) -> Result<(), Cause>
    requires parts { HasGoodParts transfer.now }
    requires small { unsigned_abs transfer.now.qty ≤ limit }
    ensures ok { OnOk result (rows.new
        ≡ rows.old ++ map (receipt_record transfer.now) (of_rest transfer.now transfer.now.receipt)) }
    ensures memory { IsOkUnless result Cause.OutOfMemory }
{
    match &transfer.receipt {
        None => Ok(()),
        Some(receipt) => {
            let part = rest_part(alloc, transfer, receipt)?;
            let row = receipt_record(alloc, transfer, &part)?;
            rows.push(row)
        }
    }
}

/// Puts the records of receipts last, where the branch is the target.
fn add_receipts(
    alloc: Global,
    transfer: &Transfer,
    name: &str,
    rows: &mut Items<Record>,
) -> Result<(), Cause>
    requires parts { HasGoodParts transfer.now }
    requires small { unsigned_abs transfer.now.qty ≤ limit }
    ensures ok { OnOk result (rows.new
        ≡ rows.old ++ in_records transfer.now (bytes_eq transfer.now.target name.now) (receipts_of transfer.now)) }
    ensures memory { IsOkUnless result Cause.OutOfMemory }
{
    if transfer.target.as_str() != name {
        return Ok(());
    }
    add_parts(alloc, transfer, transfer.parts.items(), rows)?;
    add_rest(alloc, transfer, rows)
}

/// The records that the transfers ask for in the branch of that name.
fn asked(alloc: Global, transfers: &[Transfer], name: &str) -> Result<Items<Record>, Cause>
    requires marked { AllByRecursion IsMarked transfers.now }
    requires small { AllByRecursion (λ (t : Moved). unsigned_abs t.qty ≤ limit) transfers.now }
    ensures value { IfOk result (λ rows. rows ≡ asked transfers.now name.now) }
    ensures memory { IsOkUnless result Cause.OutOfMemory }
{
    let mut rows = Items::empty(alloc);
    for transfer in transfers {
        add_dispatch(alloc, transfer, name, &mut rows)?;
        add_receipts(alloc, transfer, name, &mut rows)?;
    }
    Ok(rows)
}

/// Whether the records have that one under its mark.
fn is_held(records: &[Record], index: &HashMap<String, usize>, row: &Record) -> bool
    requires { IsIndexOf index.now records.now }
    ensures { IsTrue result ↔ (held records.now row.now.mark ≡ Some row.now) }
{
    match find_mark(index, records, row.mark.as_str()) {
        Some(holder) => is_same_record(holder, row),
        None => false,
    }
}

/// Whether the records have each of those rows under its mark.
fn are_held(records: &[Record], index: &HashMap<String, usize>, rows: &[Record]) -> bool
    requires { IsIndexOf index.now records.now }
    ensures { IsTrue result ↔ AllByRecursion (λ (r : Row). held records.now r.mark ≡ Some r) rows.now }
{
    for row in rows {
        if !is_held(records, index, row) {
            return false;
        }
    }
    true
}

/// Whether one of the rows has the record's mark.
fn is_asked(rows: &[Record], index: &HashMap<String, usize>, row: &Record) -> bool
    requires { IsIndexOf index.now rows.now }
    ensures { result ≡ is_held rows.now row.now.mark }
{
    match find_mark(index, rows, row.mark.as_str()) {
        Some(_) => true,
        None => false,
    }
}

/// Whether one of the rows has the mark of each record that is of a transfer.
fn are_asked(rows: &[Record], index: &HashMap<String, usize>, records: &[Record]) -> bool
    requires { IsIndexOf index.now rows.now }
    ensures { IsTrue result ↔ AllByRecursion (λ (r : Row). is_of_transfer r ≡ true → is_held rows.now r.mark ≡ true)
        records.now }
{
    for row in records {
        if is_of_transfer(row) && !is_asked(rows, index, row) {
            return false;
        }
    }
    true
}

/// Whether the branch's records of transfers are those that the transfers ask for: each row that is asked for is held,
/// and each record of a transfer is asked for.
pub(super) fn is_carried(
    alloc: Global,
    transfers: &[Transfer],
    branch: &DraftBranch,
    index: &HashMap<String, usize>,
) -> Result<bool, Cause>
    requires ids { AreAscending transfers.now }
    requires marked { AllByRecursion IsMarked transfers.now }
    requires small { AllByRecursion (λ (t : Moved). unsigned_abs t.qty ≤ limit) transfers.now }
    requires index { IsIndexOf index.now branch.now.records }
    ensures value { IfOk result (λ is. IsTrue is ↔ IsCarried transfers.now branch.now) }
    ensures memory { IsOkUnless result Cause.OutOfMemory }
{
    let records = branch.records.items();
    let rows = asked(alloc, transfers, branch.name.as_str())?;
    let Some(marks) = own_index(alloc, rows.items())? else {
        return Ok(false);
    };
    if !are_held(records, index, rows.items()) {
        return Ok(false);
    }
    Ok(are_asked(rows.items(), &marks, records))
}
