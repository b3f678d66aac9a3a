//! The transfers report of a federation.

ghost use Rattle.std.specs.Prelude.{◌≡◌, ◌++◌, List, IfOk, OnOk, OnErr};
ghost use Rattle.std.specs.Result.{IsOkUnless};
ghost use Rattle.std.specs.List.{AllByRecursion, flat_map};
ghost use Rattle.money_core.specs.declared.day.Day.{Day as Number};
ghost use Rattle.treasury_state.specs.declared.transfer.Transfer.{Transfer as Sent};
ghost use Rattle.treasury_state.specs.Fair.{IsFair};
ghost use Rattle.treasury_reports.specs.Rows.{report_as};
ghost use Rattle.treasury_reports.specs.TransfersReport.{is_pending, transfer_cells, transfers_rows, AddUpToTransit};
ghost use Rattle.treasury_reports.specs.Lent.{IsListableTransfer};
ghost use Rattle.treasury_reports.specs.Written.{row_in, pending_row_in};

use crate::columns::{amount_cell, date_cell};
use crate::rows::{Column, Layout, push_row, push_written};
use book_core::Ledger;
use money_core::{Cause, Day, Styles};
use std::alloc::Global;
use treasury_state::{State, Transfer, open_of};

/// Appends the row of a transfer.
fn push_transfer(
    alloc: Global,
    styles: &Styles,
    day: Day,
    transfer: &Transfer,
    layout: Layout,
    rows: &mut Vec<u8>,
) -> Result<(), Cause>
    requires { IsListableTransfer styles.now transfer.now }
    ensures ok { OnOk result (rows.new.items
        ≡ rows.old.items ++ row_in layout (transfer_cells styles.now day transfer.now)) }
    ensures memory { IsOkUnless result Cause.OutOfMemory }
{
    let sent = date_cell(alloc, transfer.day)?;
    let amount = amount_cell(alloc, styles, transfer.unit, transfer.qty)?;
    let open = amount_cell(alloc, styles, transfer.unit, open_of(transfer, day))?;
    let cells = [
        (Column::Plain, sent.as_slice()),
        (Column::Amount, amount.as_slice()),
        (Column::Amount, open.as_slice()),
        (Column::From, transfer.source.as_str().as_bytes()),
        (Column::Plain, transfer.target.as_str().as_bytes()),
        (Column::End, transfer.id.as_str().as_bytes()),
    ];
    push_row(alloc, layout, &cells, rows)
}

/// Whether something of the transfer is open through the day.
fn is_pending(transfer: &Transfer, day: Day) -> bool
    requires { IsFair transfer.now }
    ensures { result ≡ is_pending day transfer.now }
{
    open_of(transfer, day) != 0
}

/// Appends the row of a transfer of which something is open; nothing for another.
fn push_pending(
    alloc: Global,
    styles: &Styles,
    day: Day,
    transfer: &Transfer,
    layout: Layout,
    rows: &mut Vec<u8>,
) -> Result<(), Cause>
    requires { IsListableTransfer styles.now transfer.now }
    ensures ok { OnOk result (rows.new.items
        ≡ rows.old.items ++ pending_row_in layout styles.now day transfer.now) }
    ensures memory { IsOkUnless result Cause.OutOfMemory }
{
    if is_pending(transfer, day) {
        push_transfer(alloc, styles, day, transfer, layout, rows)
    } else {
        Ok(())
    }
}

/// The rows of transfers of which something is open.
fn rows_of(
    alloc: Global,
    styles: &Styles,
    day: Day,
    transfers: &[Transfer],
    layout: Layout,
) -> Result<Vec<u8>, Cause>
    requires { AllByRecursion (IsListableTransfer styles.now) transfers.now }
    ensures ok { IfOk result (λ rows. rows.items ≡ flat_map (pending_row_in layout styles.now day) transfers.now) }
    ensures memory { IsOkUnless result Cause.OutOfMemory }
{
    let mut rows = Vec::new(alloc);
    'transfers: for transfer in transfers {
        push_pending(alloc, styles, day, transfer, layout, &mut rows)?;
    }
    Ok(rows)
}

/// Appends the transfers of which something is open through the day, in byte order of their IDs: of each the day of
/// dispatch, the amount, what is open of it, the branch that it comes from, the one that it goes to, and the ID.
///
/// Where memory is refused, it answers 40, and the vector is as it was. Costs one pass over the transfers and their
/// receipts.
pub fn transfers_report<L: Ledger>(
    alloc: Global,
    state: &State<L>,
    day: Day,
    layout: Layout,
    out: &mut Vec<u8>,
) -> Result<(), Cause>
    ensures ok { OnOk result (out.new.items ≡ out.old.items ++ report_as layout (transfers_rows state.now day)) }
    ensures err { OnErr result (out.new.items ≡ out.old.items) }
    ensures memory { IsOkUnless result Cause.OutOfMemory }
{
    state.is_good();
    match rows_of(alloc, state.styles(), day, state.transfers(), layout) {
        Ok(rows) => push_written(layout, rows, out),
        Err(cause) => Err(cause),
    }
}

/// What is open of the transfers that are listed adds up, from each branch to each and in each commodity, to what the
/// transit report says: a law. Costs nothing.
pub fn transfers_law()
    ensures { (ts : List Sent) → (day : Number) → AddUpToTransit ts day }
{}
