//! The transit report of a federation.

ghost use Rattle.std.specs.Prelude.{◌≡◌, ◌++◌, ◌<◌, filter, length, nat_eq, IfOk, OnOk, OnErr};
ghost use Rattle.std.specs.Result.{IsOkUnless};
ghost use Rattle.std.specs.List.{list_any, flat_map};
ghost use Rattle.std.specs.Str.{bytes_eq};
ghost use Rattle.treasury_reports.specs.Rows.{report_as};
ghost use Rattle.treasury_reports.specs.TransitReport.{is_from, is_way, open_cells, transit_row, way_rows, rows_from};
ghost use Rattle.treasury_reports.specs.TransitReport.{branch_names, transit_rows, transit_text};
ghost use Rattle.treasury_reports.specs.Lent.{lent};
ghost use Rattle.treasury_reports.specs.Written.{row_in, rows_in};

use crate::columns::amount_cell;
use crate::names::names_in_order;
use crate::rows::{Column, Layout, push_row, push_written};
use book_core::Ledger;
use money_core::{Cause, Day, Text, Unit};
use std::alloc::Global;
use treasury_state::{State, Transfer, open_amount};

/// Whether the transfer was dispatched from a branch on or before the day.
fn is_from(transfer: &Transfer, from: &str, day: Day) -> bool
    ensures { result ≡ is_from from.now day transfer.now }
{
    transfer.day.0 <= day.0 && transfer.source.as_str() == from
}

/// The transfers that were dispatched from a branch on or before the day.
fn sent_from<'a>(
    alloc: Global,
    transfers: &'a [Transfer],
    from: &str,
    day: Day,
) -> Result<Vec<&'a Transfer>, Cause>
    ensures value { IfOk result (λ sent. lent sent.items ≡ filter (is_from from.now day) transfers.now) }
    ensures memory { IsOkUnless result Cause.OutOfMemory }
{
    let mut sent = Vec::new(alloc);
    'transfers: for transfer in transfers {
        if is_from(transfer, from, day) {
            sent.push(transfer)?;
        }
    }
    Ok(sent)
}

/// Those of them that go to a branch.
fn sent_to<'a>(alloc: Global, sent: &[&'a Transfer], to: &str) -> Result<Vec<&'a Transfer>, Cause>
    ensures value { IfOk result (λ part. lent part.items ≡ filter (λ t. bytes_eq t.target to.now) (lent sent.now)) }
    ensures memory { IsOkUnless result Cause.OutOfMemory }
{
    let mut part = Vec::new(alloc);
    'transfers: for transfer in sent {
        if transfer.target.as_str() == to {
            part.push(*transfer)?;
        }
    }
    Ok(part)
}

/// Whether one of them is in the commodity.
fn has_unit(sent: &[&Transfer], unit: Unit) -> bool
    ensures { result ≡ list_any (λ t. nat_eq t.unit.0 unit.0) (lent sent.now) }
{
    'transfers: for transfer in sent {
        if transfer.unit.0 == unit.0 {
            return true;
        }
    }
    false
}

/// Appends the row of what is open between two branches in a commodity.
fn push_open<L: Ledger>(
    alloc: Global,
    state: &State<L>,
    day: Day,
    from: &str,
    to: &str,
    unit: Unit,
    layout: Layout,
    rows: &mut Vec<u8>,
) -> Result<(), Cause>
    requires { unit.0 < length state.now.styles }
    ensures ok { OnOk result (rows.new.items
        ≡ rows.old.items ++ row_in layout (open_cells state.now day from.now to.now unit)) }
    ensures memory { IsOkUnless result Cause.OutOfMemory }
{
    state.is_good();
    let qty = open_amount(state, from, to, unit, day);
    let amount = amount_cell(alloc, state.styles(), unit, qty)?;
    let cells = [
        (Column::Amount, amount.as_slice()),
        (Column::From, from.as_bytes()),
        (Column::End, to.as_bytes()),
    ];
    push_row(alloc, layout, &cells, rows)
}

/// Appends that row, where a transfer was sent so in the commodity.
fn push_unit<L: Ledger>(
    alloc: Global,
    state: &State<L>,
    day: Day,
    from: &str,
    to: &str,
    sent: &[&Transfer],
    unit: Unit,
    layout: Layout,
    rows: &mut Vec<u8>,
) -> Result<(), Cause>
    requires known { unit.0 < length state.now.styles }
    requires sent { lent sent.now ≡ filter (is_way from.now to.now day) state.now.transfers }
    ensures ok { OnOk result (rows.new.items
        ≡ rows.old.items ++ rows_in layout (transit_row state.now day from.now to.now unit)) }
    ensures memory { IsOkUnless result Cause.OutOfMemory }
{
    if has_unit(sent, unit) {
        push_open(alloc, state, day, from, to, unit, layout, rows)
    } else {
        Ok(())
    }
}

/// Appends the rows from one branch to another, given the transfers that were sent so.
fn push_way<L: Ledger>(
    alloc: Global,
    state: &State<L>,
    day: Day,
    from: &str,
    to: &str,
    sent: &[&Transfer],
    layout: Layout,
    rows: &mut Vec<u8>,
) -> Result<(), Cause>
    requires { lent sent.now ≡ filter (is_way from.now to.now day) state.now.transfers }
    ensures ok { OnOk result (rows.new.items
        ≡ rows.old.items ++ rows_in layout (way_rows state.now day from.now to.now)) }
    ensures memory { IsOkUnless result Cause.OutOfMemory }
{
    let styles = state.styles();
    styles.are_styles();
    let mut number = 0;
    'units: while styles.style(Unit(number)).is_some() {
        push_unit(
            alloc,
            state,
            day,
            from,
            to,
            sent,
            Unit(number),
            layout,
            rows,
        )?;
        number += 1;
    }
    Ok(())
}

/// Appends the rows from one branch to each of the branches.
fn push_from<L: Ledger>(
    alloc: Global,
    state: &State<L>,
    day: Day,
    names: &[Text],
    from: &str,
    layout: Layout,
    rows: &mut Vec<u8>,
) -> Result<(), Cause>
    requires { names.now ≡ branch_names state.now }
    ensures ok { OnOk result (rows.new.items ≡ rows.old.items ++ rows_in layout (rows_from state.now day from.now)) }
    ensures memory { IsOkUnless result Cause.OutOfMemory }
{
    let sent = sent_from(alloc, state.transfers(), from, day)?;
    'targets: for to in names {
        let part = sent_to(alloc, &sent, to.as_str())?;
        push_way(alloc, state, day, from, to.as_str(), &part, layout, rows)?;
    }
    Ok(())
}

/// The rows from each branch to each.
fn rows_of<L: Ledger>(
    alloc: Global,
    state: &State<L>,
    day: Day,
    layout: Layout,
) -> Result<Vec<u8>, Cause>
    ensures ok { IfOk result (λ rows. rows.items ≡ rows_in layout (transit_rows state.now day)) }
    ensures memory { IsOkUnless result Cause.OutOfMemory }
{
    let names = names_in_order(alloc, state.branches())?;
    let mut rows = Vec::new(alloc);
    'sources: for from in &names {
        push_from(alloc, state, day, &names, from.as_str(), layout, &mut rows)?;
    }
    Ok(rows)
}

/// Appends what `transit_report` does, in a layout; in JSON of each line the open amount, the branch that it comes from
/// and the one that it goes to.
///
/// Where memory is refused, it answers 40, and the vector is as it was. Costs as much.
pub fn transit_report_in<L: Ledger>(
    alloc: Global,
    state: &State<L>,
    day: Day,
    layout: Layout,
    out: &mut Vec<u8>,
) -> Result<(), Cause>
    ensures ok { OnOk result (out.new.items ≡ out.old.items ++ report_as layout (transit_rows state.now day)) }
    ensures err { OnErr result (out.new.items ≡ out.old.items) }
    ensures memory { IsOkUnless result Cause.OutOfMemory }
{
    match rows_of(alloc, state, day, layout) {
        Ok(rows) => push_written(layout, rows, out),
        Err(cause) => Err(cause),
    }
}

/// Appends what is on its way: from each branch to each, in byte order of their names, a line for each commodity in
/// which a transfer was dispatched on or before the day, with the open amount, also where that is 0.
///
/// Where memory is refused, it answers 40, and the vector is as it was. Costs two passes over the transfers for each
/// branch, and one for each line.
pub fn transit_report<L: Ledger>(
    alloc: Global,
    state: &State<L>,
    day: Day,
    out: &mut Vec<u8>,
) -> Result<(), Cause>
    ensures ok { OnOk result (out.new.items ≡ out.old.items ++ transit_text state.now day) }
    ensures err { OnErr result (out.new.items ≡ out.old.items) }
    ensures memory { IsOkUnless result Cause.OutOfMemory }
{
    transit_report_in(alloc, state, day, Layout::Text, out)
}
