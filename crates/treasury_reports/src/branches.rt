//! The branches report of a federation.

ghost use Rattle.std.specs.Prelude.{◌≡◌, ◌++◌, IfOk, OnOk, OnErr};
ghost use Rattle.std.specs.Result.{IsOkUnless};
ghost use Rattle.std.specs.List.{flat_map};
ghost use Rattle.treasury_state.specs.Seen.{branch_of};
ghost use Rattle.treasury_reports.specs.Rows.{report_as};
ghost use Rattle.treasury_reports.specs.BranchesReport.{lock_cell, branch_cells, branches_rows};
ghost use Rattle.treasury_reports.specs.Written.{row_in};

use crate::columns::{date_cell, number_cell};
use crate::rows::{Column, Layout, push_row, push_written};
use book_core::Ledger;
use journal_lines::is_day_number;
use money_core::{Cause, Day};
use std::alloc::Global;
use treasury_state::{Branch, State};

/// A lock day, an empty text where there is none. Tables that another program wrote may have one that no calendar has.
fn lock_cell(alloc: Global, locked: Option<Day>) -> Result<Vec<u8>, Cause>
    ensures ok { IfOk result (λ cell. cell.items ≡ lock_cell locked) }
    ensures memory { IsOkUnless result Cause.OutOfMemory }
{
    let mut cell = Vec::new(alloc);
    let Some(day) = locked else {
        return Ok(cell);
    };
    if is_day_number(day) {
        return date_cell(alloc, day);
    }
    cell.push(b'?')?;
    Ok(cell)
}

/// Appends the row of a branch.
fn push_branch<L: Ledger>(
    alloc: Global,
    branch: &Branch<L>,
    layout: Layout,
    rows: &mut Vec<u8>,
) -> Result<(), Cause>
    ensures ok { OnOk result (rows.new.items ≡ rows.old.items ++ row_in layout (branch_cells (branch_of branch.now))) }
    ensures memory { IsOkUnless result Cause.OutOfMemory }
{
    let lock = lock_cell(alloc, branch.locked)?;
    let number = number_cell(alloc, branch.records.items().len())?;
    let cells = [
        (Column::Lock, lock.as_slice()),
        (Column::Number, number.as_bytes()),
        (Column::End, branch.name.as_str().as_bytes()),
    ];
    push_row(alloc, layout, &cells, rows)
}

/// The rows of branches.
fn rows_of<L: Ledger>(
    alloc: Global,
    branches: &[Branch<L>],
    layout: Layout,
) -> Result<Vec<u8>, Cause>
    ensures ok { IfOk result (λ rows. rows.items
        ≡ flat_map (λ branch. row_in layout (branch_cells (branch_of branch))) branches.now) }
    ensures memory { IsOkUnless result Cause.OutOfMemory }
{
    let mut rows = Vec::new(alloc);
    'branches: for branch in branches {
        push_branch(alloc, branch, layout, &mut rows)?;
    }
    Ok(rows)
}

/// Appends the branches, in order of declaration: the day through which each is locked, the number of its entries, and
/// its name.
///
/// Where memory is refused, it answers 40, and the vector is as it was.
pub fn branches_report<L: Ledger>(
    alloc: Global,
    state: &State<L>,
    layout: Layout,
    out: &mut Vec<u8>,
) -> Result<(), Cause>
    ensures ok { OnOk result (out.new.items ≡ out.old.items ++ report_as layout (branches_rows state.now)) }
    ensures err { OnErr result (out.new.items ≡ out.old.items) }
    ensures memory { IsOkUnless result Cause.OutOfMemory }
{
    match rows_of(alloc, state.branches(), layout) {
        Ok(rows) => push_written(layout, rows, out),
        Err(cause) => Err(cause),
    }
}
