//! The journal report of a branch.

ghost use Rattle.std.specs.Prelude.{◌≡◌, ◌↔◌, ◌⊎◌, ◌++◌, false, OnOk, OnErr, IfOk, IfErr, Err};
ghost use Rattle.std.specs.Result.{IsOkUnless};
ghost use Rattle.std.specs.List.{AllByRecursion, flat_map};
ghost use Rattle.treasury_state.specs.Federation.{has_branch};
ghost use Rattle.treasury_state.specs.Good.{IsGoodRecord};
ghost use Rattle.treasury_reports.specs.Rows.{report_as};
ghost use Rattle.treasury_reports.specs.JournalReport.{branch_journal, txn_cells, journal_rows};
ghost use Rattle.treasury_reports.specs.Written.{row_in};

use crate::branch::records_of;
use crate::rows::{Column, Layout, push_row, push_written};
use book_core::Ledger;
use journal_format::print_txn;
use money_core::{Cause, Styles};
use std::alloc::Global;
use treasury_state::{Record, State};

/// Appends the row of a record: the canonical text of its transaction.
fn push_record(
    alloc: Global,
    styles: &Styles,
    row: &Record,
    layout: Layout,
    rows: &mut Vec<u8>,
) -> Result<(), Cause>
    requires { IsGoodRecord styles.now row.now }
    ensures ok { OnOk result (rows.new.items
        ≡ rows.old.items ++ row_in layout (txn_cells styles.now row.now.txn)) }
    ensures memory { IsOkUnless result Cause.OutOfMemory }
{
    let mut text = Vec::new(alloc);
    match print_txn(alloc, &row.txn, styles, &mut text) {
        Ok(()) => push_row(alloc, layout, &[(Column::End, text.as_slice())], rows),
        Err(cause) => Err(cause),
    }
}

/// The rows of records.
fn rows_of(
    alloc: Global,
    styles: &Styles,
    records: &[Record],
    layout: Layout,
) -> Result<Vec<u8>, Cause>
    requires { AllByRecursion (IsGoodRecord styles.now) records.now }
    ensures ok { IfOk result (λ rows. rows.items
        ≡ flat_map (λ row. row_in layout (txn_cells styles.now row.txn)) records.now) }
    ensures memory { IsOkUnless result Cause.OutOfMemory }
{
    let mut rows = Vec::new(alloc);
    'records: for row in records {
        push_record(alloc, styles, row, layout, &mut rows)?;
    }
    Ok(rows)
}

/// Appends what `journal_report` does, in a layout; in JSON the canonical text of each transaction with its mark.
///
/// Refuses as it does.
pub fn journal_report_in<L: Ledger>(
    alloc: Global,
    state: &State<L>,
    branch: &str,
    layout: Layout,
    out: &mut Vec<u8>,
) -> Result<(), Cause>
    ensures ok { OnOk result (out.new.items ≡ out.old.items ++ report_as layout (journal_rows state.now branch.now)) }
    ensures unknown { (result ≡ Err Cause.UnknownBranch) ↔ (has_branch state.now branch.now ≡ false) }
    ensures err { OnErr result (out.new.items ≡ out.old.items) }
    ensures causes { IfErr result (λ cause. (cause ≡ Cause.UnknownBranch) ⊎ (cause ≡ Cause.OutOfMemory)) }
{
    let Some(records) = records_of(state, branch) else {
        return Err(Cause::UnknownBranch);
    };
    state.is_good();
    match rows_of(alloc, state.styles(), records, layout) {
        Ok(rows) => push_written(layout, rows, out),
        Err(cause) => Err(cause),
    }
}

/// Appends the journal of a branch: the canonical texts of its transactions, each with its mark and an empty line
/// after it, in order of entry.
///
/// Refuses with 20 where the branch is not there, or with 40; the vector is then as it was.
pub fn journal_report<L: Ledger>(
    alloc: Global,
    state: &State<L>,
    branch: &str,
    out: &mut Vec<u8>,
) -> Result<(), Cause>
    ensures ok { OnOk result (out.new.items ≡ out.old.items ++ branch_journal state.now branch.now) }
    ensures unknown { (result ≡ Err Cause.UnknownBranch) ↔ (has_branch state.now branch.now ≡ false) }
    ensures err { OnErr result (out.new.items ≡ out.old.items) }
    ensures causes { IfErr result (λ cause. (cause ≡ Cause.UnknownBranch) ⊎ (cause ≡ Cause.OutOfMemory)) }
{
    journal_report_in(alloc, state, branch, Layout::Text, out)
}
