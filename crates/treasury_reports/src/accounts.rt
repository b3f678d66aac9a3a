//! The accounts report of a branch.

ghost use Rattle.std.specs.Prelude.{◌≡◌, ◌↔◌, ◌⊎◌, ◌++◌, false, IfOk, OnOk, OnErr, IfErr, Err};
ghost use Rattle.std.specs.Result.{IsOkUnless};
ghost use Rattle.std.specs.List.{flat_map};
ghost use Rattle.treasury_state.specs.Federation.{has_branch};
ghost use Rattle.treasury_reports.specs.Rows.{report_as};
ghost use Rattle.treasury_reports.specs.AccountsReport.{account_cells, accounts_rows};
ghost use Rattle.treasury_reports.specs.Written.{row_in};

use crate::rows::{Column, Layout, push_row, push_written};
use book_core::Ledger;
use money_core::{Cause, Text};
use std::alloc::Global;
use treasury_state::State;

/// Appends the row of an account: its name.
fn push_account(
    alloc: Global,
    account: &str,
    layout: Layout,
    rows: &mut Vec<u8>,
) -> Result<(), Cause>
    ensures ok { OnOk result (rows.new.items ≡ rows.old.items ++ row_in layout (account_cells account.now)) }
    ensures memory { IsOkUnless result Cause.OutOfMemory }
{
    push_row(alloc, layout, &[(Column::End, account.as_bytes())], rows)
}

/// The rows of accounts.
fn rows_of(alloc: Global, accounts: &[Text], layout: Layout) -> Result<Vec<u8>, Cause>
    ensures ok { IfOk result (λ rows. rows.items
        ≡ flat_map (λ account. row_in layout (account_cells account)) accounts.now) }
    ensures memory { IsOkUnless result Cause.OutOfMemory }
{
    let mut rows = Vec::new(alloc);
    'accounts: for account in accounts {
        push_account(alloc, account.as_str(), layout, &mut rows)?;
    }
    Ok(rows)
}

/// Appends the accounts on which an entry of a branch has a leg, each once, in byte order.
///
/// Refuses with 20 where the branch is not there, or with 40; the vector is then as it was. Costs its text.
pub fn accounts_report<L: Ledger>(
    alloc: Global,
    state: &State<L>,
    branch: &str,
    layout: Layout,
    out: &mut Vec<u8>,
) -> Result<(), Cause>
    ensures ok { OnOk result (out.new.items ≡ out.old.items ++ report_as layout (accounts_rows state.now branch.now)) }
    ensures unknown { (result ≡ Err Cause.UnknownBranch) ↔ (has_branch state.now branch.now ≡ false) }
    ensures err { OnErr result (out.new.items ≡ out.old.items) }
    ensures causes { IfErr result (λ cause. (cause ≡ Cause.UnknownBranch) ⊎ (cause ≡ Cause.OutOfMemory)) }
{
    let Some(ledger) = state.ledger(branch) else {
        return Err(Cause::UnknownBranch);
    };
    match rows_of(alloc, ledger.accounts(), layout) {
        Ok(rows) => push_written(layout, rows, out),
        Err(cause) => Err(cause),
    }
}
