//! The balance report of a branch.

ghost use Rattle.std.specs.Prelude.{◌≡◌, ◌↔◌, ◌⊎◌, ◌<◌, ◌++◌, length, false, OnOk, OnErr, IfOk, IfErr, Err};
ghost use Rattle.std.specs.Result.{IsOkUnless};
ghost use Rattle.money_core.specs.AmountText.{IsDeclared};
ghost use Rattle.book_core.specs.GoodBook.{HasRoom};
ghost use Rattle.treasury_state.specs.Federation.{has_branch};
ghost use Rattle.treasury_reports.specs.Rows.{report_as};
ghost use Rattle.treasury_reports.specs.BalanceReport.{amount_row, balance_row, account_rows, book_rows};
ghost use Rattle.treasury_reports.specs.BalanceReport.{balance_rows, balance_text};
ghost use Rattle.treasury_reports.specs.Written.{rows_in};

use crate::columns::amount_cell;
use crate::rows::{Column, Layout, push_row, push_written};
use book_core::Ledger;
use money_core::{Cause, Day, Styles, Unit};
use std::alloc::Global;
use treasury_state::State;

/// Appends the row of a balance: the amount and the account; nothing where it is zero.
fn push_amount(
    alloc: Global,
    styles: &Styles,
    account: &str,
    unit: Unit,
    qty: i64,
    layout: Layout,
    rows: &mut Vec<u8>,
) -> Result<(), Cause>
    requires { IsDeclared styles.now unit qty }
    ensures ok { OnOk result (rows.new.items
        ≡ rows.old.items ++ rows_in layout (amount_row styles.now account.now unit qty)) }
    ensures memory { IsOkUnless result Cause.OutOfMemory }
{
    if qty == 0 {
        return Ok(());
    }
    let amount = amount_cell(alloc, styles, unit, qty)?;
    let cells = [
        (Column::Amount, amount.as_slice()),
        (Column::End, account.as_bytes()),
    ];
    push_row(alloc, layout, &cells, rows)
}

/// Appends the row of the account's own balance in a commodity.
fn push_balance<L: Ledger>(
    alloc: Global,
    ledger: &L,
    styles: &Styles,
    day: Day,
    account: &str,
    unit: Unit,
    layout: Layout,
    rows: &mut Vec<u8>,
) -> Result<(), Cause>
    requires known { unit.0 < length styles.now }
    requires room { HasRoom (L.book ledger.now) }
    ensures ok { OnOk result (rows.new.items
        ≡ rows.old.items ++ rows_in layout (balance_row styles.now (L.book ledger.now) day account.now unit)) }
    ensures memory { IsOkUnless result Cause.OutOfMemory }
{
    let qty = ledger.balance(account, unit, day);
    push_amount(alloc, styles, account, unit, qty, layout, rows)
}

/// Appends the rows of an account, in the order in which the commodities were declared.
fn push_account<L: Ledger>(
    alloc: Global,
    ledger: &L,
    styles: &Styles,
    day: Day,
    account: &str,
    layout: Layout,
    rows: &mut Vec<u8>,
) -> Result<(), Cause>
    requires { HasRoom (L.book ledger.now) }
    ensures ok { OnOk result (rows.new.items
        ≡ rows.old.items ++ rows_in layout (account_rows styles.now (L.book ledger.now) day account.now)) }
    ensures memory { IsOkUnless result Cause.OutOfMemory }
{
    styles.are_styles();
    let mut number = 0;
    'units: while styles.style(Unit(number)).is_some() {
        let unit = Unit(number);
        push_balance(alloc, ledger, styles, day, account, unit, layout, rows)?;
        number += 1;
    }
    Ok(())
}

/// The rows of the balances of a book through the day that are not zero.
fn rows_of<L: Ledger>(
    alloc: Global,
    ledger: &L,
    styles: &Styles,
    day: Day,
    layout: Layout,
) -> Result<Vec<u8>, Cause>
    requires { HasRoom (L.book ledger.now) }
    ensures ok { IfOk result (λ rows. rows.items ≡ rows_in layout (book_rows styles.now (L.book ledger.now) day)) }
    ensures memory { IsOkUnless result Cause.OutOfMemory }
{
    let mut rows = Vec::new(alloc);
    'accounts: for account in ledger.accounts() {
        push_account(
            alloc,
            ledger,
            styles,
            day,
            account.as_str(),
            layout,
            &mut rows,
        )?;
    }
    Ok(rows)
}

/// Appends what `balance_report` does, in a layout; in JSON of each balance the amount and the account.
///
/// Refuses as it does, and costs as much.
pub fn balance_report_in<L: Ledger>(
    alloc: Global,
    state: &State<L>,
    branch: &str,
    day: Day,
    layout: Layout,
    out: &mut Vec<u8>,
) -> Result<(), Cause>
    ensures ok { OnOk result (out.new.items
        ≡ out.old.items ++ report_as layout (balance_rows state.now branch.now day)) }
    ensures unknown { (result ≡ Err Cause.UnknownBranch) ↔ (has_branch state.now branch.now ≡ false) }
    ensures err { OnErr result (out.new.items ≡ out.old.items) }
    ensures causes { IfErr result (λ cause. (cause ≡ Cause.UnknownBranch) ⊎ (cause ≡ Cause.OutOfMemory)) }
{
    let Some(ledger) = state.ledger(branch) else {
        return Err(Cause::UnknownBranch);
    };
    match rows_of(alloc, ledger, state.styles(), day, layout) {
        Ok(rows) => push_written(layout, rows, out),
        Err(cause) => Err(cause),
    }
}

/// Appends the balances of a branch through the day that are not zero: a line for each account, without its
/// subaccounts, and commodity.
///
/// Refuses with 20 where the branch is not there, or with 40; the vector is then as it was. Costs a look-up in the
/// ledger for each account and commodity.
pub fn balance_report<L: Ledger>(
    alloc: Global,
    state: &State<L>,
    branch: &str,
    day: Day,
    out: &mut Vec<u8>,
) -> Result<(), Cause>
    ensures ok { OnOk result (out.new.items ≡ out.old.items ++ balance_text state.now branch.now day) }
    ensures unknown { (result ≡ Err Cause.UnknownBranch) ↔ (has_branch state.now branch.now ≡ false) }
    ensures err { OnErr result (out.new.items ≡ out.old.items) }
    ensures causes { IfErr result (λ cause. (cause ≡ Cause.UnknownBranch) ⊎ (cause ≡ Cause.OutOfMemory)) }
{
    balance_report_in(alloc, state, branch, day, Layout::Text, out)
}
