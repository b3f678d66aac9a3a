//! The register report of an account.

ghost use Rattle.std.specs.Prelude.{◌≡◌, ◌↔◌, ◌⊎◌, ◌++◌, ◌<◌, ◌≤◌, ◌+ℤ◌, [], ◌∷◌, length, slice_set, unsigned_abs};
ghost use Rattle.std.specs.Prelude.{false, IfOk, OnOk, OnErr, IfErr, Err, option_copied};
ghost use Rattle.std.specs.Result.{IsOkUnless};
ghost use Rattle.std.specs.List.{AllByRecursion};
ghost use Rattle.money_core.specs.Amount.{limit};
ghost use Rattle.money_core.specs.AmountText.{IsDeclared};
ghost use Rattle.book_core.specs.GoodBook.{HasRoom};
ghost use Rattle.treasury_state.specs.Federation.{has_branch, entries};
ghost use Rattle.treasury_state.specs.Good.{IsGoodRecord};
ghost use Rattle.treasury_reports.specs.Rows.{report_as};
ghost use Rattle.treasury_reports.specs.RegisterReport.{register_cells, summed_behind, rows_since, is_since};
ghost use Rattle.treasury_reports.specs.RegisterReport.{register_rows, register_text, by_day, listed_from};
ghost use Rattle.treasury_reports.specs.Lent.{IsListable, HaveRoom, sum_at};
ghost use Rattle.treasury_reports.specs.Written.{row_in, rows_in};

use crate::branch::records_of;
use crate::columns::{amount_cell, date_cell, number_cell};
use crate::listed::{Listed, listed_of, sort_by_day};
use crate::rows::{Column, Layout, push_row, push_written};
use book_core::Ledger;
use money_core::{Cause, Day, Styles, Unit};
use std::alloc::Global;
use treasury_state::{Record, State};

/// Appends the row of a listed leg, with the sum so far.
fn push_listed(
    alloc: Global,
    styles: &Styles,
    one: &Listed,
    sum: i64,
    layout: Layout,
    rows: &mut Vec<u8>,
) -> Result<(), Cause>
    requires listable { IsListable styles.now one.now }
    requires sum { IsDeclared styles.now one.now.leg.unit sum }
    ensures ok { OnOk result (rows.new.items
        ≡ rows.old.items ++ row_in layout (register_cells styles.now one.now sum)) }
    ensures memory { IsOkUnless result Cause.OutOfMemory }
{
    let day = date_cell(alloc, one.day)?;
    let number = number_cell(alloc, one.number)?;
    let amount = amount_cell(alloc, styles, one.leg.unit, one.leg.qty)?;
    let total = amount_cell(alloc, styles, one.leg.unit, sum)?;
    let cells = [
        (Column::Plain, day.as_slice()),
        (Column::Number, number.as_bytes()),
        (Column::Amount, amount.as_slice()),
        (Column::Amount, total.as_slice()),
        (Column::End, one.leg.account.as_str().as_bytes()),
        (Column::Note, one.description.as_str().as_bytes()),
    ];
    push_row(alloc, layout, &cells, rows)
}

/// Whether a day is not before the first that is asked for, where one is.
fn is_since(from: Option<Day>, day: Day) -> bool
    ensures { result ≡ is_since from day }
{
    match from {
        Some(first) => first.0 <= day.0,
        None => true,
    }
}

/// The same, where its day is not before the first that is asked for.
fn push_since(
    alloc: Global,
    styles: &Styles,
    one: &Listed,
    sum: i64,
    from: Option<Day>,
    layout: Layout,
    rows: &mut Vec<u8>,
) -> Result<(), Cause>
    requires listable { IsListable styles.now one.now }
    requires sum { IsDeclared styles.now one.now.leg.unit sum }
    ensures ok { OnOk result (rows.new.items
        ≡ rows.old.items ++ rows_in layout (rows_since styles.now from ((one.now, sum) ∷ []))) }
    ensures memory { IsOkUnless result Cause.OutOfMemory }
{
    if is_since(from, one.day) {
        push_listed(alloc, styles, one, sum, layout, rows)
    } else {
        Ok(())
    }
}

/// Adds to the sum of a commodity, and answers it.
fn add_to(sums: &mut Vec<i64>, unit: Unit, qty: i64) -> i64
    requires known { unit.0 < length sums.old.items }
    requires small { unsigned_abs (sum_at sums.old.items unit +ℤ qty) ≤ limit }
    ensures sum { result ≡ sum_at sums.old.items unit +ℤ qty }
    ensures sums { sums.new.items ≡ slice_set sums.old.items unit.0 (sum_at sums.old.items unit +ℤ qty) }
{
    let at = usize::from(unit.0);
    let sum = sums[at] + qty;
    sums[at] = sum;
    sum
}

/// The rows of listed legs from a day on, each with the sum so far in its commodity. One pass: the sums are kept.
fn rows_of(
    alloc: Global,
    styles: &Styles,
    all: &[Listed],
    from: Option<Day>,
    layout: Layout,
) -> Result<Vec<u8>, Cause>
    requires listable { AllByRecursion (IsListable styles.now) all.now }
    requires room { HaveRoom all.now }
    ensures ok { IfOk result (λ rows. rows.items
        ≡ rows_in layout (rows_since styles.now from (summed_behind [] all.now))) }
    ensures memory { IsOkUnless result Cause.OutOfMemory }
{
    let mut rows = Vec::new(alloc);
    let mut sums: Vec<i64> = Vec::new(alloc);
    sums.resize(styles.len(), 0)?;
    'lines: for one in all {
        let sum = add_to(&mut sums, one.leg.unit, one.leg.qty);
        push_since(alloc, styles, one, sum, from, layout, &mut rows)?;
    }
    Ok(rows)
}

/// The rows of the register of an account over the records of a branch, in order of place.
fn rows_in_order(
    alloc: Global,
    styles: &Styles,
    records: &[Record],
    account: &str,
    tag: Option<&str>,
    from: Option<Day>,
    layout: Layout,
) -> Result<Vec<u8>, Cause>
    requires good { AllByRecursion (IsGoodRecord styles.now) records.now }
    requires room { HasRoom (entries records.now) }
    ensures ok { IfOk result (λ rows. rows.items ≡ rows_in layout (rows_since styles.now from (summed_behind []
        (by_day (listed_from account.now (option_copied tag.entry) 1 records.now))))) }
    ensures memory { IsOkUnless result Cause.OutOfMemory }
{
    let mut all = listed_of(alloc, records, account, tag)?;
    sort_by_day(&mut all)?;
    rows_of(alloc, styles, &all, from, layout)
}

/// Appends what `register_report` does, in a layout; in JSON of each leg the day, the number of the entry, the amount,
/// the sum so far, the account and the description. Where a day is given, the legs before it are left out: their
/// amounts stay in the sums.
///
/// Refuses as it does, and costs as much.
pub fn register_report_in<L: Ledger>(
    alloc: Global,
    state: &State<L>,
    branch: &str,
    account: &str,
    tag: Option<&str>,
    from: Option<Day>,
    layout: Layout,
    out: &mut Vec<u8>,
) -> Result<(), Cause>
    ensures ok { OnOk result (out.new.items ≡ out.old.items
        ++ report_as layout (register_rows state.now branch.now account.now (option_copied tag.entry) from)) }
    ensures unknown { (result ≡ Err Cause.UnknownBranch) ↔ (has_branch state.now branch.now ≡ false) }
    ensures err { OnErr result (out.new.items ≡ out.old.items) }
    ensures causes { IfErr result (λ cause. (cause ≡ Cause.UnknownBranch) ⊎ (cause ≡ Cause.OutOfMemory)) }
{
    let Some(records) = records_of(state, branch) else {
        return Err(Cause::UnknownBranch);
    };
    state.is_good();
    match rows_in_order(alloc, state.styles(), records, account, tag, from, layout) {
        Ok(rows) => push_written(layout, rows, out),
        Err(cause) => Err(cause),
    }
}

/// Appends the register of an account and its subaccounts in a branch, in order of place: a line for each leg, with the
/// sum so far of the listed legs in its commodity. With a tag, `NAME` or `NAME=VALUE`, only the legs of entries whose
/// transaction has it in a comment of its own or of a posting are listed.
///
/// Refuses with 20 where the branch is not there, or with 40; the vector is then as it was. Costs one pass over the
/// branch's entries, and the sorting of what is listed.
pub fn register_report<L: Ledger>(
    alloc: Global,
    state: &State<L>,
    branch: &str,
    account: &str,
    tag: Option<&str>,
    out: &mut Vec<u8>,
) -> Result<(), Cause>
    ensures ok { OnOk result (out.new.items
        ≡ out.old.items ++ register_text state.now branch.now account.now (option_copied tag.entry)) }
    ensures unknown { (result ≡ Err Cause.UnknownBranch) ↔ (has_branch state.now branch.now ≡ false) }
    ensures err { OnErr result (out.new.items ≡ out.old.items) }
    ensures causes { IfErr result (λ cause. (cause ≡ Cause.UnknownBranch) ⊎ (cause ≡ Cause.OutOfMemory)) }
{
    register_report_in(alloc, state, branch, account, tag, None, Layout::Text, out)
}
