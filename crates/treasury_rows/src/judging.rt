//! Whether a draft is a good state.

ghost use Rattle.std.specs.Prelude.{◌≡◌, ◌↔◌, ◌≤◌, IsTrue, IfOk, MatchOption, unsigned_abs};
ghost use Rattle.std.specs.List.{list_any, AllByRecursion};
ghost use Rattle.std.specs.Result.{IsOkUnless};
ghost use Rattle.money_core.specs.Amount.{limit};
ghost use Rattle.book_core.specs.GoodBook.{IsFit, IsGoodBook};
ghost use Rattle.treasury_state.specs.declared.transfer.Transfer.{Transfer as Moved};
ghost use Rattle.treasury_state.specs.Federation.{Branch, has_name, entries};
ghost use Rattle.treasury_state.specs.Mark.{is_of_transfer};
ghost use Rattle.treasury_state.specs.Good.{AreAscending, HaveOwnNames, IsCarried, IsGoodBranch, IsGoodRecord};
ghost use Rattle.treasury_state.specs.Good.{IsGoodState, IsOffTransit};
ghost use Rattle.treasury_state.specs.Fair.{IsMarked};
ghost use Rattle.treasury_rows.specs.Judged.{IsJudged, AreJudged};

mod carried;
mod closings;
mod marks;
mod same;
mod transfers;

use book_core::{Entry, Ledger, Refusal};
use carried::is_carried;
use closings::are_closings;
use marks::own_index;
use money_core::{Cause, Copied, Items, Styles};
use std::alloc::Global;
use std::collections::HashMap;
use transfers::{are_ascending, are_good_transfers, are_small};
use treasury_state::{
    Draft, DraftBranch, MAX_BRANCHES, Record, Transfer, has_transit, is_branch_name,
};

/// Whether one of the branches has that name.
fn has_name(branches: &[DraftBranch], name: &str) -> bool
    ensures { result ≡ list_any (has_name name.now) branches.now }
{
    branches.iter().any(|branch| branch.name.as_str() == name)
}

/// Whether no two of the branches, of which there are few, have the same name.
fn have_own_names(branches: &[DraftBranch]) -> bool
    ensures { IsTrue result ↔ HaveOwnNames branches.now }
{
    for (i, branch) in branches.iter().enumerate() {
        if has_name(&branches[i + 1..], branch.name.as_str()) {
            return false;
        }
    }
    true
}

/// Whether the record has the mark of a dispatch or a receipt.
fn is_of_transfer(row: &Record) -> bool
    ensures { result ≡ is_of_transfer row.now }
{
    let mark = row.mark.as_str();
    mark.starts_with("out:") || mark.starts_with("in:")
}

/// Whether only records of transfers are on transit accounts.
fn are_off_transit(rows: &[Record]) -> bool
    ensures { IsTrue result ↔ AllByRecursion IsOffTransit rows.now }
{
    for row in rows {
        if !is_of_transfer(row) && has_transit(row.entry.legs.items()) {
            return false;
        }
    }
    true
}

/// Whether memory was refused.
fn is_memory(refusal: Refusal) -> bool
    ensures { IsTrue result ↔ (refusal ≡ Refusal.Plain Cause.OutOfMemory) }
{
    refusal == Refusal::Plain(Cause::OutOfMemory)
}

/// What is filled to judge a branch, and kept with it: the ledger of its entries, and the place of each mark's record.
#[derive(Drop)]
pub(crate) struct Judged<L: Ledger> {
    pub ledger: L,
    pub index: HashMap<String, usize>,
}

/// Copies of the records' entries, in order.
fn entries_of(alloc: Global, rows: &[Record]) -> Result<Items<Entry>, Cause>
    ensures value { IfOk result (λ list. list ≡ entries rows.now) }
    ensures memory { IsOkUnless result Cause.OutOfMemory }
{
    let mut list = Vec::with_capacity(alloc, rows.len())?;
    for row in rows {
        let entry = row.entry.copy()?;
        list.push(entry)?;
    }
    Ok(Items::from_vec(list))
}

/// The ledger of the records' entries, if their book is good: it is filled once, and judged by its own sums.
fn good_ledger<L: Ledger>(alloc: Global, rows: &[Record]) -> Result<Option<L>, Cause>
    requires { AllByRecursion IsFit (entries rows.now) }
    ensures value { IfOk result (λ o. MatchOption o (IsGoodBook (entries rows.now) → ⊥)
        (λ l. IsGoodBook (entries rows.now) × (L.book l ≡ entries rows.now))) }
    ensures memory { IsOkUnless result Cause.OutOfMemory }
{
    let list = entries_of(alloc, rows)?;
    match L::of(alloc, list) {
        Ok(ledger) => Ok(Some(ledger)),
        Err(refusal) => {
            if is_memory(refusal) {
                return Err(Cause::OutOfMemory);
            }
            Ok(None)
        }
    }
}

/// What is kept with a branch of good records, if it is good and carries what the transfers ask for.
fn judged_branch<L: Ledger>(
    alloc: Global,
    styles: &Styles,
    transfers: &[Transfer],
    branch: &DraftBranch,
) -> Result<Option<Judged<L>>, Cause>
    requires records { AllByRecursion (IsGoodRecord styles.now) branch.now.records }
    requires ids { AreAscending transfers.now }
    requires marked { AllByRecursion IsMarked transfers.now }
    requires small { AllByRecursion (λ (t : Moved). unsigned_abs t.qty ≤ limit) transfers.now }
    ensures value { IfOk result (λ o. MatchOption o
        (IsGoodBranch styles.now branch.now × IsCarried transfers.now branch.now → ⊥)
        (λ j. IsGoodBranch styles.now branch.now × IsCarried transfers.now branch.now
        × IsJudged L.book branch.now j)) }
    ensures memory { IsOkUnless result Cause.OutOfMemory }
{
    let rows = branch.records.items();
    if !is_branch_name(branch.name.as_str().as_bytes()) || !are_off_transit(rows) {
        return Ok(None);
    }
    if !are_closings(alloc, branch.locked, rows)? {
        return Ok(None);
    }
    let Some(index) = own_index(alloc, rows)? else {
        return Ok(None);
    };
    if !is_carried(alloc, transfers, branch, &index)? {
        return Ok(None);
    }
    let Some(ledger) = good_ledger(alloc, rows)? else {
        return Ok(None);
    };
    Ok(Some(Judged { ledger, index }))
}

/// What is kept with each branch of good records, if each is good and carries what the transfers ask for.
fn judged_branches<L: Ledger>(
    alloc: Global,
    styles: &Styles,
    transfers: &[Transfer],
    branches: &[DraftBranch],
) -> Result<Option<Vec<Judged<L>>>, Cause>
    requires records { AllByRecursion (λ (b : Branch). AllByRecursion (IsGoodRecord styles.now) b.records)
        branches.now }
    requires ids { AreAscending transfers.now }
    requires marked { AllByRecursion IsMarked transfers.now }
    requires small { AllByRecursion (λ (t : Moved). unsigned_abs t.qty ≤ limit) transfers.now }
    ensures value { IfOk result (λ o. MatchOption o
        (AllByRecursion (λ (b : Branch). IsGoodBranch styles.now b × IsCarried transfers.now b) branches.now → ⊥)
        (λ list. AllByRecursion (λ (b : Branch). IsGoodBranch styles.now b × IsCarried transfers.now b) branches.now
        × AreJudged L.book branches.now list.items)) }
    ensures memory { IsOkUnless result Cause.OutOfMemory }
{
    let mut list = Vec::with_capacity(alloc, branches.len())?;
    for branch in branches {
        let Some(judged) = judged_branch(alloc, styles, transfers, branch)? else {
            return Ok(None);
        };
        list.push(judged)?;
    }
    Ok(Some(list))
}

/// What is kept with each branch, if a draft of good records is a good state. A mark or an ID is found by one look-up:
/// it costs what the draft has, and each book is filled once.
///
/// Where memory is refused, it answers 40.
pub(crate) fn judge<L: Ledger>(
    alloc: Global,
    draft: &Draft,
) -> Result<Option<Vec<Judged<L>>>, Cause>
    requires records { AllByRecursion (λ (b : Branch). AllByRecursion (IsGoodRecord draft.now.styles) b.records)
        draft.now.branches }
    ensures value { IfOk result (λ o. MatchOption o (IsGoodState draft.now → ⊥)
        (λ list. IsGoodState draft.now × AreJudged L.book draft.now.branches list.items)) }
    ensures memory { IsOkUnless result Cause.OutOfMemory }
{
    draft.styles.are_styles();
    let branches = draft.branches.items();
    let transfers = draft.transfers.items();
    if branches.len() > MAX_BRANCHES || !have_own_names(branches) {
        return Ok(None);
    }
    if !are_ascending(transfers) || !are_good_transfers(transfers, branches) {
        return Ok(None);
    }
    if !are_small(transfers) {
        return Ok(None);
    }
    judged_branches(alloc, &draft.styles, transfers, branches)
}
