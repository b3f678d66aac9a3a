//! How much a treasury has, and whether some of it is missing later. No command takes anything back.

ghost use Rattle.std.specs.Prelude.{◌≡◌, ◌↔◌, map, IsTrue, IfSome};
ghost use Rattle.std.specs.List.{sum_by};
ghost use Rattle.treasury_state.specs.Seen.{branches_of};
ghost use Rattle.treasury_files.specs.Counts.{Keeps, AreNoFewer, counts_of, count_of_parts, count_of_records};

use book_core::Ledger;
use money_core::Items;
use std::alloc::Global;
use treasury_core::{Branch, State, Transfer};

/// How much a treasury has.
#[derive(Debug, Drop)]
pub struct Counts {
    pub commodities: usize,
    pub transfers: usize,
    /// The receipts of parts.
    pub receipts: usize,
    /// The entries of each branch, by its number.
    pub entries: Items<usize>,
}

/// The receipts of parts of transfers; none where their number does not fit.
fn receipts_in(transfers: &[Transfer]) -> Option<usize>
    ensures { IfSome result (λ receipts. receipts ≡ sum_by count_of_parts transfers.now) }
{
    let mut receipts = 0usize;
    'transfer: for transfer in transfers {
        let parts = transfer.parts.items().len();
        match receipts.checked_add(parts) {
            Some(more) => receipts = more,
            None => return None,
        }
    }
    Some(receipts)
}

/// The entries of each branch, by its number; none for want of memory.
fn entries_in<L: Ledger>(alloc: Global, branches: &[Branch<L>]) -> Option<Items<usize>>
    ensures { IfSome result (λ entries. entries ≡ map count_of_records (branches_of branches.now)) }
{
    let mut entries = Items::empty(alloc);
    'branch: for branch in branches {
        let records = branch.records.items().len();
        match entries.push(records) {
            Ok(()) => {}
            Err(_) => return None,
        }
    }
    Some(entries)
}

/// How much a state has; none for want of memory, or where a number does not fit.
pub fn counts_of<L: Ledger>(alloc: Global, state: &State<L>) -> Option<Counts>
    ensures { IfSome result (λ counts. counts ≡ counts_of state.now) }
{
    let Some(receipts) = receipts_in(state.transfers()) else {
        return None;
    };
    let Some(entries) = entries_in(alloc, state.branches()) else {
        return None;
    };
    Some(Counts {
        commodities: state.styles().len(),
        transfers: state.transfers().len(),
        receipts,
        entries,
    })
}

/// Whether each branch still has its entries: none of the numbers is missing later, or smaller.
fn are_kept(before: &[usize], after: &[usize]) -> bool
    ensures { IsTrue result ↔ AreNoFewer before.now after.now }
{
    if after.len() < before.len() {
        return false;
    }
    'branch: for branch in 0..before.len() {
        if after[branch] < before[branch] {
            return false;
        }
    }
    true
}

/// Whether all that was there before is there later, as far as numbers tell.
pub fn is_kept(before: &Counts, after: &Counts) -> bool
    ensures { IsTrue result ↔ Keeps before.now after.now }
{
    before.commodities <= after.commodities
        && before.transfers <= after.transfers
        && before.receipts <= after.receipts
        && are_kept(before.entries.items(), after.entries.items())
}
