//! A draft of a state, read from its rows.

ghost use Rattle.std.specs.Prelude.{◌≡◌, ◌⊎◌, IfOk, IfErr};
ghost use Rattle.std.specs.List.{AllByRecursion};
ghost use Rattle.treasury_state.specs.Federation.{Branch as FederationBranch, Federation};
ghost use Rattle.treasury_state.specs.Good.{IsGoodRecord, IsGoodState};
ghost use Rattle.treasury_state.specs.Rows.{entry_rows_in, rows};

use money_core::Cause;
use std::alloc::Global;
use treasury_state::{Draft, Parts};

mod branch_rows;
mod entry_rows;
mod number;
mod transfer_rows;
mod unit_rows;

use branch_rows::read_branches;
pub(crate) use number::{are_equal, is_day, is_number, rows_before, rows_from};
use transfer_rows::read_transfers;
use unit_rows::read_styles;

/// The draft of a state, read from its rows: what a good state with these rows has to be.
///
/// It looks at all rows but those of legs and claims, and those of entries are its own. 43 where no good state has
/// these rows, and 40 for want of memory.
pub(crate) fn drafted(alloc: Global, parts: &Parts) -> Result<Draft, Cause>
    ensures good { IfOk result (λ d.
        AllByRecursion (λ (b : FederationBranch). AllByRecursion (IsGoodRecord d.styles) b.records) d.branches) }
    ensures entries { IfOk result (λ d. entry_rows_in d.styles 0 d.branches ≡ parts.now.entries) }
    // If a good state has these rows, it is this one.
    ensures only { IfOk result (λ d. (f : Federation) → IsGoodState f → rows f ≡ parts.now → f ≡ d) }
    ensures err { IfErr result (λ e. (e ≡ Cause.OutOfMemory)
        ⊎ ((e ≡ Cause.Damaged) × ((f : Federation) → IsGoodState f → rows f ≡ parts.now → ⊥))) }
{
    let styles = read_styles(alloc, parts.units.items())?;
    let branches = read_branches(
        alloc,
        &styles,
        parts.branches.items(),
        parts.entries.items(),
    )?;
    let transfers = read_transfers(
        alloc,
        branches.items(),
        parts.transfers.items(),
        parts.receipts.items(),
    )?;
    Ok(Draft {
        styles,
        branches,
        transfers,
    })
}
