//! Which transactions of a journal's text are new to a branch, and at which one the branch stops.

ghost use Rattle.std.specs.Prelude.{◌≡◌, ◌⊎◌, IfOk, IfErr, OnOk, Some, None};
ghost use Rattle.std.specs.List.{AllByRecursion};
ghost use Rattle.treasury_state.specs.Good.{IsGoodBranch, IsGoodRecord};
ghost use Rattle.treasury_state.specs.Index.{IsKept};
ghost use Rattle.treasury_state.specs.Seen.{branch_of};
ghost use Rattle.treasury_core.specs.Step.{new_in, refused_in, StopsAt};

use book_core::{Ledger, Refusal};
use money_core::{Cause, Copied, Items, Styles};
use std::alloc::Global;
use treasury_core::{Branch, Record, Stop, new_of};

/// The records of a text that are new to a branch, in order; or the place of the first one that it refuses.
pub fn taken<L: Ledger>(
    alloc: Global,
    styles: &Styles,
    branch: &Branch<L>,
    rows: &Items<Record>,
) -> Result<Items<Record>, Stop>
    requires kept { IsKept L.book branch.now }
    requires good { IsGoodBranch styles.now (branch_of branch.now) }
    requires rows { AllByRecursion (IsGoodRecord styles.now) rows.now }
    ensures value { IfOk result (λ new. new ≡ new_in branch.now.records rows.now) }
    ensures taken { OnOk result (refused_in styles.now branch.now.locked branch.now.records rows.now ≡ None) }
    ensures err { IfErr result (λ stop. (stop.refusal ≡ Refusal.Plain Cause.OutOfMemory)
        ⊎ (refused_in styles.now branch.now.locked branch.now.records rows.now ≡ Some stop.refusal)) }
    ensures stops { IfErr result (λ stop. (stop.refusal ≡ Refusal.Plain Cause.OutOfMemory)
        ⊎ StopsAt styles.now branch.now.locked branch.now.records rows.now stop.place stop.refusal) }
{
    match rows.copy() {
        Ok(rows) => {
            let records = branch.records.items();
            new_of(alloc, styles, branch.locked, records, &branch.index, rows)
        }
        Err(cause) => {
            let refusal = Refusal::Plain(cause);
            Err(Stop { place: 0, refusal })
        }
    }
}
