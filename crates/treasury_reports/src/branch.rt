//! The branch of a name.

ghost use Rattle.std.specs.Prelude.{◌≡◌, true, false, MatchOption};
ghost use Rattle.treasury_state.specs.Federation.{has_branch, records_of};

use book_core::Ledger;
use treasury_state::{Record, State};

/// The records of the branch of that name, in order of entry, if there is one.
pub fn records_of<'a, L: Ledger>(state: &'a State<L>, name: &str) -> Option<&'a [Record]>
    ensures { MatchOption result (has_branch state.now name.now ≡ false)
        (λ records. (has_branch state.now name.now ≡ true) × (records.now ≡ records_of state.now name.now)) }
{
    'branches: for branch in state.branches() {
        if branch.name.as_str() == name {
            return Some(branch.records.items());
        }
    }
    None
}
