//! A draft that was judged, kept as a state with what was filled to judge it.

ghost use Rattle.std.specs.Prelude.{◌≡◌, MatchResult};
ghost use Rattle.treasury_state.specs.Good.{IsGoodState};
ghost use Rattle.treasury_state.specs.Seen.{branch_of};
ghost use Rattle.treasury_state.specs.Index.{IsKept};
ghost use Rattle.treasury_rows.specs.Judged.{IsJudged, AreJudged};

use crate::judging::Judged;
use book_core::Ledger;
use money_core::Cause;
use std::alloc::Global;
use std::collections::HashMap;
use treasury_state::{Branch, Draft, DraftBranch, State, put_place};

/// The branch with its ledger and its index.
fn kept_branch<L: Ledger>(branch: DraftBranch, judged: Judged<L>) -> Branch<L>
    requires { IsJudged L.book branch judged }
    ensures value { branch_of result ≡ branch }
    ensures kept { IsKept L.book result }
{
    let DraftBranch {
        name,
        locked,
        records,
    } = branch;
    let Judged { ledger, index } = judged;
    Branch {
        name,
        locked,
        records,
        ledger,
        index,
    }
}

/// The state that a good draft is, with what was filled to judge its branches. Nothing is copied or filled again.
///
/// Where memory is refused, it answers 40.
pub(crate) fn kept<L: Ledger>(
    alloc: Global,
    draft: Draft,
    judged: Vec<Judged<L>>,
) -> Result<State<L>, Cause>
    requires good { IsGoodState draft }
    requires judged { AreJudged L.book draft.branches judged.items }
    ensures { MatchResult result (λ s. s ≡ draft) (λ e. e ≡ Cause.OutOfMemory) }
{
    let Draft {
        styles,
        branches: list,
        transfers,
    } = draft;
    let mut branches = Vec::new(alloc);
    let mut places = HashMap::new(alloc);
    let mut left = judged.into_iter();
    'branches: for branch in list.into_vec() {
        put_place(alloc, &mut places, branch.name.as_str(), branches.len())?;
        let judged = match left.next() {
            Some(judged) => judged,
            None => unreachable!(),
        };
        branches.push(kept_branch(branch, judged))?;
    }
    Ok(State {
        styles,
        branches,
        places,
        transfers,
    })
}
