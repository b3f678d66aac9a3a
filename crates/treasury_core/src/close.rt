//! A branch closed at a day: the closing comes into its book, and it is locked through the day.

ghost use Rattle.std.specs.Prelude.{Ok, Some, None, ◌≡◌, ◌⊎◌, IfOk, IfErr, OnOk};
ghost use Rattle.std.specs.Cmp.Lexicographic.{pointwise};
ghost use Rattle.std.specs.Str.{bytes_eq};
ghost use Rattle.std.specs.Result.{IsOkUnless};
ghost use Rattle.journal_lines.specs.Date.{IsDayNumber};
ghost use Rattle.journal_format.specs.Printable.{IsPrintable};
ghost use Rattle.journal_balance.specs.Legs.{balanced_entry};
ghost use Rattle.journal_balance.specs.Plain.{written_entry};
ghost use Rattle.treasury_state.specs.Mark.{close_mark};
ghost use Rattle.treasury_state.specs.Seen.{branch_of};
ghost use Rattle.treasury_state.specs.Federation.{branch_at};
ghost use Rattle.treasury_state.specs.Index.{IsKept};
ghost use Rattle.treasury_core.specs.Choice.{choice_comments, choice_refusal};
ghost use Rattle.treasury_core.specs.Closing.{closing_record, closing_answer, closing_in};
ghost use Rattle.treasury_core.specs.Step.{entering_refusal, close_refusal, added, Decides};

use crate::choice::{Choice, choice_comments, choice_refusal};
use crate::closing::closing_entry;
use crate::command::{Close, Command};
use crate::decision::{Decision, recorded, repeated, settled};
use book_core::{Ledger, Refusal};
use journal_balance::legs;
use journal_format::Txn;
use money_core::{Cause, Copied, Day, Same, Styles};
use std::alloc::Global;
use treasury_state::{
    Addition, Branch, Delta, Record, State, close_mark, find_branch, find_mark, is_locked,
};

/// Whether the record of a closing tells that it was asked for as it is now.
fn is_asked_again(alloc: Global, row: &Record, choice: &Choice) -> Result<bool, Cause>
    ensures value { IfOk result (λ is. is ≡ pointwise bytes_eq row.now.txn.comments (choice_comments choice.now)) }
    ensures memory { IsOkUnless result Cause.OutOfMemory }
{
    let comments = choice_comments(alloc, choice)?;
    Ok(row.txn.comments.is_same(&comments))
}

/// The record of a closing, whose entry is that of its postings as they are written.
fn closing_record(alloc: Global, styles: &Styles, day: Day, txn: Txn) -> Result<Record, Cause>
    requires day { IsDayNumber day }
    requires printable { IsPrintable styles.now txn }
    requires written { balanced_entry styles.now txn ≡ Ok (written_entry txn) }
    ensures value { IfOk result (λ row. row ≡ closing_record day txn) }
    ensures memory { IsOkUnless result Cause.OutOfMemory }
{
    let mark = close_mark(alloc, day)?;
    let entry = legs(alloc, &txn, styles)?;
    Ok(Record { mark, txn, entry })
}

/// What the closing adds, of a choice that is not refused: its record, where the book stays good with it, and the lock.
fn entered<L: Ledger>(
    alloc: Global,
    state: &State<L>,
    branch: &Branch<L>,
    close: &Close,
) -> Result<Delta, Refusal>
    requires day { IsDayNumber close.now.day }
    requires chosen { choice_refusal close.now.choice ≡ None }
    requires there { branch_at state.now.branches close.now.branch ≡ Some (branch_of branch.now) }
    requires kept { IsKept L.book branch.now }
    ensures value { IfOk result (λ delta. delta ≡ added state.now (Command.Close close.now)) }
    ensures passes { OnOk result (entering_refusal branch.now.records close.now.day
        (closing_answer (closing_in state.now close.now.branch close.now.day close.now.choice)) ≡ None) }
    ensures err { IfErr result (λ e. (e ≡ Refusal.Plain Cause.OutOfMemory)
        ⊎ (entering_refusal branch.now.records close.now.day
        (closing_answer (closing_in state.now close.now.branch close.now.day close.now.choice)) ≡ Some e)) }
{
    state.is_good();
    let day = close.day;
    let txn = match closing_entry(alloc, state, close.branch.as_str(), day, &close.choice) {
        Ok(txn) => txn,
        Err(refusal) => return Err(refusal),
    };
    let row = match closing_record(alloc, state.styles(), day, txn) {
        Ok(row) => row,
        Err(cause) => return Err(Refusal::Plain(cause)),
    };
    let own = match close.branch.copy() {
        Ok(own) => own,
        Err(cause) => return Err(Refusal::Plain(cause)),
    };
    recorded(
        alloc,
        &branch.ledger,
        &close.branch,
        row,
        Addition::Locked(own, day),
    )
}

/// What the closing adds of a branch that was not closed at that day; or the first refusal.
fn judged<L: Ledger>(
    alloc: Global,
    state: &State<L>,
    branch: &Branch<L>,
    close: &Close,
) -> Result<Delta, Refusal>
    requires day { IsDayNumber close.now.day }
    requires there { branch_at state.now.branches close.now.branch ≡ Some (branch_of branch.now) }
    requires kept { IsKept L.book branch.now }
    ensures value { IfOk result (λ delta. delta ≡ added state.now (Command.Close close.now)) }
    ensures passes { OnOk result (close_refusal branch.now.locked branch.now.records close.now
        (closing_in state.now close.now.branch close.now.day close.now.choice) ≡ None) }
    ensures err { IfErr result (λ e. (e ≡ Refusal.Plain Cause.OutOfMemory)
        ⊎ (close_refusal branch.now.locked branch.now.records close.now
        (closing_in state.now close.now.branch close.now.day close.now.choice) ≡ Some e)) }
{
    if let Some(refusal) = choice_refusal(&close.choice) {
        return Err(refusal);
    }
    if is_locked(branch.locked, close.day) {
        return Err(Refusal::Plain(Cause::Locked));
    }
    entered(alloc, state, branch, close)
}

/// Decides a closing. Where the branch was closed at that day, it is repeated if it was asked for as it is now,
/// whatever is asked and whatever the lock.
pub(crate) fn decide_close<L: Ledger>(alloc: Global, state: &State<L>, close: &Close) -> Decision
    requires { IsDayNumber close.now.day }
    ensures { Decides state.now (Command.Close close.now) result }
{
    let Some(branch) = find_branch(state, close.branch.as_str()) else {
        return Err(Refusal::Plain(Cause::UnknownBranch));
    };
    let mark = match close_mark(alloc, close.day) {
        Ok(mark) => mark,
        Err(cause) => return Err(Refusal::Plain(cause)),
    };
    match find_mark(&branch.index, branch.records.items(), mark.as_str()) {
        None => settled(judged(alloc, state, branch, close)),
        Some(row) => match is_asked_again(alloc, row, &close.choice) {
            Ok(true) => repeated(alloc),
            Ok(false) => Err(Refusal::Plain(Cause::MarkClash)),
            Err(cause) => Err(Refusal::Plain(cause)),
        },
    }
}
