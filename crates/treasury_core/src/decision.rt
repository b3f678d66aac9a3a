//! The reply to a command, and what it adds.

ghost use Rattle.std.specs.Prelude.{Ok, Err, Some, None, ◌≡◌, ◌≤◌, ◌-◌, ◌⊎◌, [], ◌∷◌, ◌++◌, map, length, MatchResult};
ghost use Rattle.std.specs.Prelude.{IfOk, IfErr, OnOk};
ghost use Rattle.std.specs.Result.{IsOkUnless};
ghost use Rattle.book_core.specs.GoodBook.{IsFit, IsGoodBook, verdict};
ghost use Rattle.treasury_state.specs.declared.record.Record.{Record as Row};
ghost use Rattle.treasury_state.specs.Federation.{has_branch, lock_of, entries};
ghost use Rattle.treasury_state.specs.Joined.{joined};
ghost use Rattle.treasury_state.specs.Good.{IsGoodBranch, IsGoodState};
ghost use Rattle.treasury_state.specs.Seen.{branch_of};
ghost use Rattle.treasury_state.specs.Index.{IsKept};
ghost use Rattle.treasury_core.specs.Step.{is_lock, goes_back, records_in_file, new_in, file_refusal, step, Decides};
ghost use Rattle.treasury_core.specs.Fits.{Fits, IsFile};
ghost use Rattle.treasury_core.specs.Run.{Replies};

use crate::close::decide_close;
use crate::command::{Answer, Command};
use crate::dispatch::decide_dispatch;
use crate::enter::new_of;
use crate::file::records_in_file;
use crate::receive::decide_receive;
use book_core::{Ledger, Refusal};
use journal_format::Located;
use money_core::{Cause, Copied, Day, Declared, Items, Style, Styles, Text};
use std::alloc::Global;
use std::slice;
use treasury_state::{
    Addition, Branch, Delta, MAX_BRANCHES, Record, State, check, find_branch, is_branch_name,
};

/// What a decision answers: what the command is answered, and what it adds.
pub(crate) type Decision = Result<(Answer, Delta), Refusal>;

/// Whether there is a branch of that name.
pub(crate) fn has_branch<L: Ledger>(state: &State<L>, name: &str) -> bool
    ensures { result ≡ has_branch state.now name.now }
{
    match find_branch(state, name) {
        None => false,
        Some(_) => true,
    }
}

/// The day through which the branch of that name is locked, if it is.
pub fn lock_of<L: Ledger>(state: &State<L>, name: &str) -> Option<Day>
    ensures { result ≡ lock_of state.now name.now }
{
    match find_branch(state, name) {
        None => None,
        Some(branch) => branch.locked,
    }
}

/// Whether the lock day is that day.
fn is_lock(lock: Option<Day>, day: Day) -> bool
    ensures { result ≡ is_lock lock day }
{
    match lock {
        None => false,
        Some(lock) => day.0 == lock.0,
    }
}

/// Whether the lock day is after that day.
fn goes_back(lock: Option<Day>, day: Day) -> bool
    ensures { result ≡ goes_back lock day }
{
    match lock {
        None => false,
        Some(lock) => day.0 < lock.0,
    }
}

/// One addition.
fn one(alloc: Global, addition: Addition) -> Result<Delta, Cause>
    ensures value { IfOk result (λ delta. delta ≡ addition ∷ []) }
    ensures memory { IsOkUnless result Cause.OutOfMemory }
{
    let mut list = Items::empty(alloc);
    list.push(addition)?;
    Ok(Delta::of(list))
}

/// A new branch of that name.
fn new_branch(alloc: Global, name: &Text) -> Result<Delta, Cause>
    ensures value { IfOk result (λ delta. delta ≡ Addition.Branch name.now ∷ []) }
    ensures memory { IsOkUnless result Cause.OutOfMemory }
{
    let name = name.copy()?;
    one(alloc, Addition::Branch(name))
}

/// A new lock day.
fn new_lock(alloc: Global, name: &Text, day: Day) -> Result<Delta, Cause>
    ensures value { IfOk result (λ delta. delta ≡ Addition.Locked name.now day ∷ []) }
    ensures memory { IsOkUnless result Cause.OutOfMemory }
{
    let name = name.copy()?;
    one(alloc, Addition::Locked(name, day))
}

/// A new commodity of that style.
fn new_style(alloc: Global, style: &Style) -> Result<Delta, Cause>
    ensures value { IfOk result (λ delta. delta ≡ Addition.Commodity style.now ∷ []) }
    ensures memory { IsOkUnless result Cause.OutOfMemory }
{
    let style = style.copy()?;
    one(alloc, Addition::Commodity(style))
}

/// What is done, with what it adds; or want of memory.
fn done(delta: Result<Delta, Cause>) -> Decision
    requires { IsOkUnless delta Cause.OutOfMemory }
    ensures { MatchResult result (λ p. (p.0 ≡ Answer.Done) × (delta ≡ Ok p.1))
        (λ e. e ≡ Refusal.Plain Cause.OutOfMemory) }
{
    match delta {
        Ok(delta) => Ok((Answer::Done, delta)),
        Err(cause) => Err(Refusal::Plain(cause)),
    }
}

/// What is done already: nothing is added.
pub(crate) fn repeated(alloc: Global) -> Decision
    ensures { result ≡ Ok (Answer.Repeated, []) }
{
    Ok((Answer::Repeated, Delta::of(Items::empty(alloc))))
}

/// Decides a new branch.
#[tactic(auto, unfolding(crate::specs::Step::reply, crate::specs::Step::added))]
fn decide_branch<L: Ledger>(alloc: Global, state: &State<L>, name: &Text) -> Decision
    ensures { Decides state.now (Command.Branch name.now) result }
{
    if !is_branch_name(name.as_str().as_bytes()) {
        return Err(Refusal::Plain(Cause::BranchName));
    }
    if has_branch(state, name.as_str()) {
        return repeated(alloc);
    }
    if state.branches().len() >= MAX_BRANCHES {
        return Err(Refusal::Plain(Cause::Full));
    }
    done(new_branch(alloc, name))
}

/// Decides a new commodity.
#[tactic(auto, unfolding(crate::specs::Step::reply, crate::specs::Step::added))]
fn decide_commodity<L: Ledger>(alloc: Global, state: &State<L>, style: &Style) -> Decision
    ensures { Decides state.now (Command.Commodity style.now) result }
{
    match state.styles().judge(style) {
        Ok(Declared::New(_)) => done(new_style(alloc, style)),
        Ok(Declared::Same(_)) => repeated(alloc),
        Err(cause) => Err(Refusal::Plain(cause)),
    }
}

/// Decides a lock.
#[tactic(auto, unfolding(crate::specs::Step::reply, crate::specs::Step::added))]
fn decide_lock<L: Ledger>(alloc: Global, state: &State<L>, name: &Text, day: Day) -> Decision
    ensures { Decides state.now (Command.Lock name.now day) result }
{
    if !has_branch(state, name.as_str()) {
        return Err(Refusal::Plain(Cause::UnknownBranch));
    }
    let lock = lock_of(state, name.as_str());
    if is_lock(lock, day) {
        return repeated(alloc);
    }
    if goes_back(lock, day) {
        return Err(Refusal::Plain(Cause::LockBack));
    }
    done(new_lock(alloc, name, day))
}

/// An addition for each record, in order.
fn additions_of(alloc: Global, name: &Text, rows: Items<Record>) -> Result<Delta, Cause>
    ensures value { IfOk result (λ delta. delta ≡ map (λ (r : Row). Addition.Record name.now r) rows) }
    ensures memory { IsOkUnless result Cause.OutOfMemory }
{
    let mut list = Vec::with_capacity(alloc, rows.items().len())?;
    'rows: for row in rows.into_vec() {
        let name = name.copy()?;
        list.push(Addition::Record(name, row))?;
    }
    Ok(Delta::of(Items::from_vec(list)))
}

/// A record of the branch of that name, and what else is added with it.
fn added(alloc: Global, name: &Text, row: Record, other: Addition) -> Result<Delta, Cause>
    ensures value { IfOk result (λ delta. delta ≡ Addition.Record name.now row ∷ other ∷ []) }
    ensures memory { IsOkUnless result Cause.OutOfMemory }
{
    let name = name.copy()?;
    let first = Addition::Record(name, row);
    let mut list = Items::empty(alloc);
    list.push(first)?;
    list.push(other)?;
    Ok(Delta::of(list))
}

/// What a record adds to the branch of that name, with what else is added, where the branch's book stays good with it.
pub(crate) fn recorded<L: Ledger>(
    alloc: Global,
    ledger: &L,
    name: &Text,
    row: Record,
    other: Addition,
) -> Result<Delta, Refusal>
    requires good { IsGoodBook (L.book ledger.now) }
    requires fit { IsFit row.entry }
    ensures value { IfOk result (λ delta. delta ≡ Addition.Record name.now row ∷ other ∷ []) }
    ensures passes { OnOk result (verdict (L.book ledger.now ++ entries (row ∷ [])) ≡ None) }
    ensures err { IfErr result (λ e.
        (e ≡ Refusal.Plain Cause.OutOfMemory) ⊎ (verdict (L.book ledger.now ++ entries (row ∷ [])) ≡ Some e)) }
{
    if let Err(refusal) = check(alloc, ledger, slice::from_ref(&row)) {
        return Err(refusal);
    }
    match added(alloc, name, row, other) {
        Ok(delta) => Ok(delta),
        Err(cause) => Err(Refusal::Plain(cause)),
    }
}

/// What is done, with what it adds; or its refusal.
pub(crate) fn settled(delta: Result<Delta, Refusal>) -> Decision
    ensures { MatchResult result (λ p. (p.0 ≡ Answer.Done) × (delta ≡ Ok p.1)) (λ e. delta ≡ Err e) }
{
    match delta {
        Ok(delta) => Ok((Answer::Done, delta)),
        Err(refusal) => Err(refusal),
    }
}

/// What a file adds to the branch, in order; or the first refusal.
fn new_records<L: Ledger>(
    alloc: Global,
    styles: &Styles,
    branch: &Branch<L>,
    file: &[Located],
) -> Result<Items<Record>, Refusal>
    requires kept { IsKept L.book branch.now }
    requires good { IsGoodBranch styles.now (branch_of branch.now) }
    requires file { IsFile styles.now file.now }
    ensures value { IfOk result (λ new. new ≡ new_in branch.now.records (records_in_file styles.now file.now)) }
    ensures passes { OnOk result (file_refusal styles.now branch.now.locked branch.now.records file.now ≡ None) }
    ensures err { IfErr result (λ e.
        (e ≡ Refusal.Plain Cause.OutOfMemory)
        ⊎ (file_refusal styles.now branch.now.locked branch.now.records file.now ≡ Some e)) }
{
    let rows = match records_in_file(alloc, styles, file) {
        Ok(rows) => rows,
        Err(refusal) => return Err(refusal),
    };
    let held = branch.records.items();
    let new = match new_of(alloc, styles, branch.locked, held, &branch.index, rows) {
        Ok(new) => new,
        Err(stop) => return Err(stop.refusal),
    };
    match check(alloc, &branch.ledger, new.items()) {
        Ok(()) => Ok(new),
        Err(refusal) => Err(refusal),
    }
}

/// What is answered where so many transactions of a file have these new ones among them.
fn entered(alloc: Global, name: &Text, new: Items<Record>, all: usize) -> Decision
    requires { length new ≤ all }
    ensures { MatchResult result (λ p.
        (p.0 ≡ Answer.Entered (length new) (all - length new))
        × (p.1 ≡ map (λ (r : Row). Addition.Record name.now r) new)) (λ e. e ≡ Refusal.Plain Cause.OutOfMemory) }
{
    let count = new.items().len();
    let repeated = all - count;
    match additions_of(alloc, name, new) {
        Ok(delta) => Ok((
            Answer::Entered {
                new: count,
                repeated,
            },
            delta,
        )),
        Err(cause) => Err(Refusal::Plain(cause)),
    }
}

/// Decides what a file adds.
fn decide_enter<L: Ledger>(
    alloc: Global,
    state: &State<L>,
    name: &Text,
    file: &[Located],
) -> Decision
    requires { IsFile state.now.styles file.now }
    ensures { Decides state.now (Command.Enter name.now file.now) result }
{
    state.is_good();
    let Some(branch) = find_branch(state, name.as_str()) else {
        return Err(Refusal::Plain(Cause::UnknownBranch));
    };
    match new_records(alloc, state.styles(), branch, file) {
        Ok(new) => entered(alloc, name, new, file.len()),
        Err(refusal) => Err(refusal),
    }
}

/// Decides a command.
fn decided<L: Ledger>(alloc: Global, state: &State<L>, command: &Command) -> Decision
    requires { Fits state.now.styles command.now }
    ensures { Decides state.now command.now result }
{
    match command {
        Command::Branch(name) => decide_branch(alloc, state, name),
        Command::Commodity(style) => decide_commodity(alloc, state, style),
        Command::Enter(name, file) => decide_enter(alloc, state, name, file.items()),
        Command::Dispatch(dispatch) => decide_dispatch(alloc, state, dispatch),
        Command::Receive(receive) => decide_receive(alloc, state, receive),
        Command::Lock(name, day) => decide_lock(alloc, state, name, *day),
        Command::Close(close) => decide_close(alloc, state, close),
    }
}

/// What a command is answered, and what it adds to the state; or the first refusal in the order of docs/RULES.md,
/// "Orders".
///
/// It asks that the command fits the state's styles. Where memory is refused, it answers 40. A mark is found by one
/// look-up: a file costs what its transactions cost, and one check of the new ones.
pub fn decide<L: Ledger>(
    alloc: Global,
    state: &State<L>,
    command: &Command,
) -> Result<(Answer, Delta), Refusal>
    requires { Fits state.now.styles command.now }
    ensures decides { Decides state.now command.now result }
    // What is added makes the next state of the step, which is good.
    ensures joined { IfOk result (λ p. joined state.now p.1 ≡ (step state.now command.now).next) }
    ensures good { IfOk result (λ p. IsGoodState (joined state.now p.1)) }
{
    state.is_good();
    decided(alloc, state, command)
}

/// What a command would be answered in this state; nothing else happens.
///
/// It asks that the command fits the state's styles. Where memory is refused, it answers 40.
pub fn foresee<L: Ledger>(
    alloc: Global,
    state: &State<L>,
    command: &Command,
) -> Result<Answer, Refusal>
    requires { Fits state.now.styles command.now }
    // The reply of the step, or 40.
    ensures { Replies state.now command.now result }
{
    match decide(alloc, state, command) {
        Ok((answer, _)) => Ok(answer),
        Err(refusal) => Err(refusal),
    }
}
