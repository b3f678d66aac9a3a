//! What standard error says beside an answer that is no refusal: what may have been meant otherwise, and what cannot be
//! undone.

ghost use Rattle.std.specs.Prelude.{◌≡◌, ◌++◌, ℕ, List, take, drop, Option, Some, None, IfOk, OnOk, IfSome};
ghost use Rattle.std.specs.Option.{option_map};
ghost use Rattle.journal_format.specs.declared.txn.Located.{Located};
ghost use Rattle.treasury_state.specs.Federation.{entries};
ghost use Rattle.treasury_state.specs.Seen.{branch_of};
ghost use Rattle.treasury_requests.specs.Request.{branch_asked};
ghost use Rattle.treasury_reasons.specs.Failure.{journal_asked};
ghost use Rattle.treasury_reasons.specs.Uneven.{IsReadImport};
ghost use Rattle.import_notes.specs.declared.import.BranchBefore.{BranchBefore as HeldOfBranch};
ghost use Rattle.import_notes.specs.OtherBranch.{AreAllPrintable};
ghost use Rattle.import_notes.specs.Imported.{imported};
ghost use Rattle.import_notes.specs.ImportNotes.{is_grown, import_notes, entered_notes, IsEnteredAhead, import_ahead};
ghost use Rattle.treasury_notes.specs.RequestNotes.{branch_in, amount_asked, held_by, held_before, is_locked_through};
ghost use Rattle.treasury_notes.specs.RequestNotes.{lock_notes, closing_notes, amount_if, transfer_notes, entry_notes};
ghost use Rattle.treasury_notes.specs.RequestNotes.{notes_on, notes_if_there, request_notes, notes_ahead};

use crate::days::{say_early, say_far_transfer, say_late, say_later, say_unasserted};
use crate::named::{say_account, say_unknown};
use crate::open_year::say_open_year;
use crate::report_notes::say_report_notes;
use crate::samples::say_sample_note;
use book_core::Ledger;
use import_notes::import::{BranchBefore, Import, count_of_accounts, note_import};
use journal_hints::amounts::say_odd_amount;
use money_core::{Cause, Day, Styles, Text};
use std::alloc::Global;
use treasury_core::{Branch, Record, State};
use treasury_messages::{Done, MessageKind, Messages};
use treasury_reasons::transfers::transfer_of;
use treasury_requests::Request;
use treasury_state::find_branch;

/// How many days after its last entry a branch may be locked before it is noted.
const MOST_TO_LOCK: i32 = 31;

/// The same of a closing.
const MOST_TO_CLOSING: i32 = 183;

/// What was held before a request was answered: how many commodities were declared, and what the branch of the request
/// held, if it is on one.
#[derive(Clone, Copy)]
pub struct HeldBefore {
    commodities: usize,
    branch: Option<BranchBefore>,
}

/// The branch on whose book a request is, if it is there; its ledger has the entries of its records.
pub(crate) fn branch_of<'a, L: Ledger>(
    state: &'a State<L>,
    request: &Request,
) -> Option<&'a Branch<L>>
    ensures value { option_map (λ b. branch_of b.now) result ≡ branch_in state.now (branch_asked request.now) }
    ensures kept { IfSome result (λ b. L.book b.now.ledger ≡ entries b.now.records) }
{
    match request.branch() {
        Some(name) => find_branch(state, name.as_str()),
        None => None,
    }
}

/// What the branch of a request holds.
fn held_of<L: Ledger>(state: &State<L>, request: &Request) -> Option<BranchBefore>
    ensures { result ≡ option_map held_by (branch_in state.now (branch_asked request.now)) }
{
    match branch_of(state, request) {
        Some(branch) => Some(BranchBefore {
            entries: branch.records.items().len(),
            accounts: count_of_accounts(branch),
            locked: branch.locked,
            is_dry_run: false,
        }),
        None => None,
    }
}

/// What is held before a request is answered.
pub fn held_before<L: Ledger>(state: Option<&State<L>>, request: &Request) -> Option<HeldBefore>
    ensures { result ≡ option_map (λ s. held_before s.now request.now) state.entry }
{
    match state {
        Some(state) => Some(HeldBefore {
            commodities: state.styles().len(),
            branch: held_of(state, request),
        }),
        None => None,
    }
}

/// Whether a branch is locked through that very day.
fn is_locked_through(locked: Option<Day>, day: Day) -> bool
    ensures { result ≡ is_locked_through locked day }
{
    match locked {
        Some(lock) => lock.0 == day.0,
        None => false,
    }
}

/// Says what there is to note of a lock of a branch of which that was held before; nothing, if it was locked through
/// that day.
fn note_lock<L: Ledger>(
    alloc: Global,
    styles: &Styles,
    branch: &Branch<L>,
    before: BranchBefore,
    day: Day,
    out: &mut Messages,
) -> Done
    requires { L.book branch.now.ledger ≡ entries branch.now.records }
    ensures { OnOk result (out.new.items
        ≡ out.old.items ++ lock_notes styles.now (branch_of branch.now) before.locked day) }
{
    if is_locked_through(before.locked, day) {
        return Ok(());
    }
    let (name, records) = (branch.name.as_str(), branch.records.items());
    let done: &'static [u8] = if before.is_dry_run {
        b"; the branch would be locked through "
    } else {
        b"; the branch is now locked through "
    };
    let kind = MessageKind::LockedEarly;
    say_early(kind, MOST_TO_LOCK, done, name, records, day, out)?;
    say_unasserted(name, records, before.locked, day, out)?;
    say_open_year(alloc, styles, &branch.ledger, name, day, out)
}

/// Says what there is to note of a closing that a branch with these records got.
fn note_close(
    alloc: Global,
    branch: &str,
    before: BranchBefore,
    held: &[Record],
    day: Day,
    accounts: Option<&Text>,
    into: Option<&Text>,
    out: &mut Messages,
) -> Done
    ensures { OnOk result (out.new.items ≡ out.old.items
        ++ closing_notes branch.now held.now before.locked day (option_map (λ list. list.now) accounts.entry)
        (option_map (λ account. account.now) into.entry)) }
{
    let done: &'static [u8] = if before.is_dry_run {
        b"; the branch would be closed and locked through "
    } else {
        b"; the branch is now closed and locked through "
    };
    say_unknown(alloc, accounts, branch, held, out)?;
    let kind = MessageKind::ClosedEarly;
    say_early(kind, MOST_TO_CLOSING, done, branch, held, day, out)?;
    say_later(branch, held, day, out)?;
    say_unasserted(branch, held, before.locked, day, out)?;
    say_account(b"--into", into, branch, held, out)
}

/// The amount of a dispatch, or of a part that is received.
fn amount_of(request: &Request) -> Option<&Text>
    ensures { option_map (λ amount. amount.now) result ≡ amount_asked request.now }
{
    match request {
        Request::Dispatch { amount, .. } => Some(amount),
        Request::Receive { part, .. } => match part {
            Some(part) => Some(&part.amount),
            None => None,
        },
        _ => None,
    }
}

/// Says what there is to note of an amount, if there is one.
fn note_amount(styles: &Styles, amount: Option<&Text>, out: &mut Messages) -> Done
    ensures { OnOk result (out.new.items
        ≡ out.old.items ++ amount_if styles.now (option_map (λ text. text.now) amount.entry)) }
{
    match amount {
        Some(amount) => say_odd_amount(styles, amount.as_str(), out),
        None => Ok(()),
    }
}

/// Says what there is to note of a dispatch or a receipt that a branch with these records got: of its day, its amount
/// and its account.
fn note_transfer<L: Ledger>(
    state: &State<L>,
    request: &Request,
    day: Day,
    account: &Text,
    branch: &str,
    held: &[Record],
    out: &mut Messages,
) -> Done
    ensures { OnOk result (out.new.items
        ≡ out.old.items ++ transfer_notes state.now request.now day account.now branch.now held.now) }
{
    say_far_transfer(branch, held, day, out)?;
    say_late(transfer_of(state, request), day, out)?;
    note_amount(state.styles(), amount_of(request), out)?;
    say_account(b"--account", Some(account), branch, held, out)
}

/// Says what there is to note of a request by which a branch with these records got an entry, an import aside.
fn note_entry<L: Ledger>(
    alloc: Global,
    state: &State<L>,
    request: &Request,
    branch: &str,
    before: BranchBefore,
    held: &[Record],
    out: &mut Messages,
) -> Done
    ensures { OnOk result (out.new.items
        ≡ out.old.items ++ entry_notes state.now request.now branch.now before.locked held.now) }
{
    match request {
        Request::Dispatch { day, account, .. } => {
            note_transfer(state, request, *day, account, branch, held, out)
        }
        Request::Receive { day, account, .. } => {
            note_transfer(state, request, *day, account, branch, held, out)
        }
        Request::Close {
            day,
            accounts,
            into,
            ..
        } => {
            let (accounts, into) = (accounts.as_ref(), into.as_ref());
            note_close(alloc, branch, before, held, *day, accounts, into, out)
        }
        _ => Ok(()),
    }
}

/// Says what there is to note of a request on a branch that held that and these records before, and got the new ones.
/// `source` names the journal.
fn note_on<L: Ledger>(
    alloc: Global,
    state: &State<L>,
    request: &Request,
    source: &str,
    branch: &Branch<L>,
    before: BranchBefore,
    held: &[Record],
    new: &[Record],
    out: &mut Messages,
) -> Done
    requires { L.book branch.now.ledger ≡ entries branch.now.records }
    ensures entered { (name journal : List ℕ) (list : List Located)
        → IsReadImport state.now.styles request.now name journal list → AreAllPrintable state.now.styles new.now
        → OnOk result (out.new.items ≡ out.old.items ++ import_notes state.now
        (imported source.now journal name held.now new.now)
        (is_grown before (L.book branch.now.ledger)) list) }
    ensures others { journal_asked request.now ≡ None → OnOk result (out.new.items ≡ out.old.items
        ++ notes_on state.now request.now (branch_of branch.now) before.locked held.now new.now) }
{
    match request {
        Request::Import {
            branch: name,
            journal,
        } => {
            let import = Import {
                source,
                text: journal.as_bytes(),
                branch: name.as_str(),
                held,
                new,
                is_dry_run: before.is_dry_run,
            };
            note_import(alloc, state, branch, &import, before, out)
        }
        Request::Lock { day, .. } => note_lock(alloc, state.styles(), branch, before, *day, out),
        _ if new.is_empty() => Ok(()),
        _ => {
            let name = branch.name.as_str();
            note_entry(alloc, state, request, name, before, held, out)
        }
    }
}

/// The first records, so many, and those after them.
fn parted(records: &[Record], count: usize) -> (&[Record], &[Record])
    ensures first { result.0.now ≡ take count records.now }
    ensures rest { result.1.now ≡ drop count records.now }
{
    if count <= records.len() {
        records.split_at(count)
    } else {
        (records, &[])
    }
}

/// Says what there is to note of a dry run of a request that would add these records to its branch.
pub fn notes_ahead<L: Ledger>(
    alloc: Global,
    state: &State<L>,
    request: &Request,
    source: &str,
    new: &[Record],
    out: &mut Messages,
) -> Done
    ensures entered { (name journal : List ℕ) (list : List Located)
        → IsEnteredAhead state.now request.now name journal new.now list → OnOk result
        (out.new.items ≡ out.old.items ++ import_ahead state.now name source.now journal new.now list) }
    ensures others { journal_asked request.now ≡ None → OnOk result
        (out.new.items ≡ out.old.items ++ notes_ahead state.now request.now new.now) }
{
    let Some(branch) = branch_of(state, request) else {
        return Ok(());
    };
    let held = branch.records.items();
    let before = BranchBefore {
        entries: held.len(),
        accounts: count_of_accounts(branch),
        locked: branch.locked,
        is_dry_run: true,
    };
    note_on(
        alloc, state, request, source, branch, before, held, new, out,
    )
}

/// Says what there is to note of a request that was answered, and no refusal, on a branch that held that before.
fn note_answered<L: Ledger>(
    alloc: Global,
    state: &State<L>,
    request: &Request,
    source: &str,
    before: BranchBefore,
    out: &mut Messages,
) -> Done
    ensures entered { (name journal : List ℕ) (list : List Located)
        → IsReadImport state.now.styles request.now name journal list → OnOk result (out.new.items
        ≡ out.old.items ++ entered_notes state.now name source.now journal before list) }
    ensures others { journal_asked request.now ≡ None → OnOk result (out.new.items ≡ out.old.items
        ++ notes_if_there state.now request.now before (branch_in state.now (branch_asked request.now))) }
{
    state.is_good();
    let Some(branch) = branch_of(state, request) else {
        return Ok(());
    };
    let (held, new) = parted(branch.records.items(), before.entries);
    note_on(
        alloc, state, request, source, branch, before, held, new, out,
    )
}

/// The notes of a request that was answered, and no refusal. The state is the one after the request, and `before` is
/// what was held before it. `source` names the journal.
pub fn notes_of<L: Ledger>(
    alloc: Global,
    state: &State<L>,
    request: &Request,
    source: &str,
    before: HeldBefore,
) -> Result<Messages, Cause>
    // Those of an import of a journal.
    ensures entered { (held : HeldOfBranch) (name journal : List ℕ) (list : List Located) → before.branch ≡ Some held
        → IsReadImport state.now.styles request.now name journal list
        → IfOk result (λ said. said.items ≡ entered_notes state.now name source.now journal held list) }
    // Those of any other request.
    ensures others { journal_asked request.now ≡ None
        → IfOk result (λ said. said.items ≡ request_notes state.now request.now before) }
{
    let mut said = Vec::new(alloc);
    match request {
        Request::Commodity { sample } => {
            if state.styles().len() > before.commodities {
                say_sample_note(alloc, sample.as_str(), &mut said)?;
            }
        }
        Request::Register { .. } => say_report_notes(state, request, &mut said)?,
        _ => {
            if let Some(before) = before.branch {
                note_answered(alloc, state, request, source, before, &mut said)?;
            }
        }
    }
    Ok(said)
}
