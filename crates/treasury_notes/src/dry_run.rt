//! What standard error says of a dry run that is not refused: the entries that would be made, and the command's notes.

ghost use Rattle.std.specs.Prelude.{◌≡◌, ◌++◌, ◌-◌, ℕ, List, [], find, take, IfOk, OnOk, IfSome, None};
ghost use Rattle.std.specs.List.{flat_map};
ghost use Rattle.std.specs.Option.{option_map};
ghost use Rattle.journal_format.specs.declared.txn.Located.{Located};
ghost use Rattle.journal_format.specs.CanonicalText.{txn_text};
ghost use Rattle.journal_format.specs.Pieces.{Reads};
ghost use Rattle.journal_format.specs.Printable.{IsPrintable};
ghost use Rattle.treasury_state.specs.Index.{IsIndexOf};
ghost use Rattle.treasury_core.specs.Step.{records_in_file};
ghost use Rattle.treasury_requests.specs.Request.{branch_asked};
ghost use Rattle.treasury_reasons.specs.Failure.{journal_asked};
ghost use Rattle.treasury_reasons.specs.Reading.{line_of};
ghost use Rattle.import_notes.specs.ImportNotes.{IsEnteredAhead};
ghost use Rattle.import_notes.specs.OtherBranch.{AreAllPrintable};
ghost use Rattle.treasury_notes.specs.DryRun.{records_added, more_entries_said, new_entries_said};
ghost use Rattle.treasury_reasons.specs.Held.{account_asked};
ghost use Rattle.treasury_notes.specs.DryRun.{lines_said, is_leg_on, leg_on, balances_if, made_said, is_like};
ghost use Rattle.treasury_notes.specs.DryRun.{like_if, like_transfer_said, made_ahead, dry_run_said, import_dry_run};
ghost use Rattle.treasury_notes.specs.RequestNotes.{branch_in};

use crate::notes::{branch_of, notes_ahead};
use crate::samples::say_sample_note;
use book_core::{Ledger, Leg};
use journal_format::{Txn, is_printable, print_txn};
use journal_lines::Lines;
use money_core::{Cause, Copied, Day, Styles, Text};
use std::alloc::Global;
use treasury_core::{Addition, Record, State, Transfer};
use treasury_messages::Piece::{Amount, Header, Number, Origin, Words};
use treasury_messages::{Done, MessageKind, Messages, Piece, say};
use treasury_reasons::reading::{Read, read_rows};
use treasury_requests::Request;

/// The most new entries of an import that are said; of more, a count is given.
const MOST_LISTED: usize = 200;

/// A day after which none comes.
const LAST_DAY: Day = Day(i32::MAX);

/// The records that a command would add.
fn records_among(alloc: Global, additions: &[Addition]) -> Result<Vec<Record>, Cause>
    ensures { IfOk result (λ records. records.items ≡ records_added additions.now) }
{
    let mut records = Vec::new(alloc);
    for addition in additions {
        if let Addition::Record(_, row) = addition {
            records.push(row.copy()?)?;
        }
    }
    Ok(records)
}

/// Says which entries an import of a text would make, and of more than `MOST_LISTED` how many more there are.
#[tactic(auto, unfolding(crate::specs::DryRun::new_entries_said))]
fn say_listed<'a>(source: &'a str, read: &Read, new: &'a [Record], out: &mut Messages) -> Done
    requires { IsIndexOf read.now.first read.now.rows }
    ensures { OnOk result (out.new.items ≡ out.old.items
        ++ new_entries_said source.now (line_of read.now.file.items read.now.rows) new.now) }
{
    let first = &new[..new.len().min(MOST_LISTED)];
    for row in first {
        let pieces = [Origin(source, read.line_of(row)), Header(&row.txn)];
        say(MessageKind::NewEntry, &pieces, out)?;
    }
    say_more_entries(new.len(), out)
}

/// Says how many entries there are beside those that are said.
fn say_more_entries(count: usize, out: &mut Messages) -> Done
    ensures { OnOk result (out.new.items ≡ out.old.items ++ more_entries_said (count - MOST_LISTED)) }
{
    if count > MOST_LISTED {
        let more = Number(count - MOST_LISTED);
        let pieces = [Words(b"and "), more, Words(b" more")];
        return say(MessageKind::MoreNewEntries, &pieces, out);
    }
    Ok(())
}

/// Says which entries an import would make.
fn say_new_entries(
    alloc: Global,
    styles: &Styles,
    journal: &[u8],
    source: &str,
    new: &[Record],
    out: &mut Messages,
) -> Done
    ensures { (list : List Located) → Reads styles.now journal.now list → OnOk result (out.new.items
        ≡ out.old.items ++ new_entries_said source.now (line_of list (records_in_file styles.now list)) new.now) }
{
    let read = read_rows(alloc, styles, journal)?;
    say_listed(source, &read, new, out)
}

/// Says the lines of the canonical text of an entry.
#[tactic(auto, unfolding(crate::specs::DryRun::lines_said))]
fn say_lines(alloc: Global, styles: &Styles, txn: &Txn, out: &mut Messages) -> Done
    ensures { IsPrintable styles.now txn.now → OnOk result
        (out.new.items ≡ out.old.items ++ lines_said (txn_text styles.now txn.now)) }
{
    if !is_printable(txn, styles) {
        return Ok(());
    }
    let mut text = Vec::new(alloc);
    print_txn(alloc, txn, styles, &mut text)?;
    for (_, line) in Lines::new(text.as_slice()) {
        say(MessageKind::EntryLine, &[Piece::Text(line)], out)?;
    }
    Ok(())
}

/// The account of a dispatch or a receipt.
fn account_of(request: &Request) -> Option<&Text>
    ensures { option_map (λ account. account.now) result ≡ account_asked request.now }
{
    match request {
        Request::Dispatch { account, .. } => Some(account),
        Request::Receive { account, .. } => Some(account),
        _ => None,
    }
}

/// The first leg on that account.
fn leg_of<'a>(account: &str, legs: &'a [Leg]) -> Option<&'a Leg>
    ensures { option_map (λ leg. leg.now) result ≡ find (is_leg_on account.now) legs.now }
{
    legs.iter().find(|leg| leg.account.as_str() == account)
}

/// The leg of an entry on that account, if there is one.
fn leg_on<'a>(account: Option<&Text>, legs: &'a [Leg]) -> Option<&'a Leg>
    ensures { option_map (λ leg. leg.now) result ≡ leg_on (option_map (λ text. text.now) account.entry) legs.now }
{
    match account {
        Some(account) => leg_of(account.as_str(), legs),
        None => None,
    }
}

/// Says what a leg would make of the balance of its account, if there is one.
fn say_balances<'a, L: Ledger>(
    styles: &'a Styles,
    ledger: &L,
    leg: Option<&'a Leg>,
    out: &mut Messages,
) -> Done
    ensures { OnOk result (out.new.items
        ≡ out.old.items ++ balances_if styles.now (L.book ledger.now) (option_map (λ leg. leg.now) leg.entry)) }
{
    let Some(leg) = leg else { return Ok(()) };
    let (account, unit) = (leg.account.as_str(), leg.unit);
    let before = i128::from(ledger.balance(account, unit, LAST_DAY));
    let pieces = [
        Piece::Text(account.as_bytes()),
        Words(b": "),
        Amount(styles, unit, before),
        Words(b" before, "),
        Amount(styles, unit, before + i128::from(leg.qty)),
        Words(b" after"),
    ];
    say(MessageKind::Balances, &pieces, out)
}

/// Says which entries would be made of a dispatch or a receipt from or to that account, or of a closing.
fn say_made<L: Ledger>(
    alloc: Global,
    styles: &Styles,
    ledger: &L,
    account: Option<&Text>,
    new: &[Record],
    out: &mut Messages,
) -> Done
    ensures { AreAllPrintable styles.now new.now → OnOk result (out.new.items ≡ out.old.items ++ flat_map
        (made_said styles.now (L.book ledger.now) (option_map (λ text. text.now) account.entry)) new.now) }
{
    for row in new {
        say_lines(alloc, styles, &row.txn, out)?;
        say_balances(styles, ledger, leg_on(account, row.entry.legs.items()), out)?;
    }
    Ok(())
}

/// Whether another transfer has the branches, the day and the amount of one.
fn is_like(transfer: &Transfer, other: &Transfer) -> bool
    ensures { result ≡ is_like transfer.now other.now }
{
    other.source.as_str() == transfer.source.as_str()
        && other.target.as_str() == transfer.target.as_str()
        && other.day.0 == transfer.day.0
        && other.unit.0 == transfer.unit.0
        && other.qty == transfer.qty
}

/// The first of the held transfers that are like one.
fn find_like<'a>(held: &'a [Transfer], transfer: &Transfer) -> Option<&'a Transfer>
    ensures { option_map (λ other. other.now) result ≡ find (is_like transfer.now) held.now }
{
    held.iter().find(|other| is_like(transfer, other))
}

/// Says which held transfer is like one that would be dispatched, if there is one.
fn say_like(held: &[Transfer], transfer: &Transfer, out: &mut Messages) -> Done
    ensures { OnOk result (out.new.items ≡ out.old.items ++ like_if (find (is_like transfer.now) held.now)) }
{
    match find_like(held, transfer) {
        Some(other) => {
            let pieces = [
                Words(b"transfer "),
                Piece::Text(other.id.as_str().as_bytes()),
                Words(b" has the same branches, day and amount"),
            ];
            say(MessageKind::LikeTransfer, &pieces, out)
        }
        None => Ok(()),
    }
}

/// Says the same of each transfer among what would be added.
fn say_likes(held: &[Transfer], additions: &[Addition], out: &mut Messages) -> Done
    ensures { OnOk result (out.new.items ≡ out.old.items ++ flat_map (like_transfer_said held.now) additions.now) }
{
    for addition in additions {
        if let Addition::Dispatched(transfer) = addition {
            say_like(held, transfer, out)?;
        }
    }
    Ok(())
}

/// Says what a request would make, an import aside.
fn say_made_ahead<L: Ledger>(
    alloc: Global,
    state: &State<L>,
    request: &Request,
    additions: &[Addition],
    new: &[Record],
    out: &mut Messages,
) -> Done
    requires { new.now ≡ records_added additions.now }
    ensures { AreAllPrintable state.now.styles new.now → OnOk result (out.new.items
        ≡ out.old.items
        ++ made_ahead state.now request.now additions.now (branch_in state.now (branch_asked request.now))) }
{
    let Some(branch) = branch_of(state, request) else {
        return Ok(());
    };
    let (styles, account) = (state.styles(), account_of(request));
    say_made(alloc, styles, &branch.ledger, account, new, out)?;
    say_likes(state.transfers(), additions, out)
}

/// What is said of a dry run that is not refused: by the state, and what the request would add to it. `source` names
/// the journal.
pub fn dry_run_notes<L: Ledger>(
    alloc: Global,
    state: &State<L>,
    request: &Request,
    source: &str,
    additions: &[Addition],
) -> Result<Messages, Cause>
    // Of an import.
    ensures entered { (name journal : List ℕ) (list : List Located)
        → IsEnteredAhead state.now request.now name journal (records_added additions.now) list
        → IfOk result (λ said. said.items
        ≡ import_dry_run state.now name source.now journal (records_added additions.now) list) }
    // Of any other request.
    ensures others { journal_asked request.now ≡ None
        → AreAllPrintable state.now.styles (records_added additions.now)
        → IfOk result (λ said. said.items ≡ dry_run_said state.now request.now additions.now) }
{
    let mut said = Vec::new(alloc);
    let new = records_among(alloc, additions)?;
    match request {
        Request::Commodity { sample } => {
            if !additions.is_empty() {
                say_sample_note(alloc, sample.as_str(), &mut said)?;
            }
            return Ok(said);
        }
        Request::Import { journal, .. } => {
            let (styles, text) = (state.styles(), journal.as_bytes());
            say_new_entries(alloc, styles, text, source, new.as_slice(), &mut said)?;
        }
        _ => say_made_ahead(alloc, state, request, additions, new.as_slice(), &mut said)?,
    }
    notes_ahead(alloc, state, request, source, new.as_slice(), &mut said)?;
    Ok(said)
}
