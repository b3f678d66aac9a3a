//! What is said of a balance assertion that fails: where it stands, what it states, what was found, and the difference.

ghost use Rattle.std.specs.Prelude.{◌≡◌, ◌+◌, ◌-ℤ◌, ◌++◌, [], true, IfOk, OnOk, length, List};
ghost use Rattle.std.specs.Option.{option_map};
ghost use Rattle.journal_format.specs.declared.txn.Located.{Located as Placed};
ghost use Rattle.journal_format.specs.Pieces.{Reads};
ghost use Rattle.journal_hints.specs.Numbered.{item_of_number};
ghost use Rattle.treasury_state.specs.Federation.{has_branch};
ghost use Rattle.treasury_state.specs.Good.{IsGoodBranch};
ghost use Rattle.treasury_state.specs.Index.{IsIndexOf, IsKept};
ghost use Rattle.treasury_state.specs.Seen.{branch_of};
ghost use Rattle.treasury_core.specs.Step.{new_in};
ghost use Rattle.treasury_reasons.specs.Failure.{leg_account_said, held_claim_said, new_claim_said, claim_said};
ghost use Rattle.treasury_reasons.specs.Failure.{amounts_said, touching_list, touching_leg, watched_in, failure_said};
ghost use Rattle.treasury_reasons.specs.Failure.{judged_branch, text_asked, told_failure};
ghost use Rattle.treasury_reasons.specs.Reading.{line_of, IsRead};
ghost use Rattle.treasury_reasons.specs.Told.{BeginsWithSentence};

use crate::named::say_named;
use crate::numbered::{entry_at, leg_at};
use crate::reading::{Read, cause_in, read_rows};
use crate::taking::taken;
use crate::touching::{find_touching, say_list, watched_by};
use book_core::{Entry, Failure, Ledger};
use journal_hints::lines::say_source;
use money_core::{Cause, Items, Styles};
use std::alloc::Global;
use treasury_core::{Branch, Record, State};
use treasury_messages::Piece::{Amount, Header, Number, Words};
use treasury_messages::{Done, MessageKind, Messages, say, say_sentence, say_sentence_at};
use treasury_requests::Request;
use treasury_state::find_branch;

/// The branch whose assertions a request may break.
fn judged_branch(request: &Request) -> &str
    ensures { result.now ≡ judged_branch request.now }
{
    match request.branch() {
        Some(name) => name.as_str(),
        None => "",
    }
}

/// The text of a request; an empty one where it has none.
fn text_of(request: &Request) -> &[u8]
    ensures { result.now ≡ text_asked request.now }
{
    match request {
        Request::Import { journal, .. } => journal.as_bytes(),
        _ => &[],
    }
}

/// Says the account of the leg of that number.
fn say_account(entry: &Entry, leg: usize, out: &mut Messages) -> Done
    ensures { OnOk result (out.new.items ≡ out.old.items ++ leg_account_said (item_of_number entry.now.legs leg)) }
{
    match leg_at(entry, leg) {
        Some(leg) => {
            let name = leg.account.as_str();
            say_named(MessageKind::Account, b"account: ", name, out)
        }
        None => Ok(()),
    }
}

/// What is found less what is asserted.
fn difference(failure: &Failure) -> i128
    ensures { result ≡ failure.now.found -ℤ failure.now.asserted }
{
    i128::from(failure.found) - i128::from(failure.asserted)
}

/// Says what is asserted, what is found, and their difference.
fn say_amounts(styles: &Styles, failure: &Failure, out: &mut Messages) -> Done
    ensures { OnOk result (out.new.items ≡ out.old.items
        ++ amounts_said styles.now failure.now.unit failure.now.asserted failure.now.found) }
{
    let unit = failure.unit;
    let asserted = i128::from(failure.asserted);
    let found = i128::from(failure.found);
    let less = difference(failure);
    let pieces = [Words(b"asserted: "), Amount(styles, unit, asserted)];
    say(MessageKind::Asserted, &pieces, out)?;
    let pieces = [Words(b"found: "), Amount(styles, unit, found)];
    say(MessageKind::Found, &pieces, out)?;
    let pieces = [Words(b"difference: "), Amount(styles, unit, less)];
    say(MessageKind::Difference, &pieces, out)
}

/// Says the sentence and the place of a new transaction's assertion.
fn say_new(
    source: &str,
    text: &[u8],
    line: usize,
    row: &Record,
    failure: &Failure,
    out: &mut Messages,
) -> Done
    ensures { OnOk result (out.new.items
        ≡ out.old.items ++ new_claim_said source.now text.now line failure.now.place row.now) }
{
    say_sentence_at(source, line, Cause::ClaimFailed, out)?;
    say_source(text, line, out)?;
    say_account(&row.entry, failure.place.leg, out)?;
    let pieces = [
        Words(b"entry: "),
        Number(failure.place.entry),
        Words(b", "),
        Header(&row.txn),
        Words(b", which is new"),
    ];
    say(MessageKind::NewEntryOf, &pieces, out)
}

/// Says the sentence and the place of an assertion that the branch holds.
fn say_held(row: &Record, failure: &Failure, out: &mut Messages) -> Done
    ensures { OnOk result (out.new.items ≡ out.old.items ++ held_claim_said failure.now.place row.now) }
{
    say_sentence(Cause::ClaimFailed, out)?;
    say_account(&row.entry, failure.place.leg, out)?;
    let number = Number(failure.place.entry);
    let pieces = [Words(b"entry: "), number, Words(b", "), Header(&row.txn)];
    say(MessageKind::Entry, &pieces, out)
}

/// Says the sentence and the place of an assertion in a branch that holds so many entries.
fn say_claim(
    held: usize,
    read: &Read,
    source: &str,
    text: &[u8],
    row: Option<&Record>,
    failure: &Failure,
    out: &mut Messages,
) -> Done
    requires { IsIndexOf read.now.first read.now.rows }
    ensures { OnOk result (out.new.items ≡ out.old.items ++ claim_said source.now text.now
        (line_of read.now.file.items read.now.rows) held failure.now.place (option_map (λ r. r.now) row.entry)) }
{
    match row {
        Some(row) => {
            if held < failure.place.entry {
                say_new(source, text, read.line_of(row), row, failure, out)
            } else {
                say_held(row, failure, out)
            }
        }
        None => say_sentence(Cause::ClaimFailed, out),
    }
}

/// Says the new transactions that touch what the assertion of a leg looks at, before the assertion's place.
fn say_touching_leg(
    alloc: Global,
    records: &[Record],
    read: &Read,
    new: &[Record],
    source: &str,
    row: Option<&Record>,
    failure: &Failure,
    out: &mut Messages,
) -> Done
    requires { IsIndexOf read.now.first read.now.rows }
    ensures { OnOk result (out.new.items ≡ out.old.items ++ touching_list records.now source.now
        (line_of read.now.file.items read.now.rows) (touching_leg (length records.now + 1) new.now
        (watched_in (option_map (λ r. r.now) row.entry) failure.now.place.leg) failure.now.place)) }
{
    let Some(row) = row else { return Ok(()) };
    let Some(watched) = watched_by(&row.entry, failure.place.leg)? else {
        return Ok(());
    };
    let first = records.len() + 1;
    let new = find_touching(alloc, new, first, &watched, failure.place)?;
    say_list(records, read, source, new.as_slice(), out)
}

/// Says what a failed assertion of a branch with these records states, what was found, the difference, and which of the
/// new transactions of a text may be why.
#[tactic(auto, unfolding(crate::specs::Failure::failure_said))]
fn explain_on(
    alloc: Global,
    styles: &Styles,
    records: &[Record],
    brought: &Brought,
    source: &str,
    text: &[u8],
    failure: &Failure,
) -> Result<Messages, Cause>
    requires { IsIndexOf brought.now.read.first brought.now.read.rows }
    ensures { IfOk result (λ said. said.items ≡ failure_said styles.now records.now source.now text.now
        (line_of brought.now.read.file.items brought.now.read.rows) brought.now.new failure.now) }
{
    let (read, new) = (&brought.read, brought.new.items());
    let row = entry_at(records, new, failure.place.entry);
    let mut said = Vec::new(alloc);
    say_claim(records.len(), read, source, text, row, failure, &mut said)?;
    say_amounts(styles, failure, &mut said)?;
    say_touching_leg(alloc, records, read, new, source, row, failure, &mut said)?;
    Ok(said)
}

/// A text that was read, and the records that it would bring to a branch, in order.
#[derive(Drop)]
struct Brought {
    read: Read,
    new: Items<Record>,
}

/// What a text would bring to the branch.
fn brought_by<L: Ledger>(
    alloc: Global,
    styles: &Styles,
    branch: &Branch<L>,
    text: &[u8],
) -> Result<Brought, Cause>
    requires kept { IsKept L.book branch.now }
    requires good { IsGoodBranch styles.now (branch_of branch.now) }
    ensures read { IfOk result (λ brought. IsRead styles.now text.now brought.read) }
    ensures only { (list : List Placed) → Reads styles.now text.now list
        → IfOk result (λ brought. brought.read.file.items ≡ list) }
    ensures new { IfOk result (λ brought. brought.new ≡ new_in branch.now.records brought.read.rows) }
{
    let read = read_rows(alloc, styles, text)?;
    match taken(alloc, styles, branch, &read.rows) {
        Ok(new) => Ok(Brought { read, new }),
        Err(stop) => Err(cause_in(stop.refusal)),
    }
}

/// What is said of a failed assertion: what it states, what was found, the difference, and which new transactions of an
/// import may be why.
pub fn explain_failure<L: Ledger>(
    alloc: Global,
    state: &State<L>,
    request: &Request,
    source: &str,
    failure: &Failure,
) -> Result<Messages, Cause>
    ensures sentence { IfOk result (λ said. BeginsWithSentence Cause.ClaimFailed said.items) }
    ensures told { (list : List Placed) → has_branch state.now (judged_branch request.now) ≡ true
        → Reads state.now.styles (text_asked request.now) list → IfOk result
        (λ said. said.items ≡ told_failure state.now request.now source.now list failure.now) }
{
    state.is_good();
    let styles = state.styles();
    let text = text_of(request);
    let Some(branch) = find_branch(state, judged_branch(request)) else {
        let mut said = Vec::new(alloc);
        say_sentence(Cause::ClaimFailed, &mut said)?;
        return Ok(said);
    };
    let brought = brought_by(alloc, styles, branch, text)?;
    let records = branch.records.items();
    explain_on(alloc, styles, records, &brought, source, text, failure)
}
