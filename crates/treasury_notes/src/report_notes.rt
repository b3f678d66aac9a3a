//! What standard error says beside a report: that it asks for what is not there.

ghost use Rattle.std.specs.Prelude.{◌≡◌, ◌++◌, OnOk};
ghost use Rattle.std.specs.List.{list_any};
ghost use Rattle.std.specs.Option.{option_map};
ghost use Rattle.treasury_state.specs.Seen.{branch_of};
ghost use Rattle.treasury_notes.specs.ReportNotes.{has_tag, no_account_said, no_tag_said, report_said};

use crate::named::is_used_inside;
use book_core::Ledger;
use money_core::Text;
use treasury_core::{Branch, Record, State};
use treasury_messages::Piece::Words;
use treasury_messages::{Done, Message, MessageKind, Messages, Piece, say};
use treasury_reports::is_wanted;
use treasury_requests::Request;
use treasury_state::find_branch;

/// Whether an entry has the tag.
fn has_tag(row: &Record, tag: &str) -> bool
    ensures { result ≡ has_tag tag.now row.now }
{
    is_wanted(&row.txn, Some(tag))
}

/// Whether one of the entries has it.
fn is_tagged(records: &[Record], tag: &str) -> bool
    ensures { result ≡ list_any (has_tag tag.now) records.now }
{
    records.iter().any(|row| has_tag(row, tag))
}

/// Says that no entry of a branch is on the account or a subaccount, if none is.
fn say_no_account<'a, L: Ledger>(
    branch: &'a Branch<L>,
    account: &'a str,
    out: &mut Messages,
) -> Done
    ensures { OnOk result (out.new.items ≡ out.old.items ++ no_account_said (branch_of branch.now) account.now) }
{
    if is_used_inside(account, branch.records.items()) {
        return Ok(());
    }
    let name = branch.name.as_str().as_bytes();
    let mut message = Message::new(*out.allocator(), MessageKind::NoSuchAccount);
    message.add(&[
        Words(b"no entry of "),
        Piece::Text(name),
        Words(b" is on '"),
    ])?;
    message.add(&[Piece::Text(account.as_bytes()), Words(b"' or below it")])?;
    message.say(out)
}

/// Says that none has the tag, if one is asked for, and none has it.
fn say_no_tag<'a, L: Ledger>(
    branch: &'a Branch<L>,
    tag: Option<&'a Text>,
    out: &mut Messages,
) -> Done
    ensures { OnOk result (out.new.items
        ≡ out.old.items ++ no_tag_said (branch_of branch.now) (option_map (λ text. text.now) tag.entry)) }
{
    let Some(tag) = tag else { return Ok(()) };
    let tag = tag.as_str();
    if is_tagged(branch.records.items(), tag) {
        return Ok(());
    }
    let name = Piece::Text(branch.name.as_str().as_bytes());
    let tag = Piece::Text(tag.as_bytes());
    let has_not = Words(b" has the tag '");
    let pieces = [Words(b"no entry of "), name, has_not, tag, Words(b"'")];
    say(MessageKind::NoSuchTag, &pieces, out)
}

/// Says what there is to note of a report: a register of an account or a tag that no entry has.
pub fn say_report_notes<L: Ledger>(state: &State<L>, request: &Request, out: &mut Messages) -> Done
    ensures { OnOk result (out.new.items ≡ out.old.items ++ report_said state.now request.now) }
{
    let Request::Register {
        branch,
        account,
        tag,
        ..
    } = request
    else {
        return Ok(());
    };
    let Some(branch) = find_branch(state, branch.as_str()) else {
        return Ok(());
    };
    say_no_account(branch, account.as_str(), out)?;
    say_no_tag(branch, tag.as_ref(), out)
}
