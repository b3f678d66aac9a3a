//! What stands against a closing: an account of its list, its target, or the closing that the branch has of that day.

ghost use Rattle.std.specs.Prelude.{◌≡◌, ◌++◌, find, OnOk};
ghost use Rattle.std.specs.Option.{option_copied, option_map};
ghost use Rattle.treasury_reasons.specs.Closing.{is_against, found_in, choice_said, list_said, is_closing_at};
ghost use Rattle.treasury_reasons.specs.Closing.{txn_said, held_closing_said, closing_said};
ghost use Rattle.treasury_core.specs.Choice.{target_in};
ghost use Rattle.treasury_state.specs.Federation.{branch_at};

use crate::held::{ACCOUNT_FORM, TRANSFERS_ONLY};
use crate::named::say_named;
use book_core::Ledger;
use journal_format::Txn;
use journal_lines::is_account;
use money_core::{Cause, Day, Text};
use treasury_core::{Record, State};
use treasury_messages::Piece::{Header, Number, Words};
use treasury_messages::{Done, Message, MessageKind, Messages, Piece, hint, say};
use treasury_requests::Request;
use treasury_state::{find_branch, is_reserved_account};

/// The account that gets what closed accounts held, where none is named.
const RETAINED_EARNINGS: &str = "equity:retained earnings";

/// The greatest number of bytes of a list.
const MAX_LIST: usize = 880;

/// Said of a listed account below which transit accounts are.
const NEVER_CLOSED: &[u8] = b"what is in transit between branches is never closed";

/// Said of a target that is selected.
const NOT_ITSELF: &[u8] = b"the account that gets the balances cannot be closed itself";

/// How a list is read.
const NAMES_JOINED: &[u8] = b"names are joined by `;`, and compared letter by letter";

/// Whether a closing is refused so for that account: it is not well formed, or transit accounts are below it.
fn is_against(cause: Cause, account: &str) -> bool
    ensures { result ≡ is_against cause account.now }
{
    match cause {
        Cause::BadAccount => !is_account(account.as_bytes()),
        _ => account == "assets" || is_reserved_account(account),
    }
}

/// The first such account of a list.
fn found_in(cause: Cause, accounts: &Option<Text>) -> Option<&str>
    ensures { option_map (λ name. name.now) result ≡ found_in cause accounts.now }
{
    let Some(list) = accounts else { return None };
    list.as_str()
        .split(';')
        .find(|name| is_against(cause, name))
}

/// The account that gets the balances.
fn target_of(into: &Option<Text>) -> &str
    ensures { result.now ≡ target_in into.now }
{
    match into {
        Some(account) => account.as_str(),
        None => RETAINED_EARNINGS,
    }
}

/// Says the listed account for which a closing is refused so, or else the account that gets the balances.
fn say_choice(
    cause: Cause,
    accounts: &Option<Text>,
    into: &Option<Text>,
    out: &mut Messages,
) -> Done
    ensures { OnOk result (out.new.items ≡ out.old.items ++ choice_said cause accounts.now into.now) }
{
    if let Some(name) = found_in(cause, accounts) {
        say_named(MessageKind::Account, b"account: ", name, out)?;
        return match cause {
            Cause::BadAccount => hint(ACCOUNT_FORM, out),
            _ => hint(NEVER_CLOSED, out),
        };
    }
    let target = target_of(into);
    say_named(MessageKind::Into, b"into: ", target, out)?;
    match cause {
        Cause::BadAccount if is_account(target.as_bytes()) => hint(NOT_ITSELF, out),
        Cause::BadAccount => hint(ACCOUNT_FORM, out),
        _ => say(MessageKind::TransfersOnly, &[Words(TRANSFERS_ONLY)], out),
    }
}

/// Says a list that is too long, or of which no account has a balance.
fn say_list(cause: Cause, accounts: &Option<Text>, out: &mut Messages) -> Done
    ensures { OnOk result (out.new.items ≡ out.old.items ++ list_said cause accounts.now) }
{
    let Some(list) = accounts else { return Ok(()) };
    let size = list.as_str().len();
    match cause {
        Cause::Limit if size <= MAX_LIST => Ok(()),
        Cause::Limit => {
            let pieces = [Words(b"the list has "), Number(size), Words(b" bytes")];
            say(MessageKind::LongList, &pieces, out)
        }
        _ => {
            say_named(MessageKind::Accounts, b"accounts: ", list.as_str(), out)?;
            hint(NAMES_JOINED, out)
        }
    }
}

/// Whether the record is that of a closing at that day.
fn is_closing_at(row: &Record, day: Day) -> bool
    ensures { result ≡ is_closing_at day row.now }
{
    row.txn.day.0 == day.0 && row.mark.as_str().starts_with("close:")
}

/// The first of the records that is that of a closing at a day.
fn closing_at(records: &[Record], day: Day) -> Option<&Record>
    ensures { option_copied result ≡ find (is_closing_at day) records.now }
{
    records.iter().find(|row| is_closing_at(row, day))
}

/// Says a closing that is held, and what was asked for of it.
fn say_record(txn: &Txn, out: &mut Messages) -> Done
    ensures { OnOk result (out.new.items ≡ out.old.items ++ txn_said txn.now) }
{
    let mut message = Message::new(*out.allocator(), MessageKind::HeldClosing);
    let comments = txn.comments.items();
    let asked: &'static [u8] = if comments.is_empty() {
        b" of revenues and expenses, into equity:retained earnings"
    } else {
        b""
    };
    message.add(&[Words(b"held: "), Header(txn), Words(asked)])?;
    for comment in comments {
        message.add(&[Words(b", "), Piece::Text(comment.as_str().as_bytes())])?;
    }
    message.say(out)?;
    hint(b"a branch is closed once at a day", out)
}

/// Says the closing that the branch of that name has of that day.
fn say_closing_of<L: Ledger>(state: &State<L>, name: &str, day: Day, out: &mut Messages) -> Done
    ensures { OnOk result (out.new.items
        ≡ out.old.items ++ held_closing_said day (branch_at state.now.branches name.now)) }
{
    let Some(branch) = find_branch(state, name) else {
        return Ok(());
    };
    match closing_at(branch.records.items(), day) {
        Some(row) => say_record(&row.txn, out),
        None => Ok(()),
    }
}

/// Says what stands against a closing that is refused by a cause alone; nothing of another request.
pub fn say_closing<L: Ledger>(
    state: &State<L>,
    request: &Request,
    cause: Cause,
    out: &mut Messages,
) -> Done
    ensures { OnOk result (out.new.items ≡ out.old.items ++ closing_said state.now request.now cause) }
{
    let Request::Close {
        branch,
        day,
        accounts,
        into,
    } = request
    else {
        return Ok(());
    };
    match cause {
        Cause::BadAccount | Cause::ReservedAccount => say_choice(cause, accounts, into, out),
        Cause::Limit | Cause::NothingToClose => say_list(cause, accounts, out),
        Cause::MarkClash => say_closing_of(state, branch.as_str(), *day, out),
        _ => Ok(()),
    }
}
