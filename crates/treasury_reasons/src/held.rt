//! What stands against a request: what is held, and the forms and limits that its texts have to meet.

ghost use Rattle.std.specs.Prelude.{◌≡◌, ◌++◌, [], OnOk};
ghost use Rattle.treasury_state.specs.Federation.{names_of};
ghost use Rattle.treasury_state.specs.Seen.{branches_of};
ghost use Rattle.treasury_reasons.specs.Held.{branches_said, account_asked, account_said, count_said, style_said};
ghost use Rattle.treasury_reasons.specs.Held.{form_said, held_said};

use crate::lock::say_lock;
use crate::named::say_named;
use crate::transfers::{say_id, say_transfer_of};
use book_core::{Ledger, MAX_ENTRIES};
use journal_hints::hints::{sample, say_amount_form, say_sample_form, say_samples};
use money_core::{Cause, Styles, read_style};
use std::alloc::Global;
use treasury_core::{Branch, State};
use treasury_messages::Piece::{Number, Text, Words};
use treasury_messages::{Done, Message, MessageKind, Messages, hint, say};
use treasury_requests::Request;
use treasury_state::find_branch;

/// The forms of a branch's name, and of an account.
const NAME_FORM: &[u8] =
    b"a name is a lower-case letter followed by at most 31 lower-case letters, digits or -";

pub(crate) const ACCOUNT_FORM: &[u8] =
    b"an account is one or more names joined by single colons, at most 200 bytes in all, with no `;`, control character, double space or space at either end; it does not begin with `*`, `!`, `(` or `[`";

/// Said of an account on which no other entry may be.
pub(crate) const TRANSFERS_ONLY: &[u8] = b"only transfers post there";

/// Said where there is no transfer with an ID.
const LISTED: &[u8] =
    b"treasury transfers --day 9999-12-31 lists what may still be received, with its IDs";

/// Says the names of all branches.
fn say_branches<L: Ledger>(branches: &[Branch<L>], out: &mut Messages) -> Done
    ensures { OnOk result (out.new.items
        ≡ out.old.items ++ branches_said (names_of (branches_of branches.now))) }
{
    if branches.is_empty() {
        return hint(b"there is no branch yet; treasury branch adds one", out);
    }
    let mut message = Message::new(*out.allocator(), MessageKind::Branches);
    message.add(&[Words(b"branches:")])?;
    for branch in branches {
        message.add(&[Words(b" "), Text(branch.name.as_str().as_bytes())])?;
    }
    message.say(out)
}

/// Says the account of a request, and what is to be said of it.
fn say_account(
    request: &Request,
    kind: MessageKind,
    words: &'static [u8],
    out: &mut Messages,
) -> Done
    ensures { OnOk result (out.new.items ≡ out.old.items ++ account_said kind (account_asked request.now)) }
{
    let account = match request {
        Request::Dispatch { account, .. } => account,
        Request::Receive { account, .. } => account,
        _ => return Ok(()),
    };
    say_named(MessageKind::Account, b"account: ", account.as_str(), out)?;
    say(kind, &[Words(words)], out)
}

/// Says how the commodity of a sample is written already.
fn say_style(alloc: Global, styles: &Styles, request: &Request, out: &mut Messages) -> Done
    ensures { OnOk result (out.new.items ≡ out.old.items ++ style_said styles.now request.now) }
{
    let Request::Commodity { sample: text } = request else {
        return Ok(());
    };
    let style = read_style(alloc, text.as_str())?;
    let Some(unit) = styles.find(style.symbol.as_str()) else {
        return Ok(());
    };
    let held = sample(styles, unit);
    let pieces = [Words(b"held: "), held, Words(b", which cannot be changed")];
    say(MessageKind::HeldStyle, &pieces, out)
}

/// Says which count has reached its limit.
fn say_count<L: Ledger>(state: &State<L>, request: &Request, out: &mut Messages) -> Done
    ensures { OnOk result (out.new.items ≡ out.old.items ++ count_said state.now request.now) }
{
    match request {
        Request::Branch { .. } => hint(b"a treasury has at most 32 branches", out),
        Request::Commodity { .. } => hint(b"a treasury has at most 16 commodities", out),
        _ => {
            let Some(name) = request.branch() else {
                return Ok(());
            };
            let Some(branch) = find_branch(state, name.as_str()) else {
                return Ok(());
            };
            let (name, size) = (
                branch.name.as_str().as_bytes(),
                branch.records.items().len(),
            );
            let mut message = Message::new(*out.allocator(), MessageKind::CountOfEntries);
            message.add(&[Words(b"a branch has at most "), Number(MAX_ENTRIES)])?;
            message.add(&[Words(b" entries; ")])?;
            message.add(&[Text(name), Words(b" has "), Number(size)])?;
            message.say(out)
        }
    }
}

/// Says how amounts or samples are written, for a request whose own text is not one.
fn say_form(styles: &Styles, request: &Request, out: &mut Messages) -> Done
    ensures { OnOk result (out.new.items ≡ out.old.items ++ form_said styles.now request.now) }
{
    match request {
        Request::Commodity { .. } => say_sample_form(out),
        Request::Dispatch { amount, .. } => {
            say_amount_form(styles, amount.as_str().as_bytes(), out)
        }
        Request::Receive {
            part: Some(part),
            ..
        } => say_amount_form(styles, part.amount.as_str().as_bytes(), out),
        _ => Ok(()),
    }
}

/// Says what stands against a request that is refused by a cause alone.
pub fn say_held<L: Ledger>(
    alloc: Global,
    state: &State<L>,
    request: &Request,
    cause: Cause,
    out: &mut Messages,
) -> Done
    ensures { OnOk result (out.new.items ≡ out.old.items ++ held_said state.now request.now cause) }
{
    match cause {
        Cause::UnknownBranch => say_branches(state.branches(), out),
        Cause::BranchName => hint(NAME_FORM, out),
        Cause::BadId => say_id(request, out),
        Cause::BadAccount => say_account(request, MessageKind::Hint, ACCOUNT_FORM, out),
        Cause::ReservedAccount => {
            say_account(request, MessageKind::TransfersOnly, TRANSFERS_ONLY, out)
        }
        Cause::Amount => say_form(state.styles(), request, out),
        Cause::UnknownCommodity | Cause::Decimals => {
            say_samples(MessageKind::Declared, state.styles(), b"declared", out)
        }
        Cause::CommodityExists => say_style(alloc, state.styles(), request, out),
        Cause::UnknownTransfer => hint(LISTED, out),
        Cause::Full => say_count(state, request, out),
        Cause::Locked | Cause::LockBack => say_lock(state, request, out),
        Cause::MarkClash
        | Cause::WrongBranch
        | Cause::AlreadyReceived
        | Cause::TooEarly
        | Cause::TooMuch => say_transfer_of(state, request, cause, out),
        _ => Ok(()),
    }
}
