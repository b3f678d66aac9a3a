//! What is held of the transfer that a request is on, and the forms of its ID and of a part's key.

ghost use Rattle.std.specs.Prelude.{◌≡◌, ◌++◌, [], ◌∷◌, OnOk, IfSome};
ghost use Rattle.std.specs.Option.{option_map};
ghost use Rattle.treasury_messages.specs.Said.{naming};
ghost use Rattle.treasury_state.specs.Good.{HasGoodParts};
ghost use Rattle.treasury_reasons.specs.HeldTransfer.{id_asked, part_asked, transfer_in, receipt_values, transfer_said};
ghost use Rattle.treasury_reasons.specs.HeldTransfer.{transfer_left_said, part_said, key_said, asked_said};
ghost use Rattle.treasury_reasons.specs.HeldTransfer.{held_transfer, id_said};

use crate::named::say_named;
use book_core::Ledger;
use money_core::{Cause, Styles, Unit, read_amount};
use treasury_core::{Part, State, Transfer, find_part};
use treasury_messages::Piece::{Amount, Day, Text, Words};
use treasury_messages::{Done, Message, MessageKind, Messages, hint, say};
use treasury_requests::{Request, WrittenPart};
use treasury_state::{find_transfer, is_id, left_of};

const ID_FORM: &[u8] = b"an ID is 1 to 64 ASCII letters, digits or -._";

const KEY_FORM: &[u8] =
    b"a key is 1 to 32 ASCII letters, digits or -._, and not `all`, which is that of everything that is left";

/// The part of a request.
fn part_of(request: &Request) -> Option<&WrittenPart>
    ensures { option_map (λ part. part.now) result ≡ part_asked request.now }
{
    match request {
        Request::Receive { part, .. } => part.as_ref(),
        _ => None,
    }
}

/// Adds when what the parts of a transfer left was received, and into which account, if it was.
fn add_receipt(transfer: &Transfer, message: &mut Message) -> Done
    ensures { OnOk result (message.new ≡ naming message.old (receipt_values transfer.now.receipt)) }
{
    let Some(receipt) = &transfer.receipt else {
        return Ok(());
    };
    let words: &'static [u8] = if transfer.parts.items().is_empty() {
        b", received on "
    } else {
        b", the rest received on "
    };
    let payee = receipt.payee.as_str().as_bytes();
    message.add(&[
        Words(words),
        Day(receipt.day),
        Words(b" into "),
        Text(payee),
    ])
}

/// Says what is held of a transfer.
fn say_transfer<'a>(styles: &'a Styles, transfer: &'a Transfer, out: &mut Messages) -> Done
    ensures { OnOk result (out.new.items ≡ out.old.items ++ transfer_said styles.now transfer.now ∷ []) }
{
    let amount = Amount(styles, transfer.unit, i128::from(transfer.qty));
    let (from, to) = (transfer.source.as_str(), transfer.target.as_str());
    let payer = transfer.payer.as_str();
    let mut message = Message::new(*out.allocator(), MessageKind::HeldTransfer);
    message.add(&[Words(b"held: "), Text(transfer.id.as_str().as_bytes())])?;
    message.add(&[Words(b", "), amount])?;
    message.add(&[Words(b" from "), Text(from.as_bytes())])?;
    message.add(&[Words(b" to "), Text(to.as_bytes()), Words(b", sent on ")])?;
    message.add(&[Day(transfer.day), Words(b" from "), Text(payer.as_bytes())])?;
    add_receipt(transfer, &mut message)?;
    message.say(out)
}

/// Says what is left of a transfer.
fn say_left(styles: &Styles, transfer: &Transfer, out: &mut Messages) -> Done
    requires { HasGoodParts transfer.now }
    ensures { OnOk result (out.new.items ≡ out.old.items ++ transfer_left_said styles.now transfer.now) }
{
    let (unit, left) = (transfer.unit, i128::from(left_of(transfer)));
    let pieces = [Words(b"left: "), Amount(styles, unit, left)];
    say(MessageKind::Left, &pieces, out)
}

/// Says what is held of a part of a transfer in a commodity.
fn say_part<'a>(styles: &'a Styles, unit: Unit, part: &'a Part, out: &mut Messages) -> Done
    ensures { OnOk result (out.new.items ≡ out.old.items ++ part_said styles.now unit part.now ∷ []) }
{
    let (key, payee) = (part.key.as_str().as_bytes(), part.payee.as_str().as_bytes());
    let qty = i128::from(part.qty);
    let mut message = Message::new(*out.allocator(), MessageKind::HeldPart);
    message.add(&[Words(b"part "), Text(key), Words(b": ")])?;
    message.add(&[Amount(styles, unit, qty), Words(b", received on ")])?;
    message.add(&[Day(part.day), Words(b" into "), Text(payee)])?;
    message.say(out)
}

/// Says what is held under the key of a part that is asked for; without a part, what is left, unless that was received.
fn say_key(
    styles: &Styles,
    transfer: &Transfer,
    part: Option<&WrittenPart>,
    out: &mut Messages,
) -> Done
    requires { HasGoodParts transfer.now }
    ensures { OnOk result (out.new.items
        ≡ out.old.items ++ key_said styles.now transfer.now (option_map (λ p. p.now) part.entry)) }
{
    match part {
        Some(asked) => match find_part(transfer.parts.items(), asked.key.as_str()) {
            Some(part) => say_part(styles, transfer.unit, part, out),
            None => Ok(()),
        },
        None => match &transfer.receipt {
            Some(_) => Ok(()),
            None => say_left(styles, transfer, out),
        },
    }
}

/// Says what the amount of a part was read as, if a part is asked for.
fn say_asked(styles: &Styles, part: Option<&WrittenPart>, out: &mut Messages) -> Done
    ensures { OnOk result (out.new.items
        ≡ out.old.items ++ asked_said styles.now (option_map (λ p. p.now) part.entry)) }
{
    let Some(part) = part else { return Ok(()) };
    let (unit, qty) = read_amount(part.amount.as_str(), styles)?;
    let pieces = [Words(b"asked: "), Amount(styles, unit, i128::from(qty))];
    say(MessageKind::Asked, &pieces, out)
}

/// The transfer that a request is on.
pub fn transfer_of<'a, L: Ledger>(state: &'a State<L>, request: &Request) -> Option<&'a Transfer>
    ensures value { option_map (λ t. t.now) result ≡ transfer_in state.now (id_asked request.now) }
    ensures good { IfSome result (λ t. HasGoodParts t.now) }
{
    state.is_good();
    let id = match request {
        Request::Dispatch { id, .. } => id,
        Request::Receive { id, .. } => id,
        _ => return None,
    };
    find_transfer(state.transfers(), id.as_str())
}

/// Says what is held of the transfer that a request is on; by the cause also what is held under its key, or what is
/// asked and what is left.
#[tactic(auto, unfolding(crate::specs::HeldTransfer::held_transfer))]
pub(crate) fn say_transfer_of<L: Ledger>(
    state: &State<L>,
    request: &Request,
    cause: Cause,
    out: &mut Messages,
) -> Done
    ensures { OnOk result (out.new.items ≡ out.old.items ++ held_transfer state.now request.now cause) }
{
    let Some(transfer) = transfer_of(state, request) else {
        return Ok(());
    };
    let styles = state.styles();
    let part = part_of(request);
    say_transfer(styles, transfer, out)?;
    match cause {
        Cause::AlreadyReceived => say_key(styles, transfer, part, out),
        Cause::TooMuch => {
            say_asked(styles, part, out)?;
            say_left(styles, transfer, out)
        }
        _ => Ok(()),
    }
}

/// Says the form of an ID, or, where that of a request is well formed, the key of its part and the form of a key.
pub(crate) fn say_id(request: &Request, out: &mut Messages) -> Done
    ensures { OnOk result (out.new.items ≡ out.old.items ++ id_said request.now) }
{
    if let Request::Receive {
        id,
        part: Some(part),
        ..
    } = request
    {
        if is_id(id.as_str().as_bytes()) {
            say_named(MessageKind::Part, b"part: ", part.key.as_str(), out)?;
            return hint(KEY_FORM, out);
        }
    }
    hint(ID_FORM, out)
}
