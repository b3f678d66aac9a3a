//! Money received that was dispatched to a branch.

ghost use Rattle.std.specs.Prelude.{Some, None, true, false, ◌≡◌, ◌≤◌, ◌⊎◌, ◌&&◌, [], ◌∷◌, ◌++◌, find, IfOk, IfErr};
ghost use Rattle.std.specs.Prelude.{OnOk, unsigned_abs, option_copied};
ghost use Rattle.std.specs.Option.{option_map};
ghost use Rattle.std.specs.Ordering.{int_eq};
ghost use Rattle.std.specs.Result.{IsOkUnless};
ghost use Rattle.std.specs.Str.{bytes_eq};
ghost use Rattle.money_core.specs.Amount.{limit};
ghost use Rattle.book_core.specs.GoodBook.{IsGoodBook, verdict};
ghost use Rattle.treasury_state.specs.Federation.{entries};
ghost use Rattle.treasury_state.specs.Transfer.{receipts_of, receipt_record};
ghost use Rattle.treasury_state.specs.Good.{HasGoodParts};
ghost use Rattle.treasury_state.specs.Index.{IsKept};
ghost use Rattle.treasury_core.specs.Step.{key_of, qty_of, receipt_of, has_key, is_received_so, is_too_much};
ghost use Rattle.treasury_core.specs.Step.{has_bad_key, has_nothing_left, receipt_refusal, Decides};
ghost use Rattle.treasury_core.specs.Fits.{IsReceive};

use crate::command::{Command, Receive};
use crate::decision::{Decision, recorded, repeated, settled};
use book_core::{Ledger, Refusal};
use money_core::{Cause, Copied, Text};
use std::alloc::Global;
use treasury_state::{
    Addition, Branch, Delta, Part, Receipt, State, Transfer, find_branch, find_transfer,
    is_account_text, is_id, is_key, is_locked, is_reserved_account, left_of, receipt_record,
};

/// Whether a part is asked for whose key is not well formed.
fn has_bad_key(receive: &Receive) -> bool
    ensures { result ≡ has_bad_key receive.now.part }
{
    match &receive.part {
        None => false,
        Some(asked) => !is_key(asked.key.as_str()),
    }
}

/// The key that is asked for.
fn key_of(receive: &Receive) -> &str
    ensures { result.now ≡ key_of receive.now.part }
{
    match &receive.part {
        None => "all",
        Some(asked) => asked.key.as_str(),
    }
}

/// The quantity that is asked for.
fn qty_of(transfer: &Transfer, receive: &Receive) -> i64
    requires { HasGoodParts transfer.now }
    ensures { result ≡ qty_of transfer.now receive.now.part }
{
    match &receive.part {
        None => left_of(transfer),
        Some(asked) => asked.qty,
    }
}

/// Whether a part is asked for in another commodity, or of more than what is left.
fn is_too_much(transfer: &Transfer, receive: &Receive) -> bool
    requires { HasGoodParts transfer.now }
    ensures { result ≡ is_too_much transfer.now receive.now.part }
{
    match &receive.part {
        None => false,
        Some(asked) => asked.unit.0 != transfer.unit.0 || left_of(transfer) < asked.qty,
    }
}

/// Whether no part is asked for, and nothing is left.
fn has_nothing_left(transfer: &Transfer, receive: &Receive) -> bool
    requires { HasGoodParts transfer.now }
    ensures { result ≡ has_nothing_left transfer.now receive.now.part }
{
    match &receive.part {
        None => left_of(transfer) <= 0,
        Some(_) => false,
    }
}

/// The receipt of a part under that key.
pub fn find_part<'a>(parts: &'a [Part], key: &str) -> Option<&'a Part>
    ensures { option_copied result ≡ find (has_key key.now) parts.now }
{
    parts.iter().find(|part| part.key.as_str() == key)
}

/// Whether a receipt of a part is what is asked for.
fn is_part_so(transfer: &Transfer, receive: &Receive, part: &Part) -> bool
    ensures { result ≡ is_received_so transfer.now receive.now part.now }
{
    let is_amount = match &receive.part {
        None => true,
        Some(asked) => transfer.unit.0 == asked.unit.0 && part.qty == asked.qty,
    };
    part.day.0 == receive.day.0 && part.payee.as_str() == receive.account.as_str() && is_amount
}

/// Whether the receipt of the rest is of the day and into the account that are asked for.
fn is_rest_so(receive: &Receive, receipt: &Receipt) -> bool
    ensures { result ≡ (int_eq receipt.now.day.0 receive.now.day.0 && bytes_eq receipt.now.payee receive.now.account) }
{
    receipt.day.0 == receive.day.0 && receipt.payee.as_str() == receive.account.as_str()
}

/// Whether the receipt of the rest, if there is one, is what is asked for without a part.
fn rest_so(transfer: &Transfer, receive: &Receive) -> Option<bool>
    requires parts { HasGoodParts transfer.now }
    requires whole { receive.now.part ≡ None }
    ensures { result ≡ option_map (is_received_so transfer.now receive.now)
        (find (has_key (key_of receive.now.part)) (receipts_of transfer.now)) }
{
    match &transfer.receipt {
        None => None,
        Some(receipt) => Some(is_rest_so(receive, receipt)),
    }
}

/// Whether the receipt under the key, if there is one, is what is asked for.
fn held_so(transfer: &Transfer, receive: &Receive) -> Option<bool>
    requires parts { HasGoodParts transfer.now }
    requires key { has_bad_key receive.now.part ≡ false }
    ensures { result ≡ option_map (is_received_so transfer.now receive.now)
        (find (has_key (key_of receive.now.part)) (receipts_of transfer.now)) }
{
    let Some(asked) = &receive.part else {
        return rest_so(transfer, receive);
    };
    match find_part(transfer.parts.items(), asked.key.as_str()) {
        None => None,
        Some(part) => Some(is_part_so(transfer, receive, part)),
    }
}

/// The receipt that is asked for.
fn receipt_of(alloc: Global, transfer: &Transfer, receive: &Receive) -> Result<Part, Cause>
    requires { HasGoodParts transfer.now }
    ensures value { IfOk result (λ p. p ≡ receipt_of transfer.now receive.now) }
    ensures memory { IsOkUnless result Cause.OutOfMemory }
{
    let key = Text::of(alloc, key_of(receive))?;
    let payee = receive.account.copy()?;
    Ok(Part {
        key,
        qty: qty_of(transfer, receive),
        day: receive.day,
        payee,
    })
}

/// That the receipt of the transfer came.
fn received(receive: &Receive, part: Part) -> Result<Addition, Cause>
    ensures value { IfOk result (λ x. x ≡ Addition.Received receive.now.id part) }
    ensures memory { IsOkUnless result Cause.OutOfMemory }
{
    let id = receive.id.copy()?;
    Ok(Addition::Received(id, part))
}

/// What a receipt of the transfer adds, where its target's book stays good with it.
fn taken<L: Ledger>(
    alloc: Global,
    target: &Branch<L>,
    transfer: &Transfer,
    receive: &Receive,
) -> Result<Delta, Refusal>
    requires good { IsGoodBook (L.book target.now.ledger) }
    requires parts { HasGoodParts transfer.now }
    requires small { unsigned_abs (qty_of transfer.now receive.now.part) ≤ limit }
    ensures value { IfOk result (λ delta.
        delta ≡ Addition.Record receive.now.branch (receipt_record transfer.now (receipt_of transfer.now receive.now))
        ∷ Addition.Received receive.now.id (receipt_of transfer.now receive.now) ∷ []) }
    ensures passes { OnOk result (verdict
        (L.book target.now.ledger ++ entries (receipt_record transfer.now (receipt_of transfer.now receive.now) ∷ []))
        ≡ None) }
    ensures err { IfErr result (λ e.
        (e ≡ Refusal.Plain Cause.OutOfMemory)
        ⊎ (verdict (L.book target.now.ledger
        ++ entries (receipt_record transfer.now (receipt_of transfer.now receive.now) ∷ [])) ≡ Some e)) }
{
    let part = match receipt_of(alloc, transfer, receive) {
        Ok(part) => part,
        Err(cause) => return Err(Refusal::Plain(cause)),
    };
    let row = match receipt_record(alloc, transfer, &part) {
        Ok(row) => row,
        Err(cause) => return Err(Refusal::Plain(cause)),
    };
    let other = match received(receive, part) {
        Ok(other) => other,
        Err(cause) => return Err(Refusal::Plain(cause)),
    };
    recorded(alloc, &target.ledger, &receive.branch, row, other)
}

/// What the receipt adds whose key has none yet; or the first refusal.
fn judged<L: Ledger>(
    alloc: Global,
    target: &Branch<L>,
    transfer: &Transfer,
    receive: &Receive,
) -> Result<Delta, Refusal>
    requires kept { IsKept L.book target.now }
    requires good { IsGoodBook (entries target.now.records) }
    requires parts { HasGoodParts transfer.now }
    requires small { unsigned_abs (qty_of transfer.now receive.now.part) ≤ limit }
    ensures value { IfOk result (λ delta.
        delta ≡ Addition.Record receive.now.branch (receipt_record transfer.now (receipt_of transfer.now receive.now))
        ∷ Addition.Received receive.now.id (receipt_of transfer.now receive.now) ∷ []) }
    ensures passes { OnOk result (receipt_refusal target.now.locked target.now.records transfer.now receive.now
        ≡ None) }
    ensures err { IfErr result (λ e.
        (e ≡ Refusal.Plain Cause.OutOfMemory)
        ⊎ (receipt_refusal target.now.locked target.now.records transfer.now receive.now ≡ Some e)) }
{
    if !is_account_text(&receive.account) {
        return Err(Refusal::Plain(Cause::BadAccount));
    }
    if is_reserved_account(receive.account.as_str()) {
        return Err(Refusal::Plain(Cause::ReservedAccount));
    }
    if qty_of(transfer, receive) <= 0 {
        return Err(Refusal::Plain(Cause::BadAmount));
    }
    if is_too_much(transfer, receive) {
        return Err(Refusal::Plain(Cause::TooMuch));
    }
    if receive.day.0 < transfer.day.0 {
        return Err(Refusal::Plain(Cause::TooEarly));
    }
    if is_locked(target.locked, receive.day) {
        return Err(Refusal::Plain(Cause::Locked));
    }
    taken(alloc, target, transfer, receive)
}

/// Decides a receipt.
pub(crate) fn decide_receive<L: Ledger>(
    alloc: Global,
    state: &State<L>,
    receive: &Receive,
) -> Decision
    requires { IsReceive state.now.styles receive.now }
    ensures { Decides state.now (Command.Receive receive.now) result }
{
    state.is_good();
    let Some(target) = find_branch(state, receive.branch.as_str()) else {
        return Err(Refusal::Plain(Cause::UnknownBranch));
    };
    if !is_id(receive.id.as_str().as_bytes()) {
        return Err(Refusal::Plain(Cause::BadId));
    }
    if has_bad_key(receive) {
        return Err(Refusal::Plain(Cause::BadId));
    }
    let Some(transfer) = find_transfer(state.transfers(), receive.id.as_str()) else {
        return Err(Refusal::Plain(Cause::UnknownTransfer));
    };
    if transfer.target.as_str() != receive.branch.as_str() {
        return Err(Refusal::Plain(Cause::WrongBranch));
    }
    if let Some(is_so) = held_so(transfer, receive) {
        if is_so {
            return repeated(alloc);
        }
        return Err(Refusal::Plain(Cause::AlreadyReceived));
    }
    if has_nothing_left(transfer, receive) {
        return Err(Refusal::Plain(Cause::AlreadyReceived));
    }
    settled(judged(alloc, target, transfer, receive))
}
