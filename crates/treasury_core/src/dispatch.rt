//! Money dispatched from one branch to another.

ghost use Rattle.std.specs.Prelude.{Some, None, ◌≡◌, ◌≤◌, ◌⊎◌, [], ◌∷◌, ◌++◌, IfOk, IfErr, OnOk, unsigned_abs};
ghost use Rattle.std.specs.Result.{IsOkUnless};
ghost use Rattle.money_core.specs.Amount.{limit};
ghost use Rattle.book_core.specs.GoodBook.{IsGoodBook, verdict};
ghost use Rattle.treasury_state.specs.Federation.{entries};
ghost use Rattle.treasury_state.specs.Transfer.{dispatch_record};
ghost use Rattle.treasury_state.specs.Index.{IsKept};
ghost use Rattle.treasury_core.specs.Step.{transfer_of, is_dispatched_so, dispatch_refusal, Decides};
ghost use Rattle.treasury_core.specs.Fits.{IsDispatch};

use crate::command::{Command, Dispatch};
use crate::decision::{Decision, has_branch, recorded, repeated, settled};
use book_core::{Ledger, Refusal};
use money_core::{Cause, Copied, Items};
use std::alloc::Global;
use treasury_state::{
    Addition, Branch, Delta, State, Transfer, dispatch_record, find_branch, find_transfer,
    is_account_text, is_id, is_locked, is_reserved_account,
};

/// Whether the transfer was dispatched just so.
fn is_dispatched_so(dispatch: &Dispatch, transfer: &Transfer) -> bool
    ensures { result ≡ is_dispatched_so dispatch.now (Some transfer.now) }
{
    transfer.source.as_str() == dispatch.source.as_str()
        && transfer.target.as_str() == dispatch.target.as_str()
        && transfer.day.0 == dispatch.day.0
        && transfer.unit.0 == dispatch.unit.0
        && transfer.qty == dispatch.qty
        && transfer.payer.as_str() == dispatch.account.as_str()
}

/// The transfer that is asked for.
fn transfer_of(alloc: Global, dispatch: &Dispatch) -> Result<Transfer, Cause>
    ensures value { IfOk result (λ t. t ≡ transfer_of dispatch.now) }
    ensures memory { IsOkUnless result Cause.OutOfMemory }
{
    let id = dispatch.id.copy()?;
    let source = dispatch.source.copy()?;
    let target = dispatch.target.copy()?;
    let payer = dispatch.account.copy()?;
    Ok(Transfer {
        id,
        source,
        target,
        unit: dispatch.unit,
        qty: dispatch.qty,
        day: dispatch.day,
        payer,
        parts: Items::empty(alloc),
        receipt: None,
    })
}

/// What a dispatch adds, where its source's book stays good with it.
fn sent<L: Ledger>(alloc: Global, source: &Branch<L>, dispatch: &Dispatch) -> Result<Delta, Refusal>
    requires good { IsGoodBook (L.book source.now.ledger) }
    requires small { unsigned_abs dispatch.now.qty ≤ limit }
    ensures value { IfOk result (λ delta.
        delta ≡ Addition.Record dispatch.now.source (dispatch_record (transfer_of dispatch.now))
        ∷ Addition.Dispatched (transfer_of dispatch.now) ∷ []) }
    ensures passes { OnOk result (verdict
        (L.book source.now.ledger ++ entries (dispatch_record (transfer_of dispatch.now) ∷ [])) ≡ None) }
    ensures err { IfErr result (λ e.
        (e ≡ Refusal.Plain Cause.OutOfMemory)
        ⊎ (verdict (L.book source.now.ledger ++ entries (dispatch_record (transfer_of dispatch.now) ∷ [])) ≡ Some e)) }
{
    let transfer = match transfer_of(alloc, dispatch) {
        Ok(transfer) => transfer,
        Err(cause) => return Err(Refusal::Plain(cause)),
    };
    let row = match dispatch_record(alloc, &transfer) {
        Ok(row) => row,
        Err(cause) => return Err(Refusal::Plain(cause)),
    };
    let ledger = &source.ledger;
    let other = Addition::Dispatched(transfer);
    recorded(alloc, ledger, &dispatch.source, row, other)
}

/// What a dispatch adds under an ID that no transfer has; or the first refusal.
fn judged<L: Ledger>(
    alloc: Global,
    source: &Branch<L>,
    dispatch: &Dispatch,
) -> Result<Delta, Refusal>
    requires kept { IsKept L.book source.now }
    requires good { IsGoodBook (entries source.now.records) }
    requires small { unsigned_abs dispatch.now.qty ≤ limit }
    ensures value { IfOk result (λ delta.
        delta ≡ Addition.Record dispatch.now.source (dispatch_record (transfer_of dispatch.now))
        ∷ Addition.Dispatched (transfer_of dispatch.now) ∷ []) }
    ensures passes { OnOk result (dispatch_refusal source.now.locked source.now.records dispatch.now ≡ None) }
    ensures err { IfErr result (λ e.
        (e ≡ Refusal.Plain Cause.OutOfMemory)
        ⊎ (dispatch_refusal source.now.locked source.now.records dispatch.now ≡ Some e)) }
{
    if !is_account_text(&dispatch.account) {
        return Err(Refusal::Plain(Cause::BadAccount));
    }
    if is_reserved_account(dispatch.account.as_str()) {
        return Err(Refusal::Plain(Cause::ReservedAccount));
    }
    if dispatch.qty <= 0 {
        return Err(Refusal::Plain(Cause::BadAmount));
    }
    if is_locked(source.locked, dispatch.day) {
        return Err(Refusal::Plain(Cause::Locked));
    }
    sent(alloc, source, dispatch)
}

/// Decides a dispatch.
pub(crate) fn decide_dispatch<L: Ledger>(
    alloc: Global,
    state: &State<L>,
    dispatch: &Dispatch,
) -> Decision
    requires { IsDispatch state.now.styles dispatch.now }
    ensures { Decides state.now (Command.Dispatch dispatch.now) result }
{
    state.is_good();
    let Some(source) = find_branch(state, dispatch.source.as_str()) else {
        return Err(Refusal::Plain(Cause::UnknownBranch));
    };
    if !has_branch(state, dispatch.target.as_str()) {
        return Err(Refusal::Plain(Cause::UnknownBranch));
    }
    if dispatch.source.as_str() == dispatch.target.as_str() {
        return Err(Refusal::Plain(Cause::SameBranch));
    }
    if !is_id(dispatch.id.as_str().as_bytes()) {
        return Err(Refusal::Plain(Cause::BadId));
    }
    if let Some(transfer) = find_transfer(state.transfers(), dispatch.id.as_str()) {
        if is_dispatched_so(dispatch, transfer) {
            return repeated(alloc);
        }
        return Err(Refusal::Plain(Cause::MarkClash));
    }
    settled(judged(alloc, source, dispatch))
}
