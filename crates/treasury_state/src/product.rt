//! The transactions that the treasury makes itself.

ghost use Rattle.std.specs.Prelude.{◌≡◌, ◌≤◌, unsigned_abs, [], ◌∷◌, ◌++◌, codes, IfOk};
ghost use Rattle.std.specs.Result.{IsOkUnless};
ghost use Rattle.money_core.specs.Amount.{limit};
ghost use Rattle.journal_balance.specs.Legs.{leg};
ghost use Rattle.journal_lines.specs.Date.{IsDayNumber};
ghost use Rattle.treasury_state.specs.Transfer.{transit_account, posting, product_record, in_mark, in_text};
ghost use Rattle.treasury_state.specs.Transfer.{dispatch_record, receipt_record};
ghost use Rattle.treasury_state.specs.Mark.{close_mark};

use crate::record::Record;
use crate::transfer::{Part, Transfer, is_all};
use book_core::{Entry, Leg};
use journal_format::{Posting, Txn};
use journal_lines::print_date;
use money_core::{Cause, Copied, Day, Items, Text, Unit, text_of};
use std::alloc::Global;

/// The account of what is on its way from one branch to another.
fn transit_account(alloc: Global, from: &Text, to: &Text) -> Result<Text, Cause>
    ensures value { IfOk result (λ account. account ≡ transit_account from.now to.now) }
    ensures memory { IsOkUnless result Cause.OutOfMemory }
{
    let from = from.as_str();
    let to = to.as_str();
    let account = format!(in alloc; "assets:transit:{from}:{to}")?;
    Ok(Text::from_string(account))
}

/// The mark of a dispatch: `out:ID`.
fn out_mark(alloc: Global, id: &Text) -> Result<Text, Cause>
    ensures value { IfOk result (λ mark. mark ≡ codes "out:" ++ id.now) }
    ensures memory { IsOkUnless result Cause.OutOfMemory }
{
    let id = id.as_str();
    let mark = format!(in alloc; "out:{id}")?;
    Ok(Text::from_string(mark))
}

/// The mark of a receipt: `in:ID`, of a part `in:ID:KEY`.
fn in_mark(alloc: Global, id: &Text, key: &Text) -> Result<Text, Cause>
    ensures value { IfOk result (λ mark. mark ≡ in_mark id.now key.now) }
    ensures memory { IsOkUnless result Cause.OutOfMemory }
{
    let id = id.as_str();
    let key = key.as_str();
    if is_all(key) {
        let mark = format!(in alloc; "in:{id}")?;
        return Ok(Text::from_string(mark));
    }
    let mark = format!(in alloc; "in:{id}:{key}")?;
    Ok(Text::from_string(mark))
}

/// The description of a dispatch: `transfer ID to BRANCH`.
fn out_text(alloc: Global, transfer: &Transfer) -> Result<Text, Cause>
    ensures value { IfOk result (λ text.
        text ≡ codes "transfer " ++ (transfer.now.id ++ (codes " to " ++ transfer.now.target))) }
    ensures memory { IsOkUnless result Cause.OutOfMemory }
{
    let id = transfer.id.as_str();
    let branch = transfer.target.as_str();
    let text = format!(in alloc; "transfer {id} to {branch}")?;
    Ok(Text::from_string(text))
}

/// The description of a receipt: `transfer ID from BRANCH`, of a part with ` part KEY` after it.
fn in_text(alloc: Global, transfer: &Transfer, key: &Text) -> Result<Text, Cause>
    ensures value { IfOk result (λ text. text ≡ in_text transfer.now key.now) }
    ensures memory { IsOkUnless result Cause.OutOfMemory }
{
    let id = transfer.id.as_str();
    let branch = transfer.source.as_str();
    let key = key.as_str();
    if is_all(key) {
        let text = format!(in alloc; "transfer {id} from {branch}")?;
        return Ok(Text::from_string(text));
    }
    let text = format!(in alloc; "transfer {id} from {branch} part {key}")?;
    Ok(Text::from_string(text))
}

/// A leg of that quantity.
fn leg(account: Text, unit: Unit, qty: i64) -> Leg
    ensures { result ≡ leg account unit qty }
{
    Leg { account, unit, qty }
}

/// A posting of a leg's amount alone.
fn posting_of(alloc: Global, leg: &Leg) -> Result<Posting, Cause>
    ensures value { IfOk result (λ p. p ≡ posting leg.now) }
    ensures memory { IsOkUnless result Cause.OutOfMemory }
{
    let account = leg.account.copy()?;
    Ok(Posting {
        status: None,
        account,
        amount: Some((leg.unit, leg.qty)),
        price: None,
        claim: None,
        comments: Items::empty(alloc),
    })
}

/// The two postings of two legs.
fn postings_of(alloc: Global, first: &Leg, second: &Leg) -> Result<Items<Posting>, Cause>
    ensures value { IfOk result (λ list. list ≡ posting first.now ∷ posting second.now ∷ []) }
    ensures memory { IsOkUnless result Cause.OutOfMemory }
{
    let first = posting_of(alloc, first)?;
    let second = posting_of(alloc, second)?;
    let mut list = Items::empty(alloc);
    list.push(first)?;
    list.push(second)?;
    Ok(list)
}

/// An entry of two legs.
fn entry_of(alloc: Global, day: Day, first: Leg, second: Leg) -> Result<Entry, Cause>
    ensures value { IfOk result (λ entry. entry ≡ record { day = day; legs = first ∷ second ∷ []; claims = [] }) }
    ensures memory { IsOkUnless result Cause.OutOfMemory }
{
    let mut legs = Items::empty(alloc);
    legs.push(first)?;
    legs.push(second)?;
    Ok(Entry {
        day,
        legs,
        claims: Items::empty(alloc),
    })
}

/// The record of a transaction with these two legs.
fn product_record(
    alloc: Global,
    mark: Text,
    day: Day,
    description: Text,
    first: Leg,
    second: Leg,
) -> Result<Record, Cause>
    ensures value { IfOk result (λ row. row ≡ product_record mark day description first second) }
    ensures memory { IsOkUnless result Cause.OutOfMemory }
{
    let own = mark.copy()?;
    let postings = postings_of(alloc, &first, &second)?;
    let entry = entry_of(alloc, day, first, second)?;
    let txn = Txn {
        day,
        status: None,
        code: None,
        description,
        comments: Items::empty(alloc),
        mark: Some(own),
        postings,
    };
    Ok(Record { mark, txn, entry })
}

/// The record of a dispatch in its source's book.
pub fn dispatch_record(alloc: Global, transfer: &Transfer) -> Result<Record, Cause>
    requires { unsigned_abs transfer.now.qty ≤ limit }
    ensures value { IfOk result (λ row. row ≡ dispatch_record transfer.now) }
    ensures memory { IsOkUnless result Cause.OutOfMemory }
{
    let mark = out_mark(alloc, &transfer.id)?;
    let description = out_text(alloc, transfer)?;
    let transit = transit_account(alloc, &transfer.source, &transfer.target)?;
    let payer = transfer.payer.copy()?;
    let gets = leg(transit, transfer.unit, transfer.qty);
    let pays = leg(payer, transfer.unit, -transfer.qty);
    product_record(alloc, mark, transfer.day, description, gets, pays)
}

/// The record of a receipt in its target's book.
pub fn receipt_record(alloc: Global, transfer: &Transfer, part: &Part) -> Result<Record, Cause>
    requires { unsigned_abs part.now.qty ≤ limit }
    ensures value { IfOk result (λ row. row ≡ receipt_record transfer.now part.now) }
    ensures memory { IsOkUnless result Cause.OutOfMemory }
{
    let mark = in_mark(alloc, &transfer.id, &part.key)?;
    let description = in_text(alloc, transfer, &part.key)?;
    let payee = part.payee.copy()?;
    let transit = transit_account(alloc, &transfer.source, &transfer.target)?;
    let gets = leg(payee, transfer.unit, part.qty);
    let pays = leg(transit, transfer.unit, -part.qty);
    product_record(alloc, mark, part.day, description, gets, pays)
}

/// The mark of a closing: `close:DAY`.
pub fn close_mark(alloc: Global, day: Day) -> Result<Text, Cause>
    requires { IsDayNumber day }
    ensures value { IfOk result (λ mark. mark ≡ close_mark day) }
    ensures memory { IsOkUnless result Cause.OutOfMemory }
{
    let mut bytes = Vec::new(alloc);
    print_date(alloc, day, &mut bytes)?;
    let date = text_of(&bytes);
    let mark = format!(in alloc; "close:{date}")?;
    Ok(Text::from_string(mark))
}
