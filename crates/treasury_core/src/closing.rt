//! The closing of a branch: the balances of the accounts that are chosen go to one account.

ghost use Rattle.std.specs.Prelude.{◌≡◌, ◌≤◌, ◌⊎◌, ◌-ℤ◌, ◌++◌, pos, Some, None, Err, IfOk, OnOk};
ghost use Rattle.std.specs.List.{flat_map};
ghost use Rattle.std.specs.Result.{IsOkUnless};
ghost use Rattle.money_core.specs.declared.unit.Unit.{Unit as Commodity};
ghost use Rattle.book_core.specs.Balance.{moved, value};
ghost use Rattle.book_core.specs.GoodBook.{IsGoodBook, most_turnover};
ghost use Rattle.journal_lines.specs.Date.{IsDayNumber};
ghost use Rattle.journal_format.specs.Printable.{IsPrintable};
ghost use Rattle.journal_balance.specs.Legs.{declared_commodities};
ghost use Rattle.journal_balance.specs.Plain.{written_leg, written_legs};
ghost use Rattle.treasury_core.specs.Choice.{is_selected, target_in, choice_comments};
ghost use Rattle.treasury_core.specs.Closing.{selected, through, zero_claim, nonzero_posting, closed_account};
ghost use Rattle.treasury_core.specs.Closing.{closing_postings, closing_txn, closing_of, closing_answer, closing_reply};

use crate::choice::{Choice, choice_comments, choice_refusal, is_selected, target_of};
use book_core::{Claim, ClaimKind, Ledger, Refusal};
use journal_format::{Posting, Txn};
use money_core::{Cause, Day, Items, Styles, Text, Unit};
use std::alloc::Global;
use treasury_state::{State, close_mark};

/// The greatest number of postings of a closing.
const MAX_POSTINGS: usize = 1_000;

/// Appends a posting of the quantity, where it is not zero.
fn push_posting(
    alloc: Global,
    account: &str,
    unit: Unit,
    qty: i64,
    claim: Option<Claim>,
    postings: &mut Items<Posting>,
) -> Result<(), Cause>
    ensures ok { OnOk result (postings.new ≡ postings.old ++ nonzero_posting account.now unit qty claim) }
    ensures memory { IsOkUnless result Cause.OutOfMemory }
{
    if qty == 0 {
        return Ok(());
    }
    let account = Text::of(alloc, account)?;
    postings.push(Posting {
        status: None,
        account,
        amount: Some((unit, qty)),
        price: None,
        claim,
        comments: Items::empty(alloc),
    })
}

/// The assertion that a balance is zero.
fn zero_claim(unit: Unit) -> Claim
    ensures { result ≡ zero_claim unit }
{
    Claim {
        kind: ClaimKind::Exact,
        unit,
        qty: 0,
    }
}

/// Appends the posting that takes an account's balance through the day to zero, where it is not zero.
fn push_closed<L: Ledger>(
    alloc: Global,
    ledger: &L,
    day: Day,
    account: &str,
    unit: Unit,
    postings: &mut Items<Posting>,
) -> Result<(), Cause>
    requires { IsGoodBook (L.book ledger.now) }
    ensures ok { OnOk result (postings.new
        ≡ postings.old ++ nonzero_posting account.now unit (pos 0 -ℤ through (L.book ledger.now) day account.now unit)
        (Some (zero_claim unit))) }
    ensures memory { IsOkUnless result Cause.OutOfMemory }
{
    let qty = ledger.balance(account, unit, day);
    push_posting(alloc, account, unit, -qty, Some(zero_claim(unit)), postings)
}

/// Appends the postings that take an account's balances through the day to zero, in declared order.
fn close_account<L: Ledger>(
    alloc: Global,
    ledger: &L,
    styles: &Styles,
    day: Day,
    account: &str,
    postings: &mut Items<Posting>,
) -> Result<(), Cause>
    requires { IsGoodBook (L.book ledger.now) }
    ensures ok { OnOk result (postings.new
        ≡ postings.old ++ closed_account (L.book ledger.now) day (declared_commodities styles.now) account.now) }
    ensures memory { IsOkUnless result Cause.OutOfMemory }
{
    'units: for number in 0..styles.len() {
        let unit = Unit(number as u16);
        match push_closed(alloc, ledger, day, account, unit, postings) {
            Ok(()) => {}
            Err(cause) => return Err(cause),
        }
    }
    Ok(())
}

/// The postings that take the balances of the accounts that are selected through the day to zero.
///
/// Costs one balance for each of these accounts and each commodity, and a look at the list for each account.
fn close_accounts<L: Ledger>(
    alloc: Global,
    ledger: &L,
    styles: &Styles,
    day: Day,
    choice: &Choice,
) -> Result<Items<Posting>, Cause>
    requires { IsGoodBook (L.book ledger.now) }
    ensures value { IfOk result (λ list. list
        ≡ flat_map (closed_account (L.book ledger.now) day (declared_commodities styles.now))
        (selected (is_selected choice.now.accounts) (L.book ledger.now))) }
    ensures memory { IsOkUnless result Cause.OutOfMemory }
{
    let mut postings = Items::empty(alloc);
    'accounts: for account in ledger.accounts() {
        if !is_selected(choice, account.as_str()) {
            continue;
        }
        close_account(alloc, ledger, styles, day, account.as_str(), &mut postings)?;
    }
    Ok(postings)
}

/// The amount of a posting in a commodity, in smallest units.
fn amount_in(posting: &Posting, unit: Unit) -> i64
    ensures { result ≡ value unit (written_leg posting.now.account posting.now.amount) }
{
    match posting.amount {
        Some((own, qty)) => { if own.0 == unit.0 { qty } else { 0 } }
        None => 0,
    }
}

/// The sum of the amounts of postings in a commodity, in smallest units.
fn sum_in(postings: &[Posting], unit: Unit) -> i64
    requires { moved unit (written_legs postings.now) ≤ most_turnover }
    ensures { result ≡ value unit (written_legs postings.now) }
{
    let mut sum: i64 = 0;
    for posting in postings {
        let amount = amount_in(posting, unit);
        sum += amount;
    }
    sum
}

/// The postings that give an account what the closed accounts lost, in declared order.
fn gaining_account(
    alloc: Global,
    styles: &Styles,
    into: &str,
    closed: &[Posting],
) -> Result<Items<Posting>, Cause>
    requires { (unit : Commodity) → moved unit (written_legs closed.now) ≤ most_turnover }
    ensures value { IfOk result (λ list. list
        ≡ flat_map
        (λ (unit : Commodity). nonzero_posting into.now unit (pos 0 -ℤ value unit (written_legs closed.now)) None)
        (declared_commodities styles.now)) }
    ensures memory { IsOkUnless result Cause.OutOfMemory }
{
    let mut postings = Items::empty(alloc);
    'units: for number in 0..styles.len() {
        let unit = Unit(number as u16);
        let lost = sum_in(closed, unit);
        push_posting(alloc, into, unit, -lost, None, &mut postings)?;
    }
    Ok(postings)
}

/// The postings of the closing of a book at a day.
fn closing_postings<L: Ledger>(
    alloc: Global,
    ledger: &L,
    styles: &Styles,
    day: Day,
    choice: &Choice,
) -> Result<Items<Posting>, Cause>
    requires { IsGoodBook (L.book ledger.now) }
    ensures value { IfOk result (λ list. list
        ≡ closing_postings (L.book ledger.now) day (target_in choice.now.into)
        (selected (is_selected choice.now.accounts) (L.book ledger.now)) (declared_commodities styles.now)) }
    ensures memory { IsOkUnless result Cause.OutOfMemory }
{
    let closed = close_accounts(alloc, ledger, styles, day, choice)?;
    let gaining = gaining_account(alloc, styles, target_of(choice), closed.items())?;
    let mut postings = closed.into_vec();
    let mut rest = gaining.into_vec();
    postings.append(&mut rest)?;
    Ok(Items::from_vec(postings))
}

/// The transaction of a closing with these postings, and the comments of its choice.
fn closing_txn(
    alloc: Global,
    day: Day,
    choice: &Choice,
    postings: Items<Posting>,
) -> Result<Txn, Cause>
    requires { IsDayNumber day }
    ensures value { IfOk result (λ txn. txn ≡ closing_txn day (choice_comments choice.now) postings) }
    ensures memory { IsOkUnless result Cause.OutOfMemory }
{
    let mark = close_mark(alloc, day)?;
    let description = Text::of(alloc, "close")?;
    let comments = choice_comments(alloc, choice)?;
    Ok(Txn {
        day,
        status: None,
        code: None,
        description,
        comments,
        mark: Some(mark),
        postings,
    })
}

/// The transaction of a closing with these postings, where there are some, and at most a thousand.
fn limited_txn(
    alloc: Global,
    day: Day,
    choice: &Choice,
    postings: Items<Posting>,
) -> Result<Txn, Refusal>
    requires { IsDayNumber day }
    ensures { (result ≡ closing_answer (closing_of day (choice_comments choice.now) postings))
        ⊎ (result ≡ Err (Refusal.Plain Cause.OutOfMemory)) }
{
    let count = postings.items().len();
    if count == 0 {
        return Err(Refusal::Plain(Cause::NothingToClose));
    }
    if count > MAX_POSTINGS {
        return Err(Refusal::Plain(Cause::Limit));
    }
    match closing_txn(alloc, day, choice, postings) {
        Ok(txn) => Ok(txn),
        Err(cause) => Err(Refusal::Plain(cause)),
    }
}

/// The transaction by which a branch is closed at a day of the years 1 to 9999: the accounts that are selected are
/// taken to zero through that day, each with an assertion that it is, and the target gets what they held. Its comments
/// tell the choice.
///
/// Answers 20 where the branch is not there; of the choice 37 where a listed account or the target is not well formed,
/// 26 where one of them has transit accounts, 37 where the target would be closed itself, 28 where the list has over
/// 880 bytes; 36 where there is nothing to close, 28 where it would have over 1,000 postings, or 40. Costs one balance
/// for each selected account and each commodity, and a look at the list for each account.
pub fn closing_entry<L: Ledger>(
    alloc: Global,
    state: &State<L>,
    branch: &str,
    day: Day,
    choice: &Choice,
) -> Result<Txn, Refusal>
    requires { IsDayNumber day }
    ensures exact { (result ≡ closing_reply state.now branch.now day choice.now)
        ⊎ (result ≡ Err (Refusal.Plain Cause.OutOfMemory)) }
    // It prints and reads back under the state's styles.
    ensures printable { IfOk result (λ txn. IsPrintable state.now.styles txn) }
{
    state.is_good();
    let Some(ledger) = state.ledger(branch) else {
        return Err(Refusal::Plain(Cause::UnknownBranch));
    };
    if let Some(refusal) = choice_refusal(choice) {
        return Err(refusal);
    }
    match closing_postings(alloc, ledger, state.styles(), day, choice) {
        Ok(postings) => limited_txn(alloc, day, choice, postings),
        Err(cause) => Err(Refusal::Plain(cause)),
    }
}
