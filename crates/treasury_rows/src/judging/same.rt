//! Records compared, exactly.

ghost use Rattle.std.specs.Prelude.{◌≡◌, ◌↔◌, IsTrue};

use journal_format::{Posting, Txn};
use journal_lines::Status;
use money_core::{Price, Same, Unit};
use treasury_state::Record;

/// Whether two values that may be there are equal.
fn is_same_option<T: Same>(value: &Option<T>, other: &Option<T>) -> bool
    ensures { IsTrue result ↔ (value.now ≡ other.now) }
{
    match (value, other) {
        (None, None) => true,
        (Some(value), Some(other)) => value.is_same(other),
        _ => false,
    }
}

/// Whether two statuses are.
fn is_same_status(status: Option<Status>, other: Option<Status>) -> bool
    ensures { IsTrue result ↔ (status ≡ other) }
{
    status == other
}

/// Whether two amounts are.
fn is_same_amount(amount: Option<(Unit, i64)>, other: Option<(Unit, i64)>) -> bool
    ensures { IsTrue result ↔ (amount ≡ other) }
{
    amount == other
}

/// Whether two prices are.
fn is_same_price(price: Option<Price>, other: Option<Price>) -> bool
    ensures { IsTrue result ↔ (price ≡ other) }
{
    price == other
}

/// Whether two postings are.
fn is_same_posting(posting: &Posting, other: &Posting) -> bool
    ensures { IsTrue result ↔ (posting.now ≡ other.now) }
{
    is_same_status(posting.status, other.status)
        && posting.account.is_same(&other.account)
        && is_same_amount(posting.amount, other.amount)
        && is_same_price(posting.price, other.price)
        && is_same_option(&posting.claim, &other.claim)
        && posting.comments.is_same(&other.comments)
}

/// Whether two lists of postings are.
fn are_same_postings(postings: &[Posting], others: &[Posting]) -> bool
    ensures { IsTrue result ↔ (postings.now ≡ others.now) }
{
    if postings.len() != others.len() {
        return false;
    }
    for (i, posting) in postings.iter().enumerate() {
        if !is_same_posting(posting, &others[i]) {
            return false;
        }
    }
    true
}

/// Whether two transactions are.
fn is_same_txn(txn: &Txn, other: &Txn) -> bool
    ensures { IsTrue result ↔ (txn.now ≡ other.now) }
{
    txn.day == other.day
        && is_same_status(txn.status, other.status)
        && is_same_option(&txn.code, &other.code)
        && txn.description.is_same(&other.description)
        && txn.comments.is_same(&other.comments)
        && is_same_option(&txn.mark, &other.mark)
        && are_same_postings(txn.postings.items(), other.postings.items())
}

/// Whether two records are.
pub(super) fn is_same_record(row: &Record, other: &Record) -> bool
    ensures { IsTrue result ↔ (row.now ≡ other.now) }
{
    row.mark.is_same(&other.mark)
        && is_same_txn(&row.txn, &other.txn)
        && row.entry.is_same(&other.entry)
}
