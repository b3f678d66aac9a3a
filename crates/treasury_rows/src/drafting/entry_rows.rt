//! Records, read from the rows of entries.

ghost use Rattle.std.specs.Prelude.{◌≡◌, ◌↔◌, ◌∷◌, [], Ok, Some, None, pos, List, IfOk, IsTrue};
ghost use Rattle.std.specs.List.{AllByRecursion};
ghost use Rattle.std.specs.Result.{IsOkUnless};
ghost use Rattle.book_core.specs.declared.entry.Entry.{Entry as BookEntry};
ghost use Rattle.journal_format.specs.declared.txn.Txn.{Txn as Transaction};
ghost use Rattle.journal_format.specs.CanonicalText.{body_text, marked};
ghost use Rattle.journal_format.specs.Pieces.{located, Reads};
ghost use Rattle.journal_format.specs.Printable.{IsPrintable};
ghost use Rattle.journal_balance.specs.Legs.{balanced_entry};
ghost use Rattle.treasury_state.specs.declared.record.Record.{Record as BranchRecord};
ghost use Rattle.treasury_state.specs.Good.{IsGoodRecord};
ghost use Rattle.treasury_state.specs.Rows.{entry_row, entry_rows_from};
ghost use Rattle.treasury_rows.specs.Drafted.{IsReading};

use super::number::{are_equal, damage, is_day, is_number};
use book_core::Entry;
use journal_balance::legs;
use journal_format::{Txn, is_mark, read_journal};
use money_core::{Cause, Copied, Items, Styles, Text};
use std::alloc::Global;
use treasury_state::{EntryRow, Record, text_of};

/// The one transaction of a text.
fn read_txn(alloc: Global, styles: &Styles, text: &str) -> Result<Txn, Cause>
    ensures reads { IsReading (λ (t : Transaction). Reads styles.now text.now (located 1 t ∷ [])) result }
    ensures printable { IfOk result (IsPrintable styles.now) }
{
    let mut list = match read_journal(alloc, text.as_bytes(), styles) {
        Ok(list) => list,
        Err(fault) => return Err(damage(fault.cause)),
    };
    if list.len() > 1 {
        return Err(Cause::Damaged);
    }
    match list.pop() {
        Some(located) => Ok(located.txn),
        None => Err(Cause::Damaged),
    }
}

/// The transaction of which the text is the canonical body.
fn read_body(alloc: Global, styles: &Styles, text: &str) -> Result<Txn, Cause>
    ensures reads { IsReading (λ (t : Transaction).
        IsPrintable styles.now t × ((t.mark ≡ None) × (body_text styles.now t ≡ text.now))) result }
    ensures body { IfOk result (λ t. (t.mark ≡ None) × (body_text styles.now t ≡ text.now)) }
    ensures printable { IfOk result (IsPrintable styles.now) }
{
    styles.are_styles();
    let txn = read_txn(alloc, styles, text)?;
    if txn.mark.is_some() {
        return Err(Cause::Damaged);
    }
    let body = text_of(alloc, &txn, styles)?;
    if !are_equal(body.as_slice(), text.as_bytes()) {
        return Err(Cause::Damaged);
    }
    Ok(txn)
}

/// What the transaction does to the book.
fn read_entry(alloc: Global, styles: &Styles, txn: &Txn) -> Result<Entry, Cause>
    requires { IsPrintable styles.now txn.now }
    ensures reads { IsReading (λ (e : BookEntry). balanced_entry styles.now txn.now ≡ Ok e) result }
    ensures legs { IfOk result (λ e. balanced_entry styles.now txn.now ≡ Ok e) }
{
    match legs(alloc, txn, styles) {
        Ok(entry) => Ok(entry),
        Err(cause) => Err(damage(cause)),
    }
}

/// The same items, in no more room than they need.
fn trimmed<T>(items: Items<T>) -> Items<T>
    ensures { result ≡ items }
{
    let mut list = items.into_vec();
    list.shrink_to_fit();
    Items::from_vec(list)
}

/// The transaction with that mark, its postings in no more room than they need.
fn with_mark(txn: Txn, mark: Text) -> Txn
    ensures { result ≡ marked txn (Some mark) }
{
    let Txn {
        day,
        status,
        code,
        description,
        comments,
        mark: _,
        postings,
    } = txn;
    Txn {
        day,
        status,
        code,
        description,
        comments,
        mark: Some(mark),
        postings: trimmed(postings),
    }
}

/// The record of that mark, transaction and entry, the legs in no more room than they need.
fn record_of(mark: Text, txn: Txn, entry: Entry) -> Record
    ensures { result ≡ record { mark = mark; txn = txn; entry = entry } }
{
    let Entry { day, legs, claims } = entry;
    let entry = Entry {
        day,
        legs: trimmed(legs),
        claims,
    };
    Record { mark, txn, entry }
}

/// Whether the row is that of the n-th entry of the branch.
fn is_row_of(row: &EntryRow, branch: usize, nr: usize) -> bool
    ensures { IsTrue result ↔ ((row.now.branch ≡ pos branch) × (row.now.nr ≡ pos nr)) }
{
    is_number(row.branch, branch) && is_number(row.nr, nr)
}

/// The n-th record of the branch.
fn read_record(
    alloc: Global,
    styles: &Styles,
    branch: usize,
    nr: usize,
    row: &EntryRow,
) -> Result<Record, Cause>
    ensures reads { IsReading (λ (r : BranchRecord).
        IsGoodRecord styles.now r × (entry_row styles.now branch nr r ≡ row.now)) result }
    ensures good { IfOk result (IsGoodRecord styles.now) }
    ensures same { IfOk result (λ r. entry_row styles.now branch nr r ≡ row.now) }
{
    if !is_row_of(row, branch, nr) {
        return Err(Cause::Damaged);
    }
    let mark = row.mark.copy()?;
    let own = row.mark.copy()?;
    let txn = read_body(alloc, styles, row.body.as_str())?;
    if !is_mark(own.as_str().as_bytes()) {
        return Err(Cause::Damaged);
    }
    let txn = with_mark(txn, own);
    let entry = read_entry(alloc, styles, &txn)?;
    if !is_day(row.day, entry.day) {
        return Err(Cause::Damaged);
    }
    Ok(record_of(mark, txn, entry))
}

/// The records of the branch, in order of entry.
pub(super) fn read_records(
    alloc: Global,
    styles: &Styles,
    branch: usize,
    rows: &[EntryRow],
) -> Result<Items<Record>, Cause>
    ensures reads { IsReading (λ (rs : List BranchRecord).
        AllByRecursion (IsGoodRecord styles.now) rs × (entry_rows_from styles.now branch 1 rs ≡ rows.now)) result }
    ensures good { IfOk result (AllByRecursion (IsGoodRecord styles.now)) }
    ensures same { IfOk result (λ rs. entry_rows_from styles.now branch 1 rs ≡ rows.now) }
{
    let mut list = Items::empty(alloc);
    'entry: for row in rows {
        let nr = list.items().len() + 1;
        let record = read_record(alloc, styles, branch, nr, row)?;
        list.push(record)?;
    }
    Ok(list)
}
