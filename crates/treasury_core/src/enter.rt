//! Which transactions of a file are new.

ghost use Rattle.std.specs.Prelude.{Ok, Err, Some, None, ◌≡◌, ◌⊎◌, ◌++◌, IfOk, IfErr, OnOk, IfSome, option_copied};
ghost use Rattle.std.specs.List.{AllByRecursion};
ghost use Rattle.std.specs.Result.{IsOkUnless};
ghost use Rattle.std.specs.Str.{bytes_eq};
ghost use Rattle.journal_format.specs.CanonicalText.{body_text};
ghost use Rattle.journal_format.specs.Printable.{IsPrintable};
ghost use Rattle.treasury_state.specs.Mark.{held, is_product_mark, HaveOwnMarks};
ghost use Rattle.treasury_state.specs.Good.{IsGoodRecord};
ghost use Rattle.treasury_state.specs.Index.{IsIndexOf};
ghost use Rattle.treasury_core.specs.Step.{barred, refused_in, new_in, StopsAt};
ghost use Rattle.treasury_core.specs.Judged.{judged};

use book_core::Refusal;
use money_core::{Cause, Day, Items, Styles};
use std::alloc::Global;
use std::collections::HashMap;
use treasury_state::{Record, find_mark, has_transit, is_locked, push_marked, text_of};

/// Whether the mark belongs to the product.
pub fn is_product_mark(mark: &str) -> bool
    ensures { result ≡ is_product_mark mark.now }
{
    mark.starts_with("out:") || mark.starts_with("in:") || mark.starts_with("close:")
}

/// Why a transaction is refused whose mark is not held, if it is.
fn barred(lock: Option<Day>, row: &Record) -> Option<Refusal>
    ensures { result ≡ barred lock row.now }
{
    if is_product_mark(row.mark.as_str()) {
        return Some(Refusal::Plain(Cause::ReservedMark));
    }
    if has_transit(row.entry.legs.items()) {
        return Some(Refusal::Plain(Cause::ReservedAccount));
    }
    if is_locked(lock, row.entry.day) {
        return Some(Refusal::Plain(Cause::Locked));
    }
    None
}

/// Whether two records have the same canonical text.
fn is_same_text(alloc: Global, styles: &Styles, held: &Record, row: &Record) -> Result<bool, Cause>
    requires held { IsPrintable styles.now held.now.txn }
    requires row { IsPrintable styles.now row.now.txn }
    ensures value { IfOk result (λ is.
        is ≡ bytes_eq (body_text styles.now held.now.txn) (body_text styles.now row.now.txn)) }
    ensures memory { IsOkUnless result Cause.OutOfMemory }
{
    let text = text_of(alloc, &held.txn, styles)?;
    let other = text_of(alloc, &row.txn, styles)?;
    Ok(text.as_slice() == other.as_slice())
}

/// The record that holds a mark, among old and new ones.
fn holder_of<'a>(
    index: &HashMap<String, usize>,
    base: &'a [Record],
    marks: &HashMap<String, usize>,
    new: &'a [Record],
    mark: &str,
) -> Option<&'a Record>
    requires old { IsIndexOf index.now base.now }
    requires new { IsIndexOf marks.now new.now }
    ensures { option_copied result ≡ held (base.now ++ new.now) mark.now }
{
    match find_mark(index, base, mark) {
        Some(holder) => Some(holder),
        None => find_mark(marks, new, mark),
    }
}

/// Whether a transaction is new, given the record that holds its mark, if one does; or why it is refused.
fn is_new(
    alloc: Global,
    styles: &Styles,
    lock: Option<Day>,
    row: &Record,
    holder: Option<&Record>,
) -> Result<bool, Refusal>
    requires row { IsPrintable styles.now row.now.txn }
    requires holder { IfSome (option_copied holder) (λ h. IsPrintable styles.now h.txn) }
    ensures value { IfOk result (λ is. judged styles.now lock row.now (option_copied holder.entry) ≡ Ok is) }
    ensures err { IfErr result (λ e.
        (e ≡ Refusal.Plain Cause.OutOfMemory) ⊎ (judged styles.now lock row.now (option_copied holder.entry) ≡ Err e)) }
{
    let Some(holder) = holder else {
        return match barred(lock, row) {
            Some(refusal) => Err(refusal),
            None => Ok(true),
        };
    };
    match is_same_text(alloc, styles, holder, row) {
        Ok(true) => Ok(false),
        Ok(false) => Err(Refusal::Plain(Cause::MarkClash)),
        Err(cause) => Err(Refusal::Plain(cause)),
    }
}

/// Where the transactions of a file are refused, as they are taken in turn.
#[derive(Clone, Copy, Debug, PartialEq, Eq)]
pub struct Stop {
    /// The place of the one that is refused, from 0.
    pub place: usize,
    pub refusal: Refusal,
}

/// The transactions of a file that are new to a branch with these records, in order; or the first that is refused.
pub fn new_of(
    alloc: Global,
    styles: &Styles,
    lock: Option<Day>,
    base: &[Record],
    index: &HashMap<String, usize>,
    rows: Items<Record>,
) -> Result<Items<Record>, Stop>
    requires index { IsIndexOf index.now base.now }
    requires own { HaveOwnMarks base.now }
    requires base { AllByRecursion (IsGoodRecord styles.now) base.now }
    requires rows { AllByRecursion (IsGoodRecord styles.now) rows }
    ensures value { IfOk result (λ new. new ≡ new_in base.now rows) }
    ensures taken { OnOk result (refused_in styles.now lock base.now rows ≡ None) }
    ensures err { IfErr result (λ stop. (stop.refusal ≡ Refusal.Plain Cause.OutOfMemory)
        ⊎ (refused_in styles.now lock base.now rows ≡ Some stop.refusal)) }
    // Where it is no want of memory, those before the place are taken, and the one there is refused so.
    ensures stops { IfErr result (λ stop. (stop.refusal ≡ Refusal.Plain Cause.OutOfMemory)
        ⊎ StopsAt styles.now lock base.now rows stop.place stop.refusal) }
{
    let mut new = Items::empty(alloc);
    let mut marks = HashMap::new(alloc);
    let mut passed = 0;
    'rows: for row in rows.into_vec() {
        let place = passed;
        passed += 1;
        let holder = holder_of(index, base, &marks, new.items(), row.mark.as_str());
        match is_new(alloc, styles, lock, &row, holder) {
            Ok(true) => {
                if let Err(cause) = push_marked(alloc, &mut new, &mut marks, row) {
                    let refusal = Refusal::Plain(cause);
                    return Err(Stop { place, refusal });
                }
            }
            Ok(false) => {}
            Err(refusal) => return Err(Stop { place, refusal }),
        }
    }
    Ok(new)
}
