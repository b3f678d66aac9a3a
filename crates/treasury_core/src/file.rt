//! The transactions of a file, each with its mark and its entry.

ghost use Rattle.std.specs.Prelude.{Ok, Err, ◌≡◌, ◌<◌, ◌+◌, ◌^◌, ◌⊎◌, ℕ, [], ◌∷◌, ◌++◌, List, IfOk, IfErr, OnOk, Some};
ghost use Rattle.std.specs.Prelude.{None};
ghost use Rattle.std.specs.Result.{IsOkUnless};
ghost use Rattle.std.specs.Global.{Vec as Bytes};
ghost use Rattle.journal_format.specs.declared.txn.Txn.{Txn as Transaction};
ghost use Rattle.journal_format.specs.CanonicalText.{marked};
ghost use Rattle.journal_format.specs.Printable.{IsPrintable};
ghost use Rattle.journal_balance.specs.Legs.{balanced_entry};
ghost use Rattle.treasury_state.specs.Mark.{hash_mark, transaction_mark};
ghost use Rattle.treasury_core.specs.Step.{number_in, fault_on, unbalanced, recorded, recorded_in, records_in_file};
ghost use Rattle.treasury_core.specs.Fits.{IsFile};
ghost use Rattle.treasury_core.specs.Counted.{count_of, counted_more, AreCounted};

use book_core::{Entry, Refusal};
use journal_balance::legs;
use journal_format::{Located, Txn};
use money_core::{Cause, Copied, Fault, Items, Styles, Text};
use std::alloc::Global;
use std::collections::HashMap;
use treasury_state::{Record, hash_mark, text_of};

/// The mark of the next unmarked transaction with that canonical text, which is counted.
fn next_mark(
    alloc: Global,
    counts: &mut HashMap<Vec<u8>, usize>,
    text: Vec<u8>,
) -> Result<Text, Cause>
    requires { count_of counts.old text + 1 < 2 ^ 64 }
    ensures value { IfOk result (λ mark. mark ≡ hash_mark text.items (count_of counts.old text + 1)) }
    ensures counted { OnOk result ((other : Bytes ℕ)
        → count_of counts.new other ≡ counted_more text (count_of counts.old text) other (count_of counts.old other)) }
    ensures memory { IsOkUnless result Cause.OutOfMemory }
{
    let n = match counts.get(text.as_slice()) {
        Some(n) => *n + 1,
        None => 1,
    };
    let mark = hash_mark(alloc, &text, n)?;
    match counts.insert(text, n) {
        Ok(_) => Ok(mark),
        Err(_) => Err(Cause::OutOfMemory),
    }
}

/// The mark of a transaction of a file, after those that were counted; an unmarked one is counted too.
fn mark_in_file(
    alloc: Global,
    styles: &Styles,
    counts: &mut HashMap<Vec<u8>, usize>,
    txn: &Txn,
) -> Result<Text, Cause>
    requires printable { IsPrintable styles.now txn.now }
    requires few { (text : Bytes ℕ) → count_of counts.old text + 1 < 2 ^ 64 }
    ensures value { (before : List Transaction) → AreCounted styles.now counts.old before
        → IfOk result (λ mark. mark
        ≡ transaction_mark styles.now txn.now (number_in styles.now before txn.now) txn.now.mark) }
    ensures counted { (before : List Transaction) → AreCounted styles.now counts.old before
        → OnOk result (AreCounted styles.now counts.new (before ++ txn.now ∷ [])) }
    ensures memory { IsOkUnless result Cause.OutOfMemory }
{
    match &txn.mark {
        Some(mark) => mark.copy(),
        None => {
            let text = text_of(alloc, txn, styles)?;
            next_mark(alloc, counts, text)
        }
    }
}

/// The record of a transaction, under that mark.
fn record_of(txn: &Txn, mark: Text, entry: Entry) -> Result<Record, Cause>
    ensures value { IfOk result (λ row. row ∷ [] ≡ recorded txn.now mark (Ok entry)) }
    ensures memory { IsOkUnless result Cause.OutOfMemory }
{
    let own = mark.copy()?;
    let mut txn = txn.copy()?;
    txn.mark = Some(own);
    Ok(Record { mark, txn, entry })
}

/// The fault of the transaction on that line; want of memory is no fault of a line.
fn refused_on(line: usize, cause: Cause) -> Refusal
    ensures memory { cause ≡ Cause.OutOfMemory → result ≡ Refusal.Plain Cause.OutOfMemory }
    ensures text { (result ≡ Refusal.Plain Cause.OutOfMemory) ⊎ (fault_on line (Err cause) ≡ Some result) }
{
    match cause {
        Cause::OutOfMemory => Refusal::Plain(cause),
        _ => Refusal::Text(Fault { line, cause }),
    }
}

/// The record of a transaction of a file, after those that were counted; or its fault.
fn record_in_file(
    alloc: Global,
    styles: &Styles,
    counts: &mut HashMap<Vec<u8>, usize>,
    located: &Located,
) -> Result<Record, Refusal>
    requires printable { IsPrintable styles.now located.now.txn }
    requires few { (text : Bytes ℕ) → count_of counts.old text + 1 < 2 ^ 64 }
    ensures value { (before : List Transaction) → AreCounted styles.now counts.old before
        → IfOk result (λ row. row ∷ [] ≡ recorded_in styles.now before located.now.txn) }
    ensures balanced { OnOk result (fault_on located.now.line (balanced_entry styles.now located.now.txn) ≡ None) }
    ensures counted { (before : List Transaction) → AreCounted styles.now counts.old before
        → OnOk result (AreCounted styles.now counts.new (before ++ located.now.txn ∷ [])) }
    ensures err { IfErr result (λ e.
        (e ≡ Refusal.Plain Cause.OutOfMemory)
        ⊎ (fault_on located.now.line (balanced_entry styles.now located.now.txn) ≡ Some e)) }
{
    let entry = match legs(alloc, &located.txn, styles) {
        Ok(entry) => entry,
        Err(cause) => return Err(refused_on(located.line, cause)),
    };
    let mark = match mark_in_file(alloc, styles, counts, &located.txn) {
        Ok(mark) => mark,
        Err(cause) => return Err(Refusal::Plain(cause)),
    };
    match record_of(&located.txn, mark, entry) {
        Ok(row) => Ok(row),
        Err(cause) => Err(Refusal::Plain(cause)),
    }
}

/// The records of a file's transactions, in order; or the first fault of one.
pub fn records_in_file(
    alloc: Global,
    styles: &Styles,
    file: &[Located],
) -> Result<Items<Record>, Refusal>
    requires { IsFile styles.now file.now }
    ensures value { IfOk result (λ rows. rows ≡ records_in_file styles.now file.now) }
    ensures balanced { OnOk result (unbalanced styles.now file.now ≡ None) }
    ensures err { IfErr result (λ e.
        (e ≡ Refusal.Plain Cause.OutOfMemory) ⊎ (unbalanced styles.now file.now ≡ Some e)) }
{
    let mut counts = HashMap::new(alloc);
    let Ok(mut rows) = Vec::with_capacity(alloc, file.len()) else {
        return Err(Refusal::Plain(Cause::OutOfMemory));
    };
    for located in file {
        let row = match record_in_file(alloc, styles, &mut counts, located) {
            Ok(row) => row,
            Err(refusal) => return Err(refusal),
        };
        let Ok(()) = rows.push(row) else {
            return Err(Refusal::Plain(Cause::OutOfMemory));
        };
    }
    Ok(Items::from_vec(rows))
}
