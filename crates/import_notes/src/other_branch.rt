//! Imports into the wrong branch: another one holds the same transactions already.

ghost use Rattle.std.specs.Prelude.{◌≡◌, ◌++◌, IfOk, OnOk};
ghost use Rattle.std.specs.List.{count_by};
ghost use Rattle.std.specs.Option.{option_map};
ghost use Rattle.std.specs.Str.{bytes_eq};
ghost use Rattle.journal_format.specs.CanonicalText.{body_text};
ghost use Rattle.journal_format.specs.Printable.{IsPrintable};
ghost use Rattle.treasury_state.specs.Index.{IsIndexOf};
ghost use Rattle.import_notes.specs.OtherBranch.{AreAllPrintable, has_text_of, is_held_so, held_count, with_more};
ghost use Rattle.import_notes.specs.OtherBranch.{more_holding, most_holding, holding_view, other_note};

use crate::edited::is_marked;
use book_core::Ledger;
use journal_format::{Txn, is_printable};
use money_core::{Cause, Styles};
use std::alloc::Global;
use std::collections::HashMap;
use treasury_core::{Record, State};
use treasury_messages::Piece::{Number, Text, Words};
use treasury_messages::{Done, MessageKind, Messages, say};
use treasury_state::{find_branch, find_mark, text_of};

/// The fewest new transactions of which it is noted.
const LEAST_NEW: usize = 10;

/// Whether two transactions have the same canonical text, their marks aside.
fn is_same_text(alloc: Global, styles: &Styles, txn: &Txn, other: &Txn) -> Result<bool, Cause>
    ensures { IsPrintable styles.now txn.now → IsPrintable styles.now other.now
        → IfOk result (λ is. is ≡ bytes_eq (body_text styles.now txn.now) (body_text styles.now other.now)) }
{
    if !is_printable(txn, styles) || !is_printable(other, styles) {
        return Ok(false);
    }
    let text = text_of(alloc, txn, styles)?;
    let second = text_of(alloc, other, styles)?;
    Ok(text.as_slice() == second.as_slice())
}

/// Whether two records with one mark have the same text. A mark that was made of the text tells that.
fn has_text_of(
    alloc: Global,
    styles: &Styles,
    record: &Record,
    other: &Record,
) -> Result<bool, Cause>
    ensures { IsPrintable styles.now record.now.txn → IsPrintable styles.now other.now.txn
        → IfOk result (λ is. is ≡ has_text_of styles.now record.now other.now) }
{
    if is_marked(record) {
        is_same_text(alloc, styles, &record.txn, &other.txn)
    } else {
        Ok(true)
    }
}

/// Whether one of the records, which are found by this index, has the mark and the text of a new one.
fn is_held_so(
    alloc: Global,
    styles: &Styles,
    index: &HashMap<String, usize>,
    records: &[Record],
    record: &Record,
) -> Result<bool, Cause>
    requires { IsIndexOf index.now records.now }
    ensures { AreAllPrintable styles.now records.now → IsPrintable styles.now record.now.txn
        → IfOk result (λ is. is ≡ is_held_so styles.now records.now record.now) }
{
    match find_mark(index, records, record.mark.as_str()) {
        Some(other) => has_text_of(alloc, styles, record, other),
        None => Ok(false),
    }
}

/// How many of the new records have the mark and the text of one of the records, which are found by this index.
fn count_held(
    alloc: Global,
    styles: &Styles,
    index: &HashMap<String, usize>,
    records: &[Record],
    new: &[Record],
) -> Result<usize, Cause>
    requires { IsIndexOf index.now records.now }
    ensures { AreAllPrintable styles.now records.now → AreAllPrintable styles.now new.now
        → IfOk result (λ count. count ≡ count_by (is_held_so styles.now records.now) new.now) }
{
    let mut count = 0usize;
    for record in new {
        if is_held_so(alloc, styles, index, records, record)? {
            count += 1;
        }
    }
    Ok(count)
}

/// How many of the new records the branch of that name holds: one look-up for each.
fn held_count<L: Ledger>(
    alloc: Global,
    state: &State<L>,
    name: &str,
    new: &[Record],
) -> Result<usize, Cause>
    ensures { AreAllPrintable state.now.styles new.now
        → IfOk result (λ count. count ≡ held_count state.now name.now new.now) }
{
    state.is_good();
    match find_branch(state, name) {
        Some(branch) => {
            let records = branch.records.items();
            count_held(alloc, state.styles(), &branch.index, records, new)
        }
        None => Ok(0),
    }
}

/// A branch, and how many of the new records it holds.
#[derive(Clone, Copy)]
struct Holding<'a> {
    branch: &'a str,
    count: usize,
}

/// The branch with more of the new records; of two with as many, the first.
fn with_more<'a>(most: Option<Holding<'a>>, branch: &'a str, count: usize) -> Holding<'a>
    ensures { with_more (option_map holding_view most.entry) (branch.now, count) ≡ Some (holding_view result) }
{
    match most {
        Some(held) if count <= held.count => held,
        _ => Holding { branch, count },
    }
}

/// The branch with the most of the new records, once the branch of that name was looked at; the branch of the import is
/// no other one.
fn more_holding<'a, L: Ledger>(
    alloc: Global,
    state: &State<L>,
    branch: &str,
    new: &[Record],
    most: Option<Holding<'a>>,
    name: &'a str,
) -> Result<Option<Holding<'a>>, Cause>
    ensures { AreAllPrintable state.now.styles new.now → IfOk result (λ next. option_map holding_view next
        ≡ more_holding state.now branch.now new.now (option_map holding_view most.entry) name.now) }
{
    if name == branch {
        return Ok(most);
    }
    let count = held_count(alloc, state, name, new)?;
    Ok(Some(with_more(most, name, count)))
}

/// The other branch that holds the most of the new records, the first of several.
fn find_holding<'a, L: Ledger>(
    alloc: Global,
    state: &'a State<L>,
    branch: &str,
    new: &[Record],
) -> Result<Option<Holding<'a>>, Cause>
    ensures { AreAllPrintable state.now.styles new.now
        → IfOk result (λ most. option_map holding_view most ≡ most_holding state.now branch.now new.now) }
{
    let mut most: Option<Holding<'a>> = None;
    let branches = state.branches();
    for other in branches {
        match more_holding(alloc, state, branch, new, most, other.name.as_str()) {
            Ok(next) => most = next,
            Err(cause) => return Err(cause),
        }
    }
    Ok(most)
}

/// Says which other branch holds half of an import or more, if one does.
#[tactic(auto, unfolding(crate::specs::OtherBranch::other_note))]
pub fn say_other_branch<L: Ledger>(
    alloc: Global,
    state: &State<L>,
    branch: &str,
    new: &[Record],
    out: &mut Messages,
) -> Done
    ensures { AreAllPrintable state.now.styles new.now
        → OnOk result (out.new.items ≡ out.old.items ++ other_note state.now branch.now new.now) }
{
    let all = new.len();
    if all < LEAST_NEW {
        return Ok(());
    }
    match find_holding(alloc, state, branch, new)? {
        Some(Holding { branch, count }) if all.saturating_sub(count) <= count => {
            let pieces = [
                Text(branch.as_bytes()),
                Words(b" already holds "),
                Number(count),
                Words(b" of these "),
                Number(all),
                Words(b" transactions"),
            ];
            say(MessageKind::OtherBranch, &pieces, out)
        }
        _ => Ok(()),
    }
}
