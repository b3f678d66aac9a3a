//! Comments that were to be marks, and are none; journals without a transaction.

ghost use Rattle.std.specs.Prelude.{◌≡◌, ◌++◌, false, map, find, IfOk, OnOk};
ghost use Rattle.std.specs.List.{list_any};
ghost use Rattle.std.specs.Option.{option_map};
ghost use Rattle.treasury_state.specs.Index.{IsIndexOf};
ghost use Rattle.treasury_reasons.specs.Reading.{line_of};
ghost use Rattle.journal_lines.specs.Lines.{numbered};
ghost use Rattle.import_notes.specs.Marks.{begins_mark, names_mark, comments_below, unmarked_comment, is_unmarked};
ghost use Rattle.import_notes.specs.Marks.{unmarked_view, unmarked_at, unmarked_in, no_marks_said};
ghost use Rattle.import_notes.specs.Marks.{has_header};
ghost use Rattle.import_notes.specs.Marks.{has_transaction, nothing_said};

use journal_format::{Posting, is_mark};
use journal_hints::listed::{MOST, say_more};
use journal_lines::{LineKind, Lines, is_block_end, kind, trim_start};
use money_core::{Cause, Text};
use std::alloc::Global;
use treasury_core::Record;
use treasury_messages::Piece::{Origin, Words};
use treasury_messages::{Done, MessageKind, Messages, Piece, say};
use treasury_reasons::reading::Read;

/// A comment of a new transaction that contains `bookid:` and is not its mark.
#[derive(Clone, Copy)]
pub(crate) struct Unmarked<'a> {
    /// The line of the transaction's header.
    line: usize,
    comment: &'a [u8],
}

/// Whether `bookid:` stands at the front, in small or capital letters.
fn begins_mark(text: &[u8]) -> bool
    ensures { result ≡ begins_mark text.now }
{
    text[..text.len().min(7)].eq_ignore_ascii_case(b"bookid:")
}

/// Whether it stands somewhere in a comment.
fn names_mark(comment: &[u8]) -> bool
    ensures { result ≡ names_mark comment.now }
{
    for (at, _) in comment.iter().enumerate() {
        if begins_mark(&comment[at..]) {
            return true;
        }
    }
    false
}

/// The first of some comments in which it does.
fn first_in(comments: &[Text]) -> Option<&Text>
    ensures { option_map (λ text. text.now) result ≡ find names_mark comments.now }
{
    comments
        .iter()
        .find(|comment| names_mark(comment.as_str().as_bytes()))
}

/// The first of the comments of postings in which it does.
fn first_below(postings: &[Posting]) -> Option<&Text>
    ensures { option_map (λ text. text.now) result ≡ find names_mark (comments_below postings.now) }
{
    for posting in postings {
        match first_in(posting.comments.items()) {
            Some(comment) => return Some(comment),
            None => {}
        }
    }
    None
}

/// The first comment of a transaction or one of its postings in which it does. The mark is no comment.
fn unmarked_comment(row: &Record) -> Option<&Text>
    ensures { option_map (λ text. text.now) result ≡ unmarked_comment row.now }
{
    match first_in(row.txn.comments.items()) {
        Some(comment) => Some(comment),
        None => first_below(row.txn.postings.items()),
    }
}

/// Whether one of the new transactions has such a comment.
pub fn is_any_unmarked(new: &[Record]) -> bool
    ensures { result ≡ list_any is_unmarked new.now }
{
    new.iter().any(|row| unmarked_comment(row).is_some())
}

/// Puts such a comment of a transaction after others, if it has one.
fn put_unmarked<'a>(found: &mut Vec<Unmarked<'a>>, line: usize, row: &'a Record) -> Done
    ensures { OnOk result (map unmarked_view found.new.items
        ≡ map unmarked_view found.old.items ++ unmarked_at line (unmarked_comment row.now)) }
{
    if let Some(comment) = unmarked_comment(row) {
        let comment = comment.as_str().as_bytes();
        found.push(Unmarked { line, comment })?;
    }
    Ok(())
}

/// Such comments of new transactions.
fn find_unmarked<'a>(
    alloc: Global,
    read: &Read,
    new: &'a [Record],
) -> Result<Vec<Unmarked<'a>>, Cause>
    requires { IsIndexOf read.now.first read.now.rows }
    ensures { IfOk result (λ found. map unmarked_view found.items
        ≡ unmarked_in (line_of read.now.file.items read.now.rows) new.now) }
{
    let mut found = Vec::new(alloc);
    for row in new {
        put_unmarked(&mut found, read.line_of(row), row)?;
    }
    Ok(found)
}

/// Why a comment is no mark.
fn why(comment: &[u8]) -> &'static [u8] {
    if !comment.starts_with(b"bookid:") {
        b" is no mark: a mark is a comment of its own that begins with bookid:"
    } else if is_mark(trim_start(&comment[7..])) {
        b" is no mark here: a mark stands above the postings of its transaction"
    } else {
        b" is no mark: what follows bookid: must be 1 to 100 ASCII letters, digits or -._:"
    }
}

/// Says which comments of new transactions of a text are no marks.
#[tactic(auto, unfolding(journal_hints::specs::Listed::listed))]
pub fn say_no_marks<'a>(
    alloc: Global,
    source: &'a str,
    read: &Read,
    new: &'a [Record],
    out: &mut Messages,
) -> Done
    requires { IsIndexOf read.now.first read.now.rows }
    ensures { OnOk result (out.new.items ≡ out.old.items
        ++ no_marks_said source.now (line_of read.now.file.items read.now.rows) new.now) }
{
    let found = find_unmarked(alloc, read, new)?;
    let first = &found.as_slice()[..found.len().min(MOST)];
    for one in first {
        let reason = Words(why(one.comment));
        let pieces = [Origin(source, one.line), Piece::Text(one.comment), reason];
        say(MessageKind::NoMark, &pieces, out)?;
    }
    say_more(found.len(), out)
}

/// Whether a line outside a block of comment lines begins a transaction.
fn has_header(text: &[u8]) -> bool
    ensures { result ≡ has_header false (numbered 1 text.now) }
{
    let mut in_block = false;
    for (_, line) in Lines::new(text) {
        if in_block {
            in_block = !is_block_end(line);
        } else if kind(line) == LineKind::Header {
            return true;
        } else {
            in_block = kind(line) == LineKind::Block;
        }
    }
    false
}

/// Says that a journal has no transaction, if it has none.
pub fn say_nothing(source: &str, text: &[u8], out: &mut Messages) -> Done
    ensures { OnOk result (out.new.items ≡ out.old.items ++ nothing_said source.now (has_transaction text.now)) }
{
    if has_header(text) {
        return Ok(());
    }
    let name = Piece::Text(source.as_bytes());
    let pieces = [name, Words(b": there is no transaction in it")];
    say(MessageKind::NothingImported, &pieces, out)
}
