//! Dates of postings, which hledger takes and the treasury does not.

ghost use Rattle.std.specs.Prelude.{◌≡◌, ◌++◌, ◌&&◌, ◌||◌, OnOk};
ghost use Rattle.std.specs.List.{list_any, position_from};
ghost use Rattle.journal_lines.specs.Comment.{comment_of};
ghost use Rattle.journal_hints.specs.OddAmount.{is_posting_line};
ghost use Rattle.import_notes.specs.Dated.{has_date, is_dated, has_date_if_any, dated_line, date_note_at};

use crate::import::Import;
use journal_hints::lines::{is_inner, is_posting};
use journal_lines::{Lines, comment_of, tags};
use money_core::Text;
use treasury_core::Record;
use treasury_messages::Piece::{Day, Origin, Words};
use treasury_messages::{Done, MessageKind, Messages, say};

/// Whether a comment has the tag by which hledger dates a posting.
fn has_date(comment: &[u8]) -> bool
    ensures { result ≡ has_date comment.now }
{
    'tags: for (name, _) in tags(comment) {
        if name == b"date".as_slice() {
            return true;
        }
    }
    false
}

/// Whether one of the comments has it.
fn have_date(comments: &[Text]) -> bool
    ensures { result ≡ list_any has_date comments.now }
{
    comments
        .iter()
        .any(|comment| has_date(comment.as_str().as_bytes()))
}

/// Whether a comment of a posting of the record has it.
fn is_dated(record: &Record) -> bool
    ensures { result ≡ is_dated record.now }
{
    record
        .txn
        .postings
        .items()
        .iter()
        .any(|posting| have_date(posting.comments.items()))
}

/// The place of the first new record with such a posting, from 0.
pub fn find_dated(new: &[Record]) -> Option<usize>
    ensures { result ≡ position_from is_dated 0 new.now }
{
    new.iter().position(|record| is_dated(record))
}

/// Whether a line is a posting of a transaction or stands after one, as the line before it may.
fn is_from_posting(is: bool, line: &[u8]) -> bool
    ensures { result ≡ (is || is_posting_line line.now) }
{
    is || is_posting(line)
}

/// Whether the comment of a line that is or is not on a posting, or after one, has the tag there.
fn is_dated_on(is_on_posting: bool, line: &[u8]) -> bool
    ensures { result ≡ (is_on_posting && has_date_if_any (comment_of line.now)) }
{
    if !is_on_posting {
        return false;
    }
    match comment_of(line) {
        Some(comment) => has_date(comment),
        None => false,
    }
}

/// The line with the first such tag on a posting of the transaction whose header stands at that line, or after one.
#[tactic(auto, unfolding(crate::specs::Dated::dated_line))]
fn dated_line(text: &[u8], header: usize) -> usize
    ensures { result ≡ dated_line header text.now }
{
    let mut is_on_posting = false;
    for (number, line) in Lines::new(text) {
        if number > header {
            if !is_inner(line) {
                return header;
            }
            is_on_posting = is_from_posting(is_on_posting, line);
            if is_dated_on(is_on_posting, line) {
                return number;
            }
        }
    }
    header
}

/// Says where the first posting with a date of its own stands, of the new record at that place; the headers of all new
/// ones stand at these lines.
pub fn say_dated(import: &Import<'_>, lines: &[usize], place: usize, out: &mut Messages) -> Done
    ensures { let it = import.now in OnOk result (out.new.items
        ≡ out.old.items ++ date_note_at it.source.now it.text.now it.new.now lines.now place) }
{
    let Some(row) = import.new.get(place) else {
        return Ok(());
    };
    let Some(header) = lines.get(place) else {
        return Ok(());
    };
    let pieces = [
        Origin(import.source, dated_line(import.text, *header)),
        Words(b"date: is comment text here: the posting has the day of its transaction, "),
        Day(row.entry.day),
    ];
    say(MessageKind::DatedPosting, &pieces, out)
}
