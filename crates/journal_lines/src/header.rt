//! The header line of a transaction.

ghost use Rattle.std.specs.Prelude.{◌≡◌, ◌==◌, ◌||◌, true, nat_lt, slice_index, drop, length, IfOk, IfErr, Ok, Err};
ghost use Rattle.std.specs.Prelude.{◌↔◌, ◌⊎◌};
ghost use Rattle.std.specs.Option.{option_map};
ghost use Rattle.std.specs.List.{list_all};
ghost use Rattle.std.specs.Str.{is_utf8};
ghost use Rattle.journal_lines.specs.Header.{status_at, behind_status, length_of, HeaderParts};
ghost use Rattle.journal_lines.specs.HeaderReading.{closed_code, code_at, behind_date, cut_header, is_coded_long};
ghost use Rattle.journal_lines.specs.HeaderReading.{is_cut_long, judged_header};
ghost use Rattle.journal_lines.specs.HeaderForm.{ReadsHeader};
ghost use Rattle.journal_lines.specs.HeaderFaults.{HasLongPart, HasNoDate, HasOpenCode};
ghost use Rattle.journal_lines.specs.Printed.{is_clean, PrintsBack};
ghost use Rattle.journal_lines.specs.Utf8.{IsUtf8Header};
ghost use Rattle.journal_lines.specs.HeaderView.{parts_of, read_parts};
ghost use Rattle.journal_lines.specs.HeaderCutView.{coded_view, header_cut_view};

use crate::blank::{find_blank, first_word, trim_end, trim_start};
use crate::comment::{comment_of, front_of};
use crate::date::read_date;
use money_core::{Cause, Day, find, first_byte};

/// The status of a transaction or a posting.
#[derive(Clone, Copy, Debug, PartialEq, Eq)]
pub enum Status {
    /// `*`
    Cleared,
    /// `!`
    Pending,
}

/// The parts of a header line, each a slice of it.
#[derive(Clone, Copy, Debug, PartialEq, Eq)]
pub struct Header<'a> {
    pub day: Day,
    pub status: Option<Status>,
    pub code: Option<&'a [u8]>,
    pub description: &'a [u8],
    pub comment: Option<&'a [u8]>,
}

/// The most bytes that a code has.
pub const MAX_CODE: usize = 100;

/// The most bytes that a description has.
pub const MAX_DESCRIPTION: usize = 500;

/// The most bytes that a comment has.
pub const MAX_COMMENT: usize = 900;

/// The parts of a header, not yet judged.
#[derive(Clone, Copy)]
struct HeaderCut<'a> {
    date: &'a [u8],
    status: Option<Status>,
    coded: Option<Coded<'a>>,
    comment: Option<&'a [u8]>,
}

/// A code, if there is one, and what follows it.
#[derive(Clone, Copy)]
struct Coded<'a> {
    code: Option<&'a [u8]>,
    rest: &'a [u8],
}

/// The parts of a header line, or its first fault: 2 where the code, the description or the comment has too many
/// bytes, 3 where the text up to the first blank or `;` is no date, 4 where the code is not closed.
pub fn read_header(line: &[u8]) -> Result<Header<'_>, Cause>
    // What is read is written in the line, and a line in the form of a header is read.
    ensures found { IfOk result (λ header. ReadsHeader line.entry.now (parts_of header)) }
    ensures only { (parts : HeaderParts) → ReadsHeader line.entry.now parts → read_parts result ≡ Ok parts }

    // A fault is that of the line's text from left to right.
    ensures long { (result ≡ Err Cause.TooLong) ↔ HasLongPart line.entry.now }
    ensures undated { (result ≡ Err Cause.Date) ↔ HasNoDate line.entry.now }
    ensures unclosed { (result ≡ Err Cause.Header) ↔ HasOpenCode line.entry.now }
    ensures causes { IfErr result (λ cause. (cause ≡ Cause.TooLong) ⊎ (cause ≡ Cause.Date) ⊎ (cause ≡ Cause.Header)) }

    // The parts of a line without control characters print so that they read back, and those of a line in UTF-8 are
    // UTF-8.
    ensures prints { list_all is_clean line.entry.now ≡ true → IfOk result (λ header. PrintsBack (parts_of header)) }
    ensures utf8 { is_utf8 line.entry.now ≡ true → IfOk result (λ header. IsUtf8Header (parts_of header)) }
{
    judged_header(cut_header(line))
}

/// The parts of a header that was cut, or its first fault.
#[tactic(auto, unfolding(crate::specs::HeaderReading::judged_header))]
fn judged_header(cut: HeaderCut<'_>) -> Result<Header<'_>, Cause>
    ensures { read_parts result ≡ judged_header (header_cut_view cut.entry) }
{
    if is_cut_long(&cut) {
        return Err(Cause::TooLong);
    }
    let Some(day) = read_date(cut.date) else {
        return Err(Cause::Date);
    };
    let Some(coded) = cut.coded else {
        return Err(Cause::Header);
    };
    Ok(Header {
        day,
        status: cut.status,
        code: coded.code,
        description: trim_end(coded.rest),
        comment: cut.comment,
    })
}

/// The parts of a header, by characters alone.
#[tactic(auto, unfolding(crate::specs::HeaderReading::cut_header))]
fn cut_header(line: &[u8]) -> HeaderCut<'_>
    ensures { header_cut_view result ≡ cut_header line.now }
{
    let front = front_of(line);
    let rest = behind_date(front);
    HeaderCut {
        date: first_word(front),
        status: status_at(rest),
        coded: code_at(behind_status(rest)),
        comment: comment_of(line),
    }
}

/// Whether a part has too many bytes.
fn is_cut_long(cut: &HeaderCut) -> bool
    ensures { result ≡ is_cut_long (header_cut_view cut.now) }
{
    is_coded_long(cut.coded) || length_of(cut.comment) > MAX_COMMENT
}

fn is_coded_long(coded: Option<Coded>) -> bool
    ensures { result ≡ is_coded_long (option_map coded_view coded.entry) }
{
    match coded {
        Some(coded) => length_of(coded.code) > MAX_CODE
            || trim_end(coded.rest).len() > MAX_DESCRIPTION,
        None => false,
    }
}

fn length_of(part: Option<&[u8]>) -> usize
    ensures { result ≡ length_of (option_map (λ t. t.now) part.entry) }
{
    match part {
        Some(text) => text.len(),
        None => 0,
    }
}

/// What follows the text up to the first blank, without blanks between.
#[tactic(auto, unfolding(crate::specs::HeaderReading::behind_date))]
fn behind_date(front: &[u8]) -> &[u8]
    ensures { result.now ≡ behind_date front.now }
{
    match find_blank(front) {
        Some(at) => trim_start(&front[at..]),
        None => trim_start(&[]),
    }
}

/// The status at the front: `*` or `!`.
#[tactic(auto, unfolding(crate::specs::Header::status_at))]
pub fn status_at(text: &[u8]) -> Option<Status>
    ensures { result ≡ status_at text.now }
{
    let first = first_byte(text);
    if first == b'*' {
        Some(Status::Cleared)
    } else if first == b'!' {
        Some(Status::Pending)
    } else {
        None
    }
}

/// What follows the status, without blanks between; all where there is none.
#[tactic(auto, unfolding(crate::specs::Header::behind_status))]
pub fn behind_status(text: &[u8]) -> &[u8]
    ensures value { result.now ≡ behind_status text.now }
    ensures utf8 { is_utf8 text.now ≡ true → is_utf8 result.now ≡ true }
{
    let first = first_byte(text);
    if first == b'*' || first == b'!' {
        trim_start(&text[1..])
    } else {
        text
    }
}

/// The code at the front and what follows it, without blanks between; none where it is not closed.
#[tactic(auto, unfolding(crate::specs::HeaderReading::code_at))]
fn code_at(text: &[u8]) -> Option<Coded<'_>>
    ensures { option_map coded_view result ≡ code_at text.now }
{
    if first_byte(text) != b'(' {
        return Some(Coded {
            code: None,
            rest: text,
        });
    }
    closed_code(&text[1..])
}

/// The code that ends at the first `)`, and what follows it.
fn closed_code(text: &[u8]) -> Option<Coded<'_>>
    ensures { option_map coded_view result ≡ closed_code text.now }
{
    match find(text, b')') {
        Some(at) => Some(Coded {
            code: Some(&text[..at]),
            rest: trim_start(&text[at + 1..]),
        }),
        None => None,
    }
}
