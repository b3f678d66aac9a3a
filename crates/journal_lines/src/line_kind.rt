//! What kind of line a line is.

ghost use Rattle.std.specs.Prelude.{◌≡◌, ◌<◌, IsTrue, true, length, slice_index, is_some};
ghost use Rattle.std.specs.Char.{is_ascii_digit};
ghost use Rattle.journal_lines.specs.Blank.{is_blank, trim_start};
ghost use Rattle.journal_lines.specs.Comment.{comment_of};
ghost use Rattle.journal_lines.specs.LineKind.{is_same, is_blank_line, is_comment_sign, is_block_start, is_block_end};
ghost use Rattle.journal_lines.specs.LineKind.{is_commodity_word, is_skipped_word, kind_of, is_remark};

use crate::blank::{first_word, is_blank, trim_end, trim_start};
use money_core::first_byte;

/// The kinds of lines.
#[derive(Clone, Copy, Debug, PartialEq, Eq)]
pub enum LineKind {
    /// Only blanks, or nothing.
    Blank,
    /// `;`, `#` or `*` in the first column.
    Comment,
    /// `comment`: a block of comment lines begins.
    Block,
    /// A digit in the first column: a transaction begins.
    Header,
    /// A blank in the first column, and something after it.
    Indented,
    /// A directive `commodity`.
    Commodity,
    /// A directive `account`, `payee`, `tag` or `P`, which is skipped.
    Skipped,
    /// No line of a journal.
    Unknown,
}

/// The kind of a line without its end, outside a block of comment lines.
pub fn kind(line: &[u8]) -> LineKind
    ensures value { result ≡ kind_of line.now }
    ensures header { is_ascii_digit (slice_index line.now 0) ≡ true → result ≡ LineKind.Header }
    ensures indented { is_blank (slice_index line.now 0) ≡ true → 0 < length (trim_start line.now)
        → result ≡ LineKind.Indented }
{
    let first = first_byte(line);
    let word = first_word(line);
    if is_blank_line(line) {
        LineKind::Blank
    } else if is_comment_sign(first) {
        LineKind::Comment
    } else if is_block_start(line) {
        LineKind::Block
    } else if first.is_ascii_digit() {
        LineKind::Header
    } else if is_blank(first) {
        LineKind::Indented
    } else if is_commodity_word(word) {
        LineKind::Commodity
    } else if is_skipped_word(word) {
        LineKind::Skipped
    } else {
        LineKind::Unknown
    }
}

/// Whether the line ends a block of comment lines: `end comment`, blanks at its end dropped.
#[tactic(auto, unfolding(crate::specs::LineKind::is_block_end))]
pub fn is_block_end(line: &[u8]) -> bool
    ensures { result ≡ is_block_end line.now }
{
    is_same(trim_end(line), b"end comment")
}

/// Whether the first byte after the blanks is `;`, with which an indented line is a comment line, and has a comment.
#[tactic(auto, unfolding(crate::specs::LineKind::is_remark))]
pub fn is_remark(line: &[u8]) -> bool
    ensures value { result ≡ is_remark line.now }
    ensures comment { IsTrue result → is_some (comment_of line.now) ≡ true }
{
    first_byte(trim_start(line)) == b';'
}

fn is_blank_line(line: &[u8]) -> bool
    ensures { result ≡ is_blank_line line.now }
{
    line.iter().all(|b| is_blank(*b))
}

fn is_comment_sign(byte: u8) -> bool
    ensures { result ≡ is_comment_sign byte }
{
    byte == b';' || byte == b'#' || byte == b'*'
}

#[tactic(auto, unfolding(crate::specs::LineKind::is_block_start))]
fn is_block_start(line: &[u8]) -> bool
    ensures { result ≡ is_block_start line.now }
{
    is_same(trim_end(line), b"comment")
}

#[tactic(auto, unfolding(crate::specs::LineKind::is_commodity_word))]
fn is_commodity_word(word: &[u8]) -> bool
    ensures { result ≡ is_commodity_word word.now }
{
    is_same(word, b"commodity")
}

#[tactic(auto, unfolding(crate::specs::LineKind::is_skipped_word))]
fn is_skipped_word(word: &[u8]) -> bool
    ensures { result ≡ is_skipped_word word.now }
{
    is_same(word, b"account")
        || is_same(word, b"payee")
        || is_same(word, b"tag")
        || is_same(word, b"P")
}

/// Whether two texts are the same.
fn is_same(text: &[u8], other: &[u8]) -> bool
    ensures { result ≡ is_same text.now other.now }
{
    text == other
}
