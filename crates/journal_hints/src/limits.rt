//! Which limit of a text is exceeded at the line of a fault (docs/RULES.md, "Limits").

use crate::lines::{counted_through, is_posting, line_at};
use journal_lines::{
    LineKind, MAX_CODE, MAX_COMMENT, behind_status, comment_of, first_word, front_of, kind,
    trim_start,
};
use money_core::find;

/// The most bytes of a text, and of a line without its end.
const MAX_TEXT: usize = 1_048_576;

const MAX_LINE: usize = 1_000;

/// The most transactions of a text, and postings of a transaction.
const MAX_TRANSACTIONS: usize = 5_000;

const MAX_POSTINGS: usize = 1_000;

/// Whether the code of a header is too long.
fn has_long_code(line: &[u8]) -> bool {
    let front = front_of(line);
    let date = first_word(front);
    let Some(rest) = front.get(date.len()..) else {
        return false
    };
    match behind_status(trim_start(rest)) {
        [b'(', code @ ..] => find(code, b')').is_some_and(|end| end > MAX_CODE),
        _ => false,
    }
}

/// The limit that a text exceeds at that line.
pub fn limit_at(text: &[u8], line: usize) -> &'static [u8] {
    if text.len() > MAX_TEXT {
        return b"a journal has at most 1,048,576 bytes: split the file, and import the parts in order";
    }
    let Some(bytes) = line_at(text, line) else {
        return b"a journal has at most 1,048,576 bytes";
    };
    let (transactions, postings) = counted_through(text, line);
    let is_header = kind(bytes) == LineKind::Header;
    if bytes.len() > MAX_LINE {
        b"a line has at most 1,000 bytes"
    } else if transactions > MAX_TRANSACTIONS {
        b"a journal has at most 5,000 transactions: split the file, and import the parts in order"
    } else if is_posting(bytes) && postings > MAX_POSTINGS {
        b"a transaction has at most 1,000 postings"
    } else if is_header && has_long_code(bytes) {
        b"a code has at most 100 bytes"
    } else if comment_of(bytes).is_some_and(|comment| comment.len() > MAX_COMMENT) {
        b"a comment has at most 900 bytes"
    } else if is_header {
        b"a description has at most 500 bytes"
    } else {
        b"a transaction has at most 1,000,000 bytes"
    }
}
