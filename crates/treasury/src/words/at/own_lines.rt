//! The lines of a journal that is not UTF-8, in what a service says of it: it was sent another text for them.

ghost use Rattle.std.specs.Prelude.{◌≡◌};
ghost use Rattle.treasury.specs.OverFileParts.{spoken};

use crate::words::said::Said;
use journal_lines::Lines;
use money_core::{Cause, first_place};
use std::alloc::Global;
use terminal_text::{push_number, push_shown};

/// The number in a line that shows a journal's line, as `  3 | text`.
fn shown_number(line: &[u8]) -> Option<usize> {
    let rest = line.strip_prefix(b"  ")?;
    let (digits, behind) = rest.split_at(first_place(rest, b' '));
    if !behind.starts_with(b" | ") {
        return None;
    }
    match str::from_utf8(digits) {
        Ok(digits) => digits.parse::<usize>().ok(),
        Err(_) => None,
    }
}

/// The journal's line of that number, if it is not UTF-8.
fn own_line(journal: &[u8], number: usize) -> Option<&[u8]> {
    for (nr, line) in Lines::new(journal) {
        if nr == number {
            return if str::from_utf8(line).is_err() {
                Some(line)
            } else {
                None
            };
        }
    }
    None
}

/// Appends a line that was said, with the journal's own line if it shows one that is not UTF-8.
fn push_own(line: &[u8], journal: &[u8], out: &mut Vec<u8>) -> Result<(), Cause> {
    if let Some(number) = shown_number(line) {
        if let Some(own) = own_line(journal, number) {
            out.extend_from_slice(b"  ")?;
            push_number(number, out)?;
            out.extend_from_slice(b" | ")?;
            push_shown(own, out)?;
            out.extend_from_slice(b"\n")?;
            return Ok(());
        }
    }
    out.extend_from_slice(line)?;
    Ok(())
}

/// Appends the lines that were said, with the journal's own lines in them.
fn push_all_own(said: &[u8], journal: &[u8], out: &mut Vec<u8>) -> Result<(), Cause> {
    for line in said.split_inclusive(|byte| *byte == b'\n') {
        push_own(line, journal, out)?;
    }
    Ok(())
}

/// What was said of an import, with the journal's own lines where they are not UTF-8, if there is memory for them.
pub fn with_own_lines(alloc: Global, said: Said, journal: &[u8]) -> Said
    ensures { spoken result ≡ spoken said }
{
    if str::from_utf8(journal).is_ok() {
        return said;
    }
    let mut reason = Vec::new(alloc);
    if push_all_own(said.reason.as_slice(), journal, &mut reason).is_err() {
        return said;
    }
    Said {
        answer: said.answer,
        reason,
        is_refused: said.is_refused,
    }
}
