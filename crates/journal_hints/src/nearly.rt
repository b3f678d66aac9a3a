//! Lines that hledger takes, or that are nearly a posting: a zero without a commodity, a posting that is not indented.

use crate::lines::{amounts_of, behind_signs, is_inner, is_posting, line_at, posting_parts};
use journal_lines::{LineKind, Lines, first_word, is_account, kind};
use money_core::{Styles, Unit, find, read_amount};

/// Whether a text is a zero without a commodity.
fn is_bare_zero(text: &[u8]) -> bool {
    text.contains(&b'0')
        && text.iter().all(|byte| matches!(*byte, b'0' | b'.' | b',' | b'-' | b'+' | b' '))
}

/// The commodity of the amount that a text is.
fn unit_of(styles: &Styles, text: &[u8]) -> Option<Unit> {
    let text = str::from_utf8(text).ok()?;
    let (unit, _) = read_amount(text, styles).ok()?;
    Some(unit)
}

/// The commodity of a posting's line: that of its amount, or else that of its assertion.
fn unit_of_line(styles: &Styles, line: &[u8]) -> Option<Unit> {
    if !is_posting(line) {
        return None;
    }
    let amounts = amounts_of(posting_parts(line).rest);
    unit_of(styles, amounts.amount).or(unit_of(styles, behind_signs(amounts.claim)))
}

/// The first commodity in the transaction that has the line of that number.
fn unit_around(styles: &Styles, text: &[u8], line: usize) -> Option<Unit> {
    let mut found: Option<Unit> = None;
    for (number, bytes) in Lines::new(text) {
        if !is_inner(bytes) {
            if number > line {
                return found;
            }
            found = None;
        } else if found.is_none() {
            found = unit_of_line(styles, bytes);
        }
    }
    found
}

/// The commodity in which a zero of the line of that number is meant, where one stands alone: that of the line, else of
/// its transaction, else the first.
pub fn zero_unit(styles: &Styles, text: &[u8], line: usize) -> Option<Unit> {
    let bytes = line_at(text, line)?;
    let amounts = amounts_of(posting_parts(bytes).rest);
    if styles.len() == 0
        || !(is_bare_zero(amounts.amount) || is_bare_zero(behind_signs(amounts.claim)))
    {
        return None;
    }
    let unit = unit_of_line(styles, bytes).or(unit_around(styles, text, line));
    Some(unit.unwrap_or(Unit(0)))
}

/// Whether the line of that number is a posting, but for the blank before it: it follows another line of a transaction,
/// and begins with an account that has a colon in its first word, or that an amount follows.
pub fn is_unindented(styles: &Styles, text: &[u8], line: usize) -> bool {
    let Some(bytes) = line_at(text, line) else {
        return false
    };
    let is_in_transaction = line_at(text, line.saturating_sub(1)).is_some_and(|before| matches!(
        kind(before),
        LineKind::Header | LineKind::Indented
    ));
    let parts = posting_parts(bytes);
    is_in_transaction
        && is_account(parts.name)
        && (find(first_word(parts.name), b':').is_some()
            || unit_of(styles, amounts_of(parts.rest).amount).is_some())
}
