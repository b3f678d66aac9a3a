//! What a text or a request has to have, where it is refused: forms, limits, and how commodities are written.

ghost use Rattle.std.specs.Prelude.{◌≡◌, [], ◌∷◌, ◌++◌, List, slice_get, OnOk};
ghost use Rattle.std.specs.Char.{is_ascii_digit};
ghost use Rattle.std.specs.List.{list_all, list_any};
ghost use Rattle.journal_format.specs.declared.txn.Located.{Located as Placed};
ghost use Rattle.journal_format.specs.Pieces.{Reads};
ghost use Rattle.journal_hints.specs.LeftOver.{transaction_on, left_over_said, said_of_postings};
ghost use Rattle.treasury_messages.specs.Said.{says};
ghost use Rattle.treasury_messages.specs.Pieces.{piece_values};
ghost use Rattle.journal_hints.specs.ExactProduct.{inexact_said};
ghost use Rattle.journal_hints.specs.Samples.{thousand_of, written_sample, samples_said};
ghost use Rattle.journal_hints.specs.Samples.{is_number_byte, is_bare_number};
ghost use Rattle.journal_hints.specs.Samples.{amount_form_said};

use crate::exact::say_exact;
use crate::limits::limit_at;
use crate::lines::{line_at, posting_parts, say_blank_postings};
use crate::nearly::{is_unindented, zero_unit};
use crate::source::{say_rest, transaction_at};
use money_core::{Cause, Fault, Styles, Unit};
use std::alloc::Global;
use treasury_messages::Piece::{Amount, Words};
use treasury_messages::{Done, Message, MessageKind, Messages, Piece, hint, say};

/// How a date is written.
const DATE_FORM: &[u8] =
    b"a date is written 2024-12-31, 2024/12/31 or 2024.12.31, with four digits of the year";

/// How a sample is written.
const SAMPLE_FORM: &[u8] =
    b"a sample is an amount that shows the decimal mark: '1,000.00 EUR', '$1,000.00', or '1,000. JPY' without decimals";

/// A thousand of a commodity, in smallest units.
fn thousand_of(styles: &Styles, unit: Unit) -> u64
    ensures { result ≡ thousand_of (slice_get styles.now unit.0) }
{
    styles.are_styles();
    match styles.style(unit) {
        Some(style) => 1_000 * 10u64.pow(u32::from(style.decimals)),
        None => 0,
    }
}

/// A thousand of a commodity, as it is written.
pub fn sample(styles: &Styles, unit: Unit) -> Piece<'_>
    ensures { piece_values result ≡ written_sample styles.now unit ∷ [] }
{
    Amount(styles, unit, i128::from(thousand_of(styles, unit)))
}

/// Says how the amount of each declared commodity is written.
pub fn say_samples(
    kind: MessageKind,
    styles: &Styles,
    name: &'static [u8],
    out: &mut Messages,
) -> Done
    ensures { OnOk result (out.new.items ≡ out.old.items ++ samples_said kind styles.now) }
{
    if styles.len() == 0 {
        return hint(
            b"no commodity is declared yet; treasury commodity declares one",
            out,
        );
    }
    let mut message = Message::new(*out.allocator(), kind);
    message.add(&[Words(name)])?;
    for number in 0..styles.len() {
        let before: &'static [u8] = if number == 0 { b": " } else { b", " };
        message.add(&[Words(before), sample(styles, Unit(number as u16))])?;
    }
    message.say(out)
}

/// Says how amounts are written.
fn say_amounts(styles: &Styles, out: &mut Messages) -> Done
    ensures { OnOk result (out.new.items ≡ out.old.items ++ samples_said MessageKind.FormOfAmounts styles.now) }
{
    let kind = MessageKind::FormOfAmounts;
    say_samples(kind, styles, b"amounts are written", out)
}

/// Whether a byte is a digit, or stands beside digits where a commodity is missing.
fn is_number_byte(byte: u8) -> bool
    ensures { result ≡ is_number_byte byte }
{
    byte.is_ascii_digit() || matches!(byte, b'.' | b',' | b'-' | b'+' | b' ' | b'=' | b'@' | b'*')
}

/// Whether a text has a digit.
fn has_digit(text: &[u8]) -> bool
    ensures { result ≡ list_any is_ascii_digit text.now }
{
    text.iter().any(|byte| byte.is_ascii_digit())
}

/// Whether a text has nothing but such bytes.
fn has_number_bytes(text: &[u8]) -> bool
    ensures { result ≡ list_all is_number_byte text.now }
{
    text.iter().all(|byte| is_number_byte(*byte))
}

/// Whether a text is a number alone.
fn is_bare_number(text: &[u8]) -> bool
    ensures { result ≡ is_bare_number text.now }
{
    has_digit(text) && has_number_bytes(text)
}

/// Says how amounts are written, for a text that is not an amount.
pub fn say_amount_form(styles: &Styles, text: &[u8], out: &mut Messages) -> Done
    ensures { OnOk result (out.new.items ≡ out.old.items ++ amount_form_said styles.now (is_bare_number text.now)) }
{
    if is_bare_number(text) {
        hint(
            b"a number alone is not an amount: it needs a commodity",
            out,
        )?;
    }
    say_amounts(styles, out)
}

/// Says what a sample shows.
pub fn say_sample_form(out: &mut Messages) -> Done
    ensures { OnOk result (out.new.items ≡ out.old.items ++ says MessageKind.Hint [] ∷ []) }
{
    hint(SAMPLE_FORM, out)
}

/// Says how amounts are written, where a line of a journal has none.
fn say_line_form(styles: &Styles, journal: &[u8], line: usize, out: &mut Messages) -> Done {
    match line_at(journal, line) {
        Some([b'c', ..]) => say_sample_form(out),
        Some(bytes) => match zero_unit(styles, journal, line) {
            Some(unit) => {
                let pieces = [
                    Words(b"a number alone is not an amount: write "),
                    Amount(styles, unit, 0),
                ];
                say(MessageKind::FormOfZero, &pieces, out)?;
                say_amounts(styles, out)
            }
            None => say_amount_form(styles, posting_parts(bytes).rest, out),
        },
        None => Ok(()),
    }
}

/// What stands in the way at the line of an unknown directive: a byte order mark, or a posting without a blank before
/// it, if there is one.
fn directive_hint(styles: &Styles, journal: &[u8], line: usize) -> &'static [u8] {
    if line == 1 && journal.starts_with(b"\xef\xbb\xbf") {
        b"the file begins with a byte order mark: save it as UTF-8 without one"
    } else if is_unindented(styles, journal, line) {
        b"a posting is indented: begin its line with a blank or a tab"
    } else {
        b"`hledger print -x` writes a journal's transactions without directives"
    }
}

/// Says what a journal should have at the line of a fault of its form.
fn say_form(styles: &Styles, journal: &[u8], fault: &Fault, out: &mut Messages) -> Done {
    match fault.cause {
        Cause::Utf8 => hint(b"save the file as UTF-8, without control characters", out),
        Cause::TooLong => hint(limit_at(journal, fault.line), out),
        Cause::Date => hint(DATE_FORM, out),
        Cause::Directive => hint(directive_hint(styles, journal, fault.line), out),
        Cause::StrayLine => hint(
            b"a blank line, or a comment in the first column, ends a transaction",
            out,
        ),
        Cause::Amount => say_line_form(styles, journal, fault.line, out),
        Cause::UnknownCommodity | Cause::Decimals | Cause::CommodityStyle => {
            say_samples(MessageKind::Declared, styles, b"declared", out)
        }
        Cause::Assignment => hint(
            b"to assert a balance alone, write a zero amount before it: 0.00 EUR = 5.00 EUR",
            out,
        ),
        Cause::Virtual => hint(
            b"write the account without brackets, or leave the posting out",
            out,
        ),
        Cause::TwoBlanks => {
            say_blank_postings(journal, fault.line, out)?;
            hint(
                b"an account's name ends at two spaces or a tab: with one space, the amount is part of the name",
                out,
            )
        }
        _ => Ok(()),
    }
}

/// Says what a journal should have at the line of a fault, or what the transaction whose header stands there has.
pub fn say_fault_hint(
    alloc: Global,
    styles: &Styles,
    journal: &[u8],
    fault: &Fault,
    out: &mut Messages,
) -> Done
    ensures inexact { (list : List Placed) → Reads styles.now journal.now list → fault.now.cause ≡ Cause.CostNotExact
        → OnOk result (out.new.items
        ≡ out.old.items ++ said_of_postings (inexact_said styles.now) (transaction_on fault.now.line list)) }
    ensures left { (list : List Placed) → Reads styles.now journal.now list → fault.now.cause ≡ Cause.Unbalanced
        → OnOk result (out.new.items
        ≡ out.old.items ++ said_of_postings (left_over_said styles.now) (transaction_on fault.now.line list)) }
{
    match fault.cause {
        Cause::CostNotExact => match transaction_at(alloc, styles, journal, fault.line)? {
            Some(txn) => say_exact(styles, txn.postings.items(), out),
            None => Ok(()),
        },
        Cause::Unbalanced => match transaction_at(alloc, styles, journal, fault.line)? {
            Some(txn) => say_rest(styles, txn.postings.items(), out),
            None => Ok(()),
        },
        _ => say_form(styles, journal, fault, out),
    }
}
