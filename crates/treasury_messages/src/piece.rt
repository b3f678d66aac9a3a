//! The pieces that messages are made of.

ghost use Rattle.std.specs.Prelude.{◌≡◌, ◌++◌, [], ◌∷◌, decimal, OnOk, option_to_list};
ghost use Rattle.std.specs.List.{flat_map};
ghost use Rattle.journal_lines.specs.Printed.{header_status};
ghost use Rattle.treasury_messages.specs.Pieces.{shown_amount, shown_day, header_values, origin_values, piece_values};
ghost use Rattle.treasury_messages.specs.Parts.{part_values};

use crate::part::{Part, put_text, put_value, put_words};
use journal_format::Txn;
use journal_lines::{Status, is_day_number, print_date};
use money_core::{Cause, Day, Styles, Text, Unit, is_declared, print_amount};
use terminal_text::push_number;

/// A piece of what is said.
#[derive(Clone, Copy)]
pub enum Piece<'a> {
    /// Words of the message, at most 200 bytes.
    Words(&'static [u8]),
    /// A text that the message names.
    Text(&'a [u8]),
    /// A number that it names.
    Number(usize),
    /// A day, or `?` where no text writes it.
    Day(Day),
    /// An amount or a sum, in smallest units of its commodity, or `?` where no text writes it.
    Amount(&'a Styles, Unit, i128),
    /// The header of a transaction: `2024-12-31 * (code) description`.
    Header(&'a Txn),
    /// A file and a line of it, before what is said of it: `FILE:LINE: `.
    Origin(&'a str, usize),
}

/// Puts a number.
fn put_number(number: usize, parts: &mut Vec<Part>) -> Result<(), Cause>
    ensures value { OnOk result
        (flat_map part_values parts.new.items ≡ flat_map part_values parts.old.items ++ decimal number ∷ []) }
{
    let mut text = Vec::new(*parts.allocator());
    push_number(number, &mut text)?;
    put_value(text, parts)
}

/// Appends a day. One that no text writes is shown as `?`.
fn push_day(day: Day, out: &mut Vec<u8>) -> Result<(), Cause>
    ensures { OnOk result (out.new.items ≡ out.old.items ++ shown_day day) }
{
    if is_day_number(day) {
        print_date(*out.allocator(), day, out)
    } else {
        out.extend_from_slice(b"?")?;
        Ok(())
    }
}

/// Puts a day.
fn put_day(day: Day, parts: &mut Vec<Part>) -> Result<(), Cause>
    ensures value { OnOk result
        (flat_map part_values parts.new.items ≡ flat_map part_values parts.old.items ++ shown_day day ∷ []) }
{
    let mut text = Vec::new(*parts.allocator());
    push_day(day, &mut text)?;
    put_value(text, parts)
}

/// Appends an amount. One that no text writes is shown as `?`.
fn push_amount(styles: &Styles, unit: Unit, qty: i128, out: &mut Vec<u8>) -> Result<(), Cause>
    ensures value { OnOk result (out.new.items ≡ out.old.items ++ shown_amount styles.now unit qty) }
{
    if let Ok(qty) = i64::try_from(qty) {
        if is_declared(unit, qty, styles) {
            return print_amount(*out.allocator(), unit, qty, styles, out);
        }
    }
    out.extend_from_slice(b"?")?;
    Ok(())
}

/// Puts an amount.
fn put_amount(styles: &Styles, unit: Unit, qty: i128, parts: &mut Vec<Part>) -> Result<(), Cause>
    ensures value { OnOk result (flat_map part_values parts.new.items
        ≡ flat_map part_values parts.old.items ++ shown_amount styles.now unit qty ∷ []) }
{
    let mut text = Vec::new(*parts.allocator());
    push_amount(styles, unit, qty, &mut text)?;
    put_value(text, parts)
}

/// What stands for a status in a header.
fn status_mark(status: Option<Status>) -> &'static [u8]
    ensures { result.now ≡ header_status status }
{
    match status {
        Some(Status::Cleared) => b" *",
        Some(Status::Pending) => b" !",
        None => b"",
    }
}

/// Puts a code in parentheses after a blank, if there is one.
fn put_code(code: &Option<Text>, parts: &mut Vec<Part>) -> Result<(), Cause>
    ensures value { OnOk result
        (flat_map part_values parts.new.items ≡ flat_map part_values parts.old.items ++ option_to_list code.now) }
{
    if let Some(code) = code {
        put_words(b" (", parts)?;
        put_text(code.as_str().as_bytes(), parts)?;
        put_words(b")", parts)?;
    }
    Ok(())
}

/// Puts a description, after a blank unless it is empty.
fn put_description(text: &[u8], parts: &mut Vec<Part>) -> Result<(), Cause>
    ensures value { OnOk result
        (flat_map part_values parts.new.items ≡ flat_map part_values parts.old.items ++ text.now ∷ []) }
{
    if !text.is_empty() {
        put_words(b" ", parts)?;
    }
    put_text(text, parts)
}

/// Puts what the header of a transaction says.
fn put_header(txn: &Txn, parts: &mut Vec<Part>) -> Result<(), Cause>
    ensures value { OnOk result
        (flat_map part_values parts.new.items ≡ flat_map part_values parts.old.items ++ header_values txn.now) }
{
    put_day(txn.day, parts)?;
    put_text(status_mark(txn.status), parts)?;
    put_code(&txn.code, parts)?;
    put_description(txn.description.as_str().as_bytes(), parts)
}

/// Puts a file and a line of it.
fn put_origin(source: &str, line: usize, parts: &mut Vec<Part>) -> Result<(), Cause>
    ensures value { OnOk result (flat_map part_values parts.new.items
        ≡ flat_map part_values parts.old.items ++ origin_values source.now line) }
{
    put_text(source.as_bytes(), parts)?;
    put_words(b":", parts)?;
    put_number(line, parts)?;
    put_words(b": ", parts)
}

/// Puts a piece.
pub(crate) fn put_piece(piece: Piece<'_>, parts: &mut Vec<Part>) -> Result<(), Cause>
    ensures value { OnOk result
        (flat_map part_values parts.new.items ≡ flat_map part_values parts.old.items ++ piece_values piece.entry) }
{
    match piece {
        Piece::Words(words) => put_words(words, parts),
        Piece::Text(text) => put_text(text, parts),
        Piece::Number(number) => put_number(number, parts),
        Piece::Day(day) => put_day(day, parts),
        Piece::Amount(styles, unit, qty) => put_amount(styles, unit, qty, parts),
        Piece::Header(txn) => put_header(txn, parts),
        Piece::Origin(source, line) => put_origin(source, line, parts),
    }
}
