//! The parts of an amount: a sign, a symbol and a number.

ghost use Rattle.std.specs.Prelude.{◌≡◌, ◌==◌, ◌<◌, ◌≤◌, ◌+◌, not, drop, take, length, slice_index};
ghost use Rattle.std.specs.Option.{option_map};
ghost use Rattle.money_core.specs.declared.class.Class.TheVariants.{Blank};
ghost use Rattle.money_core.specs.Cutting.{end_of, sign_of, is_signed, unsigned, left_number, left_parts, right_symbol};
ghost use Rattle.money_core.specs.Cutting.{right_parts, amount_parts};
ghost use Rattle.money_core.specs.Views.{parts_view};

use crate::bytes::{behind, first_byte};
use crate::class::{Class, end_of, skip_blanks};
use crate::symbol::cut_symbol;

/// The sign of an amount.
#[derive(Clone, Copy, PartialEq, Eq)]
pub enum Sign {
    Absent,
    Plus,
    Minus,
}

/// The parts of an amount; the symbol is without quotes, the number without sign.
#[derive(Clone, Copy)]
pub struct Parts<'a> {
    pub sign: Sign,
    /// Whether the symbol stands on the left.
    pub left: bool,
    /// Whether blanks stand between symbol and number.
    pub spaced: bool,
    pub symbol: &'a [u8],
    pub number: &'a [u8],
}

impl Sign {
    /// The sign that a byte is.
    fn of(byte: u8) -> Self
        ensures { result ≡ sign_of byte }
    {
        match byte {
            b'-' => Sign::Minus,
            b'+' => Sign::Plus,
            _ => Sign::Absent,
        }
    }

    /// Whether there is one.
    pub fn is_signed(self) -> bool
        ensures { result ≡ is_signed self }
    {
        match self {
            Sign::Absent => false,
            Sign::Plus | Sign::Minus => true,
        }
    }
}

/// What follows a sign at the front, and its blanks.
fn unsigned(text: &[u8]) -> &[u8]
    ensures { result.now ≡ unsigned text.now }
{
    if Sign::of(first_byte(text)).is_signed() {
        skip_blanks(behind(text, 1))
    } else {
        text
    }
}

/// Whether the text begins with blanks.
fn is_spaced(text: &[u8]) -> bool
    ensures { result ≡ not (end_of Blank text.now == 0) }
{
    end_of(text, Class::Blank) != 0
}

/// The parts of an amount whose symbol was cut on the left, after that sign.
fn left_number<'a>(sign: Sign, symbol: &'a [u8], rest: &'a [u8]) -> Parts<'a>
    ensures { parts_view result ≡ left_number sign symbol.now rest.now }
{
    let number = skip_blanks(rest);
    if sign.is_signed() {
        Parts {
            sign,
            left: true,
            spaced: is_spaced(rest),
            symbol,
            number,
        }
    } else {
        Parts {
            sign: Sign::of(first_byte(number)),
            left: true,
            spaced: is_spaced(rest),
            symbol,
            number: unsigned(number),
        }
    }
}

#[tactic(auto, unfolding(crate::specs::Cutting::left_parts))]
fn left_parts(sign: Sign, text: &[u8]) -> Option<Parts<'_>>
    ensures { option_map parts_view result ≡ left_parts sign text.now }
{
    let cut = cut_symbol(text)?;
    Some(left_number(sign, cut.symbol, cut.rest))
}

#[tactic(auto, unfolding(crate::specs::Cutting::right_symbol))]
fn right_symbol<'a>(sign: Sign, number: &'a [u8], rest: &'a [u8]) -> Option<Parts<'a>>
    ensures { option_map parts_view result ≡ right_symbol sign number.now rest.now }
{
    let cut = cut_symbol(skip_blanks(rest))?;
    if cut.rest.is_empty() {
        Some(Parts {
            sign,
            left: false,
            spaced: is_spaced(rest),
            symbol: cut.symbol,
            number,
        })
    } else {
        None
    }
}

fn right_parts(sign: Sign, text: &[u8]) -> Option<Parts<'_>>
    ensures { option_map parts_view result ≡ right_parts sign text.now }
{
    let end = end_of(text, Class::Number);
    right_symbol(sign, &text[..end], behind(text, end))
}

/// The parts of an amount, where the text has its form up to the number.
#[tactic(auto, unfolding(crate::specs::Cutting::amount_parts))]
pub fn amount_parts(text: &[u8]) -> Option<Parts<'_>>
    ensures { option_map parts_view result ≡ amount_parts text.now }
{
    let sign = Sign::of(first_byte(text));
    let body = unsigned(text);
    let first = first_byte(body);
    if Class::Symbol.has(first) || first == b'"' {
        left_parts(sign, body)
    } else {
        right_parts(sign, body)
    }
}
