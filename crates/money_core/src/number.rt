//! Numbers as texts.

ghost use Rattle.std.specs.Prelude.{◌≡◌, ◌↔◌, ◌+◌, ◌*◌, ◌-◌, ◌^◌, ◌<◌, ◌≤◌, ◌++◌, filter, take, replicate, min, length};
ghost use Rattle.std.specs.Prelude.{IsTrue, MatchOption};
ghost use Rattle.std.specs.List.{position_or_len, list_all, slice_split};
ghost use Rattle.std.specs.Prelude.{◌==◌, true, position, slice_index};
ghost use Rattle.std.specs.Char.{is_ascii_digit, digit_value};
ghost use Rattle.std.specs.Str.Parse.{digits_value};
ghost use Rattle.money_core.specs.Number.{is_group, is_whole, is_number, whole_part, fraction_part, fits_decimals};
ghost use Rattle.money_core.specs.Number.{quantity, unit_digits};

use crate::bytes::first_place;
use crate::mark::Mark;

/// The greatest quantity that a text may write, in smallest units.
pub const LIMIT: u64 = 10_000_000_000_000_000;

/// One more than any quantity that a text may write.
const TOO_GREAT: u64 = LIMIT + 1;

/// Whether each byte is a digit.
fn all_digits(text: &[u8]) -> bool
    ensures { result ≡ list_all is_ascii_digit text.now }
{
    text.iter().all(|b| b.is_ascii_digit())
}

/// Whether the text is one or more digits.
fn is_group(text: &[u8]) -> bool
    ensures { result ≡ is_group text.now }
{
    if text.is_empty() {
        false
    } else {
        all_digits(text)
    }
}

/// Whether each part between two of those bytes is a group.
fn all_groups(text: &[u8], byte: u8) -> bool
    ensures { result ≡ list_all is_group (slice_split (λ b. b == byte) text.now) }
{
    text.split(|b| *b == byte).all(|part| is_group(part))
}

/// Whether the text is a whole part, with that mark between its groups.
fn is_whole(text: &[u8], group: u8) -> bool
    ensures { result ≡ is_whole group text.now }
{
    if text.is_empty() {
        true
    } else {
        all_groups(text, group)
    }
}

/// What stands before the decimal mark.
pub fn whole_part(text: &[u8], mark: Mark) -> &[u8]
    ensures { result.now ≡ whole_part mark text.now }
{
    let at = first_place(text, mark.decimal());
    &text[..at]
}

/// What stands after the decimal mark.
pub fn fraction_part(text: &[u8], mark: Mark) -> &[u8]
    ensures { result.now ≡ fraction_part mark text.now }
{
    let at = first_place(text, mark.decimal());
    if at < text.len() {
        &text[at + 1..]
    } else {
        &text[at..]
    }
}

/// Whether the text is a number with that decimal mark.
pub fn is_number(text: &[u8], mark: Mark) -> bool
    ensures { result ≡ is_number mark text.now }
{
    let whole = whole_part(text, mark);
    let fraction = fraction_part(text, mark);
    if whole.is_empty() && fraction.is_empty() {
        return false;
    }
    is_whole(whole, mark.group()) && all_digits(fraction)
}

/// Whether the decimals past the declared ones are zeros.
pub fn fits_decimals(fraction: &[u8], decimals: usize) -> bool
    ensures { result ≡ fits_decimals decimals fraction.now }
{
    fraction.iter().skip(decimals).all(|b| *b == b'0')
}

/// Ten times the value, and the digit, or one more than the limit where that is over it.
fn push_digit(value: u64, digit: u8) -> u64
    requires digit { is_ascii_digit digit ≡ true }
    requires value { value ≤ TOO_GREAT }
    ensures { result ≡ min (value * 10 + digit_value digit) TOO_GREAT }
{
    (value * 10 + u64::from(digit - b'0')).min(TOO_GREAT)
}

/// The number that the digits of the text write, other bytes left out, or one more than the limit.
fn whole_value(text: &[u8]) -> u64
    ensures { result ≡ min (digits_value 10 (filter is_ascii_digit text.now)) TOO_GREAT }
{
    let mut value = 0;
    for byte in text {
        if byte.is_ascii_digit() {
            value = push_digit(value, *byte);
        }
    }
    value
}

/// The digit at that place of the fraction; past its end, zero.
fn decimal_at(fraction: &[u8], place: usize, decimals: usize) -> u8
    requires digits { list_all is_ascii_digit fraction.now ≡ true }
    requires place { place < decimals }
    ensures digit { is_ascii_digit result ≡ true }
    ensures value { result ≡ slice_index (fraction.now ++ replicate decimals 48) place }
{
    if place < fraction.len() {
        fraction[place]
    } else {
        b'0'
    }
}

/// The quantity in smallest units, or one more than the limit where it is over it.
pub fn quantity(whole: &[u8], fraction: &[u8], decimals: usize) -> u64
    requires { list_all is_ascii_digit fraction.now ≡ true }
    ensures { result ≡ min (digits_value 10 (unit_digits decimals whole.now fraction.now)) TOO_GREAT }
{
    let mut value = whole_value(whole);
    for place in 0..decimals {
        let digit = decimal_at(fraction, place, decimals);
        value = push_digit(value, digit);
    }
    value
}
