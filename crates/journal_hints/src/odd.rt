//! Amounts whose group mark does not stand before exactly three digits: a decimal mark may have been meant.

ghost use Rattle.std.specs.Prelude.{◌≡◌, slice_index};
ghost use Rattle.std.specs.Char.{is_ascii_digit};
ghost use Rattle.std.specs.Option.{option_map};
ghost use Rattle.journal_hints.specs.OddAmount.{seen_with, has_three, is_odd_mark, is_odd_amount};
ghost use Rattle.journal_hints.specs.OddAmount.{text_if_utf8, if_odd, odd_amount, odd_price};

use money_core::{Price, Styles, Unit, read_amount, read_price};

/// What stands before a byte.
#[derive(Clone, Copy)]
struct Seen {
    /// Whether the byte stands in quotes.
    quoted: bool,
    /// Whether a zero, and another digit, stand outside quotes.
    zero: bool,
    other: bool,
}

/// What an odd text was read as.
#[derive(Clone, Copy)]
pub enum ReadAs {
    Amount(Unit, i64),
    Cost(Price),
}

/// An odd text of a posting: its amount, its cost or its asserted balance.
#[derive(Clone, Copy)]
pub struct Odd<'a> {
    /// The number of its line.
    pub line: usize,
    pub text: &'a [u8],
    pub read: ReadAs,
}

/// What stands before the next byte.
fn seen_with(seen: Seen, byte: u8) -> Seen
    ensures { result ≡ seen_with seen byte }
{
    Seen {
        quoted: if byte == b'"' {
            !seen.quoted
        } else {
            seen.quoted
        },
        zero: seen.zero || (!seen.quoted && byte == b'0'),
        other: seen.other || (!seen.quoted && (byte.is_ascii_digit() && byte != b'0')),
    }
}

/// Whether a digit stands at that place.
fn is_digit_at(text: &[u8], place: usize) -> bool
    ensures { result ≡ is_ascii_digit (slice_index text.now place) }
{
    match text.get(place) {
        Some(byte) => byte.is_ascii_digit(),
        None => false,
    }
}

/// Whether exactly three digits stand at the front.
fn has_three(rest: &[u8]) -> bool
    ensures { result ≡ has_three rest.now }
{
    is_digit_at(rest, 0) && is_digit_at(rest, 1) && is_digit_at(rest, 2) && !is_digit_at(rest, 3)
}

/// Whether a group mark that stands between these is odd.
fn is_odd_mark(seen: Seen, rest: &[u8]) -> bool
    ensures { result ≡ is_odd_mark seen rest.now }
{
    (seen.zero && !seen.other) || !has_three(rest)
}

/// Whether a group mark stands in a number otherwise than before exactly three digits, or after nothing but zeros.
#[tactic(auto, unfolding(crate::specs::OddAmount::is_odd_from))]
fn is_odd(text: &[u8], group: u8) -> bool
    ensures { result ≡ is_odd_amount group text.now }
{
    let mut seen = Seen {
        quoted: false,
        zero: false,
        other: false,
    };
    for (at, byte) in text.iter().enumerate() {
        if *byte == group && !seen.quoted && is_odd_mark(seen, &text[at + 1..]) {
            return true;
        }
        seen = seen_with(seen, *byte);
    }
    false
}

/// The text, if it is UTF-8.
fn text_in(text: &[u8]) -> Option<&str>
    ensures { option_map (λ t. t.now) result ≡ text_if_utf8 text.now }
{
    match str::from_utf8(text) {
        Ok(text) => Some(text),
        Err(_) => None,
    }
}

/// What a text was read as, if it is odd in the style of that commodity.
fn if_odd(styles: &Styles, unit: Unit, text: &str, read: ReadAs) -> Option<ReadAs>
    ensures { result ≡ if_odd styles.now unit text.now read }
{
    match styles.style(unit) {
        Some(style) if is_odd(text.as_bytes(), style.mark.group()) => Some(read),
        _ => None,
    }
}

/// What a text was read as, if it is an amount, and odd.
#[tactic(auto, unfolding(crate::specs::OddAmount::odd_amount))]
pub fn odd_amount(styles: &Styles, text: &[u8]) -> Option<ReadAs>
    ensures { result ≡ odd_amount styles.now text.now }
{
    let Some(text) = text_in(text) else {
        return None
    };
    match read_amount(text, styles) {
        Ok((unit, qty)) => if_odd(styles, unit, text, ReadAs::Amount(unit, qty)),
        Err(_) => None,
    }
}

/// What a text was read as, if it is a cost, and odd.
#[tactic(auto, unfolding(crate::specs::OddAmount::odd_price))]
pub fn odd_price(styles: &Styles, text: &[u8]) -> Option<ReadAs>
    ensures { result ≡ odd_price styles.now text.now }
{
    let Some(text) = text_in(text) else {
        return None
    };
    match read_price(text, styles) {
        Ok(price) => if_odd(styles, price.unit(), text, ReadAs::Cost(price)),
        Err(_) => None,
    }
}
