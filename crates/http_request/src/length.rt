//! How long a request's body is.

ghost use Rattle.std.specs.Prelude.{◌≡◌, ◌≤◌, ◌*◌, ◌+◌, ◌∷◌, [], true, min, length, map, All};
ghost use Rattle.std.specs.List.{list_all};
ghost use Rattle.std.specs.Char.{is_ascii_digit, digit_value};
ghost use Rattle.std.specs.Str.Parse.{digits_value};
ghost use Rattle.httparse.specs.Spans.{IsHeaderWithin, header_bytes};
ghost use Rattle.http_request.specs.Length.{is_decimal, length_in, body_length};

use crate::fields::{Values, values_of};
use httparse::spans::HeaderSpan;

/// The most bytes of a body.
pub const MAX_BODY: usize = 8 * 1024 * 1024;

/// Stands for every length over the limit.
const TOO_LONG: usize = MAX_BODY + 1;

/// Whether all bytes are decimal digits.
pub fn all_digits(digits: &[u8]) -> bool
    ensures { result ≡ list_all is_ascii_digit digits.now }
{
    digits.iter().all(|digit| digit.is_ascii_digit())
}

/// Whether the bytes are decimal digits, one or more.
fn is_decimal(digits: &[u8]) -> bool
    ensures { result ≡ is_decimal digits.now }
{
    !digits.is_empty() && all_digits(digits)
}

/// Ten times the value, and the digit, or one more than the limit where that is over it.
fn push_digit(value: usize, digit: u8) -> usize
    requires digit { is_ascii_digit digit ≡ true }
    requires value { value ≤ TOO_LONG }
    ensures { result ≡ min (value * 10 + digit_value digit) TOO_LONG }
{
    (value * 10 + usize::from(digit - b'0')).min(TOO_LONG)
}

/// The number that the digits write, or one more than the limit where it is over it.
fn value_of(digits: &[u8]) -> usize
    requires { list_all is_ascii_digit digits.now ≡ true }
    ensures { result ≡ min (digits_value 10 digits.now) TOO_LONG }
{
    let mut value = 0;
    for digit in digits {
        value = push_digit(value, *digit);
    }
    value
}

/// The length that one `Content-Length` says, of decimal digits and at most 8 MiB.
fn length_in(digits: &[u8]) -> Option<usize>
    ensures { result ≡ length_in (digits.now ∷ []) }
{
    if !is_decimal(digits) {
        return None;
    }
    match value_of(digits) {
        TOO_LONG => None,
        length => Some(length),
    }
}

/// How long the body is: as the one `Content-Length` says, of decimal digits and at most 8 MiB, where there is no
/// `Transfer-Encoding`.
pub fn body_length(buf: &[u8], headers: &[HeaderSpan]) -> Option<usize>
    requires { All (IsHeaderWithin (length buf.now)) headers.now }
    ensures { result ≡ body_length (map (header_bytes buf.now) headers.now) }
{
    match values_of(buf, headers, "transfer-encoding") {
        Values::None => {}
        _ => return None,
    }
    match values_of(buf, headers, "content-length") {
        Values::One(digits) => length_in(digits),
        _ => None,
    }
}
