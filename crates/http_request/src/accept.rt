//! In which form a request asks for its reply.
//!
//! Only `application/json` counts, and not `*/*`: browsers and curl send that, and should see no change.

ghost use Rattle.std.specs.Prelude.{◌≡◌, ◌==◌, ◌&&◌, ◌∷◌, length, map, All, codes};
ghost use Rattle.std.specs.List.{list_any, slice_split};
ghost use Rattle.httparse.specs.Spans.{IsHeaderWithin, header_bytes};
ghost use Rattle.http_request.specs.Fields.{is_named, values_of};
ghost use Rattle.http_request.specs.Accept.{is_nought, is_json_type, is_json_in, is_json_range, has_json, form_of};

use crate::call::Form;
use crate::fields::is_named;
use httparse::spans::HeaderSpan;
use journal_lines::trim;
use money_core::first_place;

/// Whether a parameter of a media range is a weight of nought.
#[tactic(auto, unfolding(crate::specs::Accept::is_nought))]
fn is_nought(parameter: &[u8]) -> bool
    ensures { result ≡ is_nought parameter.now }
{
    let weight = trim(parameter);
    is_named(weight, "q=0")
        || is_named(weight, "q=0.")
        || is_named(weight, "q=0.0")
        || is_named(weight, "q=0.00")
        || is_named(weight, "q=0.000")
}

/// Whether one of the parameters is, which `;` divides.
fn has_nought(parameters: &[u8]) -> bool
    ensures { result ≡ list_any is_nought (slice_split (λ b. b == 59) parameters.now) }
{
    parameters
        .split(|byte| *byte == b';')
        .any(|parameter| is_nought(parameter))
}

/// Whether the type of a range is that of JSON.
#[tactic(auto, unfolding(crate::specs::Accept::is_json_type))]
fn is_json_type(kind: &[u8]) -> bool
    ensures { result ≡ is_json_type kind.now }
{
    is_named(trim(kind), "application/json")
}

/// Whether a type is that of JSON, and none of its parameters refuses it.
fn is_json_with(kind: &[u8], parameters: &[u8]) -> bool
    ensures { result ≡ is_json_in (kind.now ∷ slice_split (λ b. b == 59) parameters.now) }
{
    is_json_type(kind) && !has_nought(parameters)
}

/// Whether a media range is that of JSON, and not refused.
fn is_json_range(range: &[u8]) -> bool
    ensures { result ≡ is_json_range range.now }
{
    let at = first_place(range, b';');
    if at < range.len() {
        is_json_with(&range[..at], &range[at + 1..])
    } else {
        is_json_type(range)
    }
}

/// Whether one of the ranges of a value is, which commas divide.
fn has_json_range(value: &[u8]) -> bool
    ensures { result ≡ list_any is_json_range (slice_split (λ b. b == 44) value.now) }
{
    value
        .split(|byte| *byte == b',')
        .any(|range| is_json_range(range))
}

/// Whether a header is `Accept`, and one of its ranges is.
fn is_json_header(buf: &[u8], header: &HeaderSpan) -> bool
    requires { IsHeaderWithin (length buf.now) header.now }
    ensures { result ≡ (is_named (codes "accept") (header_bytes buf.now header.now).0
        && list_any is_json_range (slice_split (λ b. b == 44) (header_bytes buf.now header.now).1)) }
{
    is_named(header.name.of(buf), "accept") && has_json_range(header.value.of(buf))
}

/// Whether one of the ranges of all `Accept` is.
fn has_json(buf: &[u8], headers: &[HeaderSpan]) -> bool
    requires { All (IsHeaderWithin (length buf.now)) headers.now }
    ensures { result ≡ has_json (values_of (codes "accept") (map (header_bytes buf.now) headers.now)) }
{
    match headers.split_first() {
        None => false,
        Some((first, rest)) => {
            if is_json_header(buf, first) {
                true
            } else {
                has_json(buf, rest)
            }
        }
    }
}

/// The form that a request with these headers asks for: JSON where one of the ranges of its `Accept` is
/// `application/json`, in whatever case, and no weight of nought stands after it.
pub fn form_of(buf: &[u8], headers: &[HeaderSpan]) -> Form
    requires { All (IsHeaderWithin (length buf.now)) headers.now }
    ensures { result ≡ form_of (map (header_bytes buf.now) headers.now) }
{
    if has_json(buf, headers) {
        Form::Json
    } else {
        Form::Text
    }
}
