//! The query of a request's target, and the keys of a report that it gives.
//!
//! `&` and `%` have to be told from what divides a query, so keys and values are percent-decoded (RFC 3986). A `+` is
//! a plus: forms write a blank so, but an account may have a `+`, and a query is no form. An unknown key is refused,
//! since a misspelt `tag` would show more than was asked for; so is one that is there twice, since nobody can say
//! which counts.

ghost use Rattle.std.specs.Prelude.{◌≡◌, IfOk, option_copied};
ghost use Rattle.std.specs.Result.{IsOkUnless};
ghost use Rattle.treasury_requests.specs.Keys.{keys_of};
ghost use Rattle.http_request.specs.Routes.{pieces_at};
ghost use Rattle.http_request.specs.Query.{query_of, begins_with_digits, is_escaped, decoded, piece_given};
ghost use Rattle.http_request.specs.Query.{pieces_given, has_needed, with_query};

use crate::routes::cut;
use money_core::{Cause, Items, Text};
use percent_encoding::percent_decode_str;
use std::alloc::Global;
use treasury_requests::{Fields, Given, Word, key_named};

/// The target after its first question mark; nothing where there is none.
pub fn query_of(target: &str) -> &str
    ensures { result.now ≡ query_of target.now }
{
    match target.split_once('?') {
        Some((_path, query)) => query,
        None => "",
    }
}

/// Whether two hexadecimal digits stand in front.
fn begins_with_digits(text: &[u8]) -> bool
    ensures { result ≡ begins_with_digits text.now }
{
    match text {
        [high, low, ..] => high.is_ascii_hexdigit() && low.is_ascii_hexdigit(),
        _ => false,
    }
}

/// Whether each `%` has two hexadecimal digits after it.
fn is_escaped(text: &[u8]) -> bool
    ensures { result ≡ is_escaped text.now }
{
    let mut rest = text;
    'checking: while let Some((byte, behind)) = rest.split_first() {
        if *byte == b'%' && !begins_with_digits(behind) {
            return false;
        }
        rest = behind;
    }
    true
}

/// The text that is written with escapes; `None` where a `%` lacks digits, or where its bytes are not UTF-8.
fn decoded(alloc: Global, written: &str) -> Result<Option<Text>, Cause>
    ensures value { IfOk result (λ text. text ≡ decoded written.now) }
    ensures memory { IsOkUnless result Cause.OutOfMemory }
{
    if !is_escaped(written.as_bytes()) {
        return Ok(None);
    }
    let mut bytes = Vec::new(alloc);
    match percent_decode_str(written).append_to(&mut bytes) {
        Ok(()) => {}
        Err(_) => return Err(Cause::OutOfMemory),
    }
    match str::from_utf8(&bytes) {
        Ok(text) => {
            let text = Text::of(alloc, text)?;
            Ok(Some(text))
        }
        Err(_) => Ok(None),
    }
}

/// What a piece of a query gives: a key that the request of the word may have, `=` and its text, both with escapes.
fn piece_given(alloc: Global, word: Word, piece: &str) -> Result<Option<Given>, Cause>
    ensures value { IfOk result (λ given. given ≡ piece_given (keys_of word) piece.now) }
    ensures memory { IsOkUnless result Cause.OutOfMemory }
{
    let Some((name, text)) = piece.split_once('=') else {
        return Ok(None);
    };
    let Some(name) = decoded(alloc, name)? else {
        return Ok(None);
    };
    let Some(key) = key_named(word, name.as_str()) else {
        return Ok(None);
    };
    match decoded(alloc, text) {
        Ok(Some(text)) => Ok(Some(Given { key, text })),
        Ok(None) => Ok(None),
        Err(cause) => Err(cause),
    }
}

/// What the pieces of a query give beside what is given: `None` where one gives nothing, or a key is given twice.
fn pieces_given(
    alloc: Global,
    word: Word,
    pieces: Option<&str>,
    given: Items<Given>,
) -> Result<Option<Items<Given>>, Cause>
    ensures value { IfOk result (λ found.
        found ≡ pieces_given (keys_of word) given (pieces_at 38 (option_copied pieces.entry))) }
    ensures memory { IsOkUnless result Cause.OutOfMemory }
{
    let Some(pieces) = pieces else {
        return Ok(Some(given));
    };
    let (piece, rest) = cut(pieces, b'&');
    match piece_given(alloc, word, piece) {
        Ok(Some(more)) if given.text(more.key).is_none() => {
            let mut given = given;
            given.push(more)?;
            pieces_given(alloc, word, rest, given)
        }
        Ok(_) => Ok(None),
        Err(cause) => Err(cause),
    }
}

/// Whether all is given that the word needs.
fn has_needed(word: Word, given: &Items<Given>) -> bool
    ensures { result ≡ has_needed word given.now }
{
    word.row()
        .needed
        .iter()
        .all(|key| given.text(*key).is_some())
}

/// What a path gives together with a query; `None` where they do not give the keys of the word's request, each once.
///
/// Where the path gives all of them, the query is not looked at.
#[tactic(auto, unfolding(crate::specs::Query::with_query))]
pub fn with_query(
    alloc: Global,
    word: Word,
    given: Items<Given>,
    query: &str,
) -> Result<Option<Items<Given>>, Cause>
    ensures value { IfOk result (λ found. found ≡ with_query word given query.now) }
    ensures memory { IsOkUnless result Cause.OutOfMemory }
{
    let row = word.row();
    if given.items().len() == row.needed.len() + row.further.len() {
        return Ok(Some(given));
    }
    match pieces_given(alloc, word, Some(query), given) {
        Ok(Some(given)) if has_needed(word, &given) => Ok(Some(given)),
        Ok(_) => Ok(None),
        Err(cause) => Err(cause),
    }
}
