//! Requests out of JSON.

ghost use Rattle.std.specs.Prelude.{◌≡◌, ◌⊎◌, Some, None, Err, IfOk, IfErr};
ghost use Rattle.serde_json.specs.View.{view};
ghost use Rattle.treasury_requests.specs.Request.{yes_or_no, terms_by, word_in, request_of, spelled, HasDayNumbers};
ghost use Rattle.treasury_requests.specs.Required.{KeepsRequired};

use crate::fields::Fields;
use crate::keys::{has_form, text_at};
use crate::request::{Spelled, Terms, request_by};
use crate::words::{Key, Word, word_named};
use journal_lines::read_count;
use money_core::Cause;
use serde_json::Value;
use std::alloc::Global;

/// Whether a text says that it is a dry run: `yes` or `no`.
pub(crate) fn yes_or_no(text: &str) -> Option<bool>
    ensures { result ≡ yes_or_no text.now }
{
    match text {
        "yes" => Some(true),
        "no" => Some(false),
        _ => None,
    }
}

/// The terms that the keys for them give.
fn terms_by<F: Fields>(fields: &F) -> Option<Terms>
    ensures { result ≡ terms_by (F.given fields.now) }
{
    let is_dry_run = match fields.text(Key::DryRun) {
        Some(text) => yes_or_no(text)?,
        None => false,
    };
    let if_entries = match fields.text(Key::IfEntries) {
        Some(text) => Some(read_count(text.as_bytes())?),
        None => None,
    };
    Some(Terms {
        is_dry_run,
        if_entries,
    })
}

/// The word that stands at `do`.
fn word_in(value: &Value) -> Option<Word>
    ensures { result ≡ word_in (view value.now) }
{
    let text = text_at(value, "do")?;
    word_named(text)
}

/// The request that a value is, and on what terms. Answers 44 and 40 as `read_command` does.
pub(crate) fn spelled_in(alloc: Global, value: &Value) -> Result<Spelled, Cause>
    ensures ok { IfOk result (λ spelled. request_of (view value.now) ≡ Some spelled) }
    ensures days { IfOk result (λ spelled. HasDayNumbers spelled.request) }
    ensures refused { result ≡ Err Cause.Request → request_of (view value.now) ≡ None }
    ensures causes { IfErr result (λ cause. (cause ≡ Cause.Request) ⊎ (cause ≡ Cause.OutOfMemory)) }
{
    let Some(word) = word_in(value) else {
        return Err(Cause::Request);
    };
    if !has_form(value, word) {
        return Err(Cause::Request);
    }
    let Some(terms) = terms_by(value) else {
        return Err(Cause::Request);
    };
    let request = request_by(alloc, word, value)?;
    Ok(Spelled { request, terms })
}

/// The request that a text spells, and on what terms.
///
/// 44 comes only where the text is no JSON object of a request's form, and 40 where there is no memory to read it.
#[tactic(auto, unfolding(crate::specs::Request::spelled))]
pub fn read_command(alloc: Global, text: &str) -> Result<Spelled, Cause>
    ensures ok { IfOk result (λ request. spelled text.now ≡ Some request) }
    ensures days { IfOk result (λ spelled. HasDayNumbers spelled.request) }
    ensures refused { result ≡ Err Cause.Request → spelled text.now ≡ None }
    ensures causes { IfErr result (λ cause. (cause ≡ Cause.Request) ⊎ (cause ≡ Cause.OutOfMemory)) }
    ensures required { KeepsRequired text.now result }
{
    let value = match Value::from_str(alloc, text) {
        Ok(value) => value,
        Err(error) => {
            return if error.is_memory() {
                Err(Cause::OutOfMemory)
            } else {
                Err(Cause::Request)
            };
        }
    };
    spelled_in(alloc, &value)
}

/// The request that the bytes of a line spell, as `read_command` reads it; bytes that are not UTF-8 spell none. Answers
/// 40 as it does.
pub fn read_line(alloc: Global, line: &[u8]) -> Result<Spelled, Cause>
    ensures ok { IfOk result (λ request. spelled line.now ≡ Some request) }
    ensures days { IfOk result (λ spelled. HasDayNumbers spelled.request) }
    ensures refused { result ≡ Err Cause.Request → spelled line.now ≡ None }
    ensures causes { IfErr result (λ cause. (cause ≡ Cause.Request) ⊎ (cause ≡ Cause.OutOfMemory)) }
    ensures required { KeepsRequired line.now result }
{
    match str::from_utf8(line) {
        Ok(text) => match read_command(alloc, text) {
            Ok(spelled) => Ok(spelled),
            Err(cause) => Err(cause),
        },
        Err(_) => Err(Cause::Request),
    }
}
