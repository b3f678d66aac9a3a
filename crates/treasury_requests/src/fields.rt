//! What is given at the keys of a request, how each is read, and what a word lacks.

ghost use Rattle.std.specs.Prelude.{◌≡◌, ◌⊎◌, List, ℕ, Option, Some, None, Err, IfOk, IfErr, IfSome, option_map, not};
ghost use Rattle.std.specs.Prelude.{is_some, find};
ghost use Rattle.std.specs.List.{list_any};
ghost use Rattle.journal_lines.specs.Date.{IsDayNumber};
ghost use Rattle.treasury_requests.specs.declared.words.Key.{Key};
ghost use Rattle.treasury_requests.specs.Request.{day_by, further_day, is_undated, part_by, request_by, HasDayNumbers};
ghost use Rattle.treasury_requests.specs.Lacking.{is_missing, is_half};

use crate::bytes::Bytes;
use crate::request::WrittenPart;
use crate::words::{Key, Word};
use journal_lines::read_date;
use money_core::{Cause, Day, Text};
use std::alloc::Global;

/// What is given at the keys of a request: by an object of JSON, by arguments, or by whatever else spells it.
pub trait Fields {
    /// What is given at each key.
    ghost given: { Self → Key → Option (List ℕ) };

    /// The text at a key, if there is one.
    fn text(&self, key: Key) -> Option<&str>
        ensures { option_map (λ s. s.now) result ≡ given self.now key };
}

/// The text at a key that has to be there.
pub(crate) fn needed<F: Fields>(alloc: Global, fields: &F, key: Key) -> Result<Text, Cause>
    ensures ok { IfOk result (λ text. F.given fields.now key ≡ Some text) }
    ensures refused { result ≡ Err Cause.Request → F.given fields.now key ≡ None }
    ensures causes { IfErr result (λ cause. (cause ≡ Cause.Request) ⊎ (cause ≡ Cause.OutOfMemory)) }
{
    match fields.text(key) {
        Some(text) => Text::of(alloc, text),
        None => Err(Cause::Request),
    }
}

/// The text at a key that may be there.
pub(crate) fn further<F: Fields>(alloc: Global, fields: &F, key: Key) -> Result<Option<Text>, Cause>
    ensures ok { IfOk result (λ text. F.given fields.now key ≡ text) }
    ensures causes { IfErr result (λ cause. cause ≡ Cause.OutOfMemory) }
{
    match fields.text(key) {
        Some(text) => {
            let text = Text::of(alloc, text)?;
            Ok(Some(text))
        }
        None => Ok(None),
    }
}

/// The bytes of the journal, which has to be there.
pub(crate) fn journal<F: Fields>(alloc: Global, fields: &F) -> Result<Bytes, Cause>
    ensures ok { IfOk result (λ bytes. F.given fields.now Key.Journal ≡ Some bytes) }
    ensures refused { result ≡ Err Cause.Request → F.given fields.now Key.Journal ≡ None }
    ensures causes { IfErr result (λ cause. (cause ≡ Cause.Request) ⊎ (cause ≡ Cause.OutOfMemory)) }
{
    match fields.text(Key::Journal) {
        Some(text) => Bytes::of(alloc, text.as_bytes()),
        None => Err(Cause::Request),
    }
}

/// The day, which has to be there.
pub(crate) fn day<F: Fields>(fields: &F) -> Result<Day, Cause>
    ensures ok { IfOk result (λ day. day_by (F.given fields.now) ≡ Some day) }
    ensures range { IfOk result IsDayNumber }
    ensures refused { result ≡ Err Cause.Request → day_by (F.given fields.now) ≡ None }
    ensures causes { IfErr result (λ cause. cause ≡ Cause.Request) }
{
    let Some(text) = fields.text(Key::Day) else {
        return Err(Cause::Request);
    };
    match read_date(text.as_bytes()) {
        Some(day) => Ok(day),
        None => Err(Cause::Request),
    }
}

/// The day at a key that may be there.
pub(crate) fn further_day<F: Fields>(fields: &F, key: Key) -> Result<Option<Day>, Cause>
    ensures ok { IfOk result (λ day. further_day (F.given fields.now key) ≡ Some day) }
    ensures range { IfOk result (λ day. IfSome day IsDayNumber) }
    ensures refused { result ≡ Err Cause.Request → further_day (F.given fields.now key) ≡ None }
    ensures causes { IfErr result (λ cause. cause ≡ Cause.Request) }
{
    let Some(text) = fields.text(key) else {
        return Ok(None);
    };
    match read_date(text.as_bytes()) {
        Some(day) => Ok(Some(day)),
        None => Err(Cause::Request),
    }
}

/// The part, if one is given: its key and its amount are both there, or neither.
pub(crate) fn part<F: Fields>(alloc: Global, fields: &F) -> Result<Option<WrittenPart>, Cause>
    ensures ok { IfOk result (λ part. part_by (F.given fields.now) ≡ Some part) }
    ensures refused { result ≡ Err Cause.Request → part_by (F.given fields.now) ≡ None }
    ensures causes { IfErr result (λ cause. (cause ≡ Cause.Request) ⊎ (cause ≡ Cause.OutOfMemory)) }
{
    let key = further(alloc, fields, Key::Part)?;
    let amount = further(alloc, fields, Key::Amount)?;
    match (key, amount) {
        (None, None) => Ok(None),
        (Some(key), Some(amount)) => Ok(Some(WrittenPart { key, amount })),
        _ => Err(Cause::Request),
    }
}

/// Whether a key that a word needs is missing, or has a day that is no date.
fn is_missing<F: Fields>(fields: &F, key: Key) -> bool
    ensures { result ≡ is_missing (F.given fields.now) key }
{
    match fields.text(key) {
        Some(text) => matches!(key, Key::Day) && read_date(text.as_bytes()).is_none(),
        None => true,
    }
}

/// Whether one of the keys is missing.
fn is_one_missing<F: Fields>(fields: &F, keys: &[Key]) -> bool
    ensures { result ≡ list_any (is_missing (F.given fields.now)) keys.now }
{
    keys.iter().any(|key| is_missing(fields, *key))
}

/// Whether what is given at the key of a day is no date.
fn is_undated<F: Fields>(fields: &F, word: Word, key: Key) -> bool
    ensures { result ≡ is_undated word (F.given fields.now) key }
{
    match fields.text(key) {
        Some(text) => word.has_day_at(key) && read_date(text.as_bytes()).is_none(),
        None => false,
    }
}

/// The first of some keys of days at which no date is given.
pub(crate) fn first_undated<F: Fields>(fields: &F, word: Word, keys: &[Key]) -> Option<Key>
    ensures { result ≡ find (is_undated word (F.given fields.now)) keys.now }
{
    keys.iter()
        .copied()
        .find(|key| is_undated(fields, word, *key))
}

/// Whether of a part only the key or the amount is given.
fn is_half<F: Fields>(fields: &F) -> bool
    ensures { result ≡ is_half (F.given fields.now) }
{
    fields.text(Key::Part).is_some() != fields.text(Key::Amount).is_some()
}

/// Whether what is given at the keys makes no request of the word. It takes no memory.
#[tactic(auto, using(crate::proofs::TableLemmas::lacks_iff))]
pub fn lacks<F: Fields>(word: Word, fields: &F) -> bool
    ensures { result ≡ not (is_some (request_by word (F.given fields.now))) }
{
    let is_receipt = matches!(word, Word::Receive);
    let row = word.row();
    (is_receipt && is_half(fields))
        || first_undated(fields, word, row.further).is_some()
        || is_one_missing(fields, row.needed)
}
