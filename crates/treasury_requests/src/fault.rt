//! Why a text is no request: the first fault, by docs/FORMATS.md, "Requests".

ghost use Rattle.std.specs.Prelude.{◌≡◌, IfOk, find, option_copied, option_map};
ghost use Rattle.std.specs.Result.{IsOkUnless};
ghost use Rattle.serde_json.specs.View.{view};
ghost use Rattle.treasury_requests.specs.Words.{all_words, is_word_named};
ghost use Rattle.treasury_requests.specs.Keys.{given_in, keys_of, lacks_key, is_odd};
ghost use Rattle.treasury_requests.specs.Request.{is_undated};
ghost use Rattle.treasury_requests.specs.RequestFault.{kind_of_data, odd_kind_at, missing_fault, odd_fault_in};
ghost use Rattle.treasury_requests.specs.RequestFault.{odd_fault, date_fault, half_fault, choice_fault, own_text_at};
ghost use Rattle.treasury_requests.specs.RequestFault.{count_fault, keys_fault, word_fault, value_fault};
ghost use Rattle.treasury_requests.specs.RequestFault.{IsFirstRequestFault};

use crate::fields::{Fields, first_undated};
use crate::keys::{has_key, is_odd, may_have, other_key, text_at};
use crate::reading::{spelled_in, yes_or_no};
use crate::words::{Key, Word, word_named};
use journal_lines::read_count;
use money_core::{Cause, Text};
use serde_json::Value;
use std::alloc::Global;

/// What a JSON value is.
#[derive(Clone, Copy, Debug, Drop)]
pub enum Kind {
    Null,
    Boolean,
    Number,
    String,
    Array,
    Object,
}

/// Why a text is no request. Places are counted from 1.
#[derive(Debug, Drop)]
pub enum RequestFault {
    /// The bytes are no UTF-8 from this one on.
    NotUtf8 {
        byte: usize,
    },
    /// The text is no JSON: at this byte of that line it cannot go on so, or it ends before it is whole.
    NotJson {
        line: usize,
        byte: usize,
        is_cut_off: bool,
    },
    /// The value is no object.
    NotAnObject {
        kind: Kind,
    },
    /// There is no key `do`.
    NoWord,
    /// The value of `do` is no string.
    WordOfKind {
        kind: Kind,
    },
    /// The value of `do` is none of the words.
    UnknownWord {
        text: Text,
    },
    /// A key is missing that the request of the word needs. If it also has one that it may not have, that is the first
    /// such.
    MissingKey {
        word: Word,
        key: Key,
        other: Option<Text>,
    },
    /// The value of a key is no string.
    ValueOfKind {
        key: Key,
        kind: Kind,
    },
    /// The value of the key of a day is no date.
    NoDate {
        key: Key,
        text: Text,
    },
    /// Of `part` and `amount` one is there without the other. If the request also has a key that it may not have, that
    /// is the first such.
    Half {
        there: Key,
        missing: Key,
        other: Option<Text>,
    },
    /// The value of `dry-run` is neither `yes` nor `no`.
    NoChoice {
        text: Text,
    },
    /// The value of `if-entries` is not 1 to 5 digits.
    NoCount {
        text: Text,
    },
    /// There are keys that the request of the word may not have. The first such, if there is one.
    OtherKeys {
        word: Word,
        other: Option<Text>,
    },
}

/// What a value is.
fn kind_of(value: &Value) -> Kind
    ensures { result ≡ kind_of_data (view value.now) }
{
    match value {
        Value::Null => Kind::Null,
        Value::Bool(_) => Kind::Boolean,
        Value::Number(_) => Kind::Number,
        Value::String(_) => Kind::String,
        Value::Array(_) => Kind::Array,
        Value::Object(_) => Kind::Object,
    }
}

/// What the value at a key is, if it is no string.
fn odd_kind_at(value: &Value, key: Key) -> Option<Kind>
    ensures { result ≡ odd_kind_at (view value.now) key }
{
    match value.get(key.name()) {
        None => None,
        Some(Value::String(_)) => None,
        Some(said) => Some(kind_of(said)),
    }
}

/// A text of its own, if there is one.
fn owned_text(alloc: Global, text: Option<&str>) -> Result<Option<Text>, Cause>
    ensures equal { IfOk result (λ owned. owned ≡ option_copied text.entry) }
    ensures memory { IsOkUnless result Cause.OutOfMemory }
{
    match text {
        Some(text) => {
            let text = Text::of(alloc, text)?;
            Ok(Some(text))
        }
        None => Ok(None),
    }
}

/// Whether a value lacks a key.
fn lacks_key(value: &Value, key: Key) -> bool
    ensures { result ≡ lacks_key (view value.now) key }
{
    !has_key(value, key)
}

/// The first of some keys that a value lacks.
fn first_missing(value: &Value, keys: &[Key]) -> Option<Key>
    ensures { result ≡ find (lacks_key (view value.now)) keys.now }
{
    keys.iter().copied().find(|key| lacks_key(value, *key))
}

/// A key is missing that the request of the word has to have.
fn missing_fault(alloc: Global, value: &Value, word: Word) -> Result<Option<RequestFault>, Cause>
    ensures value { IfOk result (λ fault. fault ≡ missing_fault word (view value.now)) }
    ensures memory { IsOkUnless result Cause.OutOfMemory }
{
    match first_missing(value, word.row().needed) {
        Some(key) => {
            let other = owned_text(alloc, other_key(value, word))?;
            Ok(Some(RequestFault::MissingKey { word, key, other }))
        }
        None => Ok(None),
    }
}

/// The first of some keys at which the value is no string.
fn first_odd(value: &Value, keys: &[Key]) -> Option<Key>
    ensures { result ≡ find (is_odd (view value.now)) keys.now }
{
    keys.iter().copied().find(|key| is_odd(value, *key))
}

/// The value of one of some keys is no string.
fn odd_fault_in(value: &Value, keys: &[Key]) -> Option<RequestFault>
    ensures { result ≡ odd_fault_in (view value.now) keys.now }
{
    let key = first_odd(value, keys)?;
    let kind = odd_kind_at(value, key)?;
    Some(RequestFault::ValueOfKind { key, kind })
}

/// The value of one of its keys is no string.
fn odd_fault(value: &Value, word: Word) -> Option<RequestFault>
    ensures { result ≡ odd_fault word (view value.now) }
{
    match odd_fault_in(value, word.row().needed) {
        Some(fault) => Some(fault),
        None => odd_fault_in(value, word.row().further),
    }
}

/// The text at a key that the request of a word may have.
fn own_text_at<'a>(value: &'a Value, word: Word, key: Key) -> Option<&'a str>
    ensures { option_map (λ s. s.now) result ≡ own_text_at word (view value.now) key }
{
    if may_have(word, key.name()) {
        text_at(value, key.name())
    } else {
        None
    }
}

/// The first of its days that is no date.
fn undated_key(value: &Value, word: Word) -> Option<Key>
    ensures { result ≡ find (is_undated word (given_in (view value.now))) (keys_of word) }
{
    let row = word.row();
    match first_undated(value, word, row.needed) {
        Some(key) => Some(key),
        None => first_undated(value, word, row.further),
    }
}

/// One of its days is no date.
fn date_fault(alloc: Global, value: &Value, word: Word) -> Result<Option<RequestFault>, Cause>
    ensures value { IfOk result (λ fault. fault ≡ date_fault word (view value.now)) }
    ensures memory { IsOkUnless result Cause.OutOfMemory }
{
    let Some(key) = undated_key(value, word) else {
        return Ok(None);
    };
    match value.text(key) {
        Some(text) => {
            let text = Text::of(alloc, text)?;
            Ok(Some(RequestFault::NoDate { key, text }))
        }
        None => Ok(None),
    }
}

/// A receipt has one of two keys that only go together.
fn half_fault(alloc: Global, value: &Value, word: Word) -> Result<Option<RequestFault>, Cause>
    ensures value { IfOk result (λ fault. fault ≡ half_fault word (view value.now)) }
    ensures memory { IsOkUnless result Cause.OutOfMemory }
{
    if !matches!(word, Word::Receive) {
        return Ok(None);
    }
    let (there, missing) = match (has_key(value, Key::Part), has_key(value, Key::Amount)) {
        (true, false) => (Key::Part, Key::Amount),
        (false, true) => (Key::Amount, Key::Part),
        _ => return Ok(None),
    };
    let other = owned_text(alloc, other_key(value, word))?;
    Ok(Some(RequestFault::Half {
        there,
        missing,
        other,
    }))
}

/// What says whether it is a dry run says neither.
fn choice_fault(alloc: Global, value: &Value, word: Word) -> Result<Option<RequestFault>, Cause>
    ensures value { IfOk result (λ fault. fault ≡ choice_fault word (view value.now)) }
    ensures memory { IsOkUnless result Cause.OutOfMemory }
{
    let Some(text) = own_text_at(value, word, Key::DryRun) else {
        return Ok(None);
    };
    match yes_or_no(text) {
        Some(_) => Ok(None),
        None => {
            let text = Text::of(alloc, text)?;
            Ok(Some(RequestFault::NoChoice { text }))
        }
    }
}

/// What says how many entries the branch has to have says no count.
fn count_fault(alloc: Global, value: &Value, word: Word) -> Result<Option<RequestFault>, Cause>
    ensures value { IfOk result (λ fault. fault ≡ count_fault word (view value.now)) }
    ensures memory { IsOkUnless result Cause.OutOfMemory }
{
    let Some(text) = own_text_at(value, word, Key::IfEntries) else {
        return Ok(None);
    };
    match read_count(text.as_bytes()) {
        Some(_) => Ok(None),
        None => {
            let text = Text::of(alloc, text)?;
            Ok(Some(RequestFault::NoCount { text }))
        }
    }
}

/// The first fault of the keys beside `do` and of their values; if it is none of the others, there are keys that the
/// request may not have.
fn keys_fault(alloc: Global, value: &Value, word: Word) -> Result<RequestFault, Cause>
    ensures value { IfOk result (λ fault. fault ≡ keys_fault word (view value.now)) }
    ensures memory { IsOkUnless result Cause.OutOfMemory }
{
    if let Some(fault) = missing_fault(alloc, value, word)? {
        return Ok(fault);
    }
    if let Some(fault) = half_fault(alloc, value, word)? {
        return Ok(fault);
    }
    if let Some(fault) = odd_fault(value, word) {
        return Ok(fault);
    }
    if let Some(fault) = date_fault(alloc, value, word)? {
        return Ok(fault);
    }
    if let Some(fault) = choice_fault(alloc, value, word)? {
        return Ok(fault);
    }
    if let Some(fault) = count_fault(alloc, value, word)? {
        return Ok(fault);
    }
    let other = owned_text(alloc, other_key(value, word))?;
    Ok(RequestFault::OtherKeys { word, other })
}

/// The first fault of an object in which `do` has that text.
fn word_fault(alloc: Global, value: &Value, text: &str) -> Result<RequestFault, Cause>
    ensures value { IfOk result
        (λ fault. fault ≡ word_fault (view value.now) text.now (find (is_word_named text.now) all_words)) }
    ensures memory { IsOkUnless result Cause.OutOfMemory }
{
    match word_named(text) {
        Some(word) => keys_fault(alloc, value, word),
        None => {
            let text = Text::of(alloc, text)?;
            Ok(RequestFault::UnknownWord { text })
        }
    }
}

/// The first fault of a value that is no request.
fn value_fault(alloc: Global, value: &Value) -> Result<RequestFault, Cause>
    ensures value { IfOk result (λ fault. fault ≡ value_fault (view value.now)) }
    ensures memory { IsOkUnless result Cause.OutOfMemory }
{
    if !value.is_object() {
        return Ok(RequestFault::NotAnObject {
            kind: kind_of(value),
        });
    }
    match value.get(Key::Do.name()) {
        None => Ok(RequestFault::NoWord),
        Some(said) => match said.as_str() {
            Some(text) => word_fault(alloc, value, text),
            None => Ok(RequestFault::WordOfKind {
                kind: kind_of(said),
            }),
        },
    }
}

/// The first fault of a text that is no request, or `None` where it is one.
fn text_fault(alloc: Global, text: &str) -> Result<Option<RequestFault>, Cause>
    ensures value { IfOk result (IsFirstRequestFault text.now) }
    ensures memory { IsOkUnless result Cause.OutOfMemory }
{
    let value = match Value::from_str(alloc, text) {
        Ok(value) => value,
        Err(error) => {
            return if error.is_memory() {
                Err(Cause::OutOfMemory)
            } else {
                Ok(Some(RequestFault::NotJson {
                    line: error.line(),
                    byte: error.column(),
                    is_cut_off: error.is_eof(),
                }))
            };
        }
    };
    match spelled_in(alloc, &value) {
        Ok(_) => Ok(None),
        Err(Cause::Request) => {
            let fault = value_fault(alloc, &value)?;
            Ok(Some(fault))
        }
        Err(cause) => Err(cause),
    }
}

/// Why bytes are no request: their first fault, or `None` where they are one. Answers 40 where there is no memory to
/// find it.
pub fn fault_of(alloc: Global, line: &[u8]) -> Result<Option<RequestFault>, Cause>
    ensures value { IfOk result (IsFirstRequestFault line.now) }
    ensures memory { IsOkUnless result Cause.OutOfMemory }
{
    match str::from_utf8(line) {
        Ok(text) => text_fault(alloc, text),
        Err(error) => Ok(Some(RequestFault::NotUtf8 {
            byte: error.valid_up_to() + 1,
        })),
    }
}
