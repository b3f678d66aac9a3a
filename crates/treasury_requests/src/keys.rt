//! The keys of a JSON value, beside those that the request of a word may have.

ghost use Rattle.std.specs.Prelude.{◌≡◌, find, option_copied, option_map};
ghost use Rattle.std.specs.List.{list_any};
ghost use Rattle.std.specs.Map.{keys_of};
ghost use Rattle.serde_json.specs.View.{view, members_view};
ghost use Rattle.treasury_requests.specs.Keys.{text_at, given_in, has_member, is_odd, may_have, is_key_named};
ghost use Rattle.treasury_requests.specs.Keys.{is_other_string, is_other_key, names_in, other_key, has_form};

use crate::fields::Fields;
use crate::words::{Key, Word};
use serde_json::{Map, Value};

impl Fields for Value {
    ghost given = { λ v. given_in (view v) };

    fn text(&self, key: Key) -> Option<&str> {
        text_at(self, key.name())
    }
}

/// The text at a key.
pub(crate) fn text_at<'a>(value: &'a Value, key: &str) -> Option<&'a str>
    ensures { option_map (λ s. s.now) result ≡ text_at key.now (view value.now) }
{
    value.get(key).and_then(Value::as_str)
}

/// Whether a value has a key.
pub(crate) fn has_key(value: &Value, key: Key) -> bool
    ensures { result ≡ has_member (view value.now) key }
{
    value.get(key.name()).is_some()
}

/// Whether the value at a key is no string.
pub(crate) fn is_odd(value: &Value, key: Key) -> bool
    ensures { result ≡ is_odd (view value.now) key }
{
    has_key(value, key) && text_at(value, key.name()).is_none()
}

/// Whether one of the keys is written so.
fn is_among(keys: &[Key], name: &str) -> bool
    ensures { result ≡ list_any (is_key_named name.now) keys.now }
{
    keys.iter().any(|key| key.name() == name)
}

/// Whether the request of a word may have a key that is written so.
pub(crate) fn may_have(word: Word, name: &str) -> bool
    ensures { result ≡ may_have word name.now }
{
    let row = word.row();
    name == "do" || is_among(row.needed, name) || is_among(row.further, name)
}

/// Whether it may not.
fn is_other(word: Word, name: &str) -> bool
    ensures { result ≡ is_other_key word name.now }
{
    !may_have(word, name)
}

/// The first key, in byte order, that the request of a word may not have.
fn first_other(map: &Map<String, Value>, word: Word) -> Option<&String>
    ensures { option_copied result ≡ find (is_other_string word) (keys_of map.now.entries) }
{
    map.keys().find(|name| is_other(word, name.as_str()))
}

/// The same, as a text.
fn other_name(map: &Map<String, Value>, word: Word) -> Option<&str>
    ensures { option_map (λ s. s.now) result ≡ find (is_other_key word) (names_in (members_view map.now.entries)) }
{
    match first_other(map, word) {
        Some(name) => Some(name.as_str()),
        None => None,
    }
}

/// The same of a value that may be no object.
pub(crate) fn other_key<'a>(value: &'a Value, word: Word) -> Option<&'a str>
    ensures { option_map (λ s. s.now) result ≡ other_key word (view value.now) }
{
    match value.as_object() {
        Some(map) => other_name(map, word),
        None => None,
    }
}

/// Whether the value at one of the keys is no string.
fn has_odd(value: &Value, keys: &[Key]) -> bool
    ensures { result ≡ list_any (is_odd (view value.now)) keys.now }
{
    keys.iter().any(|key| is_odd(value, *key))
}

/// Whether a value has no key but those that the request of a word may have, and at each of them a string.
pub(crate) fn has_form(value: &Value, word: Word) -> bool
    ensures { result ≡ has_form word (view value.now) }
{
    let row = word.row();
    other_key(value, word).is_none() && !has_odd(value, row.needed) && !has_odd(value, row.further)
}
