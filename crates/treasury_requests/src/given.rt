//! What is given at the keys of a request, one by one.

ghost use Rattle.std.specs.Prelude.{◌≡◌, List, ℕ, Option, find, option_copied, option_map};
ghost use Rattle.treasury_requests.specs.Keys.{keys_of, is_key_named};
ghost use Rattle.treasury_requests.specs.Given.{is_given_at, text_given};

use crate::fields::Fields;
use crate::words::{Key, Word};
use money_core::{Items, Text};

/// What is given at a key.
#[derive(Debug, Drop)]
pub struct Given {
    pub key: Key,
    pub text: Text,
}

impl Fields for Items<Given> {
    ghost given = { λ given. text_given given };

    fn text(&self, key: Key) -> Option<&str> {
        match first_at(self.items(), key) {
            Some(given) => Some(given.text.as_str()),
            None => None,
        }
    }
}

/// Whether it is given at this key.
fn is_given_at(given: &Given, key: Key) -> bool
    ensures { result ≡ is_given_at key given.now }
{
    given.key.name() == key.name()
}

/// The first that is given at a key.
fn first_at(given: &[Given], key: Key) -> Option<&Given>
    ensures { option_copied result ≡ find (is_given_at key) given.now }
{
    given.iter().find(|one| is_given_at(one, key))
}

/// The key that is written so among these.
fn named_among(keys: &[Key], name: &str) -> Option<Key>
    ensures { result ≡ find (is_key_named name.now) keys.now }
{
    keys.iter().copied().find(|key| key.name() == name)
}

/// The key that is written so, if a request of the word may have it beside `do`.
pub fn key_named(word: Word, name: &str) -> Option<Key>
    ensures { result ≡ find (is_key_named name.now) (keys_of word) }
{
    let row = word.row();
    match named_among(row.needed, name) {
        Some(key) => Some(key),
        None => named_among(row.further, name),
    }
}
