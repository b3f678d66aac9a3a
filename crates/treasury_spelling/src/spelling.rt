//! What a word over a file asks for, by its values.

ghost use Rattle.std.specs.Prelude.{◌≡◌, ◌⊎◌, codes, Some, None, Err, option_map, option_and_then, IfOk, IfErr, IfSome};
ghost use Rattle.std.specs.Option.{IsSome};
ghost use Rattle.clap.specs.Matches.{found_of};
ghost use Rattle.clap.specs.Walk.{first_of, rows_of};
ghost use Rattle.journal_lines.specs.Number.{entry_count};
ghost use Rattle.treasury_requests.specs.Request.{HasDayNumbers};
ghost use Rattle.treasury_spelling.specs.Spelling.{given_by, request_in, terms_in, says_no_count};
ghost use Rattle.treasury_spelling.specs.Known.{if_left_out};
ghost use Rattle.treasury_spelling.specs.Spelling.{is_set, is_explained, HasPort, LacksPort};

use clap::ArgMatches;
use journal_lines::{read_count, read_date};
use money_core::Cause;
use std::alloc::Global;
use treasury_requests::{Fields, Key, Request, Terms, Word, lacks, request_by, word_named};

/// The value of that name.
pub fn value_of<'a>(values: &ArgMatches<'a>, name: &str) -> Option<&'a str>
    ensures { option_map (λ s. s.now) result ≡ first_of name.now (rows_of (found_of values.now)) }
{
    values.get_str(name)
}

/// The port that is given: that of the number which `--at` has.
pub fn port_of(values: &ArgMatches<'_>) -> Option<u16>
    ensures given { IfSome result (λ port. HasPort port (rows_of (found_of values.now))) }
    ensures lacks { result ≡ None → LacksPort (rows_of (found_of values.now)) }
{
    let text = match value_of(values, "at") {
        Some(text) => text,
        None => return None,
    };
    match text.parse::<u16>() {
        Ok(port) => Some(port),
        Err(_) => None,
    }
}

/// Whether the flag of that name is given.
fn is_set(values: &ArgMatches<'_>, name: &str) -> bool
    ensures { result ≡ is_set (first_of name.now (rows_of (found_of values.now))) }
{
    match value_of(values, name) {
        Some(text) => text == "true",
        None => false,
    }
}

/// The terms that are given; a text that is no count says nothing.
pub fn terms_of(values: &ArgMatches<'_>) -> Terms
    ensures { result ≡ terms_in (rows_of (found_of values.now)) }
{
    Terms {
        is_dry_run: is_set(values, "dry-run"),
        if_entries: count_of(values),
    }
}

/// How many entries the branch has to have, if a count is given.
fn count_of(values: &ArgMatches<'_>) -> Option<u32>
    ensures { result ≡ option_and_then entry_count (first_of (codes "if-entries") (rows_of (found_of values.now))) }
{
    let text = value_of(values, "if-entries")?;
    read_count(text.as_bytes())
}

/// Whether a text is given for how many entries the branch has to have, and is no count.
pub fn says_no_count(values: &ArgMatches<'_>) -> bool
    ensures { result ≡ says_no_count (rows_of (found_of values.now)) }
{
    match value_of(values, "if-entries") {
        Some(text) => read_count(text.as_bytes()).is_none(),
        None => false,
    }
}

/// Whether the answers of a run are to be explained.
pub fn is_explained(values: &ArgMatches<'_>) -> bool
    ensures { result ≡ is_explained (rows_of (found_of values.now)) }
{
    is_set(values, "explain")
}

/// What a word takes for a value that is left out: a balance without a day is that through the last day there is.
pub fn if_left_out(word: Word, key: Key) -> Option<&'static str>
    ensures { option_map (λ s. s.now) result ≡ if_left_out word key }
{
    match (word, key) {
        (Word::Balance, Key::Day) => Some("9999-12-31"),
        _ => None,
    }
}

/// The values of a word, as what is given at the keys of its request.
#[derive(Drop)]
struct Values<'m, 'a> {
    word: Word,
    values: &'m ArgMatches<'a>,
}

impl Fields for Values<'_, '_> {
    ghost given = { λ v. given_by v.word (rows_of (found_of v.values.now)) };

    /// The value of that name. A journal stands in a file: the value is the file's name.
    fn text(&self, key: Key) -> Option<&str> {
        if matches!(key, Key::Journal) {
            return None;
        }
        match value_of(self.values, key.name()) {
            Some(text) => Some(text),
            None => if_left_out(self.word, key),
        }
    }
}

/// Whether a text is given at the key of a day, and is no date.
fn is_undated(word: Word, values: &ArgMatches<'_>, key: Key) -> bool {
    match value_of(values, key.name()) {
        Some(text) => word.has_day_at(key) && read_date(text.as_bytes()).is_none(),
        None => false,
    }
}

/// Whether one is given for a day of a word.
fn says_no_date(word: &str, values: &ArgMatches<'_>) -> bool {
    let Some(word) = word_named(word) else {
        return false;
    };
    let row = word.row();
    row.needed.iter().any(|key| is_undated(word, values, *key))
        || row.further.iter().any(|key| is_undated(word, values, *key))
}

/// Why a word asks for nothing, by its values.
pub fn fault_of(word: &str, values: &ArgMatches<'_>) -> &'static str {
    let has_part = value_of(values, "part").is_some();
    let has_amount = value_of(values, "amount").is_some();
    if says_no_date(word, values) {
        "the day is not a date; dates are written as 2024-12-31"
    } else if word == "receive" && has_part != has_amount {
        "a part needs its key and its amount; only one of them is given"
    } else {
        "--if-entries is a number of 1 to 5 digits"
    }
}

/// The request of the word of a command or a report, `init` and `import` aside: the one that a line of `run` spells
/// whose keys have these values.
///
/// 44 comes where there is none: a value is missing, a day is no date, of a part only the key or the amount is given,
/// or a count of entries is none. After that, 40 comes where there is no memory.
pub fn request_of_word(alloc: Global, word: &str, values: &ArgMatches<'_>) -> Result<Request, Cause>
    ensures ok { IfOk result (λ request. request_in word.now (rows_of (found_of values.now)) ≡ Some request) }
    ensures days { IfOk result HasDayNumbers }
    ensures refused { result ≡ Err Cause.Request → request_in word.now (rows_of (found_of values.now)) ≡ None }
    ensures memory { result ≡ Err Cause.OutOfMemory → IsSome (request_in word.now (rows_of (found_of values.now))) }
    ensures causes { IfErr result (λ cause. (cause ≡ Cause.Request) ⊎ (cause ≡ Cause.OutOfMemory)) }
{
    if says_no_count(values) {
        return Err(Cause::Request);
    }
    let Some(word) = word_named(word) else {
        return Err(Cause::Request);
    };
    let fields = Values { word, values };
    if lacks(word, &fields) {
        return Err(Cause::Request);
    }
    request_by(alloc, word, &fields)
}
