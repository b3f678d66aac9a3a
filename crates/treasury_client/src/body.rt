//! A request as JSON: the body of a call.

ghost use Rattle.std.specs.Prelude.{◌≡◌, ◌⊎◌, Some, Err, IfOk, IfErr, OnOk, string_bytes, false};
ghost use Rattle.std.specs.Str.{is_utf8};
ghost use Rattle.serde_json.specs.View.{members_view};
ghost use Rattle.journal_lines.specs.Date.{IsDayNumber, printed_date};
ghost use Rattle.treasury_requests.specs.Words.{key_name};
ghost use Rattle.treasury_requests.specs.Request.{spelled, given_of, HasDayNumbers};
ghost use Rattle.treasury_client.specs.Sending.{IsSendable, HasText};
ghost use Rattle.treasury_client.specs.Parts.{with_text, with_optional, with_keys, with_request};
ghost use Rattle.treasury_client.specs.Parts.{with_dry_run, with_if_entries, with_terms};

use itoa::Buffer;
use journal_lines::print_date;
use money_core::{Cause, Day};
use serde_json::{Map, Value, put};
use std::alloc::Global;
use treasury_requests::{Bytes, Key, KeyValue, Request, Spelled, Terms};

/// The members of a JSON object.
type Members = Map<String, Value>;

/// Puts a text at a key.
fn put_text(members: &mut Members, alloc: Global, key: &str, text: &str) -> Result<(), Cause>
    ensures ok { OnOk result (members_view members.new.entries
        ≡ with_text key.now text.now (members_view members.old.entries)) }
    ensures memory { IfErr result (λ cause. cause ≡ Cause.OutOfMemory) }
{
    let value = Value::try_from_str(alloc, text)?;
    put(members, alloc, key, value)?;
    Ok(())
}

/// Puts the date of a day at a key.
fn put_day(members: &mut Members, alloc: Global, key: Key, day: Day) -> Result<(), Cause>
    requires { IsDayNumber day }
    ensures ok { OnOk result (members_view members.new.entries
        ≡ with_text (key_name key) (printed_date day) (members_view members.old.entries)) }
    ensures memory { IfErr result (λ cause. cause ≡ Cause.OutOfMemory) }
{
    let mut date = Vec::new(alloc);
    print_date(alloc, day, &mut date)?;
    match str::from_utf8(date.as_slice()) {
        Ok(date) => put_text(members, alloc, key.name(), date),
        Err(_) => unreachable!(),
    }
}

/// Puts a journal at a key: 1 where it is not UTF-8.
fn put_journal(members: &mut Members, alloc: Global, key: Key, journal: &Bytes) -> Result<(), Cause>
    ensures ok { OnOk result (members_view members.new.entries
        ≡ with_text (key_name key) journal.now (members_view members.old.entries)) }
    ensures text { result ≡ Err Cause.Utf8 → is_utf8 journal.now ≡ false }
    ensures causes { IfErr result (λ cause. (cause ≡ Cause.Utf8) ⊎ (cause ≡ Cause.OutOfMemory)) }
{
    match str::from_utf8(journal.as_bytes()) {
        Ok(journal) => put_text(members, alloc, key.name(), journal),
        Err(_) => Err(Cause::Utf8),
    }
}

/// Puts what a request has at a key, if it has that: 1 where that is a journal that is not UTF-8.
fn put_key(members: &mut Members, alloc: Global, request: &Request, key: Key) -> Result<(), Cause>
    requires { HasDayNumbers request.now }
    ensures ok { OnOk result (members_view members.new.entries
        ≡ with_optional (key_name key) (given_of request.now key) (members_view members.old.entries)) }
    ensures text { result ≡ Err Cause.Utf8 → HasText request.now → ⊥ }
    ensures causes { IfErr result (λ cause. (cause ≡ Cause.Utf8) ⊎ (cause ≡ Cause.OutOfMemory)) }
{
    match request.given(key) {
        Some(KeyValue::Text(text)) => put_text(members, alloc, key.name(), text.as_str()),
        Some(KeyValue::Day(day)) => put_day(members, alloc, key, day),
        Some(KeyValue::Journal(journal)) => put_journal(members, alloc, key, journal),
        None => Ok(()),
    }
}

/// Puts what a request has at these keys. Answers 1 where its journal is not UTF-8.
fn put_keys(
    members: &mut Members,
    alloc: Global,
    request: &Request,
    keys: &[Key],
) -> Result<(), Cause>
    requires { HasDayNumbers request.now }
    ensures ok { OnOk result (members_view members.new.entries
        ≡ with_keys (given_of request.now) keys.now (members_view members.old.entries)) }
    ensures text { result ≡ Err Cause.Utf8 → HasText request.now → ⊥ }
    ensures causes { IfErr result (λ cause. (cause ≡ Cause.Utf8) ⊎ (cause ≡ Cause.OutOfMemory)) }
{
    'keys: for key in keys {
        put_key(members, alloc, request, *key)?;
    }
    Ok(())
}

/// Puts the word of a request, and what it has at the keys of its row. Answers 1 where its journal is not UTF-8.
fn put_request(members: &mut Members, alloc: Global, request: &Request) -> Result<(), Cause>
    requires { HasDayNumbers request.now }
    ensures ok { OnOk result (members_view members.new.entries
        ≡ with_request request.now (members_view members.old.entries)) }
    ensures text { result ≡ Err Cause.Utf8 → HasText request.now → ⊥ }
    ensures causes { IfErr result (λ cause. (cause ≡ Cause.Utf8) ⊎ (cause ≡ Cause.OutOfMemory)) }
{
    let row = request.word().row();
    put_text(members, alloc, "do", row.name)?;
    put_keys(members, alloc, request, row.needed)?;
    put_keys(members, alloc, request, row.further)
}

/// Puts the key of a dry run, where it is one.
fn put_dry_run(members: &mut Members, alloc: Global, is_dry_run: bool) -> Result<(), Cause>
    ensures ok { OnOk result (members_view members.new.entries
        ≡ with_dry_run is_dry_run (members_view members.old.entries)) }
    ensures memory { IfErr result (λ cause. cause ≡ Cause.OutOfMemory) }
{
    if is_dry_run {
        put_text(members, alloc, "dry-run", "yes")
    } else {
        Ok(())
    }
}

/// Puts the key of how many entries the branch has to have, where that is said.
fn put_if_entries(
    members: &mut Members,
    alloc: Global,
    if_entries: Option<u32>,
) -> Result<(), Cause>
    ensures ok { OnOk result (members_view members.new.entries
        ≡ with_if_entries if_entries (members_view members.old.entries)) }
    ensures memory { IfErr result (λ cause. cause ≡ Cause.OutOfMemory) }
{
    match if_entries {
        Some(count) => {
            let mut digits = Buffer::new();
            put_text(members, alloc, "if-entries", digits.format(count))
        }
        None => Ok(()),
    }
}

/// Puts the keys of the terms.
fn put_terms(members: &mut Members, alloc: Global, terms: Terms) -> Result<(), Cause>
    ensures ok { OnOk result (members_view members.new.entries
        ≡ with_terms terms (members_view members.old.entries)) }
    ensures memory { IfErr result (λ cause. cause ≡ Cause.OutOfMemory) }
{
    put_dry_run(members, alloc, terms.is_dry_run)?;
    put_if_entries(members, alloc, terms.if_entries)
}

/// The JSON text that spells a request: the body of the call that asks for it.
///
/// Answers 1 where the request has a journal that is not UTF-8, as no text spells that, and 40.
pub fn body_of(alloc: Global, request: &Spelled) -> Result<String, Cause>
    requires { HasDayNumbers request.now.request }
    // What is sent is the request: the treasury's reader of it gives this very request back.
    ensures spells { IfOk result (λ body. IsSendable request.now → spelled (string_bytes body) ≡ Some request.now) }
    ensures text { result ≡ Err Cause.Utf8 → HasText request.now.request → ⊥ }
    ensures causes { IfErr result (λ cause. (cause ≡ Cause.Utf8) ⊎ (cause ≡ Cause.OutOfMemory)) }
{
    let mut members = Map::new(alloc);
    match put_request(&mut members, alloc, &request.request) {
        Ok(()) => {}
        Err(cause) => return Err(cause),
    }
    match put_terms(&mut members, alloc, request.terms) {
        Ok(()) => {}
        Err(cause) => return Err(cause),
    }
    match Value::Object(members).to_string(alloc) {
        Ok(body) => Ok(body),
        Err(_) => Err(Cause::OutOfMemory),
    }
}
