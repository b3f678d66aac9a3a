//! Replies in JSON: the object of an answer, if it is none of a report.

ghost use Rattle.std.specs.Prelude.{◌≡◌, ◌⊎◌, ◌≤◌, ◌+◌, ◌-◌, ◌++◌, ℕ, List, [], true, false, length, take};
ghost use Rattle.std.specs.Prelude.{vec_capacity};
ghost use Rattle.std.specs.Prelude.{OnOk, OnErr, IsOk, IsTrue, IfSome, None, codes, decimal, option_map};
ghost use Rattle.std.specs.Cow.{cow_slice_items};
ghost use Rattle.std.specs.Str.{is_utf8};
ghost use Rattle.json_text.specs.JsonText.{object_text};
ghost use Rattle.json_text.specs.Members.{members_of};
ghost use Rattle.treasury_requests.specs.Request.{is_report};
ghost use Rattle.treasury_api.specs.JsonReply.{done_json, refusal_json, refused_json};
ghost use Rattle.treasury_api.specs.Beside.{IsSaidBeside, IsJsonNoted, IsJsonTold};
ghost use Rattle.treasury_api.specs.WebServing.{IsJsonDone, IsJsonRefused, IsJsonRefusal, IsJsonToldOf, IsToldOfBody};
ghost use Rattle.treasury_api.specs.WebServing.{entries_told};

use crate::asking::entries_asked;
use crate::running::Line;
use crate::telling::{Grounds, JOURNAL, said_beside};
use book_core::Ledger;
use itoa::Buffer;
use json_text::{Member, MemberValue, push_object};
use money_core::Cause;
use sqlite::Alter;
use std::alloc::{AllocError, Global};
use std::borrow::CowSlice;
use treasury_core::State;
use treasury_messages::{sentence, sentence_text, unasked_text};
use treasury_requests::Spelled;
use treasury_store::Treasury;

/// The object of a plain answer, of which nothing is told or noted, has at most that many bytes.
pub const MOST_JSON: usize = 2048;

/// The line of a plain answer has at most that many bytes, without the line feed that ends it.
const MOST_LINE: usize = 63;

/// The text, where it is UTF-8; none, where it is not.
fn utf8_of(text: &[u8]) -> &[u8]
    ensures utf8 { is_utf8 result.now ≡ true }
    ensures same { (result.now ≡ text.now) ⊎ (result.now ≡ []) }
{
    match str::from_utf8(text) {
        Ok(text) => text.as_bytes(),
        Err(_) => b"",
    }
}

/// A line without the line feed that ends it.
fn line_of(text: &[u8]) -> &[u8]
    ensures { result.now ≡ take (length text.now - 1) text.now }
{
    match text.split_last() {
        Some((_, line)) => line,
        None => text,
    }
}

/// Appends an object, and a line feed. Where memory is refused, the vector is as it was; where there is room, it is
/// not.
fn push_object_line(members: &[Member], out: &mut Vec<u8>) -> Result<(), AllocError>
    ensures ok { OnOk result (out.new.items ≡ out.old.items ++ (object_text (members_of members.now) ++ codes "\n")) }
    ensures err { OnErr result (out.new.items ≡ out.old.items) }
    ensures room { length out.old.items + length (object_text (members_of members.now) ++ codes "\n")
        ≤ vec_capacity out.old → IsOk result }
    ensures capacity { vec_capacity out.old ≤ vec_capacity out.new }
{
    let before = out.len();
    push_object(members, out)?;
    match out.extend_from_slice(b"\n") {
        Ok(()) => Ok(()),
        Err(error) => {
            out.truncate(before);
            Err(error)
        }
    }
}

/// The member of a text.
fn text<'a>(key: &'a [u8], text: &'a [u8]) -> Member<'a>
    ensures { result ≡ record { key = key.entry; value = MemberValue.Text text.entry } }
{
    Member {
        key,
        value: MemberValue::Text(text),
    }
}

/// The member of the lines of a text.
fn lines<'a>(key: &'a [u8], text: &'a [u8]) -> Member<'a>
    ensures { result ≡ record { key = key.entry; value = MemberValue.Lines text.entry } }
{
    Member {
        key,
        value: MemberValue::Lines(text),
    }
}

/// Appends the object of an answer that is no refusal, by its line, what is noted, and the entries of its branch.
fn push_done<'a>(
    line: &'a [u8],
    noted: &'a [u8],
    entries: Option<usize>,
    out: &mut Vec<u8>,
) -> Result<(), AllocError>
    ensures ok { OnOk result (out.new.items ≡ out.old.items ++ done_json line.now noted.now entries) }
    ensures err { OnErr result (out.new.items ≡ out.old.items) }
    ensures room { length out.old.items + length (done_json line.now noted.now entries) ≤ vec_capacity out.old
        → IsOk result }
    ensures digits { IfSome entries (λ n. length (decimal n) ≤ 40) }
    ensures capacity { vec_capacity out.old ≤ vec_capacity out.new }
{
    let (answer, told, notes) = (
        text(b"answer", line),
        lines(b"told", b""),
        lines(b"notes", noted),
    );
    match entries {
        Some(entries) => {
            let mut digits = Buffer::new();
            let entries = text(b"entries", digits.format(entries).as_bytes());
            push_object_line(&[answer, told, notes, entries], out)
        }
        None => push_object_line(&[answer, told, notes], out),
    }
}

/// Appends the object of a refusal, by its line, its number, its name, its sentence, what is told, and the entries of
/// its branch.
fn push_refusal<'a>(
    line: &'a [u8],
    nr: &'a [u8],
    name: &'a [u8],
    sentence: &'a [u8],
    told: &'a [u8],
    entries: Option<usize>,
    out: &mut Vec<u8>,
) -> Result<(), AllocError>
    ensures ok { OnOk result (out.new.items
        ≡ out.old.items ++ refusal_json line.now nr.now name.now sentence.now told.now entries) }
    ensures err { OnErr result (out.new.items ≡ out.old.items) }
    ensures room { length out.old.items + length (refusal_json line.now nr.now name.now sentence.now told.now entries)
        ≤ vec_capacity out.old → IsOk result }
    ensures digits { IfSome entries (λ n. length (decimal n) ≤ 40) }
    ensures capacity { vec_capacity out.old ≤ vec_capacity out.new }
{
    let (answer, number, name) = (
        text(b"answer", line),
        text(b"number", nr),
        text(b"name", name),
    );
    let (sentence, told) = (text(b"sentence", sentence), lines(b"told", told));
    let notes = lines(b"notes", b"");
    match entries {
        Some(entries) => {
            let mut digits = Buffer::new();
            let entries = text(b"entries", digits.format(entries).as_bytes());
            push_object_line(&[answer, number, name, sentence, told, notes, entries], out)
        }
        None => push_object_line(&[answer, number, name, sentence, told, notes], out),
    }
}

/// Appends the object of a refusal, by its line, its cause, what is told, and the entries of its branch.
fn push_refused(
    line: &[u8],
    cause: Cause,
    told: &[u8],
    entries: Option<usize>,
    out: &mut Vec<u8>,
) -> Result<(), AllocError>
    ensures ok { OnOk result (out.new.items ≡ out.old.items ++ refused_json line.now cause told.now entries) }
    ensures err { OnErr result (out.new.items ≡ out.old.items) }
    ensures room { length line.now ≤ MOST_LINE → told.now ≡ [] → length out.old.items + MOST_JSON
        ≤ vec_capacity out.old → IsOk result }
    ensures capacity { vec_capacity out.old ≤ vec_capacity out.new }
{
    let mut buffer = Buffer::new();
    let nr = buffer.format(cause.nr()).as_bytes();
    let name = cause.name().as_bytes();
    let said = sentence(cause).as_bytes();
    push_refusal(line, nr, name, said, told, entries, out)
}

/// The object of an answer that is no refusal, in room for a plain one, by its line, of at most 63 bytes, what is
/// noted, and the entries of its branch; nothing is noted where memory is refused for it.
fn done_object(line: &[u8], noted: &[u8], entries: Option<usize>, room: Vec<u8>) -> Vec<u8>
    requires line { length line.now ≤ MOST_LINE }
    requires empty { room.items ≡ [] }
    requires room { MOST_JSON ≤ vec_capacity room }
    ensures done { IsJsonDone line.now entries result.items }
    ensures noted { IsJsonNoted line.now noted.now entries result.items }
{
    let mut body = room;
    match push_done(line, utf8_of(noted), entries, &mut body) {
        Ok(()) => body,
        Err(_) => match push_done(line, b"", entries, &mut body) {
            Ok(()) => body,
            Err(_) => unreachable!(),
        },
    }
}

/// How many entries the branch has that a dry run is on, as far as the state is in memory.
pub fn entries_told<L: Ledger>(state: Option<&State<L>>, request: &Spelled) -> Option<usize>
    ensures { result ≡ entries_told (option_map (λ s. s.now) state.entry) request.now }
{
    if request.terms.is_dry_run {
        entries_asked(state?, &request.request)
    } else {
        None
    }
}

/// The body of a reply in JSON to a request that is not refused, and was answered by this text, in room for the object
/// of a plain answer. A report's object is its text.
pub fn done_in_json<S: Alter>(
    alloc: Global,
    request: &Spelled,
    treasury: &Treasury<S>,
    grounds: &Grounds,
    text: Vec<u8>,
    room: Vec<u8>,
) -> Vec<u8>
    requires short { is_report request.now.request ≡ false → length text.items ≤ 64 }
    requires empty { room.items ≡ [] }
    requires room { MOST_JSON ≤ vec_capacity room }
    ensures report { IsTrue (is_report request.now.request) → result.items ≡ text.items }
    ensures other { is_report request.now.request ≡ false
        → IsJsonDone (take (length text.items - 1) text.items) (entries_told treasury.now.held request.now)
        result.items }
    // Its notes are those of the request, which says of what journal it is by the key.
    ensures noted { is_report request.now.request ≡ false → (noted : List ℕ)
        × IsSaidBeside treasury.now.held request.now JOURNAL.now grounds.now None noted
        × IsJsonNoted (take (length text.items - 1) text.items) noted (entries_told treasury.now.held request.now)
        result.items }
{
    if request.request.is_report() {
        return text;
    }
    let noted = said_beside(alloc, treasury.state(), request, JOURNAL, grounds, None);
    let entries = entries_told(treasury.state(), request);
    done_object(line_of(text.as_slice()), noted.as_slice(), entries, room)
}

/// Appends the object of a refusal, by its line, its cause, what is told, and the entries of its branch; nothing is
/// told where memory is refused for it.
fn push_refused_at_least(
    line: &[u8],
    cause: Cause,
    told: &[u8],
    entries: Option<usize>,
    out: &mut Vec<u8>,
) -> Result<(), AllocError>
    requires { out.old.items ≡ [] }
    ensures ok { OnOk result (IsJsonRefused line.now cause entries out.new.items) }
    ensures told { OnOk result (IsJsonTold line.now cause told.now entries out.new.items) }
    ensures err { OnErr result (out.new.items ≡ []) }
    ensures room { length line.now ≤ MOST_LINE → MOST_JSON ≤ vec_capacity out.old → IsOk result }
    ensures capacity { vec_capacity out.old ≤ vec_capacity out.new }
{
    match push_refused(line, cause, utf8_of(told), entries, out) {
        Ok(()) => Ok(()),
        Err(_) => push_refused(line, cause, b"", entries, out),
    }
}

/// The object of a plain refusal, in room for it, by its line, of at most 63 bytes, its cause, and what is told; or
/// nothing is told, where memory is refused for it.
pub fn refuse_plain_in_json(line: &[u8], cause: Cause, told: &[u8], room: Vec<u8>) -> Vec<u8>
    requires line { length line.now ≤ MOST_LINE }
    requires empty { room.items ≡ [] }
    requires room { MOST_JSON ≤ vec_capacity room }
    ensures refused { IsJsonRefused line.now cause None result.items }
    ensures told { IsJsonTold line.now cause told.now None result.items }
{
    let mut body = room;
    match push_refused_at_least(line, cause, told, None, &mut body) {
        Ok(()) => body,
        Err(_) => unreachable!(),
    }
}

/// The object of a refusal, in room for a plain one, by its line and its cause, what is told, and the entries of its
/// branch. Where memory is refused for one that is not plain, it is the object of 40.
pub fn refuse_in_json(line: &Line, told: &[u8], entries: Option<usize>, room: Vec<u8>) -> Line
    requires empty { room.items ≡ [] }
    requires room { MOST_JSON ≤ vec_capacity room }
    ensures refused { IsJsonRefusal (cow_slice_items line.now.text) line.now.cause entries result.cause
        (cow_slice_items result.text) }
    ensures told { IsJsonToldOf (cow_slice_items line.now.text) line.now.cause told.now entries result.cause
        (cow_slice_items result.text) }
{
    let mut text = room;
    let named = line_of(line.text.as_slice());
    match push_refused_at_least(named, line.cause, told, entries, &mut text) {
        Ok(()) => Line {
            text: CowSlice::Owned(text),
            cause: line.cause,
        },
        Err(_) => Line {
            text: CowSlice::Owned(refuse_plain_in_json(
                b"refused 40 OutOfMemory",
                Cause::OutOfMemory,
                b"",
                text,
            )),
            cause: Cause::OutOfMemory,
        },
    }
}

/// What is told of a call that is no request; of a body, why it spells none.
pub fn told_unasked(alloc: Global, body: Option<&[u8]>) -> Vec<u8>
    ensures { IsToldOfBody (option_map (λ b. b.now) body.entry) result.items }
{
    match body {
        Some(body) => unasked_text(alloc, body),
        None => sentence_text(alloc, Cause::Request),
    }
}
