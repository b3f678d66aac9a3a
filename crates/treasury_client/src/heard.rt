//! What a reply in JSON says.

ghost use Rattle.std.specs.Prelude.{◌≡◌, ◌≢◌, ◌⊎◌, ◌++◌, ℕ, List, Bool, Some, None, Err, true, false, not, codes};
ghost use Rattle.std.specs.Prelude.{IfOk, IfErr};
ghost use Rattle.std.specs.Str.{bytes_eq};
ghost use Rattle.serde_json.specs.View.{view};
ghost use Rattle.treasury_client.specs.Reply.{status_of_done, json_type, answer_at, answer_in, value_in};
ghost use Rattle.treasury_client.specs.Reply.{SaysToCommand, SaysToReport};
ghost use Rattle.treasury_client.specs.Heard.{SaysText};

use crate::naming::push_named;
use crate::reply::{Reply, read_reply, rest_behind};
use money_core::Cause;
use serde_json::Value;
use std::alloc::Global;

/// What a reply says: the answer line with its end, whether it is a refusal, and what is said beside it.
#[derive(Debug, Drop)]
pub struct Heard {
    pub answer: Vec<u8>,
    pub is_refused: bool,
    /// Lines, as far as there was memory for them.
    pub said: Vec<u8>,
}

/// Appends the texts of the array at a key as lines, with the journal's name in them.
fn push_texts(
    value: &Value,
    key: &str,
    journal: Option<&[u8]>,
    out: &mut Vec<u8>,
) -> Result<(), Cause> {
    let Some(list) = value.get(key).and_then(Value::as_array) else {
        return Ok(());
    };
    for item in list {
        if let Some(line) = item.as_str() {
            push_named(line.as_bytes(), journal, out)?;
            out.push(b'\n')?;
        }
    }
    Ok(())
}

/// The value that a body is: 45 where it is no JSON, and 40.
fn value_of(alloc: Global, body: &[u8]) -> Result<Value, Cause>
    ensures value { IfOk result (λ value. value_in body.now ≡ Some (view value)) }
    ensures refused { result ≡ Err Cause.ReadFault → value_in body.now ≡ None }
    ensures causes { IfErr result (λ cause. (cause ≡ Cause.ReadFault) ⊎ (cause ≡ Cause.OutOfMemory)) }
{
    let text = match str::from_utf8(body) {
        Ok(text) => text,
        Err(_) => return Err(Cause::ReadFault),
    };
    match Value::from_str(alloc, text) {
        Ok(value) => Ok(value),
        Err(error) => {
            if error.is_memory() {
                Err(Cause::OutOfMemory)
            } else {
                Err(Cause::ReadFault)
            }
        }
    }
}

/// The answer line of a value, with its end: 45 where there is none, and 40.
fn answer_of(alloc: Global, value: &Value) -> Result<Vec<u8>, Cause>
    ensures line { IfOk result (λ answer. answer_at (view value.now) ≡ Some answer.items) }
    ensures refused { result ≡ Err Cause.ReadFault → answer_at (view value.now) ≡ None }
    ensures causes { IfErr result (λ cause. (cause ≡ Cause.ReadFault) ⊎ (cause ≡ Cause.OutOfMemory)) }
{
    let line = match value.get("answer").and_then(Value::as_str) {
        Some(line) => line,
        None => return Err(Cause::ReadFault),
    };
    let mut answer = Vec::new(alloc);
    match answer.extend_from_slice(line.as_bytes()) {
        Ok(()) => {}
        Err(_) => return Err(Cause::OutOfMemory),
    }
    match answer.push(b'\n') {
        Ok(()) => Ok(answer),
        Err(_) => Err(Cause::OutOfMemory),
    }
}

/// What a reply in JSON says. `journal` is what stands for the journal in what is said beside the answer. 45 where it
/// is none that says something, and 40.
fn heard_of(alloc: Global, reply: &Reply<'_>, journal: Option<&[u8]>) -> Result<Heard, Cause>
    ensures answer { IfOk result (λ heard. answer_in reply.now.body.now ≡ Some heard.answer.items) }
    ensures json { IfOk result (λ heard. bytes_eq reply.now.kind.now json_type ≡ true) }
    ensures refusal { IfOk result (λ heard. heard.is_refused ≡ not (bytes_eq reply.now.status.now status_of_done)) }
    ensures refused { result ≡ Err Cause.ReadFault
        → (bytes_eq reply.now.kind.now json_type ≡ false) ⊎ (answer_in reply.now.body.now ≡ None) }
    ensures causes { IfErr result (λ cause. (cause ≡ Cause.ReadFault) ⊎ (cause ≡ Cause.OutOfMemory)) }
{
    if !reply.is_json() {
        return Err(Cause::ReadFault);
    }
    let value = match value_of(alloc, reply.body) {
        Ok(value) => value,
        Err(cause) => return Err(cause),
    };
    let answer = match answer_of(alloc, &value) {
        Ok(answer) => answer,
        Err(cause) => return Err(cause),
    };
    let mut said = Vec::new(alloc);
    let _ = push_texts(&value, "told", journal, &mut said);
    let _ = push_texts(&value, "notes", journal, &mut said);
    Ok(Heard {
        answer,
        is_refused: !reply.is_done(),
        said,
    })
}

/// What bytes that came for a command say. `journal` is what stands for the journal in what is said beside the answer.
/// 45 where they say nothing to a command, and 40.
pub fn hear_command(alloc: Global, came: &[u8], journal: Option<&[u8]>) -> Result<Heard, Cause>
    ensures said { IfOk result (λ heard. SaysToCommand came.now heard.answer.items heard.is_refused) }
    ensures strange { result ≡ Err Cause.ReadFault → (said : List ℕ) → (refused : Bool)
        → SaysToCommand came.now said refused → ⊥ }
    ensures causes { IfErr result (λ cause. (cause ≡ Cause.ReadFault) ⊎ (cause ≡ Cause.OutOfMemory)) }
{
    let reply = match read_reply(came) {
        Some(reply) => reply,
        None => return Err(Cause::ReadFault),
    };
    match heard_of(alloc, &reply, journal) {
        Ok(heard) => Ok(heard),
        Err(cause) => Err(cause),
    }
}

/// A text that is said alone.
fn told(alloc: Global, text: &[u8], is_refused: bool) -> Result<Heard, Cause>
    ensures ok { IfOk result (λ heard. (heard.answer.items ≡ text.now) × (heard.is_refused ≡ is_refused)) }
    ensures memory { IfErr result (λ cause. cause ≡ Cause.OutOfMemory) }
{
    match Vec::from_slice(alloc, text) {
        Ok(answer) => Ok(Heard {
            answer,
            is_refused,
            said: Vec::new(alloc),
        }),
        Err(_) => Err(Cause::OutOfMemory),
    }
}

/// What the text of a reply says: its lines, or the line of a refusal. 45 where it is neither, and 40.
fn heard_text(alloc: Global, reply: &Reply<'_>) -> Result<Heard, Cause>
    ensures said { IfOk result (SaysText reply.now.status.now reply.now.body.now) }
    ensures strange { result ≡ Err Cause.ReadFault → (bytes_eq reply.now.status.now status_of_done ≡ false)
        × ((rest : List ℕ) → reply.now.body.now ≢ codes "refused " ++ rest) }
    ensures causes { IfErr result (λ cause. (cause ≡ Cause.ReadFault) ⊎ (cause ≡ Cause.OutOfMemory)) }
{
    if reply.is_done() {
        return told(alloc, reply.body, false);
    }
    match rest_behind(b"refused ", reply.body) {
        Some(_) => told(alloc, reply.body, true),
        None => Err(Cause::ReadFault),
    }
}

/// What bytes that came for a report say: its lines, or the line of a refusal. 45 where they say nothing to a report,
/// and 40.
pub fn hear_report(alloc: Global, came: &[u8]) -> Result<Heard, Cause>
    ensures said { IfOk result (λ heard. SaysToReport came.now heard.answer.items heard.is_refused) }
    ensures strange { result ≡ Err Cause.ReadFault → (said : List ℕ) → (refused : Bool)
        → SaysToReport came.now said refused → ⊥ }
    ensures causes { IfErr result (λ cause. (cause ≡ Cause.ReadFault) ⊎ (cause ≡ Cause.OutOfMemory)) }
{
    let reply = match read_reply(came) {
        Some(reply) => reply,
        None => return Err(Cause::ReadFault),
    };
    if reply.is_text() {
        match heard_text(alloc, &reply) {
            Ok(heard) => Ok(heard),
            Err(cause) => Err(cause),
        }
    } else {
        Err(Cause::ReadFault)
    }
}
