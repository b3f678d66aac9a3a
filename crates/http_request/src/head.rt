//! The head of a request, read from a connection.
//!
//! RFC 9112 leaves choices: lines may end in LF alone, empty lines may come first and count for the limit, and a
//! target is any UTF-8 without spaces and ASCII control characters, so that an unknown branch is refused by the rules
//! however it is written. A name with a blank after it, or a line that begins with one, could be misunderstood, and is
//! refused.

ghost use Rattle.std.specs.Prelude.{◌≡◌, ◌⊎◌, ◌++◌, ◌∷◌, ℕ, List, [], None, Err, length, map, IfOk, IfErr, MatchOption};
ghost use Rattle.std.specs.Prelude.{MatchBool};
ghost use Rattle.httparse.specs.Grammar.{RequestHead, HasNoRequest, MayBecomeRequest};
ghost use Rattle.http_request.specs.Spaces.{spaces};
ghost use Rattle.http_request.specs.Head.{IsHead, CanEnd, NeverHead};
ghost use Rattle.http_request.specs.Found.{HasHead, IsBad, EndsEarly};
ghost use Rattle.http_request.specs.Ending.{HasNoEnd};

use httparse::Status;
use httparse::spans::{HeaderSpan, RequestSpans, parse_request};
use money_core::Cause;
use std::alloc::AllocError;
use std::io::Read;

/// The most bytes of a head.
pub const MAX_HEAD: usize = 16 * 1024;

/// The most headers of a head.
pub const MAX_HEADERS: usize = 32;

/// How many bytes are read at once.
const CHUNK: usize = 1024;

/// One for a space, and none for another byte.
fn space(byte: u8) -> usize
    ensures { result ≡ spaces (byte ∷ []) }
{
    if byte == b' ' { 1 } else { 0 }
}

/// How many spaces stand in the text.
fn spaces(text: &[u8]) -> usize
    ensures { result ≡ spaces text.now }
{
    let mut count = 0;
    for byte in text {
        count += space(*byte);
    }
    count
}

/// Whether the text begins with a head within the limits.
fn has_head(text: &[u8], headers: &mut [HeaderSpan; MAX_HEADERS]) -> bool
    ensures { MatchBool result ((head : RequestHead) × (rest : List ℕ) × IsHead text.now head rest)
        ((head : RequestHead) → (rest : List ℕ) → ¬ (IsHead text.now head rest)) }
{
    match parse_request(text, headers) {
        Ok(Status::Complete(spans)) => spans.len <= MAX_HEAD,
        Ok(Status::Partial) => false,
        Err(_) => false,
    }
}

/// Whether this end makes the text a head within the limits. The text stays.
fn is_ended_by(
    text: &mut Vec<u8>,
    end: &[u8],
    headers: &mut [HeaderSpan; MAX_HEADERS],
) -> Result<bool, AllocError>
    ensures kept { text.new.items ≡ text.old.items }
    ensures found { IfOk result (λ found. MatchBool found (CanEnd text.old.items)
        ((head : RequestHead) → (rest : List ℕ) → ¬ (IsHead (text.old.items ++ end.now) head rest))) }
{
    let before = text.len();
    match text.extend_from_slice(end) {
        Ok(()) => {}
        Err(error) => return Err(error),
    }
    let found = has_head(text.as_slice(), headers);
    text.truncate(before);
    Ok(found)
}

/// Whether one of these ends makes the text a head within the limits. The text stays.
fn may_end(
    text: &mut Vec<u8>,
    ends: &[&[u8]],
    headers: &mut [HeaderSpan; MAX_HEADERS],
) -> Result<bool, AllocError>
    ensures kept { text.new.items ≡ text.old.items }
    ensures found { IfOk result (λ found.
        MatchBool found (CanEnd text.old.items)
        (HasNoEnd text.old.items (map (λ end. end.now) ends.now) (length ends.now))) }
{
    for end in ends {
        match is_ended_by(text, end, headers) {
            Ok(true) => return Ok(true),
            Ok(false) => {}
            Err(error) => return Err(error),
        }
    }
    Ok(false)
}

/// The input ends here, without a head: `None` where no bytes could have made it one within the limits, else 45.
///
/// Whatever makes a text a head, one of these short ends does. Inside its target it may be 45 without a look.
fn end_early(
    text: &mut Vec<u8>,
    headers: &mut [HeaderSpan; MAX_HEADERS],
) -> Result<Option<RequestSpans>, Cause>
    requires none { HasNoRequest text.old.items }
    requires may { (text.old.items ≡ []) ⊎ MayBecomeRequest text.old.items }
    ensures kept { text.new.items ≡ text.old.items }
    ensures never { IfOk result (λ found. (found ≡ None) × NeverHead text.old.items) }
    ensures early { result ≡ Err Cause.ReadFault
        → CanEnd text.old.items ⊎ ((spaces text.old.items ≡ 1) × MayBecomeRequest text.old.items) }
    ensures causes { IfErr result (λ cause. (cause ≡ Cause.ReadFault) ⊎ (cause ≡ Cause.OutOfMemory)) }
{
    if spaces(text.as_slice()) == 1 {
        return Err(Cause::ReadFault);
    }
    let ends: &[&[u8]] = &[
        b"\n",
        b"\n\n",
        b":\n\n",
        b"1\n\n",
        b".1\n\n",
        b"1.1\n\n",
        b"/1.1\n\n",
        b"P/1.1\n\n",
        b"TP/1.1\n\n",
        b"TTP/1.1\n\n",
        b"HTTP/1.1\n\n",
        b" / HTTP/1.1\n\n",
        b"A / HTTP/1.1\n\n",
        b"\nA / HTTP/1.1\n\n",
    ];
    match may_end(text, ends, headers) {
        Ok(true) => Err(Cause::ReadFault),
        Ok(false) => Ok(None),
        Err(_) => Err(Cause::OutOfMemory),
    }
}

/// Reads the head of a request into an empty text, and perhaps a first part of what follows it.
///
/// `None` where the bytes that were read begin no head within the limits. 45 where a read fails or the input ends
/// before that is seen.
pub fn read_head<R: Read>(
    reader: &mut R,
    text: &mut Vec<u8>,
    headers: &mut [HeaderSpan; MAX_HEADERS],
) -> Result<Option<RequestSpans>, Cause>
    requires { text.old.items ≡ [] }
    ensures found { IfOk result (λ found. MatchOption found
        (IsBad (R.remaining reader.old) (R.remaining reader.new) text.new.items)
        (HasHead (R.remaining reader.old) (R.remaining reader.new) text.new.items headers.new)) }
    ensures early { result ≡ Err Cause.ReadFault
        → EndsEarly (R.remaining reader.old) (R.remaining reader.new) text.new.items }
    ensures causes { IfErr result (λ cause. (cause ≡ Cause.ReadFault) ⊎ (cause ≡ Cause.OutOfMemory)) }
{
    let mut chunk = [0u8; CHUNK];
    'reading: while text.len() < MAX_HEAD {
        let most = (MAX_HEAD - text.len()).min(CHUNK);
        let count = match reader.read(&mut chunk[..most]) {
            Ok(0) => return end_early(text, headers),
            Ok(count) => count,
            Err(_) => return end_early(text, headers),
        };
        if text.extend_from_slice(&chunk[..count]).is_err() {
            return Err(Cause::OutOfMemory);
        }
        match parse_request(text.as_slice(), headers) {
            Ok(Status::Complete(spans)) => return Ok(Some(spans)),
            Ok(Status::Partial) => {}
            Err(_) => return Ok(None),
        }
    }
    Ok(None)
}
