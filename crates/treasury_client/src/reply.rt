//! The bytes of a reply, taken apart.
//!
//! A reply is exactly the bytes that a treasury sends: status line, `Content-Type`, `Content-Length`, `Connection:
//! close`, in this order, and nothing after the body. So what is printed is a function of the bytes, and a reply that
//! was cut off is none. Another head, as a later version may send, is refused with 45.

ghost use Rattle.std.specs.Prelude.{◌≡◌, ◌≢◌, ◌<◌, ◌^◌, ◌↔◌, ◌++◌, ℕ, List, None, IfSome, MatchOption, IsTrue};
ghost use Rattle.std.specs.Prelude.{length, decimal};
ghost use Rattle.std.specs.Str.{bytes_eq};
ghost use Rattle.treasury_client.specs.Reply.{IsReply, IsOnLine, length_text, status_of_done, text_type, json_type};
ghost use Rattle.treasury_client.specs.Parts.{EndsLine};

use itoa::Buffer;
use money_core::first_place;

/// A reply: its status after the version, such as `200 OK`, the type of its body, and that.
#[derive(Clone, Copy, Debug)]
pub struct Reply<'a> {
    pub status: &'a [u8],
    pub kind: &'a [u8],
    pub body: &'a [u8],
}

impl Reply<'_> {
    /// Whether it is done, repeated or reported.
    pub fn is_done(&self) -> bool
        ensures { result ≡ bytes_eq self.now.status.now status_of_done }
    {
        self.status == b"200 OK".as_slice()
    }

    /// Whether its body is a text.
    pub fn is_text(&self) -> bool
        ensures { result ≡ bytes_eq self.now.kind.now text_type }
    {
        self.kind == b"text/plain; charset=utf-8".as_slice()
    }

    /// Whether its body is JSON.
    pub fn is_json(&self) -> bool
        ensures { result ≡ bytes_eq self.now.kind.now json_type }
    {
        self.kind == b"application/json".as_slice()
    }
}

/// What stands after a name, up to the first CR or the end, and what follows that.
fn value_behind<'a>(name: &[u8], text: &'a [u8]) -> Option<(&'a [u8], &'a [u8])>
    ensures found { IfSome result (λ parts. (text.now ≡ name.now ++ (parts.0.now ++ parts.1.now))
        × IsOnLine parts.0.now × EndsLine parts.1.now) }
    ensures missed { result ≡ None → (rest : List ℕ) → text.now ≢ name.now ++ rest }
{
    let rest = match rest_behind(name, text) {
        Some(rest) => rest,
        None => return None,
    };
    Some(rest.split_at(first_place(rest, b'\r')))
}

/// What follows a name.
pub(crate) fn rest_behind<'a>(name: &[u8], text: &'a [u8]) -> Option<&'a [u8]>
    ensures { MatchOption result ((rest : List ℕ) → text.now ≢ name.now ++ rest)
        (λ rest. text.now ≡ name.now ++ rest.now) }
{
    text.strip_prefix(name)
}

/// Whether the digits are those of a number.
fn is_decimal_of(digits: &[u8], number: usize) -> bool
    ensures { IsTrue result ↔ (digits.now ≡ decimal number) }
{
    let mut buffer = Buffer::new();
    buffer.format(number).as_bytes() == digits
}

/// The body after the length that a head names.
fn body_behind(text: &[u8]) -> Option<&[u8]>
    ensures found { IfSome result (λ body. text.now ≡ length_text body.now) }
    ensures missed { result ≡ None → (body : List ℕ) → length body < 2 ^ 64 → text.now ≢ length_text body }
{
    let (digits, rest) = match value_behind(b"\r\nContent-Length: ", text) {
        Some(parts) => parts,
        None => return None,
    };
    let body = match rest_behind(b"\r\nConnection: close\r\n\r\n", rest) {
        Some(body) => body,
        None => return None,
    };
    if is_decimal_of(digits, body.len()) {
        Some(body)
    } else {
        None
    }
}

/// The reply that the bytes are, whole and with nothing after it; none where they are no reply of a treasury.
pub fn read_reply(bytes: &[u8]) -> Option<Reply<'_>>
    ensures found { IfSome result (λ reply. IsReply bytes.now reply.status.now reply.kind.now reply.body.now) }
    ensures missed { result ≡ None → (status kind body : List ℕ) → IsReply bytes.now status kind body → ⊥ }
{
    let (status, rest) = match value_behind(b"HTTP/1.1 ", bytes) {
        Some(parts) => parts,
        None => return None,
    };
    let (kind, rest) = match value_behind(b"\r\nContent-Type: ", rest) {
        Some(parts) => parts,
        None => return None,
    };
    match body_behind(rest) {
        Some(body) => Some(Reply { status, kind, body }),
        None => None,
    }
}
