//! Requests and replies that are cut off after each of their bytes, and requests that come in parts.

use crate::desk::{begun, served};
use money_core::Cause;
use sqlite::MemStore;
use std::alloc::Global;
use std::process::Abort;
use treasury_store::Treasury;

/// The bytes of a request; for how many bytes of its reply there is room; the reply, and that to it once it was done.
type Sent = (&'static str, usize, &'static str, &'static str);

/// A reply of status 200, by the size of its body, and the body.
macro_rules! reply {
    ($size:literal, $body:literal) => {
        concat!(
            "HTTP/1.1 200 OK\r\nContent-Type: text/plain; charset=utf-8\r\nContent-Length: ",
            $size,
            "\r\nConnection: close\r\n\r\n",
            $body
        )
    };
}

const BALANCE: &str = reply!(
    "70",
    "         -120.00 EUR  assets:bank\n          120.00 EUR  expenses:hall\n"
);

// One after another, on one treasury. A reply has a head of 98 bytes, or 99 where its body has more than nine. The last
// request has no body, whatever it says, and there is room for its whole reply.
const SENT: &[Sent] = &[
    (
        "POST /commands HTTP/1.1\r\nHost: localhost\r\nContent-Length: 30\r\n\r\n{\"do\":\"branch\",\"name\":\"north\"}",
        0,
        reply!("3", "ok\n"),
        reply!("9", "repeated\n"),
    ),
    (
        "POST /commands HTTP/1.1\r\nContent-Length: 42\r\n\r\n{\"do\":\"commodity\",\"sample\":\"1,000.00 EUR\"}",
        98,
        reply!("3", "ok\n"),
        reply!("9", "repeated\n"),
    ),
    (
        "POST /commands HTTP/1.1\r\nContent-Length: 123\r\n\r\n{\"do\":\"import\",\"branch\":\"north\",\"journal\":\"2024-01-05 hall\\n    expenses:hall  120.00 EUR\\n    assets:bank  -120.00 EUR\\n\"}",
        101,
        reply!("21", "ok 1 new, 0 repeated\n"),
        reply!("21", "ok 0 new, 1 repeated\n"),
    ),
    (
        "GET /balance/north/2024-01-31 HTTP/1.1\r\nHost: localhost\r\n\r\n",
        17,
        BALANCE,
        BALANCE,
    ),
    (
        "GET /transit/2024-12-31 HTTP/1.1\r\nContent-Length: 9\r\n\r\n",
        98,
        reply!("0", ""),
        reply!("0", ""),
    ),
];

/// Asserts that a request that is cut off after any of its bytes gets nothing.
fn assert_cut(rt: &impl Abort, alloc: Global, treasury: &mut Treasury<MemStore>, request: &str) {
    let bytes = request.as_bytes();
    for count in 0..bytes.len() {
        let (ended, text) = served(alloc, treasury, &bytes[..count], 1, usize::MAX);
        assert_eq!(rt; ended, Err(Cause::ReadFault), "{request} to {count}");
        assert!(rt; text.is_empty(), "{request} to {count}");
    }
}

/// Asserts that a request, in parts of so many bytes, gets the reply, or as much of it as there is room for, although a
/// read after the request would fail.
fn assert_replied(
    rt: &impl Abort,
    alloc: Global,
    treasury: &mut Treasury<MemStore>,
    request: &str,
    reply: &str,
    (part, room): (usize, usize),
) {
    let (wanted, front) = match reply.as_bytes().get(..room) {
        Some(front) if room < reply.len() => (Err(Cause::WriteFault), front),
        _ => (Ok(()), reply.as_bytes()),
    };
    let (ended, text) = served(alloc, treasury, request.as_bytes(), part, room);
    assert_eq!(rt; ended, wanted, "{request} by {part}, room for {room}");
    assert!(rt;
        text.as_slice() == front,
        "{request} by {part}, room for {room}"
    );
}

/// Asserts that a request does nothing where it is cut off, and is done where its reply is: then it is sent again, in
/// parts of one byte more each time, and with room for one byte less of its reply.
fn assert_sent(rt: &impl Abort, alloc: Global, treasury: &mut Treasury<MemStore>, sent: Sent) {
    let (request, room, first, again) = sent;
    assert_cut(rt, alloc, treasury, request);
    assert_replied(rt, alloc, treasury, request, first, (1, room));
    for less in 0..=again.len() {
        let rest = (less.saturating_add(1), again.len().saturating_sub(less));
        assert_replied(rt, alloc, treasury, request, again, rest);
    }
}

/// Asserts so of each request.
fn assert_each(rt: &impl Abort, alloc: Global, treasury: &mut Treasury<MemStore>, rows: &[Sent]) {
    for sent in rows {
        assert_sent(rt, alloc, treasury, *sent);
    }
}

#[test]
fn a_request_is_done_if_it_comes_whole_also_where_its_reply_is_cut_off(rt: HostRuntime) {
    let alloc = rt.alloc();
    let mut treasury = begun(&rt, alloc);
    assert_each(&rt, alloc, &mut treasury, SENT);
    // (to drop a treasury whole would have the prover see how each part of it is dropped)
    drop(treasury.into_store().into_connection());
}
