//! Runs whose reader fails after each byte of a request, and whose writer fails after each byte of an answer.

use crate::desk::{Fused, answered, closed, fused, ran, treasury_on};
use crate::rows::{ENTRY, Sent, requests};
use money_core::Cause;
use sqlite::Files;
use std::alloc::Global;
use std::process::Abort;

/// More bytes than a request of the row has, or an answer.
const MOST_BYTES: usize = 124;

/// Cuts the first of the requests off after so many bytes, which does nothing; and then its answer, which does it, as
/// the line does that is whole before a read fails. The requests after it are never done.
fn assert_cut(
    rt: &impl Abort,
    alloc: Global,
    treasury: &mut Fused,
    input: &str,
    sent: Sent,
    count: usize,
) {
    let (request, answer, again) = sent;
    if count <= request.len() {
        let (ended, text, rest) = ran(alloc, treasury, input, count, usize::MAX);
        assert_eq!(rt; ended, Err(Cause::ReadFault), "{request} to {count}");
        assert!(rt;
            text.is_empty() && rest == input.len().saturating_sub(count),
            "{request} to {count}"
        );
    }
    match answer.as_bytes().get(..count) {
        Some(front) if count < answer.len() => {
            let (ended, text, _) = ran(alloc, treasury, input, usize::MAX, count);
            assert_eq!(rt; ended, Err(Cause::WriteFault), "{request}: {count}");
            assert_eq!(rt; text.as_slice(), front, "{request}: {count}");
        }
        _ => {
            let whole = request.len().saturating_add(1);
            let (ended, text, _) = ran(alloc, treasury, input, whole, usize::MAX);
            assert_eq!(rt; ended, Err(Cause::ReadFault), "{request}, whole");
            assert_eq!(rt; text.as_slice(), answer.as_bytes(), "{request}, whole");
        }
    }
    let text = answered(rt, alloc, treasury, request);
    assert_eq!(rt; text.as_slice(), again.as_bytes(), "{request} again");
}

/// Cuts each request of a row and its answer off, after so many bytes, over a treasury of nothing.
fn assert_cuts(rt: &impl Abort, alloc: Global, row: &[Sent], count: usize) {
    let disks = Files {
        log: fused(rt, alloc, b"", u64::MAX),
        db: fused(rt, alloc, b"", u64::MAX),
    };
    let mut treasury = treasury_on(rt, alloc, disks, true).expect(rt, "memory");
    let input = requests(rt, alloc, row);
    let mut rest = input.as_str();
    for sent in row {
        assert_cut(rt, alloc, &mut treasury, rest, *sent, count);
        let (request, _, _) = *sent;
        rest = rest
            .get(request.len().saturating_add(1)..)
            .expect(rt, "the requests behind it");
    }
    assert!(rt; closed(treasury).1);
}

/// Does so for each number of bytes.
fn assert_ends(rt: &impl Abort, alloc: Global, row: &[Sent]) {
    for count in 0..MOST_BYTES {
        assert_cuts(rt, alloc, row, count);
    }
}

#[test]
fn what_is_cut_off_is_not_done_and_what_is_answered_in_part_is(rt: HostRuntime) {
    assert_ends(&rt, rt.alloc(), ENTRY);
}
