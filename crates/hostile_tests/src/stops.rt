//! A treasury over two disks in memory that stop after so many calls each, and what is found when they are opened
//! again.

use crate::desk::{Disks, Fused, answered, closed, fused, treasury_on};
use crate::rows::{CLOSING, ENTRY, Sent, TRANSFER};
use sqlite::Files;
use sqlite_disk::Crash;
use std::alloc::Global;
use std::process::Abort;

/// More calls than a row makes of one disk.
const MOST_CALLS: u64 = 2000;

/// Sends a row to the treasury: how many answers are its own. The next is 41, and all after that are 42.
fn acknowledged(rt: &impl Abort, alloc: Global, treasury: &mut Fused, row: &[Sent]) -> usize {
    let mut done: usize = 0;
    let mut failed = false;
    for (request, answer, _) in row {
        let text = answered(rt, alloc, treasury, *request);
        if !failed && text.as_slice() == answer.as_bytes() {
            done = done.saturating_add(1);
        } else {
            let wanted = if failed {
                "refused 42 Closed\n"
            } else {
                "refused 41 Store\n"
            };
            assert_eq!(rt; text.as_slice(), wanted.as_bytes(), "{request}");
            failed = true;
        }
    }
    done
}

/// Asserts that the disks hold the state after the first requests, so many, or after one more: the row is sent again.
fn assert_stands(rt: &impl Abort, alloc: Global, disks: Disks, row: &[Sent], done: usize) {
    let mut treasury = treasury_on(rt, alloc, disks, false).expect(rt, "the tables");
    for (at, (request, answer, again)) in row.iter().enumerate() {
        let text = answered(rt, alloc, &mut treasury, *request);
        let is_done = at < done || at == done && text.as_slice() == again.as_bytes();
        let wanted = if is_done { *again } else { *answer };
        assert_eq!(rt;
            text.as_slice(),
            wanted.as_bytes(),
            "{request}, {done} done"
        );
    }
    assert!(rt; closed(treasury).1);
}

/// Stops a row after so many calls of each disk, and opens these again, with what was written and with only what was
/// settled; whether it came to its end without a stop.
fn is_past(rt: &impl Abort, alloc: Global, row: &[Sent], calls: u64) -> bool {
    let disks = Files {
        log: fused(rt, alloc, b"", calls),
        db: fused(rt, alloc, b"", calls),
    };
    let Some(mut treasury) = treasury_on(rt, alloc, disks, true) else {
        return false;
    };
    let done = acknowledged(rt, alloc, &mut treasury, row);
    let (mut disks, is_whole) = closed(treasury);
    let kept = Files {
        log: fused(rt, alloc, disks.log.inner().bytes(), u64::MAX),
        db: fused(rt, alloc, disks.db.inner().bytes(), u64::MAX),
    };
    assert_stands(rt, alloc, kept, row, done);
    disks.log.crash();
    disks.db.crash();
    assert_stands(rt, alloc, disks, row, done);
    is_whole
}

/// Stops a row after each number of calls, until it comes to its end.
fn assert_stops(rt: &impl Abort, alloc: Global, row: &[Sent]) {
    for calls in 0..MOST_CALLS {
        if is_past(rt, alloc, row, calls) {
            return;
        }
    }
    panic!(rt; "a row of more calls");
}

#[test]
fn what_was_acknowledged_is_there_after_a_stop(rt: HostRuntime) {
    assert_stops(&rt, rt.alloc(), ENTRY);
    assert_stops(&rt, rt.alloc(), TRANSFER);
    assert_stops(&rt, rt.alloc(), CLOSING);
}
