//! When a treasury is closed.

use super::{assert_shown, text};
use book_core::Refusal;
use money_core::{Cause, Day};
use sqlite::{Connection, MemStore};
use std::alloc::Global;
use std::process::Abort;
use treasury_core::{Answer, Command};
use treasury_store::{Store, Treasury};

/// The rows of the branches, none of them locked.
const BRANCHES: &[(&str, usize, &str)] = &[(
    "SELECT nr, name, locked FROM branch ORDER BY nr",
    3,
    "0 north NULL |1 south NULL |",
)];

const DONE: Result<Answer, Refusal> = Ok(Answer::Done);

const REPEATED: Result<Answer, Refusal> = Ok(Answer::Repeated);

/// A treasury of the empty state, whose statements may take so many steps each.
fn limited(rt: &impl Abort, alloc: Global, steps: Option<u64>) -> Treasury<MemStore> {
    let mut conn = Connection::open_in_memory(alloc).expect(rt, "memory");
    conn.set_step_limit(steps);
    match Store::create(alloc, conn) {
        Ok(store) => started(rt, alloc, store),
        Err(_) => panic!(rt; "not made"),
    }
}

/// A treasury of what the store is of.
fn started(rt: &impl Abort, alloc: Global, store: Store<MemStore>) -> Treasury<MemStore> {
    match Treasury::start(alloc, store) {
        Ok(treasury) => treasury,
        Err(_) => panic!(rt; "not started"),
    }
}

/// What the command is answered, which has to fit the state.
fn perform(
    rt: &impl Abort,
    treasury: &mut Treasury<MemStore>,
    command: Command,
) -> Result<Answer, Refusal> {
    let state = treasury.state().expect(rt, "a state");
    assert!(rt; command.fits(state.styles()));
    treasury.perform(command)
}

fn branch(rt: &impl Abort, alloc: Global, name: &str) -> Command {
    Command::Branch(text(rt, alloc, name))
}

/// A lock of north through the 31st of January 2024.
fn lock(rt: &impl Abort, alloc: Global) -> Command {
    Command::Lock(text(rt, alloc, "north"), Day(19_753))
}

// A row that is changed takes steps of the database, and a row that is new takes none.
#[test]
fn a_treasury_is_closed_once_a_call_failed(rt: HostRuntime) {
    let alloc = rt.alloc();
    let mut treasury = limited(&rt, alloc, Some(1));
    assert_eq!(rt;
        perform(&rt, &mut treasury, branch(&rt, alloc, "north")),
        DONE
    );
    assert_eq!(rt;
        perform(&rt, &mut treasury, branch(&rt, alloc, "south")),
        DONE
    );
    // (repeated, and so not written)
    assert_eq!(rt;
        perform(&rt, &mut treasury, branch(&rt, alloc, "north")),
        REPEATED
    );
    assert_eq!(rt;
        perform(&rt, &mut treasury, lock(&rt, alloc)),
        Err(Refusal::Plain(Cause::Store))
    );
    assert_eq!(rt;
        perform(&rt, &mut treasury, lock(&rt, alloc)),
        Err(Refusal::Plain(Cause::Closed))
    );
    assert_eq!(rt; treasury.hold(), Err(Cause::Closed));
    let mut conn = treasury.into_store().into_connection();
    conn.set_step_limit(None);
    assert_shown(&rt, alloc, &mut conn, BRANCHES);
}
