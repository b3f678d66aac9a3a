//! When a store is not opened, and when it is closed.

ghost use Rattle.sqlite.specs.Steps.{over_memory};
ghost use Rattle.treasury_store.specs.Store.{IsOf, empty_state};

use super::{assert_shown, text};
use book_core::PlainLedger;
use money_core::{Cause, Day};
use sqlite::{Alter, Connection, MemStore};
use std::alloc::Global;
use std::process::Abort;
use treasury_core::{Command, State, apply, decide};
use treasury_store::Store;

/// The row of north, which is not locked.
const BRANCHES: &[(&str, usize, &str)] = &[(
    "SELECT nr, name, locked FROM branch ORDER BY nr",
    3,
    "0 north NULL |",
)];

/// The state after a command that is accepted, and the store of it.
fn perform<S: Alter>(
    rt: &impl Abort,
    alloc: Global,
    store: &mut Store<S>,
    now: State<PlainLedger>,
    command: &Command,
) -> State<PlainLedger>
    requires { IsOf S.Store store.old now }
    ensures { IsOf S.Store store.new result }
{
    assert!(rt; command.fits(now.styles()));
    match decide(alloc, &now, command) {
        Ok((_, delta)) => match store.commit(&delta) {
            Ok(()) => apply(alloc, now, delta).expect(rt, "memory"),
            Err(_) => panic!(rt; "no commit"),
        },
        Err(_) => panic!(rt; "refused"),
    }
}

/// A store of the empty state, whose statements may take so many steps each.
fn limited(rt: &impl Abort, alloc: Global, steps: Option<u64>) -> Store<MemStore>
    ensures { IsOf over_memory result empty_state }
{
    let mut conn = Connection::open_in_memory(alloc).expect(rt, "memory");
    conn.set_step_limit(steps);
    match Store::create(alloc, conn) {
        Ok(store) => store,
        Err(_) => panic!(rt; "not made"),
    }
}

/// A branch.
fn branch<S: Alter>(
    rt: &impl Abort,
    alloc: Global,
    store: &mut Store<S>,
    now: State<PlainLedger>,
    name: &str,
) -> State<PlainLedger>
    requires { IsOf S.Store store.old now }
    ensures { IsOf S.Store store.new result }
{
    let command = Command::Branch(text(rt, alloc, name));
    perform(rt, alloc, store, now, &command)
}

#[test]
fn a_database_without_tables_is_not_opened(rt: HostRuntime) {
    let alloc = rt.alloc();
    let conn = Connection::open_in_memory(alloc).expect(&rt, "memory");
    match Store::open(alloc, conn) {
        Ok(_) => panic!(rt; "opened"),
        Err(refused) => {
            assert_eq!(rt; refused.cause, Cause::Damaged);
            assert!(rt; refused.conn.schema().tables.is_empty());
        }
    }
}

// A row that is changed takes a step of the database, and a row that is new takes none.
#[test]
fn a_store_is_closed_once_a_call_failed(rt: HostRuntime) {
    let alloc = rt.alloc();
    let mut store = limited(&rt, alloc, Some(0));
    let now = branch(&rt, alloc, &mut store, State::empty(alloc), "north");
    let command = Command::Lock(text(&rt, alloc, "north"), Day(19_753));
    assert!(rt; command.fits(now.styles()));
    match decide(alloc, &now, &command) {
        Ok((_, delta)) => {
            assert_eq!(rt; store.commit(&delta), Err(Cause::Store));
            assert_eq!(rt; store.commit(&delta), Err(Cause::Closed));
        }
        Err(_) => panic!(rt; "refused"),
    }
    let mut conn = store.into_connection();
    conn.set_step_limit(None);
    assert_shown(&rt, alloc, &mut conn, BRANCHES);
}

#[test]
fn a_store_is_closed_once_a_query_failed(rt: HostRuntime) {
    let alloc = rt.alloc();
    let mut store = limited(&rt, alloc, Some(0));
    let _ = branch(&rt, alloc, &mut store, State::empty(alloc), "north");
    let first: Result<State<PlainLedger>, Cause> = store.load();
    assert!(rt; matches!(first, Err(Cause::Store)));
    let second: Result<State<PlainLedger>, Cause> = store.load();
    assert!(rt; matches!(second, Err(Cause::Closed)));
}
