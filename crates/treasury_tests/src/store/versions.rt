//! Which versions of the tables are opened, and what an opening makes of version 1.

use super::{assert_shown, shown};
use book_core::PlainLedger;
use money_core::Cause;
use sqlite::{Connection, MemStore};
use std::alloc::Global;
use std::process::Abort;
use treasury_core::State;
use treasury_store::{Store, found_version};

/// Tables of version 1 with two branches, and 50.00 EUR that went from one to the other.
const FIRST: &str = "
    CREATE TABLE format (version INTEGER NOT NULL) STRICT;
    CREATE TABLE unit (nr INTEGER PRIMARY KEY, symbol TEXT NOT NULL UNIQUE, decimals INTEGER NOT NULL, mark TEXT NOT NULL, grouped INTEGER NOT NULL, leftside INTEGER NOT NULL, spaced INTEGER NOT NULL) STRICT;
    CREATE TABLE branch (nr INTEGER PRIMARY KEY, name TEXT NOT NULL UNIQUE, locked INTEGER) STRICT;
    CREATE TABLE entry (branch INTEGER NOT NULL, nr INTEGER NOT NULL, day INTEGER NOT NULL, mark TEXT NOT NULL, body TEXT NOT NULL, PRIMARY KEY (branch, nr), UNIQUE (branch, mark)) STRICT;
    CREATE TABLE leg (branch INTEGER NOT NULL, entry INTEGER NOT NULL, nr INTEGER NOT NULL, account TEXT NOT NULL, unit INTEGER NOT NULL, qty INTEGER NOT NULL, PRIMARY KEY (branch, entry, nr)) STRICT;
    CREATE TABLE claim (branch INTEGER NOT NULL, entry INTEGER NOT NULL, leg INTEGER NOT NULL, kind INTEGER NOT NULL, unit INTEGER NOT NULL, qty INTEGER NOT NULL, PRIMARY KEY (branch, entry, leg)) STRICT;
    CREATE TABLE transfer (id TEXT NOT NULL PRIMARY KEY, source INTEGER NOT NULL, target INTEGER NOT NULL, unit INTEGER NOT NULL, qty INTEGER NOT NULL, dispatched INTEGER NOT NULL, payer TEXT NOT NULL, received INTEGER, payee TEXT) STRICT;
    INSERT INTO format VALUES (1);
    INSERT INTO unit VALUES (0, 'EUR', 2, '.', 1, 0, 1);
    INSERT INTO branch VALUES (0, 'north', NULL), (1, 'south', NULL);
    INSERT INTO entry VALUES (0, 1, 19783, 'out:t7', '2024-03-01 transfer t7 to south\n    assets:transit:north:south  50.00 EUR\n    assets:bank  -50.00 EUR\n');
    INSERT INTO leg VALUES (0, 1, 1, 'assets:transit:north:south', 0, 5000), (0, 1, 2, 'assets:bank', 0, -5000);
    INSERT INTO entry VALUES (1, 1, 19785, 'in:t7', '2024-03-03 transfer t7 from north\n    assets:bank  50.00 EUR\n    assets:transit:north:south  -50.00 EUR\n');
    INSERT INTO leg VALUES (1, 1, 1, 'assets:bank', 0, 5000), (1, 1, 2, 'assets:transit:north:south', 0, -5000);
    INSERT INTO transfer VALUES ('t7', 0, 1, 0, 5000, 19783, 'assets:bank', 19785, 'assets:bank');
";

/// The rows of version 1 that have to stay, of the tables where some are changed by commands.
const ROWS: &[(&str, usize, &str)] = &[
    (
        "SELECT nr, name, locked FROM branch ORDER BY nr",
        3,
        "0 north NULL |1 south NULL |",
    ),
    (
        "SELECT branch, nr, account, qty FROM leg ORDER BY branch, nr",
        4,
        "0 1 assets:transit:north:south 5000 |0 2 assets:bank -5000 |1 1 assets:bank 5000 |1 2 assets:transit:north:south -5000 |",
    ),
    (
        "SELECT id, qty, received, payee FROM transfer",
        4,
        "t7 5000 19785 assets:bank |",
    ),
];

/// What says that it is version 2 now.
const SECOND: &[(&str, usize, &str)] = &[
    ("SELECT version FROM format", 1, "2 |"),
    ("SELECT transfer FROM receipt", 1, ""),
];

/// A database of version 1, and a statement that was run over it after.
fn first(rt: &impl Abort, alloc: Global, statement: &str) -> Connection<MemStore> {
    let mut conn = Connection::open_in_memory(alloc).expect(rt, "memory");
    assert!(rt; conn.execute_batch(FIRST).is_ok());
    assert!(rt; conn.execute_batch(statement).is_ok());
    conn
}

/// The store of a database that has to be opened.
fn opened(rt: &impl Abort, alloc: Global, conn: Connection<MemStore>) -> Store<MemStore> {
    assert!(rt; conn.is_autocommit());
    match Store::open(alloc, conn) {
        Ok(store) => store,
        Err(_) => panic!(rt; "not opened"),
    }
}

#[test]
fn version_1_is_opened_as_version_2_with_the_same_rows(rt: HostRuntime) {
    let alloc = rt.alloc();
    let mut conn = first(&rt, alloc, "");
    for _ in 0..2 {
        let mut store = opened(&rt, alloc, conn);
        let state: State<PlainLedger> = store.load().expect(&rt, "a state");
        assert_eq!(rt; state.branches().len(), 2);
        assert_eq!(rt; state.transfers().len(), 1);
        conn = store.into_connection();
        assert_shown(&rt, alloc, &mut conn, ROWS);
        assert_shown(&rt, alloc, &mut conn, SECOND);
    }
}

// What is done to version 1, and the version that is found then.
#[test]
fn no_other_version_is_opened(rt: HostRuntime) {
    let alloc = rt.alloc();
    let rows = [
        ("UPDATE format SET version = 0", Some(0)),
        ("UPDATE format SET version = 2", Some(2)),
        ("UPDATE format SET version = 9", Some(9)),
        ("DELETE FROM format", None),
        ("INSERT INTO format VALUES (1)", None),
        ("CREATE TABLE Receipt (x INTEGER) STRICT", Some(1)),
        ("DROP TABLE claim", None),
    ];
    for (statement, version) in rows {
        let conn = first(&rt, alloc, statement);
        assert!(rt; conn.is_autocommit());
        match Store::open(alloc, conn) {
            Ok(_) => panic!(rt; "opened: {statement}"),
            Err(refused) => {
                let mut conn = refused.conn;
                assert_eq!(rt; refused.cause, Cause::Damaged, "{statement}");
                assert_eq!(rt; found_version(&mut conn), version, "{statement}");
                assert_shown(&rt, alloc, &mut conn, ROWS);
            }
        }
    }
}

// The row of `format` is changed by a step of the database, and no step is left.
#[test]
fn an_opening_that_fails_leaves_version_1(rt: HostRuntime) {
    let alloc = rt.alloc();
    let mut conn = first(&rt, alloc, "");
    conn.set_step_limit(Some(0));
    assert!(rt; conn.is_autocommit());
    match Store::open(alloc, conn) {
        Ok(_) => panic!(rt; "opened"),
        Err(refused) => {
            let mut conn = refused.conn;
            assert_eq!(rt; refused.cause, Cause::Store);
            conn.set_step_limit(None);
            let version = shown(&rt, alloc, &mut conn, "SELECT version FROM format", 1);
            assert_eq!(rt; version.as_str(), "1 |");
            assert_eq!(rt; conn.schema().tables.len(), 7);
            assert_shown(&rt, alloc, &mut conn, ROWS);
        }
    }
}
