//! `treasury_store`: what no word of the program leads to, over databases in memory. What commands leave in each table,
//! and which tables are damaged, is in the sessions.

use money_core::Text;
use sqlite::types::ValueRef;
use sqlite::{Connection, MemStore, Row};
use std::alloc::Global;
use std::process::Abort;
use std::str;
use treasury_core::{BranchRow, LegRow, TransferRow};
use treasury_store::{Change, create_tables, write_all};

mod commits;
mod treasuries;
mod versions;

fn text(rt: &impl Abort, alloc: Global, of: &str) -> Text {
    Text::of(alloc, of).expect(rt, "memory")
}

/// A database in memory with the tables of a new treasury.
fn tables(rt: &impl Abort, alloc: Global) -> Connection<MemStore> {
    let mut conn = Connection::open_in_memory(alloc).expect(rt, "memory");
    assert_eq!(rt; create_tables(&mut conn), Ok(true));
    conn
}

/// The branch of that number and name.
fn branch(rt: &impl Abort, alloc: Global, nr: i64, name: &str) -> Change {
    Change::Branch(BranchRow {
        nr,
        name: text(rt, alloc, name),
        locked: None,
    })
}

/// 50.00 EUR from north to south, on the 1st of March 2024, under that ID.
fn transfer(rt: &impl Abort, alloc: Global, id: &str) -> Change {
    Change::Transfer(TransferRow {
        id: text(rt, alloc, id),
        source: 0,
        target: 1,
        unit: 0,
        qty: 5000,
        dispatched: 19783,
        payer: text(rt, alloc, "assets:bank"),
        received: None,
        payee: None,
    })
}

/// The leg of that number of north's first entry.
fn leg(rt: &impl Abort, alloc: Global, nr: i64, account: &str, qty: i64) -> Change {
    Change::Leg(LegRow {
        branch: 0,
        entry: 1,
        nr,
        account: text(rt, alloc, account),
        unit: 0,
        qty,
    })
}

/// A value as text.
fn push_value(rt: &impl Abort, alloc: Global, row: &Row, at: usize, shown: &mut String) {
    let value = match row.get_ref(at).expect(rt, "a column") {
        ValueRef::Null => format!(in alloc; "NULL ").expect(rt, "memory"),
        ValueRef::Int(n) => format!(in alloc; "{n} ").expect(rt, "memory"),
        ValueRef::Text(bytes) => {
            let words = str::from_utf8(bytes).expect(rt, "UTF-8");
            format!(in alloc; "{words} ").expect(rt, "memory")
        }
        _ => format!(in alloc; "? ").expect(rt, "memory"),
    };
    shown.push_str(value.as_str()).expect(rt, "memory");
}

/// The first columns of what a query answers, a space after each, and a bar after each row.
fn shown(
    rt: &impl Abort,
    alloc: Global,
    conn: &mut Connection<MemStore>,
    query: &str,
    columns: usize,
) -> String {
    let rows = conn.query_all(query, &[]).expect(rt, "rows");
    let mut text = String::new(alloc);
    for row in &rows {
        for at in 0..columns {
            push_value(rt, alloc, row, at, &mut text);
        }
        text.push('|').expect(rt, "memory");
    }
    text
}

/// Asserts what the queries answer: a query, the number of its columns, their values.
fn assert_shown(
    rt: &impl Abort,
    alloc: Global,
    conn: &mut Connection<MemStore>,
    rows: &[(&str, usize, &str)],
) {
    for (query, columns, wanted) in rows {
        let found = shown(rt, alloc, conn, *query, *columns);
        assert_eq!(rt; found.as_str(), *wanted, "{query}");
    }
}

/// The rows of one branch, one leg and one transfer.
const ONE_OF_EACH: &[(&str, usize, &str)] = &[
    (
        "SELECT nr, name, locked FROM branch ORDER BY nr",
        3,
        "1 south NULL |",
    ),
    (
        "SELECT nr, account, qty FROM leg ORDER BY nr",
        3,
        "1 expenses:hall 12000 |",
    ),
    (
        "SELECT id, received FROM transfer ORDER BY id",
        2,
        "t7 NULL |",
    ),
];

// A name, a leg's number and an ID that are there.
#[test]
fn changes_are_written_all_or_none(rt: HostRuntime) {
    let alloc = rt.alloc();
    let mut conn = tables(&rt, alloc);
    let first = [
        branch(&rt, alloc, 1, "south"),
        leg(&rt, alloc, 1, "expenses:hall", 12000),
        transfer(&rt, alloc, "t7"),
    ];
    assert!(rt; write_all(&mut conn, first.as_slice()).is_ok());
    let name = [
        branch(&rt, alloc, 2, "west"),
        branch(&rt, alloc, 3, "south"),
    ];
    assert!(rt; write_all(&mut conn, name.as_slice()).is_err());
    let number = [
        leg(&rt, alloc, 2, "assets:cash", 5),
        leg(&rt, alloc, 1, "assets:cash", -5),
    ];
    assert!(rt; write_all(&mut conn, number.as_slice()).is_err());
    let id = [transfer(&rt, alloc, "t6"), transfer(&rt, alloc, "t7")];
    assert!(rt; write_all(&mut conn, id.as_slice()).is_err());
    assert_shown(&rt, alloc, &mut conn, ONE_OF_EACH);
}

#[test]
fn a_transaction_that_is_open_is_an_error(rt: HostRuntime) {
    let alloc = rt.alloc();
    let mut conn = tables(&rt, alloc);
    assert!(rt; conn.execute("BEGIN", &[]).is_ok());
    let changes = [branch(&rt, alloc, 0, "north")];
    assert!(rt; write_all(&mut conn, changes.as_slice()).is_err());
    assert!(rt; conn.execute("ROLLBACK", &[]).is_ok());
    assert!(rt; write_all(&mut conn, changes.as_slice()).is_ok());
}
