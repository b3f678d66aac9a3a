//! `treasury_memory`: a file in memory, and a database over two of them, with ample memory.

use sqlite::{Connection, Error, params};
use sqlite_disk::Disk;
use std::alloc::Global;
use std::process::Abort;
use treasury_memory::{MemoryDisk, MemoryStore, clean_law, open_memory};

/// Asserts that the file has these bytes and no more.
fn assert_bytes(rt: &impl Abort, disk: &mut MemoryDisk, wanted: &[u8], row: &str) {
    let mut found = [0; 8];
    assert!(rt; disk.len().is_ok_and(|len| len == wanted.len()), "{row}");
    for at in 0..wanted.len() {
        assert!(rt; disk.read_at(at, &mut found[..1]).is_ok(), "{row}");
        assert_eq!(rt; found[0], wanted[at], "{row}");
    }
    assert!(rt;
        disk.read_at(wanted.len(), &mut found[..1]).is_err(),
        "{row}"
    );
}

// Columns: where, what is written, all bytes after it; no bytes to write: the new length.
const WRITES: &[(usize, &[u8], &[u8])] = &[
    (0, b"abc", b"abc"),
    (1, b"X", b"aXc"),
    (2, b"YZ", b"aXYZ"),
    (6, b"!", b"aXYZ\0\0!"),
    (2, b"", b"aX"),
    (4, b"", b"aX\0\0"),
    (0, b"", b""),
];

fn assert_writes(rt: &impl Abort, disk: &mut MemoryDisk, rows: &[(usize, &[u8], &[u8])]) {
    for (at, bytes, after) in rows {
        let done = if bytes.is_empty() {
            disk.set_len(*at)
        } else {
            disk.write_at(*at, *bytes)
        };
        assert!(rt; done.is_ok() && disk.sync().is_ok(), "at {at}");
        assert_bytes(rt, disk, *after, "at {at}");
    }
}

#[test]
fn a_file_has_what_was_written(rt: HostRuntime) {
    let mut disk = MemoryDisk::new(rt.alloc()).expect(&rt, "memory");
    assert_writes(&rt, &mut disk, WRITES);
}

/// The number that a query answers.
fn number(conn: &mut Connection<MemoryStore>, query: &str) -> Result<i64, Error> {
    conn.query_row(query, &[])?.get(0)
}

/// Asserts what the queries answer.
fn assert_numbers(rt: &impl Abort, conn: &mut Connection<MemoryStore>, rows: &[(&str, i64)]) {
    for (query, wanted) in rows {
        assert_eq!(rt; number(conn, *query), Ok(*wanted), "{query}");
    }
}

const BOXES: &str =
    "CREATE TABLE box (nr INTEGER PRIMARY KEY, mark TEXT NOT NULL UNIQUE, body TEXT NOT NULL) STRICT";

/// An empty database with a table of boxes.
fn boxes(rt: &impl Abort, alloc: Global) -> Connection<MemoryStore> {
    let mut conn = open_memory(alloc).expect(rt, "memory");
    clean_law(&conn);
    assert_eq!(rt;
        number(&mut conn, "SELECT count(*) FROM sqlite_schema"),
        Ok(0)
    );
    assert!(rt; conn.is_autocommit());
    assert!(rt; conn.execute_batch(BOXES).is_ok());
    conn
}

/// Puts the boxes `from..to`, whose marks come in no order.
fn put_boxes(
    conn: &mut Connection<MemoryStore>,
    from: i64,
    to: i64,
    body: &str,
) -> Result<(), Error> {
    for nr in from..to {
        conn.execute(
            "INSERT INTO box (nr, mark, body) VALUES (?1, ?1 * 7919 % 5003 || '', ?2)",
            params![nr, body],
        )?;
    }
    Ok(())
}

#[test]
fn what_is_rolled_back_is_gone(rt: HostRuntime) {
    let mut conn = boxes(&rt, rt.alloc());
    assert!(rt; put_boxes(&mut conn, 1, 3, "kept").is_ok());
    assert!(rt; conn.execute_batch("BEGIN").is_ok());
    assert!(rt; put_boxes(&mut conn, 3, 10, "gone").is_ok());
    assert!(rt; conn.execute_batch("DELETE FROM box WHERE nr = 1").is_ok());
    assert_numbers(&rt, &mut conn, &[("SELECT count(*) FROM box", 8)]);
    assert!(rt; conn.execute_batch("ROLLBACK").is_ok());
    let rows = [
        ("SELECT count(*) FROM box", 2),
        ("SELECT sum(nr) FROM box", 3),
        ("SELECT count(*) FROM box WHERE body = 'gone'", 0),
    ];
    assert_numbers(&rt, &mut conn, rows.as_slice());
    assert!(rt; put_boxes(&mut conn, 3, 4, "again").is_ok());
    assert!(rt; put_boxes(&mut conn, 3, 4, "taken").is_err());
    assert_numbers(&rt, &mut conn, &[("SELECT count(*) FROM box", 3)]);
}

// With two rows to a page there are more pages than are kept beside the two files, and the log is copied into the file.
#[test]
fn five_thousand_rows_are_read_again(rt: HostRuntime) {
    let alloc = rt.alloc();
    let body = "0123456789".repeat(alloc, 180).expect(&rt, "memory");
    let mut conn = boxes(&rt, alloc);
    assert!(rt; conn.execute_batch("BEGIN").is_ok());
    assert!(rt; put_boxes(&mut conn, 1, 5001, body.as_str()).is_ok());
    assert!(rt; conn.execute_batch("COMMIT").is_ok());
    let rows = [
        ("SELECT count(*) FROM box", 5000),
        ("SELECT sum(nr) FROM box", 12_502_500),
        ("SELECT sum(length(body)) FROM box", 9_000_000),
        ("SELECT nr FROM box WHERE mark = '2916'", 1),
        ("SELECT nr FROM box WHERE mark = '829'", 2),
    ];
    assert_numbers(&rt, &mut conn, rows.as_slice());
    assert!(rt; put_boxes(&mut conn, 5001, 5002, "last").is_ok());
    assert_numbers(&rt, &mut conn, &[("SELECT sum(nr) FROM box", 12_507_501)]);
}
