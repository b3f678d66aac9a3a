//! What a database file is by its first bytes, and the log that may stand beside it.

ghost use Rattle.std.specs.Prelude.{◌≡◌, ◌≢◌, ◌↔◌};
ghost use Rattle.treasury_files.specs.Look.{magic, MayHavePages};

use crate::file::{CANNOT_OPEN, Unopened, read_at_most};
use money_core::Cause;
use std::fs;
use std::io::ErrorKind;

/// How a database file begins.
const MAGIC: &[u8] = b"SQLite format 3\0";

const MAGIC_LEN: u64 = 16;

/// The bytes of the page that `init` begins a file with.
const FIRST_PAGE: u64 = 4096;

/// The fewest bytes of a log that has room for a page. A log that was closed has fewer, and SQLite passes over those.
const LEAST_LOG: u64 = 56;

/// What a file is to a word.
#[derive(Clone, Copy, Debug, PartialEq, Eq)]
pub enum Look {
    /// There is no file, or an empty one.
    Absent,
    /// It does not begin as a database.
    Foreign,
    /// It begins as a database, and no log that has pages stands beside it.
    Alone,
    /// It begins as a database, and a log that may have pages stands beside it.
    Beside,
}

/// What a file of `size` bytes is whose first bytes are `head`, at most 16 of them, beside a log of `log` bytes, 0
/// where there is none.
pub fn judge_look(size: u64, head: &[u8], log: Option<u64>) -> Look
    ensures absent { result ≡ Look.Absent ↔ size ≡ 0 }
    ensures foreign { result ≡ Look.Foreign ↔ (size ≢ 0) × (head.now ≢ magic) }
    ensures alone { result ≡ Look.Alone ↔ (size ≢ 0) × ((head.now ≡ magic) × (MayHavePages log → ⊥)) }
    ensures beside { result ≡ Look.Beside ↔ (size ≢ 0) × ((head.now ≡ magic) × MayHavePages log) }
{
    if size == 0 {
        return Look::Absent;
    }
    if head != MAGIC {
        return Look::Foreign;
    }
    match log {
        Some(bytes) if bytes < LEAST_LOG => Look::Alone,
        _ => Look::Beside,
    }
}

/// Whether each byte is that of a database at its place, or 0.
fn is_part_of_magic(head: &[u8]) -> bool {
    head.iter()
        .zip(MAGIC.iter())
        .all(|(byte, whole)| *byte == 0 || *byte == *whole)
}

/// Whether a file is as `init` leaves it that was cut off before it was a database: it has one page at most, whose
/// first byte is written last. After a power cut other bytes may lack too, and are 0 then.
fn is_begun(size: u64, head: &[u8]) -> bool {
    match head.first() {
        Some(0) => size <= FIRST_PAGE && is_part_of_magic(head),
        _ => false,
    }
}

/// Why a file of `size` bytes that does not begin as a database serves no word.
fn why_foreign(size: u64, head: &[u8]) -> &'static str {
    if is_begun(size, head) {
        "`treasury init` was cut off before the file was a database: remove it and its log, FILE-wal, and call init again"
    } else {
        "the file is not an SQLite database"
    }
}

/// The name of a file's log. Where the file is a link, the log stands beside what it leads to.
pub fn log_name(rt: &HostRuntime, path: &str) -> Result<String, Unopened> {
    let named = match fs::symlink_metadata(rt, path) {
        Ok(found) if found.is_symlink() => match fs::canonicalize(rt, path) {
            Ok(real) => format!(in rt.alloc(); "{}-wal", real.as_str()),
            Err(error) if error.kind() == ErrorKind::OutOfMemory => {
                return Err(Unopened::NoMemory);
            }
            Err(_) => format!(in rt.alloc(); "{path}-wal"),
        },
        _ => format!(in rt.alloc(); "{path}-wal"),
    };
    named.map_err(|_| Unopened::NoMemory)
}

/// The bytes of a log, 0 where there is none; none where that cannot be told.
fn log_len(rt: &HostRuntime, log: &str) -> Option<u64> {
    match fs::metadata(rt, log) {
        Ok(found) => Some(found.len()),
        Err(error) if error.kind() == ErrorKind::NotFound => Some(0),
        Err(_) => None,
    }
}

/// Whether a log that has pages stands beside the file.
pub fn has_log(rt: &HostRuntime, path: &str) -> bool {
    match log_name(rt, path) {
        Ok(log) => match log_len(rt, log.as_str()) {
            Some(bytes) => bytes >= LEAST_LOG,
            None => false,
        },
        Err(_) => false,
    }
}

/// The first bytes of a file, at most so many.
pub fn head_of(rt: &HostRuntime, path: &str, most: u64) -> Result<Vec<u8>, Unopened> {
    let file = match fs::open(rt, path) {
        Ok(file) => file,
        Err(error) if error.kind() == ErrorKind::OutOfMemory => return Err(Unopened::NoMemory),
        Err(_) => return Err(Unopened::Unusable(CANNOT_OPEN)),
    };
    match read_at_most(rt.alloc(), file, most) {
        Ok(bytes) => Ok(bytes),
        Err(Cause::OutOfMemory) => Err(Unopened::NoMemory),
        Err(_) => Err(Unopened::Unusable(CANNOT_OPEN)),
    }
}

/// What a file of `size` bytes is, by a look at its first bytes and at its log: 41 where it does not begin as a
/// database.
pub fn look_beside(rt: &HostRuntime, path: &str, size: u64) -> Result<Look, Unopened> {
    let head = match head_of(rt, path, MAGIC_LEN) {
        Ok(head) => head,
        Err(unopened) => return Err(unopened),
    };
    let log = match log_name(rt, path) {
        Ok(name) => log_len(rt, name.as_str()),
        Err(unopened) => return Err(unopened),
    };
    match judge_look(size, head.as_slice(), log) {
        Look::Foreign => Err(Unopened::Unusable(why_foreign(size, head.as_slice()))),
        look => Ok(look),
    }
}
