//! A database file that another program has in use is waited for.

use os::RangeLock;
use std::fs::{self, File, OpenOptions};
use std::os::fd::AsRawFd;
use std::thread;
use std::time::Duration;

/// How often a file is tried, and for how long it is left in between: five seconds in all.
const TRIES: usize = 2_500;

const PAUSE_MILLIS: u64 = 2;

/// The bytes that SQLite locks, far beyond those of most files: its own, and after them one that says whose turn it is
/// among treasuries. Only the locks stand there.
const SQLITE_LOCK: u64 = 1 << 30;

const SQLITE_LOCK_LEN: u64 = 512;

const TURN_LOCK: u64 = SQLITE_LOCK + 4_096;

/// A turn on a file that no other program uses. While it is held, no other treasury takes its turn.
#[derive(Drop)]
pub struct Turn {
    /// Only held: nobody else can read or write by it.
    _file: File,
}

/// Whether the turn is had.
fn takes_turn(file: &File) -> bool {
    os::try_lock_range(file.as_raw_fd(), RangeLock::Exclusive, TURN_LOCK, 1) == 0
}

/// Whether no program has the file open as a database.
fn is_free(file: &File) -> bool {
    let taken = os::try_lock_range(
        file.as_raw_fd(),
        RangeLock::Exclusive,
        SQLITE_LOCK,
        SQLITE_LOCK_LEN,
    );
    if taken != 0 {
        return false;
    }
    let _ = os::try_lock_range(
        file.as_raw_fd(),
        RangeLock::Unlock,
        SQLITE_LOCK,
        SQLITE_LOCK_LEN,
    );
    true
}

/// The file, open for reading and writing; none where it is no regular file, or may not be written.
fn opened(rt: &HostRuntime, path: &str) -> Option<File> {
    match fs::metadata(rt, path) {
        Ok(found) if found.is_file() => {}
        _ => return None,
    }
    match OpenOptions::new().read(true).write(true).open(rt, path) {
        // What is meant for a standard stream that was closed must not land in the file.
        Ok(file) if file.as_raw_fd() > 2 => Some(file),
        _ => None,
    }
}

/// Whether another program has the file open as a database, as far as that can be told.
pub fn is_in_use(rt: &HostRuntime, path: &str) -> bool {
    match opened(rt, path) {
        Some(file) => !is_free(&file),
        None => false,
    }
}

/// Waits until no other program uses the file, for at most five seconds. Nothing is read or written.
///
/// None where there is no such file, or it stays in use: its opening says why then.
pub fn wait_for(rt: &HostRuntime, path: &str) -> Option<Turn> {
    let Some(file) = opened(rt, path) else {
        return None;
    };
    let mut has_turn = false;
    for _ in 0..TRIES {
        has_turn = has_turn || takes_turn(&file);
        if has_turn && is_free(&file) {
            return Some(Turn { _file: file });
        }
        thread::sleep(rt, Duration::from_millis(PAUSE_MILLIS));
    }
    None
}
