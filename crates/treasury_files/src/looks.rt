//! Why a file cannot be read, or not be used as a database, by a look at it and beside it.

use crate::file::read_at_most;
use money_core::Cause;
use std::alloc::Global;
use std::fs::{self, File, OpenOptions};
use std::io::{Error, ErrorKind};
use std::os::unix::fs::MetadataExt;

/// The numbers by which a system says that a process, or the machine, has no file descriptor left.
const NO_DESCRIPTOR: [i32; 2] = [24, 23];

/// How many files an opening has open together, with the journal's.
const DESCRIPTORS: usize = 4;

/// How many bytes of a database's head are looked at.
const HEAD: u64 = 64;

/// The reason of an error of the system, where it has a sentence.
fn reason_of(error: Error) -> Option<&'static [u8]> {
    match error.raw_os_error() {
        Some(code) if NO_DESCRIPTOR.contains(&code) => {
            return Some(b"there are too few file descriptors: raise `ulimit -n`");
        }
        _ => {}
    }
    match error.kind() {
        ErrorKind::NotFound => Some(b"there is no such file"),
        ErrorKind::PermissionDenied => Some(b"this user has no permission"),
        ErrorKind::IsADirectory => Some(b"it is a folder"),
        ErrorKind::NotADirectory => Some(b"a part of the path is not a folder"),
        ErrorKind::InvalidFilename => Some(b"the name is too long"),
        ErrorKind::FilesystemLoop => Some(b"its symbolic links form a loop"),
        ErrorKind::ReadOnlyFilesystem => Some(b"the file system is mounted read-only"),
        ErrorKind::StorageFull => Some(b"the disk is full"),
        ErrorKind::QuotaExceeded => Some(b"the disk quota is used up"),
        _ => None,
    }
}

/// Why a journal's file cannot be read.
pub fn why_unread(rt: &HostRuntime, path: &str) -> Option<&'static [u8]> {
    match fs::metadata(rt, path) {
        Ok(found) if found.is_dir() => Some(b"it is a folder"),
        Ok(_) => match fs::open(rt, path) {
            Ok(_) => None,
            Err(error) => reason_of(error),
        },
        Err(error) => reason_of(error),
    }
}

/// Why a process may not have as many files open together as a database takes, by trying.
fn lacks_descriptors(rt: &HostRuntime, path: &str) -> Option<&'static [u8]> {
    let mut held: Vec<File> = Vec::new(rt.alloc());
    for _ in 0..DESCRIPTORS {
        match fs::open(rt, path) {
            Ok(file) => {
                if held.push(file).is_err() {
                    return None;
                }
            }
            Err(error) => return reason_of(error),
        }
    }
    None
}

/// The name of the file that stands beside a database.
fn beside(alloc: Global, path: &str, end: &str) -> Result<String, Cause> {
    let name = format!(in alloc; "{path}{end}")?;
    Ok(name)
}

/// What stands in the way beside the file: a journal that has to be played back, or a folder in the log's place.
fn in_the_way(rt: &HostRuntime, path: &str) -> Option<&'static [u8]> {
    let Ok(journal) = beside(rt.alloc(), path, "-journal") else {
        return None;
    };
    let Ok(log) = beside(rt.alloc(), path, "-wal") else {
        return None;
    };
    match fs::symlink_metadata(rt, journal.as_str()) {
        Ok(found) if !found.is_file() => {
            return Some(b"something else has the name of its rollback journal, FILE-journal");
        }
        Ok(found) if found.len() > 0 => {
            return Some(
                b"a rollback journal of another program stands beside it: open the file once with sqlite3, which plays it back",
            );
        }
        Err(error) if error.kind() == ErrorKind::InvalidFilename => {
            return Some(b"the name is too long: its log needs a name that is longer");
        }
        _ => {}
    }
    match fs::symlink_metadata(rt, log.as_str()) {
        Ok(found) if found.is_dir() => Some(b"a folder has the name of its log, FILE-wal"),
        Ok(found) if !found.is_file() => {
            Some(b"something else has the name of its log, FILE-wal")
        }
        Ok(_) => match OpenOptions::new()
            .read(true)
            .write(true)
            .open(rt, log.as_str())
        {
            Ok(_) => None,
            Err(_) => Some(b"its log, FILE-wal, may not be written by this user"),
        },
        Err(_) => Some(b"its log, FILE-wal, could not be made: may this user write to the folder?"),
    }
}

/// What a database has by its head that the treasury does not read.
fn foreign(alloc: Global, file: File) -> Option<&'static [u8]> {
    let Ok(bytes) = read_at_most(alloc, file, HEAD) else {
        return None;
    };
    let head = bytes.as_slice();
    if !head.starts_with(b"SQLite format 3\0") {
        return None;
    }
    // The last byte of the number that says how texts are encoded, and the page of auto_vacuum, if any.
    if let Some(2 | 3) = head.get(59) {
        return Some(b"its texts are UTF-16: the treasury reads databases of UTF-8 alone");
    }
    match head.get(52..56) {
        Some(page) if page.iter().any(|byte| *byte != 0) => {
            Some(b"it has auto_vacuum, which the treasury does not read")
        }
        _ => None,
    }
}

/// Why a file cannot be used as a database, as far as a look at it and beside it tells.
pub fn why_unused(rt: &HostRuntime, path: &str) -> Option<&'static [u8]> {
    let found = match fs::metadata(rt, path) {
        Ok(found) => found,
        Err(error) => {
            return match error.kind() {
                ErrorKind::NotFound => Some(
                    b"its folder is not there or mounted read-only, or this user may not write to it",
                ),
                _ => reason_of(error),
            };
        }
    };
    if !found.is_file() {
        return None;
    }
    if found.nlink() > 1 {
        return Some(
            b"the file has a second name, a hard link: remove it, since a log belongs to one name",
        );
    }
    match OpenOptions::new().read(true).write(true).open(rt, path) {
        Ok(file) => match foreign(rt.alloc(), file) {
            Some(reason) => Some(reason),
            None => match lacks_descriptors(rt, path) {
                Some(reason) => Some(reason),
                None => in_the_way(rt, path),
            },
        },
        Err(error) => reason_of(error),
    }
}
