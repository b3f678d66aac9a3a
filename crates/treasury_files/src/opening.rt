//! The two files of a database, opened, and how many of their pages are kept in memory meanwhile.

ghost use Rattle.std.specs.Prelude.{◌≡◌, ◌+◌, ◌/◌, ◌<◌, ◌≤◌, min, IfOk, IfErr};
ghost use Rattle.sqlite_wal.specs.Files.{image_at};
ghost use Rattle.treasury_files.specs.Started.{cause_of_why};
ghost use Rattle.treasury_files.specs.Leaving.{AreOpened};

use crate::beside::head_of;
use crate::file::{CANNOT_OPEN, IN_USE, Unopened};
use money_core::Cause;
use sqlite::{FileFrom, Files, Options, Start};
use sqlite_disk::Disk;
use sqlite_std_file::OpenError;
use std::fs;
use std::hash::{BuildHasher, RandomState};
use std::io::ErrorKind;

/// The pages that a file may get while it is open without one being read again: more than most commands add.
const MORE_PAGES: u64 = 64;

/// The most pages that are kept in memory: of the usual size, 64 MiB.
const MOST_PAGES: u64 = 16_384;

/// The first bytes of a file that say how large its pages are.
const SIZED_HEAD: u64 = 18;

/// The bytes of a page as SQLite makes it, and the fewest that one has.
const USUAL_PAGE: u64 = 4096;

const LEAST_PAGE: u64 = 512;

/// The bytes of a page of a file that begins so.
fn page_size(head: &[u8]) -> u64
    ensures { 512 ≤ result }
{
    match (head.get(16), head.get(17)) {
        (Some(0), Some(1)) => 65_536,
        (Some(high), Some(low)) => (u64::from(*high) * 256 + u64::from(*low)).max(LEAST_PAGE),
        _ => USUAL_PAGE,
    }
}

/// How many pages of a file of `size` bytes are kept in memory: room for all of them and a few more, up to a bound.
pub fn cache_pages(size: u64, page_size: u64) -> usize
    requires { 0 < page_size }
    ensures { result ≡ min (size / page_size + 64) 16384 }
{
    let pages = (size / page_size).min(MOST_PAGES - MORE_PAGES);
    (pages + MORE_PAGES) as usize
}

/// How many pages are kept in memory of the file that has this name. Where it cannot be looked at, its opening says
/// why.
fn cache_for(rt: &HostRuntime, path: &str) -> usize {
    let size = match fs::metadata(rt, path) {
        Ok(found) => found.len(),
        Err(_) => 0,
    };
    match head_of(rt, path, SIZED_HEAD) {
        Ok(head) => cache_pages(size, page_size(head.as_slice())),
        Err(_) => cache_pages(size, USUAL_PAGE),
    }
}

/// How a file is opened: its cache, and a random number for the salts of its log.
pub(crate) fn options_for(rt: &HostRuntime, path: &str) -> Result<Options, Unopened>
    ensures { IfErr result (λ why. cause_of_why why ≡ Cause.Damaged → ⊥) }
{
    let Ok(random) = RandomState::new(rt) else {
        return Err(Unopened::Unusable(CANNOT_OPEN));
    };
    let mut options = Options::new(random.hash_one(&0u8));
    options.cache_pages = cache_for(rt, path);
    Ok(options)
}

/// Why the two files were not opened.
fn why_closed(error: OpenError) -> Unopened
    ensures { cause_of_why result ≡ Cause.Damaged → ⊥ }
{
    match error {
        OpenError::OutOfMemory => Unopened::NoMemory,
        OpenError::Io(error) if error.kind() == ErrorKind::OutOfMemory => Unopened::NoMemory,
        OpenError::Busy => Unopened::Unusable(IN_USE),
        _ => Unopened::Unusable(CANNOT_OPEN),
    }
}

/// The database file of that name and its log, each made where it is not there; no other program opens them while
/// they are open. A name that is none of a file to SQLite is refused.
pub(crate) fn open_files<S: Start>(
    rt: &HostRuntime,
    path: &str,
    start: S,
) -> Result<Files<FileFrom<S>>, Unopened>
    ensures opened { IfOk result (AreOpened ⟦<FileFrom<S> as Disk>⟧ (image_at S.Start)) }
    ensures never { IfErr result (λ why. cause_of_why why ≡ Cause.Damaged → ⊥) }
{
    if path == ":memory:" || path.starts_with("file:") {
        return Err(Unopened::Unusable(CANNOT_OPEN));
    }
    match sqlite_std_file::open(rt, path, start) {
        Ok(files) => Ok(files),
        Err(error) => Err(why_closed(error)),
    }
}
