//! A file in memory that no crash reaches: it keeps its bytes alone, and a sync does nothing.
//!
//! A run uses the kit's store over files, and not its store in memory, which keeps each tree as one sorted list: a row
//! that comes out of order moves all rows after it. These files provably return what was written, and take their
//! memory when they are made, so that running out of it shows in a statement, which rolls back, and seldom in a file.

ghost use Rattle.std.specs.Prelude.{◌≡◌, ◌+◌, ◌≤◌, ◌<◌, [], length, take, drop, true, false, refl, is_ok, IfOk, OnOk};
ghost use Rattle.std.specs.Prelude.{OnErr, vec_capacity};
ghost use Rattle.sqlite_disk.specs.Disk.{Holds, Torn, Cut, CountsFault};
ghost use Rattle.sqlite_disk.specs.Refusal.{finds_no_room};
ghost use Rattle.treasury_memory.specs.Disk.{disk_bytes, disk_room, disk_faults};

use sqlite_disk::{Disk, Tally};
use std::alloc::{AllocError, Global};
use std::io;

/// The most room that a disk takes, in bytes, for several times a full federation. Room that is never written to is
/// address space alone.
const MOST_ROOM: usize = 0x1_0000_0000;

/// The room below which a disk is not made, in bytes.
const LEAST_ROOM: usize = 0x10_0000;

/// How many times its room has to be granted at once when a disk is made, so that the two of a database take at most a
/// quarter of it.
const SHARE: usize = 8;

/// The bytes of a page.
const PAGE: usize = 1024;

/// How a database with such pages begins that has no rows: the header of SQLite's file format, and an empty leaf after
/// it.
const START: [u8; 108] = [
    // "SQLite format 3", and a 0.
    83, 81, 76, 105, 116, 101, 32, 102, 111, 114, 109, 97, 116, 32, 51, 0,
    // The size of a page, a log for writing and for reading, no bytes kept at a page's end, and three fractions that
    // are fixed.
    4, 0, 2, 2, 0, 64, 32, 32,
    // One change, one page, no free pages, no change of the schema, the schema's format 4.
    0, 0, 0, 1, 0, 0, 0, 1, 0, 0, 0, 0, 0, 0, 0, 0, 0, 0, 0, 0, 0, 0, 0, 4,
    // The usual cache, no vacuum, UTF-8, and no numbers of a program's own.
    0, 0, 0, 0, 0, 0, 0, 0, 0, 0, 0, 1, 0, 0, 0, 0, 0, 0, 0, 0, 0, 0, 0, 0,
    // Nothing, and the change that the count of pages is of, with no version.
    0, 0, 0, 0, 0, 0, 0, 0, 0, 0, 0, 0, 0, 0, 0, 0, 0, 0, 0, 0, 0, 0, 0, 1, 0, 0, 0, 0,
    // A leaf of a table, with no cells, whose content begins at the page's end.
    13, 0, 0, 0, 0, 4, 0, 0,
];

/// A file in memory, with room taken ahead.
///
/// No answer of it is ever wrong, so it is clean for ever. A write within its room is not refused.
#[derive(Drop)]
pub struct MemoryDisk {
    bytes: Vec<u8>,
    faults: u64,
}

impl MemoryDisk {
    /// An empty file.
    pub fn new(alloc: Global) -> Result<MemoryDisk, AllocError>
        ensures empty { IfOk result (λ disk. disk_bytes disk ≡ []) }
        ensures room { IfOk result (λ disk. LEAST_ROOM ≤ disk_room disk) }
        ensures faultless { IfOk result (λ disk. disk_faults disk ≡ 0) }
    {
        Ok(MemoryDisk {
            bytes: take_room(alloc)?,
            faults: 0,
        })
    }

    /// A file that begins as an empty database with pages of 1,024 bytes, which cost less to copy than the usual 4,096.
    pub(crate) fn paged(alloc: Global) -> Result<MemoryDisk, AllocError>
        ensures room { IfOk result (λ disk. LEAST_ROOM ≤ disk_room disk) }
    {
        let mut bytes = take_room(alloc)?;
        bytes.extend_from_slice(&START)?;
        bytes.resize(PAGE, 0)?;
        Ok(MemoryDisk { bytes, faults: 0 })
    }
}

impl Disk for MemoryDisk {
    ghost seen = { λ disk. disk.bytes.items };

    ghost may_leave = { λ disk left. left ≡ disk.bytes.items };

    ghost is_usable = { λ _. true };

    ghost faults = { λ disk. disk.faults };

    ghost is_clean = { λ _. true };

    ghost tally_of = { λ _. record { caught = 0; refused = 0 } };

    ghost key_of = { λ _. 0 };

    ghost is_fair = { λ _ _. true };

    ghost fair_if_clean = { λ _ _ _. refl };

    ghost seen_may_stay = { λ _. refl };

    fn mixes(&self) -> bool {
        false
    }

    fn key(&self) -> u64 {
        0
    }

    fn tally(&self) -> Tally {
        Tally {
            caught: 0,
            refused: 0,
        }
    }

    fn may_be_used(&self) -> bool {
        true
    }

    fn len(&mut self) -> io::Result<usize> {
        Ok(self.bytes.len())
    }

    fn read_at(&mut self, at: usize, buf: &mut [u8]) -> io::Result<()> {
        read(&self.bytes, at, buf)
    }

    /// The bytes are those that were written, so they have the digest that they had, and it is not taken again.
    fn read_checked(&mut self, key: u64, want: u64, at: usize, buf: &mut [u8]) -> io::Result<()> {
        read(&self.bytes, at, buf)
    }

    fn write_at(&mut self, at: usize, bytes: &[u8]) -> io::Result<()> {
        count(overwrite(&mut self.bytes, at, bytes), &mut self.faults)
    }

    fn set_len(&mut self, len: usize) -> io::Result<()> {
        count(resize(&mut self.bytes, len), &mut self.faults)
    }

    fn sync(&mut self) -> io::Result<()> {
        Ok(())
    }
}

/// Whether so many bytes are granted. They are given back at once.
fn is_granted(alloc: Global, bytes: usize) -> bool {
    Vec::<u8>::with_capacity(alloc, bytes).is_ok()
}

/// No bytes, with the most room of which `SHARE` times as much is granted: half of it after each refusal.
fn take_room(alloc: Global) -> Result<Vec<u8>, AllocError>
    ensures empty { IfOk result (λ bytes. bytes.items ≡ []) }
    ensures room { IfOk result (λ bytes. LEAST_ROOM ≤ vec_capacity bytes) }
{
    let mut asked = SHARE * MOST_ROOM;
    'halves: while asked >= SHARE * LEAST_ROOM {
        if is_granted(alloc, asked) {
            return Vec::with_capacity(alloc, asked / SHARE);
        }
        asked /= 2;
    }
    Err(AllocError)
}

/// Reads the bytes from `at` on; past the end of the file is an error.
fn read(file: &[u8], at: usize, buf: &mut [u8]) -> io::Result<()>
    ensures read { OnOk result ((at + length buf.old ≤ length file.now)
        × (buf.new ≡ take (length buf.old) (drop at file.now))) }
    ensures past { OnErr result (length file.now < at + length buf.old) }
{
    if at > file.len() || buf.len() > file.len() - at {
        return Err(io::ErrorKind::UnexpectedEof.into());
    }
    buf.copy_from_slice(&file[at..at + buf.len()]);
    Ok(())
}

/// Counts a failure as a fault.
fn count(outcome: Result<(), AllocError>, faults: &mut u64) -> io::Result<()>
    ensures variant { is_ok result ≡ is_ok outcome }
    ensures kind { finds_no_room result ≡ false }
    ensures faults { CountsFault result faults.old faults.new }
{
    if outcome.is_err() {
        *faults = faults.saturating_add(1);
        return Err(io::ErrorKind::OutOfMemory.into());
    }
    Ok(())
}

/// Takes more room, so that a file of that length is within it: an eighth of the length and 1 MiB more than that where
/// they are granted, so that it is seldom asked for.
fn widen(file: &mut Vec<u8>, len: usize) -> Result<(), AllocError>
    ensures bytes { file.new.items ≡ file.old.items }
    ensures past_room { OnErr result (vec_capacity file.old < len) }
    ensures room { vec_capacity file.old ≤ vec_capacity file.new }
{
    let more = len.saturating_sub(file.len());
    match file.reserve_exact(more.saturating_add(len / 8 + LEAST_ROOM)) {
        Ok(()) => Ok(()),
        Err(_) => file.reserve_exact(more),
    }
}

/// Cuts the file, or fills it up with zeros. It fails only past its room, and then nothing is changed.
fn resize(file: &mut Vec<u8>, len: usize) -> Result<(), AllocError>
    ensures len { OnOk result (length file.new.items ≡ len) }
    ensures others { Cut len file.old.items file.new.items }
    ensures err { OnErr result (file.new.items ≡ file.old.items) }
    ensures past_room { OnErr result (vec_capacity file.old < len) }
    ensures room { vec_capacity file.old ≤ vec_capacity file.new }
{
    if len > file.capacity() {
        widen(file, len)?;
    }
    file.resize(len, 0)
}

/// Writes the bytes at `at`, over what is there and past the end. It fails only past the file's room, and then nothing
/// is changed.
fn overwrite(file: &mut Vec<u8>, at: usize, bytes: &[u8]) -> Result<(), AllocError>
    ensures written { OnOk result (Holds file.new.items at bytes.now) }
    ensures others { Torn at (length bytes.now) file.old.items file.new.items }
    ensures err { OnErr result (file.new.items ≡ file.old.items) }
    ensures past_room { OnErr result (vec_capacity file.old < at + length bytes.now) }
    ensures room { vec_capacity file.old ≤ vec_capacity file.new }
{
    let end = at.checked_add(bytes.len()).ok_or(AllocError)?;
    if end > file.len() {
        resize(file, end)?;
    }
    file[at..end].copy_from_slice(bytes);
    Ok(())
}
