//! A treasury over two disks in memory, and a run over it, whose reader and writer fail after so many bytes.

use money_core::Cause;
use sqlite::{Connection, FileStore, Files, Options};
use sqlite_disk::{Disk, Fuse, Memory};
use std::alloc::Global;
use std::io::{self, Read, Write};
use std::process::Abort;
use treasury_api::run_lines;
use treasury_store::{Store, Treasury};

/// A log and a database file.
pub type Disks = Files<Fuse<Memory>>;

/// What a connection stands on here.
type Fuses = FileStore<Fuse<Memory>>;

/// A treasury over them.
pub type Fused = Treasury<Fuses>;

/// A disk that has these bytes, and passes so many calls.
pub fn fused(rt: &impl Abort, alloc: Global, bytes: &[u8], calls: u64) -> Fuse<Memory> {
    let mut memory = Memory::new(alloc);
    assert!(rt; memory.write_at(0, bytes).is_ok() && memory.sync().is_ok());
    Fuse::new(memory, calls)
}

/// A store with new tables; none where a call of the disks fails.
fn created(rt: &impl Abort, alloc: Global, conn: Connection<Fuses>) -> Option<Store<Fuses>> {
    assert!(rt; conn.is_autocommit());
    match Store::create(alloc, conn) {
        Ok(store) => Some(store),
        Err(refused) => {
            let _ = refused.conn.close();
            None
        }
    }
}

/// A store with the tables that are there; none where there are none.
fn opened(rt: &impl Abort, alloc: Global, conn: Connection<Fuses>) -> Option<Store<Fuses>> {
    assert!(rt; conn.is_autocommit());
    match Store::open(alloc, conn) {
        Ok(store) => Some(store),
        Err(refused) => {
            let _ = refused.conn.close();
            None
        }
    }
}

/// A treasury of what the store is of; none where a call of the disks fails.
fn started(alloc: Global, store: Store<Fuses>) -> Option<Fused> {
    match Treasury::start(alloc, store) {
        Ok(treasury) => Some(treasury),
        Err(unstarted) => {
            let _ = unstarted.store.into_connection().close();
            None
        }
    }
}

/// A new treasury on the disks, or that of their tables; none where a call of them fails, or there are no tables.
pub fn treasury_on(rt: &impl Abort, alloc: Global, disks: Disks, is_new: bool) -> Option<Fused> {
    assert!(rt; disks.may_be_used());
    let conn = Connection::open_files(alloc, disks, Options::new(7)).ok()?;
    let store = if is_new {
        created(rt, alloc, conn)?
    } else {
        opened(rt, alloc, conn)?
    };
    started(alloc, store)
}

/// The disks of the treasury, and whether it was closed as it should be. Each test ends so: to drop a treasury whole
/// would have the prover see how each part of it is dropped.
pub fn closed(treasury: Fused) -> (Disks, bool) {
    match treasury.into_store().into_connection().close_files() {
        Ok(disks) => (disks, true),
        Err((_, store)) => (store.close(), false),
    }
}

/// A reader that gives one byte at once, and fails once, after so many, and then goes on.
#[derive(Drop)]
struct Failing<'a> {
    text: &'a [u8],
    left: usize,
}

impl Read for Failing<'_> {
    fn read(&mut self, buf: &mut [u8]) -> io::Result<usize> {
        if self.left == 0 {
            self.left = usize::MAX;
            return Err(io::ErrorKind::Interrupted.into());
        }
        self.left -= 1;
        let most = buf.len().min(1);
        self.text.read(&mut buf[..most])
    }
}

/// A writer that has room for so many bytes, then fails once, and then goes on. If the room is even, it takes nothing
/// in place of an error.
#[derive(Drop)]
struct Narrow {
    taken: Vec<u8>,
    room: usize,
    takes_nothing: bool,
}

impl Write for Narrow {
    fn write(&mut self, buf: &[u8]) -> io::Result<usize> {
        if self.room == 0 {
            self.room = usize::MAX;
            return if self.takes_nothing {
                Ok(0)
            } else {
                Err(io::ErrorKind::Interrupted.into())
            };
        }
        let count = buf.len().min(self.room);
        self.taken.extend_from_slice(&buf[..count])?;
        self.room -= count;
        Ok(count)
    }

    fn flush(&mut self) -> io::Result<()> {
        Ok(())
    }
}

/// A run over the treasury, whose reader fails after so many bytes, and whose writer has room for so many: how it ends,
/// what it wrote, and how many bytes it did not read.
pub fn ran(
    alloc: Global,
    treasury: &mut Fused,
    input: &str,
    reads: usize,
    room: usize,
) -> (Result<(), Cause>, Vec<u8>, usize) {
    let mut reader = Failing {
        text: input.as_bytes(),
        left: reads,
    };
    let mut writer = Narrow {
        taken: Vec::new(alloc),
        room,
        takes_nothing: room % 2 == 0,
    };
    let ended = run_lines(alloc, &mut reader, &mut writer, treasury);
    (ended, writer.taken, reader.text.len())
}

/// What the treasury answers to a request.
pub fn answered(rt: &impl Abort, alloc: Global, treasury: &mut Fused, request: &str) -> Vec<u8> {
    let (ended, text, _) = ran(alloc, treasury, request, usize::MAX, usize::MAX);
    assert_eq!(rt; ended, Ok(()), "{request}");
    text
}
