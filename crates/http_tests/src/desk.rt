//! A treasury in memory, and a connection to it, whose reader and writer fail after so many bytes.

use money_core::Cause;
use sqlite::{Connection, MemStore};
use std::alloc::Global;
use std::io::{self, ErrorKind, Read, Write};
use std::process::Abort;
use treasury_api::serve_one;
use treasury_store::{Store, Treasury};

/// A treasury of nothing.
pub fn begun(rt: &impl Abort, alloc: Global) -> Treasury<MemStore> {
    let conn = Connection::open_in_memory(alloc).expect(rt, "memory");
    let store = match Store::create(alloc, conn) {
        Ok(store) => store,
        Err(_) => panic!(rt; "not made"),
    };
    match Treasury::start(alloc, store) {
        Ok(treasury) => treasury,
        Err(_) => panic!(rt; "not started"),
    }
}

/// Gives so many bytes at most at each read, and fails after the last.
#[derive(Drop)]
struct Given<'a> {
    rest: &'a [u8],
    part: usize,
}

impl Read for Given<'_> {
    fn read(&mut self, buf: &mut [u8]) -> io::Result<usize> {
        if self.rest.is_empty() {
            return Err(io::Error::from(ErrorKind::TimedOut));
        }
        let most = buf.len().min(self.part);
        self.rest.read(&mut buf[..most])
    }
}

/// Takes so many bytes, and then fails, or takes nothing.
#[derive(Drop)]
struct Narrow {
    taken: Vec<u8>,
    room: usize,
    fails: bool,
}

impl Write for Narrow {
    fn write(&mut self, buf: &[u8]) -> io::Result<usize> {
        if self.room == 0 && self.fails {
            return Err(io::Error::from(ErrorKind::ConnectionReset));
        }
        let count = buf.len().min(self.room);
        self.taken.extend_from_slice(&buf[..count])?;
        self.room -= count;
        Ok(count)
    }

    fn flush(&mut self) -> io::Result<()> {
        Ok(())
    }
}

/// How a connection ends, and what is written on it. These bytes come, in parts of so many, and then a read fails.
/// There is room for so many bytes; a write after these fails, or takes nothing if their number is even.
pub fn served(
    alloc: Global,
    treasury: &mut Treasury<MemStore>,
    given: &[u8],
    part: usize,
    room: usize,
) -> (Result<(), Cause>, Vec<u8>) {
    let mut reader = Given { rest: given, part };
    let mut writer = Narrow {
        taken: Vec::new(alloc),
        room,
        fails: room % 2 == 1,
    };
    let ended = serve_one(alloc, &mut reader, &mut writer, treasury);
    (ended, writer.taken)
}
