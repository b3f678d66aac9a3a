//! The files of a service, as it left them. Another program may write to them, or put others in their place: then no
//! more is asked of the treasury, whose pages in memory are those of files that are gone.

use std::cell::Cell;
use std::fs;
use std::io::{self, ErrorKind, Read, Write};
use std::os::unix::fs::MetadataExt;

/// What is seen of a file from outside: which it is, its length, and when it was last written to.
#[derive(Clone, Copy, Debug, PartialEq, Eq)]
struct Seen {
    device: u64,
    inode: u64,
    size: u64,
    seconds: i64,
    nanos: i64,
}

impl Seen {
    /// Looks at a file.
    fn of(rt: &HostRuntime, path: &str) -> io::Result<Seen> {
        let found = fs::metadata(rt, path)?;
        Ok(Seen {
            device: found.dev(),
            inode: found.ino(),
            size: found.len(),
            seconds: found.mtime(),
            nanos: found.mtime_nsec(),
        })
    }

    /// Whether it is the same file, whatever was written to it.
    fn is_same(&self, other: &Seen) -> bool {
        self.device == other.device && self.inode == other.inode
    }
}

/// What is seen of a database file, and of its log if there is one.
#[derive(Clone, Copy, Debug, PartialEq, Eq)]
pub struct Sight {
    file: Seen,
    log: Option<Seen>,
}

impl Sight {
    /// Whether these are the same files, whatever was written to them. A log may have been made.
    fn is_same(&self, other: &Sight) -> bool {
        let is_same_log = match (&self.log, &other.log) {
            (Some(log), Some(next)) => log.is_same(next),
            (Some(_), None) => false,
            (None, _) => true,
        };
        is_same_log && self.file.is_same(&other.file)
    }
}

/// A database file and its log, by their names, and what was seen of them when the service left them last.
#[derive(Clone, Copy, Debug)]
pub struct Watch<'a> {
    pub file: &'a str,
    log: &'a str,
    /// None where nothing is as it was left.
    pub left: Option<Sight>,
}

impl<'a> Watch<'a> {
    /// Looks at both for the first time.
    pub fn new(rt: &HostRuntime, file: &'a str, log: &'a str) -> Watch<'a> {
        let mut watch = Watch {
            file,
            log,
            left: None,
        };
        watch.left = watch.look(rt);
        watch
    }

    /// What is seen of both now: none where there is no database file, or they cannot be looked at.
    fn look(&self, rt: &HostRuntime) -> Option<Sight> {
        let Ok(file) = Seen::of(rt, self.file) else {
            return None;
        };
        match Seen::of(rt, self.log) {
            Ok(log) => Some(Sight {
                file,
                log: Some(log),
            }),
            Err(error) if error.kind() == ErrorKind::NotFound => Some(Sight { file, log: None }),
            Err(_) => None,
        }
    }

    /// Whether both are as the service left them.
    pub fn is_as_left(&self, rt: &HostRuntime) -> bool {
        match (self.left, self.look(rt)) {
            (Some(left), Some(found)) => left == found,
            _ => false,
        }
    }

    /// What is seen of both after a call by which the service may have written to them: none where they are others.
    pub fn look_behind(&self, rt: &HostRuntime) -> Option<Sight> {
        match (self.left, self.look(rt)) {
            (Some(left), Some(found)) if left.is_same(&found) => Some(found),
            _ => None,
        }
    }
}

/// Said where a file or its log is not as the service left it.
fn changed() -> io::Error {
    io::Error::from(ErrorKind::Other)
}

/// Reads a request while the files are as they were left. If they are not, what came is not handed on, so that nothing
/// is asked.
#[derive(Drop)]
pub struct Guarded<'a, R> {
    pub rt: &'a HostRuntime,
    pub watch: &'a Watch<'a>,
    pub reader: R,
    pub is_changed: bool,
    /// Whether the first byte has come.
    pub is_begun: bool,
    /// Whether what came begins as a `GET` does: such a request is a report, or nothing.
    pub is_get: &'a Cell<bool>,
}

impl<R: Read> Read for Guarded<'_, R> {
    fn read(&mut self, buf: &mut [u8]) -> io::Result<usize> {
        let count = self.reader.read(buf)?;
        if !self.watch.is_as_left(self.rt) {
            self.is_changed = true;
            return Err(changed());
        }
        if !self.is_begun && count > 0 {
            self.is_begun = true;
            self.is_get.set(buf.first() == Some(&b'G'));
        }
        Ok(count)
    }
}

/// Writes a reply, and looks at the files before its first byte: what was asked is done by then. Where they are others,
/// nothing is written. After a report there is nothing to look at, since it writes to no file: that they are as they
/// were left was seen when its last bytes came.
#[derive(Drop)]
pub struct Noting<'a, W> {
    pub rt: &'a HostRuntime,
    pub watch: &'a Watch<'a>,
    pub writer: W,
    pub is_begun: bool,
    /// Whether what was asked begins as a `GET` does.
    pub is_get: &'a Cell<bool>,
    /// What the service has left.
    pub left: Option<Sight>,
}

impl<W: Write> Write for Noting<'_, W> {
    fn write(&mut self, buf: &[u8]) -> io::Result<usize> {
        if !self.is_begun {
            self.is_begun = true;
            if !self.is_get.get() {
                self.left = self.watch.look_behind(self.rt);
            }
        }
        if self.left.is_none() {
            return Err(changed());
        }
        self.writer.write(buf)
    }

    fn flush(&mut self) -> io::Result<()> {
        self.writer.flush()
    }
}
