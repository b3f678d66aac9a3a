//! How long a client of `serve` is waited for: for its first byte, for its whole request, until it has taken the reply,
//! and after that. And how long a client waits for a service: as long for a part of the call that is taken, and longer
//! for the reply, as other clients come first.
//!
//! A connection has a time as a whole, which grows with the bytes that came: a time for each read or write would let a
//! client that sends a byte now and then stop all others for ever. 3 seconds are enough for a first byte, since a
//! client that is alive sends it at once; browsers open connections in advance and say nothing on them, which is no
//! fault. Each 64 KiB of a reply has a time of its own as well, because the system takes some megabytes for a client
//! that takes nothing. After a reply, what still comes is read for a second: a connection that is closed with bytes
//! unread is reset, and the client may lose the reply.

use std::io::{self, ErrorKind, Read, Write};
use std::net::{Shutdown, TcpStream};
use std::time::{Duration, Instant};

/// How long the first byte of a request is waited for.
const SILENT_SECONDS: u64 = 3;

/// How long the rest of a request is waited for in all.
const REQUEST_SECONDS: u64 = 20;

/// How long a client waits for the first byte of a reply, and then for the rest of it in all.
const WAITING_SECONDS: u64 = 300;

const HEARING_SECONDS: u64 = 60;

/// How long a reply is waited for that is to be taken, and each part of it.
const REPLY_SECONDS: u64 = 30;

/// How long what comes after a reply is read in all.
const REST_SECONDS: u64 = 1;

/// For each so many bytes of a request that came, or of a reply that were taken, there is a second more.
const BYTES_A_SECOND: u64 = 65_536;

/// A reply is handed on in parts of at most so many bytes.
const REPLY_PART: usize = 65_536;

/// What comes after a reply is read in at most so many parts, each of at most so many bytes: 16 MiB in all.
const MOST_PARTS: usize = 4096;

const PART: usize = 4096;

/// The time that a client has, from a moment on.
#[derive(Clone, Copy)]
struct Span {
    from: Instant,
    seconds: u64,
    /// How many bytes have come, or were taken.
    bytes: u64,
}

impl Span {
    /// The time that begins now.
    fn begin(rt: &HostRuntime, seconds: u64) -> io::Result<Span> {
        let from = Instant::now(rt)?;
        Ok(Span {
            from,
            seconds,
            bytes: 0,
        })
    }

    /// The same time, with more bytes.
    fn with(self, count: usize) -> Span {
        Span {
            bytes: self.bytes.saturating_add(count as u64),
            ..self
        }
    }

    /// How much of it is left: an error where nothing is.
    fn left(&self, rt: &HostRuntime) -> io::Result<Duration> {
        let seconds = self.seconds.saturating_add(self.bytes / BYTES_A_SECOND);
        let passed = self.from.elapsed(rt)?;
        let left = Duration::from_secs(seconds).saturating_sub(passed);
        if left.is_zero() {
            return Err(io::Error::from(ErrorKind::TimedOut));
        }
        Ok(left)
    }
}

/// Reads the request of a connection that was accepted just now; or the reply of one that was made.
#[derive(Drop)]
pub struct Asking<'a> {
    rt: &'a HostRuntime,
    stream: &'a TcpStream,
    /// For how many seconds its first byte is waited for, and the rest of it.
    silent_seconds: u64,
    whole_seconds: u64,
    /// The time of the request or the reply, from its first byte on.
    time: Option<Span>,
    is_silent: bool,
}

impl<'a> Asking<'a> {
    /// Reads the request of a client.
    pub fn new(rt: &'a HostRuntime, stream: &'a TcpStream) -> Asking<'a> {
        Asking {
            rt,
            stream,
            silent_seconds: SILENT_SECONDS,
            whole_seconds: REQUEST_SECONDS,
            time: None,
            is_silent: false,
        }
    }

    /// Reads the reply of a service, which answers others first.
    pub fn waiting(rt: &'a HostRuntime, stream: &'a TcpStream) -> Asking<'a> {
        Asking {
            rt,
            stream,
            silent_seconds: WAITING_SECONDS,
            whole_seconds: HEARING_SECONDS,
            time: None,
            is_silent: false,
        }
    }

    /// Whether the first byte was waited for in vain.
    pub fn is_silent(&self) -> bool {
        self.is_silent
    }

    /// How long the next bytes are waited for.
    fn left(&self) -> io::Result<Duration> {
        match &self.time {
            Some(time) => time.left(self.rt),
            None => Ok(Duration::from_secs(self.silent_seconds)),
        }
    }

    /// Counts bytes that came.
    fn note(&mut self, count: usize) -> io::Result<()> {
        let time = match self.time {
            Some(time) => time,
            None => Span::begin(self.rt, self.whole_seconds)?,
        };
        self.time = Some(time.with(count));
        Ok(())
    }
}

impl Read for Asking<'_> {
    fn read(&mut self, buf: &mut [u8]) -> io::Result<usize> {
        let left = self.left()?;
        self.stream.set_read_timeout(Some(left))?;
        let mut stream = self.stream;
        match stream.read(buf) {
            Ok(count) => {
                self.note(count)?;
                Ok(count)
            }
            Err(error) => {
                self.is_silent = self.time.is_none() && error.kind() == ErrorKind::WouldBlock;
                Err(error)
            }
        }
    }
}

/// Writes the reply of a connection. The system may take much of it for a client that takes nothing, so each part has a
/// time of its own, too.
#[derive(Drop)]
pub struct Replying<'a> {
    rt: &'a HostRuntime,
    stream: &'a TcpStream,
    /// The time of the whole reply, and that of the part which is written, from the first on.
    times: Option<(Span, Span)>,
}

impl<'a> Replying<'a> {
    pub fn new(rt: &'a HostRuntime, stream: &'a TcpStream) -> Replying<'a> {
        Replying {
            rt,
            stream,
            times: None,
        }
    }

    /// The times that count now.
    fn times(&self) -> io::Result<(Span, Span)> {
        match self.times {
            Some(times) => Ok(times),
            None => {
                let begun = Span::begin(self.rt, REPLY_SECONDS)?;
                Ok((begun, begun))
            }
        }
    }
}

impl Write for Replying<'_> {
    fn write(&mut self, buf: &[u8]) -> io::Result<usize> {
        let (whole, part) = self.times()?;
        let left = whole.left(self.rt)?.min(part.left(self.rt)?);
        self.stream.set_write_timeout(Some(left))?;
        let most = buf.len().min(REPLY_PART);
        let mut stream = self.stream;
        let count = stream.write(&buf[..most])?;
        let next = if count == most {
            Span::begin(self.rt, REPLY_SECONDS)?
        } else {
            part
        };
        self.times = Some((whole.with(count), next));
        Ok(count)
    }

    fn flush(&mut self) -> io::Result<()> {
        Ok(())
    }
}

/// Reads what a client still sends after its reply. A connection that is closed with bytes unread is reset, and a reply
/// that is on its way may be lost with it.
pub fn read_rest(rt: &HostRuntime, stream: &TcpStream) {
    let _ = stream.shutdown(Shutdown::Write);
    let Ok(time) = Span::begin(rt, REST_SECONDS) else {
        return;
    };
    let mut reader = stream;
    let mut part = [0u8; PART];
    'reading: for _ in 0..MOST_PARTS {
        let Ok(left) = time.left(rt) else {
            return;
        };
        if stream.set_read_timeout(Some(left)).is_err() {
            return;
        }
        match reader.read(&mut part) {
            Ok(0) => return,
            Ok(_) => {}
            Err(_) => return,
        }
    }
}
