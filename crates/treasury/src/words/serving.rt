//! The word `serve`: connections to a port of this machine, answered one after another over a database file.

ghost use Rattle.std.specs.Prelude.{◌≡◌, ◌≢◌, false, List, None, OnOk, OnErr, IfErr};
ghost use Rattle.std.specs.Io.KnownBytes.{Appends};
ghost use Rattle.clap.specs.Matches.{found_of};
ghost use Rattle.clap.specs.Walk.{Row, rows_of};
ghost use Rattle.sqlite_wal.specs.Recovery.{Image};
ghost use Rattle.sqlite_wal.specs.Files.{image_at};
ghost use Rattle.treasury_api.specs.Web.{HasServed, ServesOne};
ghost use Rattle.treasury_files.specs.declared.left.Left.TheVariants.{Untouched};
ghost use Rattle.treasury.specs.declared.words.serving.Ending.TheVariants.{Changed};
ghost use Rattle.treasury.specs.OverFile.{IsRefusedBy};
ghost use Rattle.treasury.specs.Serving.{listening, silent, LacksValue};
ghost use Rattle.treasury.specs.OverFileParts.{spoken, IsClosedOrLeft};
ghost use Rattle.treasury_files.specs.Started.{IsStarted, cause_of_why};
ghost use Rattle.treasury.specs.ServingParts.{ends_unwritten, IsUnannounced, IsAnnounced, IsAnnouncedBy, ServesIfHeard};
ghost use Rattle.treasury.specs.ServingParts.{SaysAtEnd, SaysServing};

use crate::words::over_file::{lacking, refused_file};
use crate::words::patience::{Asking, Replying, read_rest};
use crate::words::said::{Said, refused};
use clap::ArgMatches;
use money_core::Cause;
use sqlite::{Alter, FileFrom, FileStore, Start};
use sqlite_disk::Disk;
use std::alloc::Global;
use std::borrow::CowSlice;
use std::cell::Cell;
use std::io::{self, Read, Write};
use std::net::{TcpListener, TcpStream};
use treasury_api::{serve_one, write_whole};
use treasury_files::{
    Guarded, Left, Noting, Sight, UNCLOSED, Unopened, Unserved, Watch, close_treasury,
    leave_treasury, log_name, open_treasury,
};
use treasury_spelling::value_of;
use treasury_store::Treasury;

/// Only programs of this machine can connect.
const HOST: &str = "127.0.0.1";

/// What standard output says once connections can be made.
const LISTENING: &[u8] = b"listening\n";

/// Said where the file or its log is not as the service left it.
const CHANGED: &str =
    "the file or its log was changed, replaced or removed by another program: the service has ended, and writes to neither";

/// How serving ended, before the file is closed.
#[derive(Clone, Copy, Debug)]
pub enum Ending {
    /// 45, and why: the port cannot be listened on.
    Unbound(&'static str),
    /// 46: `listening` could not be written.
    Unwritten,
    /// 45: a connection could not be accepted on this port.
    Unaccepted(u16),
    /// 41: another program changed the file or its log.
    Changed,
    /// Each connection was served.
    Finished,
}

/// Whether `listening` could not be written.
pub fn is_unwritten(ending: Option<Ending>) -> bool
    ensures { result ≡ ends_unwritten ending }
{
    match ending {
        None => false,
        Some(Ending::Unbound(_)) => false,
        Some(Ending::Unwritten) => true,
        Some(Ending::Unaccepted(_)) => false,
        Some(Ending::Changed) => false,
        Some(Ending::Finished) => false,
    }
}

/// What `serve` comes to: how it ended, where it began, and what is said then.
#[derive(Drop)]
pub struct Serving<D: Disk> {
    pub ending: Option<Ending>,
    pub said: Said,
    pub left: Left<D>,
}

/// The port, and for how many connections it is listened on.
#[derive(Clone, Copy, Debug)]
struct Wanted {
    port: u16,
    requests: u32,
}

/// Why a port cannot be listened on.
fn why_unbound(error: io::Error) -> &'static str {
    match error.kind() {
        io::ErrorKind::AddrInUse => "the port is in use by another program",
        io::ErrorKind::PermissionDenied =>
            "this user may not listen on the port: those below 1024 are the system's",
        _ => "the port cannot be listened on",
    }
}

/// Says the address on standard error: nobody knows a port that the system chose otherwise.
fn say_address(rt: &HostRuntime, listener: &TcpListener) {
    if let Ok(address) = listener.local_addr() {
        let _ = eprintln!(rt; "listening on {address}");
    }
}

/// Says on standard error by what a connection was ended without a whole reply.
fn say_cut_off(rt: &HostRuntime, cause: Cause) {
    let nr = cause.nr();
    let name = cause.name();
    let _ = eprintln!(rt; "treasury: a connection was cut off: {nr} {name}");
}

/// Says that connections can be made: a reader of the output sees it before the first of them is accepted.
fn announce<W: Write>(output: &mut W) -> Result<(), Cause>
    ensures ok { OnOk result (Appends (W.contents output.old) (W.contents output.new) listening) }
    ensures err { OnErr result (IsUnannounced W.contents output.old output.new) }
{
    match write_whole(output, LISTENING) {
        Ok(()) => {}
        Err(_) => return Err(Cause::WriteFault),
    }
    match output.flush() {
        Ok(()) => Ok(()),
        Err(_) => Err(Cause::WriteFault),
    }
}

/// Serves what a reader has, and writes the reply.
fn serve_call<R: Read, W: Write, S: Alter>(
    alloc: Global,
    reader: &mut R,
    writer: &mut W,
    treasury: &mut Treasury<S>,
) -> Result<(), Cause>
    // The reply goes to this writer, so far as it takes it.
    ensures one { ServesOne result S.Store R.remaining reader.old reader.new W.contents writer.old writer.new
        treasury.old treasury.new }
    ensures served { HasServed S.Store treasury.old treasury.new }
{
    serve_one(alloc, reader, writer, treasury)
}

/// How a connection ended.
#[derive(Clone, Copy, Debug)]
enum Met {
    /// The reply was taken.
    Replied,
    /// Nothing was sent in time.
    Silent,
    /// The files are not as the service left them, and nothing is replied.
    Changed,
    /// By 40, 45 or 46, without a whole reply.
    CutOff(Cause),
}

/// Serves a connection while the files are as they were left, in the time that its client has; and says what is seen of
/// the files after it.
fn meet<S: Alter>(
    rt: &HostRuntime,
    stream: &TcpStream,
    watch: &Watch<'_>,
    treasury: &mut Treasury<S>,
) -> (Met, Option<Sight>)
    ensures { HasServed S.Store treasury.old treasury.new }
{
    let is_get = Cell::new(false);
    let mut reader = Guarded {
        rt,
        watch,
        reader: Asking::new(rt, stream),
        is_changed: false,
        is_begun: false,
        is_get: &is_get,
    };
    let mut writer = Noting {
        rt,
        watch,
        writer: Replying::new(rt, stream),
        is_begun: false,
        is_get: &is_get,
        left: watch.left,
    };
    let met = match serve_call(rt.alloc(), &mut reader, &mut writer, treasury) {
        Ok(()) => Met::Replied,
        Err(_) if reader.is_changed || writer.left.is_none() => Met::Changed,
        Err(_) if reader.reader.is_silent() => Met::Silent,
        Err(cause) => Met::CutOff(cause),
    };
    (met, writer.left)
}

/// Serves one connection, and reads what its client still sends. 41 where the files are not as the service left them.
fn serve_connection<S: Alter>(
    rt: &HostRuntime,
    stream: &TcpStream,
    watch: &mut Watch<'_>,
    treasury: &mut Treasury<S>,
) -> Result<(), Cause>
    ensures { HasServed S.Store treasury.old treasury.new }
{
    let (met, left) = meet(rt, stream, watch, treasury);
    watch.left = left;
    match met {
        Met::Replied => read_rest(rt, stream),
        Met::Silent => {}
        Met::Changed => return Err(Cause::Store),
        Met::CutOff(cause) => say_cut_off(rt, cause),
    }
    Ok(())
}

/// Serves so many connections, one after another, however each ends. 45 where one cannot be accepted, and 41 where the
/// files are not as the service left them.
fn serve_connections<S: Alter>(
    rt: &HostRuntime,
    listener: &TcpListener,
    requests: u32,
    watch: &mut Watch<'_>,
    treasury: &mut Treasury<S>,
) -> Result<(), Cause>
    ensures served { HasServed S.Store treasury.old treasury.new }
{
    'serving: for _ in 0..requests {
        let stream = match listener.accept() {
            Ok((stream, _)) => stream,
            Err(_) => return Err(Cause::ReadFault),
        };
        match serve_connection(rt, &stream, watch, treasury) {
            Ok(()) => {}
            Err(cause) => return Err(cause),
        }
    }
    Ok(())
}

/// The port that is listened on, where it can be told: the system chose it where 0 was asked for.
fn port_of(listener: &TcpListener, wanted: u16) -> u16 {
    match listener.local_addr() {
        Ok(address) => address.port(),
        Err(_) => wanted,
    }
}

/// Listens on the port, says so, and serves the connections.
fn serve_port<W: Write, S: Alter>(
    rt: &HostRuntime,
    wanted: Wanted,
    watch: &mut Watch<'_>,
    output: &mut W,
    treasury: &mut Treasury<S>,
) -> Ending
    ensures announced { IsAnnouncedBy W.contents output.old output.new result }
    ensures served { HasServed S.Store treasury.old treasury.new }
    ensures heard { ServesIfHeard result treasury.old treasury.new }
{
    let listener = match TcpListener::bind(rt, (HOST, wanted.port)) {
        Ok(listener) => listener,
        Err(error) => return Ending::Unbound(why_unbound(error)),
    };
    say_address(rt, &listener);
    match announce(output) {
        Ok(()) => {}
        Err(_) => return Ending::Unwritten,
    }
    match serve_connections(rt, &listener, wanted.requests, watch, treasury) {
        Ok(()) => Ending::Finished,
        Err(Cause::Store) => Ending::Changed,
        Err(_) => Ending::Unaccepted(port_of(&listener, wanted.port)),
    }
}

/// Said where nothing is to be said.
fn nothing(alloc: Global) -> Said
    ensures { spoken result ≡ silent }
{
    Said {
        answer: CowSlice::Borrowed(b""),
        reason: Vec::new(alloc),
        is_refused: false,
    }
}

/// Said where the port cannot be listened on, or a connection not be accepted.
fn refused_port(alloc: Global, port: u16, reason: &str) -> Said
    ensures { IsRefusedBy Cause.ReadFault (spoken result) }
{
    match format!(in alloc; "{HOST}:{port}") {
        Ok(address) => refused(alloc, Cause::ReadFault, address.as_str(), reason),
        Err(_) => refused(alloc, Cause::ReadFault, HOST, reason),
    }
}

/// Whether the file may not be closed: it or its log was changed, or is not as the service left it.
fn is_changed(rt: &HostRuntime, watch: &Watch<'_>, ending: Ending) -> bool
    ensures { result ≡ false → ending ≢ Changed }
{
    match ending {
        Ending::Changed => true,
        Ending::Unbound(_) | Ending::Unwritten | Ending::Unaccepted(_) | Ending::Finished => {
            !watch.is_as_left(rt)
        }
    }
}

/// Said once the file is closed.
fn said_at_end(alloc: Global, port: u16, ending: Ending) -> Said
    requires closed { ending ≢ Changed }
    ensures { SaysAtEnd ending (spoken result) }
{
    match ending {
        Ending::Unbound(reason) => refused_port(alloc, port, reason),
        Ending::Unaccepted(port) => {
            refused_port(alloc, port, "a connection could not be accepted")
        }
        Ending::Changed => unreachable!(),
        Ending::Unwritten => nothing(alloc),
        Ending::Finished => nothing(alloc),
    }
}

/// Serves over the treasury of a file, and closes the file. Where it cannot be closed, that is what is said. Where it
/// or its log is not as the service left it, it is left open, and nothing is written to either.
fn serve_on_file<W: Write, D: Disk + Drop>(
    rt: &HostRuntime,
    wanted: Wanted,
    watch: Watch<'_>,
    output: &mut W,
    treasury: Treasury<FileStore<D>>,
) -> Serving<D>
    ensures announced { IsAnnounced W.contents output.old output.new result.ending }
    ensures says { (image : Image) (values : List Row) → IsStarted D.Disk image treasury
        → SaysServing D.Disk image values result.ending (spoken result.said) result.left }
    // What is handed back is what was closed, or could not be, or was left open.
    ensures touched { IsClosedOrLeft result.left }
{
    let mut treasury = treasury;
    let mut watch = watch;
    let ending = serve_port(rt, wanted, &mut watch, output, &mut treasury);
    if is_changed(rt, &watch, ending) {
        return Serving {
            ending: Some(ending),
            said: refused_file(rt.alloc(), watch.file, Unopened::Unusable(CHANGED)),
            left: Left::Open(leave_treasury(treasury)),
        };
    }
    match close_treasury(treasury) {
        Ok(files) => Serving {
            ending: Some(ending),
            said: said_at_end(rt.alloc(), wanted.port, ending),
            left: Left::Closed(files),
        },
        Err(store) => Serving {
            ending: Some(ending),
            said: refused_file(rt.alloc(), watch.file, Unopened::Unusable(UNCLOSED)),
            left: Left::Shut(store),
        },
    }
}

/// What it comes to where a value is lacking.
fn unbegun<D: Disk>(said: Said) -> Serving<D>
    ensures { result ≡ record { ending = None; said = said; left = Untouched } }
{
    Serving {
        ending: None,
        said,
        left: Left::Untouched,
    }
}

/// What it comes to where the file serves no word.
fn refused_by<D: Disk>(alloc: Global, path: &str, refused: Unserved<D>) -> Serving<D>
    ensures refused { IsRefusedBy (cause_of_why refused.why) (spoken result.said) }
    ensures left { result.left ≡ refused.left }
    ensures ending { result.ending ≡ None }
{
    let Unserved { why, left } = refused;
    Serving {
        ending: None,
        said: refused_file(alloc, path, why),
        left,
    }
}

/// The name of a file's log; 40 where there is no memory for it.
fn log_beside<D: Disk>(rt: &HostRuntime, path: &str) -> Result<String, Unserved<D>>
    ensures { IfErr result (λ refused. refused.left ≡ Untouched) }
{
    match log_name(rt, path) {
        Ok(log) => Ok(log),
        Err(why) => Err(Unserved {
            why,
            left: Left::Untouched,
        }),
    }
}

/// The port that is given, and the number of connections, which is the greatest where none is given.
fn wanted_of(values: &ArgMatches<'_>) -> Option<Wanted>
    ensures { result ≡ None → LacksValue (rows_of (found_of values.now)) }
{
    let port = match values.get_one::<u16>("port") {
        Some(port) => port,
        None => return None,
    };
    let requests = values.get_one::<u32>("requests").unwrap_or(u32::MAX);
    Some(Wanted { port, requests })
}

/// Serves over a file, by the values of the word. `start` stands for what the file holds.
///
/// The faults come in this order: the database's 40, 41, 43; the port's 45; 46 where `listening` cannot be written;
/// then 45 where a connection cannot be accepted. The file is closed at the end. 41 says where it cannot be, and where
/// another program changed it.
pub fn serve_over_file<W: Write, S: Start>(
    rt: &HostRuntime,
    values: &ArgMatches<'_>,
    output: &mut W,
    start: S,
) -> Serving<FileFrom<S>>
    ensures announced { IsAnnounced W.contents output.old output.new result.ending }
    ensures says { SaysServing ⟦<FileFrom<S> as Disk>⟧ (image_at S.Start) (rows_of (found_of values.now)) result.ending
        (spoken result.said) result.left }
{
    let Some(path) = value_of(values, "db") else {
        return unbegun(lacking(rt.alloc(), "serve"));
    };
    let Some(wanted) = wanted_of(values) else {
        return unbegun(lacking(rt.alloc(), "serve"));
    };
    let log = match log_beside(rt, path) {
        Ok(log) => log,
        Err(refused) => return refused_by(rt.alloc(), path, refused),
    };
    let mut watch = Watch::new(rt, path, log.as_str());
    match open_treasury(rt, path, start) {
        Ok(treasury) => {
            watch.left = watch.look_behind(rt);
            serve_on_file(rt, wanted, watch, output, treasury)
        }
        Err(refused) => refused_by(rt.alloc(), path, refused),
    }
}
