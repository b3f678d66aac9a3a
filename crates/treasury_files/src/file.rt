//! The files that a word names: a journal to be read, and the database of a treasury.

ghost use Rattle.std.specs.Prelude.{◌≡◌, ◌≤◌, ◌⊎◌, false, take, IfOk, IfErr, IfSome, OnOk, OnErr, MatchResult};
ghost use Rattle.sqlite_wal.specs.Recovery.{Image};
ghost use Rattle.sqlite_wal.specs.Files.{image_at};
ghost use Rattle.sqlite.specs.Held.{Held, IsNew, state};
ghost use Rattle.sqlite.specs.Start.{FindsIn};
ghost use Rattle.sqlite.specs.Files.{file_state, IsOpened};
ghost use Rattle.sqlite_trees.specs.View.{doubt};
ghost use Rattle.sqlite_store.specs.declared.store.FileStore.{FileStore};
ghost use Rattle.treasury_state.specs.Federation.{Federation};
ghost use Rattle.treasury_state.specs.Good.{IsGoodState};
ghost use Rattle.treasury_state.specs.Rows.{rows};
ghost use Rattle.treasury_tables.specs.Kept.{IsFaithful};
ghost use Rattle.treasury_tables.specs.Creating.{has_receipt};
ghost use Rattle.treasury_tables.specs.Judging.{ReadsFirst};
ghost use Rattle.treasury_tables.specs.Rows.{HoldsFirst, HoldsEither};
ghost use Rattle.treasury_files.specs.declared.left.Left.TheVariants.{Untouched, Closed};
ghost use Rattle.treasury_files.specs.Left.{KeepsFile};
ghost use Rattle.treasury_files.specs.InFile.{MakesOver, most_journal};
ghost use Rattle.treasury_files.specs.Started.{cause_of_why, IsUnserved, IsOpenedOn, StartsOn, IsStarted};
ghost use Rattle.treasury_files.specs.Started.{IsClosedAs, IsStillOpen, IsLeftAs};
ghost use Rattle.treasury_files.specs.Leaving.{IsLeftOpen, IsLeftClosed, IsLeftRefused, IsAsked};

use crate::beside::{Look, has_log, look_beside};
use crate::left::{Left, close, leave};
use crate::opening::{open_files, options_for};
use crate::others::{note_of, say_note};
use crate::rehearsal::{rehearse, rehearse_alone, why_not_made};
use crate::tables::{check_tables, has_receipts, is_taken};
use money_core::Cause;
use sqlite::{Alter, Connection, Error, ErrorCode, FileFrom, FileStore, Files, Start};
use sqlite_disk::Disk;
use sqlite_schema::schema::Schema;
use std::alloc::Global;
use std::fs::{self, OpenOptions};
use std::io::{self, Read};
use std::os::unix::fs::OpenOptionsExt;
use treasury_store::{Refused, Store, Treasury, found_version, judge_first};

/// The most bytes of a journal's file that are read: one more than a text may have, so that a longer one is seen to be.
const MOST_JOURNAL: u64 = 1024 * 1024 + 1;

/// Said of a file that the system does not open.
pub const CANNOT_OPEN: &str =
    "the file cannot be opened: it has to be a regular file with one name, in a folder that exists, and both have to be writable";

/// Said of a file that another program has open.
pub const IN_USE: &str = "the file is in use; try again when the other program has closed it";

/// Said of a file that is read otherwise than a database.
pub const DAMAGED: &str = "the file is not an SQLite database, or is damaged";

/// Said where the tables cannot be read or made.
const FAILED: &str = "the disk failed while the tables were read or made";

/// Said of tables that name no version.
const NO_VERSION: &str = "its table format has no row, more than one, or no number in it";

/// Said of rows that are no state.
pub const OTHER_ROWS: &str =
    "the rows of its tables are not those of a treasury: another program changed them, or they are damaged";

/// Said where tables are to be made that are there.
const MADE_ALREADY: &str = "the database already has a table with the name of a treasury's";

/// Said where a name is taken of a table that is to be made.
const TAKEN: &str =
    "a view or an index of the database has the name of a table that a treasury has: rename it first";

/// The mode of a file that `init` makes: its owner alone reads and writes it. The log that is made beside it gets the
/// same.
const OWN: u32 = 0o600;

/// Said where the log cannot be copied into the file.
pub const UNCLOSED: &str =
    "the file could not be closed, and its log stays beside it: the command may have been done, so give it again";

/// A treasury on a database file.
pub type FileTreasury<S> = Treasury<FileStore<FileFrom<S>>>;

/// Why a database file serves no word.
#[derive(Drop)]
pub enum Unopened {
    /// 40.
    NoMemory,
    /// 41, and why: the file cannot be opened, read, written or closed as a database.
    Unusable(&'static str),
    /// 43, and why: the file has no treasury or, where one is to be made, has one already.
    NoTreasury(&'static str),
    /// 43: its tables are none that are opened, and name this version.
    OtherVersion(i64),
    /// 43, and what the tables have otherwise than those of a treasury.
    Strange(Vec<u8>),
}

/// A database file that serves no word: why, and what is left of it.
#[derive(Drop)]
pub struct Unserved<D: Disk> {
    pub why: Unopened,
    pub left: Left<D>,
}

/// At most so many bytes of a reader, to its end: 45 where it fails.
pub fn read_at_most<R: Read + Drop>(alloc: Global, reader: R, most: u64) -> Result<Vec<u8>, Cause>
    ensures bytes { IfOk result (λ bytes. IfSome (R.remaining reader) (λ had. bytes.items ≡ take most had)) }
    ensures refused { IfErr result (λ cause. (cause ≡ Cause.ReadFault) ⊎ (cause ≡ Cause.OutOfMemory)) }
{
    let mut bytes = Vec::new(alloc);
    let mut reader = reader.take(most);
    match reader.read_to_end(&mut bytes) {
        Ok(_) => Ok(bytes),
        Err(error) if error.kind() == io::ErrorKind::OutOfMemory => Err(Cause::OutOfMemory),
        Err(_) => Err(Cause::ReadFault),
    }
}

/// The bytes of a journal, from the reader of its file: as many as a text may have, and one more, so that a longer one
/// is seen to be. 45 where it cannot be read.
pub fn read_journal<R: Read + Drop>(alloc: Global, reader: R) -> Result<Vec<u8>, Cause>
    ensures bytes { IfOk result (λ bytes. IfSome (R.remaining reader) (λ had. bytes.items ≡ take most_journal had)) }
    ensures refused { IfErr result (λ cause. (cause ≡ Cause.ReadFault) ⊎ (cause ≡ Cause.OutOfMemory)) }
{
    read_at_most(alloc, reader, MOST_JOURNAL)
}

/// Looks at the file before it is opened, since an opening makes what is not there.
///
/// A folder, and a file of anything else, is no database, and nothing is written to it or beside it.
fn look_at(rt: &HostRuntime, path: &str) -> Result<Look, Unopened> {
    let found = match fs::metadata(rt, path) {
        Ok(found) => found,
        Err(error) if error.kind() == io::ErrorKind::NotFound => return Ok(Look::Absent),
        Err(_) => return Err(Unopened::Unusable("the file cannot be looked at")),
    };
    if found.is_dir() {
        return Err(Unopened::Unusable("it is a folder, not a database"));
    }
    if !found.is_file() {
        return Err(Unopened::Unusable("it is not a regular file"));
    }
    look_beside(rt, path, found.len())
}

/// Whether the name has a folder that is not there.
fn lacks_folder(rt: &HostRuntime, path: &str) -> bool {
    match path.rsplit_once('/') {
        Some((folder, _)) => !folder.is_empty() && fs::metadata(rt, folder).is_err(),
        None => false,
    }
}

/// Why there is no database, where there is no file or an empty one.
fn why_absent(rt: &HostRuntime, path: &str) -> &'static str {
    if has_log(rt, path) {
        "there is no database, though its log is there"
    } else if lacks_folder(rt, path) {
        "there is no database, and its folder is not there"
    } else {
        "there is no database; treasury init makes one"
    }
}

/// Looks at a file that has to be a treasury, and answers whether no log stands beside it; 43 where there is no file.
///
/// Where a log stands beside it, its opening is tried on copies first.
fn look_at_treasury(rt: &HostRuntime, path: &str) -> Result<bool, Unopened> {
    match look_at(rt, path) {
        Ok(Look::Absent) => Err(Unopened::NoTreasury(why_absent(rt, path))),
        Ok(Look::Beside) => match rehearse(rt, path) {
            Ok(()) => Ok(false),
            Err(unopened) => Err(unopened),
        },
        Ok(_) => Ok(true),
        Err(unopened) => Err(unopened),
    }
}

/// Makes an empty file where there is none. One that is there keeps its mode; where none can be made, the opening says
/// why.
fn make_empty(rt: &HostRuntime, path: &str) {
    // A database of that name would be one in memory, and is not opened.
    if path == ":memory:" {
        return;
    }
    let _ = OpenOptions::new()
        .read(true)
        .write(true)
        .create_new(true)
        .mode(OWN)
        .open(rt, path);
}

/// Looks at a file that tables are to be made in, and makes an empty one where there is none. Where a log stands beside
/// a database, no tables are made.
fn look_at_new(rt: &HostRuntime, path: &str) -> Result<(), Unopened> {
    match look_at(rt, path) {
        Ok(Look::Beside) => Err(why_not_made(rt, path, MADE_ALREADY)),
        Ok(Look::Absent) => {
            make_empty(rt, path);
            Ok(())
        }
        Ok(_) => Ok(()),
        Err(unopened) => Err(unopened),
    }
}

/// Why a file is not opened as a database: never by 43.
fn why_unopened(error: Error) -> Unopened
    ensures { cause_of_why result ≡ Cause.Damaged → ⊥ }
{
    match error {
        Error::SqliteFailure(ErrorCode::OutOfMemory) => Unopened::NoMemory,
        Error::SqliteFailure(ErrorCode::NotADatabase) => {
            Unopened::Unusable("the file is not an SQLite database whose rows obey its schema")
        }
        Error::SqliteFailure(ErrorCode::DatabaseCorrupt) => Unopened::Unusable(DAMAGED),
        Error::SqliteFailure(ErrorCode::DiskFull) => Unopened::Unusable("the disk is full"),
        _ => Unopened::Unusable("the disk failed while the file was opened"),
    }
}

/// A file that was not opened.
fn untouched<D: Disk>(why: Unopened) -> Unserved<D>
    ensures why { result.why ≡ why }
    ensures left { result.left ≡ Untouched }
{
    Unserved {
        why,
        left: Left::Untouched,
    }
}

/// A connection to the file.
fn connect<S: Start>(
    rt: &HostRuntime,
    path: &str,
    start: S,
) -> Result<Connection<FileStore<FileFrom<S>>>, Unserved<FileFrom<S>>>
    ensures new { IfOk result IsNew }
    ensures opened { IfOk result (IsOpenedOn ⟦<FileFrom<S> as Disk>⟧ (image_at S.Start)) }
    ensures refused { IfErr result (λ r. KeepsFile ⟦<FileFrom<S> as Disk>⟧ (image_at S.Start) r.left) }
    ensures never { IfErr result (λ r. cause_of_why r.why ≡ Cause.Damaged → ⊥) }
{
    let options = match options_for(rt, path) {
        Ok(options) => options,
        Err(why) => return Err(untouched(why)),
    };
    let files = match open_files(rt, path, start) {
        Ok(files) => files,
        Err(why) => return Err(untouched(why)),
    };
    match Connection::open_files_with(rt.alloc(), files, options, false) {
        Ok(conn) => Ok(conn),
        Err((error, rest)) => Err(Unserved {
            why: why_unopened(error),
            left: Left::Unopened(rest),
        }),
    }
}

/// Why there is no treasury on a database.
pub(crate) fn unstarted(cause: Cause, damage: &'static str) -> Unopened
    ensures { cause_of_why result ≡ Cause.Damaged → cause ≡ Cause.Damaged }
{
    match cause {
        Cause::OutOfMemory => Unopened::NoMemory,
        Cause::Damaged => Unopened::NoTreasury(damage),
        _ => Unopened::Unusable(FAILED),
    }
}

/// Why a call on the tables of a database was refused: `damage` says it of tables that are there.
fn why_uncalled(cause: Cause, damage: &'static str, schema: &Schema) -> Unopened
    ensures { cause_of_why result ≡ Cause.Damaged → cause ≡ Cause.Damaged }
{
    match cause {
        Cause::Store if is_taken(schema) => Unopened::Unusable(TAKEN),
        _ => unstarted(cause, damage),
    }
}

/// Why the tables of a database are not opened. Where that is 43, the version that they name is looked for.
pub(crate) fn unopened_tables<S: Alter>(conn: &mut Connection<S>, cause: Cause) -> Unopened
    ensures same { (cause ≡ Cause.Damaged → ⊥) → conn.new ≡ conn.old }
    ensures clean { doubt (state S.Store conn.old).is_clean ≤ doubt (state S.Store conn.new).is_clean }
    ensures damaged { cause_of_why result ≡ Cause.Damaged → cause ≡ Cause.Damaged }
{
    let version = match cause {
        Cause::Damaged => found_version(conn),
        _ => None,
    };
    match version {
        Some(version) => Unopened::OtherVersion(version),
        None => why_uncalled(cause, NO_VERSION, conn.schema()),
    }
}

/// What is left of a connection that is neither closed nor copied.
fn left_open<D: Disk + Drop>(conn: Connection<FileStore<D>>) -> Left<D>
    ensures { IsLeftOpen conn result }
{
    Left::Open(leave(conn))
}

/// What is left of a connection whose files are closed, where they can be.
fn left_closed<D: Disk + Drop>(conn: Connection<FileStore<D>>) -> Left<D>
    ensures { IsLeftClosed conn result }
{
    match close(conn) {
        Ok(files) => Left::Closed(files),
        Err(store) => Left::Shut(store),
    }
}

/// What is left of a database whose tables are not opened. After a call that failed version 1 of them may be version
/// 2.
fn left_refused<D: Disk + Drop>(
    conn: Connection<FileStore<D>>,
    cause: Cause,
    is_first: bool,
) -> Left<D>
    ensures { IsLeftRefused conn cause is_first result }
{
    match cause {
        Cause::Damaged => left_open(conn),
        _ => {
            if is_first {
                Left::Shut(leave(conn))
            } else {
                left_open(conn)
            }
        }
    }
}

/// What is left of a database whose rows are no state. If its opening made version 2 of its tables, they are copied
/// into the file.
fn left_unstarted<D: Disk + Drop>(conn: Connection<FileStore<D>>, is_upgraded: bool) -> Left<D>
    ensures { IsLeftOpen conn result ⊎ IsLeftClosed conn result }
{
    if is_upgraded {
        left_closed(conn)
    } else {
        left_open(conn)
    }
}

/// Whether a file is refused by 43.
fn is_damage(why: &Unopened) -> bool
    ensures { result ≡ false → cause_of_why why.now ≡ Cause.Damaged → ⊥ }
{
    match why {
        Unopened::NoMemory | Unopened::Unusable(_) => false,
        Unopened::NoTreasury(_) | Unopened::OtherVersion(_) | Unopened::Strange(_) => true,
    }
}

/// Tries the opening of tables of version 1, which changes them, on a copy of the file first. Where that is refused by
/// 43, the tables are judged as they stand, too: a copy that differs from them was made while the file changed.
fn try_first<S: Alter>(
    rt: &HostRuntime,
    path: &str,
    conn: &mut Connection<S>,
) -> Result<(), Unopened>
    requires { conn.old.in_transaction ≡ false }
    ensures same { OnOk result (conn.new ≡ conn.old) }
    ensures reads { ReadsFirst S.Store conn.old conn.new }
    ensures damaged { IfErr result (λ why. cause_of_why why ≡ Cause.Damaged → IsFaithful S.Store conn.new
        → (f : Federation) → IsGoodState f → HoldsFirst (state S.Store conn.old).now (rows f) → ⊥) }
{
    let why = match rehearse_alone(rt, path) {
        Ok(()) => return Ok(()),
        Err(why) => why,
    };
    if !is_damage(&why) {
        return Err(why);
    }
    match judge_first(rt.alloc(), conn) {
        Ok(()) => Err(Unopened::Unusable(IN_USE)),
        Err(Cause::Damaged) => Err(why),
        Err(Cause::OutOfMemory) => Err(Unopened::NoMemory),
        Err(_) => Err(Unopened::Unusable(FAILED)),
    }
}

/// Looks at the tables of a database that was opened, before any of them is changed: 43 where they have not the names
/// and the columns of a treasury's. An opening of tables of version 1 is tried first; where a log stands beside the
/// file, each was.
fn check_opened<S: Alter>(
    rt: &HostRuntime,
    path: &str,
    conn: &mut Connection<S>,
    is_alone: bool,
) -> Result<(), Unopened>
    requires { conn.old.in_transaction ≡ false }
    ensures same { OnOk result (conn.new ≡ conn.old) }
    // Where it refuses, it has read tables of version 1 at most.
    ensures reads { OnErr result ((conn.new ≡ conn.old) ⊎ ((has_receipt (state S.Store conn.old).now.schema ≡ false)
        × ReadsFirst S.Store conn.old conn.new)) }
    // Those that are the rows of a good state are not refused by 43.
    ensures damaged { IfErr result (λ why. cause_of_why why ≡ Cause.Damaged → IsFaithful S.Store conn.new
        → (f : Federation) → IsGoodState f → HoldsEither (state S.Store conn.old).now (rows f) → ⊥) }
{
    match check_tables(rt.alloc(), conn.schema(), is_alone) {
        Ok(()) => {}
        Err(why) => return Err(why),
    }
    if !is_alone {
        return Ok(());
    }
    if has_receipts(conn.schema()) {
        return Ok(());
    }
    try_first(rt, path, conn)
}

/// The treasury whose tables a database has. `is_alone` says that no log stands beside the file.
fn start_on<D: Disk + Drop>(
    rt: &HostRuntime,
    path: &str,
    conn: Connection<FileStore<D>>,
    is_alone: bool,
) -> Result<Treasury<FileStore<D>>, Unserved<D>>
    requires { conn.in_transaction ≡ false }
    ensures { MatchResult result (StartsOn D.Disk conn)
        (λ r. (image : Image) → IsOpenedOn D.Disk image conn → IsUnserved D.Disk image r.why r.left) }
{
    let mut conn = conn;
    match check_opened(rt, path, &mut conn, is_alone) {
        Ok(()) => {}
        Err(why) => {
            return Err(Unserved {
                why,
                left: left_open(conn),
            });
        }
    }
    let is_first = !has_receipts(conn.schema());
    let alloc = rt.alloc();
    let store = match Store::open(alloc, conn) {
        Ok(store) => store,
        Err(refused) => return Err(without_tables(refused, is_first)),
    };
    match Treasury::start(alloc, store) {
        Ok(treasury) => Ok(treasury),
        Err(refused) => Err(Unserved {
            why: unstarted(refused.cause, OTHER_ROWS),
            left: left_unstarted(refused.store.into_connection(), is_first),
        }),
    }
}

/// A database whose tables are not opened.
fn without_tables<D: Disk + Drop>(refused: Refused<FileStore<D>>, is_first: bool) -> Unserved<D>
    ensures left { (conn : Held (FileStore D D.Disk)) × IsAsked D.Disk refused.conn refused.cause conn
        × IsLeftRefused conn refused.cause is_first result.left }
    ensures damaged { cause_of_why result.why ≡ Cause.Damaged → refused.cause ≡ Cause.Damaged }
{
    let Refused { mut conn, cause } = refused;
    let why = unopened_tables(&mut conn, cause);
    Unserved {
        why,
        left: left_refused(conn, cause, is_first),
    }
}

/// The treasury whose tables the file has.
///
/// It answers 43 where the file is not there, is empty, or lacks the tables of a treasury, and makes nothing then; 41
/// where it cannot be opened as a database; or 40. Whatever refuses it, the file holds the rows that it held; and 43
/// has its reason, if the file was opened.
pub fn open_treasury<S: Start>(
    rt: &HostRuntime,
    path: &str,
    start: S,
) -> Result<FileTreasury<S>, Unserved<FileFrom<S>>>
    ensures { MatchResult result (IsStarted ⟦<FileFrom<S> as Disk>⟧ (image_at S.Start))
        (λ r. IsUnserved ⟦<FileFrom<S> as Disk>⟧ (image_at S.Start) r.why r.left) }
{
    let is_alone = match look_at_treasury(rt, path) {
        Ok(is_alone) => is_alone,
        Err(why) => return Err(untouched(why)),
    };
    let conn = match connect(rt, path, start) {
        Ok(conn) => conn,
        Err(unserved) => return Err(unserved),
    };
    let note = note_of(rt.alloc(), path, conn.schema());
    let started = start_on(rt, path, conn, is_alone);
    if started.is_ok() {
        say_note(rt, note.as_slice());
    }
    started
}

/// What is left of a database in which no tables were made. Where they are there, it stays as it is, with its log.
fn left_unmade<D: Disk + Drop>(conn: Connection<FileStore<D>>, cause: Cause) -> Left<D>
    ensures open { cause ≡ Cause.Damaged → IsLeftOpen conn result }
    ensures closed { (cause ≡ Cause.Damaged → ⊥) → IsLeftClosed conn result }
{
    match cause {
        Cause::Damaged => left_open(conn),
        _ => left_closed(conn),
    }
}

/// A database in which no tables were made.
fn give_up<D: Disk + Drop>(conn: Connection<FileStore<D>>, cause: Cause) -> Unserved<D>
    ensures open { cause ≡ Cause.Damaged → IsLeftOpen conn result.left }
    ensures closed { (cause ≡ Cause.Damaged → ⊥) → IsLeftClosed conn result.left }
{
    let why = why_uncalled(cause, MADE_ALREADY, conn.schema());
    Unserved {
        why,
        left: left_unmade(conn, cause),
    }
}

/// Makes the tables of a new treasury in a database, and closes it.
fn make_on<D: Disk + Drop>(
    alloc: Global,
    conn: Connection<FileStore<D>>,
) -> Result<Files<D>, Unserved<D>>
    requires { conn.in_transaction ≡ false }
    ensures { (image : Image) → IsOpenedOn D.Disk image conn
        → MatchResult result (λ files. MakesOver D.Disk image (Closed files)) (λ r. KeepsFile D.Disk image r.left) }
{
    let store = match Store::create(alloc, conn) {
        Ok(store) => store,
        Err(refused) => return Err(give_up(refused.conn, refused.cause)),
    };
    match close(store.into_connection()) {
        Ok(files) => Ok(files),
        Err(store) => Err(Unserved {
            why: Unopened::Unusable(UNCLOSED),
            left: Left::Shut(store),
        }),
    }
}

/// Makes the tables of a new treasury in the file, which is made where it is not there.
///
/// It answers 43 where the file has such tables already; 41 where it cannot be opened as a database, or a log stands
/// beside it; or 40. Whatever refuses it, the file holds the rows that it held.
pub fn make_tables<S: Start>(
    rt: &HostRuntime,
    path: &str,
    start: S,
) -> Result<Files<FileFrom<S>>, Unserved<FileFrom<S>>>
    ensures { MatchResult result (λ files. MakesOver ⟦<FileFrom<S> as Disk>⟧ (image_at S.Start) (Closed files))
        (λ r. KeepsFile ⟦<FileFrom<S> as Disk>⟧ (image_at S.Start) r.left) }
{
    match look_at_new(rt, path) {
        Ok(()) => {}
        Err(why) => return Err(untouched(why)),
    }
    let conn = match connect(rt, path, start) {
        Ok(conn) => conn,
        Err(unserved) => return Err(unserved),
    };
    let note = note_of(rt.alloc(), path, conn.schema());
    let made = make_on(rt.alloc(), conn);
    if made.is_ok() {
        say_note(rt, note.as_slice());
    }
    made
}

/// Closes the database of a treasury, so that its file alone is a whole copy. Where that fails, it is left with its
/// log.
pub fn close_treasury<D: Disk + Drop>(
    treasury: Treasury<FileStore<D>>,
) -> Result<Files<D>, FileStore<D>>
    ensures { MatchResult result (IsClosedAs D.Disk treasury.store.conn) (IsStillOpen D.Disk treasury.store.conn) }
{
    close(treasury.into_store().into_connection())
}

/// Leaves the database of a treasury as it is, with its log: nothing is written to either.
pub fn leave_treasury<D: Disk + Drop>(treasury: Treasury<FileStore<D>>) -> FileStore<D>
    ensures { IsLeftAs treasury.store.conn result }
{
    let conn = treasury.into_store().into_connection();
    // What it shows is a database, by this call's contract.
    let _ = conn.schema();
    leave(conn)
}
