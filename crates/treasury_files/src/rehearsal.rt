//! An opening that is tried on copies in memory first: where a log stands beside the file, and where the tables are of
//! version 1. So a file that is refused for what its log makes of it, or for its rows, stays as it is, and so does the
//! log.

ghost use Rattle.std.specs.Prelude.{◌≡◌, false};

use crate::beside::log_name;
use crate::file::{
    DAMAGED, IN_USE, OTHER_ROWS, Unopened, read_at_most, unopened_tables, unstarted,
};
use crate::laws::counts_law;
use crate::shrinking::{Counts, counts_of, is_kept};
use crate::tables::{check_tables, has_one, is_bare, is_taken};
use crate::waiting::is_in_use;
use book_core::Ledger;
use money_core::Cause;
use sqlite::{Alter, Connection, Error, ErrorCode, Files, Options};
use sqlite_disk::Disk;
use std::alloc::Global;
use std::fs;
use treasury_core::State;
use treasury_memory::MemoryDisk;
use treasury_store::{Refused, Store, Treasury};

/// The log's salts tell it from an older log. Nobody opens the copies again.
const SEED: u64 = 0;

/// Said of a log that the opening tells to be another file's.
const FOREIGN: &str =
    "a log stands beside the file that is not its own, or one of the two is damaged";

/// Said of a log with which there is less than without it.
const SHRINKING: &str =
    "a log stands beside the file that is not its own: it would take back what the file has";

/// Said where neither the file nor its log has a table.
const UNMADE: &str =
    "the database has no tables of a treasury; if an earlier `treasury init` was cut off, remove it and its log";

/// Said where tables would be made in a file beside a log.
const BESIDE: &str =
    "a log stands beside the file, so no tables are made in it; if an earlier `treasury init` was cut off, remove both";

/// Said where the file or its log cannot be copied.
const UNREAD: &str = "the file cannot be opened: it or its log cannot be read";

/// What stands against an opening that is tried on copies.
#[derive(Drop)]
enum Obstacle {
    /// The copies cannot be made, or a call failed, so that nothing is known of the file.
    Copies(Unopened),
    /// The log is told to be another file's, or one of the two is damaged.
    Foreign,
    /// The tables are not those of a treasury, or their rows are no state's.
    Tables(Unopened),
}

/// What copies of a file show.
#[derive(Drop)]
struct Seen {
    /// Whether there is no table, no index and no view.
    is_bare: bool,
    /// Whether a table has the name of a treasury's.
    has_one: bool,
    /// How much the treasury has, or what stands against its opening.
    counts: Result<Counts, Obstacle>,
}

/// A copy of the file in memory.
fn copy_of(rt: &HostRuntime, path: &str) -> Result<MemoryDisk, Unopened> {
    let Ok(file) = fs::open(rt, path) else {
        return Err(Unopened::Unusable(UNREAD));
    };
    let bytes = match read_at_most(rt.alloc(), file, u64::MAX) {
        Ok(bytes) => bytes,
        Err(Cause::OutOfMemory) => return Err(Unopened::NoMemory),
        Err(_) => return Err(Unopened::Unusable(UNREAD)),
    };
    let Ok(mut disk) = MemoryDisk::new(rt.alloc()) else {
        return Err(Unopened::NoMemory);
    };
    match disk.write_at(0, bytes.as_slice()) {
        Ok(()) => Ok(disk),
        Err(_) => Err(Unopened::NoMemory),
    }
}

/// Copies in memory of the file and its log, while no other program uses them.
fn copies(rt: &HostRuntime, path: &str) -> Result<Files<MemoryDisk>, Unopened> {
    if is_in_use(rt, path) {
        return Err(Unopened::Unusable(IN_USE));
    }
    let log_name = match log_name(rt, path) {
        Ok(name) => name,
        Err(unopened) => return Err(unopened),
    };
    let log = match copy_of(rt, log_name.as_str()) {
        Ok(log) => log,
        Err(unopened) => return Err(unopened),
    };
    match copy_of(rt, path) {
        Ok(db) => Ok(Files { log, db }),
        Err(unopened) => Err(unopened),
    }
}

/// A copy in memory of the file alone, with an empty log.
fn copy_alone(rt: &HostRuntime, path: &str) -> Result<Files<MemoryDisk>, Unopened> {
    let Ok(log) = MemoryDisk::new(rt.alloc()) else {
        return Err(Unopened::NoMemory);
    };
    match copy_of(rt, path) {
        Ok(db) => Ok(Files { log, db }),
        Err(unopened) => Err(unopened),
    }
}

/// Why the copies are not open.
fn why_untried(error: Error) -> Obstacle {
    match error {
        Error::SqliteFailure(ErrorCode::DatabaseCorrupt | ErrorCode::NotADatabase) => {
            Obstacle::Foreign
        }
        _ => Obstacle::Copies(Unopened::NoMemory),
    }
}

/// What stands against an opening by what the tables hold. Where a call failed, nothing is known of them.
fn obstacle_of(unopened: Unopened) -> Obstacle {
    match unopened {
        Unopened::NoMemory => Obstacle::Copies(Unopened::NoMemory),
        Unopened::Unusable(reason) => Obstacle::Copies(Unopened::Unusable(reason)),
        unopened => Obstacle::Tables(unopened),
    }
}

/// Why the tables of copies are not opened. A name that is taken keeps a call from making a table.
fn why_refused<S: Alter + Drop>(refused: Refused<S>) -> Obstacle {
    let Refused { mut conn, cause } = refused;
    let has_taken = is_taken(conn.schema());
    match unopened_tables(&mut conn, cause) {
        Unopened::Unusable(reason) => {
            if has_taken {
                Obstacle::Tables(Unopened::Unusable(reason))
            } else {
                Obstacle::Copies(Unopened::Unusable(reason))
            }
        }
        unopened => obstacle_of(unopened),
    }
}

/// Why the rows of the copies are not loaded. Memory gives back what it was given, so a read that fails met damage.
fn why_unstarted(cause: Cause) -> Obstacle {
    match cause {
        Cause::Store => Obstacle::Tables(Unopened::Unusable(DAMAGED)),
        _ => obstacle_of(unstarted(cause, OTHER_ROWS)),
    }
}

/// How much the treasury has whose state memory holds.
fn counts_in<L: Ledger>(alloc: Global, state: Option<&State<L>>) -> Result<Counts, Obstacle> {
    let counts = match state {
        Some(state) => counts_of(alloc, state),
        None => None,
    };
    match counts {
        Some(counts) => Ok(counts),
        None => Err(Obstacle::Copies(Unopened::NoMemory)),
    }
}

/// How much the treasury has that a connection shows.
fn counts_on<S: Alter + Drop>(alloc: Global, conn: Connection<S>) -> Result<Counts, Obstacle>
    requires { conn.in_transaction ≡ false }
{
    match check_tables(alloc, conn.schema(), false) {
        Ok(()) => {}
        Err(unopened) => return Err(obstacle_of(unopened)),
    }
    let store = match Store::open(alloc, conn) {
        Ok(store) => store,
        Err(refused) => return Err(why_refused(refused)),
    };
    match Treasury::start(alloc, store) {
        Ok(treasury) => {
            let counts = counts_in(alloc, treasury.state());
            // (to drop a treasury whole would have the prover see how each part of it is dropped)
            drop(treasury.into_store().into_connection());
            counts
        }
        Err(refused) => Err(why_unstarted(refused.cause)),
    }
}

/// What a connection shows.
fn seen_on<S: Alter + Drop>(alloc: Global, conn: Connection<S>) -> Seen
    requires { conn.in_transaction ≡ false }
{
    let is_bare = is_bare(conn.schema());
    let has_one = has_one(conn.schema());
    Seen {
        is_bare,
        has_one,
        counts: counts_on(alloc, conn),
    }
}

/// What copies show, where they could be made and are a database.
fn see(alloc: Global, copied: Result<Files<MemoryDisk>, Unopened>) -> Result<Seen, Obstacle> {
    let files = match copied {
        Ok(files) => files,
        Err(unopened) => return Err(Obstacle::Copies(unopened)),
    };
    match Connection::open_files(alloc, files, Options::new(SEED)) {
        Ok(conn) => Ok(seen_on(alloc, conn)),
        Err((error, _left)) => Err(why_untried(error)),
    }
}

/// What the file shows without its log.
fn see_alone(rt: &HostRuntime, path: &str) -> Result<Seen, Obstacle> {
    see(rt.alloc(), copy_alone(rt, path))
}

/// What the file shows with its log.
fn see_with_log(rt: &HostRuntime, path: &str) -> Result<Seen, Obstacle> {
    see(rt.alloc(), copies(rt, path))
}

/// Whether the file alone is a treasury that has more of something than with its log. A log of its own takes nothing
/// back.
fn shrinks(rt: &HostRuntime, path: &str, with_log: &Counts) -> bool {
    counts_law();
    match see_alone(rt, path) {
        Ok(seen) => match seen.counts {
            Ok(alone) => !is_kept(&alone, with_log),
            Err(_) => false,
        },
        Err(_) => false,
    }
}

/// Whether the file alone is a database without tables, as `init` leaves it for a moment.
fn is_bare_alone(rt: &HostRuntime, path: &str) -> bool {
    match see_alone(rt, path) {
        Ok(seen) => seen.is_bare,
        Err(_) => false,
    }
}

/// Tries the opening of a file beside a log: what refuses it by what the two hold. Where the copies cannot be made,
/// nothing is known, and the opening itself says why.
pub fn rehearse(rt: &HostRuntime, path: &str) -> Result<(), Unopened> {
    let seen = match see_with_log(rt, path) {
        Ok(seen) => seen,
        Err(Obstacle::Foreign) => return Err(Unopened::Unusable(FOREIGN)),
        Err(_) => return Ok(()),
    };
    if seen.is_bare && is_bare_alone(rt, path) {
        return Err(Unopened::NoTreasury(UNMADE));
    }
    match seen.counts {
        Ok(counts) => {
            if shrinks(rt, path, &counts) {
                Err(Unopened::Unusable(SHRINKING))
            } else {
                Ok(())
            }
        }
        Err(Obstacle::Tables(unopened)) => Err(unopened),
        Err(_) => Ok(()),
    }
}

/// Tries the opening of a file that no log stands beside: what refuses it by what it holds. Where the copy cannot be
/// made, nothing is known.
pub fn rehearse_alone(rt: &HostRuntime, path: &str) -> Result<(), Unopened> {
    let seen = match see_alone(rt, path) {
        Ok(seen) => seen,
        Err(_) => return Ok(()),
    };
    match seen.counts {
        Err(Obstacle::Tables(unopened)) => Err(unopened),
        _ => Ok(()),
    }
}

/// Why no tables are made in a file beside a log that has some of a treasury's: 43, or 41 where the log takes back what
/// the file has.
fn why_not_again(
    rt: &HostRuntime,
    path: &str,
    counts: Result<Counts, Obstacle>,
    there: &'static str,
) -> Unopened {
    match counts {
        Ok(counts) => {
            if shrinks(rt, path, &counts) {
                Unopened::Unusable(SHRINKING)
            } else {
                Unopened::NoTreasury(there)
            }
        }
        Err(_) => Unopened::NoTreasury(there),
    }
}

/// Why no tables are made in a file beside a log: 43 where a treasury's are there, else 41.
pub fn why_not_made(rt: &HostRuntime, path: &str, there: &'static str) -> Unopened {
    match see_with_log(rt, path) {
        Ok(seen) => {
            if seen.has_one {
                why_not_again(rt, path, seen.counts, there)
            } else {
                Unopened::Unusable(BESIDE)
            }
        }
        Err(Obstacle::Copies(unopened)) => unopened,
        Err(Obstacle::Tables(unopened)) => unopened,
        Err(Obstacle::Foreign) => Unopened::Unusable(FOREIGN),
    }
}
