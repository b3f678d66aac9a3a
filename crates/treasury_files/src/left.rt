//! What a word leaves of the files that it is over. It is a value that is handed back: what is said of it is said of
//! these files, and they stay locked until `main` drops them.

ghost use Rattle.std.specs.Prelude.{MatchResult};
ghost use Rattle.treasury_files.specs.Started.{IsLeftBy, IsClosedAs, IsStillOpen};

use sqlite::{Connection, FileStore, Leftover};
use sqlite_disk::{Disk, Files};

/// What is left of a database file and its log.
#[derive(Drop)]
pub enum Left<D: Disk> {
    /// No file was opened.
    Untouched,
    /// They were closed, with the log copied into the database file.
    Closed(Files<D>),
    /// They stand as they are, with the log beside the database file.
    Open(FileStore<D>),
    /// A call of the database failed, which may have shut it: the log could not be copied, or the tables not be read.
    Shut(FileStore<D>),
    /// They could not be opened as a database.
    Unopened(Leftover<D>),
}

/// Leaves the files of a connection as they are, with no copy of the log into the database file.
pub(crate) fn leave<D: Disk + Drop>(conn: Connection<FileStore<D>>) -> FileStore<D>
    ensures { IsLeftBy conn result }
{
    conn.into_store()
}

/// Closes a connection, so that the file alone is a whole copy: the log is copied into it. Where that fails, the files
/// are handed back with the log.
pub(crate) fn close<D: Disk + Drop>(
    conn: Connection<FileStore<D>>,
) -> Result<Files<D>, FileStore<D>>
    ensures { MatchResult result (IsClosedAs D.Disk conn) (IsStillOpen D.Disk conn) }
{
    // What it shows is a database, by this call's contract; so an opening of the file finds its schema again.
    let _ = conn.schema();
    match conn.close_files() {
        Ok(files) => Ok(files),
        Err((_error, store)) => Err(store),
    }
}
