//! A database over two such files.

ghost use Rattle.std.specs.Prelude.{◌≡◌, [], IfOk, IfErr, IsTrue};
ghost use Rattle.sqlite.specs.State.{HasCleanDisk};
ghost use Rattle.sqlite.specs.Held.{IsNew};
ghost use Rattle.sqlite.specs.Steps.{IsEmpty};
ghost use Rattle.sqlite.specs.Files.{file_state, IsOpened};

use crate::disk::MemoryDisk;
use money_core::Cause;
use sqlite::{Connection, FileStore, Files, Options};
use sqlite_schema::schema::Schema;
use std::alloc::Global;

/// What a connection to such a database stands on.
pub type MemoryStore = FileStore<MemoryDisk>;

/// The log's salts tell it from an older log of the same file, which there is none of.
const SEED: u64 = 0;

/// Whether there is no table, no index and no view.
fn is_bare(schema: &Schema) -> bool
    ensures { IsTrue result → schema.now ≡ record { tables = []; indexes = []; views = [] } }
{
    schema.tables.is_empty() && schema.indexes.is_empty() && schema.views.is_empty()
}

/// An empty database in memory, which ends with its connection.
pub fn open_memory(alloc: Global) -> Result<Connection<MemoryStore>, Cause>
    ensures empty { IfOk result (λ conn. IsEmpty (file_state conn)) }
    ensures opened { IfOk result (λ conn. IsOpened conn) }
    ensures clean { IfOk result (λ conn. HasCleanDisk (file_state conn)) }
    ensures fresh { IfOk result IsNew }
    ensures memory { IfErr result (λ cause. cause ≡ Cause.OutOfMemory) }
{
    let (Ok(log), Ok(db)) = (MemoryDisk::new(alloc), MemoryDisk::paged(alloc)) else {
        return Err(Cause::OutOfMemory);
    };
    let Ok(conn) = Connection::open_files(alloc, Files { log, db }, Options::new(SEED)) else {
        return Err(Cause::OutOfMemory);
    };
    if !is_bare(conn.schema()) {
        return Err(Cause::OutOfMemory);
    }
    Ok(conn)
}

/// A law: whatever was done with such a database, its disk has returned what was written. So each clause that stands
/// under `HasCleanDisk` holds of it outright. Costs nothing.
pub fn clean_law(conn: &Connection<MemoryStore>)
    ensures { HasCleanDisk (file_state conn.now) }
{}
