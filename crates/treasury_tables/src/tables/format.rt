//! The table of the version.

ghost use Rattle.std.specs.Prelude.{◌≡◌, OnOk, IsTrue, false, [], codes};
ghost use Rattle.std.specs.List.{list_any};
ghost use Rattle.sqlite_schema.specs.Names.{same_name};
ghost use Rattle.sqlite.specs.Schema.{Schema};
ghost use Rattle.sqlite.specs.Change.{created, next_tree};
ghost use Rattle.sqlite.specs.State.{KeepsCommit, Survives};
ghost use Rattle.sqlite.specs.Held.{state};
ghost use Rattle.treasury_tables.specs.Kept.{IsFaithful};
ghost use Rattle.treasury_tables.specs.Tables.{format_table};
ghost use Rattle.treasury_tables.specs.Creating.{Creates, GivesRow};

use sqlite::types::ToSql;
use sqlite::{Alter, Error, Transaction};

/// Makes the table.
pub(crate) fn create_format<S: Alter>(tx: &mut Transaction<'_, S>) -> Result<usize, Error>
    ensures same_reference { tx.new.conn.ghost_name ≡ tx.old.conn.ghost_name }
    ensures creates { Creates S.Store tx.old.conn.now tx.new.conn.now result format_table }
{
    tx.execute("CREATE TABLE format (version INTEGER NOT NULL) STRICT", &[])
}

/// Puts the one row of `format`, which is the last table: the version.
pub(crate) fn put_format<S: Alter>(tx: &mut Transaction<'_, S>) -> Result<usize, Error>
    ensures same_reference { tx.new.conn.ghost_name ≡ tx.old.conn.ghost_name }
    ensures gives { IsFaithful S.Store tx.new.conn.now
        → OnOk result ((s : Schema) → (state S.Store tx.old.conn.now).now.schema ≡ created s format_table
        → list_any (λ t. same_name t.name (codes "format")) s.tables ≡ false
        → (state S.Store tx.old.conn.now).now.trees (next_tree s) ≡ []
        → GivesRow s (state S.Store tx.old.conn.now).now (state S.Store tx.new.conn.now).now) }
    ensures inside { IsFaithful S.Store tx.new.conn.now
        → OnOk result (IsTrue (state S.Store tx.new.conn.now).in_transaction) }
    ensures kept { IsFaithful S.Store tx.new.conn.now
        → KeepsCommit (state S.Store tx.old.conn.now) (state S.Store tx.new.conn.now) }
    ensures survives { Survives (state S.Store tx.old.conn.now) (state S.Store tx.new.conn.now) (λ _. ⊥) }
{
    let version = 2i64.to_sql();
    tx.execute("INSERT INTO format (version) VALUES (?1)", &[version])
}
