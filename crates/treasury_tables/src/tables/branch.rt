//! The table of branches.

ghost use Rattle.std.specs.Prelude.{◌≡◌, ◌∷◌, [], map, IfOk, OnOk, IsPermutation};
ghost use Rattle.sqlite.specs.Order.{column};
ghost use Rattle.sqlite.specs.State.{IsUnchanged};
ghost use Rattle.sqlite.specs.Held.{state};
ghost use Rattle.treasury_tables.specs.Tables.{store_schema, branch_table};
ghost use Rattle.treasury_tables.specs.Rows.{ShowsTables, Tables, values_of_branch, shown_branch, tables_with_branch};
ghost use Rattle.treasury_tables.specs.Rows.{tables_with_lock};
ghost use Rattle.treasury_tables.specs.Creating.{Creates};
ghost use Rattle.treasury_tables.specs.Kept.{Queries, Writes, IsFaithful};
ghost use Rattle.treasury_tables.specs.Order.{InOrder};

use crate::row::{FromRow, load, text_at};
use money_core::Items;
use sqlite::types::ToSql;
use sqlite::{Alter, Connection, Error, Row, Transaction};
use std::alloc::Global;
use treasury_state::BranchRow;

/// Makes the table.
pub(crate) fn create_branch<S: Alter>(tx: &mut Transaction<'_, S>) -> Result<usize, Error>
    ensures same_reference { tx.new.conn.ghost_name ≡ tx.old.conn.ghost_name }
    ensures creates { Creates S.Store tx.old.conn.now tx.new.conn.now result branch_table }
{
    tx.execute(
        "CREATE TABLE branch (nr INTEGER PRIMARY KEY, name TEXT NOT NULL UNIQUE, locked INTEGER) STRICT",
        &[],
    )
}

impl FromRow for BranchRow {
    ghost columns = { values_of_branch };

    ghost front = { λ r. column r 0 ∷ column r 1 ∷ column r 2 ∷ [] };

    fn read(row: &Row) -> Result<Self, Error> {
        let nr = row.get(0)?;
        let name = text_at(row, 1)?;
        let locked = row.get(2)?;
        Ok(BranchRow { nr, name, locked })
    }
}

/// The branches, in the order of their key.
pub(crate) fn load_branches<S: Alter>(
    alloc: Global,
    conn: &mut Connection<S>,
) -> Result<Items<BranchRow>, Error>
    ensures rows { IsFaithful S.Store conn.new
        → IfOk result
        (λ rows. (t : Tables) → InOrder t → ShowsTables (state S.Store conn.old).now t → rows ≡ t.branches) }
    ensures shown { IsFaithful S.Store conn.new
        → IfOk result
        (λ rows. (state S.Store conn.old).now.schema ≡ store_schema
        → IsPermutation (map values_of_branch rows) (map shown_branch ((state S.Store conn.old).now.trees 3))) }
    ensures same { IsFaithful S.Store conn.new
        → OnOk result
        ((state S.Store conn.old).now.schema ≡ store_schema
        → IsUnchanged (state S.Store conn.old) (state S.Store conn.new)) }
    ensures queries { Queries S.Store conn.old conn.new result }
{
    load(
        alloc,
        conn,
        "SELECT nr, name, locked FROM branch ORDER BY nr",
    )
}

/// Inserts a branch.
pub(crate) fn put_branch<S: Alter>(
    tx: &mut Transaction<'_, S>,
    row: &BranchRow,
) -> Result<usize, Error>
    ensures same_reference { tx.new.conn.ghost_name ≡ tx.old.conn.ghost_name }
    ensures writes { Writes S.Store tx.old.conn.now tx.new.conn.now result (tables_with_branch row.now) }
{
    let nr = row.nr.to_sql();
    let name = row.name.as_str().to_sql();
    let locked = row.locked.to_sql();
    tx.execute(
        "INSERT INTO branch (nr, name, locked) VALUES (?1, ?2, ?3)",
        &[nr, name, locked],
    )
}

/// Locks the branch of that number through a day.
pub(crate) fn set_lock<S: Alter>(
    tx: &mut Transaction<'_, S>,
    branch: i64,
    day: i64,
) -> Result<usize, Error>
    ensures same_reference { tx.new.conn.ghost_name ≡ tx.old.conn.ghost_name }
    ensures writes { Writes S.Store tx.old.conn.now tx.new.conn.now result (tables_with_lock branch day) }
{
    let nr = branch.to_sql();
    let locked = day.to_sql();
    tx.execute("UPDATE branch SET locked = ?2 WHERE nr = ?1", &[nr, locked])
}
