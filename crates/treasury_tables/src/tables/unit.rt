//! The table of commodities.

ghost use Rattle.std.specs.Prelude.{◌≡◌, ◌∷◌, [], map, IfOk, OnOk, IsPermutation};
ghost use Rattle.sqlite.specs.Order.{column};
ghost use Rattle.sqlite.specs.State.{IsUnchanged};
ghost use Rattle.sqlite.specs.Held.{state};
ghost use Rattle.treasury_tables.specs.Tables.{store_schema, unit_table};
ghost use Rattle.treasury_tables.specs.Rows.{ShowsTables, Tables, values_of_unit, shown_unit, tables_with_unit};
ghost use Rattle.treasury_tables.specs.Creating.{Creates};
ghost use Rattle.treasury_tables.specs.Kept.{Queries, Writes, IsFaithful};
ghost use Rattle.treasury_tables.specs.Order.{InOrder};

use crate::row::{FromRow, load, text_at};
use money_core::Items;
use sqlite::types::ToSql;
use sqlite::{Alter, Connection, Error, Row, Transaction};
use std::alloc::Global;
use treasury_state::UnitRow;

/// Makes the table.
pub(crate) fn create_unit<S: Alter>(tx: &mut Transaction<'_, S>) -> Result<usize, Error>
    ensures same_reference { tx.new.conn.ghost_name ≡ tx.old.conn.ghost_name }
    ensures creates { Creates S.Store tx.old.conn.now tx.new.conn.now result unit_table }
{
    tx.execute(
        "CREATE TABLE unit (nr INTEGER PRIMARY KEY, symbol TEXT NOT NULL UNIQUE, decimals INTEGER NOT NULL, mark TEXT NOT NULL, grouped INTEGER NOT NULL, leftside INTEGER NOT NULL, spaced INTEGER NOT NULL) STRICT",
        &[],
    )
}

impl FromRow for UnitRow {
    ghost columns = { values_of_unit };

    ghost front = { λ r. column r 0 ∷ column r 1 ∷ column r 2 ∷ column r 3 ∷ column r 4 ∷ column r 5 ∷ column r 6
        ∷ [] };

    fn read(row: &Row) -> Result<Self, Error> {
        let nr = row.get(0)?;
        let symbol = text_at(row, 1)?;
        let decimals = row.get(2)?;
        let mark = text_at(row, 3)?;
        let grouped = row.get(4)?;
        let leftside = row.get(5)?;
        let spaced = row.get(6)?;
        Ok(UnitRow {
            nr,
            symbol,
            decimals,
            mark,
            grouped,
            leftside,
            spaced,
        })
    }
}

/// The commodities, in the order of their key.
pub(crate) fn load_units<S: Alter>(
    alloc: Global,
    conn: &mut Connection<S>,
) -> Result<Items<UnitRow>, Error>
    ensures rows { IsFaithful S.Store conn.new
        → IfOk result (λ rows. (t : Tables) → InOrder t → ShowsTables (state S.Store conn.old).now t → rows ≡ t.units) }
    ensures shown { IsFaithful S.Store conn.new
        → IfOk result
        (λ rows. (state S.Store conn.old).now.schema ≡ store_schema
        → IsPermutation (map values_of_unit rows) (map shown_unit ((state S.Store conn.old).now.trees 1))) }
    ensures same { IsFaithful S.Store conn.new
        → OnOk result
        ((state S.Store conn.old).now.schema ≡ store_schema
        → IsUnchanged (state S.Store conn.old) (state S.Store conn.new)) }
    ensures queries { Queries S.Store conn.old conn.new result }
{
    load(
        alloc,
        conn,
        "SELECT nr, symbol, decimals, mark, grouped, leftside, spaced FROM unit ORDER BY nr",
    )
}

/// Inserts a commodity.
pub(crate) fn put_unit<S: Alter>(tx: &mut Transaction<'_, S>, row: &UnitRow) -> Result<usize, Error>
    ensures same_reference { tx.new.conn.ghost_name ≡ tx.old.conn.ghost_name }
    ensures writes { Writes S.Store tx.old.conn.now tx.new.conn.now result (tables_with_unit row.now) }
{
    let nr = row.nr.to_sql();
    let symbol = row.symbol.as_str().to_sql();
    let decimals = row.decimals.to_sql();
    let mark = row.mark.as_str().to_sql();
    let grouped = row.grouped.to_sql();
    let leftside = row.leftside.to_sql();
    let spaced = row.spaced.to_sql();
    tx.execute(
        "INSERT INTO unit (nr, symbol, decimals, mark, grouped, leftside, spaced) VALUES (?1, ?2, ?3, ?4, ?5, ?6, ?7)",
        &[nr, symbol, decimals, mark, grouped, leftside, spaced],
    )
}
