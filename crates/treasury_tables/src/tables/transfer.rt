//! The table of transfers, with the receipts of what was left.

ghost use Rattle.std.specs.Prelude.{◌≡◌, ◌∷◌, [], map, IfOk, OnOk, IsPermutation};
ghost use Rattle.sqlite_value.specs.Value.{owned};
ghost use Rattle.sqlite.specs.declared.types.Value.TheVariants.{Text as Words};
ghost use Rattle.sqlite.specs.Order.{column};
ghost use Rattle.sqlite.specs.State.{IsUnchanged};
ghost use Rattle.sqlite.specs.Held.{state};
ghost use Rattle.sqlite.specs.Values.{or_null};
ghost use Rattle.treasury_tables.specs.Tables.{store_schema, transfer_table};
ghost use Rattle.treasury_tables.specs.Rows.{ShowsTables, Tables, values_of_transfer, shown_transfer};
ghost use Rattle.treasury_tables.specs.Rows.{tables_with_transfer, tables_with_receipt};
ghost use Rattle.treasury_tables.specs.Creating.{Creates};
ghost use Rattle.treasury_tables.specs.Kept.{Queries, Writes, IsFaithful};
ghost use Rattle.treasury_tables.specs.Order.{InOrder};

use crate::row::{FromRow, load, maybe_text_at, text_at};
use money_core::{Items, Text};
use sqlite::types::{ToSql, ValueRef};
use sqlite::{Alter, Connection, Error, Row, Transaction};
use std::alloc::Global;
use treasury_state::TransferRow;

/// Makes the table.
pub(crate) fn create_transfer<S: Alter>(tx: &mut Transaction<'_, S>) -> Result<usize, Error>
    ensures same_reference { tx.new.conn.ghost_name ≡ tx.old.conn.ghost_name }
    ensures creates { Creates S.Store tx.old.conn.now tx.new.conn.now result transfer_table }
{
    tx.execute(
        "CREATE TABLE transfer (id TEXT NOT NULL PRIMARY KEY, source INTEGER NOT NULL, target INTEGER NOT NULL, unit INTEGER NOT NULL, qty INTEGER NOT NULL, dispatched INTEGER NOT NULL, payer TEXT NOT NULL, received INTEGER, payee TEXT) STRICT",
        &[],
    )
}

impl FromRow for TransferRow {
    ghost columns = { values_of_transfer };

    ghost front = { λ r. column r 0 ∷ column r 1 ∷ column r 2 ∷ column r 3 ∷ column r 4 ∷ column r 5 ∷ column r 6
        ∷ column r 7 ∷ column r 8 ∷ [] };

    fn read(row: &Row) -> Result<Self, Error> {
        let id = text_at(row, 0)?;
        let source = row.get(1)?;
        let target = row.get(2)?;
        let unit = row.get(3)?;
        let qty = row.get(4)?;
        let dispatched = row.get(5)?;
        let payer = text_at(row, 6)?;
        let received = row.get(7)?;
        let payee = maybe_text_at(row, 8)?;
        Ok(TransferRow {
            id,
            source,
            target,
            unit,
            qty,
            dispatched,
            payer,
            received,
            payee,
        })
    }
}

/// The transfers, in the order of their key.
pub(crate) fn load_transfers<S: Alter>(
    alloc: Global,
    conn: &mut Connection<S>,
) -> Result<Items<TransferRow>, Error>
    ensures rows { IsFaithful S.Store conn.new
        → IfOk result
        (λ rows. (t : Tables) → InOrder t → ShowsTables (state S.Store conn.old).now t → rows ≡ t.transfers) }
    ensures shown { IsFaithful S.Store conn.new
        → IfOk result
        (λ rows. (state S.Store conn.old).now.schema ≡ store_schema
        → IsPermutation (map values_of_transfer rows) (map shown_transfer ((state S.Store conn.old).now.trees 12))) }
    ensures same { IsFaithful S.Store conn.new
        → OnOk result
        ((state S.Store conn.old).now.schema ≡ store_schema
        → IsUnchanged (state S.Store conn.old) (state S.Store conn.new)) }
    ensures queries { Queries S.Store conn.old conn.new result }
{
    load(
        alloc,
        conn,
        "SELECT id, source, target, unit, qty, dispatched, payer, received, payee FROM transfer ORDER BY id",
    )
}

/// A text as a value; NULL where there is none.
fn text_or_null(text: &Option<Text>) -> ValueRef<'_>
    ensures { owned result ≡ or_null Words text.now }
{
    match text {
        Some(text) => text.as_str().to_sql(),
        None => ValueRef::Null,
    }
}

/// Inserts a transfer.
pub(crate) fn put_transfer<S: Alter>(
    tx: &mut Transaction<'_, S>,
    row: &TransferRow,
) -> Result<usize, Error>
    ensures same_reference { tx.new.conn.ghost_name ≡ tx.old.conn.ghost_name }
    ensures writes { Writes S.Store tx.old.conn.now tx.new.conn.now result (tables_with_transfer row.now) }
{
    let id = row.id.as_str().to_sql();
    let source = row.source.to_sql();
    let target = row.target.to_sql();
    let unit = row.unit.to_sql();
    let qty = row.qty.to_sql();
    let dispatched = row.dispatched.to_sql();
    let payer = row.payer.as_str().to_sql();
    let received = row.received.to_sql();
    let payee = text_or_null(&row.payee);
    tx.execute(
        "INSERT INTO transfer (id, source, target, unit, qty, dispatched, payer, received, payee) VALUES (?1, ?2, ?3, ?4, ?5, ?6, ?7, ?8, ?9)",
        &[
            id, source, target, unit, qty, dispatched, payer, received, payee,
        ],
    )
}

/// Keeps the receipt of what was left of the transfer of that ID.
pub(crate) fn set_receipt<S: Alter>(
    tx: &mut Transaction<'_, S>,
    id: &str,
    day: i64,
    payee: &str,
) -> Result<usize, Error>
    ensures same_reference { tx.new.conn.ghost_name ≡ tx.old.conn.ghost_name }
    ensures writes { Writes S.Store tx.old.conn.now tx.new.conn.now result (tables_with_receipt id.now day payee.now) }
{
    let key = id.to_sql();
    let received = day.to_sql();
    let account = payee.to_sql();
    tx.execute(
        "UPDATE transfer SET received = ?2, payee = ?3 WHERE id = ?1",
        &[key, received, account],
    )
}
