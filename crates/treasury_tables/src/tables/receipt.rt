//! The table of receipts in parts.

ghost use Rattle.std.specs.Prelude.{◌≡◌, ◌∷◌, [], map, IfOk, OnOk, IsPermutation};
ghost use Rattle.sqlite.specs.Order.{column};
ghost use Rattle.sqlite.specs.State.{IsUnchanged};
ghost use Rattle.sqlite.specs.Held.{state};
ghost use Rattle.treasury_tables.specs.Tables.{store_schema, receipt_table};
ghost use Rattle.treasury_tables.specs.Rows.{ShowsTables, Tables, values_of_part, shown_part, tables_with_part};
ghost use Rattle.treasury_tables.specs.Creating.{Creates};
ghost use Rattle.treasury_tables.specs.Kept.{Queries, Writes, IsFaithful};
ghost use Rattle.treasury_tables.specs.Order.{InOrder};

use crate::row::{FromRow, load, text_at};
use money_core::Items;
use sqlite::types::ToSql;
use sqlite::{Alter, Connection, Error, Row, Transaction};
use std::alloc::Global;
use treasury_state::PartRow;

/// Makes the table of receipts in parts, which version 2 adds.
pub(crate) fn create_receipt<S: Alter>(tx: &mut Transaction<'_, S>) -> Result<usize, Error>
    ensures same_reference { tx.new.conn.ghost_name ≡ tx.old.conn.ghost_name }
    ensures creates { Creates S.Store tx.old.conn.now tx.new.conn.now result receipt_table }
{
    tx.execute(
        "CREATE TABLE receipt (transfer TEXT NOT NULL, part TEXT NOT NULL, qty INTEGER NOT NULL, received INTEGER NOT NULL, payee TEXT NOT NULL, PRIMARY KEY (transfer, part)) STRICT",
        &[],
    )
}

impl FromRow for PartRow {
    ghost columns = { values_of_part };

    ghost front = { λ r. column r 0 ∷ column r 1 ∷ column r 2 ∷ column r 3 ∷ column r 4 ∷ [] };

    fn read(row: &Row) -> Result<Self, Error> {
        let transfer = text_at(row, 0)?;
        let part = text_at(row, 1)?;
        let qty = row.get(2)?;
        let received = row.get(3)?;
        let payee = text_at(row, 4)?;
        Ok(PartRow {
            transfer,
            part,
            qty,
            received,
            payee,
        })
    }
}

/// The receipts, in the order of their key.
pub(crate) fn load_receipts<S: Alter>(
    alloc: Global,
    conn: &mut Connection<S>,
) -> Result<Items<PartRow>, Error>
    ensures rows { IsFaithful S.Store conn.new
        → IfOk result
        (λ rows. (t : Tables) → InOrder t → ShowsTables (state S.Store conn.old).now t → rows ≡ t.receipts) }
    ensures shown { IsFaithful S.Store conn.new
        → IfOk result
        (λ rows. (state S.Store conn.old).now.schema ≡ store_schema
        → IsPermutation (map values_of_part rows) (map shown_part ((state S.Store conn.old).now.trees 14))) }
    ensures same { IsFaithful S.Store conn.new
        → OnOk result
        ((state S.Store conn.old).now.schema ≡ store_schema
        → IsUnchanged (state S.Store conn.old) (state S.Store conn.new)) }
    ensures queries { Queries S.Store conn.old conn.new result }
{
    load(
        alloc,
        conn,
        "SELECT transfer, part, qty, received, payee FROM receipt ORDER BY transfer, part",
    )
}

/// Inserts a receipt of a part.
pub(crate) fn put_part<S: Alter>(tx: &mut Transaction<'_, S>, row: &PartRow) -> Result<usize, Error>
    ensures same_reference { tx.new.conn.ghost_name ≡ tx.old.conn.ghost_name }
    ensures writes { Writes S.Store tx.old.conn.now tx.new.conn.now result (tables_with_part row.now) }
{
    let transfer = row.transfer.as_str().to_sql();
    let part = row.part.as_str().to_sql();
    let qty = row.qty.to_sql();
    let received = row.received.to_sql();
    let payee = row.payee.as_str().to_sql();
    tx.execute(
        "INSERT INTO receipt (transfer, part, qty, received, payee) VALUES (?1, ?2, ?3, ?4, ?5)",
        &[transfer, part, qty, received, payee],
    )
}
