//! The rows of tables of version 1, read as they stand. Nothing is written.

ghost use Rattle.std.specs.Prelude.{◌≡◌, List, [], map, OnOk, IfOk};
ghost use Rattle.sqlite.specs.Order.{Row as Columns};
ghost use Rattle.sqlite.specs.State.{Shown};
ghost use Rattle.sqlite.specs.Given.{IsPlain};
ghost use Rattle.sqlite.specs.Listing.{understood};
ghost use Rattle.sqlite.specs.Held.{state};
ghost use Rattle.treasury_tables.specs.Kept.{IsFaithful};
ghost use Rattle.treasury_tables.specs.Tables.{first_schema};
ghost use Rattle.treasury_tables.specs.Rows.{Tables, HoldsFirst};
ghost use Rattle.treasury_tables.specs.Order.{InOrder};
ghost use Rattle.treasury_tables.specs.Judging.{ReadsFirst, HasReadFirst};

use crate::row::{FromRow, read_all};
use money_core::Items;
use sqlite::{Alter, Connection, Error, Row};
use std::alloc::Global;
use treasury_state::Parts;

/// The rows of a query of tables of version 1.
fn first_queried<S: Alter>(conn: &mut Connection<S>, sql: &str) -> Result<Vec<Row>, Error>
    requires { IsPlain (understood first_schema sql.now) }
    ensures shown { IsFaithful S.Store conn.new
        → IfOk result (λ rows. Shown sql.now [] (state S.Store conn.old) (state S.Store conn.new) rows.items) }
    ensures reads { ReadsFirst S.Store conn.old conn.new }
    ensures has { OnOk result (HasReadFirst S.Store conn.old conn.new) }
{
    conn.query_all(sql, &[])
}

/// The rows of a query of a table of version 1, read.
fn first_rows<T: FromRow, S: Alter>(
    alloc: Global,
    conn: &mut Connection<S>,
    sql: &str,
) -> Result<Items<T>, Error>
    requires { IsPlain (understood first_schema sql.now) }
    ensures shown { IsFaithful S.Store conn.new
        → IfOk result
        (λ xs. (given : List Columns) × Shown sql.now [] (state S.Store conn.old) (state S.Store conn.new) given
        × ((ys : List T) → given ≡ map T.columns ys → xs ≡ ys)) }
    ensures reads { ReadsFirst S.Store conn.old conn.new }
    ensures has { OnOk result (HasReadFirst S.Store conn.old conn.new) }
{
    let rows = first_queried(conn, sql)?;
    read_all(alloc, &rows)
}

/// The rows of the tables of version 1, each list in the order of its key. They have no receipts in parts.
pub fn first_parts<S: Alter>(alloc: Global, conn: &mut Connection<S>) -> Result<Parts, Error>
    ensures parts { IsFaithful S.Store conn.new
        → IfOk result (λ parts. (t : Tables) → InOrder t → HoldsFirst (state S.Store conn.old).now t → parts ≡ t) }
    ensures reads { ReadsFirst S.Store conn.old conn.new }
{
    let units = first_rows(
        alloc,
        conn,
        "SELECT nr, symbol, decimals, mark, grouped, leftside, spaced FROM unit ORDER BY nr",
    )?;
    let branches = first_rows(
        alloc,
        conn,
        "SELECT nr, name, locked FROM branch ORDER BY nr",
    )?;
    let entries = first_rows(
        alloc,
        conn,
        "SELECT branch, nr, day, mark, body FROM entry ORDER BY branch, nr",
    )?;
    let legs = first_rows(
        alloc,
        conn,
        "SELECT branch, entry, nr, account, unit, qty FROM leg ORDER BY branch, entry, nr",
    )?;
    let claims = first_rows(
        alloc,
        conn,
        "SELECT branch, entry, leg, kind, unit, qty FROM claim ORDER BY branch, entry, leg",
    )?;
    let transfers = first_rows(
        alloc,
        conn,
        "SELECT id, source, target, unit, qty, dispatched, payer, received, payee FROM transfer ORDER BY id",
    )?;
    Ok(Parts {
        units,
        branches,
        entries,
        legs,
        claims,
        transfers,
        receipts: Items::from_vec(Vec::new(alloc)),
    })
}
