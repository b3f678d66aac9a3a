//! The rows of the tables, in order.
//!
//! Rows are read one after another, because the kit keeps the buffer of its longest answer until the connection is
//! closed.

ghost use Rattle.std.specs.Prelude.{◌≡◌, OnOk, IfOk};
ghost use Rattle.sqlite.specs.State.{IsUnchanged};
ghost use Rattle.sqlite.specs.Held.{state};
ghost use Rattle.treasury_tables.specs.Tables.{store_schema};
ghost use Rattle.treasury_tables.specs.Rows.{Tables, ShowsTables};
ghost use Rattle.treasury_tables.specs.Kept.{Queries, IsFaithful};
ghost use Rattle.treasury_tables.specs.Order.{InOrder};

use crate::tables::branch::load_branches;
use crate::tables::claim::load_claims;
use crate::tables::entry::load_entries;
use crate::tables::leg::load_legs;
use crate::tables::receipt::load_receipts;
use crate::tables::transfer::load_transfers;
use crate::tables::unit::load_units;
use sqlite::{Alter, Connection, Error};
use std::alloc::Global;
use treasury_state::Parts;

/// The rows of all tables, each list in the order of its key: one query a table.
///
/// Where the tables are ours, a success answers just the rows that they show, and changes nothing; where they are
/// committed, nor does an error of a connection that is still open.
pub fn load_parts<S: Alter>(alloc: Global, conn: &mut Connection<S>) -> Result<Parts, Error>
    ensures parts { IsFaithful S.Store conn.new
        → IfOk result (λ parts. (t : Tables) → InOrder t → ShowsTables (state S.Store conn.old).now t → parts ≡ t) }
    ensures shown { IsFaithful S.Store conn.new
        → IfOk result
        (λ parts. (state S.Store conn.old).now.schema ≡ store_schema → ShowsTables (state S.Store conn.old).now parts) }
    ensures same { IsFaithful S.Store conn.new
        → OnOk result
        ((state S.Store conn.old).now.schema ≡ store_schema
        → IsUnchanged (state S.Store conn.old) (state S.Store conn.new)) }
    ensures queries { Queries S.Store conn.old conn.new result }
{
    let units = load_units(alloc, conn)?;
    let branches = load_branches(alloc, conn)?;
    let entries = load_entries(alloc, conn)?;
    let legs = load_legs(alloc, conn)?;
    let claims = load_claims(alloc, conn)?;
    let transfers = load_transfers(alloc, conn)?;
    let receipts = load_receipts(alloc, conn)?;
    Ok(Parts {
        units,
        branches,
        entries,
        legs,
        claims,
        transfers,
        receipts,
    })
}
