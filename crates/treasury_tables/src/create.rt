//! The tables of a new treasury.

ghost use Rattle.std.specs.Prelude.{◌≡◌, ◌≤◌, Ok, OnOk, OnErr, IfOk, IsTrue, false, [], codes};
ghost use Rattle.std.specs.List.{list_any};
ghost use Rattle.sqlite_schema.specs.Names.{same_name};
ghost use Rattle.sqlite_trees.specs.View.{doubt};
ghost use Rattle.sqlite.specs.Schema.{Schema};
ghost use Rattle.sqlite.specs.Change.{created, next_tree};
ghost use Rattle.sqlite.specs.State.{KeepsCommit, Survives};
ghost use Rattle.sqlite.specs.Held.{state};
ghost use Rattle.treasury_tables.specs.Kept.{IsFaithful};
ghost use Rattle.treasury_tables.specs.Rows.{HoldsTables, no_rows};
ghost use Rattle.treasury_tables.specs.Tables.{no_schema, format_table, unit_table, branch_table, entry_table};
ghost use Rattle.treasury_tables.specs.Tables.{leg_table, claim_table, transfer_table, receipt_table};
ghost use Rattle.treasury_tables.specs.Tables.{state_tables};
ghost use Rattle.treasury_tables.specs.Creating.{is_ours, has_one, has_counter, Creates, MakesAll, GivesRow, Beside};
ghost use Rattle.treasury_tables.specs.Creating.{SurvivesMaking};

use crate::tables::branch::create_branch;
use crate::tables::claim::create_claim;
use crate::tables::entry::create_entry;
use crate::tables::format::{create_format, put_format};
use crate::tables::leg::create_leg;
use crate::tables::receipt::create_receipt;
use crate::tables::transfer::create_transfer;
use crate::tables::unit::create_unit;
use sqlite::{Alter, Connection, Error, ErrorCode, Transaction};
use sqlite_schema::names::same_name;

/// Makes the tables of the state.
fn create_state<S: Alter>(tx: &mut Transaction<'_, S>) -> Result<usize, Error>
    ensures same_reference { tx.new.conn.ghost_name ≡ tx.old.conn.ghost_name }
    ensures makes { IsFaithful S.Store tx.new.conn.now
        → OnOk result
        (has_counter (state S.Store tx.old.conn.now).now.schema ≡ false
        → MakesAll state_tables (state S.Store tx.old.conn.now).now (state S.Store tx.new.conn.now).now) }
    ensures inside { IsFaithful S.Store tx.new.conn.now
        → OnOk result (IsTrue (state S.Store tx.new.conn.now).in_transaction) }
    ensures kept { IsFaithful S.Store tx.new.conn.now
        → KeepsCommit (state S.Store tx.old.conn.now) (state S.Store tx.new.conn.now) }
    ensures survives { Survives (state S.Store tx.old.conn.now) (state S.Store tx.new.conn.now) (λ _. ⊥) }
{
    create_unit(tx)?;
    create_branch(tx)?;
    create_entry(tx)?;
    create_leg(tx)?;
    create_claim(tx)?;
    create_transfer(tx)?;
    create_receipt(tx)
}

/// Whether the name is one of our tables', but for the case of ASCII letters.
fn is_ours(name: &[u8]) -> bool
    ensures { result ≡ is_ours name.now }
{
    same_name(name, b"format".as_slice())
        || same_name(name, b"unit".as_slice())
        || same_name(name, b"branch".as_slice())
        || same_name(name, b"entry".as_slice())
        || same_name(name, b"leg".as_slice())
        || same_name(name, b"claim".as_slice())
        || same_name(name, b"transfer".as_slice())
        || same_name(name, b"receipt".as_slice())
}

/// Whether one of our tables is there.
fn has_one<S: Alter>(conn: &Connection<S>) -> bool
    ensures { result ≡ has_one (state S.Store conn.now).now.schema }
{
    let tables = conn.schema().tables.as_slice();
    'table: for table in tables {
        if is_ours(table.name.as_slice()) {
            return true;
        }
    }
    false
}

/// Makes the tables of a new treasury in one transaction, or answers `false` where a table of one of their names is
/// there.
///
/// An open transaction is an error. After an error of a connection that is still open the database is as it was.
pub fn create_tables<S: Alter>(conn: &mut Connection<S>) -> Result<bool, Error>
    // Into an empty database.
    ensures made { IsFaithful S.Store conn.new
        → IfOk result
        (λ made. IsTrue made → (state S.Store conn.old).now.schema ≡ no_schema
        → HoldsTables (state S.Store conn.new).now no_rows
        × ((state S.Store conn.new).committed ≡ (state S.Store conn.new).now)) }
    // Beside other tables, none of which has AUTOINCREMENT.
    ensures beside { IsFaithful S.Store conn.new
        → IfOk result
        (λ made. IsTrue made → has_counter (state S.Store conn.old).now.schema ≡ false
        → Beside (state S.Store conn.old).now (state S.Store conn.new).now) }
    ensures still_open { IsFaithful S.Store conn.new
        → IfOk result (λ made. IsTrue made → IsTrue (state S.Store conn.new).is_open) }
    ensures clean { OnOk result (doubt (state S.Store conn.old).is_clean ≤ doubt (state S.Store conn.new).is_clean) }
    ensures crash { SurvivesMaking S.Store conn.old conn.new }
    ensures taken { IsTrue (has_one (state S.Store conn.old).now.schema) → (result ≡ Ok false) × (conn.new ≡ conn.old) }
    ensures free { IfOk result (λ made. IsTrue made → has_one (state S.Store conn.old).now.schema ≡ false) }
    ensures refused { IfOk result (λ made. made ≡ false
        → IsTrue (has_one (state S.Store conn.old).now.schema) × (conn.new ≡ conn.old)) }
    ensures unchanged { IsFaithful S.Store conn.new → IsTrue (state S.Store conn.new).is_open
        → OnErr result
        (((state S.Store conn.new).now ≡ (state S.Store conn.old).now)
        × ((state S.Store conn.new).committed ≡ (state S.Store conn.old).committed)) }
{
    if has_one(conn) {
        return Ok(false);
    }
    if !conn.is_autocommit() {
        return Err(Error::SqliteFailure(ErrorCode::TransactionState));
    }
    let mut tx = conn.transaction();
    create_format(&mut tx)?;
    put_format(&mut tx)?;
    create_state(&mut tx)?;
    tx.commit()?;
    Ok(true)
}
