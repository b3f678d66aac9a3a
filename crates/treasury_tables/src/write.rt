//! The writes of one command, in one transaction.
//!
//! Entries, legs and claims are written eight rows to a statement. Each statement costs a savepoint, a copy of each
//! page that is written and a plan for each probe: eight rows saved 27 per cent of the kit's time for an import,
//! sixty-four 30.

ghost use Rattle.std.specs.Prelude.{◌≡◌, ◌<◌, ◌∷◌, [], length, filter, IfSome, IfNone, OnOk, OnErr, IsTrue};
ghost use Rattle.sqlite_value.specs.Value.{owned};
ghost use Rattle.sqlite.specs.declared.types.Value.TheVariants.{Text as Words};
ghost use Rattle.sqlite.specs.Values.{or_null};
ghost use Rattle.sqlite.specs.State.{KeepsCommit, Survives};
ghost use Rattle.sqlite.specs.Held.{state};
ghost use Rattle.sqlite.specs.Effect.{Database};
ghost use Rattle.treasury_tables.specs.Rows.{Tables, HoldsTables, tables_with_unit, tables_with_branch};
ghost use Rattle.treasury_tables.specs.Rows.{tables_with_transfer, tables_with_part};
ghost use Rattle.treasury_tables.specs.Rows.{tables_with_lock};
ghost use Rattle.treasury_tables.specs.Rows.{tables_with_receipt, tables_changed, written};
ghost use Rattle.treasury_tables.specs.Kept.{Writes, IsFaithful};
ghost use Rattle.treasury_tables.specs.Kinds.{is_single};

use crate::change::Change;
use crate::tables::branch::{put_branch, set_lock};
use crate::tables::claim::{put_claim, put_claims};
use crate::tables::entry::{put_entries, put_entry};
use crate::tables::leg::{put_leg, put_legs};
use crate::tables::receipt::put_part;
use crate::tables::transfer::{put_transfer, set_receipt};
use crate::tables::unit::put_unit;
use sqlite::{Alter, Connection, Error, ErrorCode, Transaction};

/// Writes one change.
fn put<S: Alter>(tx: &mut Transaction<'_, S>, change: &Change) -> Result<usize, Error>
    ensures same_reference { tx.new.conn.ghost_name ≡ tx.old.conn.ghost_name }
    ensures writes { Writes S.Store tx.old.conn.now tx.new.conn.now result (tables_changed change.now) }
{
    match change {
        Change::Unit(row) => put_unit(tx, row),
        Change::Branch(row) => put_branch(tx, row),
        Change::Entry(row) => put_entry(tx, row),
        Change::Leg(row) => put_leg(tx, row),
        Change::Claim(row) => put_claim(tx, row),
        Change::Transfer(row) => put_transfer(tx, row),
        Change::Part(row) => put_part(tx, row),
        Change::Lock { branch, day } => set_lock(tx, *branch, *day),
        Change::Receipt { id, day, payee } => set_receipt(tx, id.as_str(), *day, payee.as_str()),
    }
}

/// Whether the change is written by a statement of its own.
fn is_single(change: &Change) -> bool
    ensures { result ≡ is_single change.now }
{
    !matches!(change, Change::Entry(_) | Change::Leg(_) | Change::Claim(_))
}

/// The first such change, and the changes after it.
fn next_single(changes: &[Change]) -> Option<(&Change, &[Change])>
    ensures found { IfSome result (λ p. filter is_single changes.now ≡ p.0.now ∷ filter is_single p.1.now) }
    ensures fewer { IfSome result (λ p. length p.1.now < length changes.now) }
    ensures none { IfNone result (filter is_single changes.now ≡ []) }
{
    for (at, change) in changes.iter().enumerate() {
        if is_single(change) {
            return Some((change, &changes[at + 1..]));
        }
    }
    None
}

/// Writes each other change by a statement of its own.
fn put_singles<S: Alter>(tx: &mut Transaction<'_, S>, changes: &[Change]) -> Result<(), Error>
    ensures same_reference { tx.new.conn.ghost_name ≡ tx.old.conn.ghost_name }
    ensures rows { IsFaithful S.Store tx.new.conn.now
        → OnOk result
        ((t : Tables) → HoldsTables (state S.Store tx.old.conn.now).now t
        → HoldsTables (state S.Store tx.new.conn.now).now (written (filter is_single changes.now) t)) }
    ensures inside { IsFaithful S.Store tx.new.conn.now
        → OnOk result
        (IsTrue (state S.Store tx.old.conn.now).in_transaction
        → IsTrue (state S.Store tx.new.conn.now).in_transaction) }
    ensures kept { IsFaithful S.Store tx.new.conn.now
        → KeepsCommit (state S.Store tx.old.conn.now) (state S.Store tx.new.conn.now) }
    ensures survives { Survives (state S.Store tx.old.conn.now) (state S.Store tx.new.conn.now) (λ _. ⊥) }
{
    let mut rest = changes;
    'ones: while let Some((change, more)) = next_single(rest) {
        put(tx, change)?;
        rest = more;
    }
    Ok(())
}

/// Writes the changes: entries, legs and claims by eights, and then the others.
fn put_all<S: Alter>(tx: &mut Transaction<'_, S>, changes: &[Change]) -> Result<(), Error>
    ensures same_reference { tx.new.conn.ghost_name ≡ tx.old.conn.ghost_name }
    ensures rows { IsFaithful S.Store tx.new.conn.now
        → OnOk result
        ((t : Tables) → HoldsTables (state S.Store tx.old.conn.now).now t
        → HoldsTables (state S.Store tx.new.conn.now).now (written changes.now t)) }
    ensures inside { IsFaithful S.Store tx.new.conn.now
        → OnOk result
        (IsTrue (state S.Store tx.old.conn.now).in_transaction
        → IsTrue (state S.Store tx.new.conn.now).in_transaction) }
    ensures kept { IsFaithful S.Store tx.new.conn.now
        → KeepsCommit (state S.Store tx.old.conn.now) (state S.Store tx.new.conn.now) }
    ensures survives { Survives (state S.Store tx.old.conn.now) (state S.Store tx.new.conn.now) (λ _. ⊥) }
{
    put_entries(tx, changes)?;
    put_legs(tx, changes)?;
    put_claims(tx, changes)?;
    put_singles(tx, changes)
}

/// Writes the changes in one transaction, all or none. It asks that none is open, and answers an error where one is.
///
/// After an error of a connection that is still open the tables are as they were. What a stop or a crash leaves is the
/// tables of before or those with all changes.
pub fn write_all<S: Alter>(conn: &mut Connection<S>, changes: &[Change]) -> Result<(), Error>
    ensures rows { IsFaithful S.Store conn.new
        → OnOk result
        ((t : Tables) → HoldsTables (state S.Store conn.old).now t
        → HoldsTables (state S.Store conn.new).now (written changes.now t)
        × ((state S.Store conn.new).committed ≡ (state S.Store conn.new).now)) }
    ensures still_open { IsFaithful S.Store conn.new → OnOk result (IsTrue (state S.Store conn.new).is_open) }
    ensures unchanged { IsFaithful S.Store conn.new → IsTrue (state S.Store conn.new).is_open
        → OnErr result
        (((state S.Store conn.new).now ≡ (state S.Store conn.old).now)
        × ((state S.Store conn.new).committed ≡ (state S.Store conn.old).committed)) }
    ensures was_open { IsFaithful S.Store conn.new → IsTrue (state S.Store conn.new).is_open
        → IsTrue (state S.Store conn.old).is_open }
    ensures crash { Survives (state S.Store conn.old) (state S.Store conn.new)
        (λ trees. (db : Database) × (trees ≡ db.trees)
        × ((t : Tables) → HoldsTables (state S.Store conn.old).now t → HoldsTables db (written changes.now t))) }
{
    if !conn.is_autocommit() {
        return Err(Error::SqliteFailure(ErrorCode::TransactionState));
    }
    let mut tx = conn.transaction();
    put_all(&mut tx, changes)?;
    tx.commit()?;
    Ok(())
}
