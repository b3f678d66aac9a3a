//! Tables of version 1 made into those of version 2.

ghost use Rattle.std.specs.Prelude.{◌≡◌, ◌∷◌, [], pos, false, OnOk, OnErr, IsTrue};
ghost use Rattle.sqlite.specs.declared.types.Value.TheVariants.{Int};
ghost use Rattle.sqlite.specs.State.{KeepsCommit, Survives};
ghost use Rattle.sqlite.specs.Held.{state};
ghost use Rattle.sqlite.specs.Effect.{Database};
ghost use Rattle.sqlite_trees.specs.View.{IsShaped};
ghost use Rattle.sqlite_trees.specs.declared.store.Shape.TheVariants as shape;
ghost use Rattle.treasury_tables.specs.Kept.{IsFaithful};
ghost use Rattle.treasury_tables.specs.Tables.{store_schema, format_table};
ghost use Rattle.treasury_tables.specs.Rows.{versions};
ghost use Rattle.treasury_tables.specs.Opening.{IsFirstNumbered};
ghost use Rattle.treasury_tables.specs.Upgrading.{SetsVersion, Upgrades};

use crate::tables::receipt::create_receipt;
use sqlite::{Alter, Connection, Error, ErrorCode, Transaction};

/// Makes the row of `format` a 2.
fn set_version<S: Alter>(tx: &mut Transaction<'_, S>) -> Result<usize, Error>
    ensures same_reference { tx.new.conn.ghost_name ≡ tx.old.conn.ghost_name }
    ensures sets { IsFaithful S.Store tx.new.conn.now
        → OnOk result
        ((state S.Store tx.old.conn.now).now.schema ≡ store_schema
        → versions (state S.Store tx.old.conn.now).now ≡ Int (pos 1) ∷ []
        → IsShaped shape.Table ((state S.Store tx.old.conn.now).now.trees format_table.tree)
        → SetsVersion (state S.Store tx.old.conn.now).now (state S.Store tx.new.conn.now).now) }
    ensures inside { IsFaithful S.Store tx.new.conn.now
        → OnOk result (IsTrue (state S.Store tx.new.conn.now).in_transaction) }
    ensures kept { IsFaithful S.Store tx.new.conn.now
        → KeepsCommit (state S.Store tx.old.conn.now) (state S.Store tx.new.conn.now) }
    ensures survives { Survives (state S.Store tx.old.conn.now) (state S.Store tx.new.conn.now) (λ _. ⊥) }
{
    tx.execute("UPDATE format SET version = 2", &[])
}

/// Makes version 2 of version 1, inside a transaction.
fn make_second<S: Alter>(tx: &mut Transaction<'_, S>) -> Result<usize, Error>
    ensures same_reference { tx.new.conn.ghost_name ≡ tx.old.conn.ghost_name }
    ensures makes { IsFaithful S.Store tx.new.conn.now
        → OnOk result
        (IsFirstNumbered (state S.Store tx.old.conn.now).now
        → Upgrades (state S.Store tx.old.conn.now).now (state S.Store tx.new.conn.now).now) }
    ensures inside { IsFaithful S.Store tx.new.conn.now
        → OnOk result (IsTrue (state S.Store tx.new.conn.now).in_transaction) }
    ensures kept { IsFaithful S.Store tx.new.conn.now
        → KeepsCommit (state S.Store tx.old.conn.now) (state S.Store tx.new.conn.now) }
    ensures survives { Survives (state S.Store tx.old.conn.now) (state S.Store tx.new.conn.now) (λ _. ⊥) }
{
    create_receipt(tx)?;
    set_version(tx)
}

/// Makes the tables of version 1 into those of version 2, in one transaction: all or nothing.
///
/// An open transaction is an error. After an error of a connection that is still open the database is as it was. What a
/// stop or a crash leaves is version 1 or version 2, whole.
pub(crate) fn upgrade<S: Alter>(conn: &mut Connection<S>) -> Result<(), Error>
    ensures made { IsFaithful S.Store conn.new
        → OnOk result
        (IsFirstNumbered (state S.Store conn.old).now
        → Upgrades (state S.Store conn.old).now (state S.Store conn.new).now
        × ((state S.Store conn.new).committed ≡ (state S.Store conn.new).now)) }
    ensures opened { IsFaithful S.Store conn.new → OnOk result (IsTrue (state S.Store conn.new).is_open) }
    ensures unchanged { IsFaithful S.Store conn.new → IsTrue (state S.Store conn.new).is_open
        → OnErr result
        (((state S.Store conn.new).now ≡ (state S.Store conn.old).now)
        × ((state S.Store conn.new).committed ≡ (state S.Store conn.old).committed)) }
    ensures crash { Survives (state S.Store conn.old) (state S.Store conn.new)
        (λ trees. (db : Database) × (trees ≡ db.trees)
        × (IsFirstNumbered (state S.Store conn.old).now → Upgrades (state S.Store conn.old).now db)) }
{
    if !conn.is_autocommit() {
        return Err(Error::SqliteFailure(ErrorCode::TransactionState));
    }
    let mut tx = conn.transaction();
    make_second(&mut tx)?;
    tx.commit()?;
    Ok(())
}
