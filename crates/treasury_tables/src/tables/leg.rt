//! The table of legs, which are written eight to a statement.

ghost use Rattle.std.specs.Prelude.{◌≡◌, ◌<◌, ◌∷◌, ◌++◌, [], length, filter, IfSome, IfNone};
ghost use Rattle.std.specs.Prelude.{OnOk, IsTrue, map, IfOk, IsPermutation};
ghost use Rattle.sqlite.specs.Order.{column};
ghost use Rattle.sqlite.specs.Values.{bound};
ghost use Rattle.sqlite.specs.State.{KeepsCommit, Survives, IsUnchanged};
ghost use Rattle.sqlite.specs.Held.{state};
ghost use Rattle.treasury_tables.specs.declared.change.Change.TheVariants.{Leg as LegChange};
ghost use Rattle.treasury_tables.specs.Rows.{ShowsTables, Tables, HoldsTables, values_of_leg, shown_leg};
ghost use Rattle.treasury_tables.specs.Rows.{tables_with_leg};
ghost use Rattle.treasury_tables.specs.Rows.{written};
ghost use Rattle.treasury_tables.specs.Tables.{store_schema, leg_table};
ghost use Rattle.treasury_tables.specs.Creating.{Creates};
ghost use Rattle.treasury_tables.specs.Kept.{Queries, Writes, IsFaithful};
ghost use Rattle.treasury_tables.specs.Order.{InOrder};
ghost use Rattle.treasury_tables.specs.Kinds.{is_leg, all_of};

use crate::change::Change;
use crate::row::{FromRow, load, text_at};
use crate::tables::eight::Eight;
use money_core::Items;
use sqlite::types::{ToSql, ValueRef};
use sqlite::{Alter, Connection, Error, Row, Transaction};
use std::alloc::Global;
use treasury_state::LegRow;

/// Makes the table.
pub(crate) fn create_leg<S: Alter>(tx: &mut Transaction<'_, S>) -> Result<usize, Error>
    ensures same_reference { tx.new.conn.ghost_name ≡ tx.old.conn.ghost_name }
    ensures creates { Creates S.Store tx.old.conn.now tx.new.conn.now result leg_table }
{
    tx.execute(
        "CREATE TABLE leg (branch INTEGER NOT NULL, entry INTEGER NOT NULL, nr INTEGER NOT NULL, account TEXT NOT NULL, unit INTEGER NOT NULL, qty INTEGER NOT NULL, PRIMARY KEY (branch, entry, nr)) STRICT",
        &[],
    )
}

impl FromRow for LegRow {
    ghost columns = { values_of_leg };

    ghost front = { λ r. column r 0 ∷ column r 1 ∷ column r 2 ∷ column r 3 ∷ column r 4 ∷ column r 5 ∷ [] };

    fn read(row: &Row) -> Result<Self, Error> {
        let branch = row.get(0)?;
        let entry = row.get(1)?;
        let nr = row.get(2)?;
        let account = text_at(row, 3)?;
        let unit = row.get(4)?;
        let qty = row.get(5)?;
        Ok(LegRow {
            branch,
            entry,
            nr,
            account,
            unit,
            qty,
        })
    }
}

/// The legs, in the order of their key.
pub(crate) fn load_legs<S: Alter>(
    alloc: Global,
    conn: &mut Connection<S>,
) -> Result<Items<LegRow>, Error>
    ensures rows { IsFaithful S.Store conn.new
        → IfOk result (λ rows. (t : Tables) → InOrder t → ShowsTables (state S.Store conn.old).now t → rows ≡ t.legs) }
    ensures shown { IsFaithful S.Store conn.new
        → IfOk result
        (λ rows. (state S.Store conn.old).now.schema ≡ store_schema
        → IsPermutation (map values_of_leg rows) (map shown_leg ((state S.Store conn.old).now.trees 8))) }
    ensures same { IsFaithful S.Store conn.new
        → OnOk result
        ((state S.Store conn.old).now.schema ≡ store_schema
        → IsUnchanged (state S.Store conn.old) (state S.Store conn.new)) }
    ensures queries { Queries S.Store conn.old conn.new result }
{
    load(
        alloc,
        conn,
        "SELECT branch, entry, nr, account, unit, qty FROM leg ORDER BY branch, entry, nr",
    )
}

/// The values of a leg's row, in the order of its columns.
fn leg_values(row: &LegRow) -> [ValueRef<'_>; 6]
    ensures { bound result ≡ values_of_leg row.now }
{
    [
        row.branch.to_sql(),
        row.entry.to_sql(),
        row.nr.to_sql(),
        row.account.as_str().to_sql(),
        row.unit.to_sql(),
        row.qty.to_sql(),
    ]
}

/// Inserts a leg.
pub fn put_leg<S: Alter>(tx: &mut Transaction<'_, S>, row: &LegRow) -> Result<usize, Error>
    ensures same_reference { tx.new.conn.ghost_name ≡ tx.old.conn.ghost_name }
    ensures writes { Writes S.Store tx.old.conn.now tx.new.conn.now result (tables_with_leg row.now) }
{
    let values = leg_values(row);
    tx.execute(
        "INSERT INTO leg (branch, entry, nr, account, unit, qty) VALUES (?1, ?2, ?3, ?4, ?5, ?6)",
        &values,
    )
}

/// Inserts eight legs by one statement.
fn put_eight_legs<S: Alter>(
    tx: &mut Transaction<'_, S>,
    eight: &Eight<'_, LegRow>,
) -> Result<usize, Error>
    ensures same_reference { tx.new.conn.ghost_name ≡ tx.old.conn.ghost_name }
    ensures writes { Writes S.Store tx.old.conn.now tx.new.conn.now result (written (all_of LegChange eight.now)) }
{
    let values = [
        leg_values(eight.a),
        leg_values(eight.b),
        leg_values(eight.c),
        leg_values(eight.d),
        leg_values(eight.e),
        leg_values(eight.f),
        leg_values(eight.g),
        leg_values(eight.h),
    ];
    tx.execute(
        "INSERT INTO leg (branch, entry, nr, account, unit, qty) VALUES (?1, ?2, ?3, ?4, ?5, ?6), (?7, ?8, ?9, ?10, ?11, ?12), (?13, ?14, ?15, ?16, ?17, ?18), (?19, ?20, ?21, ?22, ?23, ?24), (?25, ?26, ?27, ?28, ?29, ?30), (?31, ?32, ?33, ?34, ?35, ?36), (?37, ?38, ?39, ?40, ?41, ?42), (?43, ?44, ?45, ?46, ?47, ?48)",
        values.as_flattened(),
    )
}

/// The first leg among the changes, and the changes after it.
fn next_leg(changes: &[Change]) -> Option<(&LegRow, &[Change])>
    ensures found { IfSome result (λ p. filter is_leg changes.now ≡ LegChange p.0.now ∷ filter is_leg p.1.now) }
    ensures fewer { IfSome result (λ p. length p.1.now < length changes.now) }
    ensures none { IfNone result (filter is_leg changes.now ≡ []) }
{
    for (at, change) in changes.iter().enumerate() {
        if let Change::Leg(row) = change {
            return Some((row, &changes[at + 1..]));
        }
    }
    None
}

/// The first eight legs among the changes, if there are as many.
fn next_eight_legs(changes: &[Change]) -> Option<Eight<'_, LegRow>>
    ensures found { IfSome result (λ eight.
        filter is_leg changes.now ≡ all_of LegChange eight ++ filter is_leg eight.rest.now) }
    ensures fewer { IfSome result (λ eight. length eight.rest.now < length changes.now) }
{
    let (a, rest) = next_leg(changes)?;
    let (b, rest) = next_leg(rest)?;
    let (c, rest) = next_leg(rest)?;
    let (d, rest) = next_leg(rest)?;
    let (e, rest) = next_leg(rest)?;
    let (f, rest) = next_leg(rest)?;
    let (g, rest) = next_leg(rest)?;
    let (h, rest) = next_leg(rest)?;
    Some(Eight {
        a,
        b,
        c,
        d,
        e,
        f,
        g,
        h,
        rest,
    })
}

/// Inserts the legs among the changes, eight to a statement, and those that are left one by one.
pub fn put_legs<S: Alter>(tx: &mut Transaction<'_, S>, changes: &[Change]) -> Result<(), Error>
    ensures same_reference { tx.new.conn.ghost_name ≡ tx.old.conn.ghost_name }
    ensures rows { IsFaithful S.Store tx.new.conn.now
        → OnOk result
        ((t : Tables) → HoldsTables (state S.Store tx.old.conn.now).now t
        → HoldsTables (state S.Store tx.new.conn.now).now (written (filter is_leg changes.now) t)) }
    ensures inside { IsFaithful S.Store tx.new.conn.now
        → OnOk result
        (IsTrue (state S.Store tx.old.conn.now).in_transaction
        → IsTrue (state S.Store tx.new.conn.now).in_transaction) }
    ensures kept { IsFaithful S.Store tx.new.conn.now
        → KeepsCommit (state S.Store tx.old.conn.now) (state S.Store tx.new.conn.now) }
    ensures survives { Survives (state S.Store tx.old.conn.now) (state S.Store tx.new.conn.now) (λ _. ⊥) }
{
    let mut rest = changes;
    'eights: while let Some(eight) = next_eight_legs(rest) {
        put_eight_legs(tx, &eight)?;
        rest = eight.rest;
    }
    'ones: while let Some((row, more)) = next_leg(rest) {
        put_leg(tx, row)?;
        rest = more;
    }
    Ok(())
}
