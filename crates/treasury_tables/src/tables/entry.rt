//! The table of entries, which are written eight to a statement.

ghost use Rattle.std.specs.Prelude.{◌≡◌, ◌<◌, ◌∷◌, ◌++◌, [], length, filter, IfSome, IfNone};
ghost use Rattle.std.specs.Prelude.{OnOk, IsTrue, map, IfOk, IsPermutation};
ghost use Rattle.sqlite.specs.Order.{column};
ghost use Rattle.sqlite.specs.Values.{bound};
ghost use Rattle.sqlite.specs.State.{KeepsCommit, Survives, IsUnchanged};
ghost use Rattle.sqlite.specs.Held.{state};
ghost use Rattle.treasury_tables.specs.declared.change.Change.TheVariants.{Entry as EntryChange};
ghost use Rattle.treasury_tables.specs.Rows.{ShowsTables, Tables, HoldsTables, values_of_entry, shown_entry};
ghost use Rattle.treasury_tables.specs.Rows.{tables_with_entry};
ghost use Rattle.treasury_tables.specs.Rows.{written};
ghost use Rattle.treasury_tables.specs.Tables.{store_schema, entry_table};
ghost use Rattle.treasury_tables.specs.Creating.{Creates};
ghost use Rattle.treasury_tables.specs.Kept.{Queries, Writes, IsFaithful};
ghost use Rattle.treasury_tables.specs.Order.{InOrder};
ghost use Rattle.treasury_tables.specs.Kinds.{is_entry, all_of};

use crate::change::Change;
use crate::row::{FromRow, load, text_at};
use crate::tables::eight::Eight;
use money_core::Items;
use sqlite::types::{ToSql, ValueRef};
use sqlite::{Alter, Connection, Error, Row, Transaction};
use std::alloc::Global;
use treasury_state::EntryRow;

/// Makes the table.
pub(crate) fn create_entry<S: Alter>(tx: &mut Transaction<'_, S>) -> Result<usize, Error>
    ensures same_reference { tx.new.conn.ghost_name ≡ tx.old.conn.ghost_name }
    ensures creates { Creates S.Store tx.old.conn.now tx.new.conn.now result entry_table }
{
    tx.execute(
        "CREATE TABLE entry (branch INTEGER NOT NULL, nr INTEGER NOT NULL, day INTEGER NOT NULL, mark TEXT NOT NULL, body TEXT NOT NULL, PRIMARY KEY (branch, nr), UNIQUE (branch, mark)) STRICT",
        &[],
    )
}

impl FromRow for EntryRow {
    ghost columns = { values_of_entry };

    ghost front = { λ r. column r 0 ∷ column r 1 ∷ column r 2 ∷ column r 3 ∷ column r 4 ∷ [] };

    fn read(row: &Row) -> Result<Self, Error> {
        let branch = row.get(0)?;
        let nr = row.get(1)?;
        let day = row.get(2)?;
        let mark = text_at(row, 3)?;
        let body = text_at(row, 4)?;
        Ok(EntryRow {
            branch,
            nr,
            day,
            mark,
            body,
        })
    }
}

/// The entries, in the order of their key.
pub(crate) fn load_entries<S: Alter>(
    alloc: Global,
    conn: &mut Connection<S>,
) -> Result<Items<EntryRow>, Error>
    ensures rows { IsFaithful S.Store conn.new
        → IfOk result
        (λ rows. (t : Tables) → InOrder t → ShowsTables (state S.Store conn.old).now t → rows ≡ t.entries) }
    ensures shown { IsFaithful S.Store conn.new
        → IfOk result
        (λ rows. (state S.Store conn.old).now.schema ≡ store_schema
        → IsPermutation (map values_of_entry rows) (map shown_entry ((state S.Store conn.old).now.trees 5))) }
    ensures same { IsFaithful S.Store conn.new
        → OnOk result
        ((state S.Store conn.old).now.schema ≡ store_schema
        → IsUnchanged (state S.Store conn.old) (state S.Store conn.new)) }
    ensures queries { Queries S.Store conn.old conn.new result }
{
    load(
        alloc,
        conn,
        "SELECT branch, nr, day, mark, body FROM entry ORDER BY branch, nr",
    )
}

/// The values of an entry's row, in the order of its columns.
fn entry_values(row: &EntryRow) -> [ValueRef<'_>; 5]
    ensures { bound result ≡ values_of_entry row.now }
{
    [
        row.branch.to_sql(),
        row.nr.to_sql(),
        row.day.to_sql(),
        row.mark.as_str().to_sql(),
        row.body.as_str().to_sql(),
    ]
}

/// Inserts an entry.
pub fn put_entry<S: Alter>(tx: &mut Transaction<'_, S>, row: &EntryRow) -> Result<usize, Error>
    ensures same_reference { tx.new.conn.ghost_name ≡ tx.old.conn.ghost_name }
    ensures writes { Writes S.Store tx.old.conn.now tx.new.conn.now result (tables_with_entry row.now) }
{
    let values = entry_values(row);
    tx.execute(
        "INSERT INTO entry (branch, nr, day, mark, body) VALUES (?1, ?2, ?3, ?4, ?5)",
        &values,
    )
}

/// Inserts eight entries by one statement.
fn put_eight_entries<S: Alter>(
    tx: &mut Transaction<'_, S>,
    eight: &Eight<'_, EntryRow>,
) -> Result<usize, Error>
    ensures same_reference { tx.new.conn.ghost_name ≡ tx.old.conn.ghost_name }
    ensures writes { Writes S.Store tx.old.conn.now tx.new.conn.now result (written (all_of EntryChange eight.now)) }
{
    let values = [
        entry_values(eight.a),
        entry_values(eight.b),
        entry_values(eight.c),
        entry_values(eight.d),
        entry_values(eight.e),
        entry_values(eight.f),
        entry_values(eight.g),
        entry_values(eight.h),
    ];
    tx.execute(
        "INSERT INTO entry (branch, nr, day, mark, body) VALUES (?1, ?2, ?3, ?4, ?5), (?6, ?7, ?8, ?9, ?10), (?11, ?12, ?13, ?14, ?15), (?16, ?17, ?18, ?19, ?20), (?21, ?22, ?23, ?24, ?25), (?26, ?27, ?28, ?29, ?30), (?31, ?32, ?33, ?34, ?35), (?36, ?37, ?38, ?39, ?40)",
        values.as_flattened(),
    )
}

/// The first entry among the changes, and the changes after it.
fn next_entry(changes: &[Change]) -> Option<(&EntryRow, &[Change])>
    ensures found { IfSome result (λ p. filter is_entry changes.now ≡ EntryChange p.0.now ∷ filter is_entry p.1.now) }
    ensures fewer { IfSome result (λ p. length p.1.now < length changes.now) }
    ensures none { IfNone result (filter is_entry changes.now ≡ []) }
{
    for (at, change) in changes.iter().enumerate() {
        if let Change::Entry(row) = change {
            return Some((row, &changes[at + 1..]));
        }
    }
    None
}

/// The first eight entries among the changes, if there are as many.
fn next_eight_entries(changes: &[Change]) -> Option<Eight<'_, EntryRow>>
    ensures found { IfSome result (λ eight.
        filter is_entry changes.now ≡ all_of EntryChange eight ++ filter is_entry eight.rest.now) }
    ensures fewer { IfSome result (λ eight. length eight.rest.now < length changes.now) }
{
    let (a, rest) = next_entry(changes)?;
    let (b, rest) = next_entry(rest)?;
    let (c, rest) = next_entry(rest)?;
    let (d, rest) = next_entry(rest)?;
    let (e, rest) = next_entry(rest)?;
    let (f, rest) = next_entry(rest)?;
    let (g, rest) = next_entry(rest)?;
    let (h, rest) = next_entry(rest)?;
    Some(Eight {
        a,
        b,
        c,
        d,
        e,
        f,
        g,
        h,
        rest,
    })
}

/// Inserts the entries among the changes, eight to a statement, and those that are left one by one.
pub fn put_entries<S: Alter>(tx: &mut Transaction<'_, S>, changes: &[Change]) -> Result<(), Error>
    ensures same_reference { tx.new.conn.ghost_name ≡ tx.old.conn.ghost_name }
    ensures rows { IsFaithful S.Store tx.new.conn.now
        → OnOk result
        ((t : Tables) → HoldsTables (state S.Store tx.old.conn.now).now t
        → HoldsTables (state S.Store tx.new.conn.now).now (written (filter is_entry changes.now) t)) }
    ensures inside { IsFaithful S.Store tx.new.conn.now
        → OnOk result
        (IsTrue (state S.Store tx.old.conn.now).in_transaction
        → IsTrue (state S.Store tx.new.conn.now).in_transaction) }
    ensures kept { IsFaithful S.Store tx.new.conn.now
        → KeepsCommit (state S.Store tx.old.conn.now) (state S.Store tx.new.conn.now) }
    ensures survives { Survives (state S.Store tx.old.conn.now) (state S.Store tx.new.conn.now) (λ _. ⊥) }
{
    let mut rest = changes;
    'eights: while let Some(eight) = next_eight_entries(rest) {
        put_eight_entries(tx, &eight)?;
        rest = eight.rest;
    }
    'ones: while let Some((row, more)) = next_entry(rest) {
        put_entry(tx, row)?;
        rest = more;
    }
    Ok(())
}
