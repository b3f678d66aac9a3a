//! The table of balance assertions, which are written eight to a statement.

ghost use Rattle.std.specs.Prelude.{◌≡◌, ◌<◌, ◌∷◌, ◌++◌, [], length, filter, IfSome, IfNone};
ghost use Rattle.std.specs.Prelude.{OnOk, IsTrue, map, IfOk, IsPermutation};
ghost use Rattle.sqlite.specs.Order.{column};
ghost use Rattle.sqlite.specs.Values.{bound};
ghost use Rattle.sqlite.specs.State.{KeepsCommit, Survives, IsUnchanged};
ghost use Rattle.sqlite.specs.Held.{state};
ghost use Rattle.treasury_tables.specs.declared.change.Change.TheVariants.{Claim as ClaimChange};
ghost use Rattle.treasury_tables.specs.Rows.{ShowsTables, Tables, HoldsTables, values_of_claim, shown_claim};
ghost use Rattle.treasury_tables.specs.Rows.{tables_with_claim};
ghost use Rattle.treasury_tables.specs.Rows.{written};
ghost use Rattle.treasury_tables.specs.Tables.{store_schema, claim_table};
ghost use Rattle.treasury_tables.specs.Creating.{Creates};
ghost use Rattle.treasury_tables.specs.Kept.{Queries, Writes, IsFaithful};
ghost use Rattle.treasury_tables.specs.Order.{InOrder};
ghost use Rattle.treasury_tables.specs.Kinds.{is_claim, all_of};

use crate::change::Change;
use crate::row::{FromRow, load};
use crate::tables::eight::Eight;
use money_core::Items;
use sqlite::types::{ToSql, ValueRef};
use sqlite::{Alter, Connection, Error, Row, Transaction};
use std::alloc::Global;
use treasury_state::ClaimRow;

/// Makes the table.
pub(crate) fn create_claim<S: Alter>(tx: &mut Transaction<'_, S>) -> Result<usize, Error>
    ensures same_reference { tx.new.conn.ghost_name ≡ tx.old.conn.ghost_name }
    ensures creates { Creates S.Store tx.old.conn.now tx.new.conn.now result claim_table }
{
    tx.execute(
        "CREATE TABLE claim (branch INTEGER NOT NULL, entry INTEGER NOT NULL, leg INTEGER NOT NULL, kind INTEGER NOT NULL, unit INTEGER NOT NULL, qty INTEGER NOT NULL, PRIMARY KEY (branch, entry, leg)) STRICT",
        &[],
    )
}

impl FromRow for ClaimRow {
    ghost columns = { values_of_claim };

    ghost front = { λ r. column r 0 ∷ column r 1 ∷ column r 2 ∷ column r 3 ∷ column r 4 ∷ column r 5 ∷ [] };

    fn read(row: &Row) -> Result<Self, Error> {
        let branch = row.get(0)?;
        let entry = row.get(1)?;
        let leg = row.get(2)?;
        let kind = row.get(3)?;
        let unit = row.get(4)?;
        let qty = row.get(5)?;
        Ok(ClaimRow {
            branch,
            entry,
            leg,
            kind,
            unit,
            qty,
        })
    }
}

/// The claims, in the order of their key.
pub(crate) fn load_claims<S: Alter>(
    alloc: Global,
    conn: &mut Connection<S>,
) -> Result<Items<ClaimRow>, Error>
    ensures rows { IsFaithful S.Store conn.new
        → IfOk result
        (λ rows. (t : Tables) → InOrder t → ShowsTables (state S.Store conn.old).now t → rows ≡ t.claims) }
    ensures shown { IsFaithful S.Store conn.new
        → IfOk result
        (λ rows. (state S.Store conn.old).now.schema ≡ store_schema
        → IsPermutation (map values_of_claim rows) (map shown_claim ((state S.Store conn.old).now.trees 10))) }
    ensures same { IsFaithful S.Store conn.new
        → OnOk result
        ((state S.Store conn.old).now.schema ≡ store_schema
        → IsUnchanged (state S.Store conn.old) (state S.Store conn.new)) }
    ensures queries { Queries S.Store conn.old conn.new result }
{
    load(
        alloc,
        conn,
        "SELECT branch, entry, leg, kind, unit, qty FROM claim ORDER BY branch, entry, leg",
    )
}

/// The values of a claim's row, in the order of its columns.
fn claim_values(row: &ClaimRow) -> [ValueRef<'_>; 6]
    ensures { bound result ≡ values_of_claim row.now }
{
    [
        row.branch.to_sql(),
        row.entry.to_sql(),
        row.leg.to_sql(),
        row.kind.to_sql(),
        row.unit.to_sql(),
        row.qty.to_sql(),
    ]
}

/// Inserts a claim.
pub fn put_claim<S: Alter>(tx: &mut Transaction<'_, S>, row: &ClaimRow) -> Result<usize, Error>
    ensures same_reference { tx.new.conn.ghost_name ≡ tx.old.conn.ghost_name }
    ensures writes { Writes S.Store tx.old.conn.now tx.new.conn.now result (tables_with_claim row.now) }
{
    let values = claim_values(row);
    tx.execute(
        "INSERT INTO claim (branch, entry, leg, kind, unit, qty) VALUES (?1, ?2, ?3, ?4, ?5, ?6)",
        &values,
    )
}

/// Inserts eight claims by one statement.
fn put_eight_claims<S: Alter>(
    tx: &mut Transaction<'_, S>,
    eight: &Eight<'_, ClaimRow>,
) -> Result<usize, Error>
    ensures same_reference { tx.new.conn.ghost_name ≡ tx.old.conn.ghost_name }
    ensures writes { Writes S.Store tx.old.conn.now tx.new.conn.now result (written (all_of ClaimChange eight.now)) }
{
    let values = [
        claim_values(eight.a),
        claim_values(eight.b),
        claim_values(eight.c),
        claim_values(eight.d),
        claim_values(eight.e),
        claim_values(eight.f),
        claim_values(eight.g),
        claim_values(eight.h),
    ];
    tx.execute(
        "INSERT INTO claim (branch, entry, leg, kind, unit, qty) VALUES (?1, ?2, ?3, ?4, ?5, ?6), (?7, ?8, ?9, ?10, ?11, ?12), (?13, ?14, ?15, ?16, ?17, ?18), (?19, ?20, ?21, ?22, ?23, ?24), (?25, ?26, ?27, ?28, ?29, ?30), (?31, ?32, ?33, ?34, ?35, ?36), (?37, ?38, ?39, ?40, ?41, ?42), (?43, ?44, ?45, ?46, ?47, ?48)",
        values.as_flattened(),
    )
}

/// The first claim among the changes, and the changes after it.
fn next_claim(changes: &[Change]) -> Option<(&ClaimRow, &[Change])>
    ensures found { IfSome result (λ p. filter is_claim changes.now ≡ ClaimChange p.0.now ∷ filter is_claim p.1.now) }
    ensures fewer { IfSome result (λ p. length p.1.now < length changes.now) }
    ensures none { IfNone result (filter is_claim changes.now ≡ []) }
{
    for (at, change) in changes.iter().enumerate() {
        if let Change::Claim(row) = change {
            return Some((row, &changes[at + 1..]));
        }
    }
    None
}

/// The first eight claims among the changes, if there are as many.
fn next_eight_claims(changes: &[Change]) -> Option<Eight<'_, ClaimRow>>
    ensures found { IfSome result (λ eight.
        filter is_claim changes.now ≡ all_of ClaimChange eight ++ filter is_claim eight.rest.now) }
    ensures fewer { IfSome result (λ eight. length eight.rest.now < length changes.now) }
{
    let (a, rest) = next_claim(changes)?;
    let (b, rest) = next_claim(rest)?;
    let (c, rest) = next_claim(rest)?;
    let (d, rest) = next_claim(rest)?;
    let (e, rest) = next_claim(rest)?;
    let (f, rest) = next_claim(rest)?;
    let (g, rest) = next_claim(rest)?;
    let (h, rest) = next_claim(rest)?;
    Some(Eight {
        a,
        b,
        c,
        d,
        e,
        f,
        g,
        h,
        rest,
    })
}

/// Inserts the claims among the changes, eight to a statement, and those that are left one by one.
pub fn put_claims<S: Alter>(tx: &mut Transaction<'_, S>, changes: &[Change]) -> Result<(), Error>
    ensures same_reference { tx.new.conn.ghost_name ≡ tx.old.conn.ghost_name }
    ensures rows { IsFaithful S.Store tx.new.conn.now
        → OnOk result
        ((t : Tables) → HoldsTables (state S.Store tx.old.conn.now).now t
        → HoldsTables (state S.Store tx.new.conn.now).now (written (filter is_claim changes.now) t)) }
    ensures inside { IsFaithful S.Store tx.new.conn.now
        → OnOk result
        (IsTrue (state S.Store tx.old.conn.now).in_transaction
        → IsTrue (state S.Store tx.new.conn.now).in_transaction) }
    ensures kept { IsFaithful S.Store tx.new.conn.now
        → KeepsCommit (state S.Store tx.old.conn.now) (state S.Store tx.new.conn.now) }
    ensures survives { Survives (state S.Store tx.old.conn.now) (state S.Store tx.new.conn.now) (λ _. ⊥) }
{
    let mut rest = changes;
    'eights: while let Some(eight) = next_eight_claims(rest) {
        put_eight_claims(tx, &eight)?;
        rest = eight.rest;
    }
    'ones: while let Some((row, more)) = next_claim(rest) {
        put_claim(tx, row)?;
        rest = more;
    }
    Ok(())
}
