//! Whether the tables are there, in which version.

ghost use Rattle.std.specs.Prelude.{◌≡◌, ◌∷◌, ◌⊎◌, [], pos, map, ◌≤◌, false, Ok, Some, None, IfOk, OnOk, OnErr, IfSome};
ghost use Rattle.std.specs.Prelude.{OnSome, IsTrue, IsPermutation, ◌↔◌, ℤ};
ghost use Rattle.std.specs.List.{list_any};
ghost use Rattle.sqlite.specs.Order.{column};
ghost use Rattle.sqlite.specs.declared.types.Value.TheVariants.{Int};
ghost use Rattle.sqlite.specs.State.{IsUnchanged, Survives};
ghost use Rattle.sqlite.specs.Held.{state};
ghost use Rattle.sqlite_trees.specs.View.{doubt};
ghost use Rattle.sqlite_schema.specs.Names.{same_name};
ghost use Rattle.treasury_tables.specs.Kept.{IsFaithful};
ghost use Rattle.treasury_tables.specs.Rows.{versions};
ghost use Rattle.treasury_tables.specs.Creating.{has_all};
ghost use Rattle.treasury_tables.specs.Opening.{AreOursAlone, IsFirstVersion, IsFirstNumbered, IsSecond, IsEither};
ghost use Rattle.treasury_tables.specs.Upgrading.{Upgrades, KeepsOurs};

use crate::upgrading::upgrade;
use sqlite::types::ValueRef;
use sqlite::{Alter, Connection, Error, Row};
use sqlite_schema::names::same_name;

/// Whether a table of that name is there.
fn has_table<S: Alter>(conn: &Connection<S>, name: &[u8]) -> bool
    ensures { result ≡ list_any (λ t. same_name t.name name.now) (state S.Store conn.now).now.schema.tables }
{
    let tables = conn.schema().tables.as_slice();
    'table: for table in tables {
        if same_name(table.name.as_slice(), name) {
            return true;
        }
    }
    false
}

/// Whether each table of version 1 is there.
fn has_all<S: Alter>(conn: &Connection<S>) -> bool
    ensures { result ≡ has_all (state S.Store conn.now).now.schema }
{
    if !has_table(conn, b"format".as_slice()) {
        return false;
    }
    if !has_table(conn, b"unit".as_slice()) {
        return false;
    }
    if !has_table(conn, b"branch".as_slice()) {
        return false;
    }
    if !has_table(conn, b"entry".as_slice()) {
        return false;
    }
    if !has_table(conn, b"leg".as_slice()) {
        return false;
    }
    if !has_table(conn, b"claim".as_slice()) {
        return false;
    }
    has_table(conn, b"transfer".as_slice())
}

/// The rows of `format`. A query of it changes nothing, whatever table or view has that name.
pub fn format_rows<S: Alter>(conn: &mut Connection<S>) -> Result<Vec<Row>, Error>
    ensures rows { IsFaithful S.Store conn.new
        → IfOk result
        (λ rows. IsEither (state S.Store conn.old).now.schema
        → IsPermutation (map (λ r. column r 1 ∷ []) ((state S.Store conn.old).now.trees 0)) rows.items) }
    ensures same { IsFaithful S.Store conn.new
        → OnOk result (IsUnchanged (state S.Store conn.old) (state S.Store conn.new)) }
    ensures undone { IsFaithful S.Store conn.new → IsTrue (state S.Store conn.new).is_open
        → conn.old.in_transaction ≡ false
        → OnErr result
        (((state S.Store conn.new).now ≡ (state S.Store conn.old).now)
        × ((state S.Store conn.new).committed ≡ (state S.Store conn.old).committed)) }
    ensures crash { Survives (state S.Store conn.old) (state S.Store conn.new) (λ _. ⊥) }
{
    // With no transaction open what it shows is committed, by this call's contract.
    let _ = conn.is_autocommit();
    conn.query_all("SELECT version FROM format ORDER BY version", &[])
}

/// The number in the only row; none where there is another number of rows, or no number.
fn version_in(rows: &[Row]) -> Option<i64>
    ensures { (n : ℤ) → (result ≡ Some n) ↔ (map (λ r. column r 0) rows.now ≡ Int n ∷ []) }
{
    if rows.len() != 1 {
        return None;
    }
    match rows[0].get_ref(0) {
        Ok(ValueRef::Int(version)) => Some(version),
        _ => None,
    }
}

/// Whether the row is that number.
fn is_number(row: &Row, number: i64) -> bool
    ensures { IsTrue result ↔ (column row.now 0 ≡ Int number) }
{
    match row.get_ref(0) {
        Ok(ValueRef::Int(held)) => held == number,
        _ => false,
    }
}

/// Whether the only row is that number.
pub fn is_version(rows: &[Row], number: i64) -> bool
    ensures { IsTrue result ↔ (map (λ r. column r 0) rows.now ≡ Int number ∷ []) }
{
    rows.len() == 1 && is_number(&rows[0], number)
}

/// The version that a database names whose tables were not opened: the number in the one row of its table `format`.
///
/// None where a table of version 1 is missing, where `format` has no such row, and where that cannot be read.
pub fn found_version<S: Alter>(conn: &mut Connection<S>) -> Option<i64>
    ensures version { IsFaithful S.Store conn.new
        → IfSome result
        (λ version. IsEither (state S.Store conn.old).now.schema
        → versions (state S.Store conn.old).now ≡ Int version ∷ []) }
    ensures none { has_all (state S.Store conn.old).now.schema ≡ false → (result ≡ None) × (conn.new ≡ conn.old) }
    ensures same { IsFaithful S.Store conn.new
        → OnSome result (IsUnchanged (state S.Store conn.old) (state S.Store conn.new)) }
    ensures crash { Survives (state S.Store conn.old) (state S.Store conn.new) (λ _. ⊥) }
{
    if !has_all(conn) {
        return None;
    }
    match format_rows(conn) {
        Ok(rows) => version_in(&rows),
        Err(_) => None,
    }
}

/// Whether the tables and the one row of `format` are there, in version 2 once it answers: version 1 is made into it.
///
/// Where it answers that they are not there, nothing changes. If tables of our names were made by our statements, nor
/// does anything where they are version 2.
pub fn open_tables<S: Alter>(conn: &mut Connection<S>) -> Result<bool, Error>
    ensures there { IsFaithful S.Store conn.new
        → IfOk result
        (λ there. AreOursAlone (state S.Store conn.old).now.schema
        → IsTrue there ↔ (IsFirstVersion (state S.Store conn.old).now ⊎ IsSecond (state S.Store conn.old).now)) }
    ensures tables { IfOk result (λ there. IsTrue there → IsTrue (has_all (state S.Store conn.old).now.schema)) }
    ensures opened { IsFaithful S.Store conn.new
        → IfOk result (λ there. IsTrue there → IsTrue (state S.Store conn.new).is_open) }
    ensures none { has_all (state S.Store conn.old).now.schema ≡ false → (result ≡ Ok false) × (conn.new ≡ conn.old) }
    // Where they are not there, nothing changes, whatever is.
    ensures untouched { IsFaithful S.Store conn.new
        → IfOk result
        (λ there. there ≡ false
        → ((state S.Store conn.new).now ≡ (state S.Store conn.old).now)
        × ((state S.Store conn.new).committed ≡ (state S.Store conn.old).committed)) }
    // Version 1 is made into version 2.
    ensures first { IsFaithful S.Store conn.new
        → OnOk result
        (IsFirstNumbered (state S.Store conn.old).now
        → Upgrades (state S.Store conn.old).now (state S.Store conn.new).now
        × ((state S.Store conn.new).committed ≡ (state S.Store conn.new).now)) }
    // Whatever else is there stays.
    ensures same { IsFaithful S.Store conn.new
        → OnOk result
        (AreOursAlone (state S.Store conn.old).now.schema → (IsFirstVersion (state S.Store conn.old).now → ⊥)
        → ((state S.Store conn.new).now ≡ (state S.Store conn.old).now)
        × ((state S.Store conn.new).committed ≡ (state S.Store conn.old).committed)) }
    ensures clean { doubt (state S.Store conn.old).is_clean ≤ doubt (state S.Store conn.new).is_clean }
    ensures crash { KeepsOurs S.Store conn.old conn.new }
    // An error of a connection that is still open changes nothing, where no transaction was open.
    ensures undone { IsFaithful S.Store conn.new → IsTrue (state S.Store conn.new).is_open
        → conn.old.in_transaction ≡ false
        → OnErr result
        (((state S.Store conn.new).now ≡ (state S.Store conn.old).now)
        × ((state S.Store conn.new).committed ≡ (state S.Store conn.old).committed)) }
{
    if !has_all(conn) {
        return Ok(false);
    }
    let has_receipt = has_table(conn, b"receipt".as_slice());
    let rows = format_rows(conn)?;
    if has_receipt {
        return Ok(is_version(&rows, 2));
    }
    if !is_version(&rows, 1) {
        return Ok(false);
    }
    upgrade(conn)?;
    Ok(true)
}
