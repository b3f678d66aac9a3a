//! A row of one of the tables: how it is asked for, and read.

ghost use Rattle.std.specs.Prelude.{◌≡◌, ℕ, List, [], map, OnOk, IfOk};
ghost use Rattle.sqlite.specs.declared.types.Value.{Value};
ghost use Rattle.sqlite.specs.declared.types.Value.TheVariants.{Text as Words};
ghost use Rattle.sqlite.specs.Order.{Row as Columns, column};
ghost use Rattle.sqlite.specs.Values.{or_null};
ghost use Rattle.sqlite.specs.State.{IsUnchanged, Shown};
ghost use Rattle.sqlite.specs.Given.{IsPlain};
ghost use Rattle.sqlite.specs.Listing.{understood};
ghost use Rattle.sqlite.specs.Held.{Held, state};
ghost use Rattle.treasury_tables.specs.Tables.{store_schema};
ghost use Rattle.treasury_tables.specs.Kept.{Queries, IsFaithful};
ghost use Rattle.treasury_tables.specs.Reading.{HasReadSoFar, GivesNext, GivesAll};

use money_core::{Items, Text};
use sqlite::{Alter, Connection, Error, ErrorCode, Row, Rows};
use std::alloc::Global;

/// A row of one of the tables, read from its columns.
pub(crate) trait FromRow: Drop {
    /// The columns.
    ghost columns: { Self → List Value };

    /// As many columns of any row.
    ghost front: { List Value → List Value };

    /// The row that has these columns. An error is want of memory, or that no row has them.
    fn read(row: &Row) -> Result<Self, Error>
        ensures same { IfOk result (λ x. (y : Self) → row.now ≡ columns y → x ≡ y) }
        ensures shown { IfOk result (λ x. columns x ≡ front row.now) };
}

/// The text in a column.
pub(crate) fn text_at(row: &Row, at: usize) -> Result<Text, Error>
    ensures { IfOk result (λ text. column row.now at ≡ Words text) }
{
    let text: String = row.get(at)?;
    Ok(Text::from_string(text))
}

/// The text in a column, if there is one.
pub(crate) fn maybe_text_at(row: &Row, at: usize) -> Result<Option<Text>, Error>
    ensures { IfOk result (λ text. column row.now at ≡ or_null Words text) }
{
    let text: Option<String> = row.get(at)?;
    match text {
        Some(text) => Ok(Some(Text::from_string(text))),
        None => Ok(None),
    }
}

/// The rows, in order.
pub(crate) fn read_all<T: FromRow>(alloc: Global, rows: &[Row]) -> Result<Items<T>, Error>
    ensures same { IfOk result (λ xs. (ys : List T) → rows.now ≡ map T.columns ys → xs ≡ ys) }
    ensures shown { IfOk result (λ xs. map T.columns xs ≡ map T.front rows.now) }
{
    let mut list = Vec::new(alloc);
    'row: for row in rows {
        let item = T::read(row)?;
        list.push(item)?;
    }
    Ok(Items::from_vec(list))
}

/// The next row of a query, read, if it gives one more.
fn read_next<T: FromRow, S: Alter>(rows: &mut Rows<'_, S>) -> Result<Option<T>, Error>
    ensures same_reference { rows.new.conn.ghost_name ≡ rows.old.conn.ghost_name }
    ensures next { (sql : List ℕ) (first : Held S) (xs : List T)
        → HasReadSoFar S.Store T.columns T.front sql first rows.old.conn.now xs
        → GivesNext S.Store T.columns T.front sql first rows.new.conn.now xs result }
{
    rows.advance()?;
    match rows.get() {
        Some(row) => {
            let item = T::read(row)?;
            Ok(Some(item))
        }
        None => Ok(None),
    }
}

/// The rows of a query, read one by one, so that no list of all is held beside what they are read as.
fn read_each<T: FromRow, S: Alter>(alloc: Global, rows: &mut Rows<'_, S>) -> Result<Items<T>, Error>
    ensures same_reference { rows.new.conn.ghost_name ≡ rows.old.conn.ghost_name }
    ensures all { (sql : List ℕ) (first : Held S)
        → HasReadSoFar S.Store T.columns T.front sql first rows.old.conn.now []
        → GivesAll S.Store T.columns T.front sql first rows.new.conn.now result }
{
    let mut list = Vec::new(alloc);
    // No answer has as many rows.
    'row: for _ in 0..u64::MAX {
        match read_next(rows)? {
            Some(item) => list.push(item)?,
            None => return Ok(Items::from_vec(list)),
        }
    }
    Err(Error::SqliteFailure(ErrorCode::OutOfMemory))
}

/// The rows of a query of our tables, read: in the order in which the query answers them.
pub(crate) fn load<T: FromRow, S: Alter>(
    alloc: Global,
    conn: &mut Connection<S>,
    sql: &str,
) -> Result<Items<T>, Error>
    requires { IsPlain (understood store_schema sql.now) }
    ensures rows { IsFaithful S.Store conn.new
        → IfOk result
        (λ xs. (state S.Store conn.old).now.schema ≡ store_schema
        → (given : List Columns) × Shown sql.now [] (state S.Store conn.old) (state S.Store conn.new) given
        × ((ys : List T) → given ≡ map T.columns ys → xs ≡ ys)) }
    ensures shown { IsFaithful S.Store conn.new
        → IfOk result
        (λ xs. (state S.Store conn.old).now.schema ≡ store_schema
        → (given : List Columns) × Shown sql.now [] (state S.Store conn.old) (state S.Store conn.new) given
        × (map T.columns xs ≡ map T.front given)) }
    ensures same { IsFaithful S.Store conn.new
        → OnOk result
        ((state S.Store conn.old).now.schema ≡ store_schema
        → IsUnchanged (state S.Store conn.old) (state S.Store conn.new)) }
    ensures queries { Queries S.Store conn.old conn.new result }
{
    let mut rows = conn.query(sql, &[])?;
    read_each(alloc, &mut rows)
}
