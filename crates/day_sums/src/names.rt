//! The rows of one commodity, by account.
//!
//! By the hash of the name: inserting into a sorted list moves every later row, and no query goes through the names in
//! order. A transaction of two postings looks up its rows twelve times.

ghost use Rattle.std.specs.Prelude.{◌≡◌, ℕ, List, true, false, OnOk};
ghost use Rattle.std.specs.Result.{IsOkUnless};
ghost use Rattle.std.specs.Str.{bytes_eq};
ghost use Rattle.day_sums.specs.Points.{IsUpTo};
ghost use Rattle.day_sums.specs.declared.period.Period.{Period as Span};
ghost use Rattle.day_sums.specs.Row.{row_sum, has_number, SameRow, RaisedRow};
ghost use Rattle.day_sums.specs.Sums.{row_at};

use crate::period::Period;
use crate::row::Row;
use money_core::{Cause, Day};
use std::alloc::Global;
use std::collections::HashMap;

/// The sum of an account over a period.
pub fn sum_by_name(names: &HashMap<Vec<u8>, Row>, account: &[u8], period: Period) -> i64
    ensures { result ≡ row_sum (row_at names.now account.now) period }
{
    match names.get(account) {
        Some(row) => row.sum(period),
        None => 0,
    }
}

/// Opens a day's number in the row of an account, which is made if it is not there.
pub fn open_name(
    alloc: Global,
    names: &mut HashMap<Vec<u8>, Row>,
    account: &[u8],
    day: Day,
    number: u32,
) -> Result<(), Cause>
    ensures same { (a : List ℕ) → SameRow (row_at names.old a) (row_at names.new a) }
    ensures open { OnOk result (has_number (row_at names.new account.now) day number ≡ true) }
    ensures memory { IsOkUnless result Cause.OutOfMemory }
{
    if let Some(row) = names.get_mut(account) {
        return row.open(day, number);
    }
    let row = Row::of(alloc, day, number);
    let name = Vec::from_slice(alloc, account)?;
    match names.insert(name, row) {
        Ok(_) => Ok(()),
        Err(_) => Err(Cause::OutOfMemory),
    }
}

/// Adds to the sums of an account over the periods that a day's number is in, which is open.
pub fn raise_name(
    names: &mut HashMap<Vec<u8>, Row>,
    account: &[u8],
    day: Day,
    number: u32,
    qty: i64,
)
    requires open { has_number (row_at names.old account.now) day number ≡ true }
    requires sums { (p : Span) → IsUpTo 10000000000000000 (row_sum (row_at names.old account.now) p) }
    requires qty { IsUpTo 10000000000000000 qty }
    ensures own { RaisedRow day number qty (row_at names.old account.now) (row_at names.new account.now) }
    ensures others { (a : List ℕ) → bytes_eq account.now a ≡ false → row_at names.new a ≡ row_at names.old a }
{
    if let Some(row) = names.get_mut(account) {
        row.raise(day, number, qty);
    }
}
