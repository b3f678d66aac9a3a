//! Points by a number, such as those of each day's own by the day.

ghost use Rattle.std.specs.Prelude.{◌≡◌, pos, ℤ, true, false, OnOk};
ghost use Rattle.std.specs.Result.{IsOkUnless};
ghost use Rattle.std.specs.Ordering.{int_eq};
ghost use Rattle.day_sums.specs.Points.{IsUpTo, has_point, point_sum, SamePoints, RaisedPoints};
ghost use Rattle.day_sums.specs.Blocks.{points_at};

use crate::points::Points;
use money_core::Cause;
use std::alloc::Global;
use std::collections::BTreeMap;

/// The sum through a number in the points of a key; none add nothing.
pub fn sum_in(parts: &BTreeMap<i64, Points>, key: i64, number: i64) -> i64
    ensures { result ≡ point_sum (pos 0) (points_at parts.now.entries key) number }
{
    match parts.get(&key) {
        Some(points) => points.sum_through(number),
        None => 0,
    }
}

/// Opens a number in the points of a key.
pub fn open_in(
    alloc: Global,
    parts: &mut BTreeMap<i64, Points>,
    key: i64,
    number: i64,
) -> Result<(), Cause>
    requires { IsUpTo 4294967296 number }
    ensures same { (k : ℤ) → SamePoints (points_at parts.old.entries k) (points_at parts.new.entries k) }
    ensures open { OnOk result (has_point number (points_at parts.new.entries key) ≡ true) }
    ensures memory { IsOkUnless result Cause.OutOfMemory }
{
    if let Some(points) = parts.get_mut(&key) {
        return points.open(number);
    }
    let mut points = Points::empty(alloc);
    points.open(number)?;
    parts.insert(key, points)?;
    Ok(())
}

/// Adds to the sums of the points of a key from a number on, which is open.
pub fn raise_in(parts: &mut BTreeMap<i64, Points>, key: i64, number: i64, qty: i64)
    requires small { IsUpTo 4294967296 number }
    requires open { has_point number (points_at parts.old.entries key) ≡ true }
    requires sums { (n : ℤ) → IsUpTo 40000000000000000 (point_sum (pos 0) (points_at parts.old.entries key) n) }
    requires qty { IsUpTo 10000000000000000 qty }
    ensures own { RaisedPoints number qty (points_at parts.old.entries key) (points_at parts.new.entries key) }
    ensures others { (k : ℤ) → int_eq key k ≡ false
        → points_at parts.new.entries k ≡ points_at parts.old.entries k }
{
    if let Some(points) = parts.get_mut(&key) {
        points.raise(number, qty);
    }
}
