//! The sums through days, and those of each day's own.

ghost use Rattle.std.specs.Prelude.{◌≡◌, pos, true, false, OnOk, IfOk};
ghost use Rattle.std.specs.Result.{IsOkUnless};
ghost use Rattle.day_sums.specs.Points.{IsUpTo, is_none};
ghost use Rattle.day_sums.specs.declared.period.Period.{Period as Span};
ghost use Rattle.day_sums.specs.Row.{no_row, row_sum, has_number, one, SameRow, RaisedRow};

use crate::blocks::Blocks;
use crate::parts::{open_in, raise_in, sum_in};
use crate::period::Period;
use crate::points::Points;
use money_core::{Cause, Day};
use std::alloc::Global;
use std::collections::BTreeMap;
use std::marker::Model;

/// The sums through the days, and beside them those of each day's own.
///
/// So what is added late, on an earlier day but with a later number, raises the sums of later days and no other day's
/// own.
#[derive(Drop)]
pub struct Days {
    alloc: Global,
    /// The sum through each day.
    days: Blocks,
    /// For each day the sums of its own, through each number.
    numbers: BTreeMap<i64, Points>,
}

impl Model for Days {
    ghost use Rattle.day_sums.specs.Row.{Kept};

    ghost Value = { Kept };

    ghost use Rattle.day_sums.specs.Row.{IsRow};

    ghost view = { λ r. (r.days, r.numbers.entries) };

    ghost invariant = { λ r. IsRow (r.days, r.numbers.entries) };
}

/// The number of a day.
fn number_of(day: Day) -> i64
    ensures value { result ≡ day.0 }
    ensures small { IsUpTo 4294967296 result }
{
    i64::from(day.0)
}

/// A number in the width of days.
fn wide(number: u32) -> i64
    ensures value { result ≡ pos number }
    ensures small { IsUpTo 4294967296 result }
{
    i64::from(number)
}

impl Days {
    pub fn empty(alloc: Global) -> Self
        ensures { result ≡ no_row }
    {
        Days {
            alloc,
            days: Blocks::empty(alloc),
            numbers: BTreeMap::new(alloc),
        }
    }

    /// Those of one quantity.
    pub fn of(alloc: Global, day: Day, number: u32, qty: i64) -> Result<Self, Cause>
        ensures same { IfOk result (λ days. SameRow (one day number qty) days) }
        ensures some { IfOk result (λ days. is_none days.0.0 ≡ false) }
        ensures memory { IsOkUnless result Cause.OutOfMemory }
    {
        let at = number_of(day);
        let days = Blocks::one(alloc, at, qty)?;
        let own = Points::one(alloc, wide(number), qty)?;
        let mut numbers = BTreeMap::new(alloc);
        numbers.insert(at, own)?;
        Ok(Days {
            alloc,
            days,
            numbers,
        })
    }

    /// Whether there is no day.
    pub fn is_empty(&self) -> bool
        ensures { result ≡ is_none self.now.0.0 }
    {
        self.days.is_empty()
    }

    /// The sum over a period.
    pub fn sum(&self, period: Period) -> i64
        ensures { result ≡ row_sum self.now period }
    {
        match period {
            Period::Before(day) => self.days.sum_through(number_of(day) - 1),
            Period::Through(day) => self.days.sum_through(number_of(day)),
            Period::Within(day, number) => sum_in(&self.numbers, number_of(day), wide(number)),
        }
    }

    /// Opens a day's number, which changes no sum.
    pub fn open(&mut self, day: Day, number: u32) -> Result<(), Cause>
        ensures same { SameRow self.old self.new }
        ensures some { is_none self.old.0.0 ≡ false → is_none self.new.0.0 ≡ false }
        ensures open { OnOk result (has_number self.new day number ≡ true) }
        ensures memory { IsOkUnless result Cause.OutOfMemory }
    {
        let at = number_of(day);
        let number = wide(number);
        self.days.open(at)?;
        open_in(self.alloc, &mut self.numbers, at, number)
    }

    /// Adds to the sums of the periods that a day's number is in, which is open.
    pub fn raise(&mut self, day: Day, number: u32, qty: i64)
        requires open { has_number self.old day number ≡ true }
        requires sums { (p : Span) → IsUpTo 10000000000000000 (row_sum self.old p) }
        requires qty { IsUpTo 10000000000000000 qty }
        ensures raised { RaisedRow day number qty self.old self.new }
        ensures some { is_none self.old.0.0 ≡ false → is_none self.new.0.0 ≡ false }
    {
        let at = number_of(day);
        let number = wide(number);
        self.days.raise(at, qty);
        raise_in(&mut self.numbers, at, number, qty);
    }
}
