//! The running sums of one account in one commodity.
//!
//! The first quantity is in the row itself: accounts of many parts make a row for each account above them, half a
//! million in a journal of 1 MiB, and nearly all have one quantity. Besides the sums through its days, a row has the
//! sums of each day's own quantities in the order of their entries, because on an assertion's own day only what comes
//! before it counts.

ghost use Rattle.std.specs.Prelude.{◌≡◌, [], true, OnOk};
ghost use Rattle.std.specs.Result.{IsOkUnless};
ghost use Rattle.day_sums.specs.declared.period.Period.{Period as Span};
ghost use Rattle.day_sums.specs.Points.{IsUpTo};
ghost use Rattle.day_sums.specs.Row.{no_row, row_sum, has_number, SameRow, RaisedRow};

use crate::days::Days;
use crate::period::{Period, is_in};
use money_core::{Cause, Day};
use std::alloc::Global;
use std::marker::Model;

/// A row's first quantity stands in the row itself, and takes no room of its own, until there is another day or number.
#[derive(Drop)]
pub struct Row {
    alloc: Global,
    day: Day,
    number: u32,
    qty: i64,
    /// All sums, once there is another day or number; none till then.
    days: Days,
}

impl Model for Row {
    ghost use Rattle.day_sums.specs.Row.{Kept};

    ghost Value = { Kept };

    ghost use Rattle.day_sums.specs.Row.{whole};

    ghost view = { λ r. whole r.day r.number r.qty r.days };
}

impl Row {
    /// A row in which a day's number is open.
    pub fn of(alloc: Global, day: Day, number: u32) -> Self
        ensures same { SameRow no_row result }
        ensures open { has_number result day number ≡ true }
    {
        Row {
            alloc,
            day,
            number,
            qty: 0,
            days: Days::empty(alloc),
        }
    }

    /// The sum over a period.
    pub fn sum(&self, period: Period) -> i64
        ensures { result ≡ row_sum self.now period }
    {
        if !self.days.is_empty() {
            return self.days.sum(period);
        }
        if is_in(period, self.day, self.number) {
            self.qty
        } else {
            0
        }
    }

    /// Opens a day's number, which changes no sum.
    pub fn open(&mut self, day: Day, number: u32) -> Result<(), Cause>
        ensures same { SameRow self.old self.new }
        ensures open { OnOk result (has_number self.new day number ≡ true) }
        ensures memory { IsOkUnless result Cause.OutOfMemory }
    {
        if !self.days.is_empty() {
            return self.days.open(day, number);
        }
        if self.day == day && self.number == number {
            return Ok(());
        }
        let mut days = Days::of(self.alloc, self.day, self.number, self.qty)?;
        days.open(day, number)?;
        self.days = days;
        Ok(())
    }

    /// Adds to the sums of the periods that a day's number is in, which is open.
    pub fn raise(&mut self, day: Day, number: u32, qty: i64)
        requires open { has_number self.old day number ≡ true }
        requires sums { (p : Span) → IsUpTo 10000000000000000 (row_sum self.old p) }
        requires qty { IsUpTo 10000000000000000 qty }
        ensures { RaisedRow day number qty self.old self.new }
    {
        if self.days.is_empty() {
            self.qty += qty;
        } else {
            self.days.raise(day, number, qty);
        }
    }
}
