//! Which quantities a sum takes in.

ghost use Rattle.std.specs.Prelude.{◌≡◌};
ghost use Rattle.day_sums.specs.Period.{is_in};

use money_core::Day;

/// A part of an account's history. On one day what is added is in the order of numbers.
#[derive(Clone, Copy, Debug, PartialEq, Eq)]
pub enum Period {
    /// What is before the day.
    Before(Day),
    /// What is on the day or before it.
    Through(Day),
    /// What is on the day alone, with this number or an earlier one.
    Within(Day, u32),
}

/// Whether what was added on a day with a number is in the period.
pub fn is_in(period: Period, day: Day, number: u32) -> bool
    ensures { result ≡ is_in period day number }
{
    match period {
        Period::Before(end) => day.0 < end.0,
        Period::Through(end) => day.0 <= end.0,
        Period::Within(on, last) => day == on && number <= last,
    }
}
