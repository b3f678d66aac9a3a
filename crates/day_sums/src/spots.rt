//! Spots in the order of their days.

ghost use Rattle.std.specs.Prelude.{◌≡◌, ℕ, ◌≤◌, ◌<◌, ◌≤ℤ◌, ◌<ℤ◌, int_le, [], length, slice_index_or, Contains, OnOk};
ghost use Rattle.std.specs.Result.{IsOkUnless};
ghost use Rattle.std.specs.List.{filter};
ghost use Rattle.day_sums.specs.declared.spots.Spot.{Spot as Part};
ghost use Rattle.day_sums.specs.Spots.{is_behind, AreByDay, blank_spot};

use money_core::{Cause, Day};
use std::alloc::Global;
use std::marker::Model;

/// A part of what has a number, on a day.
#[derive(Clone, Copy, Debug, PartialEq, Eq)]
pub struct Spot {
    pub day: Day,
    pub number: usize,
    pub part: usize,
}

/// Spots in the order of their days.
#[derive(Drop)]
pub struct Spots {
    spots: Vec<Spot>,
}

impl Model for Spots {
    ghost use Rattle.std.specs.Prelude.{List};
    ghost use Rattle.day_sums.specs.declared.spots.Spot.{Spot as Part};

    ghost Value = { List Part };

    ghost use Rattle.day_sums.specs.Spots.{AreByDay};

    ghost view = { λ r. r.spots.items };

    ghost invariant = { λ r. AreByDay r.spots.items };
}

/// Whether a spot is on the day or before it.
fn is_through(spot: Spot, day: Day) -> bool
    ensures { result ≡ int_le spot.day.0 day.0 }
{
    spot.day.0 <= day.0
}

/// How many spots are on the day or before it.
fn count_through(spots: &[Spot], day: Day) -> usize
    requires { AreByDay spots.now }
    ensures bound { result ≤ length spots.now }
    ensures through { (k : ℕ) → k < result → (slice_index_or spots.now k blank_spot).day.0 ≤ℤ day.0 }
    ensures behind { (k : ℕ) → result ≤ k → k < length spots.now
        → day.0 <ℤ (slice_index_or spots.now k blank_spot).day.0 }
{
    let mut low = 0;
    let mut high = spots.len();
    'halves: while low < high {
        let middle = low + (high - low) / 2;
        if is_through(spots[middle], day) {
            low = middle + 1;
        } else {
            high = middle;
        }
    }
    low
}

impl Spots {
    pub fn empty(alloc: Global) -> Self
        ensures { result ≡ [] }
    {
        Spots {
            spots: Vec::new(alloc),
        }
    }

    /// Puts a spot after those of its day.
    pub fn put(&mut self, spot: Spot) -> Result<(), Cause>
        ensures kept { (s : Part) → Contains self.old s → Contains self.new s }
        ensures put { OnOk result (Contains self.new spot) }
        ensures memory { IsOkUnless result Cause.OutOfMemory }
    {
        let at = count_through(&self.spots, spot.day);
        self.spots.insert(at, spot)?;
        Ok(())
    }

    /// The spots after a day.
    pub fn behind(&self, day: Day) -> &[Spot]
        ensures { result.now ≡ filter (is_behind day) self.now }
    {
        let at = count_through(&self.spots, day);
        &self.spots[at..]
    }
}
