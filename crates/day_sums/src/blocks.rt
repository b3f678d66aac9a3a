//! The sums through days, in blocks of days.
//!
//! With one list, a day before n others moves and raises n sums, and entries in no order of days cost n^1.5 and more.
//! In blocks of 2,048 days, a day costs at most 2,048 steps in its block and one for each later block, 18 in a
//! century. A tree of sums would need a proof of its own.

ghost use Rattle.std.specs.Prelude.{◌≡◌, pos, ℤ, [], true, OnOk, IfOk};
ghost use Rattle.std.specs.Result.{IsOkUnless};
ghost use Rattle.day_sums.specs.Points.{IsUpTo, is_none};
ghost use Rattle.day_sums.specs.Blocks.{block_of, day_sum, has_day, one_day, SameDays, RaisedDays};

use crate::parts::{open_in, raise_in, sum_in};
use crate::points::Points;
use money_core::Cause;
use std::alloc::Global;
use std::collections::BTreeMap;
use std::marker::Model;

/// A block has so many days.
const DAYS: i64 = 2_048;

/// The sum through each block of days, and beside it the sums of each block's own.
///
/// So what is added on an earlier day raises the sums of the later blocks, and of the later days of one block alone.
#[derive(Drop)]
pub struct Blocks {
    alloc: Global,
    /// The sum through each block.
    tops: Points,
    /// For each block the sums of its own, through each day.
    parts: BTreeMap<i64, Points>,
}

impl Model for Blocks {
    ghost use Rattle.day_sums.specs.Blocks.{Spread};

    ghost Value = { Spread };

    ghost use Rattle.day_sums.specs.Blocks.{IsSpread};

    ghost view = { λ b. (b.tops, b.parts.entries) };

    ghost invariant = { λ b. IsSpread (b.tops, b.parts.entries) };
}

/// The block of a day.
fn block_at(day: i64) -> i64
    ensures value { result ≡ block_of day }
    ensures wide { IsUpTo 4503599627370496 result }
    ensures small { IsUpTo 4294967296 day → IsUpTo 4294967296 result }
{
    day.div_euclid(DAYS)
}

impl Blocks {
    pub fn empty(alloc: Global) -> Self
        ensures { result ≡ ([], []) }
    {
        Blocks {
            alloc,
            tops: Points::empty(alloc),
            parts: BTreeMap::new(alloc),
        }
    }

    /// Those of one quantity.
    pub fn one(alloc: Global, day: i64, qty: i64) -> Result<Self, Cause>
        ensures value { IfOk result (λ blocks. blocks ≡ one_day day qty) }
        ensures memory { IsOkUnless result Cause.OutOfMemory }
    {
        let block = block_at(day);
        let tops = Points::one(alloc, block, qty)?;
        let own = Points::one(alloc, day, qty)?;
        let mut parts = BTreeMap::new(alloc);
        parts.insert(block, own)?;
        Ok(Blocks { alloc, tops, parts })
    }

    /// Whether there is no day.
    pub fn is_empty(&self) -> bool
        ensures { result ≡ is_none self.now.0 }
    {
        self.tops.is_empty()
    }

    /// The sum through a day. Costs a search for its block, and one in the block.
    pub fn sum_through(&self, day: i64) -> i64
        ensures { result ≡ day_sum self.now day }
    {
        let block = block_at(day);
        let before = self.tops.sum_through(block - 1);
        let own = sum_in(&self.parts, block, day);
        before + own
    }

    /// Opens a day, which changes no sum.
    pub fn open(&mut self, day: i64) -> Result<(), Cause>
        requires { IsUpTo 4294967296 day }
        ensures same { SameDays self.old self.new }
        ensures open { OnOk result (has_day day self.new ≡ true) }
        ensures memory { IsOkUnless result Cause.OutOfMemory }
    {
        let block = block_at(day);
        self.tops.open(block)?;
        open_in(self.alloc, &mut self.parts, block, day)
    }

    /// Adds to each sum from a day on, which is open. Costs a step for each later block, and one for each later day of
    /// the day's own.
    pub fn raise(&mut self, day: i64, qty: i64)
        requires small { IsUpTo 4294967296 day }
        requires open { has_day day self.old ≡ true }
        requires sums { (d : ℤ) → IsUpTo 10000000000000000 (day_sum self.old d) }
        requires qty { IsUpTo 10000000000000000 qty }
        ensures { RaisedDays day qty self.old self.new }
    {
        let block = block_at(day);
        self.tops.raise(block, qty);
        raise_in(&mut self.parts, block, day, qty);
    }
}
