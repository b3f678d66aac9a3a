//! A row of numbers that rise, each with the sum through it.

ghost use Rattle.std.specs.Prelude.{◌≡◌, ◌≤◌, [], ◌∷◌, length, pos, ℤ, true, IfOk, OnOk, OnErr};
ghost use Rattle.std.specs.List.{prefix_len, AllByRecursion};
ghost use Rattle.std.specs.Result.{IsOkUnless};
ghost use Rattle.day_sums.specs.declared.points.Point.{Point as Spot};
ghost use Rattle.day_sums.specs.Points.{is_none, point_sum, has_point, Ascends, IsUpTo, SamePoints, RaisedPoints};
ghost use Rattle.day_sums.specs.Points.{is_point_before};
ghost use Rattle.day_sums.specs.Points.{is_through, base_at, is_there, raised_from};

use money_core::Cause;
use std::alloc::Global;
use std::marker::Model;

/// A number, and the sum through it.
#[derive(Clone, Copy, Debug)]
pub struct Point {
    pub at: i64,
    pub sum: i64,
}

/// Points in the order of their numbers.
#[derive(Drop)]
pub struct Points {
    points: Vec<Point>,
}

impl Model for Points {
    ghost use Rattle.std.specs.Prelude.{List};
    ghost use Rattle.day_sums.specs.declared.points.Point.{Point as Spot};

    ghost Value = { List Spot };

    ghost use Rattle.day_sums.specs.Points.{Ascends};

    ghost view = { λ r. r.points.items };

    ghost invariant = { λ r. Ascends r.points.items };
}

/// How many points are at or before a number.
fn count_through(points: &[Point], at: i64) -> usize
    requires { Ascends points.now }
    ensures bound { result ≤ length points.now }
    ensures value { result ≡ prefix_len (is_through at) points.now }
{
    let mut low = 0;
    let mut high = points.len();
    'halves: while low < high {
        let middle = low + (high - low) / 2;
        if points[middle].at <= at {
            low = middle + 1;
        } else {
            high = middle;
        }
    }
    low
}

/// How many points are before a number.
fn count_before(points: &[Point], at: i64) -> usize
    requires rise { Ascends points.now }
    requires small { IsUpTo 4294967296 at }
    ensures bound { result ≤ length points.now }
    ensures value { result ≡ prefix_len (is_point_before at) points.now }
{
    count_through(points, at - 1)
}

/// The sum before a place.
fn sum_before(points: &[Point], place: usize) -> i64
    requires { place ≤ length points.now }
    ensures { result ≡ base_at (pos 0) points.now place }
{
    if place == 0 { 0 } else { points[place - 1].sum }
}

/// Whether a number has its point at a place.
fn is_there(points: &[Point], place: usize, at: i64) -> bool
    ensures { result ≡ is_there at points.now place }
{
    if place >= points.len() {
        return false;
    }
    points[place].at == at
}

/// Adds to each sum from a place on.
fn raise_from(points: &mut [Point], start: usize, qty: i64)
    requires start { start ≤ length points.old }
    requires sums { AllByRecursion (λ (p : Spot). IsUpTo 40000000000000000 p.sum) points.old }
    requires qty { IsUpTo 10000000000000000 qty }
    ensures { points.new ≡ raised_from start qty points.old }
{
    for i in start..points.len() {
        let point = &mut points[i];
        point.sum += qty;
    }
}

impl Points {
    pub fn empty(alloc: Global) -> Self
        ensures { result ≡ [] }
    {
        Points {
            points: Vec::new(alloc),
        }
    }

    /// One point. Takes no more room than it needs.
    pub fn one(alloc: Global, at: i64, sum: i64) -> Result<Self, Cause>
        ensures value { IfOk result (λ points. points ≡ record { at = at; sum = sum } ∷ []) }
        ensures memory { IsOkUnless result Cause.OutOfMemory }
    {
        let mut points = Vec::with_capacity(alloc, 1)?;
        points.push(Point { at, sum })?;
        Ok(Points { points })
    }

    /// Whether there is no point.
    pub fn is_empty(&self) -> bool
        ensures { result ≡ is_none self.now }
    {
        self.points.is_empty()
    }

    /// The sum through a number.
    pub fn sum_through(&self, at: i64) -> i64
        ensures { result ≡ point_sum (pos 0) self.now at }
    {
        let count = count_through(&self.points, at);
        sum_before(&self.points, count)
    }

    /// Makes a point of the number, with the sum before it, which changes no sum.
    pub fn open(&mut self, at: i64) -> Result<(), Cause>
        requires { IsUpTo 4294967296 at }
        ensures same { SamePoints self.old self.new }
        ensures open { OnOk result (has_point at self.new ≡ true) }
        ensures memory { IsOkUnless result Cause.OutOfMemory }
    {
        let place = count_before(&self.points, at);
        if is_there(&self.points, place, at) {
            return Ok(());
        }
        let sum = sum_before(&self.points, place);
        self.points.insert(place, Point { at, sum })?;
        Ok(())
    }

    /// Adds to each sum from a number on, which has its point.
    pub fn raise(&mut self, at: i64, qty: i64)
        requires small { IsUpTo 4294967296 at }
        requires open { has_point at self.old ≡ true }
        requires sums { (d : ℤ) → IsUpTo 40000000000000000 (point_sum (pos 0) self.old d) }
        requires qty { IsUpTo 10000000000000000 qty }
        ensures { RaisedPoints at qty self.old self.new }
    {
        let start = count_before(&self.points, at);
        raise_from(&mut self.points, start, qty);
    }
}
