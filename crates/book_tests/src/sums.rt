//! The calls with ample memory, over tables worked out by hand.

ghost use Rattle.std.specs.Prelude.{ℕ, List, IfOk};
ghost use Rattle.money_core.specs.declared.unit.Unit.{Unit as Commodity};
ghost use Rattle.day_sums.specs.declared.period.Period.{Period as Span};
ghost use Rattle.day_sums.specs.Points.{IsUpTo};
ghost use Rattle.day_sums.specs.Sums.{period_sum};

use day_sums::{Cause, Day, DaySums, NamedSpots, Period, Spot, Unit};
use std::alloc::Global;
use std::process::Abort;

const EUR: Unit = Unit(0);

const USD: Unit = Unit(1);

/// What an account has more in a commodity, on a day with a number.
type Move = (&'static str, Unit, i32, u32, i16);

/// Adds a quantity, where no sum is over `limit` yet, and answers what no sum is over then. It is `Full` well below the
/// sums that `raise_row` takes.
fn moved(sums: &mut DaySums, limit: u64, more: &Move) -> Result<u64, Cause>
    requires { (a : List ℕ) (u : Commodity) (p : Span) → IsUpTo limit (period_sum sums.old a u p) }
    ensures { IfOk result (λ (most : ℕ). (a : List ℕ) (u : Commodity) (p : Span)
        → IsUpTo most (period_sum sums.new a u p)) }
{
    if limit > 1_000_000_000_000_000 {
        return Err(Cause::Full);
    }
    let (account, unit, day, number, qty) = *more;
    let account = account.as_bytes();
    sums.open_row(account, unit, Day(day), number)?;
    sums.raise_row(account, unit, Day(day), number, i64::from(qty));
    Ok(limit + 32_768)
}

/// The sums of moves.
fn sums_of(alloc: Global, moves: &[Move]) -> Result<DaySums, Cause> {
    let mut sums = DaySums::empty(alloc);
    let mut limit = 0;
    for more in moves {
        limit = moved(&mut sums, limit, more)?;
    }
    Ok(sums)
}

/// Asserts of each row the sums of an account in a commodity: through the day, and before it.
fn assert_sums(rt: &impl Abort, sums: &DaySums, rows: &[(&str, Unit, i32, i64, i64)]) {
    for (account, unit, day, through, before) in rows {
        let account = account.as_bytes();
        let found = sums.sum(account, *unit, Period::Through(Day(*day)));
        assert_eq!(rt; found, *through, "{day}");
        let found = sums.sum(account, *unit, Period::Before(Day(*day)));
        assert_eq!(rt; found, *before, "{day}");
    }
}

/// Asserts of each row the sum of an account in euros on the day alone, through the number.
fn assert_within(rt: &impl Abort, sums: &DaySums, rows: &[(&str, i32, u32, i64)]) {
    for (account, day, number, within) in rows {
        let found = sums.sum(account.as_bytes(), EUR, Period::Within(Day(*day), *number));
        assert_eq!(rt; found, *within, "{day} {number}");
    }
}

// Most moves are late.
const MOVES: &[Move] = &[
    ("assets:bank", EUR, 10, 1, 1_000),
    ("assets:bank", EUR, 12, 2, 500),
    ("assets:bank", EUR, 5, 3, -300),
    ("assets:bank", EUR, 10, 4, 20),
    ("assets:bank2", EUR, 10, 4, 7),
    ("assets:bank", USD, 11, 5, 4),
    ("assets:bank", EUR, -3_000, 6, 1),
    ("assets:bank", EUR, 10, 9, -1),
    ("assets:bank", EUR, 10, 9, -2),
];

#[test]
fn a_late_quantity_counts_from_its_day_on(rt: HostRuntime) {
    const ROWS: &[(&str, Unit, i32, i64, i64)] = &[
        ("assets:bank", EUR, i32::MIN, 0, 0),
        ("assets:bank", EUR, -3_001, 0, 0),
        ("assets:bank", EUR, -3_000, 1, 0),
        ("assets:bank", EUR, 0, 1, 1),
        ("assets:bank", EUR, 5, -299, 1),
        ("assets:bank", EUR, 9, -299, -299),
        ("assets:bank", EUR, 10, 718, -299),
        ("assets:bank", EUR, 11, 718, 718),
        ("assets:bank", EUR, 12, 1_218, 718),
        ("assets:bank", EUR, i32::MAX, 1_218, 1_218),
        ("assets:bank", USD, 10, 0, 0),
        ("assets:bank", USD, 11, 4, 0),
        ("assets:bank2", EUR, 10, 7, 0),
        ("assets:bank2", EUR, 4_000, 7, 7),
        ("assets", EUR, 4_000, 0, 0),
        ("", USD, 4_000, 0, 0),
    ];
    let sums = sums_of(rt.alloc(), MOVES).expect(&rt, "memory");
    assert_sums(&rt, &sums, ROWS);
}

#[test]
fn a_quantity_counts_on_its_day_from_its_number_on(rt: HostRuntime) {
    const ROWS: &[(&str, i32, u32, i64)] = &[
        ("assets:bank", 10, 0, 0),
        ("assets:bank", 10, 1, 1_000),
        ("assets:bank", 10, 3, 1_000),
        ("assets:bank", 10, 4, 1_020),
        ("assets:bank", 10, 8, 1_020),
        ("assets:bank", 10, 9, 1_017),
        ("assets:bank", 10, u32::MAX, 1_017),
        ("assets:bank", 5, 2, 0),
        ("assets:bank", 5, 3, -300),
        ("assets:bank", 11, 9, 0),
        ("assets:bank", 12, 1, 0),
        ("assets:bank", 12, 2, 500),
        ("assets:bank2", 10, 4, 7),
        ("assets", 10, 9, 0),
    ];
    let sums = sums_of(rt.alloc(), MOVES).expect(&rt, "memory");
    assert_within(&rt, &sums, ROWS);
}

/// Asserts of each row the sum of `a` in euros through the day.
fn assert_through(rt: &impl Abort, sums: &DaySums, rows: &[(i32, i64)]) {
    for (day, through) in rows {
        let found = sums.sum(b"a", EUR, Period::Through(Day(*day)));
        assert_eq!(rt; found, *through, "{day}");
    }
}

// One more on each of 6,000 days, from the last to the first.
#[test]
fn days_may_fall(rt: HostRuntime) {
    const ROWS: &[(i32, i64)] = &[
        (-3_000, 0),
        (-2_999, 1),
        (-2_049, 951),
        (-2_048, 952),
        (-1, 2_999),
        (0, 3_000),
        (2_047, 5_047),
        (2_048, 5_048),
        (3_000, 6_000),
        (9_000, 6_000),
    ];
    let mut moves = Vec::new(rt.alloc());
    for day in (-2_999..=3_000).rev() {
        moves.push(("a", EUR, day, 1, 1)).expect(&rt, "memory");
    }
    let sums = sums_of(rt.alloc(), &moves).expect(&rt, "memory");
    assert_through(&rt, &sums, ROWS);
}

#[test]
fn what_is_opened_changes_no_sum(rt: HostRuntime) {
    let mut sums = sums_of(rt.alloc(), &[("a", EUR, 10, 3, 5)]).expect(&rt, "memory");
    for (day, number) in [(-5_000, 1), (9, 4), (10, 2), (10, 3), (10, 9), (5_000, 7)] {
        sums.open_row(b"a", EUR, Day(day), number)
            .expect(&rt, "memory");
        sums.open_row(b"b", USD, Day(day), number)
            .expect(&rt, "memory");
    }
    assert_through(
        &rt,
        &sums,
        &[(-5_000, 0), (9, 0), (10, 5), (11, 5), (5_000, 5)],
    );
    assert_within(
        &rt,
        &sums,
        &[("a", 10, 2, 0), ("a", 10, 3, 5), ("a", 10, 9, 5)],
    );
    assert_sums(&rt, &sums, &[("b", USD, 10, 0, 0)]);
}

/// Asserts of each row the numbers of the account's spots after the day.
fn assert_behind(rt: &impl Abort, spots: &NamedSpots, rows: &[(&str, i32, &[usize])]) {
    for (account, day, numbers) in rows {
        let row = spots
            .row_of(account.as_bytes())
            .expect(rt, "an account that has a row");
        let behind = spots.spots_behind(row, Day(*day));
        assert_eq!(rt; behind.len(), numbers.len(), "{account} {day}");
        for (spot, number) in behind.iter().zip(numbers.iter()) {
            assert_eq!(rt; spot.number, *number, "{account} {day}");
            assert_eq!(rt; spot.part, 7);
        }
    }
}

// The last of them is put where another is.
#[test]
fn spots_stand_under_their_account_in_the_order_of_days(rt: HostRuntime) {
    const ROWS: &[(&str, i32, &[usize])] = &[
        ("a", i32::MIN, &[4, 1, 5, 3]),
        ("a", -4, &[1, 5, 3]),
        ("a", 9, &[1, 5, 3]),
        ("a", 10, &[3]),
        ("a", 12, &[]),
        ("b", 0, &[2]),
    ];
    let mut spots = NamedSpots::empty(rt.alloc());
    for (account, day, number) in [
        ("a", 10, 1),
        ("b", 12, 2),
        ("a", 12, 3),
        ("a", -4, 4),
        ("a", 10, 5),
    ] {
        let spot = Spot {
            day: Day(day),
            number,
            part: 7,
        };
        spots
            .put_spot(account.as_bytes(), spot)
            .expect(&rt, "memory");
    }
    assert_behind(&rt, &spots, ROWS);
    assert_eq!(rt; spots.row_of(b"c"), None);
}
