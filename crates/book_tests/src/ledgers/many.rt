//! Many assertions in one list of new entries.

use super::drawn::{ACCOUNTS, KINDS, draw};
use super::{
    BANK, EUR, SAVINGS, USD, asserting, at_leg, checked_by, entry, fails, moves, transfer,
};
use book_core::{ClaimKind, DayLedger, Entry, PlainLedger, is_inside};
use std::alloc::Global;
use std::process::Abort;

/// An assertion of the 10th that fails: the entry, the leg, the commodity, what is asserted, what is found.
type Failing = (usize, usize, u16, i64, i64);

/// New entries before a statement (day, account, commodity, quantity); the kind of the statement's assertions, the
/// first amount and the step; the entry that asserts a cent more; what fails.
type Row = (
    &'static [(i32, &'static str, u16, i64)],
    (ClaimKind, i64, i64),
    usize,
    Option<Failing>,
);

/// Puts 80 entries of the 10th last. Each has 1 and 2 cents for the bank and 4 for its savings, and an assertion on the
/// second leg: of so much in the first, of a step more in each further one, and of a cent more in the entry `wrong`.
fn push_statement(
    rt: &impl Abort,
    alloc: Global,
    entries: &mut Vec<Entry>,
    (kind, start, step): (ClaimKind, i64, i64),
    wrong: usize,
) {
    const LEGS: &[(&str, u16, i64)] = &[(BANK, EUR, 1), (BANK, EUR, 2), (SAVINGS, EUR, 4)];
    let mut qty = start;
    for number in 1..81 {
        let more = if number == wrong { 1 } else { 0 };
        let one = asserting(rt, alloc, LEGS, 2, kind, qty.wrapping_add(more));
        entries.push(one).expect(rt, "memory");
        qty = qty.wrapping_add(step);
    }
}

/// Asserts what both ledgers answer about a statement after other new entries, where the book has a euro of the 10th
/// with an assertion of it, and seven cents of the 20th.
fn assert_statement(rt: &impl Abort, alloc: Global, (first, assertions, wrong, failing): Row) {
    const OLD: &[(i32, i64, Option<i64>)] = &[(10, 100, Some(100)), (20, 7, None)];
    let old = moves(rt, alloc, "income", OLD);
    let mut new = Vec::new(alloc);
    for (day, account, unit, qty) in first {
        let one = transfer(rt, alloc, *day, (*account, *unit, *qty), "income", None);
        new.push(one).expect(rt, "memory");
    }
    push_statement(rt, alloc, &mut new, assertions, wrong);
    let want = match failing {
        Some((entry, leg, unit, asserted, found)) => {
            fails(at_leg(10, entry, leg), unit, asserted, found)
        }
        None => Ok(()),
    };
    assert_eq!(rt; checked_by::<PlainLedger>(rt, alloc, &old, &new).0, want);
    assert_eq!(rt; checked_by::<DayLedger>(rt, alloc, &old, &new).0, want);
}

fn assert_statements(rt: &impl Abort, alloc: Global, rows: &[Row]) {
    for row in rows {
        assert_statement(rt, alloc, *row);
    }
}

// The bank has 103 cents at the assertion of the first entry, and the 40th is the book's 42nd. After new entries of
// the 9th the book's own assertion is judged too, before those of the statement.
#[test]
fn a_statement_of_one_day_asserts_its_running_balance(rt: HostRuntime) {
    const ROWS: &[Row] = &[
        (&[], (ClaimKind::Exact, 103, 3), 0, None),
        (&[], (ClaimKind::Sole, 103, 3), 0, None),
        (&[], (ClaimKind::ExactIn, 103, 7), 0, None),
        (&[], (ClaimKind::SoleIn, 103, 7), 0, None),
        (
            &[],
            (ClaimKind::Exact, 103, 3),
            40,
            Some((42, 2, EUR, 221, 220)),
        ),
        (
            &[],
            (ClaimKind::ExactIn, 103, 7),
            40,
            Some((42, 2, EUR, 377, 376)),
        ),
        (
            &[],
            (ClaimKind::Sole, 103, 3),
            80,
            Some((82, 2, EUR, 341, 340)),
        ),
        (
            &[(9, BANK, EUR, 5), (9, BANK, EUR, -5)],
            (ClaimKind::Exact, 103, 3),
            0,
            None,
        ),
        (
            &[(9, BANK, EUR, 5)],
            (ClaimKind::Exact, 103, 3),
            0,
            Some((1, 1, EUR, 100, 105)),
        ),
        (
            &[(10, BANK, USD, 5)],
            (ClaimKind::Sole, 103, 3),
            0,
            Some((4, 2, USD, 0, 5)),
        ),
        (
            &[(10, SAVINGS, USD, 5)],
            (ClaimKind::SoleIn, 103, 7),
            0,
            Some((4, 2, USD, 0, 5)),
        ),
        (&[(10, SAVINGS, USD, 5)], (ClaimKind::Sole, 103, 3), 0, None),
    ];
    assert_statements(&rt, rt.alloc(), ROWS);
}

/// What the accounts have together at which an assertion on one of them looks.
fn sum_over(sums: &[i64; 6], account: &str, kind: ClaimKind) -> i64 {
    let with_inside = kind == ClaimKind::ExactIn || kind == ClaimKind::SoleIn;
    let mut sum: i64 = 0;
    for (name, one) in ACCOUNTS.iter().zip(sums) {
        if *name == account || with_inside && is_inside(name, account) {
            sum = sum.wrapping_add(*one);
        }
    }
    sum
}

/// An entry of some cents from one account to another, once in fifty of dollars too, with an assertion on its first
/// leg: of what is there by the sums, once in a hundred of a cent more.
fn draw_asserting(
    rt: &impl Abort,
    alloc: Global,
    state: &mut u64,
    sums: &mut [i64; 6],
    day: i32,
) -> Entry {
    let to = draw(state, 6) as usize;
    let from = draw(state, 6) as usize;
    let qty = draw(state, 5) as i64 - 2;
    let legs = [
        (ACCOUNTS[to], EUR, qty),
        (ACCOUNTS[from], EUR, -qty),
        (ACCOUNTS[to], USD, 5),
        (ACCOUNTS[from], USD, -5),
    ];
    let many = if draw(state, 50) == 0 { 4 } else { 2 };
    sums[to] = sums[to].wrapping_add(qty);
    let kind = KINDS[draw(state, 4) as usize];
    let there = sum_over(sums, ACCOUNTS[to], kind);
    let more = if draw(state, 100) == 0 { 1 } else { 0 };
    sums[from] = sums[from].wrapping_sub(qty);
    entry(
        rt,
        alloc,
        day,
        &legs[..many],
        Some((kind, there.wrapping_add(more))),
    )
}

/// So many entries of a day.
fn draw_day_of(
    rt: &impl Abort,
    alloc: Global,
    state: &mut u64,
    sums: &mut [i64; 6],
    (day, many): (i32, usize),
    entries: &mut Vec<Entry>,
) {
    for _ in 0..many {
        let one = draw_asserting(rt, alloc, state, sums, day);
        entries.push(one).expect(rt, "memory");
    }
}

/// Both ledgers answer the same about 60 entries of a day and 30 of the next, after a book of some entries of the
/// first.
fn agree_on_days(rt: &impl Abort, alloc: Global, state: &mut u64) {
    let mut sums = [0; 6];
    let mut old = Vec::new(alloc);
    draw_day_of(rt, alloc, state, &mut sums, (1, 5), &mut old);
    let mut new = Vec::new(alloc);
    draw_day_of(rt, alloc, state, &mut sums, (1, 60), &mut new);
    draw_day_of(rt, alloc, state, &mut sums, (2, 30), &mut new);
    let by_day = checked_by::<DayLedger>(rt, alloc, &old, &new).0;
    assert_eq!(rt; by_day, checked_by::<PlainLedger>(rt, alloc, &old, &new).0);
}

#[test]
fn both_ledgers_judge_many_assertions_alike(rt: HostRuntime) {
    let alloc = rt.alloc();
    let mut state = 20_241_126;
    for _ in 0..20 {
        agree_on_days(&rt, alloc, &mut state);
    }
}
