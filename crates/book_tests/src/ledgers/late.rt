//! Late entries: what they reach, and what of it fails.

ghost use Rattle.book_core.specs.GoodBook.{IsGoodBook};

use super::{
    BANK, EUR, Failing, SAVINGS, USD, answer_of, assert_balances, at, checked_by, entry, holding,
    moves, transfer,
};
use book_core::{
    ClaimKind, Count, DayLedger, Entry, Failure, Ledger, PlainLedger, Refusal, Unit, are_fit,
};
use std::alloc::Global;
use std::process::Abort;
use std::slice::from_ref;

/// Asserts that both ledgers answer what fails, and that the one with sums by day examines so many assertions.
fn assert_answers(
    rt: &impl Abort,
    alloc: Global,
    old: &[Entry],
    new: &[Entry],
    want: (Option<Failing>, u64),
) {
    let (failing, examined) = want;
    let (plain, _) = checked_by::<PlainLedger>(rt, alloc, old, new);
    assert_eq!(rt; plain, answer_of(failing), "{new:?}");
    let (by_day, reached) = checked_by::<DayLedger>(rt, alloc, old, new);
    assert_eq!(rt; by_day, answer_of(failing), "{new:?}");
    assert_eq!(rt; reached, examined, "{new:?}");
}

/// Ten euros on the 10th with an assertion of ten, and five on the 20th with one of fifteen.
fn two_assertions(rt: &impl Abort, alloc: Global) -> Vec<Entry> {
    const ROWS: &[(i32, i64, Option<i64>)] = &[(10, 1000, Some(1000)), (20, 500, Some(1500))];
    moves(rt, alloc, "income:dues", ROWS)
}

/// What fails where, of the assertions of the entries and a new one, that is examined alone which a check names; and
/// how many were examined.
fn examined_alone(
    rt: &impl Abort,
    ledger: &DayLedger,
    new: &[Entry],
) -> Option<(Option<Failure>, u64)>
    requires { IsGoodBook ledger.now }
{
    assert!(rt; are_fit(new));
    match ledger.check(new, &mut Count { claims: 0 }) {
        Err(Refusal::ClaimFailed(failure)) => {
            let mut count = Count { claims: 0 };
            let found = ledger.examine(new, from_ref(&failure.place), &mut count);
            Some((found, count.claims))
        }
        _ => None,
    }
}

// A euro of the 15th, entered last, breaks the assertion of the 20th, and one of the 5th that of the 10th.
#[test]
fn a_failing_assertion_is_examined_alone(rt: HostRuntime) {
    let first = Failure {
        place: at(10, 1),
        unit: Unit(EUR),
        asserted: 1000,
        found: 1100,
    };
    let second = Failure {
        place: at(20, 2),
        unit: Unit(EUR),
        asserted: 1500,
        found: 1600,
    };
    assert_alone(&rt, rt.alloc(), 15, second);
    assert_alone(&rt, rt.alloc(), 5, first);
}

/// Asserts what fails after a euro of the day, entered last, and that one assertion was examined.
fn assert_alone(rt: &impl Abort, alloc: Global, day: i32, wanted: Failure) {
    let old = two_assertions(rt, alloc);
    let ledger = holding::<DayLedger>(rt, alloc, &old).expect(rt, "a ledger");
    let late = transfer(rt, alloc, day, (BANK, EUR, 100), "income:dues", None);
    let found = examined_alone(rt, &ledger, from_ref(&late));
    assert_eq!(rt; found, Some((Some(wanted), 1)));
}

fn assert_reached(rt: &impl Abort, alloc: Global, rows: &[(i32, &str, (Option<Failing>, u64))]) {
    for (day, account, want) in rows {
        let old = two_assertions(rt, alloc);
        let late = transfer(rt, alloc, *day, (*account, EUR, 100), "income:dues", None);
        assert_answers(rt, alloc, &old, from_ref(&late), *want);
    }
}

// One euro more on a day; the last two rows are before all other days, and after them.
#[test]
fn a_late_entry_reaches_the_assertions_behind_it(rt: HostRuntime) {
    const ROWS: &[(i32, &str, (Option<Failing>, u64))] = &[
        (15, BANK, (Some((20, 2, EUR, 1500, 1600)), 1)),
        (5, BANK, (Some((10, 1, EUR, 1000, 1100)), 1)),
        (15, "assets:cash", (None, 0)),
        (10, BANK, (Some((20, 2, EUR, 1500, 1600)), 1)),
        (20, BANK, (None, 0)),
        (1, BANK, (Some((10, 1, EUR, 1000, 1100)), 1)),
        (31, BANK, (None, 0)),
    ];
    assert_reached(&rt, rt.alloc(), ROWS);
}

fn assert_in_order(
    rt: &impl Abort,
    alloc: Global,
    rows: &[(&[(i32, i64, Option<i64>)], (Option<Failing>, u64))],
) {
    for (new, want) in rows {
        let old = two_assertions(rt, alloc);
        let entries = moves(rt, alloc, "income:dues", *new);
        assert_answers(rt, alloc, &old, &entries, *want);
    }
}

// An entry of the 20th with its own assertion, a euro of the same day entered before it or after it, and one of the
// 15th that is taken back on the 16th.
#[test]
fn new_entries_count_in_the_order_of_entry(rt: HostRuntime) {
    const ROWS: &[(&[(i32, i64, Option<i64>)], (Option<Failing>, u64))] = &[
        (&[(20, 100, None), (20, 1, Some(1601))], (None, 1)),
        (&[(20, 1, Some(1501)), (20, 100, None)], (None, 1)),
        (
            &[(20, 100, None), (20, 1, Some(1501))],
            (Some((20, 4, EUR, 1501, 1601)), 1),
        ),
        (&[(15, 100, None), (16, -100, None)], (None, 1)),
        (
            &[(9, 100, None), (11, -100, None)],
            (Some((10, 1, EUR, 1000, 1100)), 1),
        ),
        (
            &[(9, 100, None), (10, -100, Some(1000))],
            (Some((10, 1, EUR, 1000, 1100)), 1),
        ),
        (&[(10, 100, None), (10, -100, Some(1000))], (None, 2)),
    ];
    assert_in_order(&rt, rt.alloc(), ROWS);
}

fn assert_kinds(
    rt: &impl Abort,
    alloc: Global,
    rows: &[(ClaimKind, &str, u16, (Option<Failing>, u64))],
) {
    for (kind, account, unit, want) in rows {
        let ten = (BANK, EUR, 1000);
        let first = transfer(rt, alloc, 10, ten, "income", Some((*kind, 1000)));
        let late = transfer(rt, alloc, 9, (*account, *unit, 100), "income", None);
        assert_answers(rt, alloc, from_ref(&first), from_ref(&late), *want);
    }
}

// Ten euros on the 10th with an assertion of ten of a kind, and one of a commodity more on the 9th.
#[test]
fn kinds_are_reached_by_other_commodities_and_subaccounts(rt: HostRuntime) {
    const ROWS: &[(ClaimKind, &str, u16, (Option<Failing>, u64))] = &[
        (ClaimKind::Exact, BANK, USD, (None, 0)),
        (ClaimKind::Exact, SAVINGS, EUR, (None, 0)),
        (ClaimKind::Sole, BANK, USD, (Some((10, 1, USD, 0, 100)), 1)),
        (
            ClaimKind::Sole,
            BANK,
            EUR,
            (Some((10, 1, EUR, 1000, 1100)), 1),
        ),
        (ClaimKind::Sole, SAVINGS, USD, (None, 0)),
        (
            ClaimKind::ExactIn,
            SAVINGS,
            EUR,
            (Some((10, 1, EUR, 1000, 1100)), 1),
        ),
        (ClaimKind::ExactIn, SAVINGS, USD, (None, 0)),
        (ClaimKind::ExactIn, "assets:bank2", EUR, (None, 0)),
        (ClaimKind::ExactIn, "assets", EUR, (None, 0)),
        (
            ClaimKind::SoleIn,
            SAVINGS,
            USD,
            (Some((10, 1, USD, 0, 100)), 1),
        ),
        (ClaimKind::SoleIn, "assets:bank2", USD, (None, 0)),
    ];
    assert_kinds(&rt, rt.alloc(), ROWS);
}

fn assert_on_one_day(
    rt: &impl Abort,
    alloc: Global,
    rows: &[(ClaimKind, i64, (Option<Failing>, u64))],
) {
    for (kind, asserted, want) in rows {
        let mut old = Vec::new(alloc);
        for (account, qty) in [(BANK, 1000), (SAVINGS, 100)] {
            let one = transfer(rt, alloc, 10, (account, EUR, qty), "income", None);
            old.push(one).expect(rt, "memory");
        }
        let claim = Some((*kind, *asserted));
        let new = transfer(rt, alloc, 10, (BANK, EUR, 1), "income", claim);
        assert_answers(rt, alloc, &old, from_ref(&new), *want);
    }
}

// Ten euros and one more on a subaccount on the 10th; then a cent with an assertion of the same day.
#[test]
fn an_assertion_looks_at_what_was_entered_before_it_on_its_day(rt: HostRuntime) {
    const ROWS: &[(ClaimKind, i64, (Option<Failing>, u64))] = &[
        (ClaimKind::Exact, 1001, (None, 1)),
        (ClaimKind::Exact, 1101, (Some((10, 3, EUR, 1101, 1001)), 1)),
        (ClaimKind::Sole, 1001, (None, 1)),
        (ClaimKind::ExactIn, 1101, (None, 1)),
        (
            ClaimKind::ExactIn,
            1001,
            (Some((10, 3, EUR, 1001, 1101)), 1),
        ),
        (ClaimKind::SoleIn, 1101, (None, 1)),
    ];
    assert_on_one_day(&rt, rt.alloc(), ROWS);
}

/// The balances of a ledger after two assertions and a late entry, and those of accounts above others.
const BALANCES: &[(&str, u16, i32, i64, i64)] = &[
    ("income:dues", EUR, 9, 0, 0),
    ("income:dues", EUR, 14, -1000, -1000),
    ("income:dues", EUR, 15, -1100, -1100),
    ("income:dues", EUR, 20, -1600, -1600),
    ("income", EUR, 31, 0, -1600),
    ("assets", EUR, 14, 0, 1000),
    ("assets", EUR, 15, 7, 1100),
    ("assets:cash", EUR, 15, 93, 93),
    ("assets:bank", EUR, 15, 1000, 1000),
    ("assets:bank", EUR, 31, 1500, 1500),
    ("assets:b", EUR, 31, 0, 0),
    ("assets:", EUR, 31, 0, 0),
    ("", EUR, 31, 0, 0),
];

fn assert_held<L: Ledger>(rt: &impl Abort, alloc: Global, entries: &[Entry]) {
    let ledger = holding::<L>(rt, alloc, entries).expect(rt, "a ledger");
    assert_balances(rt, &ledger, BALANCES);
}

/// Two assertions, and a late entry after them.
fn with_late_entry(rt: &impl Abort, alloc: Global) -> Vec<Entry> {
    const LEGS: &[(&str, u16, i64)] = &[
        ("assets:cash", EUR, 93),
        ("income:dues", EUR, -100),
        ("assets", EUR, 7),
    ];
    let mut entries = two_assertions(rt, alloc);
    let late = entry(rt, alloc, 15, LEGS, None);
    entries.push(late).expect(rt, "memory");
    entries
}

// The account `assets` has a leg of its own, and is above the others.
#[test]
fn a_late_entry_changes_the_balances_from_its_day_on(rt: HostRuntime) {
    let alloc = rt.alloc();
    let entries = with_late_entry(&rt, alloc);
    assert_held::<PlainLedger>(&rt, alloc, &entries);
    assert_held::<DayLedger>(&rt, alloc, &entries);
}
