//! Both ledgers over the same entries, drawn from a fixed seed in any date order.

ghost use Rattle.std.specs.Prelude.{◌<◌};
ghost use Rattle.book_core.specs.GoodBook.{IsGoodBook};

use super::{enter, leg};
use book_core::{
    Claim, ClaimKind, Copied, Count, Day, DayLedger, Entry, Items, Ledger, Leg, Placed,
    PlainLedger, Text, Unit,
};
use std::alloc::Global;
use std::process::Abort;

pub const ACCOUNTS: [&str; 6] = ["a", "a:b", "a:b:c", "a:b2", "b", "b:a"];

pub const KINDS: [ClaimKind; 4] = [
    ClaimKind::Exact,
    ClaimKind::Sole,
    ClaimKind::ExactIn,
    ClaimKind::SoleIn,
];

/// A number below the bound, by a linear congruence.
pub fn draw(state: &mut u64, bound: u64) -> u64
    requires { 0 < bound }
    ensures { result < bound }
{
    *state = state
        .wrapping_mul(6_364_136_223_846_793_005)
        .wrapping_add(1_442_695_040_888_963_407);
    (*state >> 33) % bound
}

fn draw_account(state: &mut u64) -> &'static str {
    ACCOUNTS[draw(state, 6) as usize]
}

/// A day below the bound.
fn draw_day(state: &mut u64, days: u64) -> Day
    requires { (0 < days) × (days < 10) }
{
    Day(draw(state, days) as i32)
}

/// A quantity of -2 to 2 from one account to another.
fn draw_legs(rt: &impl Abort, alloc: Global, state: &mut u64, legs: &mut Items<Leg>) {
    let unit = draw(state, 3) as u16;
    let qty = draw(state, 5) as i64 - 2;
    let one = leg(rt, alloc, draw_account(state), unit, qty);
    legs.push(one).expect(rt, "memory");
    let other = leg(rt, alloc, draw_account(state), unit, -qty);
    legs.push(other).expect(rt, "memory");
}

/// An assertion of what the ledger has on the leg, or of one more.
fn draw_claim(state: &mut u64, ledger: &PlainLedger, first: &Leg, day: Day) -> Claim {
    let known = ledger.balance(first.account.as_str(), first.unit, day);
    let more = draw(state, 3) as i64;
    Claim {
        kind: KINDS[draw(state, 4) as usize],
        unit: first.unit,
        qty: known.wrapping_add(first.qty).wrapping_add(more / 2),
    }
}

/// An entry of one to three quantities from one account to another; every other one asserts what the ledger has on
/// its first leg, or what is drawn.
fn draw_entry(
    rt: &impl Abort,
    alloc: Global,
    state: &mut u64,
    days: u64,
    ledger: &PlainLedger,
) -> Entry
    requires { (0 < days) × (days < 10) }
{
    let day = draw_day(state, days);
    let mut legs = Items::empty(alloc);
    for _ in 0..draw(state, 3) + 1 {
        draw_legs(rt, alloc, state, &mut legs);
    }
    let mut claims = Items::empty(alloc);
    if let Some(first) = legs.items().first() {
        let claim = draw_claim(state, ledger, first, day);
        if draw(state, 2) == 0 {
            claims.push(Placed { leg: 1, claim }).expect(rt, "memory");
        }
    }
    Entry { day, legs, claims }
}

/// Two ledgers have the same accounts.
fn agree_on_accounts(rt: &impl Abort, one: &[Text], other: &[Text]) {
    assert_eq!(rt; one.len(), other.len());
    for (name, same) in one.iter().zip(other) {
        assert_eq!(rt; name.as_str(), same.as_str());
    }
}

/// Two ledgers give the same answers about an account.
fn agree<L: Ledger, M: Ledger>(
    rt: &impl Abort,
    one: &L,
    other: &M,
    account: &str,
    unit: Unit,
    day: Day,
) {
    assert_eq!(rt; one.len(), other.len());
    let known = one.balance(account, unit, day);
    assert_eq!(rt; known, other.balance(account, unit, day));
    let known = one.balance_in(account, unit, day);
    assert_eq!(rt; known, other.balance_in(account, unit, day));
    agree_on_accounts(rt, one.accounts(), other.accounts());
}

/// Two ledgers give the same answers about an account that is drawn.
fn agree_on_drawn<L: Ledger, M: Ledger>(rt: &impl Abort, state: &mut u64, one: &L, other: &M) {
    let account = draw_account(state);
    let unit = Unit(draw(state, 3) as u16);
    let day = draw_day(state, 9);
    agree(rt, one, other, account, unit, day);
}

/// One entry more, where both ledgers take it; they say the same of it.
fn step(
    rt: &impl Abort,
    alloc: Global,
    state: &mut u64,
    days: u64,
    plain: &mut PlainLedger,
    by_day: &mut DayLedger,
)
    requires days { (0 < days) × (days < 10) }
    requires plain { IsGoodBook plain.old }
    requires by_day { IsGoodBook by_day.old }
    ensures plain { IsGoodBook plain.new }
    ensures by_day { IsGoodBook by_day.new }
{
    let one = draw_entry(rt, alloc, state, days, plain);
    let copy = one.copy().expect(rt, "memory");
    let mut examined = Count { claims: 0 };
    let mut reached = Count { claims: 0 };
    let answer = enter(rt, plain, one, &mut examined);
    assert_eq!(rt; enter(rt, by_day, copy, &mut reached), answer);
    assert!(rt; reached.claims <= examined.claims);
    agree_on_drawn(rt, state, plain, by_day);
}

/// Draws lists of twelve entries, of so many days.
fn draw_lists(rt: &impl Abort, alloc: Global, seed: u64, days: u64)
    requires { (0 < days) × (days < 10) }
{
    let mut state = seed;
    for _ in 0..1_000 {
        let mut plain = PlainLedger::empty(alloc);
        let mut by_day = DayLedger::empty(alloc);
        for _ in 0..12 {
            step(rt, alloc, &mut state, days, &mut plain, &mut by_day);
        }
    }
}

#[test]
fn both_ledgers_give_the_same_answers(rt: HostRuntime) {
    draw_lists(&rt, rt.alloc(), 20_240_115, 9);
}

// So each assertion stands after others of its day.
#[test]
fn both_ledgers_judge_alike_on_one_day_or_two(rt: HostRuntime) {
    draw_lists(&rt, rt.alloc(), 20_240_116, 1);
    draw_lists(&rt, rt.alloc(), 20_240_117, 2);
}
