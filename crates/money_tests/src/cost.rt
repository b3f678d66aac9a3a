//! What amounts cost, row by row.

use crate::fixture::declared_styles;
use money_core::{Cause, Styles, amounts_bound, cost_of, read_amount, read_price};
use std::alloc::Global;
use std::process::Abort;

/// What the amount costs at the price, both as they are written.
fn cost(amount: &str, price: &str, styles: &Styles) -> Result<i64, Cause> {
    let (unit, quantity) = match read_amount(amount, styles) {
        Ok(amount) => amount,
        Err(cause) => return Err(cause),
    };
    let price = match read_price(price, styles) {
        Ok(price) => price,
        Err(cause) => return Err(cause),
    };
    amounts_bound(styles);
    cost_of(quantity, unit, &price, styles)
}

/// Asserts the cost of each row: an amount, a price, what it costs in smallest units.
fn assert_costs(rt: &impl Abort, alloc: Global, rows: &[(&str, &str, Result<i64, Cause>)]) {
    let styles = declared_styles(rt, alloc);
    for (amount, price, wanted) in rows {
        assert_eq!(rt; cost(*amount, *price, &styles), *wanted, "{amount} {price}");
    }
}

#[test]
fn a_cost_is_exact_or_refused(rt: HostRuntime) {
    const ROWS: &[(&str, &str, Result<i64, Cause>)] = &[
        ("€100", "@ $1.35", Ok(13_500)),
        ("€-100", "@ $1.35", Ok(-13_500)),
        ("1.00 EUR", "@ $1.3456", Err(Cause::CostNotExact)),
        ("100.00 EUR", "@ $1.3456", Ok(13_456)),
        ("-0.01 EUR", "@ $1.3456", Err(Cause::CostNotExact)),
        ("3 EUR", "@@ $4", Ok(400)),
        ("-3 EUR", "@@ $4", Ok(-400)),
        ("0 EUR", "@@ $4", Ok(0)),
        ("0 EUR", "@ $4", Ok(0)),
        ("1 EUR", "@ $-0", Ok(0)),
        ("1 EUR", "@@ $0", Ok(0)),
        ("1 EUR", "@ 1 EUR", Err(Cause::Cost)),
        ("0 EUR", "@@ 0 EUR", Err(Cause::Cost)),
        ("5 JPY", "@ $0.01", Ok(5)),
        ("5 JPY", "@ $0.001", Err(Cause::CostNotExact)),
        ("0.50 EUR", "@ 2 JPY", Ok(1)),
        ("0.50 EUR", "@ 1 JPY", Err(Cause::CostNotExact)),
        ("3 JPY", "@ 7 \"kg2\"", Ok(21)),
        ("1 EUR", "@ CHF 0,000001", Ok(1)),
        ("CHF 0,01", "@ $1", Ok(1)),
        ("CHF 0,000001", "@ $1", Err(Cause::CostNotExact)),
        (
            "CHF 0,000001",
            "@ 0.000000000001 JPY",
            Err(Cause::CostNotExact),
        ),
    ];
    assert_costs(&rt, rt.alloc(), ROWS);
}

#[test]
fn a_cost_over_the_limit_is_refused_before_a_rest(rt: HostRuntime) {
    const ROWS: &[(&str, &str, Result<i64, Cause>)] = &[
        (
            "10000000000000000 JPY",
            "@ 1 \"kg2\"",
            Ok(10_000_000_000_000_000),
        ),
        (
            "-10000000000000000 JPY",
            "@ 1 \"kg2\"",
            Ok(-10_000_000_000_000_000),
        ),
        (
            "6666666666666666 JPY",
            "@ 1.5 \"kg2\"",
            Ok(9_999_999_999_999_999),
        ),
        (
            "6666666666666665 JPY",
            "@ 1.5 \"kg2\"",
            Err(Cause::CostNotExact),
        ),
        ("6666666666666667 JPY", "@ 1.5 \"kg2\"", Err(Cause::Cost)),
        (
            "10000000000000000 JPY",
            "@ 1000000000000000 \"kg2\"",
            Err(Cause::Cost),
        ),
        (
            "10000000000000000 JPY",
            "@ $10000000000000",
            Err(Cause::Cost),
        ),
        (
            "10000000000000000 JPY",
            "@ 0.000000000001 \"kg2\"",
            Ok(10_000),
        ),
        (
            "10000000000000000 JPY",
            "@@ 10000000000000000 \"kg2\"",
            Ok(10_000_000_000_000_000),
        ),
    ];
    assert_costs(&rt, rt.alloc(), ROWS);
}
