//! Lengths of printed amounts and prices, counted by hand.

use crate::fixture::declared_styles;
use money_core::{Price, Unit, amount_len, is_declared, is_price, price_len};
use std::alloc::Global;
use std::process::Abort;

/// Asserts the length of each amount: its commodity's number, its quantity, the length.
fn assert_amount_lens(rt: &impl Abort, alloc: Global, rows: &[(u16, i64, usize)]) {
    let styles = declared_styles(rt, alloc);
    for (unit, quantity, wanted) in rows {
        assert!(rt; is_declared(Unit(*unit), *quantity, &styles));
        assert_eq!(rt;
            amount_len(Unit(*unit), *quantity, &styles),
            *wanted,
            "{unit} {quantity}"
        );
    }
}

/// Asserts the length of each price.
fn assert_price_lens(rt: &impl Abort, alloc: Global, rows: &[(Price, usize)]) {
    let styles = declared_styles(rt, alloc);
    for (price, wanted) in rows {
        assert!(rt; is_price(price, &styles));
        assert_eq!(rt; price_len(price, &styles), *wanted, "{price:?}");
    }
}

// Texts such as `-1,234.50 EUR`, `1,000. JPY`, `-1000 "kg2"` and `CHF -0,000001`.
#[test]
fn an_amount_is_as_long_as_its_text(rt: HostRuntime) {
    const ROWS: &[(u16, i64, usize)] = &[
        (0, 0, 8),
        (0, -123_450, 13),
        (1, 100, 5),
        (2, -99, 8),
        (3, 999, 7),
        (3, 1_000, 10),
        (4, -1_000, 11),
        (5, -1, 13),
        (0, -10_000_000_000_000_000, 27),
        (4, 10_000_000_000_000_000, 23),
    ];
    assert_amount_lens(&rt, rt.alloc(), ROWS);
}

// `@ 1.10 EUR`, `@ 0.000000000001 EUR`, `@@ 1,000.00 EUR`, `@@ 7 "kg2"`.
#[test]
fn a_price_is_as_long_as_its_text(rt: HostRuntime) {
    const ROWS: &[(Price, usize)] = &[
        (
            Price::Each {
                unit: Unit(0),
                digits: 110,
                decimals: 2,
            },
            10,
        ),
        (
            Price::Each {
                unit: Unit(0),
                digits: 1,
                decimals: 12,
            },
            20,
        ),
        (
            Price::Total {
                unit: Unit(0),
                quantity: 100_000,
            },
            15,
        ),
        (
            Price::Total {
                unit: Unit(4),
                quantity: 7,
            },
            10,
        ),
    ];
    assert_price_lens(&rt, rt.alloc(), ROWS);
}
