//! Prices read and printed, row by row.

use crate::fixture::declared_styles;
use money_core::{Cause, Copied, Price, Styles, Unit, is_price, print_price, read_price};
use std::alloc::Global;
use std::process::Abort;

fn each(unit: u16, digits: u64, decimals: u8) -> Result<Price, Cause> {
    Ok(Price::Each {
        unit: Unit(unit),
        digits,
        decimals,
    })
}

fn total(unit: u16, quantity: u64) -> Result<Price, Cause> {
    Ok(Price::Total {
        unit: Unit(unit),
        quantity,
    })
}

/// Asserts the unit cost that each text is: commodity, digits, decimals.
fn assert_unit_costs(
    rt: &impl Abort,
    alloc: Global,
    rows: &[(&str, Result<(u16, u64, u8), Cause>)],
) {
    let styles = declared_styles(rt, alloc);
    for (text, wanted) in rows {
        let wanted = match *wanted {
            Ok((unit, digits, decimals)) => each(unit, digits, decimals),
            Err(cause) => Err(cause),
        };
        assert_eq!(rt; read_price(*text, &styles), wanted, "{text}");
    }
}

/// Asserts the total cost that each text is: commodity and quantity.
fn assert_total_costs(rt: &impl Abort, alloc: Global, rows: &[(&str, Result<(u16, u64), Cause>)]) {
    let styles = declared_styles(rt, alloc);
    for (text, wanted) in rows {
        let wanted = match *wanted {
            Ok((unit, quantity)) => total(unit, quantity),
            Err(cause) => Err(cause),
        };
        assert_eq!(rt; read_price(*text, &styles), wanted, "{text}");
    }
}

#[test]
fn a_unit_cost_is_kept_without_zeros_at_its_end(rt: HostRuntime) {
    const ROWS: &[(&str, Result<(u16, u64, u8), Cause>)] = &[
        ("@ $1.35", Ok((1, 135, 2))),
        ("@$1.3", Ok((1, 130, 2))),
        ("@ \t1.3456 $", Ok((1, 13456, 4))),
        ("@ $1.0000000000000", Ok((1, 100, 2))),
        ("@ $1.2340000000000", Ok((1, 1234, 3))),
        ("@ $0.000000000001", Ok((1, 1, 12))),
        ("@ $0.0000000000001", Err(Cause::Cost)),
        ("@ $10000000000000", Ok((1, 1_000_000_000_000_000, 2))),
        ("@ $10000000000000.01", Err(Cause::Cost)),
        ("@ $1000.000000000001", Err(Cause::Cost)),
        ("@ $-1", Err(Cause::Cost)),
        ("@ $-0", Ok((1, 0, 2))),
        ("@ .5 JPY", Ok((3, 5, 1))),
        ("@ 30 JPY", Ok((3, 30, 0))),
        ("@ CHF 1.000,5", Ok((5, 1_000_500_000, 6))),
        ("@ 5", Err(Cause::Amount)),
        ("@ 5 GBP", Err(Cause::UnknownCommodity)),
        ("@ -5 GBP", Err(Cause::UnknownCommodity)),
        ("@ 1,0.0,0 GBP", Err(Cause::Amount)),
        ("@ 1.0.0 EUR", Err(Cause::Amount)),
        ("@", Err(Cause::Amount)),
        ("@ ", Err(Cause::Amount)),
        ("", Err(Cause::Amount)),
        ("$1", Err(Cause::Amount)),
        (" @ $1", Err(Cause::Amount)),
        ("@ $1 ", Err(Cause::Amount)),
        ("@ @ $1", Err(Cause::Amount)),
    ];
    assert_unit_costs(&rt, rt.alloc(), ROWS);
}

#[test]
fn a_total_cost_has_the_declared_decimals(rt: HostRuntime) {
    const ROWS: &[(&str, Result<(u16, u64), Cause>)] = &[
        ("@@ $0", Ok((1, 0))),
        ("@@ $-0.00", Ok((1, 0))),
        ("@@$1.5", Ok((1, 150))),
        ("@@ $1.5000000000000", Ok((1, 150))),
        ("@@ $1.505", Err(Cause::Cost)),
        ("@@ $-0.01", Err(Cause::Cost)),
        ("@@ 100000000000000 EUR", Ok((0, 10_000_000_000_000_000))),
        ("@@ 100000000000000.01 EUR", Err(Cause::Cost)),
        ("@@ .5 JPY", Err(Cause::Cost)),
        ("@@ 5 GBP", Err(Cause::UnknownCommodity)),
        ("@@@ $1", Err(Cause::Amount)),
        ("@@", Err(Cause::Amount)),
    ];
    assert_total_costs(&rt, rt.alloc(), ROWS);
}

/// Appends the price that the text is.
fn reprint(alloc: Global, text: &str, styles: &Styles, out: &mut Vec<u8>) -> Result<(), Cause> {
    let price = match read_price(text, styles) {
        Ok(price) => price,
        Err(cause) => return Err(cause),
    };
    print_price(alloc, &price, styles, out)
}

/// Asserts that the text is printed so, and that both read as the same price.
fn assert_printed(rt: &impl Abort, alloc: Global, styles: &Styles, text: &str, printed: &str) {
    let mut out = Vec::new(alloc);
    assert_eq!(rt; reprint(alloc, text, styles, &mut out), Ok(()), "{text}");
    assert_eq!(rt; out.as_slice(), printed.as_bytes(), "{text}");
    assert!(rt;
        read_price(printed, styles) == read_price(text, styles),
        "{text}"
    );
}

/// Asserts it of each row: as it is written, as it is printed; the texts, one after the other, begin as given.
fn assert_all_printed(rt: &impl Abort, alloc: Global, rows: &[(&str, &str)], begin: &[u8]) {
    let styles = declared_styles(rt, alloc);
    let mut all = Vec::new(alloc);
    for (text, printed) in rows {
        assert_printed(rt, alloc, &styles, *text, *printed);
        assert_eq!(rt; reprint(alloc, *text, &styles, &mut all), Ok(()), "{text}");
    }
    assert!(rt; all.as_slice().starts_with(begin));
}

#[test]
fn a_price_is_printed_in_its_commoditys_style(rt: HostRuntime) {
    const ROWS: &[(&str, &str)] = &[
        ("@$1.35", "@ $1.35"),
        ("@ 1.3500 $", "@ $1.35"),
        ("@ $1.3456000", "@ $1.3456"),
        ("@ $-0", "@ $0.00"),
        ("@ 1000 EUR", "@ 1,000.00 EUR"),
        ("@ 1000 JPY", "@ 1,000. JPY"),
        ("@ 1234.5 JPY", "@ 1,234.5 JPY"),
        ("@ \"kg2\" 2.50", "@ 2.5 \"kg2\""),
        ("@ CHF 1,000000000001", "@ CHF 1,000000000001"),
        ("@@2 $", "@@ $2.00"),
        ("@@ 1000 JPY", "@@ 1,000. JPY"),
        ("@@ CHF 1000", "@@ CHF 1.000,000000"),
    ];
    assert_all_printed(&rt, rt.alloc(), ROWS, b"@ $1.35@ $1.35@ $1.3456");
}

/// The copy of an item, through the bound.
fn copy_of<T: Copied>(item: &T) -> Result<T, Cause> {
    item.copy()
}

/// Asserts of each whether it is a price, and that its copy is equal.
fn assert_are_prices(rt: &impl Abort, alloc: Global, rows: &[(Result<Price, Cause>, bool)]) {
    let styles = declared_styles(rt, alloc);
    for (price, wanted) in rows {
        let price = (*price).expect(rt, "a price");
        assert_eq!(rt; is_price(&price, &styles), *wanted, "{price:?}");
        assert_eq!(rt; copy_of(&price), Ok(price));
    }
}

#[test]
fn a_price_of_no_text_is_none(rt: HostRuntime) {
    let rows = [
        (each(1, 135, 2), true),
        (each(1, 1350, 3), false),
        (each(1, 13, 1), false),
        (each(5, 1, 13), false),
        (each(3, 1_000_000_000_000_000, 0), true),
        (each(3, 1_000_000_000_000_001, 0), false),
        (total(3, 10_000_000_000_000_000), true),
        (total(3, 10_000_000_000_000_001), false),
        (each(6, 1, 2), false),
    ];
    assert_are_prices(&rt, rt.alloc(), &rows);
}
