//! Amounts read and printed, row by row.

use crate::fixture::declared_styles;
use money_core::{Cause, Styles, Unit, amounts_bound, is_declared, print_amount, read_amount};
use std::alloc::Global;
use std::process::Abort;

/// A line of what the text is read as and printed as, after what the vector holds.
fn reprint(alloc: Global, text: &str, styles: &Styles, out: &mut Vec<u8>) -> Result<(), Cause> {
    let (unit, quantity) = match read_amount(text, styles) {
        Ok(amount) => amount,
        Err(cause) => return Err(cause),
    };
    amounts_bound(styles);
    print_amount(alloc, unit, quantity, styles, out)
}

/// Asserts that the text is printed so, and that both read as the same amount.
fn assert_printed(rt: &impl Abort, alloc: Global, styles: &Styles, text: &str, printed: &str) {
    let mut out = Vec::new(alloc);
    assert_eq!(rt; reprint(alloc, text, styles, &mut out), Ok(()), "{text}");
    assert_eq!(rt; out.as_slice(), printed.as_bytes(), "{text}");
    assert!(rt;
        read_amount(printed, styles) == read_amount(text, styles),
        "{text}"
    );
}

/// Asserts it of each row: as it is written, as it is printed.
fn assert_all_printed(rt: &impl Abort, alloc: Global, rows: &[(&str, &str)]) {
    let styles = declared_styles(rt, alloc);
    for (text, printed) in rows {
        assert_printed(rt, alloc, &styles, *text, *printed);
    }
}

#[test]
fn an_amount_is_printed_in_its_commoditys_style(rt: HostRuntime) {
    const ROWS: &[(&str, &str)] = &[
        ("1000 EUR", "1,000.00 EUR"),
        ("-70.00 EUR", "-70.00 EUR"),
        ("- 70 EUR", "-70.00 EUR"),
        ("EUR +.5", "0.50 EUR"),
        ("0 EUR", "0.00 EUR"),
        ("-0 EUR", "0.00 EUR"),
        ("999.99 EUR", "999.99 EUR"),
        ("\"EUR\" 1", "1.00 EUR"),
        ("100000000000000 EUR", "100,000,000,000,000.00 EUR"),
        ("-99999999999999.99 EUR", "-99,999,999,999,999.99 EUR"),
        ("-9999999999999999 JPY", "-9,999,999,999,999,999. JPY"),
        ("$ 1234", "$1,234.00"),
        ("-$7", "$-7.00"),
        ("$-7", "$-7.00"),
        ("100 €", "€100.00"),
        ("999 JPY", "999 JPY"),
        ("1000 JPY", "1,000. JPY"),
        ("-1000000 JPY", "-1,000,000. JPY"),
        ("5 \"kg2\"", "5 \"kg2\""),
        ("\"kg2\"-12345", "-12345 \"kg2\""),
        ("CHF 1.234,5", "CHF 1.234,500000"),
        ("-0,000001CHF", "CHF -0,000001"),
    ];
    assert_all_printed(&rt, rt.alloc(), ROWS);
}

#[test]
fn a_declared_amount_is_within_the_limit(rt: HostRuntime) {
    let styles = declared_styles(&rt, rt.alloc());
    let rows = [
        (0, 0, true),
        (5, -1, true),
        (6, 0, false),
        (65535, 0, false),
        (0, 10_000_000_000_000_000, true),
        (0, 10_000_000_000_000_001, false),
        (0, -10_000_000_000_000_000, true),
        (0, -10_000_000_000_000_001, false),
        (0, i64::MIN, false),
    ];
    for (unit, quantity, wanted) in rows {
        assert!(rt;
            is_declared(Unit(unit), quantity, &styles) == wanted,
            "{unit} {quantity}"
        );
    }
}

#[test]
fn a_printed_amount_stands_behind_the_old_content(rt: HostRuntime) {
    let alloc = rt.alloc();
    let styles = declared_styles(&rt, alloc);
    let mut out = Vec::new(alloc);
    for text in ["1 EUR", "$2", "3"] {
        let _ = reprint(alloc, text, &styles, &mut out);
    }
    assert_eq!(rt; out.as_slice(), b"1.00 EUR$2.00".as_slice());
}
