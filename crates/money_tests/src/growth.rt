//! What is read before a further declaration is read the same after it.

use crate::fixture::declared_styles;
use money_core::{Styles, Unit, growth_law, read_amount, read_style};
use std::process::Abort;

/// Asserts what each text is read as.
fn assert_read(rt: &impl Abort, styles: &Styles, rows: &[(&str, Unit, i64)]) {
    for (text, unit, quantity) in rows {
        assert!(rt;
            read_amount(*text, styles) == Ok((*unit, *quantity)),
            "{text}"
        );
    }
}

#[test]
fn an_amount_is_read_the_same_under_more_commodities(rt: HostRuntime) {
    let mut styles = declared_styles(&rt, rt.alloc());
    growth_law();
    const ROWS: &[(&str, Unit, i64)] = &[
        ("1,234.50 EUR", Unit(0), 123_450),
        ("CHF -1", Unit(5), -1_000_000),
    ];
    assert_read(&rt, &styles, ROWS);
    assert_eq!(rt; styles.len(), 6);
    let style = read_style(rt.alloc(), "1.0 GBP").expect(&rt, "a sample");
    assert!(rt; styles.declare(style).is_ok());
    assert_eq!(rt; styles.len(), 7);
    assert_read(&rt, &styles, ROWS);
}
