//! Amounts under declared commodities, row by row.

use crate::fixture::declared;
use money_core::{Cause, Styles, Unit, read_amount};
use std::process::Abort;

const EUR: Unit = Unit(0);

const DOLLAR: Unit = Unit(1);

const KRONA: Unit = Unit(2);

/// Asserts what each text is read as under these styles.
fn assert_read(rt: &impl Abort, styles: &Styles, rows: &[(&str, Result<(Unit, i64), Cause>)]) {
    for (text, wanted) in rows {
        assert_eq!(rt; read_amount(*text, styles), *wanted, "{text}");
    }
}

// hledger manual, "Amounts", "Commodity", "Decimal marks, digit group marks".
#[test]
fn an_amount_has_a_quantity_or_a_first_fault(rt: HostRuntime) {
    let samples = ["1,000.00 EUR", "$1,000.00", "1.000,00 kr"];
    let styles = declared(&rt, rt.alloc(), &samples);
    const ROWS: &[(&str, Result<(Unit, i64), Cause>)] = &[
        ("1.500 EUR", Ok((EUR, 150))),
        ("1.505 EUR", Err(Cause::Decimals)),
        ("1,5 EUR", Ok((EUR, 1500))),
        ("1,5 kr", Ok((KRONA, 150))),
        ("1.5 kr", Ok((KRONA, 1500))),
        ("1.000,00 EUR", Err(Cause::Amount)),
        ("$.50", Ok((DOLLAR, 50))),
        ("5. EUR", Ok((EUR, 500))),
        (". EUR", Err(Cause::Amount)),
        ("-$1", Ok((DOLLAR, -100))),
        ("$-1", Ok((DOLLAR, -100))),
        ("- $ 1", Ok((DOLLAR, -100))),
        ("$ - 1", Ok((DOLLAR, -100))),
        ("+\t1\tEUR", Ok((EUR, 100))),
        ("--1 EUR", Err(Cause::Amount)),
        ("-$-1", Err(Cause::Amount)),
        ("1 -EUR", Err(Cause::Amount)),
        ("EUR 1", Ok((EUR, 100))),
        ("\"EUR\" 1", Ok((EUR, 100))),
        ("1 \"EUR\"", Ok((EUR, 100))),
        ("1.2.3 EUR", Err(Cause::Amount)),
        ("1,,5 EUR", Err(Cause::Amount)),
        ("1,.5 EUR", Err(Cause::Amount)),
        (",5 EUR", Err(Cause::Amount)),
        ("5", Err(Cause::Amount)),
        ("EUR", Err(Cause::Amount)),
        ("1 EUR 1", Err(Cause::Amount)),
        ("1\nEUR", Err(Cause::Amount)),
        ("-0 EUR", Ok((EUR, 0))),
        ("100000000000000.00 EUR", Ok((EUR, 10_000_000_000_000_000))),
        ("-100000000000000 EUR", Ok((EUR, -10_000_000_000_000_000))),
        ("100000000000000.01 EUR", Err(Cause::Amount)),
        ("100000000000000.011 EUR", Err(Cause::Decimals)),
        (" 1.00 EUR", Err(Cause::Amount)),
        ("1.00 EUR ", Err(Cause::Amount)),
        ("", Err(Cause::Amount)),
        ("\"", Err(Cause::Amount)),
        ("\"\"1", Err(Cause::Amount)),
        ("1 \"a  b\"", Err(Cause::Amount)),
    ];
    assert_read(&rt, &styles, ROWS);
}

// A commodity that is not declared, and texts that are not ASCII.
#[test]
fn an_undeclared_symbol_is_named_where_the_form_is_right(rt: HostRuntime) {
    let styles = Styles::empty(rt.alloc());
    const ROWS: &[(&str, Result<(Unit, i64), Cause>)] = &[
        ("5 GBP", Err(Cause::UnknownCommodity)),
        ("1.0,0 X", Err(Cause::UnknownCommodity)),
        ("1,0.0 X", Err(Cause::UnknownCommodity)),
        ("1.0,0.0 X", Err(Cause::Amount)),
        ("1.23456789 X", Err(Cause::UnknownCommodity)),
        ("1 ABCDEFGHIJKLMNOPQRSTUVWX", Err(Cause::UnknownCommodity)),
        ("1 ABCDEFGHIJKLMNOPQRSTUVWXY", Err(Cause::Amount)),
        ("€1", Err(Cause::UnknownCommodity)),
        ("1 \"a b\"", Err(Cause::UnknownCommodity)),
        ("1 \"a\u{a0}b\"", Err(Cause::UnknownCommodity)),
        ("1 a\u{a0}b", Err(Cause::Amount)),
        ("1 a\u{3000}b", Err(Cause::Amount)),
        ("1 \" a\"", Err(Cause::Amount)),
        ("1 \"a;b\"", Err(Cause::Amount)),
        ("1 \"a\tb\"", Err(Cause::Amount)),
    ];
    assert_read(&rt, &styles, ROWS);
}

#[test]
fn a_number_may_be_long(rt: HostRuntime) {
    let styles = Styles::empty(rt.alloc());
    let nines = [b'9'; 1000];
    let nines = std::str::from_utf8(&nines).expect(&rt, "digits");
    assert_eq!(rt; read_amount(nines, &styles), Err(Cause::Amount));
    let nines = format!(in rt.alloc(); "{nines} EUR").expect(&rt, "memory");
    assert_eq!(rt;
        read_amount(nines.as_str(), &styles),
        Err(Cause::UnknownCommodity)
    );
    let styles = declared(&rt, rt.alloc(), &["1.00 EUR"]);
    assert_eq!(rt; read_amount(nines.as_str(), &styles), Err(Cause::Amount));
}
