//! Samples, row by row.

use crate::fixture::{Fields, has_fields};
use money_core::{Cause, Mark, read_style};
use std::alloc::Global;
use std::process::Abort;

const LEFT: bool = true;

const RIGHT: bool = false;

const SPACED: bool = true;

const CLOSE: bool = false;

const GROUPED: bool = true;

const PLAIN: bool = false;

/// Whether the text is a sample of the style of these fields.
fn is_spelled(alloc: Global, text: &str, wanted: Fields<'_>) -> bool {
    match read_style(alloc, text) {
        Ok(style) => has_fields(&style, wanted),
        Err(_) => false,
    }
}

/// Whether the text is refused with 8.
fn is_refused(alloc: Global, text: &str) -> bool {
    match read_style(alloc, text) {
        Ok(_) => false,
        Err(cause) => cause == Cause::Amount,
    }
}

/// Asserts the style that each text is a sample of.
fn assert_spelled(rt: &impl Abort, alloc: Global, rows: &[(&str, Fields<'_>)]) {
    for (text, wanted) in rows {
        assert!(rt; is_spelled(alloc, *text, *wanted), "{text}");
    }
}

// hledger manual, "Commodity display style"; the decimal mark of a sample is an own rule.
#[test]
fn a_sample_spells_one_style(rt: HostRuntime) {
    const ROWS: &[(&str, Fields<'static>)] = &[
        (
            "1,000,000.00 EUR",
            ("EUR", RIGHT, SPACED, Mark::Point, 2, GROUPED),
        ),
        ("1000. JPY", ("JPY", RIGHT, SPACED, Mark::Point, 0, PLAIN)),
        ("1,000 EUR", ("EUR", RIGHT, SPACED, Mark::Comma, 3, PLAIN)),
        ("1,0.00 X", ("X", RIGHT, SPACED, Mark::Point, 2, GROUPED)),
        (".50 X", ("X", RIGHT, SPACED, Mark::Point, 2, PLAIN)),
        ("1.X", ("X", RIGHT, CLOSE, Mark::Point, 0, PLAIN)),
        ("0.000000X", ("X", RIGHT, CLOSE, Mark::Point, 6, PLAIN)),
        ("$ \t1,000.00", ("$", LEFT, SPACED, Mark::Point, 2, GROUPED)),
        ("€1.000,00", ("€", LEFT, CLOSE, Mark::Comma, 2, GROUPED)),
        (
            "\"kg 2\" 1.0",
            ("kg 2", LEFT, SPACED, Mark::Point, 1, PLAIN),
        ),
        ("1.0\"EUR\"", ("EUR", RIGHT, CLOSE, Mark::Point, 1, PLAIN)),
        (
            "1.0 \"a\u{a0}b\"",
            ("a\u{a0}b", RIGHT, SPACED, Mark::Point, 1, PLAIN),
        ),
        (
            "ABCDEFGHIJKLMNOPQRSTUVWX1.0",
            (
                "ABCDEFGHIJKLMNOPQRSTUVWX",
                LEFT,
                CLOSE,
                Mark::Point,
                1,
                PLAIN,
            ),
        ),
        (
            "100000000000000.00 EUR",
            ("EUR", RIGHT, SPACED, Mark::Point, 2, PLAIN),
        ),
    ];
    assert_spelled(&rt, rt.alloc(), ROWS);
}

/// Asserts that none of the texts is a sample.
fn assert_refused(rt: &impl Abort, alloc: Global, rows: &[&str]) {
    for text in rows {
        assert!(rt; is_refused(alloc, *text), "{text}");
    }
}

#[test]
fn no_sample_is_refused(rt: HostRuntime) {
    const ROWS: &[&str] = &[
        "",
        "EUR",
        "1.00",
        "1000 EUR",
        "1.000.000 EUR",
        "1.0,0.0 EUR",
        ". X",
        "0.0000000 X",
        "100000000000000.01 EUR",
        "-1.00 EUR",
        "+1.00 EUR",
        "EUR -1.00",
        " 1.00 EUR",
        "1.00 EUR ",
        "1.00 a\u{a0}b",
        "\u{a0}1.00",
        "\"a  b\" 1.0",
        "\" a\" 1.0",
        "\"a \" 1.0",
        "\"\" 1.0",
        "\"a 1.0",
        "ABCDEFGHIJKLMNOPQRSTUVWXY1.0",
    ];
    assert_refused(&rt, rt.alloc(), ROWS);
}
