//! Symbols as texts, row by row.

use money_core::{name_part_law, read_symbol};
use std::process::Abort;

/// Asserts which symbol each text is.
fn assert_read(rt: &impl Abort, rows: &[(&str, Option<&str>)]) {
    for (text, wanted) in rows {
        assert!(rt; read_symbol(*text) == *wanted, "{text}");
    }
}

// hledger manual, "Commodity"; which characters need quotes, and the length, are own rules.
#[test]
fn a_symbol_is_bare_or_in_quotes(rt: HostRuntime) {
    name_part_law();
    const ROWS: &[(&str, Option<&str>)] = &[
        ("EUR", Some("EUR")),
        ("\"EUR\"", Some("EUR")),
        ("$", Some("$")),
        ("\"kg 2\"", Some("kg 2")),
        ("ABCDEFGHIJKLMNOPQRSTUVWX", Some("ABCDEFGHIJKLMNOPQRSTUVWX")),
        ("ABCDEFGHIJKLMNOPQRSTUVWXY", None),
        ("", None),
        ("\"\"", None),
        ("kg2", None),
        ("EUR ", None),
        ("EUR 5", None),
        ("\"EUR", None),
        ("\"EUR\"5", None),
        ("\"a  b\"", None),
        ("\"a:b\"", None),
    ];
    assert_read(&rt, ROWS);
}
