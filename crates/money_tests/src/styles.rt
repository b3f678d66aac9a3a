//! Declarations, row by row.

use crate::fixture::style_of;
use money_core::{Cause, Declared, Mark, Styles, Unit, is_style};
use std::alloc::Global;
use std::process::Abort;

/// Asserts what a declaration of each symbol with so many decimals is answered, in turn.
fn assert_declared(
    rt: &impl Abort,
    alloc: Global,
    styles: &mut Styles,
    rows: &[(&str, u8, Result<Declared, Cause>)],
) {
    for (symbol, decimals, wanted) in rows {
        let style = style_of(
            rt,
            alloc,
            (*symbol, false, true, Mark::Point, *decimals, true),
        );
        assert!(rt; is_style(&style));
        assert_eq!(rt; styles.declare(style), *wanted, "{symbol}");
    }
}

#[test]
fn a_symbol_is_declared_once(rt: HostRuntime) {
    let mut styles = Styles::empty(rt.alloc());
    const ROWS: &[(&str, u8, Result<Declared, Cause>)] = &[
        ("EUR", 2, Ok(Declared::New(Unit(0)))),
        ("EUR", 2, Ok(Declared::Same(Unit(0)))),
        ("$", 2, Ok(Declared::New(Unit(1)))),
        ("EUR", 3, Err(Cause::CommodityExists)),
        ("$", 2, Ok(Declared::Same(Unit(1)))),
        ("eur", 2, Ok(Declared::New(Unit(2)))),
    ];
    assert_declared(&rt, rt.alloc(), &mut styles, ROWS);
    assert_eq!(rt; styles.find("$"), Some(Unit(1)));
    assert_eq!(rt; styles.find("GBP"), None);
    let held = styles.style(Unit(2)).expect(&rt, "a style");
    assert_eq!(rt; held.symbol.as_str(), "eur");
    assert!(rt; styles.style(Unit(3)).is_none());
}

#[test]
fn a_seventeenth_commodity_is_refused(rt: HostRuntime) {
    let alloc = rt.alloc();
    let mut styles = Styles::empty(alloc);
    for symbol in [
        "A", "B", "C", "D", "E", "F", "G", "H", "I", "J", "K", "L", "M", "N", "O", "P",
    ] {
        let style = style_of(&rt, alloc, (symbol, false, true, Mark::Point, 0, true));
        assert!(rt; is_style(&style));
        assert!(rt; styles.declare(style).is_ok());
    }
    const ROWS: &[(&str, u8, Result<Declared, Cause>)] = &[
        ("Q", 0, Err(Cause::Full)),
        ("P", 0, Ok(Declared::Same(Unit(15)))),
        ("P", 1, Err(Cause::CommodityExists)),
    ];
    assert_declared(&rt, rt.alloc(), &mut styles, ROWS);
}
