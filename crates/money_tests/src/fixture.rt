//! Commodities for the tests.

use money_core::{Mark, Style, Styles, Text, read_style};
use std::alloc::Global;
use std::process::Abort;

/// The fields of a style: the symbol, whether it is on the left, whether it is spaced, the mark, the decimals, whether
/// the digits are grouped.
pub type Fields<'a> = (&'a str, bool, bool, Mark, u8, bool);

/// The style of these fields.
pub fn style_of(rt: &impl Abort, alloc: Global, fields: Fields<'_>) -> Style {
    let (symbol, left, spaced, mark, decimals, grouped) = fields;
    let symbol = Text::of(alloc, symbol).expect(rt, "memory");
    Style {
        symbol,
        left,
        spaced,
        mark,
        decimals,
        grouped,
    }
}

/// Whether the style has these fields.
pub fn has_fields(style: &Style, fields: Fields<'_>) -> bool {
    let (symbol, left, spaced, mark, decimals, grouped) = fields;
    style.symbol.as_str() == symbol
        && style.left == left
        && style.spaced == spaced
        && style.mark == mark
        && style.decimals == decimals
        && style.grouped == grouped
}

/// Declares the commodity of a sample.
fn declare(rt: &impl Abort, alloc: Global, sample: &str, styles: &mut Styles) {
    let style = read_style(alloc, sample).expect(rt, "a sample");
    assert!(rt; styles.declare(style).is_ok(), "{sample}");
}

/// The commodities of these samples, in their order.
pub fn declared(rt: &impl Abort, alloc: Global, samples: &[&str]) -> Styles {
    let mut styles = Styles::empty(alloc);
    for sample in samples {
        declare(rt, alloc, *sample, &mut styles);
    }
    styles
}

/// Six commodities, of which `EUR` is the first.
pub fn declared_styles(rt: &impl Abort, alloc: Global) -> Styles {
    declared(
        rt,
        alloc,
        &[
            "1,000.00 EUR",
            "$1,000.00",
            "€1,000.00",
            "1,000. JPY",
            "1000. \"kg2\"",
            "CHF 1.000,000000",
        ],
    )
}
