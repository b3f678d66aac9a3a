//! The commodities report of a federation: canonical samples.

ghost use Rattle.std.specs.Prelude.{◌≡◌, ◌++◌, ◌<◌, true, length, slice_get, Some, IfOk, OnOk, OnErr};
ghost use Rattle.std.specs.Result.{IsOkUnless};
ghost use Rattle.std.specs.List.{flat_map};
ghost use Rattle.money_core.specs.declared.style.Style.{Style as Kind};
ghost use Rattle.money_core.specs.AmountText.{gap, printed_symbol};
ghost use Rattle.money_core.specs.Symbol.{is_symbol, is_bare};
ghost use Rattle.treasury_reports.specs.Rows.{report_as};
ghost use Rattle.treasury_reports.specs.CommoditiesReport.{sample_number, sample_text, thousand, AreSamples};
ghost use Rattle.treasury_reports.specs.CommoditiesReport.{sample_cells, commodities_rows};
ghost use Rattle.treasury_reports.specs.Written.{row_in};

use crate::rows::{Column, Layout, push_row, push_written};
use book_core::Ledger;
use money_core::{Cause, Mark, Style, Styles, Unit, read_symbol};
use std::alloc::{AllocError, Global};
use treasury_state::State;

/// Whether a symbol can stand without quotes: whether it reads as a symbol.
fn is_bare(symbol: &str) -> bool
    requires { is_symbol symbol.now ≡ true }
    ensures { result ≡ is_bare symbol.now }
{
    read_symbol(symbol).is_some()
}

/// Appends a symbol, in quotes where it could not stand without.
#[tactic(auto, unfolding(money_core::specs::AmountText::printed_symbol))]
fn push_symbol(symbol: &str, out: &mut Vec<u8>) -> Result<(), AllocError>
    requires { is_symbol symbol.now ≡ true }
    ensures { OnOk result (out.new.items ≡ out.old.items ++ printed_symbol symbol.now) }
{
    if is_bare(symbol) {
        return out.extend_from_slice(symbol.as_bytes());
    }
    out.push(b'"')?;
    out.extend_from_slice(symbol.as_bytes())?;
    out.push(b'"')?;
    Ok(())
}

/// Appends what stands between symbol and number.
fn push_gap(spaced: bool, out: &mut Vec<u8>) -> Result<(), AllocError>
    ensures { OnOk result (out.new.items ≡ out.old.items ++ gap spaced) }
{
    if spaced {
        out.push(b' ')?;
    }
    Ok(())
}

/// Appends a thousand, in groups or not.
fn push_thousand(mark: Mark, grouped: bool, out: &mut Vec<u8>) -> Result<(), AllocError>
    ensures { OnOk result (out.new.items ≡ out.old.items ++ thousand mark grouped) }
{
    if grouped {
        out.push(b'1')?;
        out.push(mark.group())?;
        out.extend_from_slice(b"000")?;
        return Ok(());
    }
    out.extend_from_slice(b"1000")?;
    Ok(())
}

/// Appends the number of a sample.
#[tactic(auto, unfolding(crate::specs::CommoditiesReport::sample_number))]
fn push_sample_number(style: &Style, out: &mut Vec<u8>) -> Result<(), AllocError>
    ensures { OnOk result (out.new.items ≡ out.old.items ++ sample_number style.now) }
{
    push_thousand(style.mark, style.grouped, out)?;
    out.push(style.mark.decimal())?;
    'zeros: for _ in 0..style.decimals {
        out.push(b'0')?;
    }
    Ok(())
}

/// Appends the canonical sample of a style.
#[tactic(auto, unfolding(crate::specs::CommoditiesReport::sample_text))]
fn push_sample(style: &Style, out: &mut Vec<u8>) -> Result<(), AllocError>
    requires { is_symbol style.now.symbol ≡ true }
    ensures { OnOk result (out.new.items ≡ out.old.items ++ sample_text style.now) }
{
    if style.left {
        push_symbol(style.symbol.as_str(), out)?;
        push_gap(style.spaced, out)?;
        push_sample_number(style, out)?;
    } else {
        push_sample_number(style, out)?;
        push_gap(style.spaced, out)?;
        push_symbol(style.symbol.as_str(), out)?;
    }
    Ok(())
}

/// Appends the row of a style: its sample.
fn push_style(alloc: Global, style: &Style, layout: Layout, rows: &mut Vec<u8>) -> Result<(), Cause>
    requires { is_symbol style.now.symbol ≡ true }
    ensures ok { OnOk result (rows.new.items ≡ rows.old.items ++ row_in layout (sample_cells style.now)) }
    ensures memory { IsOkUnless result Cause.OutOfMemory }
{
    let mut sample = Vec::new(alloc);
    push_sample(style, &mut sample)?;
    push_row(alloc, layout, &[(Column::End, sample.as_slice())], rows)
}

/// Appends the row of a commodity.
fn push_commodity(
    alloc: Global,
    styles: &Styles,
    unit: Unit,
    layout: Layout,
    rows: &mut Vec<u8>,
) -> Result<(), Cause>
    requires { unit.0 < length styles.now }
    ensures ok { (s : Kind) → slice_get styles.now unit.0 ≡ Some s
        → OnOk result (rows.new.items ≡ rows.old.items ++ row_in layout (sample_cells s)) }
    ensures memory { IsOkUnless result Cause.OutOfMemory }
{
    styles.are_styles();
    let style = styles.style(unit).unwrap();
    push_style(alloc, style, layout, rows)
}

/// The rows of commodities.
fn rows_of(alloc: Global, styles: &Styles, layout: Layout) -> Result<Vec<u8>, Cause>
    ensures ok { IfOk result (λ rows. rows.items ≡ flat_map (λ s. row_in layout (sample_cells s)) styles.now) }
    ensures memory { IsOkUnless result Cause.OutOfMemory }
{
    styles.are_styles();
    let mut rows = Vec::new(alloc);
    let mut number = 0;
    'units: while styles.style(Unit(number)).is_some() {
        push_commodity(alloc, styles, Unit(number), layout, &mut rows)?;
        number += 1;
    }
    Ok(rows)
}

/// Appends the commodities, in declared order: of each the canonical sample, which declares it.
///
/// Where memory is refused, it answers 40, and the vector is as it was.
pub fn commodities_report<L: Ledger>(
    alloc: Global,
    state: &State<L>,
    layout: Layout,
    out: &mut Vec<u8>,
) -> Result<(), Cause>
    ensures ok { OnOk result (out.new.items ≡ out.old.items ++ report_as layout (commodities_rows state.now)) }
    ensures err { OnErr result (out.new.items ≡ out.old.items) }
    ensures memory { IsOkUnless result Cause.OutOfMemory }
{
    match rows_of(alloc, state.styles(), layout) {
        Ok(rows) => push_written(layout, rows, out),
        Err(cause) => Err(cause),
    }
}

/// What the commodities report has in each line is a sample of the commodity's style: a law. So the sample is read as
/// that style, and its declaration is a repeat. Costs nothing.
pub fn samples_law(styles: &Styles)
    ensures { AreSamples styles.now }
{
    styles.are_styles();
}
