//! Styles, read from the rows of commodities.

ghost use Rattle.std.specs.Prelude.{◌≡◌, ◌⊎◌, ◌++◌, ◌∷◌, [], true, List, OnOk, IfOk, IfErr};
ghost use Rattle.money_core.specs.declared.style.Style.{Style as UnitStyle};
ghost use Rattle.money_core.specs.Style.{is_style, AreStyles};
ghost use Rattle.treasury_state.specs.Rows.{unit_row, unit_rows};
ghost use Rattle.treasury_rows.specs.Drafted.{IsReading};

use super::number::{damage, is_number, read_mark, read_small, read_truth};
use money_core::{Cause, Copied, Declared, Style, Styles, is_style};
use std::alloc::Global;
use treasury_state::UnitRow;

/// The style of the commodity of that number.
fn read_style(nr: usize, row: &UnitRow) -> Result<Style, Cause>
    ensures reads { IsReading (λ (s : UnitStyle). (is_style s ≡ true) × (unit_row nr s ≡ row.now)) result }
    ensures style { IfOk result (λ s. is_style s ≡ true) }
{
    if !is_number(row.nr, nr) {
        return Err(Cause::Damaged);
    }
    let decimals = read_small(row.decimals)?;
    let mark = read_mark(row.mark.as_str())?;
    let grouped = read_truth(row.grouped)?;
    let left = read_truth(row.leftside)?;
    let spaced = read_truth(row.spaced)?;
    let symbol = row.symbol.copy()?;
    let style = Style {
        symbol,
        left,
        spaced,
        mark,
        decimals,
        grouped,
    };
    if !is_style(&style) {
        return Err(Cause::Damaged);
    }
    Ok(style)
}

/// Declares the style with the next number.
fn declare_next(styles: &mut Styles, style: Style) -> Result<(), Cause>
    requires { is_style style ≡ true }
    ensures ok { OnOk result (styles.new ≡ styles.old ++ style ∷ []) }
    ensures err { IfErr result (λ e.
        (e ≡ Cause.OutOfMemory) ⊎ ((e ≡ Cause.Damaged) × (AreStyles (styles.old ++ style ∷ []) → ⊥))) }
{
    match styles.declare(style) {
        Ok(Declared::New(_)) => Ok(()),
        Ok(Declared::Same(_)) => Err(Cause::Damaged),
        Err(cause) => Err(damage(cause)),
    }
}

/// The styles of the commodities, in order of their numbers.
pub(super) fn read_styles(alloc: Global, rows: &[UnitRow]) -> Result<Styles, Cause>
    ensures { IsReading (λ (ss : List UnitStyle). AreStyles ss × (unit_rows ss ≡ rows.now)) result }
{
    let mut styles = Styles::empty(alloc);
    'unit: for row in rows {
        let style = read_style(styles.len(), row)?;
        declare_next(&mut styles, style)?;
    }
    Ok(styles)
}
