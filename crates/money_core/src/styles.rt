//! The declared commodities of a federation, with their styles.

ghost use Rattle.std.specs.Prelude.{◌≡◌, ℕ, List, [], ◌∷◌, ◌++◌, ◌<◌, ◌≤◌, ◌⊎◌, true, position, slice_get, length};
ghost use Rattle.std.specs.Option.{option_copied, option_map};
ghost use Rattle.std.specs.Str.{bytes_eq};
ghost use Rattle.money_core.specs.Amount.{place_of};
ghost use Rattle.money_core.specs.Style.{is_style, style_eq, declared_with, declared, styles_after, AreStyles, unit_of};

use crate::cause::Cause;
use crate::style::Style;
use crate::unit::{Declared, Unit};
use std::alloc::Global;
use std::marker::Model;

/// The greatest number of commodities.
pub const MAX_COMMODITIES: usize = 16;

/// The styles of the declared commodities, in order of declaration.
#[derive(Debug, Drop)]
pub struct Styles {
    list: Vec<Style>,
}

impl Model for Styles {
    ghost use Rattle.std.specs.Prelude.{List};
    ghost use Rattle.money_core.specs.declared.style.Style.{Style};
    ghost use Rattle.money_core.specs.Style.{AreStyles};

    ghost Value = { List Style };

    ghost view = { λ s. s.list.items };

    ghost invariant = { λ s. AreStyles s.list.items };
}

/// Where the style of that symbol stands.
fn place_of(styles: &[Style], symbol: &[u8]) -> Option<usize>
    ensures { result ≡ place_of styles.now symbol.now }
{
    styles
        .iter()
        .position(|style| style.symbol.as_str().as_bytes() == symbol)
}

/// Whether two styles are the same.
fn is_same(held: &Style, style: &Style) -> bool
    ensures { result ≡ style_eq held.now style.now }
{
    held.symbol.as_str().as_bytes() == style.symbol.as_str().as_bytes()
        && held.mark == style.mark
        && held.decimals == style.decimals
        && held.left == style.left
        && held.spaced == style.spaced
        && held.grouped == style.grouped
}

/// The answer where the symbol is declared with the style that is held.
fn declared_with(held: &Style, style: &Style, unit: Unit) -> Result<Declared, Cause>
    ensures { result ≡ declared_with style.now unit.0 (Some held.now) }
{
    if is_same(held, style) {
        Ok(Declared::Same(unit))
    } else {
        Err(Cause::CommodityExists)
    }
}

impl Styles {
    /// No commodity.
    pub fn empty(alloc: Global) -> Self
        ensures { result ≡ [] }
    {
        Styles {
            list: Vec::new(alloc),
        }
    }

    /// How many commodities are declared: at most 16.
    pub fn len(&self) -> usize
        ensures count { result ≡ length self.now }
        ensures few { result ≤ MAX_COMMODITIES }
    {
        self.list.len()
    }

    /// The commodity of a symbol, which is given without quotes.
    pub fn find(&self, symbol: &str) -> Option<Unit>
        ensures { result ≡ unit_of self.now symbol.now }
    {
        self.find_bytes(symbol.as_bytes())
    }

    /// The same, of bytes.
    pub(crate) fn find_bytes(&self, symbol: &[u8]) -> Option<Unit>
        ensures { result ≡ unit_of self.now symbol.now }
    {
        match place_of(self.list.as_slice(), symbol) {
            Some(place) => Some(Unit(place as u16)),
            None => None,
        }
    }

    /// The style of a commodity.
    pub fn style(&self, unit: Unit) -> Option<&Style>
        ensures { option_copied result ≡ slice_get self.now unit.0 }
    {
        self.list.get(unit.0 as usize)
    }

    /// What the declaration of a style is answered, memory aside: `Same` where an equal style is held, 22 where another
    /// style of the symbol is held, 23 at sixteen commodities; else `New` with the next number.
    pub fn judge(&self, style: &Style) -> Result<Declared, Cause>
        ensures { result ≡ declared self.now style.now }
    {
        match place_of(self.list.as_slice(), style.symbol.as_str().as_bytes()) {
            Some(place) => declared_with(&self.list[place], style, Unit(place as u16)),
            None => {
                let count = self.list.len();
                if count >= MAX_COMMODITIES {
                    return Err(Cause::Full);
                }
                Ok(Declared::New(Unit(count as u16)))
            }
        }
    }

    /// Declares a commodity by its style, which has to be one that a sample has, as `judge` answers.
    ///
    /// Where memory is refused (40), the styles stay as they are, and the style is lost.
    pub fn declare(&mut self, style: Style) -> Result<Declared, Cause>
        requires { is_style style ≡ true }
        ensures answer { (result ≡ declared self.old style) ⊎ (result ≡ Err Cause.OutOfMemory) }
        ensures kept { self.new ≡ styles_after self.old style result }
    {
        match self.judge(&style) {
            Ok(Declared::New(unit)) => {
                self.list.push(style)?;
                Ok(Declared::New(unit))
            }
            Ok(Declared::Same(unit)) => Ok(Declared::Same(unit)),
            Err(cause) => Err(cause),
        }
    }

    /// The styles are ones that samples have, and each is found by its symbol.
    pub fn are_styles(&self)
        ensures { AreStyles self.now }
    {
        let _ = &self.list;
    }
}
