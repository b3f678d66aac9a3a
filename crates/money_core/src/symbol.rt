//! The symbols of commodities, bare and in quotes.

ghost use Rattle.std.specs.Prelude.{◌≡◌, ◌↔◌, ℕ, List, Some, ◌==◌, ◌-◌, ◌<◌, ◌&&◌, not, true, drop, take, length};
ghost use Rattle.std.specs.Prelude.{position, slice_index};
ghost use Rattle.std.specs.List.{list_all, list_any};
ghost use Rattle.std.specs.Char.{is_whitespace};
ghost use Rattle.std.specs.Str.{chars, is_utf8};
ghost use Rattle.std.specs.Option.{option_map};
ghost use Rattle.money_core.specs.declared.class.Class.TheVariants.{Symbol as OfSymbol};
ghost use Rattle.money_core.specs.Class.{is_of_class};
ghost use Rattle.money_core.specs.Symbol.{is_short_symbol, is_dense, is_bare, is_quoted_byte, no_double};
ghost use Rattle.money_core.specs.Symbol.{has_no_outer_space};
ghost use Rattle.money_core.specs.Symbol.{is_symbol, WritesSymbol};
ghost use Rattle.money_core.specs.Cutting.{cut_quoted, cut_bare, cut_symbol, symbol_in_text};
ghost use Rattle.money_core.specs.NamePart.{SymbolsAreNameParts};
ghost use Rattle.money_core.specs.Views.{cut_view};

use crate::bytes::{behind, find, first_byte, last_byte};
use crate::class::{Class, end_of};
use crate::text::text_of;

/// The greatest length of a symbol, in bytes.
pub const MAX_SYMBOL_LEN: usize = 24;

/// Whether it has some bytes, and not too many.
fn is_short(symbol: &[u8]) -> bool
    ensures { result ≡ is_short_symbol symbol.now }
{
    0 < symbol.len() && symbol.len() <= MAX_SYMBOL_LEN
}

/// Whether a character of the text is white space.
fn has_white_space(text: &str) -> bool
    ensures { result ≡ list_any is_whitespace (chars text.now) }
{
    text.chars().any(|c| c.is_whitespace())
}

/// Whether the bytes are a text.
fn is_utf8(bytes: &[u8]) -> bool
    ensures { result ≡ is_utf8 bytes.now }
{
    match std::str::from_utf8(bytes) {
        Ok(_) => true,
        Err(_) => false,
    }
}

/// Whether the bytes are a text without white space.
fn is_dense(bytes: &[u8]) -> bool
    ensures { result ≡ is_dense bytes.now }
{
    match std::str::from_utf8(bytes) {
        Ok(text) => !has_white_space(text),
        Err(_) => false,
    }
}

/// Whether each byte may stand in a symbol without quotes.
fn has_symbol_bytes(symbol: &[u8]) -> bool
    ensures { result ≡ list_all (is_of_class OfSymbol) symbol.now }
{
    symbol.iter().all(|b| Class::Symbol.has(*b))
}

/// Whether the symbol can stand without quotes.
pub fn is_bare(symbol: &[u8]) -> bool
    ensures { result ≡ is_bare symbol.now }
{
    is_short(symbol) && has_symbol_bytes(symbol) && is_dense(symbol)
}

/// Whether the byte may stand in quotes.
fn is_quoted_byte(byte: u8) -> bool
    ensures { result ≡ is_quoted_byte byte }
{
    32 <= byte && byte != 127 && byte != b'"' && byte != b':' && byte != b';'
}

/// Whether each byte may stand in quotes.
fn has_quoted_bytes(symbol: &[u8]) -> bool
    ensures { result ≡ list_all is_quoted_byte symbol.now }
{
    symbol.iter().all(|b| is_quoted_byte(*b))
}

/// Whether no two spaces stand together.
fn no_double(text: &[u8]) -> bool
    ensures { result ≡ no_double text.now }
{
    let mut after_space = false;
    for byte in text {
        if after_space && *byte == b' ' {
            return false;
        }
        after_space = *byte == b' ';
    }
    true
}

/// Whether no space stands at an end.
fn has_no_outer_space(symbol: &[u8]) -> bool
    ensures { result ≡ has_no_outer_space symbol.now }
{
    first_byte(symbol) != b' ' && last_byte(symbol) != b' '
}

/// Whether the bytes are a symbol: whether they can stand in quotes.
pub fn is_symbol(symbol: &[u8]) -> bool
    ensures { result ≡ is_symbol symbol.now }
{
    is_short(symbol)
        && is_utf8(symbol)
        && has_quoted_bytes(symbol)
        && no_double(symbol)
        && has_no_outer_space(symbol)
}

/// A symbol without its quotes, and what follows it.
#[derive(Clone, Copy)]
pub struct Cut<'a> {
    pub symbol: &'a [u8],
    pub rest: &'a [u8],
}

fn cut_bare(text: &[u8]) -> Option<Cut<'_>>
    ensures { option_map cut_view result ≡ cut_bare text.now }
{
    let end = end_of(text, Class::Symbol);
    let symbol = &text[..end];
    if is_bare(symbol) {
        Some(Cut {
            symbol,
            rest: behind(text, end),
        })
    } else {
        None
    }
}

fn cut_quoted(text: &[u8]) -> Option<Cut<'_>>
    ensures { option_map cut_view result ≡ cut_quoted text.now }
{
    match find(text, b'"') {
        None => None,
        Some(end) => {
            let symbol = &text[..end];
            if is_symbol(symbol) {
                Some(Cut {
                    symbol,
                    rest: behind(text, end + 1),
                })
            } else {
                None
            }
        }
    }
}

/// The symbol at the front of the text, with its quotes or without.
#[tactic(auto, unfolding(crate::specs::Cutting::cut_symbol))]
pub fn cut_symbol(text: &[u8]) -> Option<Cut<'_>>
    ensures { option_map cut_view result ≡ cut_symbol text.now }
{
    if first_byte(text) == b'"' {
        cut_quoted(behind(text, 1))
    } else {
        cut_bare(text)
    }
}

/// The symbol that the whole text is.
#[tactic(auto, unfolding(crate::specs::Cutting::symbol_in_text))]
fn symbol_of(text: &[u8]) -> Option<&[u8]>
    ensures { option_map (λ s. s.now) result ≡ symbol_in_text text.now }
{
    let cut = cut_symbol(text)?;
    if cut.rest.is_empty() {
        Some(cut.symbol)
    } else {
        None
    }
}

/// The symbol that the whole text writes, bare or in quotes, without its quotes (hledger manual, "Commodity").
pub fn read_symbol(text: &str) -> Option<&str>
    ensures reads { (symbol : List ℕ) → (option_map (λ s. s.now) result ≡ Some symbol) ↔ WritesSymbol symbol text.now }

    // The same by a function, for laws.
    ensures answer { option_map (λ s. s.now) result ≡ symbol_in_text text.now }
{
    match symbol_of(text.as_bytes()) {
        Some(symbol) => Some(text_of(symbol)),
        None => None,
    }
}

/// Each symbol can stand in an account name, as in those of conversion accounts, between bytes that are no spaces.
pub fn name_part_law()
    ensures { SymbolsAreNameParts }
{}
