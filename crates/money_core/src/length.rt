//! How long amounts and prices are as printed texts, in bytes, found without printing them.

ghost use Rattle.std.specs.Prelude.{◌≡◌, ◌+◌, ◌≤◌, ℕ, true, length, decimal, unsigned_abs};
ghost use Rattle.money_core.specs.declared.mark.Mark.{Mark as Separator};
ghost use Rattle.money_core.specs.Printed.{grouped, printed_whole, printed_fraction, printed_number};
ghost use Rattle.money_core.specs.Symbol.{is_symbol};
ghost use Rattle.money_core.specs.AmountText.{minus, gap, printed_symbol, printed_with, printed_in, IsDeclared};
ghost use Rattle.money_core.specs.Price.{is_cost, is_price};
ghost use Rattle.money_core.specs.PriceText.{printed_cost, printed_price};

use crate::number::LIMIT;
use crate::price::{MAX_COST_DECIMALS, Price};
use crate::printing::power_of_ten;
use crate::style::{MAX_DECIMALS, Style};
use crate::styles::Styles;
use crate::symbol::is_bare;
use crate::unit::Unit;

/// The greatest length of a printed amount, in bytes.
pub const MAX_AMOUNT_LEN: usize = 64;

/// The greatest length of a printed price, in bytes.
pub const MAX_PRICE_LEN: usize = 70;

/// How many digits the number has.
#[tactic(auto, using(crate::proofs::LengthLemmas::length_of_digit, crate::proofs::LengthLemmas::length_of_decimal))]
fn digits_len(n: u64) -> usize
    ensures value { result ≡ length (decimal n) }
    ensures bound { result ≤ n + 1 }
{
    if n < 10 { 1 } else { digits_len(n / 10) + 1 }
}

/// How long the number is in groups of three digits.
fn grouped_len(n: u64) -> usize
    ensures value { (group : ℕ) → result ≡ length (grouped group n) }
    ensures bound { result ≤ n + 3 }
{
    if n < 1000 {
        digits_len(n)
    } else {
        grouped_len(n / 1000) + 4
    }
}

/// How long the whole part of a number is.
fn whole_len(n: u64, groups: bool) -> usize
    ensures value { (mark : Separator) → result ≡ length (printed_whole mark groups n) }
    ensures bound { result ≤ n + 3 }
{
    if groups {
        grouped_len(n)
    } else {
        digits_len(n)
    }
}

/// How long it is what follows the whole part.
#[tactic(auto, using(crate::proofs::LengthLemmas::length_of_fraction))]
fn fraction_len(quantity: u64, groups: bool, decimals: u8) -> usize
    requires { decimals ≤ MAX_COST_DECIMALS }
    ensures value { (mark : Separator) → result ≡ length (printed_fraction mark groups decimals quantity) }
    ensures bound { result ≤ 13 }
{
    if decimals != 0 {
        decimals as usize + 1
    } else if groups && quantity >= 1000 {
        1
    } else {
        0
    }
}

/// How long the quantity of smallest units is as a number.
fn number_len(quantity: u64, groups: bool, decimals: u8) -> usize
    requires size { quantity ≤ LIMIT }
    requires few { decimals ≤ MAX_COST_DECIMALS }
    ensures value { (mark : Separator) → result ≡ length (printed_number mark groups decimals quantity) }
    ensures bound { result ≤ LIMIT + 16 }
{
    let whole = whole_len(quantity / power_of_ten(decimals), groups);
    whole + fraction_len(quantity, groups, decimals)
}

/// How long the symbol is, with its quotes where it could not stand without.
#[tactic(auto, unfolding(crate::specs::AmountText::printed_symbol))]
fn symbol_len(symbol: &[u8]) -> usize
    requires { is_symbol symbol.now ≡ true }
    ensures value { result ≡ length (printed_symbol symbol.now) }
    ensures bound { result ≤ 26 }
{
    if is_bare(symbol) {
        symbol.len()
    } else {
        symbol.len() + 2
    }
}

/// How long it is what stands between symbol and number.
fn gap_len(spaced: bool) -> usize
    ensures value { result ≡ length (gap spaced) }
    ensures bound { result ≤ 1 }
{
    if spaced { 1 } else { 0 }
}

/// How long the sign of the quantity is.
fn minus_len(quantity: i64) -> usize
    ensures value { result ≡ length (minus quantity) }
    ensures bound { result ≤ 1 }
{
    if quantity < 0 { 1 } else { 0 }
}

/// How long the amount of that quantity is, in units of so many decimals.
fn amount_len_with(style: &Style, decimals: u8, quantity: i64) -> usize
    requires symbol { is_symbol style.now.symbol ≡ true }
    requires few { decimals ≤ MAX_COST_DECIMALS }
    requires size { unsigned_abs quantity ≤ LIMIT }
    ensures value { result ≡ length (printed_with style.now decimals quantity) }
    ensures bound { result ≤ decimals + 53 }
{
    let symbol = symbol_len(style.symbol.as_str().as_bytes());
    let number = number_len(quantity.unsigned_abs(), style.grouped, decimals);
    symbol + gap_len(style.spaced) + minus_len(quantity) + number
}

/// How long the canonical text of the quantity is, in bytes: at most 64.
pub fn amount_len(unit: Unit, qty: i64, styles: &Styles) -> usize
    requires { IsDeclared styles.now unit qty }
    ensures value { result ≡ length (printed_in styles.now unit qty) }
    ensures short { result ≤ MAX_AMOUNT_LEN }
{
    styles.are_styles();
    let style = styles.style(unit).unwrap();
    amount_len_with(style, style.decimals, qty)
}

/// How long the cost is in that style.
fn cost_len(style: &Style, price: &Price) -> usize
    requires cost { is_cost (Some style.now) price.now ≡ true }
    requires symbol { is_symbol style.now.symbol ≡ true }
    requires few { style.now.decimals ≤ MAX_DECIMALS }
    ensures value { result ≡ length (printed_cost (Some style.now) price.now) }
    ensures bound { result ≤ MAX_PRICE_LEN }
{
    match *price {
        Price::Each {
            digits,
            decimals,
            ..
        } => 2 + amount_len_with(style, decimals, digits as i64),
        Price::Total { quantity, .. } => 3
            + amount_len_with(style, style.decimals, quantity as i64),
    }
}

/// How long the canonical text of the price is, from its `@` on, in bytes: at most 70.
pub fn price_len(price: &Price, styles: &Styles) -> usize
    requires { is_price styles.now price.now ≡ true }
    ensures value { result ≡ length (printed_price styles.now price.now) }
    ensures short { result ≤ MAX_PRICE_LEN }
{
    styles.are_styles();
    let style = styles.style(price.unit()).unwrap();
    cost_len(style, price)
}
