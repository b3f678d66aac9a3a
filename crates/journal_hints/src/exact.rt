//! The exact product of a unit cost, which has too many decimals to be booked.

ghost use Rattle.std.specs.Prelude.{◌≡◌, ◌≤◌, ◌++◌, [], ◌∷◌, true, find, drop, OnOk};
ghost use Rattle.std.specs.List.{list_all};
ghost use Rattle.money_core.specs.AmountText.{printed_symbol};
ghost use Rattle.money_core.specs.NumberText.{WritesQuantity};
ghost use Rattle.money_core.specs.Printed.{places};
ghost use Rattle.journal_format.specs.Printable.{is_posting};
ghost use Rattle.treasury_messages.specs.Said.{says};
ghost use Rattle.journal_hints.specs.ExactProduct.{without_zeros, exact_number, exact_amount};
ghost use Rattle.journal_hints.specs.ExactProduct.{product_said, is_inexact, inexact_said};

use journal_balance::cost_fault_of;
use journal_format::Posting;
use money_core::{Cause, Mark, Price, Style, Styles, is_bare};
use treasury_messages::Piece::{Text, Words};
use treasury_messages::{Done, MessageKind, Messages, say};

/// The greatest number of decimals of a product: those of an amount, and those of its unit cost.
const MAX_PLACES: u8 = 18;

/// Appends the last digits of a number, so many.
fn push_places(number: u128, count: u8, out: &mut Vec<u8>) -> Done
    ensures { OnOk result (out.new.items ≡ out.old.items ++ places count number) }
{
    if count == 0 {
        return Ok(());
    }
    push_places(number / 10, count - 1, out)?;
    out.push(b'0' + (number % 10) as u8)?;
    Ok(())
}

/// Appends the last digits of a number, so many, without the zeros at their end.
fn push_decimals(number: u128, count: u8, out: &mut Vec<u8>) -> Done
    ensures { OnOk result (out.new.items ≡ out.old.items ++ without_zeros (places count number)) }
{
    if count == 0 {
        return Ok(());
    }
    let last = number % 10;
    if last == 0 {
        return push_decimals(number / 10, count - 1, out);
    }
    push_places(number, count, out)
}

/// Appends a number whose last digits, so many, are decimals, without zeros at the end of these.
fn push_number(number: u128, decimals: u8, mark: Mark, out: &mut Vec<u8>) -> Done
    requires { decimals ≤ MAX_PLACES }
    ensures value { OnOk result (out.new.items ≡ out.old.items ++ exact_number mark decimals number) }
    // What is appended reads as that number.
    ensures reads { OnOk result (WritesQuantity mark decimals number (exact_number mark decimals number)) }
{
    let below = 10u128.pow(u32::from(decimals));
    let whole = number / below;
    let digits = format!(in *out.allocator(); "{whole}")?;
    out.extend_from_slice(digits.as_bytes())?;
    out.push(mark.decimal())?;
    push_decimals(number % below, decimals, out)
}

/// Appends a symbol, in quotes where it could not stand without.
#[tactic(auto, unfolding(money_core::specs::AmountText::printed_symbol))]
fn push_symbol(symbol: &[u8], out: &mut Vec<u8>) -> Done
    ensures { OnOk result (out.new.items ≡ out.old.items ++ printed_symbol symbol.now) }
{
    let quote: &'static [u8] = if is_bare(symbol) { b"" } else { b"\"" };
    out.extend_from_slice(quote)?;
    out.extend_from_slice(symbol)?;
    out.extend_from_slice(quote)?;
    Ok(())
}

/// Appends such a number of a commodity, in its style.
#[tactic(auto, unfolding(crate::specs::ExactProduct::exact_amount))]
fn push_product(product: u128, decimals: u8, style: &Style, out: &mut Vec<u8>) -> Done
    requires { decimals ≤ MAX_PLACES }
    ensures { OnOk result (out.new.items ≡ out.old.items ++ exact_amount style.now decimals product) }
{
    let symbol = style.symbol.as_str().as_bytes();
    let gap: &'static [u8] = if style.spaced { b" " } else { b"" };
    if style.left {
        push_symbol(symbol, out)?;
        out.extend_from_slice(gap)?;
        push_number(product, decimals, style.mark, out)
    } else {
        push_number(product, decimals, style.mark, out)?;
        out.extend_from_slice(gap)?;
        push_symbol(symbol, out)
    }
}

/// Says the product of an amount and its unit cost, which has so many decimals, in its style.
fn say_product(product: u128, decimals: u8, style: &Style, out: &mut Messages) -> Done
    requires { decimals ≤ MAX_PLACES }
    ensures { OnOk result (out.new.items
        ≡ out.old.items ++ says MessageKind.Product (exact_amount style.now decimals product ∷ []) ∷ []) }
{
    let mut text = Vec::new(*out.allocator());
    push_product(product, decimals, style, &mut text)?;
    let pieces = [
        Words(b"product: "),
        Text(text.as_slice()),
        Words(b"; write the total cost, rounded as you choose, after @@"),
    ];
    say(MessageKind::Product, &pieces, out)
}

/// Says the product of a posting's amount and its unit cost, if it has both.
fn say_posting(styles: &Styles, posting: &Posting, out: &mut Messages) -> Done
    requires { is_posting styles.now posting.now ≡ true }
    ensures { OnOk result (out.new.items
        ≡ out.old.items ++ product_said styles.now posting.now.amount posting.now.price) }
{
    styles.are_styles();
    let (Some((unit, qty)), Some(price)) = (posting.amount, posting.price) else {
        return Ok(())
    };
    let Price::Each {
        unit: cost,
        digits,
        decimals,
    } = price
    else {
        return Ok(())
    };
    let own = styles.style(unit).unwrap();
    let style = styles.style(cost).unwrap();
    let product = u128::from(qty.unsigned_abs()) * u128::from(digits);
    say_product(product, own.decimals + decimals, style, out)
}

/// Whether the cost of a posting is not exact.
fn is_inexact(styles: &Styles, posting: &Posting) -> bool
    requires { is_posting styles.now posting.now ≡ true }
    ensures { result ≡ is_inexact styles.now posting.now }
{
    matches!(cost_fault_of(posting, styles), Some(Cause::CostNotExact))
}

/// Says the exact product of the first unit cost of a transaction's postings that is not exact.
pub fn say_exact(styles: &Styles, postings: &[Posting], out: &mut Messages) -> Done
    requires { list_all (is_posting styles.now) postings.now ≡ true }
    ensures { OnOk result (out.new.items ≡ out.old.items ++ inexact_said styles.now postings.now) }
{
    for posting in postings {
        if is_inexact(styles, posting) {
            return say_posting(styles, posting, out);
        }
    }
    Ok(())
}
