//! Numbers printed.

ghost use Rattle.std.specs.Prelude.{◌≡◌, ◌+◌, ◌*◌, ◌-◌, ◌^◌, ◌<◌, ◌≤◌, [], ◌∷◌, ◌++◌, take, length, OnOk, OnErr};
ghost use Rattle.std.specs.Prelude.{decimal};
ghost use Rattle.money_core.specs.Mark.{decimal_byte, group_byte};
ghost use Rattle.money_core.specs.NumberText.{WritesQuantity};
ghost use Rattle.money_core.specs.Printed.{places, grouped, printed_whole, printed_fraction, printed_number};

use crate::mark::Mark;
use crate::price::MAX_COST_DECIMALS;
use crate::style::MAX_DECIMALS;
use std::alloc::{AllocError, Global};

/// Appends the number in decimal.
fn push_decimal(alloc: Global, out: &mut Vec<u8>, n: u64) -> Result<(), AllocError>
    ensures ok { OnOk result (out.new.items ≡ out.old.items ++ decimal n) }
    ensures err { OnErr result (take (length out.old.items) out.new.items ≡ out.old.items) }
{
    let text = n.to_string(alloc)?;
    out.extend_from_slice(text.as_bytes())
}

/// Appends the last digits of the number, so many.
fn push_places(out: &mut Vec<u8>, n: u64, count: u8) -> Result<(), AllocError>
    ensures ok { OnOk result (out.new.items ≡ out.old.items ++ places count n) }
    ensures err { OnErr result (take (length out.old.items) out.new.items ≡ out.old.items) }
{
    if count == 0 {
        return Ok(());
    }
    push_places(out, n / 10, count - 1)?;
    out.push(b'0' + (n % 10) as u8)?;
    Ok(())
}

/// Appends the number in groups of three digits.
fn push_grouped(alloc: Global, out: &mut Vec<u8>, n: u64, group: u8) -> Result<(), AllocError>
    ensures ok { OnOk result (out.new.items ≡ out.old.items ++ grouped group n) }
    ensures err { OnErr result (take (length out.old.items) out.new.items ≡ out.old.items) }
{
    if n < 1000 {
        return push_decimal(alloc, out, n);
    }
    push_grouped(alloc, out, n / 1000, group)?;
    out.push(group)?;
    push_places(out, n % 1000, 3)?;
    Ok(())
}

/// Appends the whole part of a number.
fn push_whole(
    alloc: Global,
    out: &mut Vec<u8>,
    n: u64,
    mark: Mark,
    groups: bool,
) -> Result<(), AllocError>
    ensures ok { OnOk result (out.new.items ≡ out.old.items ++ printed_whole mark groups n) }
    ensures err { OnErr result (take (length out.old.items) out.new.items ≡ out.old.items) }
{
    if groups {
        push_grouped(alloc, out, n, mark.group())
    } else {
        push_decimal(alloc, out, n)
    }
}

/// Appends what follows the whole part.
fn push_fraction(
    out: &mut Vec<u8>,
    quantity: u64,
    mark: Mark,
    groups: bool,
    decimals: u8,
) -> Result<(), AllocError>
    requires { decimals ≤ MAX_COST_DECIMALS }
    ensures ok { OnOk result (out.new.items ≡ out.old.items ++ printed_fraction mark groups decimals quantity) }
    ensures err { OnErr result (take (length out.old.items) out.new.items ≡ out.old.items) }
{
    if decimals == 0 {
        if groups && quantity >= 1000 {
            out.push(mark.decimal())?;
        }
        return Ok(());
    }
    out.push(mark.decimal())?;
    push_places(out, quantity % power_of_ten(decimals), decimals)
}

/// The greatest power of ten that is needed: the decimals of an amount and those of its unit cost.
pub const MAX_EXPONENT: u8 = MAX_DECIMALS + MAX_COST_DECIMALS;

/// The power of ten.
pub fn power_of_ten(exponent: u8) -> u64
    requires { exponent ≤ MAX_EXPONENT }
    ensures value { result ≡ 10 ^ exponent }
    ensures some { 0 < result }
{
    10u64.pow(u32::from(exponent))
}

/// Appends the quantity of smallest units as a number.
fn push_number(
    alloc: Global,
    out: &mut Vec<u8>,
    quantity: u64,
    mark: Mark,
    groups: bool,
    decimals: u8,
) -> Result<(), AllocError>
    requires { decimals ≤ MAX_COST_DECIMALS }
    ensures ok { OnOk result (out.new.items ≡ out.old.items ++ printed_number mark groups decimals quantity) }
    ensures err { OnErr result (take (length out.old.items) out.new.items ≡ out.old.items) }
{
    push_whole(alloc, out, quantity / power_of_ten(decimals), mark, groups)?;
    push_fraction(out, quantity, mark, groups, decimals)?;
    Ok(())
}

/// Appends the number; where memory is refused, the vector is as it was.
pub fn print_number(
    alloc: Global,
    out: &mut Vec<u8>,
    quantity: u64,
    mark: Mark,
    groups: bool,
    decimals: u8,
) -> Result<(), AllocError>
    requires { decimals ≤ MAX_COST_DECIMALS }
    ensures ok { OnOk result (out.new.items ≡ out.old.items ++ printed_number mark groups decimals quantity) }
    // What is appended reads as the quantity.
    ensures again { WritesQuantity mark decimals quantity (printed_number mark groups decimals quantity) }
    ensures err { OnErr result (out.new.items ≡ out.old.items) }
{
    let before = out.len();
    let done = push_number(alloc, out, quantity, mark, groups, decimals);
    if done.is_err() {
        out.truncate(before);
    }
    done
}
