//! Costs of amounts, exact.

ghost use Rattle.std.specs.Prelude.{◌≡◌, ◌≤◌, ◌*◌, ◌^◌, true, unsigned_abs, IfOk};
ghost use Rattle.money_core.specs.AmountText.{IsDeclared};
ghost use Rattle.money_core.specs.Price.{is_price};
ghost use Rattle.money_core.specs.Cost.{signed_as, exact, cost};

use crate::cause::Cause;
use crate::number::LIMIT;
use crate::price::{Price, UNIT_LIMIT};
use crate::printing::{MAX_EXPONENT, power_of_ten};
use crate::styles::Styles;
use crate::unit::Unit;

/// The number with the sign of the quantity, and 0 for the quantity 0.
fn signed_as(quantity: i64, n: u64) -> i64
    requires { n ≤ LIMIT }
    ensures value { result ≡ signed_as quantity n }
    ensures bound { unsigned_abs result ≤ LIMIT }
{
    if quantity == 0 {
        0
    } else if quantity < 0 {
        -(n as i64)
    } else {
        n as i64
    }
}

/// The quantity times the digits, the last of them so many decimals, as a whole number.
#[tactic(auto, unfolding(crate::specs::Cost::exact))]
fn product(quantity: i64, digits: u64, decimals: u8) -> Result<i64, Cause>
    requires quantity { unsigned_abs quantity ≤ LIMIT }
    requires digits { digits ≤ UNIT_LIMIT }
    requires decimals { decimals ≤ MAX_EXPONENT }
    ensures value { result ≡ exact quantity (unsigned_abs quantity * digits) (10 ^ decimals) }
    ensures bound { IfOk result (λ cost. unsigned_abs cost ≤ LIMIT) }
{
    let above = u128::from(quantity.unsigned_abs()) * u128::from(digits);
    let below = u128::from(power_of_ten(decimals));
    if u128::from(LIMIT) * below < above {
        return Err(Cause::Cost);
    }
    if above % below != 0 {
        return Err(Cause::CostNotExact);
    }
    Ok(signed_as(quantity, (above / below) as u64))
}

/// What the quantity of the commodity costs at the price, in smallest units, with the sign of the quantity: at most
/// 10^16 with either sign.
///
/// It is refused with 12 where the cost is in the commodity itself or over 10^16, and then with 13 where it is no whole
/// number of smallest units.
pub fn cost_of(qty: i64, unit: Unit, price: &Price, styles: &Styles) -> Result<i64, Cause>
    requires amount { IsDeclared styles.now unit qty }
    requires price { is_price styles.now price.now ≡ true }
    ensures value { result ≡ cost styles.now qty unit price.now }
    ensures bound { IfOk result (λ units. unsigned_abs units ≤ LIMIT) }
{
    styles.are_styles();
    if unit.0 == price.unit().0 {
        return Err(Cause::Cost);
    }
    let own = styles.style(unit).unwrap();
    let style = styles.style(price.unit()).unwrap();
    match *price {
        Price::Total { quantity, .. } => Ok(signed_as(qty, quantity)),
        Price::Each {
            digits,
            decimals,
            ..
        } => product(qty, digits, own.decimals + decimals - style.decimals),
    }
}
