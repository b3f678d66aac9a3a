//! What postings are worth (hledger manual, "Costs").

ghost use Rattle.std.specs.Prelude.{◌≡◌, ℤ, Option, true};
ghost use Rattle.std.specs.List.{list_all};
ghost use Rattle.journal_format.specs.Printable.{is_posting};
ghost use Rattle.money_core.specs.AmountText.{IsDeclared};
ghost use Rattle.money_core.specs.Price.{is_price};
ghost use Rattle.money_core.specs.Cost.{cost};
ghost use Rattle.journal_balance.specs.Legs.{in_unit, cost_value, value_of, sum_of, cost_fault_of, cost_fault};

use journal_format::Posting;
use money_core::{Cause, Price, Styles, Unit, cost_of};

/// The quantity in its own commodity, and 0 in every other.
fn in_unit(unit: Unit, own: Unit, qty: i64) -> i64
    ensures { result ≡ in_unit unit own qty }
{
    if own.0 == unit.0 { qty } else { 0 }
}

/// What a quantity of a commodity costs, or 0 where the cost has a fault.
pub(crate) fn cost_value(qty: i64, unit: Unit, price: &Price, styles: &Styles) -> i64
    requires amount { IsDeclared styles.now unit qty }
    requires price { is_price styles.now price.now ≡ true }
    ensures { result ≡ cost_value (cost styles.now qty unit price.now) }
{
    match cost_of(qty, unit, price, styles) {
        Ok(cost) => cost,
        Err(_) => 0,
    }
}

/// The value of a posting in a commodity, in its smallest units.
fn value_of(posting: &Posting, unit: Unit, styles: &Styles) -> i64
    requires { is_posting styles.now posting.now ≡ true }
    ensures { result ≡ value_of styles.now unit posting.now.amount posting.now.price }
{
    let Some((own, qty)) = posting.amount else {
        return 0;
    };
    match posting.price {
        Some(price) => in_unit(unit, price.unit(), cost_value(qty, own, &price, styles)),
        None => in_unit(unit, own, qty),
    }
}

/// The sum of the values of postings in a commodity, in its smallest units.
pub fn sum_of(postings: &[Posting], unit: Unit, styles: &Styles) -> i128
    requires { list_all (is_posting styles.now) postings.now ≡ true }
    ensures { result ≡ sum_of styles.now unit postings.now }
{
    let mut sum: i128 = 0;
    for posting in postings {
        let value = value_of(posting, unit, styles);
        sum += i128::from(value);
    }
    sum
}

/// The fault of a posting's cost, if it has one.
pub fn cost_fault_of(posting: &Posting, styles: &Styles) -> Option<Cause>
    requires { is_posting styles.now posting.now ≡ true }
    ensures { result ≡ cost_fault_of styles.now posting.now.amount posting.now.price }
{
    let (Some((unit, qty)), Some(price)) = (posting.amount, posting.price) else {
        return None;
    };
    match cost_of(qty, unit, &price, styles) {
        Ok(_) => None,
        Err(cause) => Some(cause),
    }
}

/// The first fault of a cost, posting by posting.
pub(crate) fn cost_fault(postings: &[Posting], styles: &Styles) -> Option<Cause>
    requires { list_all (is_posting styles.now) postings.now ≡ true }
    ensures { result ≡ cost_fault styles.now postings.now }
{
    for posting in postings {
        if let Some(cause) = cost_fault_of(posting, styles) {
            return Some(cause);
        }
    }
    None
}
