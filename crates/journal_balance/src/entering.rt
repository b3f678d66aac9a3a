//! The legs of postings, and the assertions on them.

ghost use Rattle.std.specs.Prelude.{◌≡◌, None, ◌++◌, ◌∷◌, ◌+◌, ◌<◌, [], true, false, length, OnOk, IfOk};
ghost use Rattle.std.specs.Result.{IsOkUnless};
ghost use Rattle.std.specs.List.{list_all, list_any};
ghost use Rattle.money_core.specs.AmountText.{IsDeclared};
ghost use Rattle.money_core.specs.Price.{is_price};
ghost use Rattle.journal_format.specs.Printable.{is_posting};
ghost use Rattle.journal_balance.specs.Conversion.{symbol_of, conversion_account};
ghost use Rattle.journal_balance.specs.Legs.{leg, conversion_legs, rest_legs, amount_legs, posting_legs, legs_among};
ghost use Rattle.journal_balance.specs.Legs.{placed, claims_among, is_large};

use crate::conversion::{conversion_accounts, is_less};
use crate::missing_amount::push_rest_legs;
use crate::value::cost_value;
use book_core::{Claim, Leg, Placed};
use journal_format::Posting;
use money_core::{Cause, Copied, Items, Price, Styles, Text, Unit};
use std::alloc::Global;

/// Adds a leg.
fn push_leg(legs: &mut Items<Leg>, account: Text, unit: Unit, qty: i64) -> Result<(), Cause>
    ensures ok { OnOk result (legs.new ≡ legs.old ++ leg account unit qty ∷ []) }
    ensures memory { IsOkUnless result Cause.OutOfMemory }
{
    legs.push(Leg { account, unit, qty })
}

/// The accounts of the two conversion legs of an exchange: of the commodity that is exchanged, then of the other.
fn accounts_of(alloc: Global, own: &str, other: &str) -> Result<(Text, Text), Cause>
    ensures own { IfOk result (λ names. names.0 ≡ conversion_account own.now other.now own.now) }
    ensures other { IfOk result (λ names. names.1 ≡ conversion_account own.now other.now other.now) }
    ensures memory { IsOkUnless result Cause.OutOfMemory }
{
    let (first, second) = conversion_accounts(alloc, own, other)?;
    if is_less(other, own) {
        Ok((second, first))
    } else {
        Ok((first, second))
    }
}

/// The symbol of a declared commodity, without quotes.
fn symbol_of<'a>(unit: Unit, styles: &'a Styles) -> &'a str
    requires { unit.0 < length styles.now }
    ensures { result.now ≡ symbol_of styles.now unit }
{
    styles.style(unit).unwrap().symbol.as_str()
}

/// Adds two legs. After 40 one of them may be added.
fn push_both(legs: &mut Items<Leg>, first: Leg, second: Leg) -> Result<(), Cause>
    ensures ok { OnOk result (legs.new ≡ legs.old ++ first ∷ second ∷ []) }
    ensures memory { IsOkUnless result Cause.OutOfMemory }
{
    legs.push(first)?;
    legs.push(second)
}

/// Adds the two conversion legs of an amount with a cost. After 40 one of them may be added.
fn push_conversion(
    alloc: Global,
    legs: &mut Items<Leg>,
    amount: (Unit, i64),
    price: &Price,
    styles: &Styles,
) -> Result<(), Cause>
    requires amount { IsDeclared styles.now amount.0 amount.1 }
    requires price { is_price styles.now price.now ≡ true }
    ensures ok { OnOk result (legs.new ≡ legs.old ++ conversion_legs styles.now amount price.now) }
    ensures memory { IsOkUnless result Cause.OutOfMemory }
{
    let (unit, qty) = amount;
    let own = symbol_of(unit, styles);
    let other = symbol_of(price.unit(), styles);
    let (own_account, other_account) = accounts_of(alloc, own, other)?;
    let exchanged = Leg {
        account: own_account,
        unit,
        qty: -qty,
    };
    let cost = Leg {
        account: other_account,
        unit: price.unit(),
        qty: cost_value(qty, unit, price, styles),
    };
    push_both(legs, exchanged, cost)
}

/// Adds the legs of a posting. After 40 some of them may be added.
pub(crate) fn push_posting(
    alloc: Global,
    legs: &mut Items<Leg>,
    posting: &Posting,
    postings: &[Posting],
    styles: &Styles,
) -> Result<(), Cause>
    requires posting { is_posting styles.now posting.now ≡ true }
    requires postings { list_all (is_posting styles.now) postings.now ≡ true }
    requires room { posting.now.amount ≡ None
        → list_any is_large (rest_legs styles.now posting.now.account postings.now) ≡ false }
    ensures ok { OnOk result (legs.new
        ≡ legs.old ++ posting_legs styles.now postings.now posting.now.account posting.now.amount posting.now.price) }
    ensures memory { IsOkUnless result Cause.OutOfMemory }
{
    let Some((unit, qty)) = posting.amount else {
        return push_rest_legs(legs, &posting.account, postings, styles);
    };
    let account = posting.account.copy()?;
    push_leg(legs, account, unit, qty)?;
    match posting.price {
        Some(price) => push_conversion(alloc, legs, (unit, qty), &price, styles),
        None => Ok(()),
    }
}

/// Adds an assertion on that leg, if there is one.
pub(crate) fn push_claim(
    claims: &mut Items<Placed>,
    leg: usize,
    claim: Option<Claim>,
) -> Result<(), Cause>
    ensures ok { OnOk result (claims.new ≡ claims.old ++ placed leg claim) }
    ensures memory { IsOkUnless result Cause.OutOfMemory }
{
    match claim {
        Some(claim) => claims.push(Placed { leg, claim }),
        None => Ok(()),
    }
}
