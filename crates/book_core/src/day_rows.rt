//! Running sums by day: an entry opens its day and number in the rows of its accounts, which changes no sum, and then
//! raises them.

ghost use Rattle.std.specs.Prelude.{◌≡◌, OnOk, ℕ, List};
ghost use Rattle.day_sums.specs.declared.period.Period.{Period as Span};
ghost use Rattle.day_sums.specs.Sums.{SameSums, IsSmall, period_sum};
ghost use Rattle.book_core.specs.declared.account.Reach.TheVariants.{Inside};
ghost use Rattle.book_core.specs.DayRows.{IsOpen, AreOpen, Raised, AreRaised, HasRoomFor};

use crate::account::Reach;
use crate::leg::Leg;
use day_sums::DaySums;
use money_core::{Cause, Day, Unit};

/// Opens the day's number in the rows of an account and of those above it.
fn open_fronts(
    rows: &mut DaySums,
    account: &[u8],
    unit: Unit,
    day: Day,
    number: u32,
) -> Result<(), Cause>
    ensures same { SameSums rows.old rows.new }
    ensures open { OnOk result (IsOpen Inside rows.new account.now unit day number) }
{
    for i in 0..account.len() {
        if account[i] == b':' {
            rows.open_row(&account[..i], unit, day, number)?;
        }
    }
    rows.open_row(account, unit, day, number)
}

/// Opens the day's number in the rows of the accounts whose balance takes in the account.
fn open_account(
    rows: &mut DaySums,
    reach: Reach,
    account: &[u8],
    unit: Unit,
    day: Day,
    number: u32,
) -> Result<(), Cause>
    ensures same { SameSums rows.old rows.new }
    ensures open { OnOk result (IsOpen reach rows.new account.now unit day number) }
{
    match reach {
        Reach::Own => rows.open_row(account, unit, day, number),
        Reach::Inside => open_fronts(rows, account, unit, day, number),
    }
}

/// Opens the day's number in the rows of the accounts whose balance takes in one of the legs.
pub fn open_legs(
    rows: &mut DaySums,
    reach: Reach,
    legs: &[Leg],
    day: Day,
    number: u32,
) -> Result<(), Cause>
    ensures same { SameSums rows.old rows.new }
    ensures open { OnOk result (AreOpen reach rows.new legs.now day number) }
{
    for leg in legs {
        open_account(
            rows,
            reach,
            leg.account.as_str().as_bytes(),
            leg.unit,
            day,
            number,
        )?;
    }
    Ok(())
}

/// Adds to the sums of an account and of those above it from the day's number on, which is open there.
fn raise_fronts(rows: &mut DaySums, account: &[u8], unit: Unit, day: Day, number: u32, qty: i64)
    requires open { IsOpen Inside rows.old account.now unit day number }
    requires small { (a : List ℕ) (p : Span) → IsSmall (period_sum rows.old a unit p) }
    requires qty { IsSmall qty }
    ensures { Raised Inside account.now unit day number qty rows.old rows.new }
{
    for i in 0..account.len() {
        if account[i] == b':' {
            rows.raise_row(&account[..i], unit, day, number, qty);
        }
    }
    rows.raise_row(account, unit, day, number, qty);
}

/// Adds to the sums of the accounts whose balance takes in the account, from the day's number on, which is open there.
fn raise_account(
    rows: &mut DaySums,
    reach: Reach,
    account: &[u8],
    unit: Unit,
    day: Day,
    number: u32,
    qty: i64,
)
    requires open { IsOpen reach rows.old account.now unit day number }
    requires small { (a : List ℕ) (p : Span) → IsSmall (period_sum rows.old a unit p) }
    requires qty { IsSmall qty }
    ensures { Raised reach account.now unit day number qty rows.old rows.new }
{
    match reach {
        Reach::Own => rows.raise_row(account, unit, day, number, qty),
        Reach::Inside => raise_fronts(rows, account, unit, day, number, qty),
    }
}

/// Adds the legs to the sums of the accounts whose balance takes them in, from the day's number on, which is open
/// there.
pub fn raise_legs(rows: &mut DaySums, reach: Reach, legs: &[Leg], day: Day, number: u32)
    requires open { AreOpen reach rows.old legs.now day number }
    requires room { HasRoomFor rows.old legs.now }
    ensures { AreRaised reach legs.now day number rows.old rows.new }
{
    for leg in legs {
        raise_account(
            rows,
            reach,
            leg.account.as_str().as_bytes(),
            leg.unit,
            day,
            number,
            leg.qty,
        );
    }
}
