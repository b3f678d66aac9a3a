//! The legs that a register lists.

ghost use Rattle.std.specs.Prelude.{◌≡◌, [], ◌∷◌, ◌++◌, IfOk, OnOk, option_copied};
ghost use Rattle.std.specs.Result.{IsOkUnless};
ghost use Rattle.book_core.specs.Account.{is_inside};
ghost use Rattle.treasury_reports.specs.RegisterReport.{listed_leg, listed_legs, listed_in, listed_from, by_day};

use crate::asked::is_wanted;
use book_core::{Leg, is_inside};
use money_core::{Cause, Copied, Day, Text};
use std::alloc::Global;
use treasury_state::Record;

/// A leg that a register lists.
#[derive(Debug, Drop)]
pub struct Listed {
    /// The day of its entry.
    pub day: Day,
    /// The number of its entry, from 1.
    pub number: usize,
    pub leg: Leg,
    /// The description of its transaction.
    pub description: Text,
}

/// A leg of a record, as it is listed.
fn listed_leg(number: usize, row: &Record, leg: &Leg) -> Result<Listed, Cause>
    ensures value { IfOk result (λ x. x ≡ listed_leg number row.now leg.now) }
    ensures memory { IsOkUnless result Cause.OutOfMemory }
{
    let leg = leg.copy()?;
    let description = row.txn.description.copy()?;
    Ok(Listed {
        day: row.entry.day,
        number,
        leg,
        description,
    })
}

/// Whether the leg is on the account or a subaccount.
fn is_listed(leg: &Leg, account: &str) -> bool
    ensures { result ≡ is_inside account.now leg.now.account }
{
    is_inside(leg.account.as_str(), account)
}

/// Lists a leg of a record, where it is on the account or a subaccount.
fn list_leg(
    number: usize,
    row: &Record,
    leg: &Leg,
    account: &str,
    all: &mut Vec<Listed>,
) -> Result<(), Cause>
    ensures ok { OnOk result (all.new.items ≡ all.old.items ++ listed_legs account.now number row.now (leg.now ∷ [])) }
    ensures memory { IsOkUnless result Cause.OutOfMemory }
{
    if is_listed(leg, account) {
        let one = listed_leg(number, row, leg)?;
        all.push(one)?;
    }
    Ok(())
}

/// Lists the legs of a record that are on the account or a subaccount.
fn list_legs(number: usize, row: &Record, account: &str, all: &mut Vec<Listed>) -> Result<(), Cause>
    ensures ok { OnOk result (all.new.items
        ≡ all.old.items ++ listed_legs account.now number row.now row.now.entry.legs) }
    ensures memory { IsOkUnless result Cause.OutOfMemory }
{
    'legs: for leg in row.entry.legs.items() {
        list_leg(number, row, leg, account, all)?;
    }
    Ok(())
}

/// Lists those legs, where the record has the tag, if one is asked for.
fn list_record(
    number: usize,
    row: &Record,
    account: &str,
    tag: Option<&str>,
    all: &mut Vec<Listed>,
) -> Result<(), Cause>
    ensures ok { OnOk result (all.new.items
        ≡ all.old.items ++ listed_in account.now (option_copied tag.entry) number row.now) }
    ensures memory { IsOkUnless result Cause.OutOfMemory }
{
    if is_wanted(&row.txn, tag) {
        list_legs(number, row, account, all)
    } else {
        Ok(())
    }
}

/// The legs on the account or its subaccounts, in order of entry, of the records that have the tag, where one is asked
/// for.
pub fn listed_of(
    alloc: Global,
    records: &[Record],
    account: &str,
    tag: Option<&str>,
) -> Result<Vec<Listed>, Cause>
    ensures value { IfOk result (λ all. all.items ≡ listed_from account.now (option_copied tag.entry) 1 records.now) }
    ensures memory { IsOkUnless result Cause.OutOfMemory }
{
    let mut all = Vec::new(alloc);
    'records: for (index, row) in records.iter().enumerate() {
        list_record(index + 1, row, account, tag, &mut all)?;
    }
    Ok(all)
}

/// Puts them in order of day, and leaves those of one day in their order.
pub fn sort_by_day(all: &mut Vec<Listed>) -> Result<(), Cause>
    ensures ok { OnOk result (all.new.items ≡ by_day all.old.items) }
    ensures memory { IsOkUnless result Cause.OutOfMemory }
{
    all.sort_by_key(|one| one.day.0)?;
    Ok(())
}
