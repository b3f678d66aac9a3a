//! Running sums by day, of accounts in commodities.

ghost use Rattle.std.specs.Prelude.{◌≡◌, ℕ, List, pos, true, OnOk};
ghost use Rattle.std.specs.Result.{IsOkUnless};
ghost use Rattle.money_core.specs.declared.unit.Unit.{Unit as Commodity};
ghost use Rattle.day_sums.specs.declared.period.Period.{Period as Span};
ghost use Rattle.day_sums.specs.Sums.{period_sum, is_open, IsSmall, SameSums, RaisedSums};

use crate::names::{open_name, raise_name, sum_by_name};
use crate::period::Period;
use crate::row::Row;
use money_core::{Cause, Day, Unit};
use std::alloc::Global;
use std::collections::{BTreeMap, HashMap};

/// For each account, named by bytes, and each commodity the sums over periods, in smallest units.
#[derive(Drop)]
pub struct DaySums {
    alloc: Global,
    units: BTreeMap<u16, HashMap<Vec<u8>, Row>>,
}

impl DaySums {
    /// Every sum is zero.
    pub fn empty(alloc: Global) -> Self
        ensures { (a : List ℕ) (u : Commodity) (p : Span) → period_sum result a u p ≡ pos 0 }
    {
        DaySums {
            alloc,
            units: BTreeMap::new(alloc),
        }
    }

    /// The sum of an account in a commodity over a period.
    ///
    /// Costs one search for each of the commodity and the day, for a part of a day one more for the number, and one
    /// look-up for the account.
    pub fn sum(&self, account: &[u8], unit: Unit, period: Period) -> i64
        ensures { result ≡ period_sum self.now account.now unit period }
    {
        match self.units.get(&unit.0) {
            Some(names) => sum_by_name(names, account, period),
            None => 0,
        }
    }

    /// Opens a day's number in the row of an account in a commodity, which changes no sum.
    ///
    /// After that `raise_row` can add there. Where memory is refused (40), no sum changes either.
    pub fn open_row(
        &mut self,
        account: &[u8],
        unit: Unit,
        day: Day,
        number: u32,
    ) -> Result<(), Cause>
        ensures same { SameSums self.old self.new }
        ensures open { OnOk result (is_open self.new account.now unit day number ≡ true) }
        ensures memory { IsOkUnless result Cause.OutOfMemory }
    {
        let alloc = self.alloc;
        if let Some(names) = self.units.get_mut(&unit.0) {
            return open_name(alloc, names, account, day, number);
        }
        let mut names = HashMap::new(alloc);
        open_name(alloc, &mut names, account, day, number)?;
        self.units.insert(unit.0, names)?;
        Ok(())
    }

    /// Adds to the sums of an account in a commodity over the periods that a day's number is in, which is open. Takes
    /// no memory.
    ///
    /// Costs one step for each open day after it, and one for each open number after it on its day.
    pub fn raise_row(&mut self, account: &[u8], unit: Unit, day: Day, number: u32, qty: i64)
        requires open { is_open self.old account.now unit day number ≡ true }
        requires small { (p : Span) → IsSmall (period_sum self.old account.now unit p) }
        requires qty { IsSmall qty }
        ensures raised { RaisedSums account.now unit day number qty self.old self.new }
    {
        if let Some(names) = self.units.get_mut(&unit.0) {
            raise_name(names, account, day, number, qty);
        }
    }
}
