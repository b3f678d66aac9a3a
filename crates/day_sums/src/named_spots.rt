//! Spots by account.

ghost use Rattle.std.specs.Prelude.{◌≡◌, ℕ, List, [], Contains, OnOk};
ghost use Rattle.std.specs.Result.{IsOkUnless};
ghost use Rattle.std.specs.List.{filter};
ghost use Rattle.day_sums.specs.Spots.{is_behind, row_of, spots_in, spots_of, KeepsSpots};

use crate::spots::{Spot, Spots};
use money_core::{Cause, Day};
use std::alloc::Global;
use std::collections::BTreeMap;

/// For each of some accounts, named by bytes, a row of spots in the order of their days. The rows are numbered.
#[derive(Drop)]
pub struct NamedSpots {
    alloc: Global,
    names: BTreeMap<Vec<u8>, usize>,
    rows: Vec<Spots>,
}

impl NamedSpots {
    /// No spots for any account.
    pub fn empty(alloc: Global) -> Self
        ensures { (a : List ℕ) → spots_of result a ≡ [] }
    {
        NamedSpots {
            alloc,
            names: BTreeMap::new(alloc),
            rows: Vec::new(alloc),
        }
    }

    /// The number of an account's row, where it has one.
    ///
    /// Costs one search in the accounts.
    pub fn row_of(&self, account: &[u8]) -> Option<usize>
        ensures { result ≡ row_of self.now account.now }
    {
        self.names.get(account).copied()
    }

    /// The spots of a row after a day.
    ///
    /// Costs one search in the row.
    pub fn spots_behind(&self, row: usize, day: Day) -> &[Spot]
        ensures { result.now ≡ filter (is_behind day) (spots_in self.now row) }
    {
        match self.rows.get(row) {
            Some(spots) => spots.behind(day),
            None => &[],
        }
    }

    /// Puts a spot into the row of an account, which is made if it is not there.
    ///
    /// What was there stays, also where memory is refused (40). Costs a search in the accounts and one in the row, and
    /// moves the spots after its day.
    pub fn put_spot(&mut self, account: &[u8], spot: Spot) -> Result<(), Cause>
        ensures kept { KeepsSpots self.old self.new }
        ensures put { OnOk result (Contains (spots_of self.new account.now) spot) }
        ensures memory { IsOkUnless result Cause.OutOfMemory }
    {
        let number = self.rows.len();
        if let Some(row) = self.row_of(account) {
            if row < number {
                return self.rows[row].put(spot);
            }
        }
        let mut spots = Spots::empty(self.alloc);
        spots.put(spot)?;
        let name = Vec::from_slice(self.alloc, account)?;
        self.rows.push(spots)?;
        self.names.insert(name, number)?;
        Ok(())
    }
}
