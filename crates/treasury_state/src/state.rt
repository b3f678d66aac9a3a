//! The state of a federation, over any ledger.

ghost use Rattle.std.specs.Prelude.{◌≡◌, [], true, false, MatchOption, IfSome, None, Some};
ghost use Rattle.std.specs.List.{AllByRecursion};
ghost use Rattle.book_core.specs.GoodBook.{IsGoodBook};
ghost use Rattle.treasury_state.specs.Federation.{has_branch, entries, book_of, branch_at};
ghost use Rattle.treasury_state.specs.Good.{IsGoodState};
ghost use Rattle.treasury_state.specs.Seen.{branch_of, branches_of};
ghost use Rattle.treasury_state.specs.Index.{IsKept};

use crate::record::Record;
use crate::transfer::Transfer;
use book_core::Ledger;
use money_core::{Day, Items, Styles, Text};
use std::alloc::Global;
use std::collections::HashMap;
use std::marker::Model;

/// A branch with its records, and the ledger of their entries.
#[derive(Drop)]
pub struct Branch<L: Ledger> {
    pub name: Text,
    /// The day through which it is locked, if it is.
    pub locked: Option<Day>,
    /// In order of entry.
    pub records: Items<Record>,
    pub ledger: L,
    /// The place of each mark's record.
    pub index: HashMap<String, usize>,
}

/// The state of a federation.
#[derive(Drop)]
pub struct State<L: Ledger> {
    pub styles: Styles,
    pub branches: Vec<Branch<L>>,
    /// The place of each name's branch.
    pub places: HashMap<String, usize>,
    pub transfers: Items<Transfer>,
}

impl<L: Ledger> Model for State<L> {
    ghost use Rattle.treasury_state.specs.Federation.{Federation};
    ghost use Rattle.treasury_state.specs.Seen.{branches_of, federation_of};
    ghost use Rattle.treasury_state.specs.Kept.{ArePlacesOf, AreKept};

    ghost Value = { Federation };

    ghost view = { λ s. federation_of s.styles s.branches.items s.transfers };

    ghost invariant = { λ s. AreKept L.book s.styles s.branches.items s.transfers
        × ArePlacesOf s.places (branches_of s.branches.items) };
}

impl<L: Ledger> State<L> {
    /// No commodity, branch or transfer.
    pub fn empty(alloc: Global) -> Self
        ensures { result ≡ record { styles = []; branches = []; transfers = [] } }
    {
        State {
            styles: Styles::empty(alloc),
            branches: Vec::new(alloc),
            places: HashMap::new(alloc),
            transfers: Items::empty(alloc),
        }
    }

    /// Every state is good: a law. Costs nothing.
    pub fn is_good(&self)
        ensures { IsGoodState self.now }
    {
        let _ = &self.branches;
    }

    /// The commodities, in order of declaration.
    pub fn styles(&self) -> &Styles
        ensures { result.now ≡ self.now.styles }
    {
        &self.styles
    }

    /// The branches, in order.
    pub fn branches(&self) -> &[Branch<L>]
        ensures value { branches_of result.now ≡ self.now.branches }
        // The book of each ledger is the entries of the branch's records.
        ensures kept { AllByRecursion (λ b. L.book b.ledger ≡ entries b.records) result.now }
    {
        self.branches.as_slice()
    }

    /// The ledger of the branch of that name, if there is one: its book, a good one, is the entries of the branch's
    /// records.
    pub fn ledger(&self, name: &str) -> Option<&L>
        ensures found { MatchOption result (has_branch self.now name.now ≡ false)
            (λ ledger. (has_branch self.now name.now ≡ true) × (L.book ledger.now ≡ book_of self.now name.now)) }
        ensures good { IfSome result (λ ledger. IsGoodBook (L.book ledger.now)) }
    {
        self.is_good();
        match find_branch(self, name) {
            Some(branch) => Some(&branch.ledger),
            None => None,
        }
    }

    /// The transfers, in byte order of their IDs.
    pub fn transfers(&self) -> &[Transfer]
        ensures { result.now ≡ self.now.transfers }
    {
        self.transfers.items()
    }
}

/// The branch of that name: one look-up, whatever the number of branches.
pub fn find_branch<'a, L: Ledger>(state: &'a State<L>, name: &str) -> Option<&'a Branch<L>>
    ensures found { MatchOption result (branch_at state.now.branches name.now ≡ None)
        (λ b. branch_at state.now.branches name.now ≡ Some (branch_of b.now)) }
    ensures kept { IfSome result (λ b. IsKept L.book b.now) }
{
    match state.places.get(name) {
        None => None,
        Some(place) => state.branches.get(*place),
    }
}
