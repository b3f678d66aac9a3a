//! A state with what a decided command adds.

ghost use Rattle.std.specs.Prelude.{◌≡◌, [], ◌∷◌, ◌++◌, List, OnOk, MatchResult};
ghost use Rattle.std.specs.List.{AllByRecursion};
ghost use Rattle.std.specs.Result.{IsOkUnless};
ghost use Rattle.book_core.specs.GoodBook.{IsFit, IsWithin};
ghost use Rattle.money_core.specs.Style.{AreStyles};
ghost use Rattle.treasury_state.specs.Federation.{entries, name_place};
ghost use Rattle.treasury_state.specs.Joined.{new_branch, with_records, with_lock, changed, joined_one, joined};
ghost use Rattle.treasury_state.specs.Good.{AreAscending, IsGoodState};
ghost use Rattle.treasury_state.specs.Seen.{branch_of, branches_of, federation_of};
ghost use Rattle.treasury_state.specs.Kept.{ArePlacesOf};
ghost use Rattle.treasury_state.specs.Index.{IsKept};
ghost use Rattle.treasury_state.specs.Room.{FitsLedger, IsRoomy};

use crate::delta::{Addition, Delta};
use crate::index::{push_marked, put_place};
use crate::order::{insert_transfer, receive_transfer};
use crate::record::Record;
use crate::state::{Branch, State};
use crate::transfer::Transfer;
use book_core::Ledger;
use money_core::{Cause, Copied, Day, Items, Style, Styles, Text};
use std::alloc::Global;
use std::collections::HashMap;

/// The place of the branch of that name; their number where there is none.
fn place_of<L: Ledger>(branches: &[Branch<L>], places: &HashMap<String, usize>, name: &str) -> usize
    requires { ArePlacesOf places.now (branches_of branches.now) }
    ensures { result ≡ name_place (branches_of branches.now) name.now }
{
    match places.get(name) {
        Some(place) => *place,
        None => branches.len(),
    }
}

/// A record into the branch's list, its index and its ledger. On 40 the branch is not to be used any more.
pub(crate) fn add_record<L: Ledger>(
    alloc: Global,
    branch: &mut Branch<L>,
    row: Record,
) -> Result<(), Cause>
    requires kept { IsKept L.book branch.old }
    requires fit { IsFit row.entry }
    requires room { IsWithin (entries branch.old.records ++ row.entry ∷ []) }
    ensures ok { OnOk result (branch_of branch.new ≡ with_records (row ∷ []) (branch_of branch.old)) }
    ensures kept { OnOk result (IsKept L.book branch.new) }
    ensures memory { IsOkUnless result Cause.OutOfMemory }
{
    let entry = row.entry.copy()?;
    branch.ledger.add(entry)?;
    push_marked(alloc, &mut branch.records, &mut branch.index, row)
}

/// A record into the branch of that name, if it is there.
fn apply_record<L: Ledger>(
    alloc: Global,
    branches: &mut Vec<Branch<L>>,
    places: &HashMap<String, usize>,
    name: &str,
    row: Record,
) -> Result<(), Cause>
    requires kept { AllByRecursion (IsKept L.book) branches.old.items }
    requires places { ArePlacesOf places.now (branches_of branches.old.items) }
    requires room { AllByRecursion FitsLedger
        (changed (with_records (row ∷ [])) name.now (branches_of branches.old.items)) }
    ensures ok { OnOk result (branches_of branches.new.items
        ≡ changed (with_records (row ∷ [])) name.now (branches_of branches.old.items)) }
    ensures kept { OnOk result (AllByRecursion (IsKept L.book) branches.new.items) }
    ensures memory { IsOkUnless result Cause.OutOfMemory }
{
    let place = place_of(branches, places, name);
    if place >= branches.len() {
        return Ok(());
    }
    let branch = &mut branches[place];
    add_record(alloc, branch, row)
}

/// A lock day for the branch of that name, if it is there.
fn apply_lock<L: Ledger>(
    branches: &mut Vec<Branch<L>>,
    places: &HashMap<String, usize>,
    name: &str,
    day: Day,
)
    requires kept { AllByRecursion (IsKept L.book) branches.old.items }
    requires places { ArePlacesOf places.now (branches_of branches.old.items) }
    ensures after { branches_of branches.new.items ≡ changed (with_lock day) name.now (branches_of branches.old.items) }
    ensures kept { AllByRecursion (IsKept L.book) branches.new.items }
{
    let place = place_of(branches, places, name);
    if place < branches.len() {
        let branch = &mut branches[place];
        branch.locked = Some(day);
    }
}

/// A new branch of that name.
fn apply_branch<L: Ledger>(
    alloc: Global,
    branches: &mut Vec<Branch<L>>,
    places: &mut HashMap<String, usize>,
    name: Text,
) -> Result<(), Cause>
    requires kept { AllByRecursion (IsKept L.book) branches.old.items }
    requires places { ArePlacesOf places.old (branches_of branches.old.items) }
    ensures ok { OnOk result (branches_of branches.new.items ≡ branches_of branches.old.items ++ new_branch name ∷ []) }
    ensures kept { OnOk result (AllByRecursion (IsKept L.book) branches.new.items) }
    ensures places { OnOk result (ArePlacesOf places.new (branches_of branches.new.items)) }
    ensures memory { IsOkUnless result Cause.OutOfMemory }
{
    put_place(alloc, places, name.as_str(), branches.len())?;
    let branch = Branch {
        name,
        locked: None,
        records: Items::empty(alloc),
        ledger: L::empty(alloc),
        index: HashMap::new(alloc),
    };
    branches.push(branch)?;
    Ok(())
}

/// A new commodity.
fn apply_style(styles: &mut Styles, style: Style) -> Result<(), Cause>
    requires { AreStyles (styles.old ++ style ∷ []) }
    ensures ok { OnOk result (styles.new ≡ styles.old ++ style ∷ []) }
    ensures memory { IsOkUnless result Cause.OutOfMemory }
{
    match styles.declare(style) {
        Ok(_) => Ok(()),
        Err(cause) => Err(cause),
    }
}

/// One addition.
fn apply_one<L: Ledger>(
    alloc: Global,
    styles: &mut Styles,
    branches: &mut Vec<Branch<L>>,
    places: &mut HashMap<String, usize>,
    transfers: &mut Vec<Transfer>,
    addition: Addition,
) -> Result<(), Cause>
    requires kept { AllByRecursion (IsKept L.book) branches.old.items }
    requires places { ArePlacesOf places.old (branches_of branches.old.items) }
    requires room { IsRoomy (joined_one (federation_of styles.old branches.old.items transfers.old.items) addition) }
    requires order { AreAscending transfers.old.items }
    ensures ok { OnOk result (federation_of styles.new branches.new.items transfers.new.items
        ≡ joined_one (federation_of styles.old branches.old.items transfers.old.items) addition) }
    ensures kept { OnOk result (AllByRecursion (IsKept L.book) branches.new.items) }
    ensures places { OnOk result (ArePlacesOf places.new (branches_of branches.new.items)) }
    ensures memory { IsOkUnless result Cause.OutOfMemory }
{
    match addition {
        Addition::Commodity(style) => apply_style(styles, style),
        Addition::Branch(name) => apply_branch(alloc, branches, places, name),
        Addition::Record(name, row) => apply_record(alloc, branches, places, name.as_str(), row),
        Addition::Dispatched(transfer) => insert_transfer(transfers, transfer),
        Addition::Received(id, part) => receive_transfer(alloc, transfers, id.as_str(), part),
        Addition::Locked(name, day) => {
            apply_lock(branches, places, name.as_str(), day);
            Ok(())
        }
    }
}

/// The state with what is added, which asks that it is a good state. It costs what is added, and not what is there.
///
/// Where memory is refused, it answers 40, and the state is gone.
pub fn apply<L: Ledger>(alloc: Global, state: State<L>, delta: Delta) -> Result<State<L>, Cause>
    requires { IsGoodState (joined state delta) }
    ensures { MatchResult result (λ next. next ≡ joined state delta) (λ e. e ≡ Cause.OutOfMemory) }
{
    let State {
        mut styles,
        mut branches,
        mut places,
        transfers: list,
    } = state;
    let mut transfers = list.into_vec();
    'additions: for addition in delta.into_items().into_vec() {
        apply_one(
            alloc,
            &mut styles,
            &mut branches,
            &mut places,
            &mut transfers,
            addition,
        )?;
    }
    Ok(State {
        styles,
        branches,
        places,
        transfers: Items::from_vec(transfers),
    })
}
