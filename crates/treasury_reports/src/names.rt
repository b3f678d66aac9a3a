//! The names of the branches, in byte order.

ghost use Rattle.std.specs.Prelude.{◌≡◌, ℕ, ◌<◌, ◌≤◌, ◌↔◌, ◌⊎◌, List, [], IsTrue, IfOk, OnOk, length, Contains};
ghost use Rattle.std.specs.Prelude.{slice_index_or};
ghost use Rattle.std.specs.Result.{IsOkUnless};
ghost use Rattle.std.specs.List.Sorted.{IsStrictlySortedBy};
ghost use Rattle.std.specs.declared.cmp.Ordering.TheVariants.{Less};
ghost use Rattle.book_core.specs.Account.{name_cmp};
ghost use Rattle.book_core.specs.Accounts.{ordered_names};
ghost use Rattle.treasury_state.specs.Seen.{branches_of};
ghost use Rattle.treasury_state.specs.Federation.{names_of};

use book_core::Ledger;
use money_core::{Cause, Copied, Text};
use std::alloc::Global;
use treasury_state::Branch;

/// How many of the names come before `name`.
fn count_before(names: &[Text], name: &str) -> usize
    requires { IsStrictlySortedBy name_cmp names.now }
    ensures bound { result ≤ length names.now }
    ensures before { (k : ℕ) → k < result → name_cmp (slice_index_or names.now k []) name.now ≡ Less }
    ensures after { (k : ℕ) → result ≤ k → k < length names.now
        → name_cmp (slice_index_or names.now k []) name.now ≡ Less → ⊥ }
{
    let mut low = 0;
    let mut high = names.len();
    'search: while low < high {
        let middle = low + (high - low) / 2;
        if names[middle].as_str() < name {
            low = middle + 1;
        } else {
            high = middle;
        }
    }
    low
}

/// Whether `name` is one of the names.
fn has_name(names: &[Text], name: &str) -> bool
    requires { IsStrictlySortedBy name_cmp names.now }
    ensures { IsTrue result ↔ Contains names.now name.now }
{
    let at = count_before(names, name);
    if at == names.len() {
        return false;
    }
    names[at].as_str() == name
}

/// Puts the name in its place, where it is not there yet. Where memory is refused, it is lost.
fn put_name(names: &mut Vec<Text>, name: Text) -> Result<(), Cause>
    requires { IsStrictlySortedBy name_cmp names.old.items }
    ensures sorted { OnOk result (IsStrictlySortedBy name_cmp names.new.items) }
    ensures exact { OnOk result ((x : List ℕ)
        → Contains names.new.items x ↔ (Contains names.old.items x ⊎ (x ≡ name))) }
    ensures memory { IsOkUnless result Cause.OutOfMemory }
{
    if has_name(names, name.as_str()) {
        return Ok(());
    }
    let at = count_before(names, name.as_str());
    match names.insert(at, name) {
        Ok(()) => {}
        Err(_) => return Err(Cause::OutOfMemory),
    }
    Ok(())
}

/// The names of the branches, each once, in byte order.
pub fn names_in_order<L: Ledger>(alloc: Global, branches: &[Branch<L>]) -> Result<Vec<Text>, Cause>
    ensures value { IfOk result (λ names. names.items ≡ ordered_names (names_of (branches_of branches.now))) }
    ensures memory { IsOkUnless result Cause.OutOfMemory }
{
    let mut names = Vec::new(alloc);
    'branches: for branch in branches {
        let name = branch.name.copy()?;
        put_name(&mut names, name)?;
    }
    Ok(names)
}
