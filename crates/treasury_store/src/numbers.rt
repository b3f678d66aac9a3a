//! What new rows are numbered by.

ghost use Rattle.std.specs.Prelude.{◌≡◌, ◌≤◌, ◌∷◌, ◌++◌, [], length, position, OnOk, IfOk};
ghost use Rattle.std.specs.Result.{IsOkUnless};
ghost use Rattle.std.specs.Str.{bytes_eq};
ghost use Rattle.money_core.specs.Style.{AreStyles};
ghost use Rattle.treasury_state.specs.Federation.{names_of};
ghost use Rattle.treasury_state.specs.Seen.{branches_of};
ghost use Rattle.treasury_store.specs.Changes.{place_in, styles_with_one, names_with_one, styles_with, names_with};
ghost use Rattle.treasury_store.specs.Numbers.{records_each, numbers_of};

use book_core::Ledger;
use money_core::{Cause, Copied, Items, Style, Styles, Text, Unit};
use std::alloc::Global;
use std::marker::Model;
use treasury_core::{Addition, Branch, State};

/// How the rows of a state are numbered.
#[derive(Debug, Drop)]
pub(crate) struct Numbers {
    /// The commodities, under which bodies are printed.
    pub(crate) styles: Styles,
    /// The names of the branches, in order.
    pub(crate) names: Items<Text>,
    /// How many records each of them has.
    pub(crate) records: Vec<usize>,
}

impl Model for Numbers {
    ghost use Rattle.treasury_store.specs.Numbers.{Numbering};

    ghost Value = { Numbering };

    ghost view = { λ n. record { styles = n.styles; names = n.names; records = n.records.items } };
}

impl Numbers {
    /// Those of the empty state.
    pub(crate) fn none(alloc: Global) -> Self
        ensures { result ≡ record { styles = []; names = []; records = [] } }
    {
        Numbers {
            styles: Styles::empty(alloc),
            names: Items::empty(alloc),
            records: Vec::new(alloc),
        }
    }
}

/// Where the name stands.
fn find(names: &[Text], name: &str) -> Option<usize>
    ensures { result ≡ position (λ held. bytes_eq held name.now) names.now }
{
    names.iter().position(|held| held.as_str() == name)
}

/// The place of a name, from 0; how many there are where none is it.
pub(crate) fn place_of(names: &[Text], name: &str) -> usize
    ensures place { result ≡ place_in names.now name.now }
    ensures within { result ≤ length names.now }
{
    match find(names, name) {
        Some(place) => place,
        None => names.len(),
    }
}

/// A new commodity.
fn declare(styles: &mut Styles, style: &Style) -> Result<(), Cause>
    requires { AreStyles (styles.old ++ style.now ∷ []) }
    ensures ok { OnOk result (styles.new ≡ styles.old ++ style.now ∷ []) }
    ensures memory { IsOkUnless result Cause.OutOfMemory }
{
    let copy = style.copy()?;
    match styles.declare(copy) {
        Ok(_) => Ok(()),
        Err(cause) => Err(cause),
    }
}

/// Equal styles.
fn copied(alloc: Global, styles: &Styles) -> Result<Styles, Cause>
    ensures equal { IfOk result (λ copy. copy ≡ styles.now) }
    ensures memory { IsOkUnless result Cause.OutOfMemory }
{
    styles.are_styles();
    let mut copy = Styles::empty(alloc);
    'unit: for unit in 0..styles.len() {
        match styles.style(Unit(unit as u16)) {
            Some(style) => declare(&mut copy, style)?,
            None => unreachable!(),
        }
    }
    Ok(copy)
}

/// A new commodity, if it is one.
fn add_style(styles: &mut Styles, addition: &Addition) -> Result<(), Cause>
    requires { AreStyles (styles_with_one styles.old addition.now) }
    ensures ok { OnOk result (styles.new ≡ styles_with_one styles.old addition.now) }
    ensures memory { IsOkUnless result Cause.OutOfMemory }
{
    match addition {
        Addition::Commodity(style) => declare(styles, style),
        _ => Ok(()),
    }
}

/// A new name, if it is that of a branch.
fn add_name(names: &mut Items<Text>, addition: &Addition) -> Result<(), Cause>
    ensures ok { OnOk result (names.new ≡ names_with_one names.old addition.now) }
    ensures memory { IsOkUnless result Cause.OutOfMemory }
{
    match addition {
        Addition::Branch(name) => {
            let copy = name.copy()?;
            names.push(copy)
        }
        _ => Ok(()),
    }
}

/// The styles with those that are added.
pub(crate) fn more_styles(
    alloc: Global,
    styles: &Styles,
    additions: &[Addition],
) -> Result<Styles, Cause>
    requires { AreStyles (styles_with styles.now additions.now) }
    ensures equal { IfOk result (λ all. all ≡ styles_with styles.now additions.now) }
    ensures memory { IsOkUnless result Cause.OutOfMemory }
{
    let mut all = copied(alloc, styles)?;
    'addition: for addition in additions {
        add_style(&mut all, addition)?;
    }
    Ok(all)
}

/// The names with those that are added.
pub(crate) fn more_names(names: &Items<Text>, additions: &[Addition]) -> Result<Items<Text>, Cause>
    ensures equal { IfOk result (λ all. all ≡ names_with names.now additions.now) }
    ensures memory { IsOkUnless result Cause.OutOfMemory }
{
    let mut all = names.copy()?;
    'addition: for addition in additions {
        add_name(&mut all, addition)?;
    }
    Ok(all)
}

/// The names of branches, in order.
fn names_of<L: Ledger>(alloc: Global, branches: &[Branch<L>]) -> Result<Items<Text>, Cause>
    ensures equal { IfOk result (λ names. names ≡ names_of (branches_of branches.now)) }
    ensures memory { IsOkUnless result Cause.OutOfMemory }
{
    let mut names = Items::empty(alloc);
    'branch: for branch in branches {
        let name = branch.name.copy()?;
        names.push(name)?;
    }
    Ok(names)
}

/// How many records each branch has.
fn records_each<L: Ledger>(alloc: Global, branches: &[Branch<L>]) -> Result<Vec<usize>, Cause>
    ensures equal { IfOk result (λ records. records.items ≡ records_each (branches_of branches.now)) }
    ensures memory { IsOkUnless result Cause.OutOfMemory }
{
    let mut records = Vec::new(alloc);
    'branch: for branch in branches {
        records.push(branch.records.items().len())?;
    }
    Ok(records)
}

/// Those of a state.
pub(crate) fn numbers_of<L: Ledger>(alloc: Global, state: &State<L>) -> Result<Numbers, Cause>
    ensures equal { IfOk result (λ numbers. numbers ≡ numbers_of state.now) }
    ensures memory { IsOkUnless result Cause.OutOfMemory }
{
    let styles = copied(alloc, state.styles())?;
    let names = names_of(alloc, state.branches())?;
    let records = records_each(alloc, state.branches())?;
    Ok(Numbers {
        styles,
        names,
        records,
    })
}
