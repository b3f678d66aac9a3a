//! Branches, read from their rows and those of their entries.

ghost use Rattle.std.specs.Prelude.{◌≡◌, ◌≤◌, ◌++◌, ℕ, pos, List, Option, length, IfOk, IfSome};
ghost use Rattle.std.specs.List.{AllByRecursion};
ghost use Rattle.std.specs.Option.{option_map};
ghost use Rattle.money_core.specs.declared.day.Day.{Day as DayNumber};
ghost use Rattle.treasury_state.specs.declared.rows.EntryRow.{EntryRow as Row};
ghost use Rattle.treasury_state.specs.Federation.{Branch as FederationBranch};
ghost use Rattle.treasury_state.specs.Good.{IsGoodRecord, IsShort};
ghost use Rattle.treasury_state.specs.Rows.{branch_row, branch_rows_from, entry_rows_from, entry_rows_in};
ghost use Rattle.treasury_rows.specs.Drafted.{IsKeepable, IsReading};

use super::entry_rows::read_records;
use super::number::{is_number, read_day, rows_before, rows_from};
use money_core::{Cause, Copied, Day, Items, Styles};
use std::alloc::Global;
use treasury_state::{BranchRow, DraftBranch, EntryRow};

/// The day of a lock, if there is one.
fn read_lock(locked: Option<i64>) -> Result<Option<Day>, Cause>
    ensures { IsReading (λ (o : Option DayNumber). IfSome o IsShort
        × (option_map (λ (d : DayNumber). d.0) o ≡ locked)) result }
{
    match locked {
        Some(value) => {
            let day = read_day(value)?;
            Ok(Some(day))
        }
        None => Ok(None),
    }
}

/// How many rows at the front are of that branch.
fn count_own(rows: &[EntryRow], branch: usize) -> usize
    ensures bound { result ≤ length rows.now }
    ensures value { (own rest : List Row) → AllByRecursion (λ (r : Row). r.branch ≡ pos branch) own
        → AllByRecursion (λ (r : Row). r.branch ≡ pos branch → ⊥) rest
        → rows.now ≡ own ++ rest → result ≡ length own }
{
    let mut count = 0;
    'entry: for row in rows {
        if !is_number(row.branch, branch) {
            return count;
        }
        count += 1;
    }
    count
}

/// The branch of that number, with its entries.
fn read_branch(
    alloc: Global,
    styles: &Styles,
    nr: usize,
    row: &BranchRow,
    entries: &[EntryRow],
) -> Result<DraftBranch, Cause>
    ensures reads { IsReading (λ (b : FederationBranch). IsKeepable styles.now b
        × ((branch_row nr b ≡ row.now) × (entry_rows_from styles.now nr 1 b.records ≡ entries.now))) result }
    ensures good { IfOk result (λ b. AllByRecursion (IsGoodRecord styles.now) b.records) }
    ensures same { IfOk result (λ b. entry_rows_from styles.now nr 1 b.records ≡ entries.now) }
{
    if !is_number(row.nr, nr) {
        return Err(Cause::Damaged);
    }
    let locked = read_lock(row.locked)?;
    let name = row.name.copy()?;
    let records = read_records(alloc, styles, nr, entries)?;
    Ok(DraftBranch {
        name,
        locked,
        records,
    })
}

/// The branches, in order of their numbers, each with its entries.
pub(super) fn read_branches(
    alloc: Global,
    styles: &Styles,
    rows: &[BranchRow],
    entries: &[EntryRow],
) -> Result<Items<DraftBranch>, Cause>
    ensures reads { IsReading (λ (bs : List FederationBranch). AllByRecursion (IsKeepable styles.now) bs
        × ((branch_rows_from 0 bs ≡ rows.now) × (entry_rows_in styles.now 0 bs ≡ entries.now))) result }
    ensures good { IfOk result (AllByRecursion
        (λ (b : FederationBranch). AllByRecursion (IsGoodRecord styles.now) b.records)) }
    ensures same { IfOk result (λ bs. entry_rows_in styles.now 0 bs ≡ entries.now) }
{
    let mut list = Items::empty(alloc);
    let mut left = entries;
    'branch: for row in rows {
        let nr = list.items().len();
        let count = count_own(left, nr);
        let branch = read_branch(alloc, styles, nr, row, rows_before(left, count))?;
        list.push(branch)?;
        left = rows_from(left, count);
    }
    if !left.is_empty() {
        return Err(Cause::Damaged);
    }
    Ok(list)
}
