//! The notes of an import: of what it added to the book of a branch, or would add.

ghost use Rattle.std.specs.Prelude.{◌≡◌, ◌++◌, ◌&&◌, ◌↔◌, ℕ, List, [], true, false, length};
ghost use Rattle.std.specs.Prelude.{IfOk, OnOk, IsTrue};
ghost use Rattle.book_core.specs.Accounts.{book_accounts};
ghost use Rattle.journal_format.specs.declared.txn.Located.{Located};
ghost use Rattle.journal_format.specs.Pieces.{Reads};
ghost use Rattle.treasury_state.specs.Index.{IsIndexOf};
ghost use Rattle.treasury_core.specs.Step.{records_in_file};
ghost use Rattle.import_notes.specs.Edited.{pairs_from};
ghost use Rattle.import_notes.specs.ImportNotes.{accounts_if, dated_said, is_grown, notes_with, notes_in, import_notes};
ghost use Rattle.import_notes.specs.Imported.{import_view};
ghost use Rattle.import_notes.specs.NewAccount.{is_new_account, has_imported};
ghost use Rattle.import_notes.specs.OtherBranch.{AreAllPrintable};

use crate::accounts::{has_new_account, say_accounts};
use crate::dated::{find_dated, say_dated};
use crate::days::{has_far, say_far_days};
use crate::edited::{Edited, find_pairs, say_edited};
use crate::marks::{is_any_unmarked, say_no_marks, say_nothing};
use crate::other_branch::say_other_branch;
use crate::places::lines_of;
use book_core::Ledger;
use journal_hints::amounts::{find_odd, may_have_odd, say_odds};
use money_core::{Cause, Day, Styles};
use std::alloc::Global;
use treasury_core::{Branch, Record, State};
use treasury_messages::{Done, Messages};
use treasury_reasons::reading::{Read, read_rows};

/// What a branch held before a request was answered.
#[derive(Clone, Copy)]
pub struct BranchBefore {
    pub entries: usize,
    pub accounts: usize,
    pub locked: Option<Day>,
    /// The request is a dry run: it adds nothing.
    pub is_dry_run: bool,
}

/// What an import added to the book of a branch, or would add, and the text where it stands.
#[derive(Clone, Copy)]
pub struct Import<'a> {
    /// The journal's file and its text.
    pub source: &'a str,
    pub text: &'a [u8],
    pub branch: &'a str,
    /// The records that were held before, and those that are new.
    pub held: &'a [Record],
    pub new: &'a [Record],
    pub is_dry_run: bool,
}

/// How many accounts a branch has.
pub fn count_of_accounts<L: Ledger>(branch: &Branch<L>) -> usize
    ensures { result ≡ length (book_accounts (L.book branch.now.ledger)) }
{
    let accounts = branch.ledger.accounts();
    accounts.len()
}

/// Whether an account is to be named: the branch has more than before, or this is a dry run, new records post to one on
/// which no held one has a leg, and some held one was imported.
fn names_account<L: Ledger>(
    alloc: Global,
    branch: &Branch<L>,
    import: &Import<'_>,
    before: BranchBefore,
) -> Result<bool, Cause>
    ensures { let it = import_view import.now in IfOk result (λ is. IsTrue is
        ↔ (((is_grown before (L.book branch.now.ledger) && has_imported it.held) ≡ true)
        × ((account : List ℕ) × (is_new_account it.held it.new account ≡ true)))) }
{
    let is_grown = before.is_dry_run || count_of_accounts(branch) > before.accounts;
    if is_grown {
        has_new_account(alloc, import.held, import.new)
    } else {
        Ok(false)
    }
}

/// Whether there is anything to note for which an import's text is to be read again; these pairs were found, and
/// accounts are to be named or not.
fn is_any(styles: &Styles, import: &Import<'_>, pairs: &[Edited], names: bool) -> bool
    ensures { let it = import_view import.now in (file : List Located) (rows : List Record)
        → pairs.now ≡ pairs_from it.held 0 it.new → result ≡ false → notes_with styles.now it names file rows ≡ [] }
{
    if has_far(import) {
        return true;
    }
    if may_have_odd(styles, import.text) {
        return true;
    }
    if !pairs.is_empty() {
        return true;
    }
    if names {
        return true;
    }
    if find_dated(import.new).is_some() {
        return true;
    }
    is_any_unmarked(import.new)
}

/// Says which accounts are new, if they are to be named.
fn say_named(
    alloc: Global,
    import: &Import<'_>,
    lines: &[usize],
    names: bool,
    out: &mut Messages,
) -> Done
    ensures { OnOk result (out.new.items ≡ out.old.items ++ accounts_if names (import_view import.now) lines.now) }
{
    if names {
        say_accounts(alloc, import, lines, out)
    } else {
        Ok(())
    }
}

/// Says the first date of its own that a posting has, if one has.
fn say_date(import: &Import<'_>, lines: &[usize], out: &mut Messages) -> Done
    ensures { OnOk result (out.new.items ≡ out.old.items ++ dated_said (import_view import.now) lines.now) }
{
    match find_dated(import.new) {
        Some(place) => say_dated(import, lines, place, out),
        None => Ok(()),
    }
}

/// Says what there is to note of an import whose text was read, kind by kind.
fn say_read(
    alloc: Global,
    styles: &Styles,
    import: &Import<'_>,
    read: &Read,
    pairs: &[Edited],
    names: bool,
    out: &mut Messages,
) -> Done
    requires { IsIndexOf read.now.first read.now.rows }
    ensures { let it = import_view import.now in pairs.now ≡ pairs_from it.held 0 it.new → OnOk result
        (out.new.items ≡ out.old.items ++ notes_with styles.now it names read.now.file.items read.now.rows) }
{
    let found = lines_of(alloc, read, import.new)?;
    let lines = found.as_slice();
    say_far_days(import, read, out)?;
    let odd = find_odd(alloc, styles, import.text, lines)?;
    say_odds(styles, import.source, odd.as_slice(), out)?;
    say_edited(alloc, import, read, pairs, out)?;
    say_named(alloc, import, lines, names, out)?;
    say_date(import, lines, out)?;
    say_no_marks(alloc, import.source, read, import.new, out)
}

/// Says what there is to note of an import that added entries to a branch, but for another branch that holds them.
fn say_own<L: Ledger>(
    alloc: Global,
    styles: &Styles,
    branch: &Branch<L>,
    import: &Import<'_>,
    before: BranchBefore,
    out: &mut Messages,
) -> Done
    ensures { let it = import_view import.now in (list : List Located) → Reads styles.now it.text list
        → OnOk result (out.new.items ≡ out.old.items
        ++ notes_in styles.now it (is_grown before (L.book branch.now.ledger)) list (records_in_file styles.now list)) }
{
    let pairs = find_pairs(alloc, import.held, import.new)?;
    let names = names_account(alloc, branch, import, before)?;
    if is_any(styles, import, pairs.as_slice(), names) {
        let read = read_rows(alloc, styles, import.text)?;
        say_read(alloc, styles, import, &read, pairs.as_slice(), names, out)
    } else {
        Ok(())
    }
}

/// Says what there is to note of an import that was answered.
pub fn note_import<L: Ledger>(
    alloc: Global,
    state: &State<L>,
    branch: &Branch<L>,
    import: &Import<'_>,
    before: BranchBefore,
    out: &mut Messages,
) -> Done
    ensures { let it = import_view import.now in (list : List Located) → AreAllPrintable state.now.styles it.new
        → Reads state.now.styles it.text list → OnOk result (out.new.items
        ≡ out.old.items ++ import_notes state.now it (is_grown before (L.book branch.now.ledger)) list) }
{
    if import.new.is_empty() {
        return say_nothing(import.source, import.text, out);
    }
    say_other_branch(alloc, state, import.branch, import.new, out)?;
    say_own(alloc, state.styles(), branch, import, before, out)
}
