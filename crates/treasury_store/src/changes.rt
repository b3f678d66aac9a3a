//! The changes of the tables by which additions are written.

ghost use Rattle.std.specs.Prelude.{◌≡◌, ◌<◌, ◌≤◌, ◌^◌, suc, nat_lt, if◌then◌else◌, ◌∷◌, ◌++◌, [], length, map};
ghost use Rattle.std.specs.Prelude.{slice_index, slice_set, OnOk, IfOk};
ghost use Rattle.std.specs.Option.{option_map};
ghost use Rattle.std.specs.List.{AllByRecursion};
ghost use Rattle.std.specs.Result.{IsOkUnless};
ghost use Rattle.money_core.specs.Mark.{decimal_byte};
ghost use Rattle.money_core.specs.Style.{AreStyles};
ghost use Rattle.book_core.specs.declared.claim.Placed.{Placed};
ghost use Rattle.journal_format.specs.CanonicalText.{body_text};
ghost use Rattle.journal_format.specs.Printable.{IsPrintable};
ghost use Rattle.treasury_state.specs.Joined.{new_branch};
ghost use Rattle.treasury_state.specs.Rows.{truth, kind_number, unit_row, branch_row, entry_row, leg_row, leg_rows};
ghost use Rattle.treasury_state.specs.Rows.{claim_row, transfer_row, part_row};
ghost use Rattle.treasury_state.specs.Transfer.{is_all};
ghost use Rattle.treasury_tables.specs.declared.change.Change.TheVariants.{Leg as LegChange, Claim as ClaimChange};
ghost use Rattle.treasury_store.specs.Changes.{branches_named, record_changes, receipt_change, changes_by};
ghost use Rattle.treasury_store.specs.Changes.{counts_after};
ghost use Rattle.treasury_store.specs.Changes.{changes_from, counts_after_all, changes_of, numbers_with, styles_with};
ghost use Rattle.treasury_store.specs.Changes.{names_with, counts_of_numbering, IsWritable, CanWrite, CanWriteFrom};

use crate::numbers::{Numbers, more_names, more_styles, place_of};
use book_core::{ClaimKind, Leg, Placed};
use journal_format::{Txn, body};
use money_core::{Cause, Copied, Items, Mark, Style, Styles, Text, text_of};
use std::alloc::Global;
use std::marker::Model;
use treasury_core::{
    Addition, BranchRow, ClaimRow, EntryRow, LegRow, Part, PartRow, Receipt, Record, Transfer,
    TransferRow, UnitRow,
};
use treasury_tables::Change;

/// How many commodities there are, and how many records each branch has.
#[derive(Debug, Drop)]
struct Counts {
    units: usize,
    records: Vec<usize>,
}

impl Model for Counts {
    ghost use Rattle.treasury_store.specs.Changes.{Counts};

    ghost Value = { Counts };

    ghost view = { λ n. record { units = n.units; records = n.records.items } };
}

/// 1 where it is true, else 0.
fn truth(is: bool) -> i64
    ensures { result ≡ truth is }
{
    if is { 1 } else { 0 }
}

/// The number of a kind of assertion.
fn kind_number(kind: ClaimKind) -> i64
    ensures { result ≡ kind_number kind }
{
    match kind {
        ClaimKind::Exact => 1,
        ClaimKind::Sole => 2,
        ClaimKind::ExactIn => 3,
        ClaimKind::SoleIn => 4,
    }
}

/// A decimal mark as a text.
fn mark_text(alloc: Global, mark: Mark) -> Result<Text, Cause>
    ensures equal { IfOk result (λ text. text ≡ decimal_byte mark ∷ []) }
    ensures memory { IsOkUnless result Cause.OutOfMemory }
{
    match mark {
        Mark::Point => Text::of(alloc, "."),
        Mark::Comma => Text::of(alloc, ","),
    }
}

/// The row of the commodity of that number.
fn unit_row(alloc: Global, nr: usize, style: &Style) -> Result<UnitRow, Cause>
    requires { nr < 2 ^ 32 }
    ensures equal { IfOk result (λ row. row ≡ unit_row nr style.now) }
    ensures memory { IsOkUnless result Cause.OutOfMemory }
{
    let symbol = style.symbol.copy()?;
    let mark = mark_text(alloc, style.mark)?;
    Ok(UnitRow {
        nr: nr as i64,
        symbol,
        decimals: i64::from(style.decimals),
        mark,
        grouped: truth(style.grouped),
        leftside: truth(style.left),
        spaced: truth(style.spaced),
    })
}

/// The row of a new branch of that number.
fn branch_row(nr: usize, name: &Text) -> Result<BranchRow, Cause>
    requires { nr < 2 ^ 63 }
    ensures equal { IfOk result (λ row. row ≡ branch_row nr (new_branch name.now)) }
    ensures memory { IsOkUnless result Cause.OutOfMemory }
{
    let name = name.copy()?;
    Ok(BranchRow {
        nr: nr as i64,
        name,
        locked: None,
    })
}

/// The body of a transaction.
fn body_of(alloc: Global, styles: &Styles, txn: &Txn) -> Result<Text, Cause>
    requires { IsPrintable styles.now txn.now }
    ensures equal { IfOk result (λ text. text ≡ body_text styles.now txn.now) }
    ensures memory { IsOkUnless result Cause.OutOfMemory }
{
    styles.are_styles();
    let mut bytes = Vec::new(alloc);
    body(alloc, txn, styles, &mut bytes)?;
    Text::of(alloc, text_of(&bytes))
}

/// The row of an entry.
fn entry_row(
    alloc: Global,
    styles: &Styles,
    branch: usize,
    nr: usize,
    kept: &Record,
) -> Result<EntryRow, Cause>
    requires printable { IsPrintable styles.now kept.now.txn }
    requires branch { branch < 2 ^ 63 }
    requires nr { nr < 2 ^ 63 }
    ensures equal { IfOk result (λ row. row ≡ entry_row styles.now branch nr kept.now) }
    ensures memory { IsOkUnless result Cause.OutOfMemory }
{
    let mark = kept.mark.copy()?;
    let body = body_of(alloc, styles, &kept.txn)?;
    Ok(EntryRow {
        branch: branch as i64,
        nr: nr as i64,
        day: i64::from(kept.entry.day.0),
        mark,
        body,
    })
}

/// The row of a leg, by its number in its entry.
fn leg_row(branch: usize, entry: usize, nr: usize, leg: &Leg) -> Result<LegRow, Cause>
    requires branch { branch < 2 ^ 63 }
    requires entry { entry < 2 ^ 63 }
    requires nr { nr < 2 ^ 63 }
    ensures equal { IfOk result (λ row. row ≡ leg_row branch entry nr leg.now) }
    ensures memory { IsOkUnless result Cause.OutOfMemory }
{
    let account = leg.account.copy()?;
    Ok(LegRow {
        branch: branch as i64,
        entry: entry as i64,
        nr: nr as i64,
        account,
        unit: i64::from(leg.unit.0),
        qty: leg.qty,
    })
}

/// The row of an assertion.
fn claim_row(branch: usize, entry: usize, placed: &Placed) -> ClaimRow
    requires branch { branch < 2 ^ 63 }
    requires entry { entry < 2 ^ 63 }
    requires leg { placed.now.leg < 2 ^ 63 }
    ensures { result ≡ claim_row branch entry placed.now }
{
    let claim = placed.claim;
    ClaimRow {
        branch: branch as i64,
        entry: entry as i64,
        leg: placed.leg as i64,
        kind: kind_number(claim.kind),
        unit: i64::from(claim.unit.0),
        qty: claim.qty,
    }
}

/// Puts the rows of an entry's legs last.
fn push_legs(
    branch: usize,
    nr: usize,
    kept: &Record,
    changes: &mut Items<Change>,
) -> Result<(), Cause>
    requires branch { branch < 2 ^ 63 }
    requires nr { nr < 2 ^ 63 }
    ensures ok { OnOk result (changes.new ≡ changes.old ++ map LegChange (leg_rows branch nr kept.now)) }
    ensures memory { IsOkUnless result Cause.OutOfMemory }
{
    let mut place = 0;
    'leg: for leg in kept.entry.legs.items() {
        place += 1;
        let row = leg_row(branch, nr, place, leg)?;
        changes.push(Change::Leg(row))?;
    }
    Ok(())
}

/// How many legs there are: no more than a number of SQLite's.
fn count_of(legs: &[Leg]) -> usize
    ensures count { result ≡ length legs.now }
    ensures few { result < 2 ^ 63 }
{
    legs.len()
}

/// Puts the rows of assertions on these legs last.
fn push_claims(
    branch: usize,
    nr: usize,
    legs: &[Leg],
    claims: &[Placed],
    changes: &mut Items<Change>,
) -> Result<(), Cause>
    requires branch { branch < 2 ^ 63 }
    requires nr { nr < 2 ^ 63 }
    requires on_legs { AllByRecursion (λ (x : Placed). x.leg ≤ length legs.now) claims.now }
    ensures ok { OnOk result (changes.new ≡ changes.old ++ map ClaimChange (map (claim_row branch nr) claims.now)) }
    ensures memory { IsOkUnless result Cause.OutOfMemory }
{
    let _count = count_of(legs);
    'claim: for claim in claims {
        changes.push(Change::Claim(claim_row(branch, nr, claim)))?;
    }
    Ok(())
}

/// Puts the rows of a record last.
fn push_record(
    alloc: Global,
    styles: &Styles,
    branch: usize,
    nr: usize,
    kept: &Record,
    changes: &mut Items<Change>,
) -> Result<(), Cause>
    requires branch { branch < 2 ^ 63 }
    requires nr { nr < 2 ^ 63 }
    requires printable { IsPrintable styles.now kept.now.txn }
    requires legs { AllByRecursion (λ (x : Placed). x.leg ≤ length kept.now.entry.legs) kept.now.entry.claims }
    ensures ok { OnOk result (changes.new ≡ changes.old ++ record_changes styles.now branch nr kept.now) }
    ensures memory { IsOkUnless result Cause.OutOfMemory }
{
    let row = entry_row(alloc, styles, branch, nr, kept)?;
    changes.push(Change::Entry(row))?;
    push_legs(branch, nr, kept, changes)?;
    push_claims(
        branch,
        nr,
        kept.entry.legs.items(),
        kept.entry.claims.items(),
        changes,
    )
}

/// The account of a receipt, if there is one.
fn payee_of(receipt: &Option<Receipt>) -> Result<Option<Text>, Cause>
    ensures equal { IfOk result (λ payee. payee ≡ option_map (λ r. r.payee) receipt.now) }
    ensures memory { IsOkUnless result Cause.OutOfMemory }
{
    match receipt {
        Some(receipt) => {
            let payee = receipt.payee.copy()?;
            Ok(Some(payee))
        }
        None => Ok(None),
    }
}

/// The day of a receipt, if there is one.
fn day_of(receipt: &Option<Receipt>) -> Option<i64>
    ensures { result ≡ option_map (λ r. r.day.0) receipt.now }
{
    match receipt {
        Some(receipt) => Some(i64::from(receipt.day.0)),
        None => None,
    }
}

/// The row of a transfer between branches of these names.
fn transfer_row(names: &[Text], transfer: &Transfer) -> Result<TransferRow, Cause>
    ensures equal { IfOk result (λ row. row ≡ transfer_row (branches_named names.now) transfer.now) }
    ensures memory { IsOkUnless result Cause.OutOfMemory }
{
    let id = transfer.id.copy()?;
    let payer = transfer.payer.copy()?;
    let payee = payee_of(&transfer.receipt)?;
    Ok(TransferRow {
        id,
        source: place_of(names, transfer.source.as_str()) as i64,
        target: place_of(names, transfer.target.as_str()) as i64,
        unit: i64::from(transfer.unit.0),
        qty: transfer.qty,
        dispatched: i64::from(transfer.day.0),
        payer,
        received: day_of(&transfer.receipt),
        payee,
    })
}

/// Whether the receipt is that of what was left.
fn is_all(part: &Part) -> bool
    ensures { result ≡ is_all part.now.key }
{
    part.key.as_str() == "all"
}

/// The row of a part of the transfer of that ID.
fn part_row(id: &Text, part: &Part) -> Result<PartRow, Cause>
    ensures equal { IfOk result (λ row. row ≡ part_row id.now part.now) }
    ensures memory { IsOkUnless result Cause.OutOfMemory }
{
    let transfer = id.copy()?;
    let key = part.key.copy()?;
    let payee = part.payee.copy()?;
    Ok(PartRow {
        transfer,
        part: key,
        qty: part.qty,
        received: i64::from(part.day.0),
        payee,
    })
}

/// The change by a receipt of the transfer of that ID: a row of a part, or two columns of the transfer's row.
fn receipt_change(id: &Text, part: &Part) -> Result<Change, Cause>
    ensures equal { IfOk result (λ change. change ≡ receipt_change (is_all part.now.key) id.now part.now) }
    ensures memory { IsOkUnless result Cause.OutOfMemory }
{
    if !is_all(part) {
        let row = part_row(id, part)?;
        return Ok(Change::Part(row));
    }
    let id = id.copy()?;
    let payee = part.payee.copy()?;
    Ok(Change::Receipt {
        id,
        day: i64::from(part.day.0),
        payee,
    })
}

/// Puts the changes by a record of the branch at that place last, if there is one, and counts the record.
fn add_record(
    alloc: Global,
    styles: &Styles,
    place: usize,
    records: &mut Vec<usize>,
    kept: &Record,
    changes: &mut Items<Change>,
) -> Result<(), Cause>
    requires { place < length records.old.items → IsWritable styles.now (slice_index records.old.items place) kept.now }
    ensures ok { OnOk result (changes.new
        ≡ changes.old
        ++ (if nat_lt place (length records.old.items)
        then record_changes styles.now place (suc (slice_index records.old.items place)) kept.now else [])) }
    ensures counted { OnOk result (records.new.items
        ≡ slice_set records.old.items place (suc (slice_index records.old.items place))) }
    ensures memory { IsOkUnless result Cause.OutOfMemory }
{
    if place >= records.len() {
        return Ok(());
    }
    let nr = records[place] + 1;
    records[place] = nr;
    push_record(alloc, styles, place, nr, kept, changes)
}

/// Puts the changes by one addition last, and counts what it adds.
fn add_changes(
    alloc: Global,
    styles: &Styles,
    names: &[Text],
    counts: &mut Counts,
    addition: &Addition,
    changes: &mut Items<Change>,
) -> Result<(), Cause>
    requires { CanWrite styles.now names.now counts.old addition.now }
    ensures ok { OnOk result (changes.new ≡ changes.old ++ changes_by styles.now names.now counts.old addition.now) }
    ensures counted { OnOk result (counts.new ≡ counts_after names.now counts.old addition.now) }
    ensures memory { IsOkUnless result Cause.OutOfMemory }
{
    match addition {
        Addition::Commodity(style) => {
            let row = unit_row(alloc, counts.units, style)?;
            counts.units += 1;
            changes.push(Change::Unit(row))
        }
        Addition::Branch(name) => {
            let row = branch_row(counts.records.len(), name)?;
            counts.records.push(0)?;
            changes.push(Change::Branch(row))
        }
        Addition::Record(name, kept) => {
            let place = place_of(names, name.as_str());
            add_record(alloc, styles, place, &mut counts.records, kept, changes)
        }
        Addition::Dispatched(transfer) => {
            let row = transfer_row(names, transfer)?;
            changes.push(Change::Transfer(row))
        }
        Addition::Received(id, part) => {
            let receipt = receipt_change(id, part)?;
            changes.push(receipt)
        }
        Addition::Locked(name, day) => {
            let branch = place_of(names, name.as_str()) as i64;
            changes.push(Change::Lock {
                branch,
                day: i64::from(day.0),
            })
        }
    }
}

/// The changes by a list of additions, and what they add is counted.
fn all_changes(
    alloc: Global,
    styles: &Styles,
    names: &[Text],
    counts: &mut Counts,
    additions: &[Addition],
) -> Result<Items<Change>, Cause>
    requires { CanWriteFrom styles.now names.now counts.old additions.now }
    ensures changes { IfOk result (λ list. list ≡ changes_from styles.now names.now counts.old additions.now) }
    ensures counted { OnOk result (counts.new ≡ counts_after_all names.now counts.old additions.now) }
    ensures memory { IsOkUnless result Cause.OutOfMemory }
{
    let mut changes = Items::empty(alloc);
    'addition: for addition in additions {
        add_changes(alloc, styles, names, counts, addition, &mut changes)?;
    }
    Ok(changes)
}

/// The changes by which the additions are written after a state of these numbers, and the numbers after them.
pub(crate) fn changes_of(
    alloc: Global,
    numbers: &Numbers,
    additions: &[Addition],
) -> Result<(Items<Change>, Numbers), Cause>
    requires styles { AreStyles (styles_with numbers.now.styles additions.now) }
    requires fit { CanWriteFrom (styles_with numbers.now.styles additions.now)
        (names_with numbers.now.names additions.now) (counts_of_numbering numbers.now) additions.now }
    ensures changes { IfOk result (λ r. r.0 ≡ changes_of numbers.now additions.now) }
    ensures numbers { IfOk result (λ r. r.1 ≡ numbers_with numbers.now additions.now) }
    ensures memory { IsOkUnless result Cause.OutOfMemory }
{
    let styles = more_styles(alloc, &numbers.styles, additions)?;
    let names = more_names(&numbers.names, additions)?;
    let mut counts = Counts {
        units: numbers.styles.len(),
        records: numbers.records.clone()?,
    };
    let changes = all_changes(alloc, &styles, names.items(), &mut counts, additions)?;
    let Counts { units: _, records } = counts;
    let numbers = Numbers {
        styles,
        names,
        records,
    };
    Ok((changes, numbers))
}
