//! Whether rows are those of a draft.

ghost use Rattle.std.specs.Prelude.{◌≡◌, ◌↔◌, ◌++◌, ◌∷◌, [], ℕ, List, map, length, pos, Option, IsTrue, MatchOption};
ghost use Rattle.std.specs.List.{enumerate_from};
ghost use Rattle.std.specs.Option.{option_map};
ghost use Rattle.money_core.specs.declared.day.Day.{Day as DayNumber};
ghost use Rattle.treasury_state.specs.declared.record.Record.{Record as BranchRecord};
ghost use Rattle.treasury_state.specs.declared.transfer.Receipt.{Receipt as TransferReceipt};
ghost use Rattle.treasury_state.specs.Federation.{name_place};
ghost use Rattle.treasury_state.specs.Rows.{truth, kind_number, unit_row, unit_rows, branch_row, branch_rows_from};
ghost use Rattle.treasury_state.specs.Rows.{entry_rows_in, leg_row, claim_row, leg_rows, claim_rows, transfer_row};
ghost use Rattle.treasury_state.specs.Rows.{part_row, part_rows, rows};
ghost use Rattle.treasury_rows.specs.Drafted.{record_rows_from, record_rows_in};

use crate::drafting::{are_equal, is_day, is_number, rows_before, rows_from};
use book_core::{ClaimKind, Leg, Placed};
use money_core::{Day, Same, Style, Styles, Text, Unit};
use treasury_state::{
    BranchRow, ClaimRow, Draft, DraftBranch, LegRow, Part, PartRow, Parts, Receipt, Record,
    Transfer, TransferRow, UnitRow,
};

/// Whether a column has that truth value.
fn is_truth(value: i64, flag: bool) -> bool
    ensures { IsTrue result ↔ (truth flag ≡ value) }
{
    if flag { value == 1 } else { value == 0 }
}

/// Whether the row is that of the commodity.
fn is_unit_row(nr: usize, style: &Style, row: &UnitRow) -> bool
    ensures { IsTrue result ↔ (unit_row nr style.now ≡ row.now) }
{
    let mark = [style.mark.decimal()];
    is_number(row.nr, nr)
        && style.symbol.is_same(&row.symbol)
        && is_number(row.decimals, style.decimals as usize)
        && are_equal(mark.as_slice(), row.mark.as_str().as_bytes())
        && is_truth(row.grouped, style.grouped)
        && is_truth(row.leftside, style.left)
        && is_truth(row.spaced, style.spaced)
}

/// Whether the rows are those of the commodities.
fn are_unit_rows(styles: &Styles, list: &[UnitRow]) -> bool
    ensures { IsTrue result ↔ (unit_rows styles.now ≡ list.now) }
{
    if styles.len() != list.len() {
        return false;
    }
    for (i, row) in list.iter().enumerate() {
        match styles.style(Unit(i as u16)) {
            Some(style) => {
                if !is_unit_row(i, style, row) {
                    return false;
                }
            }
            None => return false,
        }
    }
    true
}

/// Whether a column has that day, or none.
fn is_lock(value: Option<i64>, locked: Option<Day>) -> bool
    ensures { IsTrue result ↔ (option_map (λ (d : DayNumber). d.0) locked ≡ value) }
{
    match (value, locked) {
        (None, None) => true,
        (Some(value), Some(day)) => is_day(value, day),
        _ => false,
    }
}

/// Whether the row is that of the branch.
fn is_branch_row(nr: usize, branch: &DraftBranch, row: &BranchRow) -> bool
    ensures { IsTrue result ↔ (branch_row nr branch.now ≡ row.now) }
{
    is_number(row.nr, nr) && branch.name.is_same(&row.name) && is_lock(row.locked, branch.locked)
}

/// Whether the rows are those of the branches.
fn are_branch_rows(branches: &[DraftBranch], list: &[BranchRow]) -> bool
    ensures { IsTrue result ↔ (branch_rows_from 0 branches.now ≡ list.now) }
{
    if branches.len() != list.len() {
        return false;
    }
    for (i, branch) in branches.iter().enumerate() {
        if !is_branch_row(i, branch, &list[i]) {
            return false;
        }
    }
    true
}

/// Whether the branch has that name.
fn has_name(branch: &DraftBranch, name: &Text) -> bool
    ensures { IsTrue result ↔ (branch.now.name ≡ name.now) }
{
    branch.name.is_same(name)
}

/// The number of the branch of that name; how many there are where none has it.
fn place_of(branches: &[DraftBranch], name: &Text) -> usize
    ensures { result ≡ name_place branches.now name.now }
{
    for (i, branch) in branches.iter().enumerate() {
        if has_name(branch, name) {
            return i;
        }
    }
    branches.len()
}

/// Whether two columns have that receipt, or none.
fn is_receipt(received: Option<i64>, payee: &Option<Text>, receipt: &Option<Receipt>) -> bool
    ensures { IsTrue result ↔ ((option_map (λ (r : TransferReceipt). r.day.0) receipt.now ≡ received)
        × (option_map (λ (r : TransferReceipt). r.payee) receipt.now ≡ payee.now)) }
{
    match (received, payee, receipt) {
        (None, None, None) => true,
        (Some(value), Some(account), Some(receipt)) => {
            is_day(value, receipt.day) && receipt.payee.is_same(account)
        }
        _ => false,
    }
}

/// Whether the row is that of the transfer.
fn is_transfer_row(branches: &[DraftBranch], transfer: &Transfer, row: &TransferRow) -> bool
    ensures { IsTrue result ↔ (transfer_row branches.now transfer.now ≡ row.now) }
{
    let source = place_of(branches, &transfer.source);
    let target = place_of(branches, &transfer.target);
    transfer.id.is_same(&row.id)
        && is_number(row.source, source)
        && is_number(row.target, target)
        && is_number(row.unit, transfer.unit.0 as usize)
        && row.qty == transfer.qty
        && is_day(row.dispatched, transfer.day)
        && transfer.payer.is_same(&row.payer)
        && is_receipt(row.received, &row.payee, &transfer.receipt)
}

/// Whether the rows are those of the transfers.
fn are_transfer_rows(branches: &[DraftBranch], transfers: &[Transfer], list: &[TransferRow]) -> bool
    ensures { IsTrue result ↔ (map (transfer_row branches.now) transfers.now ≡ list.now) }
{
    if transfers.len() != list.len() {
        return false;
    }
    for (i, transfer) in transfers.iter().enumerate() {
        if !is_transfer_row(branches, transfer, &list[i]) {
            return false;
        }
    }
    true
}

/// Whether the row is that of the part of the transfer of that ID.
fn is_part_row(id: &Text, part: &Part, row: &PartRow) -> bool
    ensures { IsTrue result ↔ (part_row id.now part.now ≡ row.now) }
{
    id.is_same(&row.transfer)
        && part.key.is_same(&row.part)
        && row.qty == part.qty
        && is_day(row.received, part.day)
        && part.payee.is_same(&row.payee)
}

/// Whether the rows are those of the parts of the transfer of that ID.
fn are_own_rows(id: &Text, parts: &[Part], list: &[PartRow]) -> bool
    ensures { IsTrue result ↔ (map (part_row id.now) parts.now ≡ list.now) }
{
    if parts.len() != list.len() {
        return false;
    }
    for (i, part) in parts.iter().enumerate() {
        if !is_part_row(id, part, &list[i]) {
            return false;
        }
    }
    true
}

/// Whether the rows are those of the parts of all transfers.
fn are_part_rows(transfers: &[Transfer], list: &[PartRow]) -> bool
    ensures { IsTrue result ↔ (part_rows transfers.now ≡ list.now) }
{
    let mut left = list;
    'transfer: for transfer in transfers {
        let parts = transfer.parts.items();
        let count = parts.len();
        if count > left.len() {
            return false;
        }
        if !are_own_rows(&transfer.id, parts, rows_before(left, count)) {
            return false;
        }
        left = rows_from(left, count);
    }
    left.is_empty()
}

/// Whether the row is that of the leg.
fn is_leg_row(branch: usize, entry: usize, nr: usize, leg: &Leg, row: &LegRow) -> bool
    ensures { IsTrue result ↔ (leg_row branch entry nr leg.now ≡ row.now) }
{
    is_number(row.branch, branch)
        && is_number(row.entry, entry)
        && is_number(row.nr, nr)
        && leg.account.is_same(&row.account)
        && is_number(row.unit, leg.unit.0 as usize)
        && row.qty == leg.qty
}

/// The number of a kind of assertions.
fn number_of(kind: ClaimKind) -> usize
    ensures { pos result ≡ kind_number kind }
{
    match kind {
        ClaimKind::Exact => 1,
        ClaimKind::Sole => 2,
        ClaimKind::ExactIn => 3,
        ClaimKind::SoleIn => 4,
    }
}

/// Whether the row is that of the assertion.
fn is_claim_row(branch: usize, entry: usize, claim: &Placed, row: &ClaimRow) -> bool
    ensures { IsTrue result ↔ (claim_row branch entry claim.now ≡ row.now) }
{
    is_number(row.branch, branch)
        && is_number(row.entry, entry)
        && is_number(row.leg, claim.leg)
        && is_number(row.kind, number_of(claim.claim.kind))
        && is_number(row.unit, claim.claim.unit.0 as usize)
        && row.qty == claim.claim.qty
}

/// Whether the rows are those of the legs.
fn are_leg_rows(branch: usize, entry: usize, legs: &[Leg], list: &[LegRow]) -> bool
    ensures { IsTrue result ↔ (map (λ p. leg_row branch entry p.0 p.1) (enumerate_from 1 legs.now) ≡ list.now) }
{
    if legs.len() != list.len() {
        return false;
    }
    for (i, leg) in legs.iter().enumerate() {
        if !is_leg_row(branch, entry, i + 1, leg, &list[i]) {
            return false;
        }
    }
    true
}

/// Whether the rows are those of the assertions.
fn are_claim_rows(branch: usize, entry: usize, claims: &[Placed], list: &[ClaimRow]) -> bool
    ensures { IsTrue result ↔ (map (claim_row branch entry) claims.now ≡ list.now) }
{
    if claims.len() != list.len() {
        return false;
    }
    for (i, claim) in claims.iter().enumerate() {
        if !is_claim_row(branch, entry, claim, &list[i]) {
            return false;
        }
    }
    true
}

/// Rows of a table that has some for each record.
trait RecordRow: Drop {
    /// Those of the n-th record of the b-th branch.
    ghost rows: { ℕ → ℕ → BranchRecord → List Self };

    /// How many a record has.
    fn count(held: &Record) -> usize
        ensures { (b n : ℕ) → length (rows b n held.now) ≡ result };

    /// Whether the list is the rows of the record.
    fn are_rows(branch: usize, nr: usize, held: &Record, list: &[Self]) -> bool
        ensures { IsTrue result ↔ (rows branch nr held.now ≡ list.now) };
}

impl RecordRow for LegRow {
    ghost rows = { leg_rows };

    fn count(held: &Record) -> usize {
        held.entry.legs.items().len()
    }

    fn are_rows(branch: usize, nr: usize, held: &Record, list: &[Self]) -> bool {
        are_leg_rows(branch, nr, held.entry.legs.items(), list)
    }
}

impl RecordRow for ClaimRow {
    ghost rows = { claim_rows };

    fn count(held: &Record) -> usize {
        held.entry.claims.items().len()
    }

    fn are_rows(branch: usize, nr: usize, held: &Record, list: &[Self]) -> bool {
        are_claim_rows(branch, nr, held.entry.claims.items(), list)
    }
}

/// What stands after the rows of the branch's records, if the list begins with them.
fn behind_records<'a, T: RecordRow>(
    branch: usize,
    records: &[Record],
    list: &'a [T],
) -> Option<&'a [T]>
    ensures { MatchOption result
        ((more : List T) → list.now ≡ record_rows_from (T.rows branch) 1 records.now ++ more → ⊥)
        (λ left. list.now ≡ record_rows_from (T.rows branch) 1 records.now ++ left.now) }
{
    let mut left = list;
    'held: for (i, held) in records.iter().enumerate() {
        let count = T::count(held);
        if count > left.len() {
            return None;
        }
        if !T::are_rows(branch, i + 1, held, rows_before(left, count)) {
            return None;
        }
        left = rows_from(left, count);
    }
    Some(left)
}

/// Whether the rows are those of the records of all branches.
fn are_record_rows<T: RecordRow>(branches: &[DraftBranch], list: &[T]) -> bool
    ensures { IsTrue result ↔ (record_rows_in T.rows 0 branches.now ≡ list.now) }
{
    let mut left = list;
    'branch: for (i, branch) in branches.iter().enumerate() {
        match behind_records(i, branch.records.items(), left) {
            Some(rest) => left = rest,
            None => return false,
        }
    }
    left.is_empty()
}

/// Whether a draft that has these rows of entries has just these rows: it is walked beside them once.
pub(crate) fn has_rows(draft: &Draft, parts: &Parts) -> bool
    requires { entry_rows_in draft.now.styles 0 draft.now.branches ≡ parts.now.entries }
    ensures { IsTrue result ↔ (rows draft.now ≡ parts.now) }
{
    let branches = draft.branches.items();
    if !are_unit_rows(&draft.styles, parts.units.items()) {
        return false;
    }
    if !are_branch_rows(branches, parts.branches.items()) {
        return false;
    }
    if !are_transfer_rows(branches, draft.transfers.items(), parts.transfers.items()) {
        return false;
    }
    if !are_part_rows(draft.transfers.items(), parts.receipts.items()) {
        return false;
    }
    if !are_record_rows(branches, parts.legs.items()) {
        return false;
    }
    are_record_rows(branches, parts.claims.items())
}
