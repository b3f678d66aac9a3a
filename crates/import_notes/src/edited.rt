//! New entries that may be a held one that was edited, and that the file has no more: they have its day and legs, or
//! its header and accounts, and either its day and other amounts, or its amounts and a day near it.

ghost use Rattle.std.specs.Prelude.{◌≡◌, ◌++◌, ◌∷◌, [], ◌||◌, if◌then◌else◌, not, ℤ, IfOk, OnOk, None, cond};
ghost use Rattle.std.specs.Prelude.{decimal, slice_get};
ghost use Rattle.std.specs.HashMap.{get};
ghost use Rattle.std.specs.Cmp.Lexicographic.{pointwise};
ghost use Rattle.std.specs.Ordering.{int_eq};
ghost use Rattle.journal_hints.specs.Listed.{listed};
ghost use Rattle.treasury_messages.specs.Pieces.{header_values};
ghost use Rattle.treasury_messages.specs.Said.{says};
ghost use Rattle.treasury_state.specs.Index.{IsIndexOf};
ghost use Rattle.treasury_reasons.specs.Reading.{line_of};
ghost use Rattle.import_notes.specs.Edited.{same_amount, same_amounts};
ghost use Rattle.import_notes.specs.DayPlaces.{kept_on, AreDaysOf};
ghost use Rattle.import_notes.specs.Edited.{is_marked, same_account, same_names, unmarked_names, shares};
ghost use Rattle.import_notes.specs.Edited.{shares_if, places_on, if_few, pair_at, pairs_on, pairs_near, pairs_of};
ghost use Rattle.import_notes.specs.Edited.{pairs_from};
ghost use Rattle.import_notes.specs.Edited.{is_next_new, first_passed, passes_at, edited_kind, edited_said};
ghost use Rattle.import_notes.specs.Imported.{import_view};

use crate::days::span_of;
use crate::import::Import;
use crate::places::passes_at;
use book_core::Leg;
use journal_format::Posting;
use journal_hints::listed::{MOST, say_more};
use money_core::Cause;
use std::alloc::Global;
use std::collections::HashMap;
use treasury_core::Record;
use treasury_messages::Piece::{Header, Number, Origin, Words};
use treasury_messages::{Done, MessageKind, Messages, say};
use treasury_reasons::reading::Read;
use treasury_reasons::touching::{are_same_legs, is_same_header};

/// The length of the mark of a transaction that was given none: `h-`, 64 digits, `-`, and a number.
const LEAST_HASH_MARK: usize = 68;

/// The most held entries of a day that are looked at.
const MOST_OF_A_DAY: usize = 1_000;

/// What a new entry may share with held ones that are so many days later, in the order in which they are looked up.
const NEAR: &[(Likeness, i8)] = &[
    (Likeness::Legs, 0),
    (Likeness::Accounts, 0),
    (Likeness::Amounts, -1),
    (Likeness::Amounts, 1),
    (Likeness::Amounts, -2),
    (Likeness::Amounts, 2),
    (Likeness::Amounts, -3),
    (Likeness::Amounts, 3),
    (Likeness::Amounts, -4),
    (Likeness::Amounts, 4),
    (Likeness::Amounts, -5),
    (Likeness::Amounts, 5),
    (Likeness::Amounts, -6),
    (Likeness::Amounts, 6),
];

/// Said of an edited transaction that was entered once more.
const ARE_TWO: &[u8] =
    b": if it was edited, both are in the books now; with a mark (a comment ; bookid:..) from its first import on, the change would have been refused";

/// The same of one that would be.
const WOULD_BE_TWO: &[u8] =
    b": if it was edited, both would be in the books; with a mark (a comment ; bookid:..) from its first import on, the change would be refused";

/// What a new entry shares with a held one that it may be, edited.
#[derive(Clone, Copy)]
pub enum Likeness {
    /// The day and the legs.
    Legs,
    /// The day, the header and the accounts, and not the amounts.
    Accounts,
    /// The header, the accounts and the amounts; it is on another day near to its own.
    Amounts,
}

/// A new record, and the held one that it may be, edited; by their places, from 0.
#[derive(Clone, Copy)]
pub struct Edited {
    pub new: usize,
    pub held: usize,
    pub likeness: Likeness,
}

/// Whether the transaction has a mark of its own.
pub fn is_marked(record: &Record) -> bool
    ensures { result ≡ is_marked record.now }
{
    let mark = record.mark.as_str();
    !mark.starts_with("h-") || mark.len() < LEAST_HASH_MARK
}

/// Whether postings have the same accounts, one by one.
fn are_same_accounts(postings: &[Posting], others: &[Posting]) -> bool
    ensures { result ≡ pointwise same_account postings.now others.now }
{
    if postings.len() != others.len() {
        return false;
    }
    for (place, posting) in postings.iter().enumerate() {
        if posting.account.as_str() != others[place].account.as_str() {
            return false;
        }
    }
    true
}

/// Whether two records have the same status, code, description and accounts.
fn has_names_of(record: &Record, other: &Record) -> bool
    ensures { result ≡ same_names record.now other.now }
{
    is_same_header(&record.txn, &other.txn)
        && are_same_accounts(record.txn.postings.items(), other.txn.postings.items())
}

/// Whether legs have the same amounts, one by one.
fn are_same_amounts(legs: &[Leg], others: &[Leg]) -> bool
    ensures { result ≡ pointwise same_amount legs.now others.now }
{
    if legs.len() != others.len() {
        return false;
    }
    for (place, leg) in legs.iter().enumerate() {
        if leg.unit.0 != others[place].unit.0 || leg.qty != others[place].qty {
            return false;
        }
    }
    true
}

/// Whether two records have the same amounts.
fn has_amounts_of(record: &Record, other: &Record) -> bool
    ensures { result ≡ same_amounts record.now other.now }
{
    are_same_amounts(record.entry.legs.items(), other.entry.legs.items())
}

/// Whether neither of two records has a mark of its own, and both have the same status, code, description and accounts.
fn has_unmarked_names_of(record: &Record, other: &Record) -> bool
    ensures { result ≡ unmarked_names record.now other.now }
{
    !(is_marked(record) || is_marked(other)) && has_names_of(record, other)
}

/// Whether a held record and a new one share so much, and may be one transaction.
fn shares(likeness: Likeness, held: &Record, new: &Record) -> bool
    ensures { result ≡ shares likeness held.now new.now }
{
    match likeness {
        Likeness::Legs => {
            are_same_legs(&held.entry.legs, &new.entry.legs) && !(is_marked(held) && is_marked(new))
        }
        Likeness::Accounts => has_unmarked_names_of(held, new) && !has_amounts_of(held, new),
        Likeness::Amounts => has_unmarked_names_of(held, new) && has_amounts_of(held, new),
    }
}

/// Takes the places that are kept under a day.
fn take_places(alloc: Global, days: &mut HashMap<i64, Vec<usize>>, day: i64) -> Vec<usize>
    ensures taken { result.items ≡ kept_on days.old day }
    ensures left { (other : ℤ) → get int_eq days.new other
        ≡ cond (int_eq day other) None (get int_eq days.old other) }
{
    match days.remove(&day) {
        Some(places) => places,
        None => Vec::new(alloc),
    }
}

/// Puts a place after those that are kept under a day.
fn put_on_day(alloc: Global, days: &mut HashMap<i64, Vec<usize>>, day: i64, place: usize) -> Done
    ensures { OnOk result ((other : ℤ) → kept_on days.new other
        ≡ kept_on days.old other ++ (if int_eq day other then place ∷ [] else [])) }
{
    let mut places = take_places(alloc, days, day);
    places.push(place)?;
    let Ok(_old) = days.insert(day, places) else {
        return Err(Cause::OutOfMemory);
    };
    Ok(())
}

/// The places of held records by their days.
fn days_of(alloc: Global, held: &[Record]) -> Result<HashMap<i64, Vec<usize>>, Cause>
    ensures { IfOk result (λ days. AreDaysOf days held.now) }
{
    let mut days = HashMap::new(alloc);
    for (place, record) in held.iter().enumerate() {
        put_on_day(alloc, &mut days, i64::from(record.entry.day.0), place)?;
    }
    Ok(days)
}

/// The places of held records on a day, if they are not too many.
fn places_on<'a>(days: &'a HashMap<i64, Vec<usize>>, held: &[Record], day: i64) -> &'a [usize]
    requires { AreDaysOf days.now held.now }
    ensures { result.now ≡ if_few (places_on day 0 held.now) }
{
    let _ = held;
    match days.get(&day) {
        Some(places) if places.len() <= MOST_OF_A_DAY => places.as_slice(),
        _ => &[],
    }
}

/// Whether the held record at a place and a new one share so much, and may be one transaction.
fn shares_at(likeness: Likeness, held: &[Record], place: usize, new: &Record) -> bool
    ensures { result ≡ shares_if likeness new.now (slice_get held.now place) }
{
    match held.get(place) {
        Some(record) => shares(likeness, record, new),
        None => false,
    }
}

/// Puts the pair of the new record at a place and the held one at another after others, if they share so much.
fn put_pair(
    held: &[Record],
    place: usize,
    at: usize,
    new: &Record,
    likeness: Likeness,
    found: &mut Vec<Edited>,
) -> Done
    ensures { OnOk result (found.new.items ≡ found.old.items ++ pair_at held.now at new.now likeness place) }
{
    if shares_at(likeness, held, place, new) {
        found.push(Edited {
            new: at,
            held: place,
            likeness,
        })?;
    }
    Ok(())
}

/// Puts the pairs of the new record at a place with held ones on a day after others.
fn put_on(
    days: &HashMap<i64, Vec<usize>>,
    held: &[Record],
    day: i64,
    at: usize,
    new: &Record,
    likeness: Likeness,
    found: &mut Vec<Edited>,
) -> Done
    requires { AreDaysOf days.now held.now }
    ensures { OnOk result (found.new.items ≡ found.old.items ++ pairs_on held.now at new.now likeness day) }
{
    let places = places_on(days, held, day);
    for place in places {
        put_pair(held, *place, at, new, likeness, found)?;
    }
    Ok(())
}

/// The same with held ones that are so many days later.
fn put_later(
    days: &HashMap<i64, Vec<usize>>,
    held: &[Record],
    at: usize,
    new: &Record,
    likeness: Likeness,
    later: i8,
    found: &mut Vec<Edited>,
) -> Done
    requires { AreDaysOf days.now held.now }
    ensures { OnOk result (found.new.items
        ≡ found.old.items ++ pairs_near held.now at new.now (likeness, later)) }
{
    let day = i64::from(new.entry.day.0) + i64::from(later);
    put_on(days, held, day, at, new, likeness, found)
}

/// Puts the pairs of the new record at a place after others.
fn put_near(
    days: &HashMap<i64, Vec<usize>>,
    held: &[Record],
    at: usize,
    new: &Record,
    found: &mut Vec<Edited>,
) -> Done
    requires { AreDaysOf days.now held.now }
    ensures { OnOk result (found.new.items ≡ found.old.items ++ pairs_of held.now at new.now) }
{
    for (likeness, later) in NEAR {
        put_later(days, held, at, new, *likeness, *later, found)?;
    }
    Ok(())
}

/// New records with the held ones that they may be, edited, each with those that are most alike first. What the file
/// has is not looked at.
pub fn find_pairs(alloc: Global, held: &[Record], new: &[Record]) -> Result<Vec<Edited>, Cause>
    ensures { IfOk result (λ found. found.items ≡ pairs_from held.now 0 new.now) }
{
    let days = days_of(alloc, held)?;
    let mut found = Vec::new(alloc);
    for (at, record) in new.iter().enumerate() {
        put_near(&days, held, at, record, &mut found)?;
    }
    Ok(found)
}

/// Whether a new record is another one than the last, if there was one.
fn is_after(last: Option<usize>, new: usize) -> bool
    ensures { result ≡ is_next_new last new }
{
    match last {
        Some(last) => last != new,
        None => true,
    }
}

/// Of the pairs of each new record the first whose held one a file passes over.
fn first_passed(
    alloc: Global,
    read: &Read,
    held: &[Record],
    pairs: &[Edited],
) -> Result<Vec<Edited>, Cause>
    requires { IsIndexOf read.now.first read.now.rows }
    ensures { IfOk result (λ edited.
        edited.items ≡ first_passed (passes_at read.now.rows held.now) None pairs.now) }
{
    let span = span_of(read.rows.items());
    let mut edited = Vec::new(alloc);
    let mut last = None;
    for pair in pairs {
        if is_after(last, pair.new) && passes_at(read, span, held, pair.held) {
            edited.push(*pair)?;
            last = Some(pair.new);
        }
    }
    Ok(edited)
}

/// The kind of a note, and what stands between the headers and behind them.
fn kind_of(likeness: Likeness) -> (MessageKind, &'static [u8], &'static [u8])
    ensures { result.0 ≡ edited_kind likeness }
{
    match likeness {
        Likeness::Legs => (
            MessageKind::EditedLegs,
            b" has the day and the legs of entry ",
            b"",
        ),
        Likeness::Accounts => (
            MessageKind::EditedAccounts,
            b" has the accounts and not the amounts of entry ",
            b", which the file does not have",
        ),
        Likeness::Amounts => (
            MessageKind::EditedAmounts,
            b" has the accounts and the amounts of entry ",
            b", which the file does not have",
        ),
    }
}

/// What holds of a new transaction that is a held one, edited, and what keeps an edited transaction one.
fn if_edited(is_dry_run: bool) -> &'static [u8] {
    if is_dry_run { WOULD_BE_TWO } else { ARE_TWO }
}

/// Says of a new transaction on that line that it may be the entry of that number, edited.
fn say_one<'a>(
    import: &Import<'a>,
    line: usize,
    likeness: Likeness,
    new: &'a Record,
    number: usize,
    held: &'a Record,
    out: &mut Messages,
) -> Done
    ensures { OnOk result (out.new.items ≡ out.old.items
        ++ says (edited_kind likeness) (import.now.source.now ∷ decimal line ∷ header_values new.now.txn
        ++ (decimal number ∷ header_values held.now.txn)) ∷ []) }
{
    let (kind, between, behind) = kind_of(likeness);
    let pieces = [
        Origin(import.source, line),
        Header(&new.txn),
        Words(between),
        Number(number),
        Words(b", "),
        Header(&held.txn),
        Words(behind),
        Words(if_edited(import.is_dry_run)),
    ];
    say(kind, &pieces, out)
}

/// Says which new transaction may be which held entry, edited.
fn say_pair(import: &Import<'_>, read: &Read, pair: Edited, out: &mut Messages) -> Done
    requires { IsIndexOf read.now.first read.now.rows }
    ensures { OnOk result (out.new.items ≡ out.old.items
        ++ edited_said (import_view import.now) (line_of read.now.file.items read.now.rows) pair) }
{
    let Some(new) = import.new.get(pair.new) else {
        return Ok(());
    };
    let Some(held) = import.held.get(pair.held) else {
        return Ok(());
    };
    let line = read.line_of(new);
    say_one(import, line, pair.likeness, new, pair.held + 1, held, out)
}

/// Says the first of the new records that may be held ones, edited, and how many more there are; of these pairs, those
/// whose held record the text passes over.
#[tactic(auto, unfolding(journal_hints::specs::Listed::listed))]
pub fn say_edited(
    alloc: Global,
    import: &Import<'_>,
    read: &Read,
    pairs: &[Edited],
    out: &mut Messages,
) -> Done
    requires { IsIndexOf read.now.first read.now.rows }
    ensures { let it = import_view import.now in OnOk result (out.new.items ≡ out.old.items
        ++ listed MOST (edited_said it (line_of read.now.file.items read.now.rows))
        (first_passed (passes_at read.now.rows it.held) None pairs.now)) }
{
    let found = first_passed(alloc, read, import.held, pairs)?;
    let first = &found.as_slice()[..found.len().min(MOST)];
    for pair in first {
        say_pair(import, read, *pair, out)?;
    }
    say_more(found.len(), out)
}
