//! New transactions that may have broken an assertion, and the held ones that they may be.

ghost use Rattle.std.specs.Prelude.{◌≡◌, ◌+◌, ◌<◌, ◌^◌, if◌then◌else◌, ◌++◌, ◌∷◌, [], map, length, decimal};
ghost use Rattle.std.specs.Prelude.{IfOk, IfSome, OnOk};
ghost use Rattle.std.specs.List.{position_from};
ghost use Rattle.book_core.specs.Account.{reaches};
ghost use Rattle.journal_lines.specs.HeaderForm.{status_text};
ghost use Rattle.treasury_messages.specs.Said.{says};
ghost use Rattle.treasury_messages.specs.Pieces.{header_values};
ghost use Rattle.treasury_state.specs.Index.{IsIndexOf};
ghost use Rattle.treasury_reasons.specs.Failure.{reach_on, watched_of, is_seen, touches_watched, touching};
ghost use Rattle.treasury_reasons.specs.Failure.{same_legs, has_legs_of, text_in, same_header, has_header_of};
ghost use Rattle.treasury_reasons.specs.Failure.{touching_said, more_touching_said, touching_list};
ghost use Rattle.treasury_reasons.specs.Reading.{line_of};

use crate::numbered::leg_at;
use crate::reading::Read;
use book_core::{ClaimKind, Entry, Leg, Place, Placed, Reach, is_inside};
use journal_format::Txn;
use journal_lines::Status;
use money_core::{Cause, Copied, Items, Same, Text};
use std::alloc::Global;
use treasury_core::Record;
use treasury_messages::Piece::{Header, Number, Origin, Words};
use treasury_messages::{Done, MessageKind, Messages, say};

/// The most that are listed; of more, a count is given.
const MOST: usize = 5;

/// What an assertion looks at: the account of its leg, and which accounts with it.
#[derive(Drop)]
pub struct Watched {
    pub account: Text,
    pub reach: Reach,
}

/// The accounts that the assertion on the leg of that number looks at.
#[tactic(auto, unfolding(crate::specs::Failure::reach_on))]
fn reach_on(claims: &[Placed], leg: usize) -> Reach
    ensures { result ≡ reach_on claims.now leg }
{
    for placed in claims {
        if placed.leg == leg {
            return match placed.claim.kind {
                ClaimKind::Exact | ClaimKind::Sole => Reach::Own,
                ClaimKind::ExactIn | ClaimKind::SoleIn => Reach::Inside,
            };
        }
    }
    Reach::Own
}

/// What the assertion on the leg of that number looks at.
pub fn watched_by(entry: &Entry, leg: usize) -> Result<Option<Watched>, Cause>
    ensures { IfOk result (λ watched. watched ≡ watched_of entry.now leg) }
{
    match leg_at(entry, leg) {
        Some(own) => Ok(Some(Watched {
            account: own.account.copy()?,
            reach: reach_on(entry.claims.items(), leg),
        })),
        None => Ok(None),
    }
}

impl Watched {
    /// Whether the assertion looks at the account.
    fn has(&self, account: &str) -> bool
        ensures { result ≡ reaches self.now.reach self.now.account account.now }
    {
        match self.reach {
            Reach::Own => account == self.account.as_str(),
            Reach::Inside => is_inside(account, self.account.as_str()),
        }
    }

    /// Whether it looks at a leg at a place before its own.
    fn sees(&self, leg: &Leg, place: Place, end: Place) -> bool
        ensures { result ≡ is_seen self.now end (record { place = place; leg = leg.now }) }
    {
        self.has(leg.account.as_str()) && !(end <= place)
    }

    /// Whether the entry of that number has a leg that the assertion looks at, before the assertion's place.
    #[tactic(auto, unfolding(crate::specs::Failure::touches_watched))]
    fn is_touched_by(&self, entry: &Entry, number: usize, end: Place) -> bool
        ensures { result ≡ touches_watched self.now end number entry.now }
    {
        for (at, leg) in entry.legs.items().iter().enumerate() {
            let place = Place {
                day: entry.day,
                entry: number,
                leg: at + 1,
            };
            if self.sees(leg, place, end) {
                return true;
            }
        }
        false
    }
}

/// Puts a record after others, if it is one of them.
fn push_if<'a>(found: &mut Vec<&'a Record>, row: &'a Record, is: bool) -> Done
    ensures { OnOk result (map (λ r. r.now) found.new.items
        ≡ map (λ r. r.now) found.old.items ++ (if is then row.now ∷ [] else [])) }
{
    if is {
        found.push(row)?;
    }
    Ok(())
}

/// Those of new records, the first as the entry of that number, that touch what the assertion looks at, before its
/// place.
pub fn find_touching<'a>(
    alloc: Global,
    new: &'a [Record],
    first: usize,
    watched: &Watched,
    end: Place,
) -> Result<Vec<&'a Record>, Cause>
    requires { first + length new.now < 2 ^ 64 }
    ensures { IfOk result (λ found. map (λ r. r.now) found.items ≡ touching watched.now end first new.now) }
{
    let mut found = Vec::new(alloc);
    let mut number = first;
    for row in new {
        let is = watched.is_touched_by(&row.entry, number, end);
        push_if(&mut found, row, is)?;
        number += 1;
    }
    Ok(found)
}

/// Whether the legs are the same.
pub fn are_same_legs(legs: &Items<Leg>, other: &Items<Leg>) -> bool
    ensures { result ≡ same_legs legs.now other.now }
{
    legs.is_same(other)
}

/// The text of a status.
fn status_text(status: Option<Status>) -> &'static str
    ensures { result.now ≡ status_text status }
{
    match status {
        None => "",
        Some(Status::Pending) => "!",
        Some(Status::Cleared) => "*",
    }
}

/// The code of a transaction; none is empty.
fn code_text(txn: &Txn) -> &str
    ensures { result.now ≡ text_in txn.now.code }
{
    match &txn.code {
        Some(code) => code.as_str(),
        None => "",
    }
}

/// Whether two transactions have the same status, code and description.
pub fn is_same_header(txn: &Txn, other: &Txn) -> bool
    ensures { result ≡ same_header txn.now other.now }
{
    status_text(txn.status) == status_text(other.status)
        && code_text(txn) == code_text(other)
        && txn.description.as_str() == other.description.as_str()
}

/// Whether the record has the day and the legs of an entry.
fn has_legs_of(row: &Record, entry: &Entry) -> bool
    ensures { result ≡ has_legs_of entry.now row.now }
{
    row.entry.day.0 == entry.day.0 && are_same_legs(&row.entry.legs, &entry.legs)
}

/// Whether the record has the day and the header of a transaction.
fn has_header_of(row: &Record, txn: &Txn) -> bool
    ensures { result ≡ has_header_of txn.now row.now }
{
    row.txn.day.0 == txn.day.0 && is_same_header(&row.txn, txn)
}

/// The place of the first record with the day and the legs of an entry.
fn legs_place(records: &[Record], entry: &Entry) -> Option<usize>
    ensures value { result ≡ position_from (has_legs_of entry.now) 0 records.now }
    ensures bound { IfSome result (λ place. place < length records.now) }
{
    records.iter().position(|row| has_legs_of(row, entry))
}

/// The place of the first record with the day and the header of a transaction.
fn header_place(records: &[Record], txn: &Txn) -> Option<usize>
    ensures value { result ≡ position_from (has_header_of txn.now) 0 records.now }
    ensures bound { IfSome result (λ place. place < length records.now) }
{
    records.iter().position(|row| has_header_of(row, txn))
}

/// Says a new transaction with its line, and the held entry of that number, with which it shares its day and more.
fn say_like<'a>(
    kind: MessageKind,
    shares: &'static [u8],
    source: &'a str,
    line: usize,
    row: &'a Record,
    number: usize,
    held: &'a Record,
    out: &mut Messages,
) -> Done
    ensures { OnOk result (out.new.items ≡ out.old.items ++ says kind ((source.now ∷ decimal line
        ∷ header_values row.now.txn) ++ (decimal number ∷ header_values held.now.txn)) ∷ []) }
{
    let pieces = [
        Words(b"new: "),
        Origin(source, line),
        Header(&row.txn),
        Words(b"; its day and "),
        Words(shares),
        Words(b" are those of entry "),
        Number(number),
        Words(b", "),
        Header(&held.txn),
        Words(b": was it edited?"),
    ];
    say(kind, &pieces, out)
}

/// Says a new transaction with its line, and the held one that it may be.
#[tactic(auto, unfolding(crate::specs::Failure::touching_said))]
fn say_touching<'a>(
    records: &'a [Record],
    read: &Read,
    source: &'a str,
    row: &'a Record,
    out: &mut Messages,
) -> Done
    requires { IsIndexOf read.now.first read.now.rows }
    ensures { OnOk result (out.new.items ≡ out.old.items ++ touching_said records.now source.now
        (line_of read.now.file.items read.now.rows) row.now ∷ []) }
{
    let line = read.line_of(row);
    if let Some(place) = legs_place(records, &row.entry) {
        let (kind, held) = (MessageKind::TouchingLikeLegs, &records[place]);
        return say_like(kind, b"legs", source, line, row, place + 1, held, out);
    }
    if let Some(place) = header_place(records, &row.txn) {
        let (kind, held) = (MessageKind::TouchingLikeHeader, &records[place]);
        return say_like(kind, b"header", source, line, row, place + 1, held, out);
    }
    let pieces = [Words(b"new: "), Origin(source, line), Header(&row.txn)];
    say(MessageKind::Touching, &pieces, out)
}

/// Says how many there are beside those that are listed.
fn say_more(count: usize, out: &mut Messages) -> Done
    ensures { OnOk result (out.new.items ≡ out.old.items ++ more_touching_said count) }
{
    if count <= MOST {
        return Ok(());
    }
    let pieces = [Words(b"new: and "), Number(count - MOST), Words(b" more")];
    say(MessageKind::MoreTouching, &pieces, out)
}

/// Says these new transactions.
fn say_each(
    records: &[Record],
    read: &Read,
    source: &str,
    new: &[&Record],
    out: &mut Messages,
) -> Done
    requires { IsIndexOf read.now.first read.now.rows }
    ensures { OnOk result (out.new.items ≡ out.old.items
        ++ map (touching_said records.now source.now (line_of read.now.file.items read.now.rows))
        (map (λ r. r.now) new.now)) }
{
    for row in new {
        say_touching(records, read, source, row, out)?;
    }
    Ok(())
}

/// Says new transactions, at most five, and then how many more there are.
pub fn say_list(
    records: &[Record],
    read: &Read,
    source: &str,
    new: &[&Record],
    out: &mut Messages,
) -> Done
    requires { IsIndexOf read.now.first read.now.rows }
    ensures { OnOk result (out.new.items ≡ out.old.items ++ touching_list records.now source.now
        (line_of read.now.file.items read.now.rows) (map (λ r. r.now) new.now)) }
{
    let listed = &new[..new.len().min(MOST)];
    say_each(records, read, source, listed, out)?;
    say_more(new.len(), out)
}
