//! Days of a lock, a closing or a receipt that may be a slip, and entries that nobody may have checked.

ghost use Rattle.std.specs.Prelude.{◌≡◌, ◌++◌, OnOk};
ghost use Rattle.std.specs.List.{count_by, list_any};
ghost use Rattle.std.specs.Option.{option_map};
ghost use Rattle.treasury_messages.specs.Said.{naming};
ghost use Rattle.import_notes.specs.FarDays.{span_of, far_transfer};
ghost use Rattle.treasury_notes.specs.Days.{late_said, early_said, is_later, later_said, is_in_period};
ghost use Rattle.treasury_notes.specs.Days.{asserts_in_period, period_values, unasserted_said};

use import_notes::days::{is_after_by, say_far, span_of};
use money_core::Day;
use treasury_core::{Record, Transfer};
use treasury_messages::Piece::{Number, Text, Words};
use treasury_messages::{Done, Message, MessageKind, Messages, Piece, say};
use treasury_state::is_locked;

/// How many days after its dispatch a receipt may be before it is noted.
const MOST_TO_RECEIPT: i32 = 366;

/// Says of a dispatch or a receipt that its day is far from those of the entries that its branch had.
pub(crate) fn say_far_transfer(branch: &str, held: &[Record], day: Day, out: &mut Messages) -> Done
    ensures { OnOk result (out.new.items ≡ out.old.items ++ far_transfer held.now day branch.now) }
{
    match span_of(held) {
        Some(span) if span.is_far_from(day) => {
            let place = [Text(b"--day"), Words(b": ")];
            say_far(&place, span, 1, day, branch, out)
        }
        _ => Ok(()),
    }
}

/// Says of a receipt, if its transfer is there, that its day is far after that of the dispatch.
pub(crate) fn say_late(transfer: Option<&Transfer>, day: Day, out: &mut Messages) -> Done
    ensures { OnOk result (out.new.items ≡ out.old.items ++ late_said day (option_map (λ t. t.now) transfer.entry)) }
{
    match transfer {
        Some(transfer) if is_after_by(MOST_TO_RECEIPT, transfer.day, day) => {
            let pieces = [
                Words(b"--day: "),
                Piece::Day(day),
                Words(b" is more than 366 days after the dispatch of "),
                Text(transfer.id.as_str().as_bytes()),
                Words(b", "),
                Piece::Day(transfer.day),
            ];
            say(MessageKind::LateReceipt, &pieces, out)
        }
        _ => Ok(()),
    }
}

/// Says of what day the last entry of a branch is, where a lock or a closing is more than so many days later; `done`
/// says before that day what is done through it.
pub(crate) fn say_early(
    kind: MessageKind,
    most: i32,
    done: &'static [u8],
    branch: &str,
    records: &[Record],
    day: Day,
    out: &mut Messages,
) -> Done
    ensures { OnOk result (out.new.items ≡ out.old.items ++ early_said kind most branch.now day (span_of records.now)) }
{
    match span_of(records) {
        Some(span) if is_after_by(most, span.newest, day) => {
            let pieces = [
                Words(b"the last entry of "),
                Text(branch.as_bytes()),
                Words(b" is dated "),
                Piece::Day(span.newest),
                Words(done),
                Piece::Day(day),
                Words(b", which cannot be undone"),
            ];
            say(kind, &pieces, out)
        }
        _ => Ok(()),
    }
}

/// How many of the records are of a later day.
fn count_later(day: Day, held: &[Record]) -> usize
    ensures { result ≡ count_by (is_later day) held.now }
{
    held.iter()
        .filter(|record| day.0 < record.entry.day.0)
        .count()
}

/// Says of a closing how many entries of the branch are of later days.
pub(crate) fn say_later(branch: &str, held: &[Record], day: Day, out: &mut Messages) -> Done
    ensures { OnOk result (out.new.items
        ≡ out.old.items ++ later_said branch.now held.now day (span_of held.now)) }
{
    match span_of(held) {
        Some(span) if day.0 < span.newest.0 => {
            let pieces = [
                Text(branch.as_bytes()),
                Words(b" has later entries: "),
                Number(count_later(day, held)),
                Words(b" after "),
                Piece::Day(day),
                Words(b", the newest dated "),
                Piece::Day(span.newest),
            ];
            say(MessageKind::LaterEntries, &pieces, out)
        }
        _ => Ok(()),
    }
}

/// Whether a record is of the period that ends with the day: after that through which the branch was locked.
fn is_in_period(locked: Option<Day>, day: Day, row: &Record) -> bool
    ensures { result ≡ is_in_period locked day row.now }
{
    !is_locked(locked, row.entry.day) && row.entry.day.0 <= day.0
}

/// Whether it is, and a posting of it asserts a balance.
fn asserts_in_period(locked: Option<Day>, day: Day, row: &Record) -> bool
    ensures { result ≡ asserts_in_period locked day row.now }
{
    is_in_period(locked, day, row) && !row.entry.claims.items().is_empty()
}

/// Adds from where to where the period is, in which nothing asserts a balance.
fn add_period(locked: Option<Day>, day: Day, message: &mut Message) -> Done
    ensures { OnOk result (message.new ≡ naming message.old (period_values locked day)) }
{
    if let Some(lock) = locked {
        if lock.0 < day.0 {
            message.add(&[Words(b" from "), Piece::Day(Day(lock.0 + 1))])?;
        }
    }
    let end = Piece::Day(day);
    let pieces = [Words(b" through "), end, Words(b" asserts a balance")];
    message.add(&pieces)
}

/// Whether one of the records is of the period.
fn has_entry(locked: Option<Day>, day: Day, records: &[Record]) -> bool
    ensures { result ≡ list_any (is_in_period locked day) records.now }
{
    records.iter().any(|row| is_in_period(locked, day, row))
}

/// Whether one is, and asserts a balance.
fn has_assertion(locked: Option<Day>, day: Day, records: &[Record]) -> bool
    ensures { result ≡ list_any (asserts_in_period locked day) records.now }
{
    records
        .iter()
        .any(|row| asserts_in_period(locked, day, row))
}

/// Says of a lock or a closing that entries of the period that it ends are there, and none that asserts a balance.
pub(crate) fn say_unasserted(
    branch: &str,
    records: &[Record],
    locked: Option<Day>,
    day: Day,
    out: &mut Messages,
) -> Done
    ensures { OnOk result (out.new.items
        ≡ out.old.items ++ unasserted_said branch.now records.now locked day) }
{
    if !has_entry(locked, day, records) || has_assertion(locked, day, records) {
        return Ok(());
    }
    let mut message = Message::new(*out.allocator(), MessageKind::NoAssertion);
    message.add(&[Words(b"no entry of "), Text(branch.as_bytes())])?;
    add_period(locked, day, &mut message)?;
    message.say(out)
}
