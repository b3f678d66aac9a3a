//! Days that may be a slip: far from the entries that a branch had.

ghost use Rattle.std.specs.Prelude.{◌≡◌, ◌++◌, ◌∷◌, ℕ, [], false, find, OnOk};
ghost use Rattle.std.specs.List.{count_by};
ghost use Rattle.std.specs.Option.{option_map};
ghost use Rattle.treasury_messages.specs.Pieces.{values};
ghost use Rattle.treasury_messages.specs.Said.{naming};
ghost use Rattle.treasury_reasons.specs.Reading.{line_of};
ghost use Rattle.treasury_state.specs.Index.{IsIndexOf};
ghost use Rattle.treasury_state.specs.declared.record.Record.{Record as Held};
ghost use Rattle.import_notes.specs.FarDays.{with_day, span_of, holds, is_after_by, is_far, is_far_record};
ghost use Rattle.import_notes.specs.FarDays.{more_far, far_said, far_notes};
ghost use Rattle.import_notes.specs.Imported.{import_view};

use crate::import::Import;
use money_core::Day;
use treasury_core::Record;
use treasury_messages::Piece::{Number, Origin, Text, Words};
use treasury_messages::{Done, Message, MessageKind, Messages, Piece};
use treasury_reasons::reading::Read;

/// How many days may be between an entry and those of its branch before it is noted.
const MOST_BETWEEN: i32 = 366;

/// Said of a day that is far after the newest, or else before the oldest.
const FAR_AFTER: &[u8] = b" is more than 366 days after the newest entry that ";

const FAR_BEFORE: &[u8] = b" is more than 366 days before the oldest entry that ";

/// The days of the oldest and the newest of some records or transactions.
#[derive(Clone, Copy)]
pub struct Span {
    pub oldest: Day,
    pub newest: Day,
}

impl Span {
    /// The same, where there is one, with one more day.
    pub fn with_day(span: Option<Span>, day: Day) -> Option<Span>
        ensures { result ≡ with_day span day }
    {
        match span {
            Some(Span { oldest, newest }) => Some(Span {
                oldest: if day.0 < oldest.0 { day } else { oldest },
                newest: if day.0 > newest.0 { day } else { newest },
            }),
            None => Some(Span {
                oldest: day,
                newest: day,
            }),
        }
    }

    /// Whether a day is one of these two, or between them.
    pub fn holds(self, day: Day) -> bool
        ensures { result ≡ holds self day }
    {
        self.oldest.0 <= day.0 && day.0 <= self.newest.0
    }

    /// Whether a day is far after the newest or far before the oldest.
    pub fn is_far_from(self, day: Day) -> bool
        ensures { result ≡ is_far self day }
    {
        is_after_by(MOST_BETWEEN, self.newest, day) || is_after_by(MOST_BETWEEN, day, self.oldest)
    }
}

/// Whether the second day is more than so many days after the first.
pub fn is_after_by(days: i32, first: Day, second: Day) -> bool
    ensures { result ≡ is_after_by days first second }
{
    i64::from(first.0) + i64::from(days) < i64::from(second.0)
}

/// The days of the oldest and the newest record, if there are any.
pub fn span_of(records: &[Record]) -> Option<Span>
    ensures { result ≡ span_of records.now }
{
    let mut span: Option<Span> = None;
    for record in records {
        span = Span::with_day(span, record.entry.day);
    }
    span
}

/// The first of the new records that is far from that span.
fn first_far(span: Span, new: &[Record]) -> Option<&Record>
    ensures { option_map (λ r. r.now) result ≡ find (is_far_record span) new.now }
{
    new.iter().find(|record| span.is_far_from(record.entry.day))
}

/// Whether one of the new records of an import is far from all held ones.
#[tactic(auto, unfolding(crate::specs::FarDays::far_notes))]
pub fn has_far(import: &Import<'_>) -> bool
    ensures { (line : Held → ℕ) → result ≡ false → far_notes (import_view import.now) line ≡ [] }
{
    match span_of(import.held) {
        Some(span) => first_far(span, import.new).is_some(),
        None => false,
    }
}

/// How many of the new records are far from that span.
fn count_far(span: Span, new: &[Record]) -> usize
    ensures { result ≡ count_by (is_far_record span) new.now }
{
    new.iter()
        .filter(|record| span.is_far_from(record.entry.day))
        .count()
}

/// Adds how many more there are beside the first of so many.
fn add_more(count: usize, message: &mut Message) -> Done
    ensures { OnOk result (message.new ≡ naming message.old (more_far count)) }
{
    if count > 1 {
        message.add(&[Words(b"; and "), Number(count - 1), Words(b" more")])?;
    }
    Ok(())
}

/// Says that so many days are far from those of the entries that a branch had; the first is that day, and stands there.
pub fn say_far(
    place: &[Piece<'_>],
    span: Span,
    count: usize,
    day: Day,
    branch: &str,
    out: &mut Messages,
) -> Done
    ensures { OnOk result (out.new.items
        ≡ out.old.items ++ far_said (values place.now) span count day branch.now ∷ []) }
{
    let is_after = span.newest.0 < day.0;
    let (kind, words, end) = if is_after {
        (MessageKind::FarAfter, FAR_AFTER, span.newest)
    } else {
        (MessageKind::FarBefore, FAR_BEFORE, span.oldest)
    };
    let mut message = Message::new(*out.allocator(), kind);
    message.add(place)?;
    message.add(&[
        Piece::Day(day),
        Words(words),
        Text(branch.as_bytes()),
        Words(b" had, "),
        Piece::Day(end),
    ])?;
    add_more(count, &mut message)?;
    message.say(out)
}

/// Says which of the new records of an import are far from all held ones, if any are.
#[tactic(auto, unfolding(crate::specs::FarDays::far_notes))]
pub fn say_far_days(import: &Import<'_>, read: &Read, out: &mut Messages) -> Done
    requires { IsIndexOf read.now.first read.now.rows }
    ensures { OnOk result (out.new.items ≡ out.old.items
        ++ far_notes (import_view import.now) (line_of read.now.file.items read.now.rows)) }
{
    let Some(span) = span_of(import.held) else {
        return Ok(());
    };
    let Some(first) = first_far(span, import.new) else {
        return Ok(());
    };
    let place = [Origin(import.source, read.line_of(first))];
    let count = count_far(span, import.new);
    say_far(&place, span, count, first.entry.day, import.branch, out)
}
