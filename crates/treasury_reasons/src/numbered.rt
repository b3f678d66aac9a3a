//! Entries and legs by their numbers, which are counted from 1.

ghost use Rattle.std.specs.Prelude.{◌≡◌, ◌++◌};
ghost use Rattle.std.specs.Option.{option_map};
ghost use Rattle.journal_hints.specs.Numbered.{item_of_number};

use book_core::{Entry, Leg};
use treasury_core::Record;

/// The record of that number.
fn record_at(records: &[Record], number: usize) -> Option<&Record>
    ensures { option_map (λ r. r.now) result ≡ item_of_number records.now number }
{
    match number {
        0 => None,
        _ => records.get(number - 1),
    }
}

/// The entry of that number: the branch has these records, and a text would bring the new ones after them.
pub fn entry_at<'a>(records: &'a [Record], new: &'a [Record], number: usize) -> Option<&'a Record>
    ensures { option_map (λ r. r.now) result ≡ item_of_number (records.now ++ new.now) number }
{
    if number <= records.len() {
        record_at(records, number)
    } else {
        record_at(new, number - records.len())
    }
}

/// The leg of that number.
pub fn leg_at(entry: &Entry, number: usize) -> Option<&Leg>
    ensures { option_map (λ l. l.now) result ≡ item_of_number entry.now.legs number }
{
    match number {
        0 => None,
        _ => entry.legs.items().get(number - 1),
    }
}
