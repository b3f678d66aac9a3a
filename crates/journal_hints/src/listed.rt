//! Notes of one kind: how many more there are.

ghost use Rattle.std.specs.Prelude.{◌≡◌, ◌++◌, ◌-◌, OnOk};
ghost use Rattle.journal_hints.specs.Listed.{more_said};

use treasury_messages::Piece::{Number, Words};
use treasury_messages::{Done, MessageKind, Messages, say};

/// The most notes of one kind; of more, a count is given.
pub const MOST: usize = 5;

/// Says how many notes of a kind there are beside those that were given.
pub fn say_more(count: usize, out: &mut Messages) -> Done
    ensures { OnOk result (out.new.items ≡ out.old.items ++ more_said (count - MOST)) }
{
    if count > MOST {
        let pieces = [Words(b"and "), Number(count - MOST), Words(b" more")];
        say(MessageKind::MoreNotes, &pieces, out)?;
    }
    Ok(())
}
