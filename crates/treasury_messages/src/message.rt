//! Messages.

ghost use Rattle.std.specs.Prelude.{◌≡◌, ◌++◌, ℕ, List, [], ◌∷◌, OnOk, OnErr};
ghost use Rattle.treasury_messages.specs.Said.{says, naming};
ghost use Rattle.treasury_messages.specs.Pieces.{piece_values, values};
ghost use Rattle.treasury_messages.specs.Printed.{IsMessageLine};

use crate::kind::MessageKind;
use crate::part::{Part, push_parts};
use crate::piece::{Piece, put_piece};
use money_core::Cause;
use std::alloc::Global;
use std::marker::Model;

/// Messages, one after another.
pub type Messages = Vec<Message>;

/// What a call answers that does something: nothing, or the cause for which it is not done.
pub type Done = Result<(), Cause>;

/// A message: what it is about, and what it names among its words.
#[derive(Drop)]
pub struct Message {
    kind: MessageKind,
    parts: Vec<Part>,
}

impl Model for Message {
    ghost use Rattle.std.specs.List.{flat_map};
    ghost use Rattle.treasury_messages.specs.Said.{Said, says};
    ghost use Rattle.treasury_messages.specs.Parts.{part_values};

    ghost Value = { Said };

    ghost view = { λ m. says m.kind (flat_map part_values m.parts.items) };
}

impl Message {
    /// A message that names nothing yet.
    pub fn new(alloc: Global, kind: MessageKind) -> Message
        ensures { result ≡ says kind [] }
    {
        Message {
            kind,
            parts: Vec::new(alloc),
        }
    }

    /// Says a piece more.
    fn add_one(&mut self, piece: Piece<'_>) -> Done
        ensures ok { OnOk result (self.new ≡ naming self.old (piece_values piece.entry)) }
    {
        put_piece(piece, &mut self.parts)
    }

    /// Says more of these pieces.
    pub fn add(&mut self, pieces: &[Piece<'_>]) -> Done
        ensures ok { OnOk result (self.new ≡ naming self.old (values pieces.now)) }
    {
        for piece in pieces {
            self.add_one(*piece)?;
        }
        Ok(())
    }

    /// Says the message, after others. Where memory is refused, nothing is said.
    pub fn say(self, out: &mut Messages) -> Done
        ensures ok { OnOk result (out.new.items ≡ out.old.items ++ self ∷ []) }
        ensures err { OnErr result (out.new.items ≡ out.old.items) }
    {
        out.push(self)?;
        Ok(())
    }

    /// Appends the line of the message.
    pub(crate) fn push_line(&self, out: &mut Vec<u8>) -> Done
        ensures value { OnOk result
            ((line : List ℕ) × IsMessageLine self.now line × (out.new.items ≡ out.old.items ++ line)) }
    {
        out.extend_from_slice(self.kind.beginning())?;
        push_parts(self.parts.as_slice(), out)?;
        out.extend_from_slice(b"\n")?;
        Ok(())
    }
}

/// Says a message of these pieces, after others. Where memory is refused, nothing is said.
pub fn say(kind: MessageKind, pieces: &[Piece<'_>], out: &mut Messages) -> Done
    ensures ok { OnOk result (out.new.items ≡ out.old.items ++ says kind (values pieces.now) ∷ []) }
    ensures err { OnErr result (out.new.items ≡ out.old.items) }
{
    let mut message = Message::new(*out.allocator(), kind);
    message.add(pieces)?;
    message.say(out)
}

/// Says what helps a person, in these words alone, after others.
pub fn hint(words: &'static [u8], out: &mut Messages) -> Done
    ensures ok { OnOk result (out.new.items ≡ out.old.items ++ says MessageKind.Hint [] ∷ []) }
{
    say(MessageKind::Hint, &[Piece::Words(words)], out)
}
