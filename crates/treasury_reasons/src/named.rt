//! Messages that name one text.

ghost use Rattle.std.specs.Prelude.{◌≡◌, ◌++◌, [], ◌∷◌, OnOk};
ghost use Rattle.treasury_messages.specs.Said.{says};

use treasury_messages::Piece::{Text, Words};
use treasury_messages::{Done, MessageKind, Messages, say};

/// Says a text after words.
pub(crate) fn say_named(
    kind: MessageKind,
    words: &'static [u8],
    text: &str,
    out: &mut Messages,
) -> Done
    ensures { OnOk result (out.new.items ≡ out.old.items ++ says kind (text.now ∷ []) ∷ []) }
{
    say(kind, &[Words(words), Text(text.as_bytes())], out)
}
