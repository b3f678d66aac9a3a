//! A sample of three decimals without a group mark: a group mark may have been meant.

ghost use Rattle.std.specs.Prelude.{◌≡◌, ◌++◌, [], ◌∷◌, OnOk};
ghost use Rattle.treasury_messages.specs.Said.{says};
ghost use Rattle.treasury_notes.specs.SampleNote.{sample_said};

use money_core::{Cause, read_style};
use std::alloc::Global;
use treasury_messages::Piece::{Text, Words};
use treasury_messages::{Done, MessageKind, Messages, say};

/// Says that a sample declares three decimals after that mark.
fn say_three<'a>(sample: &'a [u8], mark: &'a [u8], out: &mut Messages) -> Done
    ensures { OnOk result (out.new.items
        ≡ out.old.items ++ says MessageKind.ThreeDecimals (sample.now ∷ mark.now ∷ []) ∷ []) }
{
    let pieces = [
        Text(sample),
        Words(b" declares 3 decimals, after `"),
        Text(mark),
        Words(b"`, which cannot be changed"),
    ];
    say(MessageKind::ThreeDecimals, &pieces, out)
}

/// Says that a sample declares three decimals without a group mark, as `1,000 EUR` does.
pub(crate) fn say_sample_note(alloc: Global, sample: &str, out: &mut Messages) -> Done
    ensures { OnOk result (out.new.items ≡ out.old.items ++ sample_said sample.now) }
{
    match read_style(alloc, sample) {
        Ok(style) if style.decimals == 3 && !style.grouped => {
            say_three(sample.as_bytes(), &[style.mark.decimal()], out)
        }
        Err(Cause::OutOfMemory) => Err(Cause::OutOfMemory),
        _ => Ok(()),
    }
}
