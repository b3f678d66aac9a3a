//! The printer of messages.

ghost use Rattle.std.specs.Prelude.{◌≡◌, ◌++◌, ℕ, List, OnOk, OnErr};
ghost use Rattle.treasury_messages.specs.Printed.{IsMessageLine, IsTextOf, IsFirstTextOf};

use crate::message::Message;
use money_core::Cause;

/// Appends the line of a message. Where memory is refused, nothing is appended.
fn push_message(message: &Message, out: &mut Vec<u8>) -> Result<(), Cause>
    ensures ok { OnOk result
        ((line : List ℕ) × IsMessageLine message.now line × (out.new.items ≡ out.old.items ++ line)) }
    ensures err { OnErr result (out.new.items ≡ out.old.items) }
{
    let mut line = Vec::new(*out.allocator());
    message.push_line(&mut line)?;
    out.append(&mut line)?;
    Ok(())
}

/// Appends the lines of messages. Where memory is refused, it appends those of the first ones.
pub fn push_messages(messages: &[Message], out: &mut Vec<u8>) -> Result<(), Cause>
    ensures ok { OnOk result
        ((text : List ℕ) × IsTextOf messages.now text × (out.new.items ≡ out.old.items ++ text)) }
    ensures err { OnErr result
        ((text : List ℕ) × IsFirstTextOf messages.now text × (out.new.items ≡ out.old.items ++ text)) }
{
    for message in messages {
        push_message(message, out)?;
    }
    Ok(())
}
