//! What is said to a word: the answer, and the reason of a refusal.

ghost use Rattle.std.specs.Prelude.{◌≡◌, [], false, Ok};
ghost use Rattle.treasury_core.specs.declared.command.Answer.{Answer as Answered};
ghost use Rattle.treasury_api.specs.Answer.{answer_text};
ghost use Rattle.treasury.specs.OverFile.{IsRefusedBy};
ghost use Rattle.treasury.specs.OverFileParts.{spoken};

use money_core::Cause;
use std::alloc::Global;
use std::borrow::CowSlice;
use terminal_text::push_shown;
use treasury_api::plain_line;

/// What is said to a word.
#[derive(Drop)]
pub struct Said {
    /// For standard output: the line of a command or of a refusal, or the lines of a report.
    pub answer: CowSlice<'static, u8>,
    /// For standard error: why it is refused, as far as there was memory for it.
    pub reason: Vec<u8>,
    pub is_refused: bool,
}

/// The line of a reason, after what it comes from.
fn reason_line(alloc: Global, origin: &str, reason: &str) -> Result<Vec<u8>, Cause> {
    let named = if origin.is_empty() { "''" } else { origin };
    let mut line = Vec::new(alloc);
    line.extend_from_slice(b"treasury: ")?;
    push_shown(named.as_bytes(), &mut line)?;
    line.extend_from_slice(b": ")?;
    line.extend_from_slice(reason.as_bytes())?;
    line.extend_from_slice(b"\n")?;
    Ok(line)
}

/// Said where the word is refused by a cause alone, with the reason of what it comes from.
#[tactic(auto, unfolding(treasury_api::specs::Answer::answer_text))]
pub fn refused(alloc: Global, cause: Cause, origin: &str, reason: &str) -> Said
    ensures { IsRefusedBy cause (spoken result) }
{
    let reason = match reason_line(alloc, origin, reason) {
        Ok(line) => line,
        Err(_) => Vec::new(alloc),
    };
    Said {
        answer: CowSlice::Borrowed(plain_line(cause)),
        reason,
        is_refused: true,
    }
}

/// Said where it is done, by the line `ok`.
#[tactic(auto, unfolding(treasury_api::specs::Answer::answer_text))]
pub fn done(alloc: Global) -> Said
    ensures { spoken result ≡ record { text = answer_text [] (Ok Answered.Done); refused = false } }
{
    Said {
        answer: CowSlice::Borrowed(b"ok\n"),
        reason: Vec::new(alloc),
        is_refused: false,
    }
}
