//! The line of an answer.

ghost use Rattle.std.specs.Prelude.{◌≡◌, ◌++◌, codes, OnOk, OnErr};
ghost use Rattle.std.specs.Prelude.{◌+◌, ◌≤◌, length, IsOk, vec_capacity};
ghost use Rattle.std.specs.List.{flat_map};
ghost use Rattle.std.specs.Result.{IsOkUnless};
ghost use Rattle.money_core.specs.AmountText.{IsDeclared};
ghost use Rattle.journal_lines.specs.Date.{IsDayNumber};
ghost use Rattle.treasury_api.specs.Answer.{refused_text, at_line_text, place_text, difference_text, refusal_text};
ghost use Rattle.treasury_api.specs.Answer.{done_text, answer_text, IsPrintableRefusal, IsPrintableAnswer};
ghost use Rattle.treasury_api.specs.Answer.{IsPlainAnswer};

use crate::plain::plain_line;
use book_core::{Failure, Place, Refusal};
use itoa::Buffer;
use journal_lines::print_date;
use money_core::{Cause, Styles, print_amount};
use std::alloc::{AllocError, Global};
use treasury_core::Answer;

/// The line of an answer that is no text fault and no failed assertion has at most that many bytes.
pub const MOST_PLAIN: usize = 64;

/// Appends the pieces. Where memory is refused, the line is as it was; where there is room, it is not.
pub fn push_pieces(pieces: &[&[u8]], line: &mut Vec<u8>) -> Result<(), AllocError>
    ensures ok { OnOk result (line.new.items ≡ line.old.items ++ flat_map (λ piece. piece.now) pieces.now) }
    ensures err { OnErr result (line.new.items ≡ line.old.items) }
    ensures room { length line.old.items + length (flat_map (λ piece. piece.now) pieces.now) ≤ vec_capacity line.old
        → IsOk result }
    ensures capacity { vec_capacity line.old ≤ vec_capacity line.new }
{
    let before = line.len();
    for piece in pieces {
        if let Err(error) = line.extend_from_slice(piece) {
            line.truncate(before);
            return Err(error);
        }
    }
    Ok(())
}

/// Appends the line that tells how many transactions are entered, and how many were there before.
fn push_entered(new: usize, repeated: usize, line: &mut Vec<u8>) -> Result<(), AllocError>
    ensures ok { OnOk result (line.new.items
        ≡ line.old.items ++ done_text (Answer.Entered new repeated) ++ codes "\n") }
    ensures short { OnOk result (length line.new.items ≤ length line.old.items + MOST_PLAIN) }
    ensures err { OnErr result (line.new.items ≡ line.old.items) }
    ensures room { length line.old.items + MOST_PLAIN ≤ vec_capacity line.old → IsOk result }
    ensures capacity { vec_capacity line.old ≤ vec_capacity line.new }
{
    let mut first = Buffer::new();
    let mut second = Buffer::new();
    let entered = first.format(new).as_bytes();
    let there = second.format(repeated).as_bytes();
    push_pieces(&[b"ok ", entered, b" new, ", there, b" repeated\n"], line)
}

/// Appends the line of an answer that is no refusal.
fn push_done(answer: &Answer, line: &mut Vec<u8>) -> Result<(), AllocError>
    ensures ok { OnOk result (line.new.items ≡ line.old.items ++ done_text answer.now ++ codes "\n") }
    ensures short { OnOk result (length line.new.items ≤ length line.old.items + MOST_PLAIN) }
    ensures err { OnErr result (line.new.items ≡ line.old.items) }
    ensures room { length line.old.items + MOST_PLAIN ≤ vec_capacity line.old → IsOk result }
    ensures capacity { vec_capacity line.old ≤ vec_capacity line.new }
{
    match answer {
        Answer::Done => push_pieces(&[b"ok\n"], line),
        Answer::Entered { new, repeated } => push_entered(*new, *repeated, line),
        Answer::Repeated => push_pieces(&[b"repeated\n"], line),
    }
}

/// Appends the line of a refusal, of the texts of its number, its name and the detail.
fn push_named<'a>(
    nr: &'a [u8],
    name: &'a [u8],
    detail: &'a [u8],
    line: &mut Vec<u8>,
) -> Result<(), AllocError>
    ensures ok { OnOk result (line.new.items
        ≡ line.old.items ++ codes "refused " ++ nr.now ++ codes " " ++ name.now ++ detail.now ++ codes "\n") }
    ensures err { OnErr result (line.new.items ≡ line.old.items) }
    ensures capacity { vec_capacity line.old ≤ vec_capacity line.new }
{
    push_pieces(&[b"refused ", nr, b" ", name, detail, b"\n"], line)
}

/// Appends the line of a refusal: its number, its name and the detail.
fn push_refused(cause: Cause, detail: &[u8], line: &mut Vec<u8>) -> Result<(), AllocError>
    ensures ok { OnOk result (line.new.items ≡ line.old.items ++ refused_text cause ++ detail.now ++ codes "\n") }
    ensures err { OnErr result (line.new.items ≡ line.old.items) }
    ensures capacity { vec_capacity line.old ≤ vec_capacity line.new }
{
    let mut buffer = Buffer::new();
    let nr = buffer.format(cause.nr()).as_bytes();
    let name = cause.name().as_bytes();
    push_named(nr, name, detail, line)
}

/// Appends the line of the journal that has the fault; want of memory is no fault of a line.
fn push_line(alloc: Global, cause: Cause, nr: usize, line: &mut Vec<u8>) -> Result<(), AllocError>
    ensures { OnOk result (line.new.items ≡ line.old.items ++ at_line_text cause nr) }
{
    match cause {
        Cause::OutOfMemory => Ok(()),
        _ => {
            let text = format!(in alloc; " line {nr}")?;
            line.extend_from_slice(text.as_bytes())
        }
    }
}

/// Appends where a leg stands.
fn push_place(alloc: Global, place: &Place, line: &mut Vec<u8>) -> Result<(), Cause>
    requires { IsDayNumber place.now.day }
    ensures ok { OnOk result (line.new.items ≡ line.old.items ++ place_text place.now) }
    ensures memory { IsOkUnless result Cause.OutOfMemory }
{
    line.extend_from_slice(b" at ")?;
    print_date(alloc, place.day, line)?;
    let entry = place.entry;
    let leg = place.leg;
    let text = format!(in alloc; " entry {entry} leg {leg}")?;
    line.extend_from_slice(text.as_bytes())?;
    Ok(())
}

/// Appends the balance that an assertion states, and the one that was found.
fn push_difference(
    alloc: Global,
    styles: &Styles,
    failure: &Failure,
    line: &mut Vec<u8>,
) -> Result<(), Cause>
    requires asserted { IsDeclared styles.now failure.now.unit failure.now.asserted }
    requires found { IsDeclared styles.now failure.now.unit failure.now.found }
    ensures ok { OnOk result (line.new.items ≡ line.old.items ++ difference_text styles.now failure.now) }
    ensures memory { IsOkUnless result Cause.OutOfMemory }
{
    line.extend_from_slice(b": asserted ")?;
    print_amount(alloc, failure.unit, failure.asserted, styles, line)?;
    line.extend_from_slice(b", found ")?;
    print_amount(alloc, failure.unit, failure.found, styles, line)?;
    Ok(())
}

/// Appends the line of a refusal.
fn push_refusal(
    alloc: Global,
    styles: &Styles,
    refusal: &Refusal,
    line: &mut Vec<u8>,
) -> Result<(), Cause>
    requires { IsPrintableRefusal styles.now refusal.now }
    ensures ok { OnOk result (line.new.items ≡ line.old.items ++ refusal_text styles.now refusal.now ++ codes "\n") }
    ensures err { OnErr result (line.new.items ≡ line.old.items) }
    ensures memory { IsOkUnless result Cause.OutOfMemory }
    ensures room { IsPlainAnswer (Err refusal.now) → length line.old.items + MOST_PLAIN ≤ vec_capacity line.old
        → IsOk result }
    ensures capacity { vec_capacity line.old ≤ vec_capacity line.new }
{
    match refusal {
        Refusal::Plain(cause) => line.extend_from_slice(plain_line(*cause))?,
        Refusal::Text(fault) => {
            let mut detail = Vec::new(alloc);
            push_line(alloc, fault.cause, fault.line, &mut detail)?;
            push_refused(fault.cause, &detail, line)?;
        }
        Refusal::ClaimFailed(failure) => {
            let mut detail = Vec::new(alloc);
            push_place(alloc, &failure.place, &mut detail)?;
            push_difference(alloc, styles, failure, &mut detail)?;
            push_refused(Cause::ClaimFailed, &detail, line)?;
        }
    }
    Ok(())
}

/// Appends the line of an answer, which a line feed ends. Where memory is refused, it answers 40, and the vector is as
/// it was. Where the answer is no text fault and no failed assertion, and there is room for `MOST_PLAIN` bytes, it
/// takes no memory.
///
/// A text fault names its line, but for want of memory, and a failed assertion its place, and the amounts that it
/// states and finds.
pub fn answer_line(
    alloc: Global,
    answer: &Result<Answer, Refusal>,
    styles: &Styles,
    out: &mut Vec<u8>,
) -> Result<(), Cause>
    requires { IsPrintableAnswer styles.now answer.now }
    ensures ok { OnOk result (out.new.items ≡ out.old.items ++ answer_text styles.now answer.now) }
    ensures err { OnErr result (out.new.items ≡ out.old.items) }
    ensures memory { IsOkUnless result Cause.OutOfMemory }
    ensures short { IsOk answer.now → OnOk result (length out.new.items ≤ length out.old.items + MOST_PLAIN) }
    ensures room { IsPlainAnswer answer.now → length out.old.items + MOST_PLAIN ≤ vec_capacity out.old → IsOk result }
    ensures capacity { vec_capacity out.old ≤ vec_capacity out.new }
{
    match answer {
        Ok(done) => push_done(done, out)?,
        Err(refusal) => push_refusal(alloc, styles, refusal, out)?,
    }
    Ok(())
}
