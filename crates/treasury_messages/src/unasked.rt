//! What is told of bytes that are no request.

ghost use Rattle.std.specs.Prelude.{◌≡◌, ◌++◌, [], ◌∷◌, List, IfOk, OnOk, OnErr};
ghost use Rattle.treasury_messages.specs.Said.{Said};
ghost use Rattle.treasury_messages.specs.Printed.{IsFirstTextOf};
ghost use Rattle.treasury_messages.specs.Sentence.{sentence_said};
ghost use Rattle.treasury_messages.specs.RequestFaults.{TellsFault};
ghost use Rattle.treasury_messages.specs.Unasked.{TellsUnasked, LacksFault, IsToldUnasked};

use crate::message::Message;
use crate::printing::push_messages;
use crate::request_fault::say_request_fault;
use crate::sentences::say_sentence;
use money_core::Cause;
use std::alloc::Global;
use treasury_requests::fault_of;

/// What is said of bytes that are no request: which fault they have first. Of a request it is nothing.
fn fault_messages(alloc: Global, line: &[u8]) -> Result<Vec<Message>, Cause>
    ensures ok { IfOk result (λ said. TellsFault line.now said.items) }
{
    let mut said = Vec::new(alloc);
    if let Some(fault) = fault_of(alloc, line)? {
        say_request_fault(&fault, &mut said)?;
    }
    Ok(said)
}

/// Says of bytes that are no request (44): the sentence, and which fault they have first.
///
/// Where memory is refused, nothing is said, or the sentence alone.
pub fn explain_request(alloc: Global, line: &[u8], out: &mut Vec<Message>) -> Result<(), Cause>
    ensures ok { OnOk result
        ((said : List Said) × TellsUnasked line.now said × (out.new.items ≡ out.old.items ++ said)) }
    ensures err { OnErr result ((said : List Said) × LacksFault said × (out.new.items ≡ out.old.items ++ said)) }
{
    say_sentence(Cause::Request, out)?;
    let mut said = fault_messages(alloc, line)?;
    out.append(&mut said)?;
    Ok(())
}

/// The lines of messages; where memory is refused, those of the first ones.
pub fn text_of(alloc: Global, messages: &[Message]) -> Vec<u8>
    ensures { IsFirstTextOf messages.now result.items }
{
    let mut text = Vec::new(alloc);
    let _ = push_messages(messages, &mut text);
    text
}

/// What is told of bytes that are no request, as far as there is memory to say it.
pub fn unasked_text(alloc: Global, line: &[u8]) -> Vec<u8>
    ensures { IsToldUnasked line.now result.items }
{
    let mut said = Vec::new(alloc);
    let _ = explain_request(alloc, line, &mut said);
    text_of(alloc, said.as_slice())
}

/// The sentence of a refusal in its line, if there is memory to say it.
pub fn sentence_text(alloc: Global, cause: Cause) -> Vec<u8>
    ensures { IsFirstTextOf (sentence_said cause ∷ []) result.items }
{
    let mut said = Vec::new(alloc);
    let _ = say_sentence(cause, &mut said);
    text_of(alloc, said.as_slice())
}
