//! What standard error says of a refusal, beside the answer on standard output.

ghost use Rattle.std.specs.Prelude.{◌≡◌, ◌∷◌, ◌++◌, List, IfOk};
ghost use Rattle.book_core.specs.declared.refusal.Refusal.TheVariants.{Plain, Text};
ghost use Rattle.journal_format.specs.declared.txn.Located.{Located as Placed};
ghost use Rattle.treasury_messages.specs.Sentence.{sentence_said};
ghost use Rattle.treasury_reasons.specs.Closing.{closing_said};
ghost use Rattle.treasury_reasons.specs.Held.{held_said};
ghost use Rattle.treasury_reasons.specs.Refused.{IsRefused, TellsRefused};
ghost use Rattle.treasury_reasons.specs.Told.{BeginsWithSentence, ExplainsRefusal};

use crate::at_fault::{explain_stop, find_stop, is_of_transaction};
use crate::closing::say_closing;
use crate::failure::explain_failure;
use crate::held::say_held;
use book_core::{Ledger, Refusal};
use journal_hints::hints::say_fault_hint;
use journal_hints::lines::say_source;
use money_core::{Cause, Fault};
use std::alloc::Global;
use treasury_core::State;
use treasury_messages::{Messages, say_sentence, say_sentence_at};
use treasury_requests::Request;
use treasury_state::find_branch;

/// What is said of a fault in the journal of a request: where it is, what stands there, and what should.
fn explain_fault<L: Ledger>(
    alloc: Global,
    state: &State<L>,
    request: &Request,
    source: &str,
    fault: &Fault,
) -> Result<Messages, Cause>
    ensures { IfOk result (λ said. ExplainsRefusal state.now request.now source.now (Text fault.now) said.items) }
{
    let mut said = Vec::new(alloc);
    say_sentence_at(source, fault.line, fault.cause, &mut said)?;
    let Request::Import { journal, .. } = request else {
        return Ok(said);
    };
    let text = journal.as_bytes();
    let mut more = Vec::new(alloc);
    say_source(text, fault.line, &mut more)?;
    say_fault_hint(alloc, state.styles(), text, fault, &mut more)?;
    said.append(&mut more)?;
    Ok(said)
}

/// What is said of a refusal by a cause alone: its sentence, and what stands against the request.
fn explain_plain<L: Ledger>(
    alloc: Global,
    state: &State<L>,
    request: &Request,
    cause: Cause,
) -> Result<Messages, Cause>
    ensures { IfOk result (λ said. said.items ≡ sentence_said cause
        ∷ (held_said state.now request.now cause ++ closing_said state.now request.now cause)) }
{
    let mut said = Vec::new(alloc);
    say_sentence(cause, &mut said)?;
    say_held(alloc, state, request, cause, &mut said)?;
    say_closing(state, request, cause, &mut said)?;
    Ok(said)
}

/// What is said of a refusal of an import by one of its transactions; where that is not found, what is said of any
/// refusal.
fn explain_refused<L: Ledger>(
    alloc: Global,
    state: &State<L>,
    request: &Request,
    name: &str,
    source: &str,
    journal: &[u8],
    cause: Cause,
) -> Result<Messages, Cause>
    ensures sentence { IfOk result (λ said. BeginsWithSentence cause said.items) }
    ensures told { (list : List Placed) → IsRefused state.now request.now name.now journal.now list cause
        → IfOk result (λ said. TellsRefused state.now request.now name.now source.now journal.now list cause
        said.items) }
{
    state.is_good();
    let Some(branch) = find_branch(state, name) else {
        return explain_plain(alloc, state, request, cause);
    };
    match find_stop(alloc, state.styles(), branch, journal) {
        Ok(Some(stopped)) => explain_stop(
            alloc, state, request, branch, source, journal, &stopped, cause,
        ),
        Ok(None) => explain_plain(alloc, state, request, cause),
        Err(missing) => Err(missing),
    }
}

/// What is said of a refusal by a cause alone; of an import, with the transaction that it comes from.
fn explain_cause<L: Ledger>(
    alloc: Global,
    state: &State<L>,
    request: &Request,
    source: &str,
    cause: Cause,
) -> Result<Messages, Cause>
    ensures { IfOk result (λ said. ExplainsRefusal state.now request.now source.now (Plain cause) said.items) }
{
    let Request::Import { branch, journal } = request else {
        return explain_plain(alloc, state, request, cause);
    };
    if is_of_transaction(cause) {
        let name = branch.as_str();
        let journal = journal.as_bytes();
        explain_refused(alloc, state, request, name, source, journal, cause)
    } else {
        explain_plain(alloc, state, request, cause)
    }
}

/// What is said of a refusal of the request: its sentence, and what it comes from. `source` names the journal.
pub fn explain<L: Ledger>(
    alloc: Global,
    state: &State<L>,
    request: &Request,
    source: &str,
    refusal: &Refusal,
) -> Result<Messages, Cause>
    ensures { IfOk result (λ said. ExplainsRefusal state.now request.now source.now refusal.now said.items) }
{
    match refusal {
        Refusal::Plain(cause) => explain_cause(alloc, state, request, source, *cause),
        Refusal::Text(fault) => explain_fault(alloc, state, request, source, fault),
        Refusal::ClaimFailed(failure) => explain_failure(alloc, state, request, source, failure),
    }
}
