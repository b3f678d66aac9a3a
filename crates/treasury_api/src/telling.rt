//! What is said beside the answer to a request: why it is refused, or what may have been meant otherwise.

ghost use Rattle.std.specs.Prelude.{◌≡◌, None, IfSome};
ghost use Rattle.std.specs.Option.{option_map};
ghost use Rattle.treasury_notes.specs.RequestNotes.{held_before};
ghost use Rattle.treasury_api.specs.Beside.{IsReason, AreNotesBy, IsNoted, IsReasonOrNotes, IsEnded, IsSaidBeside};

use crate::running::cause_of;
use book_core::{Ledger, Refusal};
use sqlite::Alter;
use std::alloc::Global;
use treasury_core::{Delta, State};
use treasury_messages::{Message, sentence_text, text_of};
use treasury_notes::dry_run::dry_run_notes;
use treasury_notes::notes::{HeldBefore, held_before, notes_of};
use treasury_reasons::explain::explain;
use treasury_requests::{Request, Spelled};
use treasury_store::Treasury;

/// The last line of what is said of a dry run.
pub const NOTHING_ENTERED: &str = "treasury: a dry run: nothing was entered\n";

/// How the journal of an import is called that has no file: by its key.
pub const JOURNAL: &str = "journal";

/// What messages on a request rest on, beside the request and the state.
#[derive(Drop)]
pub struct Grounds {
    /// What was held before it was answered, if memory held the state.
    pub held: Option<HeldBefore>,
    /// What it would add as a dry run, if it is one and not refused.
    pub added: Option<Delta>,
}

impl Grounds {
    /// Before the request is answered.
    pub fn before<S: Alter>(treasury: &Treasury<S>, request: &Request) -> Grounds
        ensures held { result.held ≡ option_map (λ f. held_before f request.now) treasury.now.held }
        ensures added { result.added ≡ None }
    {
        Grounds {
            held: held_before(treasury.state(), request),
            added: None,
        }
    }
}

/// Why a request is refused in this state: all that there is to tell, or, where memory is refused for that, the
/// sentence alone. `source` names the journal.
fn reason_of<L: Ledger>(
    alloc: Global,
    state: &State<L>,
    request: &Request,
    source: &str,
    refusal: &Refusal,
) -> Vec<u8>
    ensures { IsReason state.now request.now source.now refusal.now result.items }
{
    match explain(alloc, state, request, source, refusal) {
        Ok(said) => text_of(alloc, said.as_slice()),
        Err(_) => sentence_text(alloc, cause_of(refusal)),
    }
}

/// What is noted of a request that is not refused, if there is memory for it: of a dry run by what it would add, of
/// another one by what was held before.
fn noted<L: Ledger>(
    alloc: Global,
    state: &State<L>,
    request: &Spelled,
    source: &str,
    grounds: &Grounds,
) -> Option<Vec<Message>>
    ensures { IfSome result (λ said.
        AreNotesBy request.now.terms.is_dry_run state.now request.now.request source.now grounds.now said.items) }
{
    if !request.terms.is_dry_run {
        return match notes_of(alloc, state, &request.request, source, grounds.held?) {
            Ok(said) => Some(said),
            Err(_) => None,
        };
    }
    let added = grounds.added.as_ref()?;
    match dry_run_notes(alloc, state, &request.request, source, added.additions()) {
        Ok(said) => Some(said),
        Err(_) => None,
    }
}

/// What is said beside an answer that is no refusal: all its notes, if there is memory for them. The state is the one
/// after the request. `source` names the journal.
fn notes_on<L: Ledger>(
    alloc: Global,
    state: &State<L>,
    request: &Spelled,
    source: &str,
    grounds: &Grounds,
) -> Vec<u8>
    ensures { IsNoted state.now request.now source.now grounds.now result.items }
{
    match noted(alloc, state, request, source, grounds) {
        Some(said) => text_of(alloc, said.as_slice()),
        None => Vec::new(alloc),
    }
}

/// Appends that nothing was entered, if the request is a dry run and there is memory to say it.
fn push_dry_run(request: &Spelled, said: &mut Vec<u8>)
    ensures { IsEnded request.now said.old.items said.new.items }
{
    if request.terms.is_dry_run {
        let _ = said.extend_from_slice(NOTHING_ENTERED.as_bytes());
    }
}

/// Why a request is refused, or else its notes, if memory holds the state.
fn reason_or_notes<L: Ledger>(
    alloc: Global,
    state: Option<&State<L>>,
    request: &Spelled,
    source: &str,
    grounds: &Grounds,
    refusal: Option<&Refusal>,
) -> Vec<u8>
    ensures { IsReasonOrNotes (option_map (λ s. s.now) state.entry) request.now source.now grounds.now
        (option_map (λ r. r.now) refusal.entry) result.items }
{
    match (state, refusal) {
        (Some(state), Some(refusal)) => {
            reason_of(alloc, state, &request.request, source, refusal)
        },
        (Some(state), None) => notes_on(alloc, state, request, source, grounds),
        (None, _) => Vec::new(alloc),
    }
}

/// What is said beside the answer to a request: why it is refused, or else its notes; and of a dry run that nothing was
/// entered. The state is the one after the request, and `source` names the journal.
pub fn said_beside<L: Ledger>(
    alloc: Global,
    state: Option<&State<L>>,
    request: &Spelled,
    source: &str,
    grounds: &Grounds,
    refusal: Option<&Refusal>,
) -> Vec<u8>
    ensures { IsSaidBeside (option_map (λ s. s.now) state.entry) request.now source.now grounds.now
        (option_map (λ r. r.now) refusal.entry) result.items }
{
    let mut said = reason_or_notes(alloc, state, request, source, grounds, refusal);
    push_dry_run(request, &mut said);
    said
}
