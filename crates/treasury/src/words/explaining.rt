//! What a run says beside its answers, if it is asked to explain them.

ghost use Rattle.std.specs.Prelude.{◌≡◌};
ghost use Rattle.treasury_messages.specs.Unasked.{IsToldUnasked};

use book_core::{DayLedger, Refusal};
use money_core::Cause;
use std::alloc::Global;
use treasury_api::{Grounds, JOURNAL, Listener, said_beside};
use treasury_core::State;
use treasury_messages::{sentence_text, unasked_text};
use treasury_requests::Spelled;

/// Explains the answers of a run on standard error: each as a command over a file does, below the number of its line.
#[derive(Drop)]
pub struct Explainer<'a> {
    rt: &'a HostRuntime,
    /// The number of the line, from 1.
    line: usize,
    /// What is to be said once the answer to the line is written.
    said: Vec<u8>,
}

impl<'a> Explainer<'a> {
    /// Before the first line.
    pub fn new(rt: &'a HostRuntime) -> Explainer<'a> {
        Explainer {
            rt,
            line: 0,
            said: Vec::new(rt.alloc()),
        }
    }
}

impl Listener for Explainer<'_> {
    fn begin_line(&mut self) {
        self.line = self.line.saturating_add(1);
    }

    fn tell(
        &mut self,
        alloc: Global,
        state: Option<&State<DayLedger>>,
        request: &Spelled,
        grounds: &Grounds,
        refusal: Option<&Refusal>,
    ) {
        self.said = said_beside(alloc, state, request, JOURNAL, grounds, refusal);
    }

    fn tell_unasked(&mut self, alloc: Global, line: &[u8], cause: Cause)
        // Of bytes that are no request, their first fault is told.
        ensures request { cause ≡ Cause.Request → IsToldUnasked line.now self.new.said.items }
    {
        self.said = match cause {
            Cause::Request => unasked_text(alloc, line),
            _ => sentence_text(alloc, cause),
        };
    }

    fn end_line(&mut self) {
        if let Ok(text) = str::from_utf8(self.said.as_slice()) {
            if !text.is_empty() {
                let line = self.line;
                let _ = eprintln!(self.rt; "line {line}:");
                let _ = self.rt.eprint(text);
            }
        }
        self.said.clear();
    }
}
