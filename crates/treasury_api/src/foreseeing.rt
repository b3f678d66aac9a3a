//! Dry runs: what a command would be answered, and what it would add.

ghost use Rattle.std.specs.Prelude.{◌≡◌, ◌≤◌, ◌+◌, length, Some, OnOk};
ghost use Rattle.treasury_core.specs.Fits.{Fits};
ghost use Rattle.treasury_core.specs.Step.{delta, reply};
ghost use Rattle.treasury_api.specs.Serving.{IsForeseen};

use crate::answers::{MOST_PLAIN, answer_line};
use book_core::{Ledger, Refusal};
use money_core::Styles;
use std::alloc::Global;
use treasury_core::{Command, Delta, State, decide};

/// Appends the line of what a command would be answered in this state, and hands out what it would add, where it is not
/// refused.
pub fn answer_dry_run<L: Ledger>(
    alloc: Global,
    state: &State<L>,
    command: &Command,
    out: &mut Vec<u8>,
    added: &mut Option<Delta>,
) -> Result<(), Refusal>
    requires { Fits state.now.styles command.now }
    ensures foreseen { IsForeseen state.now command.now result out.old.items out.new.items }
    ensures short { OnOk result (length out.new.items ≤ length out.old.items + MOST_PLAIN) }
    ensures added { OnOk result (added.new ≡ Some (delta state.now command.now (reply state.now command.now))) }
{
    *added = None;
    match decide(alloc, state, command) {
        Ok((answer, list)) => {
            *added = Some(list);
            match answer_line(alloc, &Ok(answer), &Styles::empty(alloc), out) {
                Ok(()) => Ok(()),
                Err(cause) => Err(Refusal::Plain(cause)),
            }
        }
        Err(refusal) => Err(refusal),
    }
}
