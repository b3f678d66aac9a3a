//! Through which day the branch of a request is locked.

ghost use Rattle.std.specs.Prelude.{◌≡◌, ◌++◌, OnOk};
ghost use Rattle.treasury_reasons.specs.Lock.{lock_said};

use book_core::Ledger;
use treasury_core::{State, lock_of};
use treasury_messages::Piece::{Day, Text, Words};
use treasury_messages::{Done, MessageKind, Messages, hint, say};
use treasury_requests::Request;

/// Says through which day the branch of a request is locked, if it is.
#[tactic(auto, unfolding(crate::specs::Lock::lock_said))]
pub fn say_lock<L: Ledger>(state: &State<L>, request: &Request, out: &mut Messages) -> Done
    ensures { OnOk result (out.new.items ≡ out.old.items ++ lock_said state.now request.now) }
{
    let Some(branch) = request.branch() else {
        return Ok(());
    };
    let Some(day) = lock_of(state, branch.as_str()) else {
        return Ok(());
    };
    let name = branch.as_str().as_bytes();
    let pieces = [Text(name), Words(b" is locked through "), Day(day)];
    say(MessageKind::LockedThrough, &pieces, out)?;
    match request {
        Request::Close { .. } => hint(
            b"a branch cannot be closed at a day that is locked: close first, which also locks it",
            out,
        ),
        _ => Ok(()),
    }
}
