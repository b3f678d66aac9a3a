//! Answers to requests, on a treasury.

ghost use Rattle.std.specs.Prelude.{◌≡◌, ◌≤◌, ◌+◌, length, false, None, Ok, Err, OnOk, OnErr, IsTrue};
ghost use Rattle.sqlite.specs.Held.{state};
ghost use Rattle.treasury_tables.specs.Kept.{StaysAsIs, IsFaithful};
ghost use Rattle.treasury_store.specs.Shown.{ShowsNoState};
ghost use Rattle.treasury_store.specs.Left.{LeavesStep};
ghost use Rattle.treasury_requests.specs.Request.{HasDayNumbers, is_report};
ghost use Rattle.treasury_api.specs.Beside.{IsAddedAhead};
ghost use Rattle.treasury_api.specs.Left.{IsUnread, KeepsDatabase, LeavesRequest};
ghost use Rattle.treasury_api.specs.Replied.{OfAnyState, IsRepliedIn, IsAnsweredIn, RefusesInAnyCase};
ghost use Rattle.treasury_api.specs.Serving.{IsHeldFor};

use crate::answers::{MOST_PLAIN, answer_line};
use crate::asking::{Asked, asked_by};
use crate::foreseeing::answer_dry_run;
use crate::report::push_report_in;
use book_core::Refusal;
use http_request::Form;
use journal_format::reading_law;
use money_core::{Cause, Styles};
use sqlite::Alter;
use std::alloc::Global;
use treasury_core::{Command, Delta};
use treasury_requests::Spelled;
use treasury_store::{Treasury, left_law};

/// Performs a command, and appends the line of its answer, for which the room is made before.
fn answer_command<S: Alter>(
    alloc: Global,
    treasury: &mut Treasury<S>,
    command: Command,
    out: &mut Vec<u8>,
) -> Result<(), Refusal>
    requires held { IsHeldFor treasury.old command }
    requires unfailed { treasury.old.store.failed ≡ false }
    ensures replies { OfAnyState S.Store treasury.old treasury.new (λ f. (form : Form) → IsRepliedIn form S.Store false
        treasury.new f (Ok (Asked.Command command)) result out.old.items out.new.items) }
    ensures short { OnOk result (length out.new.items ≤ length out.old.items + MOST_PLAIN) }
    ensures err { OnErr result (out.new.items ≡ out.old.items) }
    ensures refuses { RefusesInAnyCase treasury.old treasury.new result }
    ensures database { KeepsDatabase S.Store treasury.old.store.conn treasury.new.store.conn result }
    ensures left { LeavesStep S.Store treasury.old treasury.new command }
{
    left_law::<S>();
    match out.reserve(MOST_PLAIN) {
        Ok(()) => {}
        Err(_) => return Err(Refusal::Plain(Cause::OutOfMemory)),
    }
    let answer = match treasury.perform(command) {
        Ok(answer) => answer,
        Err(refusal) => return Err(refusal),
    };
    match answer_line(alloc, &Ok(answer), &Styles::empty(alloc), out) {
        Ok(()) => Ok(()),
        Err(_) => unreachable!(),
    }
}

/// Does what a request asks of the treasury, and appends its answer: the line of a command that is accepted or
/// repeated, or would be in a dry run, which performs nothing, in whatever form; or in this form what a report is
/// answered with, without the `ok` after its lines.
///
/// It refuses as the texts of the request, the command or the report are refused, by 48 where the branch has changed
/// since the command was shown, and 40 to 43 as the treasury; the vector is then as it was. The room for the line of a
/// command is made before it is performed. A call of the database fails just where it answers 41, and then every later
/// call answers 42 and changes nothing.
pub fn answer<S: Alter>(
    alloc: Global,
    form: Form,
    request: &Spelled,
    treasury: &mut Treasury<S>,
    out: &mut Vec<u8>,
) -> Result<(), Refusal>
    requires { HasDayNumbers request.now.request }
    // Of whichever state the treasury is, while the disk returned what was written.
    ensures replies { OfAnyState S.Store treasury.old treasury.new (λ f. IsAnsweredIn form S.Store
        treasury.old.store.failed treasury.new f request.now result out.old.items out.new.items) }
    // The line of a command, also where it is not known of which state.
    ensures short { is_report request.now.request ≡ false
        → OnOk result (length out.new.items ≤ length out.old.items + MOST_PLAIN) }
    ensures err { OnErr result (out.new.items ≡ out.old.items) }
    // Whatever the disk returned, and whatever the tables are.
    ensures refuses { RefusesInAnyCase treasury.old treasury.new result }
    ensures closed { IsTrue treasury.old.store.failed
        → (result ≡ Err (Refusal.Plain Cause.Closed)) × (treasury.new ≡ treasury.old) }
    // On tables that are no good state's: 43, or 40 or 41, and nothing is written.
    ensures strange { IsFaithful S.Store treasury.new.store.conn → treasury.old.store.failed ≡ false
        → treasury.old.held ≡ None → ShowsNoState (state S.Store treasury.old.store.conn).now
        → IsUnread result × (IsTrue (state S.Store treasury.new.store.conn).is_open
        → StaysAsIs (state S.Store treasury.old.store.conn) (state S.Store treasury.new.store.conn)) }
    // A database that was open is open after each answer but 41. Only a fault of the disk shuts it.
    ensures database { KeepsDatabase S.Store treasury.old.store.conn treasury.new.store.conn result }
    // Whatever is left, also after 41: the rows of the state before the request, or of the one after it.
    ensures left { LeavesRequest S.Store treasury.old treasury.new request.now }
{
    answer_ahead(alloc, form, request, treasury, out, &mut None)
}

/// Answers a request as `answer` does, and hands out what it would add as a dry run, where that is not refused.
pub fn answer_ahead<S: Alter>(
    alloc: Global,
    form: Form,
    request: &Spelled,
    treasury: &mut Treasury<S>,
    out: &mut Vec<u8>,
    added: &mut Option<Delta>,
) -> Result<(), Refusal>
    requires { HasDayNumbers request.now.request }
    ensures replies { OfAnyState S.Store treasury.old treasury.new (λ f. IsAnsweredIn form S.Store
        treasury.old.store.failed treasury.new f request.now result out.old.items out.new.items) }
    ensures short { is_report request.now.request ≡ false
        → OnOk result (length out.new.items ≤ length out.old.items + MOST_PLAIN) }
    ensures err { OnErr result (out.new.items ≡ out.old.items) }
    ensures refuses { RefusesInAnyCase treasury.old treasury.new result }
    ensures closed { IsTrue treasury.old.store.failed
        → (result ≡ Err (Refusal.Plain Cause.Closed)) × (treasury.new ≡ treasury.old) }
    ensures strange { IsFaithful S.Store treasury.new.store.conn → treasury.old.store.failed ≡ false
        → treasury.old.held ≡ None → ShowsNoState (state S.Store treasury.old.store.conn).now
        → IsUnread result × (IsTrue (state S.Store treasury.new.store.conn).is_open
        → StaysAsIs (state S.Store treasury.old.store.conn) (state S.Store treasury.new.store.conn)) }
    ensures database { KeepsDatabase S.Store treasury.old.store.conn treasury.new.store.conn result }
    ensures left { LeavesRequest S.Store treasury.old treasury.new request.now }
    ensures added { IsTrue request.now.terms.is_dry_run → is_report request.now.request ≡ false
        → OnOk result (IsAddedAhead treasury.new.held request.now added.new) }
{
    reading_law();
    *added = None;
    match treasury.hold() {
        Ok(()) => {}
        Err(cause) => return Err(Refusal::Plain(cause)),
    }
    let Some(state) = treasury.state() else {
        unreachable!()
    };
    state.is_good();
    match asked_by(alloc, state, request) {
        Ok(Asked::Command(command)) => answer_command(alloc, treasury, command, out),
        Ok(Asked::DryRun(command)) => answer_dry_run(alloc, state, &command, out, added),
        Ok(Asked::Report(report)) => match push_report_in(alloc, form, state, &report, out) {
            Ok(()) => Ok(()),
            Err(cause) => Err(Refusal::Plain(cause)),
        },
        Err(refusal) => Err(refusal),
    }
}
