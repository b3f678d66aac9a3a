//! The run of a treasury over the lines of a reader.

ghost use Rattle.std.specs.Prelude.{◌≡◌, ◌⊎◌, ◌++◌, [], None, Some, Err, IsTrue, IfOk, IfErr, OnOk, OnErr};
ghost use Rattle.std.specs.Cow.{cow_slice_items};
ghost use Rattle.treasury_tables.specs.Kept.{ShutsByFault};
ghost use Rattle.treasury_requests.specs.Request.{HasDayNumbers, is_report, spelled};
ghost use Rattle.treasury_api.specs.Answer.{answer_text, IsPrintableRefusal};
ghost use Rattle.treasury_api.specs.Kept.{RunsOn, CutsOff};
ghost use Rattle.treasury_api.specs.Replied.{IsPrintableIn, IsLineOf, Serves};
ghost use Rattle.treasury_api.specs.Serving.{end_of_report};
ghost use Rattle.treasury_api.specs.WebReply.{cause_of};
ghost use Rattle.treasury_api.specs.WebServing.{IsLineBy, IsToldBy};

use crate::answering::answer_ahead;
use crate::answers::answer_line;
use crate::lines::{Machine, run_machine};
use crate::listener::{Listener, NoListener};
use crate::plain::plain_line;
use crate::telling::Grounds;
use book_core::Refusal;
use http_request::Form;
use journal_format::reading_law;
use money_core::{Cause, Styles};
use sqlite::Alter;
use std::alloc::Global;
use std::borrow::CowSlice;
use std::io::{Read, Write};
use treasury_core::Answer;
use treasury_requests::{Request, Spelled, read_line};
use treasury_store::{Treasury, left_law};

/// Appends the line `ok` that ends a report. Other answers have their line.
fn end_report(alloc: Global, request: &Request, text: &mut Vec<u8>) -> Result<(), Cause>
    ensures ok { OnOk result (text.new.items ≡ text.old.items ++ end_of_report request.now) }
    ensures err { OnErr result (IsTrue (is_report request.now)) }
{
    if request.is_report() {
        answer_line(alloc, &Ok(Answer::Done), &Styles::empty(alloc), text)
    } else {
        Ok(())
    }
}

/// The line of a refusal, and its cause.
#[derive(Debug, Drop)]
pub struct Line {
    pub text: CowSlice<'static, u8>,
    pub cause: Cause,
}

/// Why it is refused.
pub(crate) fn cause_of(refusal: &Refusal) -> Cause
    ensures { result ≡ cause_of refusal.now }
{
    match refusal {
        Refusal::Plain(cause) => *cause,
        Refusal::Text(fault) => fault.cause,
        Refusal::ClaimFailed(_) => Cause::ClaimFailed,
    }
}

/// The line of a plain refusal.
#[tactic(auto, unfolding(crate::specs::Answer::answer_text))]
fn plain(cause: Cause) -> Line
    ensures text { cow_slice_items result.text ≡ answer_text [] (Err (Refusal.Plain cause)) }
    ensures cause { result.cause ≡ cause }
{
    Line {
        text: CowSlice::Borrowed(plain_line(cause)),
        cause,
    }
}

/// The line of a refusal. Where memory is refused for one that is not plain, it is the line of 40.
fn refuse_in(alloc: Global, styles: &Styles, refusal: Refusal) -> Line
    requires { IsPrintableRefusal styles.now refusal }
    ensures { IsLineBy styles.now refusal result.cause (cow_slice_items result.text) }
{
    let cause = cause_of(&refusal);
    match refusal {
        Refusal::Plain(cause) => plain(cause),
        _ => {
            let mut text = Vec::new(alloc);
            match answer_line(alloc, &Err(refusal), styles, &mut text) {
                Ok(()) => Line {
                    text: CowSlice::Owned(text),
                    cause,
                },
                Err(_) => plain(Cause::OutOfMemory),
            }
        }
    }
}

/// The line of a refusal by the treasury, and its cause, as `refuse_in` makes it.
pub fn refuse_by<S: Alter>(alloc: Global, treasury: &Treasury<S>, refusal: Refusal) -> Line
    requires { IsPrintableIn treasury.now refusal }
    ensures { IsToldBy treasury.now refusal result.cause (cow_slice_items result.text) }
{
    match treasury.state() {
        Some(state) => refuse_in(alloc, state.styles(), refusal),
        None => refuse_in(alloc, &Styles::empty(alloc), refusal),
    }
}

/// The line of a refusal by the treasury. Where memory is refused for one that is not plain, it is the line of 40.
pub fn refuse<S: Alter>(
    alloc: Global,
    treasury: &Treasury<S>,
    refusal: Refusal,
) -> CowSlice<'static, u8>
    requires { IsPrintableIn treasury.now refusal }
    ensures { IsLineOf treasury.now refusal (cow_slice_items result) }
{
    refuse_by(alloc, treasury, refusal).text
}

/// What has to be left of memory before a command, in bytes: more than its rows take in a database in memory, and more
/// than any block that is kept for later, so that the system is asked.
const LEFT: usize = 0x200_0000;

/// Whether so much memory is left. It is given back at once.
fn is_memory_left(alloc: Global) -> bool {
    Vec::<u8>::with_capacity(alloc, LEFT).is_ok()
}

/// The request that a line spells, as `read_line` reads it. Answers 40 for a command where too little memory is left
/// for what it may write: while rows are written want of memory could only end the database.
fn read_within_memory(alloc: Global, line: &[u8]) -> Result<Spelled, Cause>
    ensures ok { IfOk result (λ request. spelled line.now ≡ Some request) }
    ensures days { IfOk result (λ spelled. HasDayNumbers spelled.request) }
    ensures refused { result ≡ Err Cause.Request → spelled line.now ≡ None }
    ensures causes { IfErr result (λ cause. (cause ≡ Cause.Request) ⊎ (cause ≡ Cause.OutOfMemory)) }
{
    let spelled = match read_line(alloc, line) {
        Ok(spelled) => spelled,
        Err(cause) => return Err(cause),
    };
    if !spelled.request.is_report() && !is_memory_left(alloc) {
        return Err(Cause::OutOfMemory);
    }
    Ok(spelled)
}

impl<S: Alter> Machine for Treasury<S> {
    ghost step = { Serves S.Store };

    fn answer<L: Listener>(
        &mut self,
        alloc: Global,
        line: &[u8],
        listener: &mut L,
    ) -> CowSlice<'static, u8> {
        reading_law();
        left_law::<S>();
        let request = match read_within_memory(alloc, line) {
            Ok(request) => request,
            Err(cause) => {
                listener.tell_unasked(alloc, line, cause);
                return refuse(alloc, self, Refusal::Plain(cause));
            }
        };
        let mut text = Vec::new(alloc);
        let mut grounds = Grounds::before(self, &request.request);
        let added = &mut grounds.added;
        match answer_ahead(alloc, Form::Text, &request, self, &mut text, added) {
            Ok(()) => {
                listener.tell(alloc, self.state(), &request, &grounds, None);
                match end_report(alloc, &request.request, &mut text) {
                    Ok(()) => CowSlice::Owned(text),
                    Err(_) => refuse(alloc, self, Refusal::Plain(Cause::OutOfMemory)),
                }
            }
            Err(refusal) => {
                listener.tell(alloc, self.state(), &request, &grounds, Some(&refusal));
                refuse(alloc, self, refusal)
            }
        }
    }
}

/// Answers each request that the reader gives as `run_lines` does. The listener hears of each request and of what it is
/// answered, and has no part in it.
pub fn run_heard_lines<R: Read, W: Write, S: Alter, L: Listener>(
    alloc: Global,
    reader: &mut R,
    writer: &mut W,
    treasury: &mut Treasury<S>,
    listener: &mut L,
) -> Result<(), Cause>
    // Of whichever state the treasury is, while the disk returned what was written: a run, and the headline holds of
    // it.
    ensures runs { RunsOn S.Store treasury.old treasury.new result R.remaining reader.old reader.new W.contents
        writer.old writer.new }
    // Whatever the disk returned, and whatever the tables are.
    ensures causes { IfErr result CutsOff }
    ensures closed { IsTrue treasury.old.store.failed → treasury.new ≡ treasury.old }
    ensures shuts { ShutsByFault S.Store treasury.old.store.conn treasury.new.store.conn }
{
    left_law::<S>();
    run_machine(alloc, reader, writer, treasury, listener)
}

/// Answers each request that the reader gives, one a line, of at most 64 MiB in all.
///
/// On `Ok` all input was read, and what was written is its transcript. 45 comes where a read fails, whatever its error,
/// or where the input goes on past 64 MiB: the complete lines before that are answered. 46 comes where a write fails or
/// takes nothing: the last answer may be cut off, and its command stands. 40 comes where there is no memory for a
/// line: its request has changed nothing.
///
/// What a stop, a crash or a 41 leaves are the rows of the state where the run is, or of the one where the command
/// leads that it was at.
pub fn run_lines<R: Read, W: Write, S: Alter>(
    alloc: Global,
    reader: &mut R,
    writer: &mut W,
    treasury: &mut Treasury<S>,
) -> Result<(), Cause>
    // Of whichever state the treasury is, while the disk returned what was written: a run, and the headline holds of
    // it.
    ensures runs { RunsOn S.Store treasury.old treasury.new result R.remaining reader.old reader.new W.contents
        writer.old writer.new }
    // Whatever the disk returned, and whatever the tables are.
    ensures causes { IfErr result CutsOff }
    ensures closed { IsTrue treasury.old.store.failed → treasury.new ≡ treasury.old }
    ensures shuts { ShutsByFault S.Store treasury.old.store.conn treasury.new.store.conn }
{
    run_heard_lines(alloc, reader, writer, treasury, &mut NoListener)
}
