//! The words of the command line, and what they do.

mod at;
mod explaining;
mod looks;
mod over_file;
mod patience;
mod pipe;
mod said;
mod serving;

ghost use Rattle.std.specs.Prelude.{◌≡◌, ◌⊎◌, ◌≢◌, ℕ, List, map, codes, false, None, Some, IfOk, OnOk, OnErr};
ghost use Rattle.std.specs.Prelude.{MatchResult};
ghost use Rattle.clap.specs.Matches.{found_of, subcommand_name_of};
ghost use Rattle.clap.specs.Simple.{subcommand_rows_of};
ghost use Rattle.clap.specs.Walk.{Row, rows_of};
ghost use Rattle.sqlite.specs.Files.{over_files};
ghost use Rattle.sqlite_wal.specs.Files.{image_at};
ghost use Rattle.treasury_store.specs.Store.{empty_state};
ghost use Rattle.treasury_store.specs.Treasury.{IsTreasuryOf};
ghost use Rattle.std.specs.String.{string_bytes};
ghost use Rattle.treasury_api.specs.Step.{Standing, at_first};
ghost use Rattle.treasury_api.specs.Kept.{AnswersAll};
ghost use Rattle.treasury_spelling.specs.Words.{AreTaken, named, AskForRun, AskForWord, AskToServe, MayAskForHelp};
ghost use Rattle.treasury.specs.CutOff.{IsCutShort};
ghost use Rattle.treasury.specs.OverFile.{Tells, IsTold};
ghost use Rattle.treasury.specs.Serving.{IsServedOver};
ghost use Rattle.treasury.specs.OverFileParts.{spoken, AnswersUntaken};
ghost use Rattle.clap.specs.Values.{kind_of};

use crate::laws::{files_law, serving_law, words_law};
use crate::words::explaining::Explainer;
use crate::words::looks::looks_of;
use crate::words::over_file::{Answered, answer_over_file};
use crate::words::pipe::is_unread;
use crate::words::said::Said;
use crate::words::serving::{Serving, is_unwritten, serve_over_file};
use clap::error::ErrorKind;
use clap::{ArgMatches, Error};
use money_core::Cause;
use sqlite::{FileFrom, Start};
use sqlite_disk::Disk;
use std::alloc::Global;
use std::io::{Read, Write};
use std::mem::ManuallyDrop;
use treasury_api::{
    Listener, NOTHING_ENTERED, NoListener, commands_law, refusal_law, run_heard_lines, run_law,
    taken_law, write_whole,
};
use treasury_files::{Left, Turn, wait_for};
use treasury_laws::{
    accepted_closing_law, good_law, growing_law, headline_law, late_entry_law, lock_law,
    records_law, sound_law,
};
use treasury_memory::{MemoryStore, open_memory};
use treasury_spelling::{is_explained, read_words, terms_of, value_of};
use treasury_store::{Store, Treasury};

/// How the program ends: its exit status, and what it leaves of the files of a word.
#[derive(Drop)]
pub struct Ended<D: Disk> {
    pub status: u8,
    pub left: Left<D>,
}

/// What it means that something is cut off by this cause, which is 40, 45 or 46.
fn meaning(cause: Cause) -> &'static str {
    match cause {
        Cause::OutOfMemory => "out of memory; the requests before that are answered",
        Cause::ReadFault =>
            "the input could not be read to its end, or is over 64 MiB; the complete lines before that are answered",
        _ => "the output could not be written to its end; the last answer may be cut off",
    }
}

/// The exit status of what was done: 0, or 1 where it was cut off, which is said on standard error.
fn status<H: Eprint>(rt: &H, done: Result<(), Cause>) -> u8
    ensures { MatchResult done (λ _. result ≡ 0) (λ _. result ≡ 1) }
{
    match done {
        Ok(()) => 0,
        Err(cause) => {
            let nr = cause.nr();
            let name = cause.name();
            let meaning = meaning(cause);
            let _ = eprintln!(rt; "refused {nr} {name}: {meaning}");
            1
        }
    }
}

/// A treasury in memory, of a federation that has nothing yet. Nothing but want of memory refuses it.
fn treasury_in_memory(alloc: Global) -> Result<Treasury<MemoryStore>, Cause>
    ensures of { IfOk result (λ t. IsTreasuryOf over_files t empty_state) }
    ensures open { IfOk result (λ t. t.store.failed ≡ false) }
{
    let conn = open_memory(alloc)?;
    let store = match Store::create(alloc, conn) {
        Ok(store) => store,
        Err(_) => return Err(Cause::OutOfMemory),
    };
    match Treasury::start(alloc, store) {
        Ok(treasury) => Ok(treasury),
        Err(_) => Err(Cause::OutOfMemory),
    }
}

/// Runs from the input to the output, over a federation that has nothing yet.
fn run<R: Read, W: Write, L: Listener>(
    alloc: Global,
    input: &mut R,
    output: &mut W,
    listener: &mut L,
) -> Result<(), Cause>
    ensures done { OnOk result ((end : Standing)
        × AnswersAll R.remaining input.old input.new W.contents output.old output.new at_first end) }
    ensures cut_off { OnErr result (IsCutShort R.remaining input.old input.new W.contents output.old output.new) }
{
    run_law();
    commands_law();
    refusal_law();
    taken_law();
    headline_law();
    good_law();
    sound_law();
    records_law();
    growing_law();
    lock_law();
    accepted_closing_law();
    late_entry_law();
    let mut treasury = match treasury_in_memory(alloc) {
        Ok(treasury) => treasury,
        Err(cause) => return Err(cause),
    };
    let done = run_heard_lines(alloc, input, output, &mut treasury, listener);
    // The process ends here, and its memory with it: to free each record would take a tenth of the run.
    let _left = ManuallyDrop::new(treasury);
    done
}

/// Does what `run` says, and answers the exit status. Where it is to be explained, standard error has what is said
/// beside each answer; all else is the same.
fn do_run<R: Read, W: Write>(
    rt: &HostRuntime,
    values: &ArgMatches<'_>,
    input: &mut R,
    output: &mut W,
) -> u8
    ensures done { result ≡ 0
        → (end : Standing) × AnswersAll R.remaining input.old input.new W.contents output.old output.new at_first end }
    ensures cut_off { result ≢ 0
        → (result ≡ 1) × IsCutShort R.remaining input.old input.new W.contents output.old output.new }
{
    if is_explained(values) {
        status(rt, run(rt.alloc(), input, output, &mut Explainer::new(rt)))
    } else {
        status(rt, run(rt.alloc(), input, output, &mut NoListener))
    }
}

/// Writes the text of help or of the version to the output.
fn show<W: Write>(alloc: Global, text: &Error, output: &mut W) -> Result<(), Cause> {
    let text = text.to_string(alloc)?;
    match output.write_all(text.as_bytes()) {
        Ok(()) => Ok(()),
        Err(_) => Err(Cause::WriteFault),
    }
}

/// Writes the text of help or of the version, and answers the exit status.
fn show_text<W: Write>(rt: &HostRuntime, text: &Error, output: &mut W) -> u8
    ensures { result ≢ 2 }
{
    match show(rt.alloc(), text, output) {
        Err(Cause::WriteFault) if is_unread() => 1,
        shown => status(rt, shown),
    }
}

/// The exit status where the output takes no more, which is said on standard error; of a pipe that nobody reads it is
/// not.
fn unwritten<H: Eprint>(rt: &H) -> u8
    ensures { result ≡ 1 }
{
    if is_unread() {
        return 1;
    }
    status(rt, Err(Cause::WriteFault))
}

/// Writes the answer to a word to the output, and answers the exit status: 1 where it is a refusal or cannot be
/// written.
fn write_answer<W: Write>(rt: &HostRuntime, said: &Said, output: &mut W) -> u8
    ensures { Tells W.contents output.old output.new result (spoken said.now) }
{
    match write_whole(output, said.answer.as_slice()) {
        Ok(()) => u8::from(said.is_refused),
        Err(_) => unwritten(rt),
    }
}

/// The file that a word is over, once no other program uses it; none where it stays in use, or is not there.
fn turn_on(rt: &HostRuntime, values: &ArgMatches<'_>) -> Option<Turn> {
    let path = value_of(values, "db")?;
    wait_for(rt, path)
}

/// Writes to standard error what is said beside an answer, what a look at the word's files adds to it, and of a dry run
/// that it was one, where that is not said yet.
fn tell(rt: &HostRuntime, values: &ArgMatches<'_>, said: &Said) {
    let reason = said.reason.as_slice();
    let looks = looks_of(rt, values, said.answer.as_slice(), reason);
    if let Ok(text) = str::from_utf8(reason) {
        let _ = rt.eprint(text);
    }
    if let Ok(text) = str::from_utf8(looks.as_slice()) {
        let _ = rt.eprint(text);
    }
    if terms_of(values).is_dry_run && !reason.ends_with(NOTHING_ENTERED.as_bytes()) {
        let _ = rt.eprint(NOTHING_ENTERED);
    }
}

/// Does what a word over a file says: its answer goes to the output, the reason of a refusal to standard error.
fn do_over_file<W: Write, S: Start>(
    rt: &HostRuntime,
    word: &str,
    values: &ArgMatches<'_>,
    output: &mut W,
    start: S,
) -> Ended<FileFrom<S>>
    ensures told { IsTold ⟦<FileFrom<S> as Disk>⟧ (image_at S.Start) W.contents output.old output.new result.status
        word.now (rows_of (found_of values.now)) result.left }
    ensures usage { result.status ≢ 2 }
{
    words_law();
    files_law::<FileFrom<S>>();
    let turn = turn_on(rt, values);
    let Answered { said, left } = answer_over_file(rt, word, values, start);
    drop(turn);
    let status = write_answer(rt, &said, output);
    tell(rt, values, &said);
    Ended { status, left }
}

/// Serves connections as `serve` says: the output says when they can be made, and what refuses it; standard error says
/// why.
fn do_serve<W: Write, S: Start>(
    rt: &HostRuntime,
    values: &ArgMatches<'_>,
    output: &mut W,
    start: S,
) -> Ended<FileFrom<S>>
    ensures served { IsServedOver ⟦<FileFrom<S> as Disk>⟧ (image_at S.Start) W.contents output.old output.new
        result.status (rows_of (found_of values.now)) result.left }
    ensures usage { result.status ≢ 2 }
{
    serving_law::<FileFrom<S>>();
    let turn = turn_on(rt, values);
    let Serving { ending, said, left } = serve_over_file(rt, values, output, start);
    drop(turn);
    if is_unwritten(ending) {
        return Ended {
            status: unwritten(rt),
            left,
        };
    }
    let status = write_answer(rt, &said, output);
    tell(rt, values, &said);
    Ended { status, left }
}

/// Does what words say that are taken, by what they match, and answers the exit status.
fn do_word<R: Read, W: Write, S: Start>(
    rt: &HostRuntime,
    matches: &ArgMatches<'_>,
    input: &mut R,
    output: &mut W,
    start: S,
) -> Ended<FileFrom<S>>
    ensures done { subcommand_name_of matches.now ≡ Some (codes "run") → result.status ≡ 0
        → (end : Standing) × AnswersAll R.remaining input.old input.new W.contents output.old output.new at_first end }
    ensures cut_off { subcommand_name_of matches.now ≡ Some (codes "run") → result.status ≢ 0
        → (result.status ≡ 1) × IsCutShort R.remaining input.old input.new W.contents output.old output.new }
    ensures word { (word : List ℕ) → (values : List Row) → subcommand_rows_of matches.now ≡ Some (word, values)
        → word ≢ codes "run" → word ≢ codes "serve"
        → IsTold ⟦<FileFrom<S> as Disk>⟧ (image_at S.Start) W.contents output.old output.new result.status word values
        result.left }
    ensures serve { (values : List Row) → subcommand_rows_of matches.now ≡ Some (codes "serve", values)
        → IsServedOver ⟦<FileFrom<S> as Disk>⟧ (image_at S.Start) W.contents output.old output.new result.status values
        result.left }
    ensures other { (subcommand_name_of matches.now ≡ Some (codes "run") → ⊥) → input.new ≡ input.old }
    ensures usage { result.status ≡ 2
        → (subcommand_rows_of matches.now ≡ None) × ((input.new ≡ input.old) × (output.new ≡ output.old)) }
{
    match matches.subcommand_matches("run") {
        Some(values) => Ended {
            status: do_run(rt, values, input, output),
            left: Left::Untouched,
        },
        None => match matches.subcommand_matches("serve") {
            Some(values) => do_serve(rt, values, output, start),
            None => match matches.subcommand() {
                Some((word, values)) => do_over_file(rt, word, values, output, start),
                None => Ended {
                    status: 2,
                    left: Left::Untouched,
                },
            },
        },
    }
}

/// Answers words that are not taken: 2, with the reason and the usage on standard error; or help or the version, which
/// are written to the output; or 1 for want of memory.
fn answer_untaken<W: Write>(rt: &HostRuntime, error: &Error, output: &mut W) -> u8
    ensures { AnswersUntaken (kind_of error.now) output.old output.new result }
{
    match error.kind() {
        ErrorKind::OutOfMemory => status(rt, Err(Cause::OutOfMemory)),
        ErrorKind::DisplayHelp | ErrorKind::DisplayVersion => show_text(rt, error, output),
        _ => {
            let _ = rt.eprint(error);
            2
        }
    }
}

/// Does what the words say, and answers the exit status, with what is left of the files of a word.
///
/// The words begin with the program's name. 0: done, whatever was refused. 1: cut off, because memory was refused, the
/// input broke or a write failed, with the refusal and its meaning on standard error; and a word over a file that is
/// refused. 2: words that say nothing to do, with the reason and the usage on standard error. `--help` and `--version`
/// are written to the output. `start` stands for what the database file of a word holds when it is opened.
pub fn run_words<R, W, S>(
    rt: &HostRuntime,
    words: &[String],
    input: &mut R,
    output: &mut W,
    start: S,
) -> Ended<FileFrom<S>>
where
    R: Read,
    W: Write,
    S: Start,
    // Words that ask for a run have one, unless there is no memory to read them.
    ensures done { AskForRun (map string_bytes words.now) → result.status ≡ 0
        → (end : Standing) × AnswersAll R.remaining input.old input.new W.contents output.old output.new at_first end }
    ensures cut_off { AskForRun (map string_bytes words.now) → result.status ≢ 0
        → (result.status ≡ 1) × IsCutShort R.remaining input.old input.new W.contents output.old output.new }

    // A word over a database file is answered over that file, and leaves it as is said.
    ensures word { (word : List ℕ) → (values : List Row) → AskForWord (map string_bytes words.now) word values
        → IsTold ⟦<FileFrom<S> as Disk>⟧ (image_at S.Start) W.contents output.old output.new result.status word values
        result.left }

    // `serve` answers the calls of connections over it.
    ensures serve { (values : List Row) → AskToServe (map string_bytes words.now) values
        → IsServedOver ⟦<FileFrom<S> as Disk>⟧ (image_at S.Start) W.contents output.old output.new result.status values
        result.left }

    // Others read none, and those that are not taken, but for those that may ask for help or for the version, are
    // answered 2; or 1 for want of memory. No other words are answered 2.
    ensures other { (AskForRun (map string_bytes words.now) → ⊥) → input.new ≡ input.old }
    ensures wrong { (AreTaken (map string_bytes words.now) → ⊥) → (MayAskForHelp (map string_bytes words.now) → ⊥)
        → ((result.status ≡ 2) ⊎ (result.status ≡ 1)) × (output.new ≡ output.old) }
    ensures usage { result.status ≡ 2 → (input.new ≡ input.old) × (output.new ≡ output.old) }
    ensures unused { result.status ≡ 2 → AreTaken (map string_bytes words.now)
        → named (map string_bytes words.now) ≡ None }
{
    match read_words(rt.alloc(), words) {
        Ok(matches) => do_word(rt, &matches, input, output, start),
        Err(error) => Ended {
            status: answer_untaken(rt, &error, output),
            left: Left::Untouched,
        },
    }
}
