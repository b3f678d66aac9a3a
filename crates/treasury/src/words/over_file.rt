//! A word over a database file: what it is answered, and what is said of a refusal.

ghost use Rattle.std.specs.Prelude.{◌≡◌, IfOk};
ghost use Rattle.std.specs.Result.{IsOkUnless};
ghost use Rattle.std.specs.Cow.{cow_slice_items};
ghost use Rattle.clap.specs.Matches.{found_of};
ghost use Rattle.clap.specs.Walk.{rows_of};
ghost use Rattle.sqlite_wal.specs.Recovery.{Image};
ghost use Rattle.sqlite_wal.specs.Files.{image_at};
ghost use Rattle.treasury_requests.specs.declared.request.Request.TheVariants.{Import};
ghost use Rattle.treasury_requests.specs.Request.{HasDayNumbers};
ghost use Rattle.treasury_api.specs.Left.{LeavesRequest};
ghost use Rattle.treasury_files.specs.declared.left.Left.TheVariants.{Untouched};
ghost use Rattle.treasury.specs.Word.{SaysTo};
ghost use Rattle.treasury.specs.OverFile.{IsRefusedBy, SaysToInit, SaysOver, SaysToJournal, SaysToWord};
ghost use Rattle.treasury.specs.OverFileParts.{spoken, IsClosedOrShut, SaysToImport, SaysToForm};
ghost use Rattle.treasury_files.specs.Started.{IsStarted, cause_of_why};

use crate::words::at::answer_at;
use crate::words::said::{Said, done, refused};
use clap::ArgMatches;
use money_core::{Cause, Text};
use sqlite::{Alter, FileFrom, FileStore, Start};
use sqlite_disk::Disk;
use std::alloc::Global;
use std::borrow::CowSlice;
use std::fs;
use std::io::Read;
use treasury_api::{Form, Grounds, answer_ahead, refuse, said_beside};
use treasury_files::{
    Left, UNCLOSED, Unopened, Unserved, close_treasury, make_tables, open_treasury, read_journal,
};
use treasury_messages::sentence;
use treasury_requests::{Bytes, Request, Spelled, Terms};
use treasury_spelling::{fault_of, request_of_word, says_no_count, terms_of, value_of};
use treasury_store::Treasury;

/// What is said to a word over a file, and what it leaves of the file.
#[derive(Drop)]
pub struct Answered<D: Disk> {
    pub said: Said,
    pub left: Left<D>,
}

/// Said where no file was opened.
fn before<D: Disk>(said: Said) -> Answered<D>
    ensures { result ≡ record { said = said; left = Untouched } }
{
    Answered {
        said,
        left: Left::Untouched,
    }
}

/// Said where a file serves no word.
pub fn refused_file(alloc: Global, path: &str, unopened: Unopened) -> Said
    ensures { IsRefusedBy (cause_of_why unopened) (spoken result) }
{
    match unopened {
        Unopened::NoMemory => {
            let reason = sentence(Cause::OutOfMemory);
            refused(alloc, Cause::OutOfMemory, path, reason)
        }
        Unopened::Unusable(reason) => refused(alloc, Cause::Store, path, reason),
        Unopened::NoTreasury(reason) => refused(alloc, Cause::Damaged, path, reason),
        Unopened::OtherVersion(version) => refused_version(alloc, path, version),
        Unopened::Strange(told) => {
            let reason = match str::from_utf8(told.as_slice()) {
                Ok(reason) => reason,
                Err(_) => sentence(Cause::Damaged),
            };
            refused(alloc, Cause::Damaged, path, reason)
        }
    }
}

/// Said where the tables of a file are of another version, or are not those of the version that they name.
fn refused_version(alloc: Global, path: &str, version: i64) -> Said
    ensures { IsRefusedBy Cause.Damaged (spoken result) }
{
    let reason = match version {
        1 | 2 => format!(in alloc;
            "the tables name version {version}, and are not those of that version"
        ),
        _ => format!(in alloc;
            "the tables name version {version}, and this program opens versions 1 and 2"
        ),
    };
    match reason {
        Ok(reason) => refused(alloc, Cause::Damaged, path, reason.as_str()),
        Err(_) => refused(
            alloc,
            Cause::Damaged,
            path,
            "the tables are of another version",
        ),
    }
}

/// Said where a value is not given that the word has to have. The words that are taken have them all.
pub fn lacking(alloc: Global, word: &str) -> Said
    ensures { IsRefusedBy Cause.Request (spoken result) }
{
    refused(alloc, Cause::Request, word, sentence(Cause::Request))
}

/// What a treasury answers to the request of a word: as to a line of `run`, but a report has no `ok` after its lines.
/// `source` names the journal.
pub fn answer_word<S: Alter>(
    alloc: Global,
    request: &Spelled,
    source: &str,
    treasury: &mut Treasury<S>,
) -> Said
    requires { HasDayNumbers request.now.request }
    ensures says { SaysTo S.Store treasury.old request.now (cow_slice_items result.answer) result.is_refused
        treasury.new }
    ensures left { LeavesRequest S.Store treasury.old treasury.new request.now }
{
    let mut text = Vec::new(alloc);
    let mut grounds = Grounds::before(treasury, &request.request);
    let added = &mut grounds.added;
    match answer_ahead(alloc, Form::Text, request, treasury, &mut text, added) {
        Ok(()) => Said {
            answer: CowSlice::Owned(text),
            reason: said_beside(alloc, treasury.state(), request, source, &grounds, None),
            is_refused: false,
        },
        Err(refusal) => {
            let state = treasury.state();
            let reason = said_beside(alloc, state, request, source, &grounds, Some(&refusal));
            Said {
                answer: refuse(alloc, treasury, refusal),
                reason,
                is_refused: true,
            }
        }
    }
}

/// Answers the request of a word on the treasury of a file, and closes the file.
///
/// Where it cannot be closed, it answers 41: what the request asks for is done then, or it is not.
fn answer_on_file<D: Disk + Drop>(
    alloc: Global,
    path: &str,
    request: &Spelled,
    source: &str,
    treasury: Treasury<FileStore<D>>,
) -> Answered<D>
    requires { HasDayNumbers request.now.request }
    ensures says { (image : Image) → IsStarted D.Disk image treasury
        → SaysOver D.Disk image request.now (spoken result.said) result.left }
    // What is handed back is what was closed, or could not be.
    ensures touched { IsClosedOrShut result.left }
{
    let mut treasury = treasury;
    let said = answer_word(alloc, request, source, &mut treasury);
    match close_treasury(treasury) {
        Ok(files) => Answered {
            said,
            left: Left::Closed(files),
        },
        Err(store) => Answered {
            said: refused_file(alloc, path, Unopened::Unusable(UNCLOSED)),
            left: Left::Shut(store),
        },
    }
}

/// Said where a file serves no word, and what is left of it.
fn refused_by<D: Disk>(alloc: Global, path: &str, unserved: Unserved<D>) -> Answered<D>
    ensures refused { IsRefusedBy (cause_of_why unserved.why) (spoken result.said) }
    ensures left { result.left ≡ unserved.left }
{
    let Unserved { why, left } = unserved;
    Answered {
        said: refused_file(alloc, path, why),
        left,
    }
}

/// Answers the request of a word over a file.
fn answer_request<S: Start>(
    rt: &HostRuntime,
    path: &str,
    request: &Spelled,
    source: &str,
    start: S,
) -> Answered<FileFrom<S>>
    requires { HasDayNumbers request.now.request }
    ensures { SaysOver ⟦<FileFrom<S> as Disk>⟧ (image_at S.Start) request.now (spoken result.said) result.left }
{
    match open_treasury(rt, path, start) {
        Ok(treasury) => answer_on_file(rt.alloc(), path, request, source, treasury),
        Err(refused) => refused_by(rt.alloc(), path, refused),
    }
}

/// The request to enter a journal's bytes into a branch.
pub(crate) fn import_of(alloc: Global, branch: &str, journal: Vec<u8>) -> Result<Request, Cause>
    ensures request { IfOk result (λ request. request ≡ Import branch.now journal.items) }
    ensures memory { IsOkUnless result Cause.OutOfMemory }
{
    let branch = match Text::of(alloc, branch) {
        Ok(branch) => branch,
        Err(cause) => return Err(cause),
    };
    let journal = Bytes::from_vec(journal);
    Ok(Request::Import { branch, journal })
}

/// Answers `import`, whose journal a reader has. `source` names the journal.
fn answer_journal<R: Read + Drop, S: Start>(
    rt: &HostRuntime,
    path: &str,
    branch: &str,
    source: &str,
    terms: Terms,
    reader: R,
    start: S,
) -> Answered<FileFrom<S>>
    ensures { SaysToJournal ⟦<FileFrom<S> as Disk>⟧ (image_at S.Start) branch.now terms (R.remaining reader)
        (spoken result.said) result.left }
{
    let alloc = rt.alloc();
    let bytes = match read_journal(alloc, reader) {
        Ok(bytes) => bytes,
        Err(cause) => {
            let reason = "the journal's file cannot be read";
            return before(refused(alloc, cause, source, reason));
        }
    };
    match import_of(alloc, branch, bytes) {
        Ok(request) => {
            let spelled = Spelled { request, terms };
            answer_request(rt, path, &spelled, source, start)
        }
        Err(cause) => before(refused(alloc, cause, source, sentence(cause))),
    }
}

/// Answers `import`: the journal's file is read before the database is opened.
fn answer_import<S: Start>(
    rt: &HostRuntime,
    path: &str,
    values: &ArgMatches<'_>,
    start: S,
) -> Answered<FileFrom<S>>
    ensures { SaysToImport ⟦<FileFrom<S> as Disk>⟧ (image_at S.Start) (rows_of (found_of values.now))
        (spoken result.said) result.left }
{
    let alloc = rt.alloc();
    let Some(branch) = value_of(values, "branch") else {
        return before(lacking(alloc, "import"));
    };
    let Some(journal) = value_of(values, "journal") else {
        return before(lacking(alloc, "import"));
    };
    if says_no_count(values) {
        let reason = fault_of("import", values);
        return before(refused(alloc, Cause::Request, "import", reason));
    }
    match fs::open(rt, journal) {
        Ok(file) => {
            let terms = terms_of(values);
            answer_journal(rt, path, branch, journal, terms, file, start)
        }
        Err(_) => {
            let reason = "the journal's file cannot be read";
            before(refused(alloc, Cause::ReadFault, journal, reason))
        }
    }
}

/// Answers the word of a command or a report, `init` and `import` aside.
fn answer_form<S: Start>(
    rt: &HostRuntime,
    path: &str,
    word: &str,
    values: &ArgMatches<'_>,
    start: S,
) -> Answered<FileFrom<S>>
    ensures { SaysToForm ⟦<FileFrom<S> as Disk>⟧ (image_at S.Start) word.now (rows_of (found_of values.now))
        (spoken result.said) result.left }
{
    let alloc = rt.alloc();
    match request_of_word(alloc, word, values) {
        Ok(request) => {
            let spelled = Spelled {
                request,
                terms: terms_of(values),
            };
            answer_request(rt, path, &spelled, "", start)
        }
        Err(cause) => {
            let reason = match cause {
                Cause::Request => fault_of(word, values),
                _ => sentence(cause),
            };
            Answered {
                said: refused(alloc, cause, word, reason),
                left: Left::Untouched,
            }
        }
    }
}

/// Answers `init`: makes the tables of a new treasury.
fn answer_init<S: Start>(rt: &HostRuntime, path: &str, start: S) -> Answered<FileFrom<S>>
    ensures { SaysToInit ⟦<FileFrom<S> as Disk>⟧ (image_at S.Start) (spoken result.said) result.left }
{
    match make_tables(rt, path, start) {
        Ok(files) => Answered {
            said: done(rt.alloc()),
            left: Left::Closed(files),
        },
        Err(refused) => refused_by(rt.alloc(), path, refused),
    }
}

/// Answers a word over a file, by its values. `start` stands for what the file holds.
///
/// The faults come in this order: 44; for `import` the journal's 45; the database's 40, 41, 43; then as to a line of
/// `run`.
pub fn answer_over_file<S: Start>(
    rt: &HostRuntime,
    word: &str,
    values: &ArgMatches<'_>,
    start: S,
) -> Answered<FileFrom<S>>
    ensures { SaysToWord ⟦<FileFrom<S> as Disk>⟧ (image_at S.Start) word.now (rows_of (found_of values.now))
        (spoken result.said) result.left }
{
    let Some(path) = value_of(values, "db") else {
        return before(answer_at(rt, word, values));
    };
    if word == "init" {
        return answer_init(rt, path, start);
    }
    if word == "import" {
        return answer_import(rt, path, values, start);
    }
    answer_form(rt, path, word, values, start)
}
