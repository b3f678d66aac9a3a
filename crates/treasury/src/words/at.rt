//! A word at the port of a running service: its request is sent there, and the reply is what the word is answered.

mod own_lines;

ghost use Rattle.std.specs.Prelude.{◌≡◌, ◌≢◌, Err, ℕ, List, take, string_bytes, IfOk, IfErr, IfSome, OnOk, OnErr};
ghost use Rattle.std.specs.Cow.{cow_slice_items};
ghost use Rattle.clap.specs.Matches.{found_of};
ghost use Rattle.clap.specs.Walk.{rows_of};
ghost use Rattle.treasury_requests.specs.Request.{HasDayNumbers};
ghost use Rattle.treasury_requests.specs.declared.request.Request.TheVariants.{Import};
ghost use Rattle.treasury_spelling.specs.Spelling.{given};
ghost use Rattle.treasury_client.specs.Reply.{SaysToCommand, SaysToReport};
ghost use Rattle.treasury.specs.At.{AsksFor, AsksService, MayAsk, cause_of_silence};
ghost use Rattle.treasury.specs.At.{SaysFrom, SaysToBytesAt, SaysToImportAt, SaysToFormAt, SaysAt};
ghost use Rattle.treasury.specs.Spoken.{IsRefusedBy};
ghost use Rattle.treasury.specs.OverFileParts.{spoken};

use crate::words::at::own_lines::with_own_lines;
use crate::words::over_file::{import_of, lacking};
use crate::words::patience::{Asking, Replying};
use crate::words::said::{Said, refused};
use clap::ArgMatches;
use money_core::Cause;
use std::alloc::Global;
use std::borrow::CowSlice;
use std::fs;
use std::io::{Read, Write};
use std::net::TcpStream;
use terminal_text::push_shown;
use treasury_api::write_whole;
use treasury_client::{Form, Heard, as_text, body_of, call_of, hear_command, hear_report};
use treasury_files::read_journal;
use treasury_messages::{hint, sentence, text_of};
use treasury_requests::{Spelled, Terms};
use treasury_spelling::{fault_of, port_of, request_of_word, says_no_count, terms_of, value_of};

/// Services listen on this machine alone.
const HOST: &str = "127.0.0.1";

/// The most bytes of a reply, and one more, so that a longer one is seen to be.
const MOST_REPLY: u64 = 1024 * 1024 * 1024 + 1;

/// Said where a journal's file cannot be read.
const UNREAD: &str = "the journal's file cannot be read";

/// Why a request has no reply.
#[derive(Clone, Copy, Debug)]
pub enum Unheard {
    /// No connection was made.
    Unreached,
    /// There was no memory for the call, and nothing was sent.
    NoMemory,
    /// The call was not sent to its end, or its reply not read to its end; or there was no memory for it.
    Broken,
    /// What came is no whole reply of a treasury.
    Strange,
}

impl Unheard {
    /// The cause that it is refused by.
    fn cause(self) -> Cause
        ensures { result ≡ cause_of_silence self }
    {
        match self {
            Unheard::NoMemory => Cause::OutOfMemory,
            _ => Cause::ReadFault,
        }
    }

    /// Its sentence.
    fn reason(self) -> &'static str {
        match self {
            Unheard::Unreached => "no service listens there, and nothing was sent",
            Unheard::NoMemory => "there is no memory for the call, and nothing was sent",
            Unheard::Broken => "the connection ended before the reply was whole, or took too long",
            Unheard::Strange => "what came is not the whole reply of a treasury",
        }
    }
}

/// The bytes of the call that asks for a request.
fn call_for(alloc: Global, port: u16, form: Form, request: &Spelled) -> Result<String, Unheard>
    requires { HasDayNumbers request.now.request }
    ensures asks { IfOk result (λ call. AsksFor port form request.now (string_bytes call)) }
    ensures memory { IfErr result (λ why. why ≡ Unheard.NoMemory) }
{
    let body = match body_of(alloc, request) {
        Ok(body) => body,
        Err(_) => return Err(Unheard::NoMemory),
    };
    match call_of(alloc, port, form, body.as_str()) {
        Ok(call) => Ok(call),
        Err(_) => Err(Unheard::NoMemory),
    }
}

/// What a reader has, up to the limit.
fn read_came<R: Read + Drop>(alloc: Global, reader: R) -> Result<Vec<u8>, Unheard>
    ensures { IfOk result (λ came. IfSome (R.remaining reader) (λ had. came.items ≡ take MOST_REPLY had)) }
{
    let mut came = Vec::new(alloc);
    let mut reader = reader.take(MOST_REPLY);
    match reader.read_to_end(&mut came) {
        Ok(_) => Ok(came),
        Err(_) => Err(Unheard::Broken),
    }
}

/// Sends the call for a request over a connection to the port, and reads what comes for it, to its end.
pub fn exchange<R: Read + Drop, W: Write>(
    alloc: Global,
    port: u16,
    form: Form,
    request: &Spelled,
    reader: R,
    writer: &mut W,
) -> Result<Vec<u8>, Unheard>
    requires { HasDayNumbers request.now.request }
    // All of the call is sent, and all that the reader had is what came, up to the limit.
    ensures sent { OnOk result (AsksService W.contents writer.old writer.new port form request.now) }
    ensures came { IfOk result (λ came. IfSome (R.remaining reader) (λ had. came.items ≡ take MOST_REPLY had)) }
    // Or it is sent, or a first part of it, or nothing.
    ensures broken { OnErr result (MayAsk W.contents writer.old writer.new port form request.now) }
    ensures memory { result ≡ Err Unheard.NoMemory → writer.new ≡ writer.old }
{
    let call = match call_for(alloc, port, form, request) {
        Ok(call) => call,
        Err(why) => return Err(why),
    };
    match write_whole(writer, call.as_bytes()) {
        Ok(()) => {}
        Err(_) => return Err(Unheard::Broken),
    }
    match read_came(alloc, reader) {
        Ok(came) => Ok(came),
        Err(_) => Err(Unheard::Broken),
    }
}

/// Why nothing was heard: what came says nothing, or there was no memory for it.
fn unheard_by(cause: Cause) -> Unheard
    ensures { result ≢ Unheard.NoMemory }
{
    match cause {
        Cause::ReadFault => Unheard::Strange,
        _ => Unheard::Broken,
    }
}

/// Asks for a command over a connection, and hears what comes; or what is said of a report that is refused.
pub fn hear_command_from<R: Read + Drop, W: Write>(
    alloc: Global,
    port: u16,
    request: &Spelled,
    journal: Option<&[u8]>,
    reader: R,
    writer: &mut W,
) -> Result<Heard, Unheard>
    requires { HasDayNumbers request.now.request }
    ensures sent { OnOk result (AsksService W.contents writer.old writer.new port Form.Json request.now) }
    ensures heard { IfOk result (λ heard. (came : List ℕ)
        × IfSome (R.remaining reader) (λ had. came ≡ take MOST_REPLY had)
        × SaysToCommand came heard.answer.items heard.is_refused) }
    ensures memory { result ≡ Err Unheard.NoMemory → writer.new ≡ writer.old }
{
    let came = match exchange(alloc, port, Form::Json, request, reader, writer) {
        Ok(came) => came,
        Err(why) => return Err(why),
    };
    match hear_command(alloc, came.as_slice(), journal) {
        Ok(heard) => Ok(heard),
        Err(cause) => Err(unheard_by(cause)),
    }
}

/// Asks for a report over a connection, and hears what comes.
pub fn hear_report_from<R: Read + Drop, W: Write>(
    alloc: Global,
    port: u16,
    request: &Spelled,
    reader: R,
    writer: &mut W,
) -> Result<Heard, Unheard>
    requires { HasDayNumbers request.now.request }
    ensures sent { OnOk result (AsksService W.contents writer.old writer.new port Form.Text request.now) }
    ensures heard { IfOk result (λ heard. (came : List ℕ)
        × IfSome (R.remaining reader) (λ had. came ≡ take MOST_REPLY had)
        × SaysToReport came heard.answer.items heard.is_refused) }
    ensures memory { result ≡ Err Unheard.NoMemory → writer.new ≡ writer.old }
{
    let came = match exchange(alloc, port, Form::Text, request, reader, writer) {
        Ok(came) => came,
        Err(why) => return Err(why),
    };
    match hear_report(alloc, came.as_slice()) {
        Ok(heard) => Ok(heard),
        Err(cause) => Err(unheard_by(cause)),
    }
}

/// A connection to the service at the port.
fn reach(rt: &HostRuntime, port: u16) -> Result<TcpStream, Unheard> {
    match TcpStream::connect(rt, (HOST, port)) {
        Ok(stream) => Ok(stream),
        Err(_) => Err(Unheard::Unreached),
    }
}

/// What was heard, as it is said.
fn said_of(heard: Heard) -> Said
    ensures { spoken result ≡ record { text = heard.answer.items; refused = heard.is_refused } }
{
    Said {
        answer: CowSlice::Owned(heard.answer),
        reason: heard.said,
        is_refused: heard.is_refused,
    }
}

/// Hears what the service at the port says to a command, or of a report that is refused.
fn hear_command_at(
    rt: &HostRuntime,
    port: u16,
    request: &Spelled,
    journal: Option<&[u8]>,
) -> Result<Said, Unheard>
    requires { HasDayNumbers request.now.request }
    ensures { IfOk result (λ said. (came : List ℕ) × SaysToCommand came (cow_slice_items said.answer) said.is_refused) }
{
    let stream = match reach(rt, port) {
        Ok(stream) => stream,
        Err(why) => return Err(why),
    };
    let mut writer = Replying::new(rt, &stream);
    let reader = Asking::waiting(rt, &stream);
    match hear_command_from(rt.alloc(), port, request, journal, reader, &mut writer) {
        Ok(heard) => Ok(said_of(heard)),
        Err(why) => Err(why),
    }
}

/// Hears what the service at the port says to a report.
fn hear_report_at(rt: &HostRuntime, port: u16, request: &Spelled) -> Result<Said, Unheard>
    requires { HasDayNumbers request.now.request }
    ensures { IfOk result (λ said. (came : List ℕ) × SaysToReport came (cow_slice_items said.answer) said.is_refused) }
{
    let stream = match reach(rt, port) {
        Ok(stream) => stream,
        Err(why) => return Err(why),
    };
    let mut writer = Replying::new(rt, &stream);
    let reader = Asking::waiting(rt, &stream);
    match hear_report_from(rt.alloc(), port, request, reader, &mut writer) {
        Ok(heard) => Ok(said_of(heard)),
        Err(why) => Err(why),
    }
}

/// Why a report is refused by that line, as the service says when it is asked once more.
fn why_refused(rt: &HostRuntime, port: u16, request: &Spelled, answer: &[u8]) -> Option<Vec<u8>>
    requires { HasDayNumbers request.now.request }
{
    match hear_command_at(rt, port, request, None) {
        Ok(said) if said.answer.as_slice() == answer => Some(said.reason),
        _ => None,
    }
}

/// The same with a reason, where it is a refusal: that of the service, or that it gave none.
fn with_reason(rt: &HostRuntime, port: u16, request: &Spelled, said: Said) -> Said
    requires { HasDayNumbers request.now.request }
    ensures { spoken result ≡ spoken said }
{
    if !said.is_refused {
        return said;
    }
    let reason = match why_refused(rt, port, request, said.answer.as_slice()) {
        Some(reason) => reason,
        None => {
            let mut reason = Vec::new(rt.alloc());
            let _ = reason.extend_from_slice(b"treasury: the service did not say why\n");
            reason
        }
    };
    Said {
        answer: said.answer,
        reason,
        is_refused: said.is_refused,
    }
}

/// What is said to the request of a report.
fn ask_report(rt: &HostRuntime, port: u16, request: &Spelled) -> Result<Said, Unheard>
    requires { HasDayNumbers request.now.request }
    ensures { IfOk result (λ said. (came : List ℕ) × SaysToReport came (cow_slice_items said.answer) said.is_refused) }
{
    match hear_report_at(rt, port, request) {
        Ok(said) => Ok(with_reason(rt, port, request, said)),
        Err(why) => Err(why),
    }
}

/// Why it is safe to send the same again.
fn why_safe(request: &Spelled) -> &'static [u8] {
    if request.request.is_report() {
        b"asking again is safe: a report changes nothing"
    } else if request.terms.is_dry_run {
        b"asking again is safe: a dry run changes nothing"
    } else {
        b"sending the same again is safe: what was done is answered as repeated, and is not done twice"
    }
}

/// The line of a hint, if there is memory for it.
fn hint_text(alloc: Global, words: &'static [u8]) -> Vec<u8> {
    let mut said = Vec::new(alloc);
    let _ = hint(words, &mut said);
    text_of(alloc, said.as_slice())
}

/// Said where there is no reply to a request.
fn unanswered(alloc: Global, port: u16, request: &Spelled, why: Unheard) -> Said
    ensures { IsRefusedBy (cause_of_silence why) (spoken result) }
{
    let cause = why.cause();
    let said = match format!(in alloc; "{HOST}:{port}") {
        Ok(address) => refused(alloc, cause, address.as_str(), why.reason()),
        Err(_) => refused(alloc, cause, HOST, why.reason()),
    };
    let mut reason = said.reason;
    let mut safe = hint_text(alloc, why_safe(request));
    let _ = reason.append(&mut safe);
    Said {
        answer: said.answer,
        reason,
        is_refused: said.is_refused,
    }
}

/// Answers the request of a word by what a service replies. `journal` names the journal in what is said.
fn answer_request_at(rt: &HostRuntime, port: u16, request: &Spelled, journal: Option<&[u8]>) -> Said
    requires { HasDayNumbers request.now.request }
    ensures { SaysFrom request.now (spoken result) }
{
    if request.request.is_report() {
        match ask_report(rt, port, request) {
            Ok(said) => said,
            Err(why) => unanswered(rt.alloc(), port, request, why),
        }
    } else {
        match hear_command_at(rt, port, request, journal) {
            Ok(said) => said,
            Err(why) => unanswered(rt.alloc(), port, request, why),
        }
    }
}

/// Answers `import`, whose journal's bytes these are, by what a service replies. `source` names the journal.
fn answer_bytes_at(
    rt: &HostRuntime,
    port: u16,
    branch: &str,
    source: &str,
    terms: Terms,
    journal: &[u8],
) -> Said
    ensures { SaysToBytesAt branch.now terms journal.now (spoken result) }
{
    let alloc = rt.alloc();
    let mut shown = Vec::new(alloc);
    let _ = push_shown(source.as_bytes(), &mut shown);
    let text = match as_text(alloc, journal) {
        Ok(text) => text,
        Err(_) => {
            let reason = sentence(Cause::OutOfMemory);
            return refused(alloc, Cause::OutOfMemory, source, reason);
        }
    };
    match import_of(alloc, branch, text) {
        Ok(request) => {
            let spelled = Spelled { request, terms };
            let said = answer_request_at(rt, port, &spelled, Some(shown.as_slice()));
            with_own_lines(alloc, said, journal)
        }
        Err(cause) => refused(alloc, cause, source, sentence(cause)),
    }
}

/// Answers `import` by what a service replies: the journal's file is read here, before anything is sent.
fn answer_import_at(rt: &HostRuntime, port: u16, values: &ArgMatches<'_>) -> Said
    ensures { SaysToImportAt (rows_of (found_of values.now)) (spoken result) }
{
    let alloc = rt.alloc();
    let Some(branch) = value_of(values, "branch") else {
        return lacking(alloc, "import");
    };
    let Some(journal) = value_of(values, "journal") else {
        return lacking(alloc, "import");
    };
    if says_no_count(values) {
        let reason = fault_of("import", values);
        return refused(alloc, Cause::Request, "import", reason);
    }
    let file = match fs::open(rt, journal) {
        Ok(file) => file,
        Err(_) => return refused(alloc, Cause::ReadFault, journal, UNREAD),
    };
    match read_journal(alloc, file) {
        Ok(bytes) => {
            let bytes = bytes.as_slice();
            answer_bytes_at(rt, port, branch, journal, terms_of(values), bytes)
        }
        Err(cause) => refused(alloc, cause, journal, UNREAD),
    }
}

/// Answers the word of a command or a report, `import` aside, by what a service replies.
fn answer_form_at(rt: &HostRuntime, port: u16, word: &str, values: &ArgMatches<'_>) -> Said
    ensures { SaysToFormAt word.now (rows_of (found_of values.now)) (spoken result) }
{
    let alloc = rt.alloc();
    match request_of_word(alloc, word, values) {
        Ok(request) => {
            let spelled = Spelled {
                request,
                terms: terms_of(values),
            };
            answer_request_at(rt, port, &spelled, None)
        }
        Err(cause) => {
            let reason = match cause {
                Cause::Request => fault_of(word, values),
                _ => sentence(cause),
            };
            refused(alloc, cause, word, reason)
        }
    }
}

/// Answers a word at the port of a service, by its values.
///
/// The faults come in this order: 44; for `import` the journal's 45; 45 where there is no whole reply; then those of
/// the request.
pub fn answer_at(rt: &HostRuntime, word: &str, values: &ArgMatches<'_>) -> Said
    ensures { SaysAt word.now (rows_of (found_of values.now)) (spoken result) }
{
    let Some(port) = port_of(values) else {
        return lacking(rt.alloc(), word);
    };
    if word == "import" {
        answer_import_at(rt, port, values)
    } else {
        answer_form_at(rt, port, word, values)
    }
}
