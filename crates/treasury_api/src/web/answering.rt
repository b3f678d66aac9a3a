//! What a treasury replies to a call.

ghost use Rattle.std.specs.Prelude.{◌≡◌, ◌≤◌, [], Ok, Err, IfOk, OnErr, option_map, vec_capacity};
ghost use Rattle.std.specs.Cow.{cow_slice_items};
ghost use Rattle.std.specs.Result.{IsOkUnless};
ghost use Rattle.treasury_requests.specs.Request.{HasDayNumbers, in_earnest};
ghost use Rattle.treasury_api.specs.OneRequest.{RepliesAs, RepliesOn};
ghost use Rattle.treasury_api.specs.WebReply.{status_of, form_of_reply};
ghost use Rattle.treasury_api.specs.Web.{IsRefusal44, IsBodyIn, AnswersOn};
ghost use Rattle.treasury_api.specs.WebServing.{IsUnaskedJson, code_of, IsSought, sought_of, SeeksDays, LeavesReplied};

use crate::answering::{answer, answer_ahead};
use crate::plain::plain_line;
use crate::running::refuse_by;
use crate::telling::{Grounds, JOURNAL, said_beside};
use crate::web::branch::is_command_of;
use crate::web::object::{
    MOST_JSON, done_in_json, entries_told, refuse_in_json, refuse_plain_in_json, told_unasked,
};
use crate::web::reply::Reply;
use crate::web::status::{Status, status_of};
use book_core::Refusal;
use http_request::{Call, Form, Received};
use money_core::{Cause, Items, Text};
use sqlite::Alter;
use std::alloc::Global;
use std::borrow::CowSlice;
use treasury_requests::{Given, Request, Spelled, Terms, Word, read_line, request_by};
use treasury_store::Treasury;

/// What a call asks for.
enum Sought {
    /// This request.
    Request(Spelled),
    /// Nothing: it is foreign, or its request is no command of its branch.
    Forbidden,
    /// Nothing: it has no route.
    Nowhere,
    /// Nothing: its body spells no request.
    Misspelled(Items<u8>),
    /// Nothing: it is no request.
    NoRequest,
}

/// The request, where it may be asked for by the route of that branch.
fn sought_of(branch: Option<Text>, request: Spelled) -> Sought
    ensures { result ≡ sought_of branch request }
{
    match branch {
        Some(branch) if !is_command_of(&request.request, branch.as_str()) => Sought::Forbidden,
        _ => Sought::Request(request),
    }
}

/// What a command asks for with that body, by the route of a branch where there is one.
fn sought_by_body(alloc: Global, branch: Option<Text>, body: Items<u8>) -> Result<Sought, Cause>
    ensures sought { IfOk result (IsSought (Call.Command branch body)) }
    ensures days { IfOk result SeeksDays }
    ensures memory { IsOkUnless result Cause.OutOfMemory }
{
    match read_line(alloc, body.items()) {
        Ok(request) => Ok(sought_of(branch, request)),
        Err(Cause::Request) => Ok(Sought::Misspelled(body)),
        Err(_) => Err(Cause::OutOfMemory),
    }
}

/// The request for a report, which is no dry run.
fn report(request: Request) -> Sought
    ensures { result ≡ Sought.Request (in_earnest request) }
{
    Sought::Request(Spelled {
        request,
        terms: Terms {
            is_dry_run: false,
            if_entries: None,
        },
    })
}

/// What is given at the keys of a report asks for; nothing where it makes no request for one.
fn sought_by_path(alloc: Global, word: Word, given: &Items<Given>) -> Result<Sought, Cause>
    ensures sought { IfOk result (IsSought (Call.Report word given.now)) }
    ensures days { IfOk result SeeksDays }
    ensures memory { IsOkUnless result Cause.OutOfMemory }
{
    match request_by(alloc, word, given) {
        Ok(request) => {
            if request.is_report() {
                Ok(report(request))
            } else {
                Ok(Sought::NoRequest)
            }
        }
        Err(Cause::Request) => Ok(Sought::NoRequest),
        Err(_) => Err(Cause::OutOfMemory),
    }
}

/// What is called for. Answers 40 where there is no memory to read it.
fn sought_by(alloc: Global, call: Call) -> Result<Sought, Cause>
    ensures sought { IfOk result (IsSought call) }
    ensures days { IfOk result SeeksDays }
    ensures memory { IsOkUnless result Cause.OutOfMemory }
{
    match call {
        Call::Unreadable => Ok(Sought::NoRequest),
        Call::Foreign => Ok(Sought::Forbidden),
        Call::Nowhere => Ok(Sought::Nowhere),
        Call::Command { branch, body } => sought_by_body(alloc, branch, body),
        Call::Report { word, given } => sought_by_path(alloc, word, &given),
    }
}

/// The reply by a line that takes no memory.
fn plain_reply(status: Status, line: &'static [u8]) -> Reply
    ensures status { result.status ≡ status }
    ensures form { result.form ≡ Form.Text }
    ensures body { cow_slice_items result.body ≡ line.now }
{
    Reply {
        status,
        form: Form::Text,
        body: CowSlice::Borrowed(line),
    }
}

/// The reply to a call that is no request, by 44. `body` is what spells none, if there is a body. Answers 40 where
/// there is no memory for an object.
fn no_request(alloc: Global, form: Form, body: Option<&[u8]>) -> Result<Reply, Cause>
    ensures status { IfOk result (λ reply. code_of reply.status ≡ 400) }
    ensures form { IfOk result (λ reply. reply.form ≡ form_of_reply form (code_of reply.status)) }
    ensures body { IfOk result (λ reply. IsRefusal44 form (cow_slice_items reply.body)) }
    ensures told { form ≡ Form.Json → IfOk result (λ reply.
        IsUnaskedJson (option_map (λ b. b.now) body.entry) (cow_slice_items reply.body)) }
    ensures memory { IsOkUnless result Cause.OutOfMemory }
{
    match form {
        Form::Text => Ok(plain_reply(Status::BadRequest, plain_line(Cause::Request))),
        Form::Json => {
            let room = Vec::with_capacity(alloc, MOST_JSON)?;
            let told = told_unasked(alloc, body);
            let line = b"refused 44 Request";
            let object = refuse_plain_in_json(line, Cause::Request, told.as_slice(), room);
            Ok(Reply {
                status: Status::BadRequest,
                form: Form::Json,
                body: CowSlice::Owned(object),
            })
        }
    }
}

/// The reply to a request as text.
fn answer_in_text<S: Alter>(alloc: Global, request: &Spelled, treasury: &mut Treasury<S>) -> Reply
    requires { HasDayNumbers request.now.request }
    ensures form { result.form ≡ Form.Text }
    ensures replies { RepliesOn S.Store treasury.old request.now (cow_slice_items result.body)
        (λ reply. code_of result.status ≡ status_of reply) treasury.new }
    ensures leaves { LeavesReplied S.Store treasury.old request.now (code_of result.status) treasury.new }
{
    let mut body = Vec::new(alloc);
    match answer(alloc, Form::Text, request, treasury, &mut body) {
        Ok(()) => Reply {
            status: Status::Done,
            form: Form::Text,
            body: CowSlice::Owned(body),
        },
        Err(refusal) => {
            let line = refuse_by(alloc, treasury, refusal);
            Reply {
                status: status_of(line.cause),
                form: Form::Text,
                body: line.text,
            }
        }
    }
}

/// The reply to a request in JSON. Answers 40 where there is no room for an object; nothing has changed then.
fn answer_in_json<S: Alter>(
    alloc: Global,
    request: &Spelled,
    treasury: &mut Treasury<S>,
) -> Result<Reply, Cause>
    requires { HasDayNumbers request.now.request }
    ensures form { IfOk result (λ reply. reply.form ≡ form_of_reply Form.Json (code_of reply.status)) }
    ensures replies { IfOk result (λ reply. RepliesAs S.Store treasury.old request.now
        (IsBodyIn Form.Json (cow_slice_items reply.body) request.now)
        (λ r. code_of reply.status ≡ status_of r) treasury.new) }
    ensures leaves { IfOk result (λ reply.
        LeavesReplied S.Store treasury.old request.now (code_of reply.status) treasury.new) }
    ensures err { OnErr result (treasury.new ≡ treasury.old) }
    ensures memory { IsOkUnless result Cause.OutOfMemory }
{
    let room = match Vec::with_capacity(alloc, MOST_JSON) {
        Ok(room) => room,
        Err(_) => return Err(Cause::OutOfMemory),
    };
    let mut text = Vec::new(alloc);
    let mut grounds = Grounds::before(treasury, &request.request);
    let added = &mut grounds.added;
    match answer_ahead(alloc, Form::Json, request, treasury, &mut text, added) {
        Ok(()) => Ok(Reply {
            status: Status::Done,
            form: Form::Json,
            body: CowSlice::Owned(done_in_json(alloc, request, treasury, &grounds, text, room)),
        }),
        Err(refusal) => {
            let state = treasury.state();
            let told = said_beside(alloc, state, request, JOURNAL, &grounds, Some(&refusal));
            let entries = entries_told(state, request);
            let line = refuse_by(alloc, treasury, refusal);
            let object = refuse_in_json(&line, told.as_slice(), entries, room);
            Ok(Reply {
                status: status_of(object.cause),
                form: Form::Json,
                body: object.text,
            })
        }
    }
}

/// The reply to a call. Answers 40 where there is no memory to read what is asked, or for the room of an object;
/// nothing has changed then.
pub fn answer_call<S: Alter>(
    alloc: Global,
    received: Received,
    treasury: &mut Treasury<S>,
) -> Result<Reply, Cause>
    ensures ok { IfOk result (λ reply. AnswersOn S.Store treasury.old received.form received.call
        (code_of reply.status) (cow_slice_items reply.body) treasury.new) }
    ensures form { IfOk result (λ reply. reply.form ≡ form_of_reply received.form (code_of reply.status)) }
    ensures err { OnErr result (treasury.new ≡ treasury.old) }
    ensures memory { IsOkUnless result Cause.OutOfMemory }
{
    let form = received.form;
    match sought_by(alloc, received.call) {
        Ok(Sought::Request(request)) => match form {
            Form::Text => Ok(answer_in_text(alloc, &request, treasury)),
            Form::Json => answer_in_json(alloc, &request, treasury),
        },
        Ok(Sought::Forbidden) => Ok(plain_reply(Status::Forbidden, b"forbidden\n")),
        Ok(Sought::Nowhere) => Ok(plain_reply(Status::NotFound, b"not found\n")),
        Ok(Sought::Misspelled(body)) => no_request(alloc, form, Some(body.items())),
        Ok(Sought::NoRequest) => no_request(alloc, form, None),
        Err(cause) => Err(cause),
    }
}
