//! One request, read from a connection.

ghost use Rattle.std.specs.Prelude.{◌≡◌, ◌⊎◌, Err, take, map, IfOk, IfErr};
ghost use Rattle.std.specs.Result.{IsOkUnless};
ghost use Rattle.std.specs.Str.{IsUtf8};
ghost use Rattle.httparse.specs.Spans.{IsRequestWithin, header_bytes};
ghost use Rattle.http_request.specs.Foreign.{is_foreign};
ghost use Rattle.http_request.specs.Accept.{form_of};
ghost use Rattle.http_request.specs.Path.{path_of};
ghost use Rattle.http_request.specs.Query.{query_of, with_query};
ghost use Rattle.http_request.specs.Routes.{route_of};
ghost use Rattle.http_request.specs.Call.{ReadsCall, IsStopped};
ghost use Rattle.http_request.specs.Calling.{report_by, CallsBy, LacksBytes};

use crate::accept::form_of;
use crate::body::read_body;
use crate::call::{Call, Form, Received};
use crate::foreign::is_foreign;
use crate::head::{MAX_HEADERS, read_head};
use crate::length::body_length;
use crate::path::path_of;
use crate::query::{query_of, with_query};
use crate::routes::{Route, find_route};
use httparse::spans::{EMPTY_HEADER_SPAN, HeaderSpan, RequestSpans};
use money_core::{Cause, Items, Text};
use std::alloc::Global;
use std::io::Read;
use treasury_requests::{Given, Word};

/// Where a method and a target lead.
fn route_to(alloc: Global, method: &[u8], target: &[u8]) -> Result<Option<Route>, Cause>
    requires { IsUtf8 target.now }
    ensures value { IfOk result (λ route. route ≡ route_of method.now (path_of target.now)) }
    ensures memory { IsOkUnless result Cause.OutOfMemory }
{
    let Ok(target) = str::from_utf8(target) else {
        unreachable!()
    };
    find_route(alloc, method, path_of(target))
}

/// What is called for of a report, of which the path gives this, with the query of the target.
fn report_by(alloc: Global, word: Word, given: Items<Given>, target: &[u8]) -> Result<Call, Cause>
    requires { IsUtf8 target.now }
    ensures value { IfOk result (λ call. call ≡ report_by word (with_query word given (query_of target.now))) }
    ensures memory { IsOkUnless result Cause.OutOfMemory }
{
    let Ok(target) = str::from_utf8(target) else {
        unreachable!()
    };
    match with_query(alloc, word, given, query_of(target)) {
        Ok(Some(given)) => Ok(Call::Report { word, given }),
        Ok(None) => Ok(Call::Unreadable),
        Err(cause) => Err(cause),
    }
}

/// What a command calls for, whose body has this size if it says one, and begins with these bytes; reads the rest of
/// it.
fn read_command<R: Read>(
    alloc: Global,
    reader: &mut R,
    branch: Option<Text>,
    begun: &[u8],
    size: Option<usize>,
) -> Result<Call, Cause>
    ensures calls { IfOk result (CallsBy branch size (R.remaining reader.old) (R.remaining reader.new) begun.now) }
    ensures early { result ≡ Err Cause.ReadFault
        → LacksBytes size (R.remaining reader.old) (R.remaining reader.new) begun.now }
    ensures causes { IfErr result (λ cause. (cause ≡ Cause.ReadFault) ⊎ (cause ≡ Cause.OutOfMemory)) }
{
    match size {
        Some(size) => match read_body(alloc, reader, begun, size) {
            Ok(body) => Ok(Call::Command {
                branch,
                body: Items::from_vec(body),
            }),
            Err(cause) => Err(cause),
        },
        None => Ok(Call::Unreadable),
    }
}

/// Whether the head with these spans is foreign.
fn is_foreign_head(text: &[u8], headers: &[HeaderSpan], spans: &RequestSpans) -> bool
    requires { IsRequestWithin text.now headers.now spans.now }
    ensures { result ≡ is_foreign (map (header_bytes text.now) (take spans.now.headers headers.now)) }
{
    is_foreign(text, &headers[..spans.headers])
}

/// In which form the head with these spans asks for a reply.
fn form_of_head(text: &[u8], headers: &[HeaderSpan], spans: &RequestSpans) -> Form
    requires { IsRequestWithin text.now headers.now spans.now }
    ensures { result ≡ form_of (map (header_bytes text.now) (take spans.now.headers headers.now)) }
{
    form_of(text, &headers[..spans.headers])
}

/// Reads one request, and says what it calls for, and in which form it asks for its reply.
///
/// Its head has at most 16 KiB and 32 headers, its body at most 8 MiB; of a `GET` no body is read. 45 comes where a
/// read fails, whatever its error, or the input ends, before the request is there; where no bytes could have made it
/// one, it is `Unreadable`. 40 comes where there is no memory for its text.
pub fn read_call<R: Read>(alloc: Global, reader: &mut R) -> Result<Received, Cause>
    ensures ok { IfOk result (ReadsCall (R.remaining reader.old) (R.remaining reader.new)) }
    ensures early { result ≡ Err Cause.ReadFault → IsStopped (R.remaining reader.old) (R.remaining reader.new) }
    ensures causes { IfErr result (λ cause. (cause ≡ Cause.ReadFault) ⊎ (cause ≡ Cause.OutOfMemory)) }
{
    let mut text = Vec::new(alloc);
    let mut headers = [EMPTY_HEADER_SPAN; MAX_HEADERS];
    let spans = match read_head(reader, &mut text, &mut headers) {
        Ok(Some(spans)) => spans,
        Ok(None) => {
            return Ok(Received {
                call: Call::Unreadable,
                form: Form::Text,
            });
        }
        Err(cause) => return Err(cause),
    };
    let form = form_of_head(&text, &headers, &spans);
    if is_foreign_head(&text, &headers, &spans) {
        return Ok(Received {
            call: Call::Foreign,
            form,
        });
    }
    let method = spans.method.of(&text);
    let target = spans.path.of(&text);
    match route_to(alloc, method, target) {
        Ok(None) => Ok(Received {
            call: Call::Nowhere,
            form,
        }),
        Ok(Some(Route::Report { word, given })) => match report_by(alloc, word, given, target) {
            Ok(report) => Ok(Received { call: report, form }),
            Err(cause) => Err(cause),
        },
        Ok(Some(Route::Commands { branch })) => {
            let size = body_length(&text, &headers[..spans.headers]);
            match read_command(alloc, reader, branch, &text[spans.len..], size) {
                Ok(call) => Ok(Received { call, form }),
                Err(cause) => Err(cause),
            }
        }
        Err(cause) => Err(cause),
    }
}
