//! A connection, served.
//!
//! There is one call to a connection, so there is no loop to prove apart from what answers it. Memory for the head of
//! a reply is reserved before anything is read, and nothing has to grow after a commit: what was done is always
//! reported. If memory runs out before a call is understood, the connection ends without a reply.

ghost use Rattle.treasury_api.specs.Web.{ServesOne};

use crate::web::answering::answer_call;
use crate::web::reply::{MAX_REPLY_HEAD, write_reply};
use http_request::read_call;
use money_core::Cause;
use sqlite::Alter;
use std::alloc::Global;
use std::io::{Read, Write};
use treasury_store::Treasury;

/// Reads one request, answers it, and writes its reply, as text or, where the request asks for that, in JSON.
///
/// On `Ok` the whole reply is written, and the treasury is of the state after the request. 45 comes where a read fails,
/// whatever its error, or the input ends before the request does, and 40 where there is no memory to read it or for the
/// room of a reply, which is made before anything is done: nothing is written then, and nothing has changed. 46 comes
/// where a write fails or takes nothing: the reply may be cut off, and what was asked stands. At most 16 KiB of a head
/// and 8 MiB of a body are read.
pub fn serve_one<R: Read, W: Write, S: Alter>(
    alloc: Global,
    reader: &mut R,
    writer: &mut W,
    treasury: &mut Treasury<S>,
) -> Result<(), Cause>
    ensures { ServesOne result S.Store R.remaining reader.old reader.new W.contents writer.old writer.new treasury.old
        treasury.new }
{
    let head = match Vec::with_capacity(alloc, MAX_REPLY_HEAD) {
        Ok(head) => head,
        Err(_) => return Err(Cause::OutOfMemory),
    };
    let received = match read_call(alloc, reader) {
        Ok(received) => received,
        Err(cause) => return Err(cause),
    };
    let reply = match answer_call(alloc, received, treasury) {
        Ok(reply) => reply,
        Err(cause) => return Err(cause),
    };
    match write_reply(&reply, head, writer) {
        Ok(()) => Ok(()),
        Err(cause) => Err(cause),
    }
}
