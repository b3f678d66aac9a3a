//! A reply, and how it is written.

ghost use Rattle.std.specs.Prelude.{◌≡◌, ◌≤◌, ◌<◌, ◌+◌, ◌++◌, ℕ, [], length, take, vec_capacity, OnOk, OnErr};
ghost use Rattle.std.specs.Prelude.{IfErr, IsOk};
ghost use Rattle.std.specs.Cow.{cow_slice_items};
ghost use Rattle.std.specs.Io.KnownBytes.{Appends};
ghost use Rattle.treasury_api.specs.WebReply.{type_of, reply_head, whole_reply};
ghost use Rattle.treasury_api.specs.WebServing.{code_of};

use crate::answers::push_pieces;
use crate::lines::write_whole;
use crate::web::status::Status;
use http_request::Form;
use itoa::Buffer;
use money_core::Cause;
use std::alloc::AllocError;
use std::borrow::CowSlice;
use std::io::Write;

/// The head of a reply has at most that many bytes.
pub const MAX_REPLY_HEAD: usize = 192;

/// A reply: its status, and its body, with the form that it has.
#[derive(Debug, Drop)]
pub struct Reply {
    pub status: Status,
    pub form: Form,
    pub body: CowSlice<'static, u8>,
}

/// The type of a body.
fn type_of(form: Form) -> &'static str
    ensures { result.now ≡ type_of form }
{
    match form {
        Form::Text => "text/plain; charset=utf-8",
        Form::Json => "application/json",
    }
}

/// Appends the head of a reply whose body has that many bytes. It takes no memory where there is room for
/// `MAX_REPLY_HEAD`.
fn push_head(status: Status, form: Form, size: usize, head: &mut Vec<u8>) -> Result<(), AllocError>
    ensures ok { OnOk result (head.new.items ≡ head.old.items ++ reply_head form (code_of status) size) }
    ensures err { OnErr result (head.new.items ≡ head.old.items) }
    ensures room { length head.old.items + MAX_REPLY_HEAD ≤ vec_capacity head.old → IsOk result }
{
    let mut buffer = Buffer::new();
    let code = status.code();
    let digits = code.as_str().as_bytes();
    let reason = status.reason().as_bytes();
    let kind = type_of(form).as_bytes();
    let bytes = buffer.format(size).as_bytes();
    push_pieces(
        &[
            b"HTTP/1.1 ",
            digits,
            b" ",
            reason,
            b"\r\nContent-Type: ",
            kind,
            b"\r\nContent-Length: ",
            bytes,
            b"\r\nConnection: close\r\n\r\n",
        ],
        head,
    )
}

/// Writes a reply, with its head on an empty vector that has room for it. Where a write fails or takes nothing, it
/// answers 46: a first part was written, and not all of it.
pub fn write_reply<W: Write>(reply: &Reply, room: Vec<u8>, writer: &mut W) -> Result<(), Cause>
    requires empty { room.items ≡ [] }
    requires room { MAX_REPLY_HEAD ≤ vec_capacity room }
    ensures ok { OnOk result (Appends (W.contents writer.old) (W.contents writer.new)
        (whole_reply reply.now.form (code_of reply.now.status) (cow_slice_items reply.now.body))) }
    ensures err { IfErr result (λ cause. (cause ≡ Cause.WriteFault) × ((taken : ℕ)
        × (taken < length (whole_reply reply.now.form (code_of reply.now.status) (cow_slice_items reply.now.body)))
        × Appends (W.contents writer.old) (W.contents writer.new)
        (take taken (whole_reply reply.now.form (code_of reply.now.status) (cow_slice_items reply.now.body))))) }
{
    let mut head = room;
    match push_head(reply.status, reply.form, reply.body.len(), &mut head) {
        Ok(()) => {}
        Err(_) => unreachable!(),
    }
    match write_whole(writer, head.as_slice()) {
        Ok(()) => {}
        Err(_) => return Err(Cause::WriteFault),
    }
    match write_whole(writer, reply.body.as_slice()) {
        Ok(()) => Ok(()),
        Err(_) => Err(Cause::WriteFault),
    }
}
