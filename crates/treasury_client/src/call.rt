//! A call, as it is sent.
//!
//! Whoever makes the bytes of a call also sends them, so a call is made once the connection is there. 40 is answered
//! only if nothing was sent: after a part was sent nobody knows what was done, and the answer is 45, which is safe to
//! repeat.

ghost use Rattle.std.specs.Prelude.{◌≡◌, IfOk, string_bytes};
ghost use Rattle.treasury_client.specs.Sending.{accept, call_text};

use itoa::Buffer;
use std::alloc::{AllocError, Global};

/// In which form a reply is wanted.
#[derive(Clone, Copy, Debug, PartialEq, Eq)]
pub enum Form {
    /// The answer line, or a report's lines, alone.
    Text,
    /// The answer, and what is said beside it.
    Json,
}

impl Form {
    /// The header that asks for it.
    fn header(self) -> &'static str
        ensures { result.now ≡ accept self }
    {
        match self {
            Form::Text => "",
            Form::Json => "Accept: application/json\r\n",
        }
    }
}

/// The bytes of the call with that body to the service at that port.
pub fn call_of(alloc: Global, port: u16, form: Form, body: &str) -> Result<String, AllocError>
    ensures { IfOk result (λ call. string_bytes call ≡ call_text port form body.now) }
{
    let mut port_digits = Buffer::new();
    let mut length_digits = Buffer::new();
    let port = port_digits.format(port);
    let accept = form.header();
    let length = length_digits.format(body.len());
    let mut call = String::from_str(alloc, "POST /commands HTTP/1.1\r\nHost: 127.0.0.1:")?;
    call.push_str(port)?;
    call.push_str("\r\n")?;
    call.push_str(accept)?;
    call.push_str("Content-Length: ")?;
    call.push_str(length)?;
    call.push_str("\r\n\r\n")?;
    call.push_str(body)?;
    Ok(call)
}
