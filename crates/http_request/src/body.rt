//! The body of a request, read from a connection.

ghost use Rattle.std.specs.Prelude.{◌≡◌, ◌⊎◌, Err, OnOk, IfOk, IfErr};
ghost use Rattle.http_request.specs.Body.{HasGrownTo, EndsBefore, HasBody, LacksBody};

use money_core::Cause;
use std::alloc::Global;
use std::io::Read;

/// How many bytes are read at once.
const CHUNK: usize = 4096;

/// Reads until the text has this many bytes, and no more. 45 where a read fails or the input ends before that.
fn read_until<R: Read>(reader: &mut R, text: &mut Vec<u8>, whole: usize) -> Result<(), Cause>
    ensures ok { OnOk result (HasGrownTo whole (R.remaining reader.old) (R.remaining reader.new) text.old.items
        text.new.items) }
    ensures early { result ≡ Err Cause.ReadFault
        → EndsBefore whole (R.remaining reader.old) (R.remaining reader.new) text.old.items text.new.items }
    ensures causes { IfErr result (λ cause. (cause ≡ Cause.ReadFault) ⊎ (cause ≡ Cause.OutOfMemory)) }
{
    let mut chunk = [0u8; CHUNK];
    'reading: while text.len() < whole {
        let most = (whole - text.len()).min(CHUNK);
        let count = match reader.read(&mut chunk[..most]) {
            Ok(0) => return Err(Cause::ReadFault),
            Ok(count) => count,
            Err(_) => return Err(Cause::ReadFault),
        };
        if text.extend_from_slice(&chunk[..count]).is_err() {
            return Err(Cause::OutOfMemory);
        }
    }
    Ok(())
}

/// Reads a body of this size, which the bytes begin that were read with its head, and no byte more. 45 where a read
/// fails or the input ends before that.
pub fn read_body<R: Read>(
    alloc: Global,
    reader: &mut R,
    begun: &[u8],
    size: usize,
) -> Result<Vec<u8>, Cause>
    ensures ok { IfOk result (λ body.
        HasBody size (R.remaining reader.old) (R.remaining reader.new) begun.now body.items) }
    ensures early { result ≡ Err Cause.ReadFault
        → LacksBody size (R.remaining reader.old) (R.remaining reader.new) begun.now }
    ensures causes { IfErr result (λ cause. (cause ≡ Cause.ReadFault) ⊎ (cause ≡ Cause.OutOfMemory)) }
{
    let mut body = Vec::new(alloc);
    match body.extend_from_slice(&begun[..size.min(begun.len())]) {
        Ok(()) => {}
        Err(_) => return Err(Cause::OutOfMemory),
    }
    match read_until(reader, &mut body, size) {
        Ok(()) => Ok(body),
        Err(cause) => Err(cause),
    }
}
