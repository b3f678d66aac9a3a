//! Bytes after others.

ghost use Rattle.json_text.specs.Growing.{AppendsText};

use std::alloc::AllocError;

/// Appends the bytes as they are.
pub(crate) fn grow_bytes(bytes: &[u8], out: &mut Vec<u8>) -> Result<(), AllocError>
    ensures { AppendsText bytes.now out.old out.new result }
{
    out.extend_from_slice(bytes)
}
