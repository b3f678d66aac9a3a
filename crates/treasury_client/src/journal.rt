//! A journal, as a JSON text can have it.
//!
//! JSON has UTF-8 alone. Instead of refusing such a journal here, which would name the wrong line if an earlier one is
//! faulty, a control character is sent for each byte over 127: the service refuses that by 1, for the same line.

ghost use Rattle.std.specs.Prelude.{◌≡◌, true, IfOk};
ghost use Rattle.std.specs.Str.{is_utf8};

use std::alloc::{AllocError, Global};

/// Stands for a byte of a line that is not UTF-8: a control character, so that the line is refused for the same.
const REPLACED: u8 = 1;

/// The byte, or what stands for it where it is no ASCII.
fn in_ascii(byte: u8) -> u8 {
    if byte < 128 { byte } else { REPLACED }
}

/// Appends a line as a text can have it: as it stands where it is UTF-8.
fn push_line(line: &[u8], out: &mut Vec<u8>) -> Result<(), AllocError> {
    if str::from_utf8(line).is_ok() {
        out.extend_from_slice(line)?;
        return Ok(());
    }
    for byte in line {
        out.push(in_ascii(*byte))?;
    }
    Ok(())
}

/// A journal that is not UTF-8, with a control character for each byte over 127 of a line that is not.
fn replaced(alloc: Global, journal: &[u8]) -> Result<Vec<u8>, AllocError> {
    let mut text = Vec::new(alloc);
    for line in journal.split_inclusive(|byte| *byte == b'\n') {
        push_line(line, &mut text)?;
    }
    Ok(text)
}

/// The journal as a text can have it: as it stands where it is UTF-8. In a line that is not, a control character stands
/// for each byte over 127: the treasury refuses both by 1, unless it refuses something before that, and then by the
/// same, as it counts bytes.
pub fn as_text(alloc: Global, journal: &[u8]) -> Result<Vec<u8>, AllocError>
    ensures { is_utf8 journal.now ≡ true → IfOk result (λ text. text.items ≡ journal.now) }
{
    match str::from_utf8(journal) {
        Ok(_) => Vec::from_slice(alloc, journal),
        Err(_) => replaced(alloc, journal),
    }
}
