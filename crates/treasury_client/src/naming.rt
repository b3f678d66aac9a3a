//! The journal's name in what is said.

use money_core::Cause;

/// What stands before a journal's name, at the beginning of a line that has it.
const FRONTS: [&[u8]; 4] = [b"treasury: ", b"note: ", b"new: ", b"  new: "];

/// What a service calls the journal of a request.
const CALLED: &[u8] = b"journal:";

/// What stands before the journal's name, and what follows it, where the line begins with a place in the journal.
fn place_in(line: &[u8]) -> Option<(&[u8], &[u8])> {
    for front in FRONTS {
        if let Some(rest) = line.strip_prefix(front) {
            if let Some(rest) = rest.strip_prefix(CALLED) {
                return Some((front, rest));
            }
        }
    }
    None
}

/// Appends a line, with the journal's name where the service calls it `journal`, if the line begins with its place.
pub fn push_named(line: &[u8], journal: Option<&[u8]>, out: &mut Vec<u8>) -> Result<(), Cause> {
    if let Some(journal) = journal {
        if let Some((front, rest)) = place_in(line) {
            out.extend_from_slice(front)?;
            out.extend_from_slice(journal)?;
            out.extend_from_slice(b":")?;
            out.extend_from_slice(rest)?;
            return Ok(());
        }
    }
    out.extend_from_slice(line)?;
    Ok(())
}
