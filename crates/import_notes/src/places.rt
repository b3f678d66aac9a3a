//! Where an import's new transactions stand in its text, and which held ones the text passes over.

ghost use Rattle.std.specs.Prelude.{◌≡◌, IfOk};
ghost use Rattle.std.specs.List.{flat_map};
ghost use Rattle.treasury_state.specs.Index.{IsIndexOf};
ghost use Rattle.import_notes.specs.Edited.{passes_at};
ghost use Rattle.import_notes.specs.FarDays.{span_of};
ghost use Rattle.treasury_reasons.specs.Reading.{lines_by};

use crate::days::Span;
use money_core::Cause;
use std::alloc::Global;
use treasury_core::Record;
use treasury_reasons::reading::Read;

/// The lines of the headers of new records, in order.
pub fn lines_of(alloc: Global, read: &Read, new: &[Record]) -> Result<Vec<usize>, Cause>
    requires { IsIndexOf read.now.first read.now.rows }
    ensures { IfOk result (λ lines. lines.items ≡ flat_map (lines_by read.now.file.items read.now.rows) new.now) }
{
    let mut lines = Vec::new(alloc);
    for record in new {
        if let Some(line) = read.line_by(record.mark.as_str()) {
            lines.push(line)?;
        }
    }
    Ok(lines)
}

/// Whether a text, of the records of which that is the span, passes over the held record at a place.
pub fn passes_at(read: &Read, span: Option<Span>, held: &[Record], place: usize) -> bool
    requires index { IsIndexOf read.now.first read.now.rows }
    requires span { span ≡ span_of read.now.rows }
    ensures { result ≡ passes_at read.now.rows held.now place }
{
    match (span, held.get(place)) {
        (Some(span), Some(record)) => {
            span.holds(record.entry.day) && read.place_of(record.mark.as_str()).is_none()
        }
        _ => false,
    }
}
