//! Rows of cells, written as lines or in JSON.

ghost use Rattle.std.specs.Prelude.{◌≡◌, ◌++◌, codes, map, IfOk, OnOk, OnErr};
ghost use Rattle.std.specs.Result.{IsOkUnless};
ghost use Rattle.std.specs.List.{flat_map};
ghost use Rattle.json_text.specs.JsonText.{quoted};
ghost use Rattle.treasury_reports.specs.Rows.{set_in, stands_after, row_line, spaced_note};
ghost use Rattle.treasury_reports.specs.Written.{shown, row_in, json_row, written_in};

use crate::columns::{push_left_aligned, push_right_aligned};
use json_text::{push_array, push_string};
use money_core::Cause;
use std::alloc::{AllocError, Global};

/// How wide an amount stands in a line, in characters.
const AMOUNT_WIDTH: usize = 20;

/// How wide the number of an entry, or of entries, stands there.
const NUMBER_WIDTH: usize = 6;

/// How wide a lock day stands there.
const LOCK_WIDTH: usize = 10;

/// As lines of a text, or as arrays of strings in JSON.
#[derive(Clone, Copy)]
pub enum Layout {
    Text,
    Json,
}

/// How a cell stands in a line.
#[derive(Clone, Copy)]
pub enum Column {
    /// An amount, right-aligned.
    Amount,
    /// The number of an entry, or of entries, right-aligned.
    Number,
    /// The day of a lock, left-aligned.
    Lock,
    /// A text as it is.
    Plain,
    /// Where something comes from: ` to ` stands after it.
    From,
    /// A text with nothing after it but a note.
    End,
    /// A note: two blanks stand before it, where it is not empty.
    Note,
}

/// Appends a note after two blanks, where it is not empty.
fn push_note(text: &[u8], out: &mut Vec<u8>) -> Result<(), AllocError>
    ensures { OnOk result (out.new.items ≡ out.old.items ++ spaced_note text.now) }
{
    if text.is_empty() {
        return Ok(());
    }
    out.extend_from_slice(b"  ")?;
    out.extend_from_slice(text)
}

/// Appends a text as it stands in its column.
fn push_set(column: Column, text: &[u8], out: &mut Vec<u8>) -> Result<(), AllocError>
    ensures { OnOk result (out.new.items ≡ out.old.items ++ set_in column text.now) }
{
    match column {
        Column::Amount => push_right_aligned(out, AMOUNT_WIDTH, text),
        Column::Number => push_right_aligned(out, NUMBER_WIDTH, text),
        Column::Lock => push_left_aligned(out, LOCK_WIDTH, text),
        Column::Plain => out.extend_from_slice(text),
        Column::From => out.extend_from_slice(text),
        Column::End => out.extend_from_slice(text),
        Column::Note => push_note(text, out),
    }
}

/// What stands after a cell of a line.
fn stands_after(column: Column) -> &'static [u8]
    ensures { result.now ≡ stands_after column }
{
    match column {
        Column::Amount => b"  ",
        Column::Number => b"  ",
        Column::Lock => b"  ",
        Column::Plain => b"  ",
        Column::From => b" to ",
        Column::End => b"",
        Column::Note => b"",
    }
}

/// Appends a cell of a line, and what stands after it.
fn push_cell(column: Column, text: &[u8], out: &mut Vec<u8>) -> Result<(), AllocError>
    ensures { OnOk result (out.new.items ≡ out.old.items ++ (set_in column text.now ++ stands_after column)) }
{
    push_set(column, text, out)?;
    out.extend_from_slice(stands_after(column))
}

/// Appends the line of a row.
fn push_line(cells: &[(Column, &[u8])], out: &mut Vec<u8>) -> Result<(), AllocError>
    ensures { OnOk result (out.new.items ≡ out.old.items ++ row_line (map shown cells.now)) }
{
    'cells: for cell in cells {
        push_cell(cell.0, cell.1, out)?;
    }
    out.push(b'\n')?;
    Ok(())
}

/// The strings of a row in JSON, each after a comma.
fn strings_of(alloc: Global, cells: &[(Column, &[u8])]) -> Result<Vec<u8>, AllocError>
    ensures { IfOk result (λ strings. strings.items ≡ flat_map (λ cell. codes "," ++ quoted cell.1.now) cells.now) }
{
    let mut strings = Vec::new(alloc);
    'cells: for cell in cells {
        strings.push(b',')?;
        push_string(cell.1, &mut strings)?;
    }
    Ok(strings)
}

/// Appends the array of a row's strings, after a comma.
fn push_strings(
    alloc: Global,
    cells: &[(Column, &[u8])],
    out: &mut Vec<u8>,
) -> Result<(), AllocError>
    ensures { OnOk result (out.new.items ≡ out.old.items ++ json_row (map shown cells.now)) }
{
    let strings = strings_of(alloc, cells)?;
    out.push(b',')?;
    push_array(&strings, out)
}

/// Appends a row: its line, or its array after a comma.
pub(crate) fn push_row(
    alloc: Global,
    layout: Layout,
    cells: &[(Column, &[u8])],
    out: &mut Vec<u8>,
) -> Result<(), Cause>
    ensures ok { OnOk result (out.new.items ≡ out.old.items ++ row_in layout (map shown cells.now)) }
    ensures memory { IsOkUnless result Cause.OutOfMemory }
{
    match layout {
        Layout::Text => push_line(cells, out)?,
        Layout::Json => push_strings(alloc, cells, out)?,
    }
    Ok(())
}

/// Appends a report whose rows are written already: its lines, or the array of its rows. Lines become the vector itself
/// where nothing is in it, so that a long journal is not copied.
pub(crate) fn push_written(layout: Layout, rows: Vec<u8>, out: &mut Vec<u8>) -> Result<(), Cause>
    ensures ok { OnOk result (out.new.items ≡ out.old.items ++ written_in layout rows.items) }
    ensures err { OnErr result (out.new.items ≡ out.old.items) }
    ensures memory { IsOkUnless result Cause.OutOfMemory }
{
    let pushed = match layout {
        Layout::Text => {
            if out.is_empty() {
                *out = rows;
                return Ok(());
            }
            out.extend_from_slice(&rows)
        }
        Layout::Json => push_array(&rows, out),
    };
    match pushed {
        Ok(()) => Ok(()),
        Err(error) => Err(Cause::from(error)),
    }
}
