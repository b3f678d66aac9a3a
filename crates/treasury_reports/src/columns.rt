//! Texts of cells, and how they are aligned.

ghost use Rattle.std.specs.Prelude.{◌≡◌, ◌++◌, decimal, replicate, OnOk, IfOk, string_bytes};
ghost use Rattle.std.specs.Result.{IsOkUnless};
ghost use Rattle.money_core.specs.AmountText.{IsDeclared, printed_in};
ghost use Rattle.journal_lines.specs.Date.{IsDayNumber, printed_date};
ghost use Rattle.treasury_reports.specs.Columns.{is_continuation, char_count, right_aligned, left_aligned};

use journal_lines::print_date;
use money_core::{Cause, Day, Styles, Unit, print_amount};
use std::alloc::{AllocError, Global};

/// Whether the byte goes on with a character, in UTF-8.
fn is_continuation(byte: u8) -> bool
    ensures { result ≡ is_continuation byte }
{
    128 <= byte && byte < 192
}

/// How many characters the text has.
fn char_count(text: &[u8]) -> usize
    ensures { result ≡ char_count text.now }
{
    text.iter().filter(|byte| !is_continuation(**byte)).count()
}

/// Appends so many blanks.
fn push_blanks(out: &mut Vec<u8>, count: usize) -> Result<(), AllocError>
    ensures { OnOk result (out.new.items ≡ out.old.items ++ replicate count 32) }
{
    'blanks: for _ in 0..count {
        out.push(b' ')?;
    }
    Ok(())
}

/// Appends the text, right-aligned in `width` characters.
pub(crate) fn push_right_aligned(
    out: &mut Vec<u8>,
    width: usize,
    text: &[u8],
) -> Result<(), AllocError>
    ensures { OnOk result (out.new.items ≡ out.old.items ++ right_aligned width text.now) }
{
    push_blanks(out, width.saturating_sub(char_count(text)))?;
    out.extend_from_slice(text)
}

/// Appends the text, left-aligned in `width` characters.
pub(crate) fn push_left_aligned(
    out: &mut Vec<u8>,
    width: usize,
    text: &[u8],
) -> Result<(), AllocError>
    ensures { OnOk result (out.new.items ≡ out.old.items ++ left_aligned width text.now) }
{
    out.extend_from_slice(text)?;
    push_blanks(out, width.saturating_sub(char_count(text)))
}

/// A quantity of a commodity, in smallest units, as an amount alone.
pub(crate) fn amount_cell(
    alloc: Global,
    styles: &Styles,
    unit: Unit,
    qty: i64,
) -> Result<Vec<u8>, Cause>
    requires { IsDeclared styles.now unit qty }
    ensures ok { IfOk result (λ cell. cell.items ≡ printed_in styles.now unit qty) }
    ensures memory { IsOkUnless result Cause.OutOfMemory }
{
    let mut cell = Vec::new(alloc);
    match print_amount(alloc, unit, qty, styles, &mut cell) {
        Ok(()) => Ok(cell),
        Err(cause) => Err(cause),
    }
}

/// A day, as its date alone.
pub(crate) fn date_cell(alloc: Global, day: Day) -> Result<Vec<u8>, Cause>
    requires { IsDayNumber day }
    ensures ok { IfOk result (λ cell. cell.items ≡ printed_date day) }
    ensures memory { IsOkUnless result Cause.OutOfMemory }
{
    let mut cell = Vec::new(alloc);
    match print_date(alloc, day, &mut cell) {
        Ok(()) => Ok(cell),
        Err(cause) => Err(cause),
    }
}

/// The number of an entry, or of entries, alone.
pub(crate) fn number_cell(alloc: Global, number: usize) -> Result<String, Cause>
    ensures ok { IfOk result (λ cell. string_bytes cell ≡ decimal number) }
    ensures memory { IsOkUnless result Cause.OutOfMemory }
{
    let cell = format!(in alloc; "{number}")?;
    Ok(cell)
}
