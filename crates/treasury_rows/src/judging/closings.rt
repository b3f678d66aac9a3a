//! Records with the marks of closings.

ghost use Rattle.std.specs.Prelude.{◌≡◌, ◌↔◌, IsTrue, IfOk, IfSome};
ghost use Rattle.std.specs.List.{AllByRecursion};
ghost use Rattle.std.specs.Result.{IsOkUnless};
ghost use Rattle.journal_lines.specs.Date.{IsDayNumber};
ghost use Rattle.treasury_state.specs.declared.record.Record.{Record as Row};
ghost use Rattle.treasury_state.specs.Mark.{is_closing};
ghost use Rattle.treasury_state.specs.Good.{IsLockedClosing, IsShort, IsWithinLock};

use money_core::{Cause, Day};
use std::alloc::Global;
use treasury_state::{Record, close_mark, is_locked};

/// Whether the record has the mark of a closing.
fn is_closing(row: &Record) -> bool
    ensures { result ≡ is_closing row.now }
{
    row.mark.as_str().starts_with("close:")
}

/// Whether the record is a closing at its own day, which is locked.
fn is_locked_closing(alloc: Global, lock: Option<Day>, row: &Record) -> Result<bool, Cause>
    requires { IsDayNumber row.now.entry.day }
    ensures value { IfOk result (λ is. IsTrue is ↔ IsLockedClosing lock row.now) }
    ensures memory { IsOkUnless result Cause.OutOfMemory }
{
    let mark = close_mark(alloc, row.entry.day)?;
    Ok(row.mark.as_str() == mark.as_str() && is_locked(lock, row.entry.day))
}

/// Whether each record with the mark of a closing is one at its own day, which is locked.
pub(super) fn are_closings(alloc: Global, lock: Option<Day>, rows: &[Record]) -> Result<bool, Cause>
    requires { AllByRecursion (λ (r : Row). IsDayNumber r.entry.day) rows.now }
    ensures value { IfOk result (λ is. IsTrue is ↔ AllByRecursion (IsWithinLock lock) rows.now) }
    // A day in memory has 32 bits.
    ensures short { IfSome lock IsShort }
    ensures memory { IsOkUnless result Cause.OutOfMemory }
{
    for row in rows {
        if is_closing(row) && !is_locked_closing(alloc, lock, row)? {
            return Ok(false);
        }
    }
    Ok(true)
}
