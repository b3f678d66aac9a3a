//! Numbers and signs of rows.

ghost use Rattle.std.specs.Prelude.{◌≡◌, ◌↔◌, ◌<◌, ◌≤◌, ◌^◌, ◌⊎◌, ℕ, ℤ, Bool, [], ◌∷◌, pos, List, length, take, drop};
ghost use Rattle.std.specs.Prelude.{FitsSigned, IfOk, IsTrue};
ghost use Rattle.std.specs.Int.{w32};
ghost use Rattle.money_core.specs.declared.mark.Mark.{Mark as DecimalMark};
ghost use Rattle.money_core.specs.declared.day.Day.{Day as DayNumber};
ghost use Rattle.money_core.specs.declared.unit.Unit.{Unit as Commodity};
ghost use Rattle.money_core.specs.Mark.{decimal_byte};
ghost use Rattle.treasury_state.specs.Rows.{truth};
ghost use Rattle.treasury_rows.specs.Drafted.{IsReading};

use money_core::{Cause, Day, Mark, Unit};

/// Want of memory, or else damage.
pub(super) fn damage(cause: Cause) -> Cause
    ensures { ((cause ≡ Cause.OutOfMemory) × (result ≡ Cause.OutOfMemory))
        ⊎ ((cause ≡ Cause.OutOfMemory → ⊥) × (result ≡ Cause.Damaged)) }
{
    match cause {
        Cause::OutOfMemory => cause,
        _ => Cause::Damaged,
    }
}

/// Whether a column has that number.
pub(crate) fn is_number(value: i64, number: usize) -> bool
    ensures { IsTrue result ↔ (value ≡ pos number) }
{
    value >= 0 && value as usize == number
}

/// Whether a column has that day.
pub(crate) fn is_day(value: i64, day: Day) -> bool
    ensures { IsTrue result ↔ (day.0 ≡ value) }
{
    value == i64::from(day.0)
}

/// Whether two texts are equal.
pub(crate) fn are_equal(bytes: &[u8], others: &[u8]) -> bool
    ensures { IsTrue result ↔ (bytes.now ≡ others.now) }
{
    bytes == others
}

/// The rows up to that one.
pub(crate) fn rows_before<T>(rows: &[T], count: usize) -> &[T]
    requires { count ≤ length rows.now }
    ensures { result.now ≡ take count rows.now }
{
    &rows[..count]
}

/// The rows from that one on.
pub(crate) fn rows_from<T>(rows: &[T], count: usize) -> &[T]
    requires { count ≤ length rows.now }
    ensures { result.now ≡ drop count rows.now }
{
    &rows[count..]
}

/// A number that counts rows from 0.
pub(super) fn read_place(value: i64) -> Result<usize, Cause>
    ensures { IsReading (λ (n : ℕ). pos n ≡ value) result }
{
    if value < 0 {
        return Err(Cause::Damaged);
    }
    Ok(value as usize)
}

/// A small number, as of decimals.
pub(super) fn read_small(value: i64) -> Result<u8, Cause>
    ensures { IsReading (λ (n : ℕ). (n < 2 ^ 8) × (pos n ≡ value)) result }
{
    if value < 0 || value > 255 {
        return Err(Cause::Damaged);
    }
    Ok(value as u8)
}

/// A truth value.
pub(super) fn read_truth(value: i64) -> Result<bool, Cause>
    ensures reads { IsReading (λ (b : Bool). truth b ≡ value) result }
    ensures truth { IfOk result (λ b. truth b ≡ value) }
{
    match value {
        0 => Ok(false),
        1 => Ok(true),
        _ => Err(Cause::Damaged),
    }
}

/// A decimal mark.
pub(super) fn read_mark(text: &str) -> Result<Mark, Cause>
    ensures { IsReading (λ (m : DecimalMark). decimal_byte m ∷ [] ≡ text.now) result }
{
    match text {
        "." => Ok(Mark::Point),
        "," => Ok(Mark::Comma),
        _ => Err(Cause::Damaged),
    }
}

/// A day.
pub(super) fn read_day(value: i64) -> Result<Day, Cause>
    ensures reads { IsReading (λ (d : DayNumber). FitsSigned w32 d.0 × (d.0 ≡ value)) result }
    ensures day { IfOk result (λ d. d.0 ≡ value) }
{
    if value < -2_147_483_648 || value > 2_147_483_647 {
        return Err(Cause::Damaged);
    }
    Ok(Day(value as i32))
}

/// A commodity, which may not be declared.
pub(super) fn read_unit(value: i64) -> Result<Unit, Cause>
    ensures { IsReading (λ (u : Commodity). (u.0 < 2 ^ 16) × (pos u.0 ≡ value)) result }
{
    if value < 0 || value > 65_535 {
        return Err(Cause::Damaged);
    }
    Ok(Unit(value as u16))
}
