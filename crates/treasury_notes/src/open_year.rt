//! Revenues and expenses that a lock through the end of a year leaves.

ghost use Rattle.std.specs.Prelude.{◌≡◌, ◌++◌, true, IfOk, OnOk};
ghost use Rattle.journal_lines.specs.Date.{is_in_calendar};
ghost use Rattle.journal_balance.specs.Legs.{declared_commodities};
ghost use Rattle.treasury_notes.specs.OpenYear.{is_end_of_year, day_after, has_balance, is_left_open, is_year_open};
ghost use Rattle.treasury_notes.specs.OpenYear.{open_year_said};

use book_core::Ledger;
use journal_lines::{is_day_number, print_date};
use money_core::{Cause, Day, Styles, Text, Unit};
use std::alloc::Global;
use treasury_core::is_revenue_or_expense;
use treasury_messages::Piece::Words;
use treasury_messages::{Done, MessageKind, Messages, Piece, say};

/// Whether the day is a 31 December.
fn is_end_of_year(alloc: Global, day: Day) -> Result<bool, Cause>
    ensures { IfOk result (λ is. is ≡ is_end_of_year day) }
{
    if is_day_number(day) {
        let mut text = Vec::new(alloc);
        print_date(alloc, day, &mut text)?;
        Ok(text.as_slice().ends_with(b"-12-31"))
    } else {
        Ok(false)
    }
}

/// The next day.
fn day_after(day: Day) -> Day
    requires { is_in_calendar day ≡ true }
    ensures { result ≡ day_after day }
{
    Day(day.0 + 1)
}

/// Whether the calendar has it.
fn has_day_after(day: Day) -> bool
    requires { is_in_calendar day ≡ true }
    ensures { result ≡ is_in_calendar (day_after day) }
{
    is_day_number(day_after(day))
}

/// Whether the account has a balance through the day that is not zero, in one of the commodities.
fn has_balance<L: Ledger>(ledger: &L, styles: &Styles, account: &str, day: Day) -> bool
    ensures { result ≡ has_balance (L.book ledger.now) day (declared_commodities styles.now) account.now }
{
    'units: for number in 0..styles.len() {
        if ledger.balance(account, Unit(number as u16), day) != 0 {
            return true;
        }
    }
    false
}

/// Whether the account is one of revenues or expenses, and has such a balance.
fn is_left_open<L: Ledger>(ledger: &L, styles: &Styles, account: &Text, day: Day) -> bool
    ensures { result ≡ is_left_open (L.book ledger.now) day (declared_commodities styles.now) account.now }
{
    is_revenue_or_expense(account.as_str()) && has_balance(ledger, styles, account.as_str(), day)
}

/// Whether revenues or expenses are left to be closed at the day.
fn is_open<L: Ledger>(ledger: &L, styles: &Styles, day: Day) -> bool
    ensures { result ≡ is_year_open styles.now (L.book ledger.now) day }
{
    'accounts: for account in ledger.accounts() {
        if is_left_open(ledger, styles, account, day) {
            return true;
        }
    }
    false
}

/// Says that a lock through a 31 December of a branch with that ledger leaves revenues or expenses, and how they are
/// closed now.
#[tactic(auto, using(crate::proofs::OpenYearLemmas::end_of_year_is_dated))]
pub(crate) fn say_open_year<L: Ledger>(
    alloc: Global,
    styles: &Styles,
    ledger: &L,
    branch: &str,
    day: Day,
    out: &mut Messages,
) -> Done
    ensures { OnOk result (out.new.items
        ≡ out.old.items ++ open_year_said styles.now (L.book ledger.now) branch.now day) }
{
    let is_end = is_end_of_year(alloc, day)?;
    if is_end && has_day_after(day) && is_open(ledger, styles, day) {
        let pieces = [
            Words(b"revenues and expenses of "),
            Piece::Text(branch.as_bytes()),
            Words(b" are not zero through "),
            Piece::Day(day),
            Words(b"; after this lock, treasury close --branch "),
            Piece::Text(branch.as_bytes()),
            Words(b" --day "),
            Piece::Day(day_after(day)),
            Words(b" closes them"),
        ];
        say(MessageKind::OpenYear, &pieces, out)?;
    }
    Ok(())
}
