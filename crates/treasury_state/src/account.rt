//! Which accounts are well formed, and which belong to transfers.

ghost use Rattle.std.specs.Prelude.{◌≡◌};
ghost use Rattle.std.specs.List.{list_any};
ghost use Rattle.treasury_state.specs.Transfer.{is_account_text, is_reserved, is_transit};

use book_core::Leg;
use journal_lines::{is_account, is_reserved};
use money_core::Text;

/// Whether the account is well formed.
pub fn is_account_text(account: &Text) -> bool
    ensures { result ≡ is_account_text account.now }
{
    account.is_text();
    is_account(account.as_str().as_bytes())
}

/// Whether the account is `assets:transit` or below it.
pub fn is_reserved_account(account: &str) -> bool
    ensures { result ≡ is_reserved account.now }
{
    is_reserved(account.as_bytes())
}

/// Whether the leg is on such an account.
fn is_transit(leg: &Leg) -> bool
    ensures { result ≡ is_transit leg.now }
{
    is_reserved_account(leg.account.as_str())
}

/// Whether one of the legs is.
pub fn has_transit(legs: &[Leg]) -> bool
    ensures { result ≡ list_any is_transit legs.now }
{
    legs.iter().any(|leg| is_transit(leg))
}
