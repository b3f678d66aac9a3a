//! Accounts that an option names, and that a branch does not have: a name may be mistyped.

ghost use Rattle.std.specs.Prelude.{◌≡◌, [], ◌∷◌, ◌++◌, IfOk, OnOk, map, filter, codes};
ghost use Rattle.std.specs.List.{list_any};
ghost use Rattle.std.specs.Option.{option_map};
ghost use Rattle.book_core.specs.Account.{is_inside};
ghost use Rattle.import_notes.specs.NewAccount.{has_leg_on};
ghost use Rattle.journal_hints.specs.Listed.{listed};
ghost use Rattle.treasury_notes.specs.NamedAccount.{named_account_said, has_leg_inside, is_unknown, unknown_accounts};
ghost use Rattle.treasury_notes.specs.NamedAccount.{unknown_account_said, unknown_said};

use book_core::{Leg, is_inside};
use journal_hints::listed::{MOST, say_more};
use money_core::{Cause, Text};
use std::alloc::Global;
use treasury_core::Record;
use treasury_messages::Piece::Words;
use treasury_messages::{Done, MessageKind, Messages, Piece, say};

/// Whether the record has a leg on the account.
fn has_leg_on(row: &Record, account: &str) -> bool
    ensures { result ≡ has_leg_on account.now row.now }
{
    row.entry
        .legs
        .items()
        .iter()
        .any(|leg| leg.account.as_str() == account)
}

/// Whether one of the records has a leg on the account.
fn is_used(account: &str, held: &[Record]) -> bool
    ensures { result ≡ list_any (has_leg_on account.now) held.now }
{
    held.iter().any(|record| has_leg_on(record, account))
}

/// Says the account that an option names, if the branch has entries, and none of them a leg on it.
pub(crate) fn say_account<'a>(
    option: &'static [u8],
    account: Option<&'a Text>,
    branch: &'a str,
    held: &[Record],
    out: &mut Messages,
) -> Done
    ensures { OnOk result (out.new.items ≡ out.old.items
        ++ named_account_said option.now (option_map (λ account. account.now) account.entry) branch.now held.now) }
{
    let Some(account) = account else {
        return Ok(());
    };
    if held.is_empty() || is_used(account.as_str(), held) {
        return Ok(());
    }
    let pieces = [
        Piece::Text(option),
        Words(b": "),
        Piece::Text(account.as_str().as_bytes()),
        Words(b" is an account that no earlier entry of "),
        Piece::Text(branch.as_bytes()),
        Words(b" has"),
    ];
    say(MessageKind::NewAccountOption, &pieces, out)
}

/// Whether the leg is on the account or below it.
fn is_leg_inside(leg: &Leg, account: &str) -> bool
    ensures { result ≡ is_inside account.now leg.now.account }
{
    is_inside(leg.account.as_str(), account)
}

/// Whether the record has a leg on the account or below it.
fn has_leg_inside(row: &Record, account: &str) -> bool
    ensures { result ≡ has_leg_inside account.now row.now }
{
    row.entry
        .legs
        .items()
        .iter()
        .any(|leg| is_leg_inside(leg, account))
}

/// Whether one of the records has a leg on the account or below it.
pub(crate) fn is_used_inside(account: &str, held: &[Record]) -> bool
    ensures { result ≡ list_any (has_leg_inside account.now) held.now }
{
    held.iter().any(|record| has_leg_inside(record, account))
}

/// Puts an account, if none of the records has a leg on it or below it.
fn put_unknown<'a>(name: &'a str, held: &[Record], found: &mut Vec<&'a str>) -> Done
    ensures { OnOk result (map (λ name. name.now) found.new.items
        ≡ map (λ name. name.now) found.old.items ++ filter (is_unknown held.now) (name.now ∷ [])) }
{
    if !is_used_inside(name, held) {
        found.push(name)?;
    }
    Ok(())
}

/// The listed accounts, joined by `;`, that a branch with these records does not have.
fn find_unknown<'a>(alloc: Global, list: &'a str, held: &[Record]) -> Result<Vec<&'a str>, Cause>
    ensures { IfOk result (λ found. map (λ name. name.now) found.items ≡ unknown_accounts held.now list.now) }
{
    let mut found = Vec::new(alloc);
    let mut rest = list;
    'names: while let Some((name, more)) = rest.split_once(';') {
        put_unknown(name, held, &mut found)?;
        rest = more;
    }
    put_unknown(rest, held, &mut found)?;
    Ok(found)
}

/// Says that a branch does not have a listed account.
fn say_unknown_account<'a>(name: &'a str, branch: &'a str, out: &mut Messages) -> Done
    ensures { OnOk result (out.new.items ≡ out.old.items ++ unknown_account_said branch.now name.now) }
{
    let pieces = [
        Words(b"--accounts: "),
        Piece::Text(name.as_bytes()),
        Words(b" is no account of "),
        Piece::Text(branch.as_bytes()),
        Words(b", and closes nothing"),
    ];
    say(MessageKind::NoAccount, &pieces, out)
}

/// Says which of the listed accounts a branch with these records does not have, if a list is given.
#[tactic(auto, unfolding(crate::specs::NamedAccount::unknown_said, journal_hints::specs::Listed::listed))]
pub(crate) fn say_unknown(
    alloc: Global,
    accounts: Option<&Text>,
    branch: &str,
    held: &[Record],
    out: &mut Messages,
) -> Done
    ensures { OnOk result (out.new.items
        ≡ out.old.items ++ unknown_said branch.now (option_map (λ list. list.now) accounts.entry) held.now) }
{
    let Some(list) = accounts else { return Ok(()) };
    let found = find_unknown(alloc, list.as_str(), held)?;
    let first = &found.as_slice()[..found.len().min(MOST)];
    for name in first {
        say_unknown_account(name, branch, out)?;
    }
    say_more(found.len(), out)
}
