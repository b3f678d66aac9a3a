//! Accounts that a branch had in no entry before: a name may be mistyped.

ghost use Rattle.std.specs.Prelude.{◌≡◌, ◌++◌, ◌-◌, ◌&&◌, ◌||◌, ◌↔◌, [], ◌∷◌, true, not, ℕ, List, IfOk, OnOk, IsTrue};
ghost use Rattle.std.specs.Prelude.{is_some, map};
ghost use Rattle.std.specs.HashMap.{get_by_text};
ghost use Rattle.std.specs.List.{list_any, filter, flat_map};
ghost use Rattle.std.specs.Str.{bytes_eq};
ghost use Rattle.journal_format.specs.PostingParts.{account_name_of};
ghost use Rattle.journal_hints.specs.OddAmount.{is_posting_line};
ghost use Rattle.treasury_messages.specs.Said.{naming};
ghost use Rattle.import_notes.specs.NewAccount.{posts_to, has_leg_on, is_new_account, has_imported};
ghost use Rattle.import_notes.specs.BroughtAccounts.{posted_view, posted_on, posted_at, new_ones, posted_values};
ghost use Rattle.import_notes.specs.BroughtAccounts.{left_out_values, further_values, brought_said, accounts_said};

use crate::import::Import;
use journal_hints::amounts::Below;
use journal_hints::lines::{is_posting, posting_parts};
use journal_lines::Lines;
use money_core::Cause;
use std::alloc::Global;
use std::collections::HashMap;
use treasury_core::{Record, is_product_mark};
use treasury_messages::Piece::{Number, Origin, Text, Words};
use treasury_messages::{Done, Message, MessageKind, Messages};

/// The most accounts that are named after the first; of more, a count is given.
const MOST_FURTHER: usize = 19;

/// Whether one of the records was imported, and not made by a transfer or a closing.
fn has_imported(records: &[Record]) -> bool
    ensures { result ≡ has_imported records.now }
{
    records
        .iter()
        .any(|record| !is_product_mark(record.mark.as_str()))
}

/// Puts an account among accounts.
fn put_account(alloc: Global, accounts: &mut HashMap<String, ()>, account: &str) -> Done
    ensures { OnOk result ((other : List ℕ) → is_some (get_by_text accounts.new other)
        ≡ (is_some (get_by_text accounts.old other) || bytes_eq account.now other)) }
{
    if accounts.contains_key(account) {
        return Ok(());
    }
    let Ok(key) = String::from_str(alloc, account) else {
        return Err(Cause::OutOfMemory);
    };
    let Ok(_old) = accounts.insert(key, ()) else {
        return Err(Cause::OutOfMemory);
    };
    Ok(())
}

/// Puts the accounts of a record's postings among accounts.
fn put_posted(alloc: Global, accounts: &mut HashMap<String, ()>, row: &Record) -> Done
    ensures { OnOk result ((other : List ℕ) → is_some (get_by_text accounts.new other)
        ≡ (is_some (get_by_text accounts.old other) || posts_to other row.now)) }
{
    for posting in row.txn.postings.items() {
        put_account(alloc, accounts, posting.account.as_str())?;
    }
    Ok(())
}

/// The accounts of the new records' postings.
fn accounts_of(alloc: Global, new: &[Record]) -> Result<HashMap<String, ()>, Cause>
    ensures { IfOk result (λ accounts. (account : List ℕ)
        → is_some (get_by_text accounts account) ≡ list_any (posts_to account) new.now) }
{
    let mut accounts = HashMap::new(alloc);
    for record in new {
        put_posted(alloc, &mut accounts, record)?;
    }
    Ok(accounts)
}

/// Takes the accounts of a record's legs out of accounts.
fn take_posted(accounts: &mut HashMap<String, ()>, row: &Record)
    ensures { (other : List ℕ) → is_some (get_by_text accounts.new other)
        ≡ (is_some (get_by_text accounts.old other) && not (has_leg_on other row.now)) }
{
    for leg in row.entry.legs.items() {
        let _ = accounts.remove(leg.account.as_str());
    }
}

/// Takes those out of accounts that a held record has a leg on.
fn take_held(accounts: &mut HashMap<String, ()>, held: &[Record])
    ensures { (other : List ℕ) → is_some (get_by_text accounts.new other)
        ≡ (is_some (get_by_text accounts.old other) && not (list_any (has_leg_on other) held.now)) }
{
    for record in held {
        take_posted(accounts, record);
    }
}

/// The accounts of an import's new postings that no held record has a leg on.
pub fn new_accounts(
    alloc: Global,
    held: &[Record],
    new: &[Record],
) -> Result<HashMap<String, ()>, Cause>
    ensures { IfOk result (λ accounts. (account : List ℕ)
        → is_some (get_by_text accounts account) ≡ is_new_account held.now new.now account) }
{
    let mut accounts = accounts_of(alloc, new)?;
    take_held(&mut accounts, held);
    Ok(accounts)
}

/// Whether there is such an account; not in a branch's first import.
pub fn has_new_account(alloc: Global, held: &[Record], new: &[Record]) -> Result<bool, Cause>
    ensures { IfOk result (λ is. IsTrue is ↔ ((has_imported held.now ≡ true)
        × ((account : List ℕ) × (is_new_account held.now new.now account ≡ true)))) }
{
    if !has_imported(held) {
        return Ok(false);
    }
    match new_accounts(alloc, held, new) {
        Ok(accounts) => Ok(!accounts.is_empty()),
        Err(cause) => Err(cause),
    }
}

/// The account of a posting of a text, and the number of its line.
#[derive(Clone, Copy)]
struct PostedAt<'a> {
    line: usize,
    name: &'a [u8],
}

/// Takes an account out of accounts; whether it was there.
fn take_account(accounts: &mut HashMap<String, ()>, name: &[u8]) -> bool
    ensures was { result ≡ is_some (get_by_text accounts.old name.now) }
    ensures left { (other : List ℕ) → is_some (get_by_text accounts.new other)
        ≡ (is_some (get_by_text accounts.old other) && not (bytes_eq name.now other)) }
{
    match str::from_utf8(name) {
        Ok(account) => accounts.remove(account).is_some(),
        Err(_) => false,
    }
}

/// Puts the account of a line, if it is a posting and the account is one of these, which it is taken out of.
fn put_posted_at<'a>(
    number: usize,
    line: &'a [u8],
    accounts: &mut HashMap<String, ()>,
    found: &mut Vec<PostedAt<'a>>,
) -> Done
    ensures left { (other : List ℕ) → is_some (get_by_text accounts.new other)
        ≡ (is_some (get_by_text accounts.old other)
        && not (is_posting_line line.now && bytes_eq (account_name_of line.now) other)) }
    ensures value { OnOk result (map posted_view found.new.items ≡ map posted_view found.old.items
        ++ filter (λ (x : ℕ × List ℕ). is_some (get_by_text accounts.old x.1)) (posted_on (number, line.now))) }
{
    if !is_posting(line) {
        return Ok(());
    }
    let name = posting_parts(line).name;
    if take_account(accounts, name) {
        found.push(PostedAt { line: number, name })?;
    }
    Ok(())
}

/// Those of these accounts that new transactions have, whose headers stand at these lines, each at its first line.
#[tactic(auto, unfolding(crate::specs::BroughtAccounts::posted_at))]
fn find_posted<'a>(
    alloc: Global,
    text: &'a [u8],
    lines: &[usize],
    accounts: &mut HashMap<String, ()>,
) -> Result<Vec<PostedAt<'a>>, Cause>
    ensures { IfOk result (λ found. map posted_view found.items
        ≡ new_ones (λ account. is_some (get_by_text accounts.old account)) (posted_at lines.now text.now)) }
{
    let mut found = Vec::new(alloc);
    let mut below = Below {
        heads: lines,
        inside: false,
    };
    for (number, line) in Lines::new(text) {
        if below.has(number, line) {
            put_posted_at(number, line, accounts, &mut found)?;
        }
    }
    Ok(found)
}

/// Says more of a message: a text, and words behind it.
fn add_text(text: &[u8], words: &'static [u8], message: &mut Message) -> Done
    ensures { OnOk result (message.new ≡ naming message.old (text.now ∷ [])) }
{
    message.add(&[Text(text), Words(words)])
}

/// Says more of a message: these accounts, and their lines.
fn add_posted(posted: &[PostedAt<'_>], message: &mut Message) -> Done
    ensures { OnOk result (message.new
        ≡ naming message.old (flat_map posted_values (map posted_view posted.now))) }
{
    let mut before: &'static [u8] = b"; also ";
    for one in posted {
        message.add(&[
            Words(before),
            Text(one.name),
            Words(b" (line "),
            Number(one.line),
            Words(b")"),
        ])?;
        before = b", ";
    }
    Ok(())
}

/// Says more of a message: how many of so many accounts are not named, if some are not.
fn add_left_out(count: usize, message: &mut Message) -> Done
    ensures { OnOk result (message.new ≡ naming message.old (left_out_values (count - MOST_FURTHER))) }
{
    if count > MOST_FURTHER {
        let more = Number(count - MOST_FURTHER);
        let pieces = [Words(b" and "), more, Words(b" more")];
        message.add(&pieces)?;
    }
    Ok(())
}

/// Says more of a message: the first of the further accounts, and how many more there are.
fn add_further(further: &[PostedAt<'_>], message: &mut Message) -> Done
    ensures { OnOk result (message.new ≡ naming message.old (further_values (map posted_view further.now))) }
{
    let named = &further[..further.len().min(MOST_FURTHER)];
    add_posted(named, message)?;
    add_left_out(further.len(), message)
}

/// Says that these accounts are new to the branch, if there are any.
fn say_brought(import: &Import<'_>, found: &[PostedAt<'_>], out: &mut Messages) -> Done
    ensures { OnOk result (out.new.items ≡ out.old.items
        ++ brought_said import.now.source.now import.now.branch.now (map posted_view found.now)) }
{
    let [first, further @ ..] = found else {
        return Ok(());
    };
    let mut message = Message::new(*out.allocator(), MessageKind::NewAccounts);
    message.add(&[Origin(import.source, first.line)])?;
    let words: &'static [u8] = b" is an account that no earlier entry of ";
    add_text(first.name, words, &mut message)?;
    add_text(import.branch.as_bytes(), b" has", &mut message)?;
    add_further(further, &mut message)?;
    message.say(out)
}

/// Says which accounts an import's new transactions bring, whose headers stand at these lines.
#[tactic(auto, unfolding(crate::specs::BroughtAccounts::accounts_said))]
pub fn say_accounts(alloc: Global, import: &Import<'_>, lines: &[usize], out: &mut Messages) -> Done
    ensures { let it = import.now in OnOk result (out.new.items ≡ out.old.items
        ++ accounts_said it.source.now it.branch.now it.text.now lines.now (is_new_account it.held.now it.new.now)) }
{
    let mut accounts = new_accounts(alloc, import.held, import.new)?;
    let found = find_posted(alloc, import.text, lines, &mut accounts)?;
    say_brought(import, found.as_slice(), out)
}
