//! The ledger that keeps the list of entries and adds it up at each question.

ghost use Rattle.std.specs.Prelude.{◌≡◌, ◌≢◌, ◌≤◌, ◌++◌, List, None, OnOk, IfOk};
ghost use Rattle.std.specs.List.{AllByRecursion};
ghost use Rattle.std.specs.Result.{IsOkUnless};
ghost use Rattle.book_core.specs.Balance.{balance};
ghost use Rattle.book_core.specs.Claim.{failure, claims_of, counted};
ghost use Rattle.book_core.specs.GoodBook.{IsWithin, IsFit, Checks};
ghost use Rattle.book_core.specs.declared.entry.Entry.{Entry};
ghost use Rattle.book_core.specs.declared.place.Until.TheVariants.{Through};

use crate::account::Reach;
use crate::account_list::{new_accounts, put_accounts};
use crate::assertion::first_failure;
use crate::balance::{balance_over, through};
use crate::book::Book;
use crate::entry::Entry;
use crate::ledger::Ledger;
use crate::refusal::{Count, Refusal};
use crate::turnover::passes_limit;
use money_core::{Cause, Day, Items, Text, Unit};
use std::alloc::Global;
use std::marker::Model;

/// The greatest number of entries of a branch.
pub const MAX_ENTRIES: usize = 50_000;

/// The ledger that keeps the list of entries, and the sorted list of their accounts.
///
/// Each balance is one pass over all legs; `len`, `accounts` and `empty` cost nothing. `check` is one pass over all
/// legs for each commodity of the new ones; then, for each assertion of the book and of the new entries, one pass over
/// all legs, and for `==` and `==*` up to one more for each leg. It takes no memory. `add` is a search among the sorted
/// accounts for each leg, and moves the accounts after the first new one, each once.
#[derive(Drop)]
pub struct PlainLedger {
    entries: Vec<Entry>,
    accounts: Vec<Text>,
}

impl Model for PlainLedger {
    ghost use Rattle.std.specs.Prelude.{List};
    ghost use Rattle.book_core.specs.declared.entry.Entry.{Entry};

    ghost Value = { List Entry };

    ghost use Rattle.book_core.specs.PlainLedger.{IsPlainLedger};

    ghost view = { λ a. a.entries.items };

    ghost invariant = { λ a. IsPlainLedger a.entries.items a.accounts.items };
}

/// Whether the new entries may follow the old ones: the first of 23, 28 and 29, else Ok.
///
/// Costs one pass over all legs for each commodity of the new ones, and then a balance or more for each assertion.
pub fn check_lists(old: &[Entry], new: &[Entry], count: &mut Count) -> Result<(), Refusal>
    requires { IsWithin old.now }
    ensures checks { Checks (old.now ++ new.now) result }
    ensures never { result ≢ Err (Refusal.Plain Cause.OutOfMemory) }
    ensures exact { OnOk result (count.new.claims ≡ counted count.old.claims (claims_of (old.now ++ new.now))) }
    ensures least { count.old.claims ≤ count.new.claims }
    ensures most { count.new.claims ≤ counted count.old.claims (claims_of (old.now ++ new.now)) }
{
    let _start = count.claims;
    if new.len() > MAX_ENTRIES - old.len() {
        return Err(Refusal::Plain(Cause::Full));
    }
    if passes_limit(old, new) {
        return Err(Refusal::Plain(Cause::Limit));
    }
    let book = Book { old, new };
    match first_failure(&book, count) {
        Some(failure) => Err(Refusal::ClaimFailed(failure)),
        None => Ok(()),
    }
}

/// The balance of an account, or of it and its subaccounts, through a day.
fn balance_through(entries: &[Entry], reach: Reach, account: &str, unit: Unit, day: Day) -> i64
    requires { IsWithin entries.now }
    ensures { result ≡ balance reach entries.now account.now unit (Through day) }
{
    let book = Book {
        old: entries,
        new: &[],
    };
    balance_over(&book, &through(reach, account, unit, day))
}

impl PlainLedger {
    /// The ledger of entries within the limits, whatever their assertions say.
    fn filled(alloc: Global, entries: Vec<Entry>) -> Result<Self, Cause>
        requires fit { AllByRecursion IsFit entries.items }
        requires room { IsWithin entries.items }
        ensures value { IfOk result (λ ledger. ledger ≡ entries.items) }
        ensures memory { IsOkUnless result Cause.OutOfMemory }
    {
        let mut ledger = PlainLedger::empty(alloc);
        'entries: for entry in entries {
            ledger.add(entry)?;
        }
        Ok(ledger)
    }
}

impl Ledger for PlainLedger {
    ghost book = { λ b. b };

    fn empty(alloc: Global) -> Self {
        PlainLedger {
            entries: Vec::new(alloc),
            accounts: Vec::new(alloc),
        }
    }

    fn len(&self) -> usize {
        self.entries.len()
    }

    fn balance(&self, account: &str, unit: Unit, day: Day) -> i64 {
        balance_through(&self.entries, Reach::Own, account, unit, day)
    }

    fn balance_in(&self, account: &str, unit: Unit, day: Day) -> i64 {
        balance_through(&self.entries, Reach::Inside, account, unit, day)
    }

    fn accounts(&self) -> &[Text] {
        self.accounts.as_slice()
    }

    /// The trait's clauses; and Ok has examined every assertion of the book and of the new entries, and 40 is never
    /// answered, as it takes no memory.
    fn check(&self, new: &[Entry], count: &mut Count) -> Result<(), Refusal>
        requires fit { AllByRecursion IsFit new.now }
        requires hold { failure self.now ≡ None }
        ensures checks { Checks (self.now ++ new.now) result }
        ensures never { result ≢ Err (Refusal.Plain Cause.OutOfMemory) }
        ensures exact { OnOk result (count.new.claims ≡ counted count.old.claims (claims_of (self.now ++ new.now))) }
        ensures least { count.old.claims ≤ count.new.claims }
        ensures most { count.new.claims ≤ counted count.old.claims (claims_of (self.now ++ new.now)) }
    {
        check_lists(&self.entries, new, count)
    }

    fn of(alloc: Global, entries: Items<Entry>) -> Result<Self, Refusal> {
        let list = entries.into_vec();
        match check_lists(&[], &list, &mut Count { claims: 0 }) {
            Ok(()) => {}
            Err(refusal) => return Err(refusal),
        }
        match PlainLedger::filled(alloc, list) {
            Ok(ledger) => Ok(ledger),
            Err(cause) => Err(Refusal::Plain(cause)),
        }
    }

    // All room is made before either list changes.
    fn add(&mut self, entry: Entry) -> Result<(), Cause> {
        let alloc = *self.entries.allocator();
        let fresh = match new_accounts(alloc, &self.accounts, entry.legs.items()) {
            Ok(fresh) => fresh,
            Err(cause) => return Err(cause),
        };
        match self.accounts.reserve(fresh.len()) {
            Ok(()) => {}
            Err(_) => return Err(Cause::OutOfMemory),
        }
        match self.entries.push(entry) {
            Ok(()) => {}
            Err(_) => return Err(Cause::OutOfMemory),
        }
        put_accounts(&mut self.accounts, fresh);
        Ok(())
    }
}
