//! The machine over a ledger that never has memory to check.

use super::{Given, HALL, JANUARY_5, Reply, enter_all, perform_all, sizes, start};
use book_core::{Count, Entry, Ledger, PlainLedger, Refusal};
use money_core::{Cause, Day, Items, Text, Unit};
use std::alloc::Global;
use std::process::Abort;
use treasury_core::{Answer, State};

/// A ledger that is refused memory whenever it checks.
#[derive(Drop)]
struct Exhausted {
    ledger: PlainLedger,
}

impl Ledger for Exhausted {
    ghost book = { λ l. l.ledger };

    fn empty(alloc: Global) -> Self {
        Exhausted {
            ledger: PlainLedger::empty(alloc),
        }
    }

    fn len(&self) -> usize {
        self.ledger.len()
    }

    fn balance(&self, account: &str, unit: Unit, day: Day) -> i64 {
        self.ledger.balance(account, unit, day)
    }

    fn balance_in(&self, account: &str, unit: Unit, day: Day) -> i64 {
        self.ledger.balance_in(account, unit, day)
    }

    fn accounts(&self) -> &[Text] {
        self.ledger.accounts()
    }

    fn check(&self, new: &[Entry], count: &mut Count) -> Result<(), Refusal> {
        let _ = self.ledger.check(new, count);
        Err(Refusal::Plain(Cause::OutOfMemory))
    }

    fn of(alloc: Global, entries: Items<Entry>) -> Result<Self, Refusal> {
        let _ = (alloc, entries);
        Err(Refusal::Plain(Cause::OutOfMemory))
    }

    fn add(&mut self, entry: Entry) -> Result<(), Cause> {
        self.ledger.add(entry)
    }
}

/// Only a file with something new asks the ledger.
#[test]
fn what_the_ledger_has_no_memory_for_is_answered_40(rt: HostRuntime) {
    const FILES: &[(&str, Reply)] = &[
        (
            "",
            Ok(Answer::Entered {
                new: 0,
                repeated: 0,
            }),
        ),
        (HALL, Err(Refusal::Plain(Cause::OutOfMemory))),
        (HALL, Err(Refusal::Plain(Cause::OutOfMemory))),
        (
            "2024-01-07 x\n    ; bookid:in:x\n    a:x  1.00 EUR\n    a:y\n",
            Err(Refusal::Plain(Cause::ReservedMark)),
        ),
    ];
    const LOCK: &[(Given, Reply)] = &[(Given::Lock("north", JANUARY_5), Ok(Answer::Done))];
    const LOCKED: &[(&str, Reply)] = &[(HALL, Err(Refusal::Plain(Cause::Locked)))];
    let alloc = rt.alloc();
    let state: State<Exhausted> = start(&rt, alloc);
    let state = enter_all(&rt, alloc, state, FILES);
    assert_eq!(rt; sizes(&state, 0), (0, 0));
    let state = perform_all(&rt, alloc, state, LOCK);
    let _ = enter_all(&rt, alloc, state, LOCKED);
}
