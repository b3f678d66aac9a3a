//! `treasury_core`: what no request leads to. What commands are answered is in the cases.

use book_core::{Ledger, PlainLedger, Refusal};
use journal_format::read_journal;
use money_core::{Copied, Day, Items, Styles, Text, read_style};
use std::alloc::Global;
use std::process::Abort;
use treasury_core::{Addition, Answer, Command, Delta, State, apply, decide};

mod ledgers;

const HALL: &str = "2024-01-05 hall\n    expenses:hall  120.00 EUR\n    assets:bank  -120.00 EUR\n";

/// 2024-01-05.
const JANUARY_5: i32 = 19_727;

/// What a command is answered.
type Reply = Result<Answer, Refusal>;

/// A command that is no file, in words.
enum Given {
    Branch(&'static str),
    Commodity(&'static str),
    Lock(&'static str, i32),
}

/// What a command is answered, and the state after it.
fn perform<L: Ledger>(
    rt: &impl Abort,
    alloc: Global,
    state: State<L>,
    command: &Command,
) -> (State<L>, Reply) {
    assert!(rt; command.fits(state.styles()));
    match decide(alloc, &state, command) {
        Ok((answer, delta)) => {
            let next = apply(alloc, state, delta).expect(rt, "memory");
            (next, Ok(answer))
        }
        Err(refusal) => (state, Err(refusal)),
    }
}

/// The state after the command, which is answered so. The row says which it is.
fn assert_performed<L: Ledger>(
    rt: &impl Abort,
    alloc: Global,
    state: State<L>,
    command: &Command,
    wanted: &Reply,
    row: &str,
) -> State<L> {
    let (next, reply) = perform(rt, alloc, state, command);
    assert_eq!(rt; reply, *wanted, "{row}");
    next
}

fn text(rt: &impl Abort, alloc: Global, of: &str) -> Text {
    Text::of(alloc, of).expect(rt, "memory")
}

/// The text that the row is about, and its command.
fn command<'a>(rt: &impl Abort, alloc: Global, given: &'a Given) -> (&'a str, Command) {
    match given {
        Given::Branch(name) => (*name, Command::Branch(text(rt, alloc, *name))),
        Given::Commodity(sample) => {
            let style = read_style(alloc, *sample).expect(rt, "a sample");
            (*sample, Command::Commodity(style))
        }
        Given::Lock(name, day) => {
            let lock = Command::Lock(text(rt, alloc, *name), Day(*day));
            (*name, lock)
        }
    }
}

/// Performs the commands, one after another, and compares each answer.
fn perform_all<L: Ledger>(
    rt: &impl Abort,
    alloc: Global,
    state: State<L>,
    rows: &[(Given, Reply)],
) -> State<L> {
    let mut now = state;
    for (given, wanted) in rows {
        let (row, command) = command(rt, alloc, given);
        now = assert_performed(rt, alloc, now, &command, wanted, row);
    }
    now
}

/// North and south, with euros and dollars.
fn start<L: Ledger>(rt: &impl Abort, alloc: Global) -> State<L> {
    const ROWS: &[(Given, Reply)] = &[
        (Given::Branch("north"), Ok(Answer::Done)),
        (Given::Branch("south"), Ok(Answer::Done)),
        (Given::Commodity("1,000.00 EUR"), Ok(Answer::Done)),
        (Given::Commodity("$1,000.00"), Ok(Answer::Done)),
    ];
    perform_all(rt, alloc, State::empty(alloc), ROWS)
}

/// A file into the branch.
fn file(rt: &impl Abort, alloc: Global, name: &str, journal: &str, styles: &Styles) -> Command {
    let list = read_journal(alloc, journal.as_bytes(), styles).expect(rt, "a journal");
    Command::Enter(text(rt, alloc, name), Items::from_vec(list))
}

/// The state after the file into the branch, which is answered so.
fn assert_entered<L: Ledger>(
    rt: &impl Abort,
    alloc: Global,
    state: State<L>,
    name: &str,
    journal: &str,
    wanted: &Reply,
) -> State<L> {
    let command = file(rt, alloc, name, journal, state.styles());
    assert_performed(rt, alloc, state, &command, wanted, journal)
}

/// Enters the files into north, one after another, and compares each answer.
fn enter_all<L: Ledger>(
    rt: &impl Abort,
    alloc: Global,
    state: State<L>,
    rows: &[(&str, Reply)],
) -> State<L> {
    let mut now = state;
    for (journal, wanted) in rows {
        now = assert_entered(rt, alloc, now, "north", *journal, wanted);
    }
    now
}

/// How many records the branch at that place has, and how many entries its ledger.
fn sizes<L: Ledger>(state: &State<L>, place: usize) -> (usize, usize) {
    match state.branches().get(place) {
        Some(branch) => (branch.records.items().len(), branch.ledger.len()),
        None => (0, 0),
    }
}

/// What the command adds, which is decided over a copy.
fn added<L: Ledger>(rt: &impl Abort, alloc: Global, state: &State<L>, command: &Command) -> Delta {
    let copy = command.copy().expect(rt, "memory");
    assert!(rt; copy.fits(state.styles()));
    let (_, delta) = decide(alloc, state, &copy).expect(rt, "an answer");
    delta
}

/// Asserts that a record of January 5 is added to north.
fn assert_record(rt: &impl Abort, addition: &Addition) {
    match addition {
        Addition::Record(name, row) => {
            let row = row.copy().expect(rt, "memory");
            assert_eq!(rt; name.as_str(), "north");
            assert_eq!(rt; row.entry.day, Day(JANUARY_5));
        }
        _ => assert!(rt; false, "a record"),
    }
}

#[test]
fn copies_are_made(rt: HostRuntime) {
    let alloc = rt.alloc();
    let state: State<PlainLedger> = start(&rt, alloc);
    let command = file(&rt, alloc, "north", HALL, state.styles());
    let delta = added(&rt, alloc, &state, &command);
    let addition = delta.additions().first().expect(&rt, "an addition");
    let copy = addition.copy().expect(&rt, "memory");
    assert_record(&rt, &copy);
}
