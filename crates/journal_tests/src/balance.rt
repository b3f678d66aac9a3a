//! Entries and the accounts of an exchange. Which legs, assertions and faults a transaction has is in the cases.

use book_core::Entry;
use journal_balance::{
    conversion_accounts, entry_growth_law, entry_law, legs, unmarked_law, written_law,
};
use journal_format::read_journal;
use money_core::{Cause, Styles, is_declared, print_amount, read_style};
use std::alloc::Global;
use std::process::Abort;
use std::test::Fail;

/// The commodities of these samples, in their order.
fn declared(alloc: Global, samples: &[&str]) -> Result<Styles, Cause> {
    let mut styles = Styles::empty(alloc);
    for sample in samples {
        styles.declare(read_style(alloc, sample)?)?;
    }
    Ok(styles)
}

/// A journal of one transaction with these postings.
fn journal(alloc: Global, postings: &[&str]) -> Result<String, Cause> {
    let mut text = String::from_str(alloc, "2024-02-01 x\n")?;
    for posting in postings {
        text.push_str("    ")?;
        text.push_str(posting)?;
        text.push_str("\n")?;
    }
    Ok(text)
}

/// The entry of a transaction with these postings, or why it has none.
fn entry_of(
    rt: &impl Abort,
    alloc: Global,
    postings: &[&str],
    styles: &Styles,
) -> Result<Entry, Cause> {
    let text = journal(alloc, postings).expect(rt, "memory");
    let list = read_journal(alloc, text.as_str().as_bytes(), styles).expect(rt, "a journal");
    let located = list.first().expect(rt, "a transaction");
    legs(alloc, &located.txn, styles)
}

/// The legs of an entry, a line for each: its account, two spaces and its amount.
fn shown(rt: &impl Abort, alloc: Global, entry: &Entry, styles: &Styles) -> Result<String, Fail> {
    let mut out = Vec::new(alloc);
    for leg in entry.legs.items() {
        out.extend_from_slice(leg.account.as_str().as_bytes())?;
        out.extend_from_slice(b"  ")?;
        assert!(rt; is_declared(leg.unit, leg.qty, styles));
        print_amount(alloc, leg.unit, leg.qty, styles, &mut out)?;
        out.push(b'\n')?;
    }
    let text = String::from_str(alloc, str::from_utf8(out.as_slice())?)?;
    Ok(text)
}

// (two symbols, the accounts of an exchange of them)
#[test]
fn an_exchange_has_two_accounts(rt: HostRuntime) {
    let rows = [
        (
            "$",
            "€",
            "equity:conversion:$-€:$",
            "equity:conversion:$-€:€",
        ),
        (
            "€",
            "$",
            "equity:conversion:$-€:$",
            "equity:conversion:$-€:€",
        ),
        (
            "JPY",
            "EUR",
            "equity:conversion:EUR-JPY:EUR",
            "equity:conversion:EUR-JPY:JPY",
        ),
        (
            "kg",
            "kg2",
            "equity:conversion:kg-kg2:kg",
            "equity:conversion:kg-kg2:kg2",
        ),
        (
            "a",
            "Z",
            "equity:conversion:Z-a:Z",
            "equity:conversion:Z-a:a",
        ),
        (
            "é",
            "z",
            "equity:conversion:z-é:z",
            "equity:conversion:z-é:é",
        ),
    ];
    for (a, b, of_first, of_second) in rows {
        let (first, second) = conversion_accounts(rt.alloc(), a, b).expect(&rt, "memory");
        assert_eq!(rt; first.as_str(), of_first, "{a} {b}");
        assert_eq!(rt; second.as_str(), of_second, "{a} {b}");
    }
}

#[test]
fn an_entry_stays_when_more_is_declared(rt: HostRuntime) -> Result<(), Fail> {
    let alloc = rt.alloc();
    let rows: [&[&str]; 2] = [
        &["$1,000.00", "€1,000.00"],
        &["$1,000.00", "€1,000.00", "1,000.00 EUR"],
    ];
    for samples in rows {
        let styles = declared(alloc, samples).expect(&rt, "samples");
        let postings = ["assets:bank  €100 @ $1.35", "assets:cash"];
        let entry = entry_of(&rt, alloc, &postings, &styles).expect(&rt, "an entry");
        let found = shown(&rt, alloc, &entry, &styles)?;
        let wanted =
            "assets:bank  €100.00\nequity:conversion:$-€:€  €-100.00\nequity:conversion:$-€:$  $135.00\nassets:cash  $-135.00\n";
        assert_eq!(rt; found.as_str(), wanted);
    }
    entry_law();
    entry_growth_law();
    written_law();
    unmarked_law();
    Ok(())
}
