//! `treasury_core`: the mark of a transaction, which no request leads to by itself.

use journal_format::{is_printable, read_journal};
use money_core::{Styles, read_style};
use std::alloc::Global;
use std::process::Abort;
use treasury_core::mark_of;

// Columns: a journal of one transaction, its number among those of its text in a file, its mark. The hashes are by
// sha256sum, of the text without its mark.
const MARKS: &[(&str, usize, &str)] = &[
    (
        "2024-01-05 note\n",
        1,
        "h-85524232bb961553a0f88fb5c5a6f0ccdd3e47933ccd43a403fdbc51ee350b40-1",
    ),
    (
        "2024/1/5   note",
        12,
        "h-85524232bb961553a0f88fb5c5a6f0ccdd3e47933ccd43a403fdbc51ee350b40-12",
    ),
    (
        "2024-01-05 hall\n    expenses:hall  120.00 EUR\n    assets:bank  -120.00 EUR\n",
        1,
        "h-69421f525277ccf43cad698a2bd5932f73cb3805586c195df5e8daa04b31a062-1",
    ),
    (
        "2024-01-05 hall\n    expenses:hall  120.00 EUR\n    assets:bank  -120.00 EUR\n",
        2,
        "h-69421f525277ccf43cad698a2bd5932f73cb3805586c195df5e8daa04b31a062-2",
    ),
    (
        "2024-01-05 hall\n    ; bookid:n-1\n    expenses:hall  120.00 EUR\n    assets:bank  -120.00 EUR\n",
        2,
        "n-1",
    ),
];

/// Euros.
fn euros(rt: &impl Abort, alloc: Global) -> Styles {
    let mut styles = Styles::empty(alloc);
    let euro = read_style(alloc, "1,000.00 EUR").expect(rt, "a sample");
    assert!(rt; styles.declare(euro).is_ok());
    styles
}

fn assert_mark(rt: &impl Abort, alloc: Global, journal: &str, n: usize, wanted: &str) {
    let styles = euros(rt, alloc);
    let list = read_journal(alloc, journal.as_bytes(), &styles).expect(rt, "a journal");
    let located = list.first().expect(rt, "a transaction");
    assert!(rt; is_printable(&located.txn, &styles));
    let mark = mark_of(alloc, &located.txn, n, &styles).expect(rt, "memory");
    assert_eq!(rt; mark.as_str(), wanted, "{journal}");
}

fn assert_marks(rt: &impl Abort, alloc: Global, rows: &[(&str, usize, &str)]) {
    for (journal, n, wanted) in rows {
        assert_mark(rt, alloc, *journal, *n, *wanted);
    }
}

#[test]
fn a_transaction_has_its_own_mark_or_one_by_its_text(rt: HostRuntime) {
    assert_marks(&rt, rt.alloc(), MARKS);
}
