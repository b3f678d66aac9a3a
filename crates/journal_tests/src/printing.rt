//! Canonical texts, row by row.

use journal_format::{
    Located, Posting, Txn, body, is_printable, print_journal, print_txn, read_journal,
};
use money_core::{Copied, Styles, read_style};
use std::alloc::Global;
use std::process::Abort;

/// Declares the commodities of the samples, in this order.
fn declare_all(rt: &impl Abort, alloc: Global, styles: &mut Styles, samples: &[&str]) {
    for sample in samples {
        let style = read_style(alloc, *sample).expect(rt, "a sample");
        assert!(rt; styles.declare(style).is_ok());
    }
}

/// The commodities of the samples `1,000.00 EUR`, `$1,000.00`, `€1,000.00`, `1,000. JPY` and `1000. "kg2"`.
fn declared_styles(rt: &impl Abort, alloc: Global) -> Styles {
    const SAMPLES: &[&str] = &[
        "1,000.00 EUR",
        "$1,000.00",
        "€1,000.00",
        "1,000. JPY",
        "1000. \"kg2\"",
    ];
    let mut styles = Styles::empty(alloc);
    declare_all(rt, alloc, &mut styles, SAMPLES);
    styles
}

/// The transactions of a text.
fn transactions(rt: &impl Abort, alloc: Global, text: &str, styles: &Styles) -> Vec<Located> {
    read_journal(alloc, text.as_bytes(), styles).expect(rt, "a journal")
}

/// The first transaction of a text.
fn transaction(rt: &impl Abort, alloc: Global, text: &str, styles: &Styles) -> Txn {
    let mut list = transactions(rt, alloc, text, styles);
    list.truncate(1);
    list.pop().expect(rt, "a transaction").txn
}

/// Adds the text of a transaction that can be printed.
fn push_printed(rt: &impl Abort, alloc: Global, txn: &Txn, styles: &Styles, out: &mut Vec<u8>) {
    if is_printable(txn, styles) {
        assert!(rt; print_txn(alloc, txn, styles, out) == Ok(()));
    }
}

/// Adds the body of a transaction that can be printed.
fn push_body(rt: &impl Abort, alloc: Global, txn: &Txn, styles: &Styles, out: &mut Vec<u8>) {
    if is_printable(txn, styles) {
        assert!(rt; body(alloc, txn, styles, out) == Ok(()));
    }
}

/// The texts of all transactions of a journal, an empty line after each.
fn canonical(rt: &impl Abort, alloc: Global, text: &str, styles: &Styles) -> Vec<u8> {
    let mut out = Vec::new(alloc);
    for located in &transactions(rt, alloc, text, styles) {
        assert!(rt; is_printable(&located.txn, styles), "{text:?}");
        push_printed(rt, alloc, &located.txn, styles, &mut out);
        out.push(b'\n').expect(rt, "memory");
    }
    out
}

/// The body of the first transaction of a text.
fn body_of(rt: &impl Abort, alloc: Global, text: &str, styles: &Styles) -> Vec<u8> {
    let txn = transaction(rt, alloc, text, styles);
    let mut out = Vec::new(alloc);
    out.push(b'>').expect(rt, "memory");
    push_body(rt, alloc, &txn, styles, &mut out);
    out
}

// The files of examples/canonical: each journal, and the text that is written by hand beside it.

const DATES: (&str, &str) = (
    "commodity 1,000.00 EUR

2024/1/5 hall
    assets:cash  1.00 EUR
    equity:opening

2024.01.05  hall
\tassets:cash\t\t1.00 EUR
\tequity:opening
2024-01-05 hall
  assets:cash    EUR 1
  equity:opening
",
    "2024-01-05 hall
    assets:cash  1.00 EUR
    equity:opening

2024-01-05 hall
    assets:cash  1.00 EUR
    equity:opening

2024-01-05 hall
    assets:cash  1.00 EUR
    equity:opening

",
);

const AMOUNTS: (&str, &str) = (
    "commodity 1,000.00 EUR
commodity $1,000.00
commodity €1,000.00
commodity 1,000. JPY
commodity 1000. \"kg2\"

2024-01-05 amounts
    assets:a  $ 1234
    assets:b  1000 JPY
    assets:c  999 JPY
    assets:d  \"kg2\" 5
    assets:e  €100 @ $1.35
    assets:f  -EUR 1234567.5
    assets:g  +3 EUR @@ 4 $
    equity:rest
",
    "2024-01-05 amounts
    assets:a  $1,234.00
    assets:b  1,000. JPY
    assets:c  999 JPY
    assets:d  5 \"kg2\"
    assets:e  €100.00 @ $1.35
    assets:f  -1,234,567.50 EUR
    assets:g  3.00 EUR @@ $4.00
    equity:rest

",
);

const STATUSES: (&str, &str) = (
    "commodity 1,000.00 EUR

2024-01-05 * (17) hall ; paid
    ! assets:bank  -5.00 EUR
    *expenses:rent  5.00 EUR

2024-01-06 ! ()
    assets:bank  -1.00 EUR
    expenses:fees

2024-01-07 (a) * x
    assets:bank  -1.00 EUR
    expenses:fees

2024-01-08
    assets:bank  -1.00 EUR
    expenses:fees
",
    "2024-01-05 * (17) hall
    ; paid
    ! assets:bank  -5.00 EUR
    * expenses:rent  5.00 EUR

2024-01-06 ! ()
    assets:bank  -1.00 EUR
    expenses:fees

2024-01-07 (a) * x
    assets:bank  -1.00 EUR
    expenses:fees

2024-01-08
    assets:bank  -1.00 EUR
    expenses:fees

",
);

const COMMENTS: (&str, &str) = (
    "commodity 1,000.00 EUR

; a note outside
2024-01-05 hall ;
    ;  two  words 
    ; bookid:k-1
    ;
    assets:bank  -5.00 EUR  ; a, b:c
    ; below
    expenses:rent  ;
    ;; more
",
    "2024-01-05 hall
    ; bookid:k-1
    ;
    ; two  words
    ;
    assets:bank  -5.00 EUR
    ; a, b:c
    ; below
    expenses:rent
    ;
    ; ; more

",
);

const CLAIMS: (&str, &str) = (
    "commodity 1,000.00 EUR

2024-01-05 opening
    assets:bank  5 EUR=5 EUR
    assets:bank:sub  5 EUR == 5 EUR
    assets:bank:sub  0 EUR =* EUR 5
    assets  0 EUR==*10.00 EUR
    equity:opening  EUR -10
",
    "2024-01-05 opening
    assets:bank  5.00 EUR = 5.00 EUR
    assets:bank:sub  5.00 EUR == 5.00 EUR
    assets:bank:sub  0.00 EUR =* 5.00 EUR
    assets  0.00 EUR ==* 10.00 EUR
    equity:opening  -10.00 EUR

",
);

/// Asserts that each journal prints as its canonical text, and that text as itself.
fn assert_canonical(rt: &impl Abort, alloc: Global, rows: &[(&str, &str)]) {
    let styles = declared_styles(rt, alloc);
    for (journal, expected) in rows {
        let printed = canonical(rt, alloc, *journal, &styles);
        assert_eq!(rt; printed.as_slice(), expected.as_bytes(), "{journal:?}");
        let again = canonical(rt, alloc, *expected, &styles);
        assert_eq!(rt; again.as_slice(), expected.as_bytes(), "{journal:?}");
    }
}

#[test]
fn a_journal_prints_as_its_canonical_text(rt: HostRuntime) {
    const ROWS: &[(&str, &str)] = &[DATES, AMOUNTS, STATUSES, COMMENTS, CLAIMS];
    assert_canonical(&rt, rt.alloc(), ROWS);
}

/// The line below a header, after so many blanks.
fn below(rt: &impl Abort, alloc: Global, blanks: &str, line: &str) -> Vec<u8> {
    let mut text = Vec::new(alloc);
    text.extend_from_slice(b"2024-01-05 x\n")
        .expect(rt, "memory");
    text.extend_from_slice(blanks.as_bytes())
        .expect(rt, "memory");
    text.extend_from_slice(line.as_bytes()).expect(rt, "memory");
    text
}

/// The bodies of all transactions of a text.
fn bodies(rt: &impl Abort, alloc: Global, text: &[u8], styles: &Styles) -> Vec<u8> {
    let read = read_journal(alloc, text, styles).expect(rt, "a journal");
    let mut out = Vec::new(alloc);
    for located in &read {
        push_body(rt, alloc, &located.txn, styles, &mut out);
    }
    out
}

/// Asserts that each line below a header prints as the other.
fn assert_below(rt: &impl Abort, alloc: Global, rows: &[(&str, &str)]) {
    let styles = declared_styles(rt, alloc);
    for (line, expected) in rows {
        let text = below(rt, alloc, " ", *line);
        let printed = bodies(rt, alloc, text.as_slice(), &styles);
        let mut wanted = below(rt, alloc, "    ", *expected);
        wanted.push(b'\n').expect(rt, "memory");
        assert_eq!(rt; printed.as_slice(), wanted.as_slice(), "{line:?}");
    }
}

#[test]
fn a_value_prints_in_one_form(rt: HostRuntime) {
    const ROWS: &[(&str, &str)] = &[
        ("a:x  €100 @ $1.35", "a:x  €100.00 @ $1.35"),
        ("a:x  €100 @@ 135$", "a:x  €100.00 @@ $135.00"),
        ("a:x  €1 @ $1.3500", "a:x  €1.00 @ $1.35"),
        ("a:x  €1 @ $1.3505", "a:x  €1.00 @ $1.3505"),
        ("a:x  $ 1234", "a:x  $1,234.00"),
        ("a:x  1000 JPY", "a:x  1,000. JPY"),
        ("a:x  999 JPY", "a:x  999 JPY"),
        ("a:x  -0 JPY", "a:x  0 JPY"),
        ("a:x  \"kg2\"-1500", "a:x  -1500 \"kg2\""),
        ("a:x  1EUR=$2", "a:x  1.00 EUR = $2.00"),
        ("a:x  1EUR==$2", "a:x  1.00 EUR == $2.00"),
        ("a:x  1EUR=*$2", "a:x  1.00 EUR =* $2.00"),
        ("a:x  1EUR@€2==*$2", "a:x  1.00 EUR @ €2.00 ==* $2.00"),
        ("!a:x", "! a:x"),
        ("*\ta b:x", "* a b:x"),
        ("a:x;", "a:x\n    ;"),
        ("a:x  ; b ", "a:x\n    ; b"),
    ];
    assert_below(&rt, rt.alloc(), ROWS);
}

/// Asserts that the first transaction of each text has the body.
fn assert_bodies(rt: &impl Abort, alloc: Global, rows: &[(&str, &str)]) {
    let styles = declared_styles(rt, alloc);
    for (text, expected) in rows {
        let printed = body_of(rt, alloc, *text, &styles);
        assert_eq!(rt; printed.as_slice(), expected.as_bytes(), "{text:?}");
    }
}

#[test]
fn a_header_prints_in_one_form(rt: HostRuntime) {
    const ROWS: &[(&str, &str)] = &[
        ("2024/1/5 hall", ">2024-01-05 hall\n"),
        ("2024.01.05  hall", ">2024-01-05 hall\n"),
        ("2024-01-05 hall", ">2024-01-05 hall\n"),
        ("2024-01-05", ">2024-01-05\n"),
        ("2024-01-05 ()", ">2024-01-05 ()\n"),
        (
            "2024-01-05 *(7)  two  words ",
            ">2024-01-05 * (7) two  words\n",
        ),
        ("2024-01-05 ! x;", ">2024-01-05 ! x\n    ;\n"),
        ("2024-01-05 x ; bookid:k-1", ">2024-01-05 x\n"),
        (
            "2024-01-05 x ; bookid:k 1",
            ">2024-01-05 x\n    ; bookid:k 1\n",
        ),
    ];
    assert_bodies(&rt, rt.alloc(), ROWS);
}

/// Adds the texts of two transactions that can be printed.
fn push_both(
    rt: &impl Abort,
    alloc: Global,
    first: Txn,
    second: Txn,
    styles: &Styles,
    out: &mut Vec<u8>,
) {
    if is_printable(&first, styles) && is_printable(&second, styles) {
        let txns = [first, second];
        assert!(rt; print_journal(alloc, &txns, styles, out) == Ok(()));
    }
}

#[test]
fn a_list_prints_with_an_empty_line_behind_each(rt: HostRuntime) {
    let alloc = rt.alloc();
    let styles = declared_styles(&rt, alloc);
    let first = transaction(&rt, alloc, "2024-01-05 x\n a:x ; y", &styles);
    let second = transaction(&rt, alloc, "2024-01-04 ; bookid:k", &styles);
    let mut out = Vec::new(alloc);
    out.push(b'>').expect(&rt, "memory");
    push_both(&rt, alloc, first, second, &styles, &mut out);
    let expected = ">2024-01-05 x\n    a:x\n    ; y\n\n2024-01-04\n    ; bookid:k\n\n";
    assert_eq!(rt; out.as_slice(), expected.as_bytes());
}

/// An equal value, through the bound.
fn copied<T: Copied>(rt: &impl Abort, value: &T) -> T {
    value.copy().expect(rt, "memory")
}

/// Asserts that copies of the postings are on `a:x`, with a comment each.
fn assert_copied(rt: &impl Abort, postings: &[Posting]) {
    for posting in postings {
        let again = copied(rt, posting);
        assert_eq!(rt; again.account.as_str(), "a:x");
        assert_eq!(rt; again.comments.items().len(), 1);
    }
}

#[test]
fn copies_are_equal(rt: HostRuntime) {
    let alloc = rt.alloc();
    let styles = declared_styles(&rt, alloc);
    let text =
        "2024-01-05 * (7) x ; y\n    ; bookid:k\n    ! a:x  1.00 EUR @ $2.00 == 3.00 EUR  ; z";
    let expected =
        "2024-01-05 * (7) x\n    ; bookid:k\n    ; y\n    ! a:x  1.00 EUR @ $2.00 == 3.00 EUR\n    ; z\n";
    for located in &transactions(&rt, alloc, text, &styles) {
        let copy = copied(&rt, located);
        assert_eq!(rt; copy.line, 1);
        assert_copied(&rt, located.txn.postings.items());
        let txn = copied(&rt, &copy.txn);
        let mut out = Vec::new(alloc);
        push_printed(&rt, alloc, &txn, &styles, &mut out);
        assert_eq!(rt; out.as_slice(), expected.as_bytes());
    }
}
