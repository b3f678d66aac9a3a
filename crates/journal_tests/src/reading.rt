//! Whole journals and their answers, row by row.

use journal_format::{Posting, Txn, read_journal};
use journal_lines::Status;
use money_core::{Styles, Text, read_style};
use std::alloc::Global;
use std::process::Abort;

/// Declares the commodities of the samples, in this order.
fn declare_all(rt: &impl Abort, alloc: Global, styles: &mut Styles, samples: &[&str]) {
    for sample in samples {
        let style = read_style(alloc, *sample).expect(rt, "a sample");
        assert!(rt; styles.declare(style).is_ok());
    }
}

/// The commodities of the samples `1,000.00 EUR`, `$1,000.00` and `1.0 "a=b"`, in this order.
fn declared_styles(rt: &impl Abort, alloc: Global) -> Styles {
    const SAMPLES: &[&str] = &["1,000.00 EUR", "$1,000.00", "1.0 \"a=b\""];
    let mut styles = Styles::empty(alloc);
    declare_all(rt, alloc, &mut styles, SAMPLES);
    styles
}

/// Line 0 and the number of transactions, or the line and the number of the first fault.
fn answer(alloc: Global, text: &[u8], styles: &Styles) -> (usize, usize) {
    match read_journal(alloc, text, styles) {
        Ok(list) => (0, list.len()),
        Err(fault) => (fault.line, fault.cause.nr() as usize),
    }
}

/// Adds the text after what is there, so many times.
fn push_text(rt: &impl Abort, out: &mut Vec<u8>, text: &str, count: usize) {
    for _ in 0..count {
        out.extend_from_slice(text.as_bytes()).expect(rt, "memory");
    }
}

/// The answer to a text with a part that is repeated: what stands before it, the part, how often, what follows.
fn answer_repeated(
    rt: &impl Abort,
    alloc: Global,
    front: &str,
    part: &str,
    count: usize,
    back: &str,
) -> (usize, usize) {
    let mut text = Vec::new(alloc);
    push_text(rt, &mut text, front, 1);
    push_text(rt, &mut text, part, count);
    push_text(rt, &mut text, back, 1);
    let styles = declared_styles(rt, alloc);
    answer(alloc, text.as_slice(), &styles)
}

/// Asserts the answers to texts with a part that is repeated.
fn assert_repeated(
    rt: &impl Abort,
    alloc: Global,
    rows: &[(&str, &str, usize, &str, (usize, usize))],
) {
    for (front, part, count, back, wanted) in rows {
        let found = answer_repeated(rt, alloc, *front, *part, *count, *back);
        assert_eq!(rt; found, *wanted, "{front:?} {part:?} {count} {back:?}");
    }
}

/// Each transaction by its header's line and its parts, the mark in `<>`, comments in `[]`; then its postings, each
/// with its quantity, `@` for a price and `=` for an assertion.
fn shown(rt: &impl Abort, alloc: Global, text: &[u8], styles: &Styles) -> Vec<u8> {
    let mut out = Vec::new(alloc);
    if let Ok(list) = read_journal(alloc, text, styles) {
        for item in &list {
            let line = item.line.to_string(alloc).expect(rt, "memory");
            push_text(rt, &mut out, line.as_str(), 1);
            push_header(rt, &mut out, &item.txn);
            push_postings(rt, alloc, &mut out, item.txn.postings.items());
            push_text(rt, &mut out, "\n", 1);
        }
    }
    out
}

fn push_header(rt: &impl Abort, out: &mut Vec<u8>, txn: &Txn) {
    push_status(rt, out, txn.status);
    push_between(rt, out, " (", txn.code.as_ref(), ")");
    push_between(rt, out, " ", Some(&txn.description), "");
    push_between(rt, out, " <", txn.mark.as_ref(), ">");
    push_comments(rt, out, txn.comments.items());
}

fn push_postings(rt: &impl Abort, alloc: Global, out: &mut Vec<u8>, postings: &[Posting]) {
    for posting in postings {
        push_text(rt, out, " /", 1);
        push_status(rt, out, posting.status);
        push_between(rt, out, " ", Some(&posting.account), "");
        push_values(rt, alloc, out, posting);
        push_comments(rt, out, posting.comments.items());
    }
}

fn push_values(rt: &impl Abort, alloc: Global, out: &mut Vec<u8>, posting: &Posting) {
    if let Some((_, qty)) = posting.amount {
        let qty = qty.to_string(alloc).expect(rt, "memory");
        push_text(rt, out, " ", 1);
        push_text(rt, out, qty.as_str(), 1);
    }
    if posting.price.is_some() {
        push_text(rt, out, " @", 1);
    }
    if posting.claim.is_some() {
        push_text(rt, out, " =", 1);
    }
}

fn push_status(rt: &impl Abort, out: &mut Vec<u8>, status: Option<Status>) {
    match status {
        Some(Status::Cleared) => push_text(rt, out, " *", 1),
        Some(Status::Pending) => push_text(rt, out, " !", 1),
        None => {}
    }
}

fn push_between(rt: &impl Abort, out: &mut Vec<u8>, front: &str, text: Option<&Text>, back: &str) {
    if let Some(text) = text {
        push_text(rt, out, front, 1);
        push_text(rt, out, text.as_str(), 1);
        push_text(rt, out, back, 1);
    }
}

fn push_comments(rt: &impl Abort, out: &mut Vec<u8>, comments: &[Text]) {
    for comment in comments {
        push_between(rt, out, " [", Some(comment), "]");
    }
}

#[test]
fn a_limit_is_passed_by_one_more(rt: HostRuntime) {
    const ROWS: &[(&str, &str, usize, &str, (usize, usize))] = &[
        ("", "a", 1001, "", (1, 2)),
        (";", "a", 999, "", (0, 0)),
        (";", "a", 1000, "", (1, 2)),
        ("comment\n", "a", 1001, "", (2, 2)),
        ("comment\n", "a", 1000, "", (0, 0)),
        ("account\n    ", "a", 997, "", (2, 2)),
        ("2024-01-05 (", "a", 100, ")", (0, 1)),
        ("2024-01-05 (", "a", 101, ")", (1, 2)),
        ("2024-01-05 ", "a", 500, "", (0, 1)),
        ("2024-01-05 ", "a", 501, "", (1, 2)),
        ("2024-13-05 ", "a", 501, "", (1, 2)),
        ("2024-01-05 ", "a", 501, "\u{1}", (1, 2)),
        ("2024-13-05 (", "a", 501, "", (1, 3)),
        ("2024-01-05 ;  ", "a", 900, "  ", (0, 1)),
        ("2024-01-05 ;", "a", 901, "", (1, 2)),
        ("2024-01-05\n    ;  ", "a", 900, "  ", (0, 1)),
        ("2024-01-05\n    ;", "a", 901, "", (2, 2)),
        ("2024-01-05\n    a:x  ;  ", "a", 900, "  ", (0, 1)),
        ("2024-01-05\n    a:x  ;", "a", 901, "", (2, 2)),
        ("2024-01-05\n    (a:x)  ;", "a", 901, "\u{1}", (2, 2)),
        ("    ;", "a", 995, "", (0, 0)),
        ("commodity EUR ;", "a", 950, "", (0, 0)),
        ("2024-01-05\n    ", "a", 200, "", (0, 1)),
        ("2024-01-05\n    ", "a", 201, "", (2, 7)),
        ("2024-01-05\n    (", "a", 201, ")", (2, 15)),
        (
            "2024-01-05\n    ; bookid:",
            "a",
            100,
            "\n    ; bookid:b",
            (3, 16),
        ),
        (
            "2024-01-05\n    ; bookid:",
            "a",
            101,
            "\n    ; bookid:b",
            (0, 1),
        ),
        ("2024-01-05\n", " a\n", 1000, "", (0, 1)),
        ("2024-01-05\n", " a\n", 1001, "", (1002, 2)),
        ("2024-01-05\n", " a\n", 1000, " ; c", (0, 1)),
        ("2024-01-05\n", " a\n", 1000, " (a)\u{1}", (1002, 2)),
        ("", "2024-01-05\n", 5000, "", (0, 5000)),
        ("", "2024-01-05\n", 5001, "", (5001, 2)),
        ("", "2024-01-05\n", 5000, "2024-13-05 \u{1}", (5001, 2)),
    ];
    assert_repeated(&rt, rt.alloc(), ROWS);
}

// Each line of the body is `    ;` and its end, after the 13 bytes of the header.
#[test]
fn a_body_has_at_most_1_000_000_bytes(rt: HostRuntime) {
    const ROWS: &[(&str, &str, usize, &str, (usize, usize))] = &[
        ("2024-01-05 x\n", " ;\n", 166_664, "", (0, 1)),
        ("2024-01-05 x\n", " ;\n", 166_665, "", (166_666, 2)),
    ];
    assert_repeated(&rt, rt.alloc(), ROWS);
}

#[test]
fn a_text_has_at_most_1_mib(rt: HostRuntime) {
    const ROWS: &[(&str, &str, usize, &str, (usize, usize))] = &[
        ("", "\n", 1_048_576, "", (0, 0)),
        ("x", "\n", 1_048_576, "", (1, 2)),
    ];
    assert_repeated(&rt, rt.alloc(), ROWS);
}

#[test]
fn a_byte_that_is_no_text_is_1(rt: HostRuntime) {
    let alloc = rt.alloc();
    let styles = declared_styles(&rt, alloc);
    assert_eq!(rt; answer(alloc, b"\xff".as_slice(), &styles), (1, 1));
    assert_eq!(rt; answer(alloc, b"comment\n\xff".as_slice(), &styles), (2, 1));
}

/// Asserts that each text has the transactions.
fn assert_shown(rt: &impl Abort, alloc: Global, rows: &[(&str, &str)]) {
    let styles = declared_styles(rt, alloc);
    for (text, wanted) in rows {
        let found = shown(rt, alloc, text.as_bytes(), &styles);
        assert_eq!(rt; found.as_slice(), wanted.as_bytes(), "{text:?}");
    }
}

// hledger manual, "Comments", "Status", "Code", "Directives"; marks are an own rule.
#[test]
fn a_journal_has_its_transactions(rt: HostRuntime) {
    const ROWS: &[(&str, &str)] = &[
        ("2024-01-05 * (17) hall ; paid\n", "1 * (17) hall [paid]\n"),
        ("2024-01-05 x ;", "1 x []\n"),
        ("2024-01-05 !()x", "1 ! () x\n"),
        (
            "2024-01-05 x\n  ; bookid: r-1\n  ;\n  a:x\n",
            "1 x <r-1> [] / a:x\n",
        ),
        ("2024-01-05 x ; bookid:a b\n", "1 x [bookid:a b]\n"),
        (
            "2024-01-05 x\n ; of x\n a:x  1.00 EUR;of a\n ; bookid:b\n !a:y  1 EUR @ $2=$3\n",
            "1 x [of x] / a:x 100 [of a] [bookid:b] / ! a:y 100 @ =\n",
        ),
        (
            "account a:x\n  x y\ncomment\n2024-13-01\nend comment\r\n\r\n2024-01-05 a\r\n    a:x  1.00 EUR\r\nP x\npayee y\ntag z\n2024-01-06 b",
            "7 a / a:x 100\n12 b\n",
        ),
        (
            "2024-01-05 a\n    a:x  1.00 EUR\n2024-01-06 b",
            "1 a / a:x 100\n3 b\n",
        ),
        (
            "2024-01-05 x\n * a:x;y  1 EUR\n a b = 5 EUR\n",
            "1 x / * a:x [y  1 EUR] / a b = 5 EUR\n",
        ),
    ];
    assert_shown(&rt, rt.alloc(), ROWS);
}
