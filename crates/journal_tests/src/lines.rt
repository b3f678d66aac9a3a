//! Tables of lines, dates, headers, account names and tags.

use journal_lines::{
    Cause, Day, Header, LineKind, Lines, MAX_CODE, MAX_DESCRIPTION, Status, comment_len,
    comment_of, header_len, is_account, is_block_end, is_clean, is_code, is_comment, is_day_number,
    is_description, is_remark, is_reserved, kind, print_comment, print_date, print_header,
    read_date, read_header, tags,
};
use std::alloc::Global;
use std::process::Abort;
use std::test::Fail;

/// The lines of a text, each with its number.
fn lines_of(alloc: Global, text: &[u8]) -> Result<Vec<u8>, Fail> {
    let mut seen = Vec::new(alloc);
    for (number, line) in Lines::new(text) {
        seen.extend_from_slice(number.to_string(alloc)?.as_bytes())?;
        seen.push(b':')?;
        seen.extend_from_slice(line)?;
        seen.push(b'|')?;
    }
    Ok(seen)
}

/// Asserts the lines of each text.
fn assert_lines(rt: &impl Abort, alloc: Global, rows: &[(&str, &str)]) -> Result<(), Fail> {
    for (text, expected) in rows {
        let seen = lines_of(alloc, text.as_bytes())?;
        assert_eq!(rt; seen.as_slice(), expected.as_bytes(), "{text:?}");
    }
    Ok(())
}

#[test]
fn a_line_ends_at_lf_with_one_cr_before_it(rt: HostRuntime) -> Result<(), Fail> {
    const ROWS: &[(&str, &str)] = &[
        ("", ""),
        ("\n", "1:|"),
        ("a\r\nb\r\n", "1:a|2:b|"),
        ("a\rb\n", "1:a\rb|"),
        ("a\r", "1:a|"),
        ("a\r\r\n", "1:a\r|"),
        ("\r", "1:|"),
        ("a\nb", "1:a|2:b|"),
        ("\n\nc", "1:|2:|3:c|"),
    ];
    assert_lines(&rt, rt.alloc(), ROWS)
}

/// Asserts the kind of each line.
fn assert_kinds(rt: &impl Abort, rows: &[(&str, LineKind)]) {
    for (line, expected) in rows {
        assert_eq!(rt; kind(line.as_bytes()), *expected, "{line:?}");
    }
}

#[test]
fn a_line_is_told_by_its_first_byte_or_word(rt: HostRuntime) {
    const ROWS: &[(&str, LineKind)] = &[
        ("", LineKind::Blank),
        (" \t", LineKind::Blank),
        ("; x", LineKind::Comment),
        ("# x", LineKind::Comment),
        ("* x", LineKind::Comment),
        ("comment \t", LineKind::Block),
        ("comment x", LineKind::Unknown),
        ("end comment", LineKind::Unknown),
        ("2024-01-05 x", LineKind::Header),
        (" comment", LineKind::Indented),
        ("\t; x", LineKind::Indented),
        ("commodity", LineKind::Commodity),
        ("commodity\tEUR", LineKind::Commodity),
        ("commodity;x", LineKind::Unknown),
        ("account a:b", LineKind::Skipped),
        ("payee", LineKind::Skipped),
        ("tag x", LineKind::Skipped),
        ("P 2024-01-05 EUR $1.10", LineKind::Skipped),
        ("Price", LineKind::Unknown),
        ("include other.journal", LineKind::Unknown),
    ];
    assert_kinds(&rt, ROWS);
    assert!(rt; is_block_end(b"end comment \t"));
    assert!(rt; !is_block_end(b"end comments"));
}

/// Asserts the day that each text is.
fn assert_dates(rt: &impl Abort, rows: &[(&str, Option<Day>)]) {
    for (text, expected) in rows {
        assert_eq!(rt; read_date(text.as_bytes()), *expected, "{text:?}");
    }
}

#[test]
fn a_date_is_read_in_three_spellings(rt: HostRuntime) {
    const ROWS: &[(&str, Option<Day>)] = &[
        ("2024-01-05", Some(Day(19727))),
        ("2024/01/05", Some(Day(19727))),
        ("2024.01.05", Some(Day(19727))),
        ("2024-1-5", Some(Day(19727))),
        ("1970-01-01", Some(Day(0))),
        ("0001-01-01", Some(Day(-719_162))),
        ("9999-12-31", Some(Day(2_932_896))),
        ("2024-02-29", Some(Day(19782))),
        ("2023-02-29", None),
        ("2024-02-30", None),
        ("2024-1/5", None),
        ("0000-01-01", None),
        ("2024-13-05", None),
        ("2024-01-005", None),
        ("24-01-05", None),
        ("2024-01", None),
        ("2024-01-05 ", None),
        ("", None),
    ];
    assert_dates(&rt, ROWS);
}

/// Asserts how each day is printed after a `>`.
fn assert_dates_printed(rt: &impl Abort, alloc: Global, rows: &[(Day, &str)]) -> Result<(), Fail> {
    for (day, expected) in rows {
        let mut out = Vec::from_slice(alloc, b">")?;
        if is_day_number(*day) {
            assert!(rt; print_date(alloc, *day, &mut out) == Ok(()));
        }
        assert_eq!(rt; out.as_slice(), expected.as_bytes());
    }
    Ok(())
}

#[test]
fn a_date_is_printed_in_ten_bytes(rt: HostRuntime) -> Result<(), Fail> {
    const ROWS: &[(Day, &str)] = &[
        (Day(19727), ">2024-01-05"),
        (Day(0), ">1970-01-01"),
        (Day(-719_162), ">0001-01-01"),
        (Day(2_932_896), ">9999-12-31"),
    ];
    assert!(rt; !is_day_number(Day(-719_163)));
    assert!(rt; !is_day_number(Day(2_932_897)));
    assert_dates_printed(&rt, rt.alloc(), ROWS)
}

/// The bytes of a text that may be absent.
fn bytes_of(text: Option<&str>) -> Option<&[u8]> {
    match text {
        Some(text) => Some(text.as_bytes()),
        None => None,
    }
}

/// The header of 2024-01-05 with these parts.
fn header<'a>(
    status: Option<Status>,
    code: Option<&'a str>,
    description: &'a str,
    comment: Option<&'a str>,
) -> Header<'a> {
    Header {
        day: Day(19727),
        status,
        code: bytes_of(code),
        description: description.as_bytes(),
        comment: bytes_of(comment),
    }
}

/// Asserts the parts of the header that each line is.
fn assert_headers(
    rt: &impl Abort,
    rows: &[(&str, Option<Status>, Option<&str>, &str, Option<&str>)],
) {
    for (line, status, code, description, comment) in rows {
        let expected = header(*status, *code, *description, *comment);
        assert_eq!(rt; read_header(line.as_bytes()), Ok(expected), "{line:?}");
    }
}

#[test]
fn a_header_has_a_date_and_four_optional_parts(rt: HostRuntime) {
    const CLEARED: Option<Status> = Some(Status::Cleared);
    const PENDING: Option<Status> = Some(Status::Pending);
    const ROWS: &[(&str, Option<Status>, Option<&str>, &str, Option<&str>)] = &[
        (
            "2024-01-05 * (7) hall ; rent",
            CLEARED,
            Some("7"),
            "hall",
            Some("rent"),
        ),
        (
            "2024-01-05 (7) hall ; rent",
            None,
            Some("7"),
            "hall",
            Some("rent"),
        ),
        (
            "2024-01-05 * hall ; rent",
            CLEARED,
            None,
            "hall",
            Some("rent"),
        ),
        (
            "2024-01-05 * (7) ; rent",
            CLEARED,
            Some("7"),
            "",
            Some("rent"),
        ),
        ("2024-01-05 * (7) hall", CLEARED, Some("7"), "hall", None),
        ("2024-01-05", None, None, "", None),
        ("2024-01-05;", None, None, "", Some("")),
        (
            "2024-01-05\t!(a(b )hall  two\t;x;y ",
            PENDING,
            Some("a(b "),
            "hall  two",
            Some("x;y"),
        ),
        ("2024-01-05 ()", None, Some(""), "", None),
        ("2024-01-05 * ! x", CLEARED, None, "! x", None),
        ("2024-01-05 (a) * x", None, Some("a"), "* x", None),
    ];
    assert_headers(&rt, ROWS);
}

/// Asserts the first fault of each line.
fn assert_no_headers(rt: &impl Abort, rows: &[(&str, Cause)]) {
    for (line, cause) in rows {
        assert_eq!(rt; read_header(line.as_bytes()), Err(*cause), "{line:?}");
    }
}

#[test]
fn a_header_is_refused_by_its_first_fault(rt: HostRuntime) {
    const ROWS: &[(&str, Cause)] = &[
        ("2024-01-05* x", Cause::Date),
        ("2024-13-05 x", Cause::Date),
        ("", Cause::Date),
        (" 2024-01-05 x", Cause::Date),
        ("2024-13-05 (x", Cause::Date),
        ("2024-01-05 (x", Cause::Header),
        ("2024-01-05 (x ; )", Cause::Header),
    ];
    assert_no_headers(&rt, ROWS);
}

/// So many letters between two texts.
fn line_with(alloc: Global, front: &str, count: usize, behind: &str) -> Result<Vec<u8>, Fail> {
    let mut line = Vec::from_slice(alloc, front.as_bytes())?;
    line.extend_from_slice(vec![in alloc; b'a'; count]?.as_slice())?;
    line.extend_from_slice(behind.as_bytes())?;
    Ok(line)
}

/// Asserts of each row that a header takes so many letters and no more: what stands before them, their number, what
/// stands after, and whether that header has another fault.
fn assert_limits(
    rt: &impl Abort,
    alloc: Global,
    rows: &[(&str, u16, &str, bool)],
) -> Result<(), Fail> {
    for (front, most, behind, has_fault) in rows {
        let most = usize::from(*most);
        let line = line_with(alloc, *front, most, *behind)?;
        assert_eq!(rt;
            read_header(line.as_slice()).is_err(),
            *has_fault,
            "{front:?}"
        );
        let line = line_with(alloc, *front, most + 1, *behind)?;
        assert_eq!(rt;
            read_header(line.as_slice()),
            Err(Cause::TooLong),
            "{front:?}"
        );
    }
    Ok(())
}

#[test]
fn the_parts_of_a_header_have_limits(rt: HostRuntime) -> Result<(), Fail> {
    const ROWS: &[(&str, u16, &str, bool)] = &[
        ("2024-01-05 (", 100, ") x", false),
        ("2024-01-05 x", 499, "", false),
        ("2024-01-05 x ; ", 900, "", false),
        ("2024-13-05 (x ; ", 900, "", true),
    ];
    assert_limits(&rt, rt.alloc(), ROWS)
}

/// Asserts of each text whether it is an account name.
fn assert_accounts(rt: &impl Abort, rows: &[(&str, bool)]) {
    for (name, expected) in rows {
        assert_eq!(rt; is_account(name.as_bytes()), *expected, "{name:?}");
    }
}

#[test]
fn an_account_name_is_well_formed(rt: HostRuntime) -> Result<(), Fail> {
    const ROWS: &[(&str, bool)] = &[
        ("assets", true),
        ("assets:bank", true),
        ("a b", true),
        ("\u{e9}:x", true),
        ("", false),
        (":a", false),
        ("a:", false),
        ("assets::x", false),
        ("a  b", false),
        (" a", false),
        ("a ", false),
        ("a\tb", false),
        ("a;b", false),
        ("a\u{7f}", false),
        ("*a", false),
        ("!a", false),
        ("(a)", false),
        ("[a]", false),
    ];
    assert_accounts(&rt, ROWS);
    assert!(rt; is_account(vec![in rt.alloc(); b'a'; 200]?.as_slice()));
    assert!(rt; !is_account(vec![in rt.alloc(); b'a'; 201]?.as_slice()));
    Ok(())
}

/// Asserts of each account whether it is reserved.
fn assert_reserved(rt: &impl Abort, rows: &[(&str, bool)]) {
    for (account, expected) in rows {
        assert_eq!(rt; is_reserved(account.as_bytes()), *expected, "{account:?}");
    }
}

#[test]
fn the_transit_account_and_those_below_are_reserved(rt: HostRuntime) {
    const ROWS: &[(&str, bool)] = &[
        ("assets:transit", true),
        ("assets:transit:north:south", true),
        ("assets:transits", false),
        ("assets", false),
        ("Assets:transit", false),
        ("x:assets:transit", false),
    ];
    assert_reserved(&rt, ROWS);
}

/// The tags of a comment.
fn tags_of(alloc: Global, comment: &[u8]) -> Result<Vec<u8>, Fail> {
    let mut seen = Vec::new(alloc);
    for (name, value) in tags(comment) {
        seen.extend_from_slice(name)?;
        seen.push(b'=')?;
        seen.extend_from_slice(value)?;
        seen.push(b'|')?;
    }
    Ok(seen)
}

/// Asserts the tags of each comment.
fn assert_tags(rt: &impl Abort, alloc: Global, rows: &[(&str, &str)]) -> Result<(), Fail> {
    for (comment, expected) in rows {
        let seen = tags_of(alloc, comment.as_bytes())?;
        assert_eq!(rt; seen.as_slice(), expected.as_bytes(), "{comment:?}");
    }
    Ok(())
}

#[test]
fn a_tag_is_a_word_before_a_colon(rt: HostRuntime) -> Result<(), Fail> {
    const ROWS: &[(&str, &str)] = &[
        ("vendor:ACME, due: friday", "vendor=ACME|due=friday|"),
        ("a b:c d:e, f:g", "b=c d:e|f=g|"),
        ("\u{e9}:1", ""),
        ("-:1", "-=1|"),
        ("a:", "a=|"),
        (":a", ""),
        ("a :b", ""),
        ("x,y_1:\t2 ,", "y_1=2|"),
        ("", ""),
    ];
    assert_tags(&rt, rt.alloc(), ROWS)
}

/// Asserts of each line whether it is a comment line.
fn assert_remarks(rt: &impl Abort, rows: &[(&str, bool)]) {
    for (line, expected) in rows {
        assert_eq!(rt; is_remark(line.as_bytes()), *expected, "{line:?}");
    }
}

#[test]
fn an_indented_line_is_a_comment_line_by_its_first_byte(rt: HostRuntime) {
    const ROWS: &[(&str, bool)] = &[
        ("    ; x", true),
        ("\t;", true),
        ("    a:b  1 EUR ; x", false),
        ("    * a:b", false),
    ];
    assert_remarks(&rt, ROWS);
}

/// How long a header line is measured, or 0 where a part is too long for one.
fn measured(status: Option<Status>, code: Option<&[u8]>, description: &[u8]) -> usize {
    if description.len() > MAX_DESCRIPTION {
        return 0;
    }
    match code {
        Some(text) if text.len() > MAX_CODE => 0,
        Some(text) => header_len(status, Some(text), description),
        None => header_len(status, None, description),
    }
}

/// Asserts how a header is printed after what was there, that it is so long, and that it reads back.
fn assert_header_printed(
    rt: &impl Abort,
    alloc: Global,
    parts: &Header<'_>,
    expected: &str,
) -> Result<(), Fail> {
    let mut out = Vec::from_slice(alloc, b">")?;
    if is_day_number(parts.day) {
        let printed = print_header(
            parts.day,
            parts.status,
            parts.code,
            parts.description,
            &mut out,
        );
        assert!(rt; printed == Ok(()));
    }
    assert!(rt; out.as_slice().strip_prefix(b">".as_slice()) == Some(expected.as_bytes()));
    assert_eq!(rt;
        measured(parts.status, parts.code, parts.description),
        expected.len()
    );
    assert_eq!(rt; read_header(expected.as_bytes()), Ok(*parts));
    Ok(())
}

/// Asserts how each header is printed: its status, its code, its description, the text.
fn assert_headers_printed<'a>(
    rt: &impl Abort,
    alloc: Global,
    rows: &[(Option<Status>, Option<&'a str>, &'a str, &str)],
) -> Result<(), Fail> {
    for (status, code, description, expected) in rows {
        let parts = header(*status, *code, *description, None);
        assert_header_printed(rt, alloc, &parts, *expected)?;
    }
    Ok(())
}

#[test]
fn a_header_is_printed_as_it_reads(rt: HostRuntime) -> Result<(), Fail> {
    const ROWS: &[(Option<Status>, Option<&str>, &str, &str)] = &[
        (None, None, "", "2024-01-05"),
        (Some(Status::Cleared), None, "hall", "2024-01-05 * hall"),
        (
            Some(Status::Pending),
            Some("17"),
            "rent of May",
            "2024-01-05 ! (17) rent of May",
        ),
        (None, Some(""), "", "2024-01-05 ()"),
        (None, Some("a"), "* x", "2024-01-05 (a) * x"),
    ];
    assert_headers_printed(&rt, rt.alloc(), ROWS)
}

/// Asserts how a comment is printed after what was there, that it is so long, and that it reads back.
fn assert_comment_printed(
    rt: &impl Abort,
    alloc: Global,
    text: &[u8],
    expected: &[u8],
) -> Result<(), Fail> {
    let mut out = Vec::from_slice(alloc, b">")?;
    assert!(rt; print_comment(text, &mut out) == Ok(()));
    assert!(rt; out.as_slice().strip_prefix(b">".as_slice()) == Some(expected));
    assert_eq!(rt; comment_len(text), expected.len());
    assert_eq!(rt; comment_of(expected), Some(text));
    Ok(())
}

/// Asserts how each comment is printed.
fn assert_comments_printed(
    rt: &impl Abort,
    alloc: Global,
    rows: &[(&str, &str)],
) -> Result<(), Fail> {
    for (text, expected) in rows {
        assert_comment_printed(rt, alloc, text.as_bytes(), expected.as_bytes())?;
    }
    Ok(())
}

#[test]
fn a_comment_is_printed_as_it_reads(rt: HostRuntime) -> Result<(), Fail> {
    const ROWS: &[(&str, &str)] = &[
        ("", "    ;"),
        ("x", "    ; x"),
        ("a ; b:c", "    ; a ; b:c"),
    ];
    assert_comments_printed(&rt, rt.alloc(), ROWS)
}

/// Asserts of each text whether it is a comment, a code, a description.
fn assert_tests(rt: &impl Abort, rows: &[(&str, bool, bool, bool)]) {
    for (text, comment, code, description) in rows {
        let bytes = text.as_bytes();
        assert_eq!(rt; is_comment(bytes), *comment, "{text:?}");
        assert_eq!(rt; is_code(Some(bytes)), *code, "{text:?}");
        assert_eq!(rt; is_description(None, None, bytes), *description, "{text:?}");
    }
}

#[test]
fn texts_that_read_back_pass_their_tests(rt: HostRuntime) -> Result<(), Fail> {
    const ROWS: &[(&str, bool, bool, bool)] = &[
        ("", true, true, true),
        ("x y", true, true, true),
        ("x ", false, true, false),
        ("x;y", true, false, false),
        ("x)", true, false, true),
        ("(x", true, true, false),
        ("* x", true, true, false),
        ("x\ty", true, true, true),
        ("x\u{7f}", false, false, false),
    ];
    assert_tests(&rt, ROWS);
    assert!(rt; is_description(Some(Status::Cleared), None, b"* x"));
    assert!(rt; is_description(None, Some(b"a"), b"(x"));
    assert!(rt; is_clean(b"a\tb"));
    assert!(rt; !is_clean(b"a\rb"));
    assert!(rt; is_comment(vec![in rt.alloc(); b'a'; 900]?.as_slice()));
    assert!(rt; !is_comment(vec![in rt.alloc(); b'a'; 901]?.as_slice()));
    Ok(())
}
