//! Which transactions can be printed, and read again.

ghost use Rattle.std.specs.Prelude.{◌≡◌, ◌↔◌, ◌≤◌, ◌&&◌, nat_le, length, true, IsTrue};
ghost use Rattle.std.specs.List.{list_all};
ghost use Rattle.std.specs.Str.{is_utf8};
ghost use Rattle.journal_lines.specs.AccountName.{is_account};
ghost use Rattle.journal_lines.specs.Printed.{HeaderOk};
ghost use Rattle.journal_format.specs.CanonicalText.{body_text};
ghost use Rattle.journal_format.specs.Printable.{is_remark_text, is_note, is_mark_or_none, is_amount, is_price_or_none};
ghost use Rattle.journal_lines.specs.Utf8.{is_utf8_or_none};
ghost use Rattle.journal_format.specs.Printable.{is_claim_or_none, is_value, is_posting, IsPrintable};
ghost use Rattle.journal_format.specs.Printable.{ReadsBackAlone};
ghost use Rattle.journal_format.specs.PrintedParts.{header_part, comments_part, posting_part, postings_part};
ghost use Rattle.journal_format.specs.PrintedParts.{has_good_lines};
ghost use Rattle.journal_format.specs.Room.{room_behind};

use crate::body_size::{MAX_BODY, line_size, remark_size};
use crate::entry::MAX_POSTINGS;
use crate::posting::Posting;
use crate::printing::bytes_of;
use crate::remark::{is_mark, mark_of};
use crate::txn::Txn;
use journal_lines::{header_len, is_account, is_code, is_comment, is_day_number, is_description};
use money_core::{Claim, Price, Styles, Text, Unit, is_declared, is_price};

/// Whether the text of a comment reads back.
fn is_remark_text(text: &str) -> bool
    ensures { result ≡ is_remark_text text.now }
{
    is_comment(text.as_bytes())
}

/// Whether the comment of a transaction reads back: it is no mark.
fn is_note(text: &str) -> bool
    ensures { result ≡ is_note text.now }
{
    is_remark_text(text) && mark_of(text.as_bytes()).is_none()
}

fn are_notes(comments: &[Text]) -> bool
    ensures { result ≡ list_all is_note comments.now }
{
    comments.iter().all(|comment| is_note(comment.as_str()))
}

fn are_remark_texts(comments: &[Text]) -> bool
    ensures { result ≡ list_all is_remark_text comments.now }
{
    comments
        .iter()
        .all(|comment| is_remark_text(comment.as_str()))
}

fn is_mark_or_none(mark: &Option<Text>) -> bool
    ensures { result ≡ is_mark_or_none mark.now }
{
    match mark {
        Some(mark) => is_mark(mark.as_str().as_bytes()),
        None => true,
    }
}

/// Whether the parts of a header read back; they are UTF-8.
fn is_header(txn: &Txn) -> bool
    ensures parts { IsTrue result ↔ HeaderOk txn.now.day txn.now.status txn.now.code txn.now.description }
    ensures code { is_utf8_or_none txn.now.code ≡ true }
    ensures description { is_utf8 txn.now.description ≡ true }
{
    txn.description.is_text();
    let code = bytes_of(&txn.code);
    let description = txn.description.as_str().as_bytes();
    is_day_number(txn.day) && is_code(code) && is_description(txn.status, code, description)
}

fn is_amount(styles: &Styles, unit: Unit, qty: i64) -> bool
    ensures { result ≡ is_amount styles.now unit qty }
{
    is_declared(unit, qty, styles)
}

fn is_price_or_none(styles: &Styles, price: &Option<Price>) -> bool
    ensures { result ≡ is_price_or_none styles.now price.now }
{
    match price {
        Some(price) => is_price(price, styles),
        None => true,
    }
}

fn is_claim_or_none(styles: &Styles, claim: Option<Claim>) -> bool
    ensures { result ≡ is_claim_or_none styles.now claim }
{
    match claim {
        Some(claim) => is_amount(styles, claim.unit, claim.qty),
        None => true,
    }
}

/// Whether the amount of a posting, with its price and its assertion, is well formed; without one neither is there.
fn is_value(styles: &Styles, posting: &Posting) -> bool
    ensures { result ≡ is_value styles.now posting.now.amount posting.now.price posting.now.claim }
{
    match posting.amount {
        Some((unit, qty)) => {
            is_amount(styles, unit, qty)
                && is_price_or_none(styles, &posting.price)
                && is_claim_or_none(styles, posting.claim)
        }
        None => posting.price.is_none() && posting.claim.is_none(),
    }
}

/// Whether the text, which is UTF-8, is a well-formed account name.
fn is_account_text(text: &str) -> bool
    ensures { result ≡ is_account text.now && is_utf8 text.now }
{
    is_account(text.as_bytes())
}

fn is_posting(styles: &Styles, posting: &Posting) -> bool
    ensures { result ≡ is_posting styles.now posting.now }
{
    is_account_text(posting.account.as_str())
        && is_value(styles, posting)
        && are_remark_texts(posting.comments.items())
}

fn are_postings(styles: &Styles, postings: &[Posting]) -> bool
    ensures { result ≡ list_all (is_posting styles.now) postings.now }
{
    postings.iter().all(|posting| is_posting(styles, posting))
}

/// What is left of the room after comment lines, if they fit.
fn room_behind_remarks(room: usize, comments: &[Text]) -> Option<usize>
    ensures { result ≡ room_behind room (length (comments_part comments.now)) }
{
    let mut left = room;
    'comments: for comment in comments {
        let size = remark_size(comment.as_str().as_bytes());
        if size > left {
            return None;
        }
        left -= size;
    }
    Some(left)
}

/// What is left of the room after a posting and its comments, if they fit.
fn room_behind_posting(room: usize, styles: &Styles, posting: &Posting) -> Option<usize>
    requires { is_posting styles.now posting.now ≡ true }
    ensures { result ≡ room_behind room (length (posting_part styles.now posting.now)) }
{
    let size = line_size(posting, styles);
    if size > room {
        return None;
    }
    room_behind_remarks(room - size, posting.comments.items())
}

/// What is left of the room after postings and their comments, if they fit.
fn room_behind_postings(room: usize, styles: &Styles, postings: &[Posting]) -> Option<usize>
    requires { list_all (is_posting styles.now) postings.now ≡ true }
    ensures { result ≡ room_behind room (length (postings_part styles.now postings.now)) }
{
    let mut left = room;
    'postings: for posting in postings {
        match room_behind_posting(left, styles, posting) {
            Some(rest) => left = rest,
            None => return None,
        }
    }
    Some(left)
}

/// How many bytes the header line has, with its end.
fn header_size(txn: &Txn) -> usize
    requires { HeaderOk txn.now.day txn.now.status txn.now.code txn.now.description }
    ensures size { result ≡ length (header_part txn.now) }
    ensures bound { result ≤ 1001 }
{
    let description = txn.description.as_str().as_bytes();
    header_len(txn.status, bytes_of(&txn.code), description) + 1
}

/// Whether the body has at most 1,000,000 bytes, counted without printing it.
fn has_small_body(txn: &Txn, styles: &Styles) -> bool
    requires header { HeaderOk txn.now.day txn.now.status txn.now.code txn.now.description }
    requires postings { list_all (is_posting styles.now) txn.now.postings ≡ true }
    ensures { result ≡ nat_le (length (body_text styles.now txn.now)) MAX_BODY }
{
    match room_behind_remarks(MAX_BODY - header_size(txn), txn.comments.items()) {
        Some(room) => room_behind_postings(room, styles, txn.postings.items()).is_some(),
        None => false,
    }
}

/// Whether what stands below a header is well formed.
fn has_good_lines(txn: &Txn, styles: &Styles) -> bool
    ensures { result ≡ has_good_lines styles.now txn.now }
{
    is_mark_or_none(&txn.mark)
        && are_notes(txn.comments.items())
        && are_postings(styles, txn.postings.items())
        && txn.postings.items().len() <= MAX_POSTINGS
}

/// Whether all parts are well formed and within their limits.
fn has_good_parts(txn: &Txn, styles: &Styles) -> bool
    ensures { IsTrue result ↔ IsPrintable styles.now txn.now }
{
    if !is_header(txn) {
        return false;
    }
    if !has_good_lines(txn, styles) {
        return false;
    }
    has_small_body(txn, styles)
}

/// Whether the transaction can be printed: each part is well formed and within its limits, and the commodities are
/// declared. It takes no memory, and is linear in the transaction.
pub fn is_printable(txn: &Txn, styles: &Styles) -> bool
    ensures parts { IsTrue result ↔ IsPrintable styles.now txn.now }
    // That is so exactly where the canonical text reads as the list of the transaction alone.
    ensures reads { IsTrue result ↔ ReadsBackAlone styles.now txn.now }
{
    styles.are_styles();
    has_good_parts(txn, styles)
}
