//! How long the body of a transaction is, line by line.

ghost use Rattle.std.specs.Prelude.{◌≡◌, ◌+◌, ◌≤◌, [], ◌∷◌, true, length};
ghost use Rattle.std.specs.List.{list_all};
ghost use Rattle.journal_format.specs.CanonicalText.{posting_status, price_text, claim_text, amount_text};
ghost use Rattle.journal_format.specs.Printable.{is_remark_text, is_posting, is_value, is_price_or_none};
ghost use Rattle.journal_format.specs.Printable.{is_claim_or_none};
ghost use Rattle.journal_format.specs.BodySize.{remarks_size, line_size, postings_size};

use crate::posting::Posting;
use crate::posting_line::sign_len;
use journal_lines::{Status, comment_len};
use money_core::{Claim, Price, Styles, Text, amount_len, price_len};

/// The most bytes of a transaction's body.
pub(crate) const MAX_BODY: usize = 1_000_000;

/// How many bytes the line of a comment has, with its end.
pub(crate) fn remark_size(text: &[u8]) -> usize
    ensures size { result ≡ remarks_size (text.now ∷ []) }
    ensures bound { result ≤ length text.now + 7 }
{
    comment_len(text) + 1
}

fn posting_status_len(status: Option<Status>) -> usize
    ensures { result ≡ length (posting_status status) }
{
    match status {
        Some(Status::Cleared) => 2,
        Some(Status::Pending) => 2,
        None => 0,
    }
}

fn price_text_len(price: &Option<Price>, styles: &Styles) -> usize
    requires { is_price_or_none styles.now price.now ≡ true }
    ensures size { result ≡ length (price_text styles.now price.now) }
    ensures bound { result ≤ 71 }
{
    match price {
        Some(price) => 1 + price_len(price, styles),
        None => 0,
    }
}

fn claim_text_len(claim: &Option<Claim>, styles: &Styles) -> usize
    requires { is_claim_or_none styles.now claim.now ≡ true }
    ensures size { result ≡ length (claim_text styles.now claim.now) }
    ensures bound { result ≤ 69 }
{
    match claim {
        Some(claim) => 2 + sign_len(claim.kind) + amount_len(claim.unit, claim.qty, styles),
        None => 0,
    }
}

fn amount_text_len(posting: &Posting, styles: &Styles) -> usize
    requires { is_value styles.now posting.now.amount posting.now.price posting.now.claim ≡ true }
    ensures size { result ≡ length (amount_text styles.now posting.now.amount posting.now.price posting.now.claim) }
    ensures bound { result ≤ 206 }
{
    match posting.amount {
        Some((unit, qty)) => {
            2 + amount_len(unit, qty, styles)
                + price_text_len(&posting.price, styles)
                + claim_text_len(&posting.claim, styles)
        }
        None => 0,
    }
}

/// How many bytes the line of a posting has, with its end.
pub(crate) fn line_size(posting: &Posting, styles: &Styles) -> usize
    requires { is_posting styles.now posting.now ≡ true }
    ensures size { result ≡ line_size styles.now posting.now }
    ensures bound { result ≤ 500 }
{
    5 + posting_status_len(posting.status)
        + posting.account.as_str().len()
        + amount_text_len(posting, styles)
}

fn remarks_size(comments: &[Text]) -> usize
    requires one { length comments.now ≤ 1 }
    requires short { list_all is_remark_text comments.now ≡ true }
    ensures size { result ≡ remarks_size comments.now }
    ensures bound { result ≤ 907 }
{
    match comments {
        [text, ..] => remark_size(text.as_str().as_bytes()),
        [] => 0,
    }
}

/// How many bytes the lines of a posting have that has at most one comment.
pub(crate) fn posting_size(posting: &Posting, styles: &Styles) -> usize
    requires good { is_posting styles.now posting.now ≡ true }
    requires one { length posting.now.comments ≤ 1 }
    ensures size { result ≡ postings_size styles.now (posting.now ∷ []) }
    ensures bound { result ≤ 1407 }
{
    line_size(posting, styles) + remarks_size(posting.comments.items())
}
