//! Transactions that have a tag.

ghost use Rattle.std.specs.Prelude.{◌≡◌, option_copied};
ghost use Rattle.std.specs.List.{list_any};
ghost use Rattle.journal_lines.specs.Tag.{tags_of};
ghost use Rattle.treasury_reports.specs.RegisterReport.{is_asked, comment_has, have_tag, txn_has, is_wanted};

use journal_format::{Posting, Txn};
use journal_lines::tags;
use money_core::{Text, find};

/// Whether a tag is the one that is asked for, as `NAME` or `NAME=VALUE`.
fn is_asked(asked: &[u8], name: &[u8], value: &[u8]) -> bool
    ensures { result ≡ is_asked asked.now (name.now, value.now) }
{
    match find(asked, b'=') {
        Some(at) => name == &asked[..at] && value == &asked[at + 1..],
        None => name == asked,
    }
}

/// Whether the comment has the tag.
fn comment_has(asked: &[u8], comment: &[u8]) -> bool
    ensures { result ≡ comment_has asked.now comment.now }
{
    'tags: for (name, value) in tags(comment) {
        if is_asked(asked, name, value) {
            return true;
        }
    }
    false
}

/// Whether one of the comments has it.
fn have_tag(asked: &[u8], comments: &[Text]) -> bool
    ensures { result ≡ have_tag asked.now comments.now }
{
    comments
        .iter()
        .any(|comment| comment_has(asked, comment.as_str().as_bytes()))
}

/// Whether a comment of one of the postings has it.
fn postings_have(asked: &[u8], postings: &[Posting]) -> bool
    ensures { result ≡ list_any (λ p. have_tag asked.now p.comments) postings.now }
{
    postings
        .iter()
        .any(|posting| have_tag(asked, posting.comments.items()))
}

/// Whether the transaction has the tag in a comment of its own or of a posting, where one is asked for.
pub fn is_wanted(txn: &Txn, tag: Option<&str>) -> bool
    ensures { result ≡ is_wanted (option_copied tag.entry) txn.now }
{
    match tag {
        Some(asked) => {
            let asked = asked.as_bytes();
            have_tag(asked, txn.comments.items()) || postings_have(asked, txn.postings.items())
        }
        None => true,
    }
}
