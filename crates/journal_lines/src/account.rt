//! Account names.

ghost use Rattle.std.specs.Prelude.{◌≡◌, ◌↔◌, ◌==◌, IsTrue, true, not, slice_index, ◌+◌, ◌≤◌, length, drop};
ghost use Rattle.std.specs.List.{list_all};
ghost use Rattle.std.specs.Str.{is_utf8, IsCharBoundary};
ghost use Rattle.journal_lines.specs.AccountName.{is_account_name_byte, is_part, parts, is_gap, has_gap, bars_start};
ghost use Rattle.journal_lines.specs.AccountName.{IsAccount};
ghost use Rattle.journal_lines.specs.AccountName.{is_account, ends_name, name_end, IsReserved, IsWholeName};

use crate::blank::is_blank;

/// The most bytes that an account name has.
pub const MAX_NAME: usize = 200;

/// Whether the text is a well-formed account name.
///
/// It has 1 to 200 bytes, no empty part before, between or after colons, no `;`, no ASCII control character (a tab
/// among them), no two spaces together, no space at either end, and does not begin with `*`, `!`, `(` or `[`.
#[tactic(auto, unfolding(crate::specs::AccountName::is_account))]
pub fn is_account(text: &[u8]) -> bool
    ensures rule { IsTrue result ↔ IsAccount text.now }
    ensures value { result ≡ is_account text.now }

    // It stands whole at the front of a line's text.
    ensures whole { IsTrue result → IsWholeName text.now }
{
    text.len() <= MAX_NAME
        && all_parts(text)
        && all_name_bytes(text)
        && !has_gap(text)
        && !has_barred_start(text)
}

/// Whether no part between colons is empty.
fn all_parts(name: &[u8]) -> bool
    ensures { result ≡ list_all is_part (parts name.now) }
{
    name.split(|b| *b == b':').all(|part| is_part(part))
}

fn is_part(part: &[u8]) -> bool
    ensures { result ≡ is_part part.now }
{
    !part.is_empty()
}

fn all_name_bytes(name: &[u8]) -> bool
    ensures { result ≡ list_all is_account_name_byte name.now }
{
    name.iter().all(|b| is_name_byte(*b))
}

fn is_name_byte(byte: u8) -> bool
    ensures { result ≡ is_account_name_byte byte }
{
    byte != b';' && byte >= 32 && byte != 127
}

/// Whether two spaces stand together, or one at the end.
fn has_gap(name: &[u8]) -> bool
    ensures { result ≡ has_gap name.now }
{
    for (at, byte) in name.iter().enumerate() {
        if is_gap(*byte, &name[at + 1..]) {
            return true;
        }
    }
    false
}

/// Whether the byte is a space before another, or at the end.
fn is_gap(byte: u8, rest: &[u8]) -> bool
    ensures { result ≡ is_gap byte rest.now }
{
    match rest {
        [] => byte == b' ',
        [next, ..] => byte == b' ' && *next == b' ',
    }
}

/// Whether the name begins with a space, `*`, `!`, `(` or `[`.
fn has_barred_start(name: &[u8]) -> bool
    ensures { result ≡ bars_start (slice_index name.now 0) }
{
    match name {
        [first, ..] => bars_start(*first),
        [] => false,
    }
}

fn bars_start(byte: u8) -> bool
    ensures { result ≡ bars_start byte }
{
    byte == b' ' || byte == b'*' || byte == b'!' || byte == b'(' || byte == b'['
}

/// Where the account name at the front of a posting's text ends: before a tab, two blanks, or the text's end, less a
/// single space there. The text has no comment.
#[tactic(auto, unfolding(crate::specs::AccountName::name_end))]
pub fn name_end(text: &[u8]) -> usize
    ensures place { result ≡ name_end text.now }
    ensures bound { result ≤ length text.now }

    // A name and what follows it are UTF-8 where the text is.
    ensures utf8 { is_utf8 text.now ≡ true → IsCharBoundary text.now result }
{
    for (at, byte) in text.iter().enumerate() {
        if ends_name(*byte, &text[at + 1..]) {
            return at;
        }
    }
    text.len()
}

/// Whether a name ends before the byte.
fn ends_name(byte: u8, rest: &[u8]) -> bool
    ensures { result ≡ ends_name byte rest.now }
{
    match rest {
        [] => byte == b'\t' || byte == b' ',
        [next, ..] => byte == b'\t' || byte == b' ' && is_blank(*next),
    }
}

/// Whether the account is `assets:transit` or below it.
pub fn is_reserved(account: &[u8]) -> bool
    ensures { IsTrue result ↔ IsReserved account.now }
{
    match account.strip_prefix(b"assets:transit") {
        Some([]) => true,
        Some([next, ..]) => *next == b':',
        None => false,
    }
}
