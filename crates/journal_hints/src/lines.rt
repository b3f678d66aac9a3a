//! The lines of a journal's text, as an explanation shows them.

ghost use Rattle.std.specs.Prelude.{◌≡◌, ◌++◌, drop, length, Some, OnOk};
ghost use Rattle.std.specs.Option.{option_map};
ghost use Rattle.journal_lines.specs.LineKind.{kind_of};
ghost use Rattle.journal_lines.specs.Lines.{lines};
ghost use Rattle.journal_format.specs.PostingForm.{claim_sign};
ghost use Rattle.journal_format.specs.PostingParts.{kind_at, account_name_of};
ghost use Rattle.journal_format.specs.PostingParts.{amount_part_of};
ghost use Rattle.journal_format.specs.PostingParts.{amount_text_in, price_text_in, claim_in, asserted_in};
ghost use Rattle.journal_hints.specs.Numbered.{item_of_number};
ghost use Rattle.journal_hints.specs.SourceLine.{line_said, source_said};
ghost use Rattle.journal_hints.specs.OddAmount.{is_inner, is_posting_line};

use journal_format::cut_at;
use journal_lines::{
    LineKind, Lines, behind_status, front_of, is_block_end, is_remark, kind, name_end, trim,
    trim_start,
};
use treasury_messages::Piece::{Number, Text, Words};
use treasury_messages::{Done, MessageKind, Messages, say};

/// What a posting's line has before its comment: the account's name, and what follows it.
#[derive(Clone, Copy)]
pub struct PostingParts<'a> {
    pub name: &'a [u8],
    pub rest: &'a [u8],
}

/// The line of that number.
pub fn line_at(text: &[u8], line: usize) -> Option<&[u8]>
    ensures { option_map (λ l. l.now) result ≡ item_of_number (lines text.now) line }
{
    for (number, bytes) in Lines::new(text) {
        if number == line {
            return Some(bytes);
        }
    }
    None
}

/// Says a line after its number.
fn say_numbered(number: usize, bytes: &[u8], out: &mut Messages) -> Done
    ensures { OnOk result (out.new.items ≡ out.old.items ++ line_said number (Some bytes.now)) }
{
    let bar: &'static [u8] = if bytes.is_empty() { b" |" } else { b" | " };
    let pieces = [Number(number), Words(bar), Text(bytes)];
    say(MessageKind::SourceLine, &pieces, out)
}

/// Says the line of that number, if the text has one.
#[tactic(auto, unfolding(crate::specs::SourceLine::source_said))]
pub fn say_source(text: &[u8], line: usize, out: &mut Messages) -> Done
    ensures { OnOk result (out.new.items ≡ out.old.items ++ source_said text.now line) }
{
    match line_at(text, line) {
        Some(bytes) => say_numbered(line, bytes, out),
        None => Ok(()),
    }
}

/// Whether the line is indented.
pub fn is_inner(line: &[u8]) -> bool
    ensures { result ≡ is_inner (kind_of line.now) }
{
    kind(line) == LineKind::Indented
}

/// Whether the line is that of a posting, inside a transaction.
pub fn is_posting(line: &[u8]) -> bool
    ensures { result ≡ is_posting_line line.now }
{
    is_inner(line) && !is_remark(line)
}

/// The parts of a posting's line.
pub fn posting_parts(line: &[u8]) -> PostingParts<'_>
    ensures name { result.name.now ≡ account_name_of line.now }
    ensures rest { result.rest.now ≡ amount_part_of line.now }
{
    let text = behind_status(trim_start(front_of(line)));
    let end = name_end(text);
    PostingParts {
        name: &text[..end],
        rest: trim(&text[end..]),
    }
}

/// The amounts of a posting's line; what is not there is empty.
#[derive(Clone, Copy)]
pub struct Amounts<'a> {
    pub amount: &'a [u8],
    /// From its `@` on.
    pub price: &'a [u8],
    /// From its sign on.
    pub claim: &'a [u8],
}

/// What follows the signs of an assertion, however many there are.
pub(crate) fn behind_signs(claim: &[u8]) -> &[u8] {
    for (at, byte) in claim.iter().enumerate() {
        if *byte != b'=' && *byte != b'*' {
            return trim(&claim[at..]);
        }
    }
    &[]
}

/// What follows the sign of an assertion, the longest that stands at the front.
#[tactic(auto, unfolding(journal_format::specs::PostingParts::kind_at))]
fn behind_sign(claim: &[u8]) -> &[u8]
    ensures { result.now ≡ drop (length (claim_sign (kind_at claim.now))) claim.now }
{
    match claim {
        [_, b'=', b'*', rest @ ..] => rest,
        [_, b'=', rest @ ..] | [_, b'*', rest @ ..] => rest,
        [_, rest @ ..] => rest,
        [] => claim,
    }
}

/// The asserted balance after the sign of an assertion.
pub fn asserted_in(claim: &[u8]) -> &[u8]
    ensures { result.now ≡ asserted_in claim.now }
{
    trim_start(behind_sign(claim))
}

/// The amounts of a posting's line, by what follows the account's name.
pub fn amounts_of(rest: &[u8]) -> Amounts<'_>
    ensures amount { result.amount.now ≡ amount_text_in rest.now }
    ensures price { result.price.now ≡ price_text_in rest.now }
    ensures claim { result.claim.now ≡ claim_in rest.now }
{
    let (value, claim) = cut_at(rest, b'=');
    let (amount, price) = cut_at(value, b'@');
    Amounts {
        amount,
        price,
        claim,
    }
}

/// Says the postings' lines without an amount of the transaction whose header stands at that line, at most two.
pub(crate) fn say_blank_postings(text: &[u8], header: usize, out: &mut Messages) -> Done {
    let mut found = 0usize;
    for (number, bytes) in Lines::new(text) {
        if number > header {
            if !is_inner(bytes) || found == 2 {
                return Ok(());
            }
            if is_posting(bytes) && posting_parts(bytes).rest.is_empty() {
                say_numbered(number, bytes, out)?;
                found = found.saturating_add(1);
            }
        }
    }
    Ok(())
}

/// How many transactions begin at the line of that number or before it, and how many postings of the last one.
pub(crate) fn counted_through(text: &[u8], line: usize) -> (usize, usize) {
    let mut transactions = 0usize;
    let mut postings = 0usize;
    let mut in_block = false;
    for (number, bytes) in Lines::new(text) {
        match kind(bytes) {
            _ if in_block => in_block = !is_block_end(bytes),
            LineKind::Block => in_block = true,
            LineKind::Header => {
                transactions = transactions.saturating_add(1);
                postings = 0;
            }
            LineKind::Indented if !is_remark(bytes) => postings = postings.saturating_add(1),
            _ => {}
        }
        if number == line {
            break;
        }
    }
    (transactions, postings)
}
