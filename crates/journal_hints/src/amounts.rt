//! The odd amounts of an import's new transactions, and of a request, and what is said of them.

ghost use Rattle.std.specs.Prelude.{◌≡◌, ◌++◌, ℕ, List, [], ◌∷◌, if◌then◌else◌, map, false, IfOk, OnOk};
ghost use Rattle.journal_hints.specs.Listed.{listed};
ghost use Rattle.journal_hints.specs.OddAmount.{odd_view, odd_at, odd_line, odd_amounts, lines_below};
ghost use Rattle.journal_hints.specs.OddAmount.{odd_amount, odd_said, odd_at_said, read_text, amount_said};
ghost use Rattle.treasury_messages.specs.Pieces.{values};
ghost use Rattle.treasury_messages.specs.Said.{naming};

use crate::lines::{amounts_of, asserted_in, is_inner, is_posting, posting_parts};
use crate::listed::{MOST, say_more};
use crate::odd::{Odd, ReadAs, odd_amount, odd_price};
use journal_lines::Lines;
use money_core::{Cause, Styles, is_price, print_price};
use std::alloc::Global;
use treasury_messages::Piece::{Amount, Origin, Text, Words};
use treasury_messages::{Done, Message, MessageKind, Messages, Piece};

/// Which lines of a text, that are passed in order, are below the headers on certain lines.
#[derive(Clone, Copy)]
pub struct Below<'a> {
    /// The lines of the headers that are still to come.
    pub heads: &'a [usize],
    /// Whether the last line was such a header, or below one.
    pub inside: bool,
}

impl Below<'_> {
    /// Whether the next line is.
    pub fn has(&mut self, number: usize, line: &[u8]) -> bool
        ensures { (rest : List (ℕ × List ℕ))
            → lines_below self.old.heads.now self.old.inside ((number, line.now) ∷ rest)
            ≡ (if result then (number, line.now) ∷ [] else []) ++ lines_below self.new.heads.now self.new.inside rest }
    {
        match self.heads {
            [head, rest @ ..] if *head == number => {
                self.heads = rest;
                self.inside = true;
                false
            }
            _ => {
                self.inside = self.inside && is_inner(line);
                self.inside
            }
        }
    }
}

/// Puts a text of that line, if it is odd.
fn put_odd<'a>(found: &mut Vec<Odd<'a>>, line: usize, text: &'a [u8], read: Option<ReadAs>) -> Done
    ensures { OnOk result (map odd_view found.new.items
        ≡ map odd_view found.old.items ++ odd_at line text.now read) }
{
    if let Some(read) = read {
        found.push(Odd { line, text, read })?;
    }
    Ok(())
}

/// Puts the odd texts of a line, if it is a posting.
#[tactic(auto, unfolding(crate::specs::OddAmount::odd_line))]
fn put_line<'a>(styles: &Styles, number: usize, line: &'a [u8], found: &mut Vec<Odd<'a>>) -> Done
    ensures { OnOk result (map odd_view found.new.items
        ≡ map odd_view found.old.items ++ odd_line styles.now (number, line.now)) }
{
    if !is_posting(line) {
        return Ok(());
    }
    let texts = amounts_of(posting_parts(line).rest);
    let (amount, asserted) = (texts.amount, asserted_in(texts.claim));
    put_odd(found, number, amount, odd_amount(styles, amount))?;
    put_odd(found, number, texts.price, odd_price(styles, texts.price))?;
    put_odd(found, number, asserted, odd_amount(styles, asserted))
}

/// Whether a line is a posting with an odd text.
#[tactic(auto, unfolding(crate::specs::OddAmount::odd_line))]
fn has_odd(styles: &Styles, line: &[u8]) -> bool
    ensures { (n : ℕ) → result ≡ false → odd_line styles.now (n, line.now) ≡ [] }
{
    if !is_posting(line) {
        return false;
    }
    let parts = amounts_of(posting_parts(line).rest);
    odd_amount(styles, parts.amount).is_some()
        || odd_price(styles, parts.price).is_some()
        || odd_amount(styles, asserted_in(parts.claim)).is_some()
}

/// Whether a transaction of a text may have an odd text: a line is such a posting, or looks like one in a comment.
#[tactic(auto, unfolding(crate::specs::OddAmount::odd_amounts))]
pub fn may_have_odd(styles: &Styles, text: &[u8]) -> bool
    ensures { (heads : List ℕ) → result ≡ false → odd_amounts styles.now heads text.now ≡ [] }
{
    'lines: for (_, line) in Lines::new(text) {
        if has_odd(styles, line) {
            return true;
        }
    }
    false
}

/// The odd texts of the transactions whose headers stand on these lines, in order.
#[tactic(auto, unfolding(crate::specs::OddAmount::odd_amounts))]
pub fn find_odd<'a>(
    alloc: Global,
    styles: &Styles,
    text: &'a [u8],
    heads: &[usize],
) -> Result<Vec<Odd<'a>>, Cause>
    ensures { IfOk result (λ found. map odd_view found.items ≡ odd_amounts styles.now heads.now text.now) }
{
    let mut found = Vec::new(alloc);
    let mut below = Below {
        heads,
        inside: false,
    };
    for (number, line) in Lines::new(text) {
        if below.has(number, line) {
            put_line(styles, number, line, &mut found)?;
        }
    }
    Ok(found)
}

/// Says more of a message: what a text was read as.
fn add_read(alloc: Global, styles: &Styles, read: &ReadAs, message: &mut Message) -> Done
    ensures { OnOk result (message.new ≡ naming message.old (read_text styles.now read.now ∷ [])) }
{
    match read {
        ReadAs::Amount(unit, qty) => message.add(&[Amount(styles, *unit, i128::from(*qty))]),
        ReadAs::Cost(price) if is_price(price, styles) => {
            let mut text = Vec::new(alloc);
            print_price(alloc, price, styles, &mut text)?;
            message.add(&[Text(text.as_slice())])
        }
        ReadAs::Cost(_) => message.add(&[Text(b"?")]),
    }
}

/// Says what an odd text was read as that stands at a place.
fn say_odd_at(
    styles: &Styles,
    place: &[Piece<'_>],
    text: &[u8],
    read: &ReadAs,
    out: &mut Messages,
) -> Done
    ensures { OnOk result (out.new.items
        ≡ out.old.items ++ odd_at_said styles.now (values place.now) text.now read.now) }
{
    let alloc = *out.allocator();
    let mut message = Message::new(alloc, MessageKind::OddAmount);
    message.add(place)?;
    message.add(&[Text(text), Words(b" was read as ")])?;
    add_read(alloc, styles, read, &mut message)?;
    message.say(out)
}

/// Says what the first odd texts of a journal were read as, and how many more there are.
#[tactic(auto, unfolding(crate::specs::Listed::listed))]
pub fn say_odds(styles: &Styles, source: &str, found: &[Odd<'_>], out: &mut Messages) -> Done
    ensures { OnOk result (out.new.items
        ≡ out.old.items ++ listed MOST (odd_said styles.now source.now) (map odd_view found.now)) }
{
    let first = &found[..found.len().min(MOST)];
    for odd in first {
        let place = [Origin(source, odd.line)];
        say_odd_at(styles, &place, odd.text, &odd.read, out)?;
    }
    say_more(found.len(), out)
}

/// Says what the amount of a dispatch, or of a part that is received, was read as, if it is odd.
pub fn say_odd_amount(styles: &Styles, text: &str, out: &mut Messages) -> Done
    ensures { OnOk result (out.new.items
        ≡ out.old.items ++ amount_said styles.now text.now (odd_amount styles.now text.now)) }
{
    let place = [Text(b"--amount"), Words(b": ")];
    match odd_amount(styles, text.as_bytes()) {
        Some(read) => say_odd_at(styles, &place, text.as_bytes(), &read, out),
        None => Ok(()),
    }
}
