//! The lines of a text.

ghost use Rattle.std.specs.Prelude.{◌≡◌, ℕ, List, ◌+◌, ◌-◌, ◌^◌, ◌<◌, ◌≤◌, ◌==◌, [], ◌∷◌, take, drop, length, position};
ghost use Rattle.std.specs.List.{position_or_len, before_first, after_first};
ghost use Rattle.std.specs.Iterator.{YieldsFirstBy, item_count};
ghost use Rattle.journal_lines.specs.Lines.{without_return, lines, numbered, MakeUp};

use money_core::{find, first_place};

/// The lines of a text with their numbers from 1, in order, each the slice of the text without its end.
#[derive(Drop)]
pub struct Lines<'a> {
    rest: &'a [u8],
    number: usize,
    ghost bounded: { number + length rest.now ≤ 2 ^ 63 },
}

impl<'a> Lines<'a> {
    ghost use Rattle.journal_lines.specs.LinesLeft.{lines_left};

    /// All lines of the text.
    pub fn new(text: &'a [u8]) -> Self
        ensures list { lines_left result ≡ numbered 1 text.entry.now }

        // The lines, each with its end, are the text, and no others are.
        ensures rule { MakeUp (lines text.entry.now) text.entry.now }
        ensures only { (ls : List (List ℕ)) → MakeUp ls text.entry.now → ls ≡ lines text.entry.now }
    {
        Lines {
            rest: text,
            number: 1,
        }
    }
}

impl<'a> Iterator for Lines<'a> {
    ghost use Rattle.journal_lines.specs.LinesLeft.{lines_left};

    type Item = (usize, &'a [u8]);

    ghost next_gives = { YieldsFirstBy (λ item. (item.0, item.1.now)) lines_left };

    ghost remaining = { item_count lines_left };

    fn next(&mut self) -> Option<(usize, &'a [u8])> {
        if self.rest.is_empty() {
            return None;
        }
        let number = self.number;
        let (line, rest) = cut_line(self.rest);
        self.rest = rest;
        self.number += 1;
        Some((number, line))
    }
}

/// The first line without its end, and what follows its end.
fn cut_line(text: &[u8]) -> (&[u8], &[u8])
    requires { 0 < length text.now }
    ensures lines { lines text.now ≡ result.0.now ∷ lines result.1.now }
    ensures shorter { length result.1.now < length text.now }
{
    match find(text, b'\n') {
        Some(at) => (without_return(&text[..at]), &text[at + 1..]),
        None => (without_return(text), &[]),
    }
}

/// The line without the CR at its end.
fn without_return(line: &[u8]) -> &[u8]
    ensures { result.now ≡ without_return line.now }
{
    match line {
        [front @ .., b'\r'] => front,
        _ => line,
    }
}

/// What stands before the byte, or all.
pub(crate) fn before(text: &[u8], byte: u8) -> &[u8]
    ensures { result.now ≡ before_first (λ b. b == byte) text.now }
{
    &text[..first_place(text, byte)]
}

/// What stands after the byte.
pub(crate) fn behind(text: &[u8], byte: u8) -> &[u8]
    ensures { result.now ≡ after_first (λ b. b == byte) text.now }
{
    let at = first_place(text, byte);
    if at < text.len() {
        &text[at + 1..]
    } else {
        &text[at..]
    }
}
