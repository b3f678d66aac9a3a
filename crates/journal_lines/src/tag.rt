//! The tags of a comment.

ghost use Rattle.std.specs.Prelude.{◌≡◌, [], ◌∷◌, ◌+◌, ◌≤◌, ◌<◌, ◌==◌, IfSome, IfNone, true, not, position, length};
ghost use Rattle.std.specs.Prelude.{take, drop};
ghost use Rattle.std.specs.List.{position_or_len};
ghost use Rattle.std.specs.Option.{option_map};
ghost use Rattle.std.specs.Iterator.{YieldsFirstBy, item_count};
ghost use Rattle.journal_lines.specs.Tag.{is_tag_byte, name_len, starts_tag, tag_at, first_tag, tags_of};
ghost use Rattle.journal_lines.specs.TagsLeft.{tags_left};

use crate::blank::{is_blank, trim};
use crate::lines::{before, behind};

/// The tags of a comment in order, each a name and a value, slices of the comment.
#[derive(Drop)]
pub struct Tags<'a> {
    rest: &'a [u8],
}

impl<'a> Tags<'a> {
    /// All tags of a comment.
    pub(crate) fn new(comment: &'a [u8]) -> Self
        ensures { tags_left result ≡ tags_of comment.entry.now }
    {
        Tags { rest: comment }
    }
}

impl<'a> Iterator for Tags<'a> {
    type Item = (&'a [u8], &'a [u8]);

    ghost next_gives = { YieldsFirstBy (λ item. (item.0.now, item.1.now)) tags_left };

    ghost remaining = { item_count tags_left };

    fn next(&mut self) -> Option<(&'a [u8], &'a [u8])> {
        let (tag, rest) = next_tag(self.rest);
        self.rest = rest;
        tag
    }
}

/// The first tag of a comment, and what follows the comma after it; nothing where there is none.
fn next_tag(comment: &[u8]) -> (Option<(&[u8], &[u8])>, &[u8])
    ensures found { IfSome result.0 (λ tag. tags_of comment.now ≡ (tag.0.now, tag.1.now) ∷ tags_of result.1.now) }
    ensures none { IfNone result.0 ((tags_of comment.now ≡ []) × (tags_of result.1.now ≡ [])) }
{
    let mut rest = comment;
    while !rest.is_empty() {
        let part = before(rest, b',');
        rest = behind(rest, b',');
        let tag = first_tag(part);
        if tag.is_some() {
            return (tag, rest);
        }
    }
    (None, rest)
}

/// The first tag of a text without commas.
#[tactic(auto, unfolding(crate::specs::Tag::first_tag))]
fn first_tag(part: &[u8]) -> Option<(&[u8], &[u8])>
    ensures { option_map (λ tag. (tag.0.now, tag.1.now)) result ≡ first_tag true part.now }
{
    let mut fresh = true;
    for (at, byte) in part.iter().enumerate() {
        if fresh && starts_tag(&part[at..]) {
            return Some(tag_at(&part[at..]));
        }
        fresh = is_blank(*byte);
    }
    None
}

/// Whether a name stands at the front, directly followed by `:`.
#[tactic(auto, unfolding(crate::specs::Tag::starts_tag))]
fn starts_tag(text: &[u8]) -> bool
    ensures { result ≡ starts_tag text.now }
{
    let end = name_len(text);
    end > 0 && end < text.len() && text[end] == b':'
}

/// The name and the value at the front.
#[tactic(auto, unfolding(crate::specs::Tag::starts_tag, crate::specs::Tag::tag_at))]
fn tag_at(text: &[u8]) -> (&[u8], &[u8])
    requires { starts_tag text.now ≡ true }
    ensures { (result.0.now, result.1.now) ≡ tag_at text.now }
{
    let end = name_len(text);
    (&text[..end], trim(&text[end + 1..]))
}

/// How many bytes of a name stand at the front.
fn name_len(text: &[u8]) -> usize
    ensures value { result ≡ name_len text.now }
    ensures bound { result ≤ length text.now }
{
    match find_other(text) {
        Some(at) => at,
        None => text.len(),
    }
}

/// Where the first byte stands that no name holds.
fn find_other(text: &[u8]) -> Option<usize>
    ensures { result ≡ position (λ b. not (is_tag_byte b)) text.now }
{
    text.iter().position(|b| !is_tag_byte(*b))
}

fn is_tag_byte(byte: u8) -> bool
    ensures { result ≡ is_tag_byte byte }
{
    byte.is_ascii_alphabetic() || byte.is_ascii_digit() || byte == b'-' || byte == b'_'
}
