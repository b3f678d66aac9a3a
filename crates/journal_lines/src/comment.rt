//! The comment of a line, and its tags.

ghost use Rattle.std.specs.Prelude.{◌≡◌, ℕ, List, true, IfSome};
ghost use Rattle.std.specs.Str.{is_utf8};
ghost use Rattle.std.specs.Option.{option_map};
ghost use Rattle.journal_lines.specs.Comment.{front_of, comment_of};
ghost use Rattle.journal_lines.specs.Tag.{tags_of, comment_parts, AreTagsOf};
ghost use Rattle.journal_lines.specs.TagsLeft.{tags_left};

use crate::blank::trim;
use crate::tag::Tags;
use money_core::find;

/// What stands before the first `;`, or all.
#[tactic(auto, unfolding(crate::specs::Comment::front_of))]
pub fn front_of(line: &[u8]) -> &[u8]
    ensures value { result.now ≡ front_of line.now }
    ensures utf8 { is_utf8 line.now ≡ true → is_utf8 result.now ≡ true }
{
    match find(line, b';') {
        Some(at) => &line[..at],
        None => line,
    }
}

/// The text after the first `;`, without blanks at its ends.
#[tactic(auto, unfolding(crate::specs::Comment::comment_of))]
pub fn comment_of(line: &[u8]) -> Option<&[u8]>
    ensures value { option_map (λ c. c.now) result ≡ comment_of line.now }
    ensures utf8 { is_utf8 line.now ≡ true → IfSome result (λ comment. is_utf8 comment.now ≡ true) }
{
    match find(line, b';') {
        Some(at) => Some(trim(&line[at + 1..])),
        None => None,
    }
}

/// The tags of a comment: `name:value`, where the name is a word of ASCII letters, digits, `-` and `_` at the start or
/// after a blank or a comma, and the value runs to the next comma or the end, without blanks at its ends.
pub fn tags(comment: &[u8]) -> Tags<'_>
    ensures list { tags_left result ≡ tags_of comment.entry.now }

    // They are the tags of this comment: of each part between commas the first, if it has one.
    ensures rule { AreTagsOf (comment_parts comment.entry.now) (tags_left result) }
{
    Tags::new(comment)
}
