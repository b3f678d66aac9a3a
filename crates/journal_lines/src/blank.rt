//! Blanks, and texts without those at their ends.

ghost use Rattle.std.specs.Prelude.{◌≡◌, ◌-◌, not, true, reverse, position};
ghost use Rattle.std.specs.Str.{is_utf8};
ghost use Rattle.journal_lines.specs.Blank.{is_blank, first_word, trim_start, trim_end, trim};

/// Whether the byte is a space or a tab.
pub fn is_blank(byte: u8) -> bool
    ensures { result ≡ is_blank byte }
{
    byte == b' ' || byte == b'\t'
}

/// The text up to the first blank, or all.
#[tactic(auto, unfolding(crate::specs::Blank::first_word))]
pub fn first_word(text: &[u8]) -> &[u8]
    ensures value { result.now ≡ first_word text.now }
    ensures utf8 { is_utf8 text.now ≡ true → is_utf8 result.now ≡ true }
{
    match find_blank(text) {
        Some(at) => &text[..at],
        None => text,
    }
}

/// Where the first blank stands.
pub(crate) fn find_blank(text: &[u8]) -> Option<usize>
    ensures { result ≡ position is_blank text.now }
{
    text.iter().position(|b| is_blank(*b))
}

/// The text without the blanks at its front.
#[tactic(auto, unfolding(crate::specs::Blank::trim_start))]
pub fn trim_start(text: &[u8]) -> &[u8]
    ensures value { result.now ≡ trim_start text.now }
    ensures utf8 { is_utf8 text.now ≡ true → is_utf8 result.now ≡ true }
{
    match find_solid(text) {
        Some(at) => &text[at..],
        None => &[],
    }
}

/// The text without the blanks at its end.
#[tactic(auto, unfolding(crate::specs::Blank::trim_end))]
pub fn trim_end(text: &[u8]) -> &[u8]
    ensures value { result.now ≡ trim_end text.now }
    ensures utf8 { is_utf8 text.now ≡ true → is_utf8 result.now ≡ true }
{
    match find_solid_back(text) {
        Some(count) => &text[..text.len() - count],
        None => &[],
    }
}

/// The text without the blanks at both ends.
pub fn trim(text: &[u8]) -> &[u8]
    ensures value { result.now ≡ trim text.now }
    ensures utf8 { is_utf8 text.now ≡ true → is_utf8 result.now ≡ true }
{
    trim_end(trim_start(text))
}

/// Where the first byte stands that is no blank.
fn find_solid(text: &[u8]) -> Option<usize>
    ensures { result ≡ position (λ b. not (is_blank b)) text.now }
{
    text.iter().position(|b| !is_blank(*b))
}

/// How many blanks stand at the end, where something else stands before them.
fn find_solid_back(text: &[u8]) -> Option<usize>
    ensures { result ≡ position (λ b. not (is_blank b)) (reverse text.now) }
{
    text.iter().rev().position(|b| !is_blank(*b))
}
