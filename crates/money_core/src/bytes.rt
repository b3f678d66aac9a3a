//! Where bytes stand in a text.

ghost use Rattle.std.specs.Prelude.{◌≡◌, ◌==◌, ◌-◌, ◌≤◌, drop, length, position, slice_index};
ghost use Rattle.std.specs.List.{position_or_len};

/// Where the byte first stands.
pub fn find(text: &[u8], byte: u8) -> Option<usize>
    ensures { result ≡ position (λ b. b == byte) text.now }
{
    text.iter().position(|b| *b == byte)
}

/// Where the byte first stands, or the length.
pub fn first_place(text: &[u8], byte: u8) -> usize
    ensures place { result ≡ position_or_len (λ b. b == byte) text.now }
    ensures bound { result ≤ length text.now }
{
    match find(text, byte) {
        Some(at) => at,
        None => text.len(),
    }
}

/// The first byte, or zero.
pub fn first_byte(text: &[u8]) -> u8
    ensures { result ≡ slice_index text.now 0 }
{
    if text.is_empty() { 0 } else { text[0] }
}

/// The last byte, or zero.
pub(crate) fn last_byte(text: &[u8]) -> u8
    ensures { result ≡ slice_index text.now (length text.now - 1) }
{
    if text.is_empty() {
        0
    } else {
        text[text.len() - 1]
    }
}

/// What follows so many bytes.
pub(crate) fn behind(text: &[u8], count: usize) -> &[u8]
    requires { count ≤ length text.now }
    ensures { result.now ≡ drop count text.now }
{
    &text[count..]
}
