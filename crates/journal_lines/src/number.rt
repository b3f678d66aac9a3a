//! Numbers in decimal digits.

ghost use Rattle.std.specs.Prelude.{◌≡◌, ◌≤◌, ◌<◌, ◌^◌, length, true};
ghost use Rattle.std.specs.Char.{is_ascii_digit};
ghost use Rattle.std.specs.List.{list_all};
ghost use Rattle.journal_lines.specs.Date.{number_of};
ghost use Rattle.journal_lines.specs.Number.{entry_count};

/// Whether each byte is a digit.
pub(crate) fn all_digits(text: &[u8]) -> bool
    ensures { result ≡ list_all is_ascii_digit text.now }
{
    text.iter().all(|b| b.is_ascii_digit())
}

/// The number that at most five digits write.
pub(crate) fn number_of(text: &[u8]) -> u32
    requires digits { list_all is_ascii_digit text.now ≡ true }
    requires length { length text.now ≤ 5 }
    ensures value { result ≡ number_of text.now }
    ensures bound { result < 10 ^ length text.now }
{
    let mut number = 0;
    for digit in text {
        number = number * 10 + u32::from(*digit - b'0');
    }
    number
}

/// How many entries a text says: the number that 1 to 5 digits write.
#[tactic(auto, unfolding(crate::specs::Number::entry_count))]
pub fn read_count(text: &[u8]) -> Option<u32>
    ensures { result ≡ entry_count text.now }
{
    if text.is_empty() || text.len() > 5 || !all_digits(text) {
        return None;
    }
    Some(number_of(text))
}
