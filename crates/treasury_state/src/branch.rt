//! What a branch's name may be, and which days its lock holds.

ghost use Rattle.std.specs.Prelude.{◌≡◌, slice_index};
ghost use Rattle.std.specs.List.{list_all};
ghost use Rattle.treasury_state.specs.Federation.{is_branch_name_byte, is_branch_name, is_locked};

use money_core::Day;

/// The greatest number of branches.
pub const MAX_BRANCHES: usize = 32;

/// The greatest number of bytes of a branch's name.
const MAX_NAME: usize = 32;

/// Whether the byte may stand in a branch's name.
fn is_name_byte(byte: u8) -> bool
    ensures { result ≡ is_branch_name_byte byte }
{
    byte.is_ascii_lowercase() || byte.is_ascii_digit() || byte == b'-'
}

/// Whether each byte may stand in a branch's name.
fn has_name_bytes(name: &[u8]) -> bool
    ensures { result ≡ list_all is_branch_name_byte name.now }
{
    name.iter().all(|b| is_name_byte(*b))
}

/// The first byte, or zero.
fn first_byte(name: &[u8]) -> u8
    ensures { result ≡ slice_index name.now 0 }
{
    if name.is_empty() { 0 } else { name[0] }
}

/// Whether the name is well formed.
pub fn is_branch_name(name: &[u8]) -> bool
    ensures { result ≡ is_branch_name name.now }
{
    first_byte(name).is_ascii_lowercase() && has_name_bytes(name) && name.len() <= MAX_NAME
}

/// Whether the day is on or before the lock day.
pub fn is_locked(lock: Option<Day>, day: Day) -> bool
    ensures { result ≡ is_locked lock day }
{
    match lock {
        None => false,
        Some(lock) => day.0 <= lock.0,
    }
}
