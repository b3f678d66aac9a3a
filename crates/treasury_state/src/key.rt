//! What a transfer's ID and a part's key may be.

ghost use Rattle.std.specs.Prelude.{◌≡◌};
ghost use Rattle.std.specs.List.{list_all};
ghost use Rattle.treasury_state.specs.Transfer.{is_id_byte, is_id, is_key};

use crate::transfer::is_all;

/// The greatest number of bytes of a transfer's ID.
const MAX_ID: usize = 64;

/// The greatest number of bytes of a part's key.
const MAX_KEY: usize = 32;

/// Whether the byte may stand in a transfer's ID.
fn is_id_byte(byte: u8) -> bool
    ensures { result ≡ is_id_byte byte }
{
    byte.is_ascii_alphabetic()
        || byte.is_ascii_digit()
        || byte == b'-'
        || byte == b'.'
        || byte == b'_'
}

/// Whether each byte may.
fn has_id_bytes(id: &[u8]) -> bool
    ensures { result ≡ list_all is_id_byte id.now }
{
    id.iter().all(|b| is_id_byte(*b))
}

/// Whether the ID is well formed.
pub fn is_id(id: &[u8]) -> bool
    ensures { result ≡ is_id id.now }
{
    !id.is_empty() && id.len() <= MAX_ID && has_id_bytes(id)
}

/// Whether the key of a part is well formed.
pub fn is_key(key: &str) -> bool
    ensures { result ≡ is_key key.now }
{
    let bytes = key.as_bytes();
    !bytes.is_empty() && bytes.len() <= MAX_KEY && has_id_bytes(bytes) && !is_all(key)
}
