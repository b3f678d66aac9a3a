//! Bytes that contracts see as their list.

ghost use Rattle.std.specs.Prelude.{◌≡◌, ℕ, List, IfOk};
ghost use Rattle.std.specs.Result.{IsOkUnless};

use money_core::Cause;
use std::alloc::Global;
use std::marker::Model;

/// Bytes in a record, such as a journal's, which may be no UTF-8.
#[derive(Debug, Drop)]
pub struct Bytes {
    bytes: Vec<u8>,
}

impl Model for Bytes {
    ghost Value = { List ℕ };

    ghost view = { λ b. b.bytes.items };
}

impl Bytes {
    /// The same bytes, or 40 where there is no memory for them.
    pub fn of(alloc: Global, bytes: &[u8]) -> Result<Self, Cause>
        ensures equal { IfOk result (λ b. b ≡ bytes.now) }
        ensures memory { IsOkUnless result Cause.OutOfMemory }
    {
        let bytes = Vec::from_slice(alloc, bytes)?;
        Ok(Bytes { bytes })
    }

    /// The bytes of a vector, without a copy.
    pub fn from_vec(bytes: Vec<u8>) -> Self
        ensures { result ≡ bytes.items }
    {
        Bytes { bytes }
    }

    /// The bytes.
    pub fn as_bytes(&self) -> &[u8]
        ensures { result.now ≡ self.now }
    {
        self.bytes.as_slice()
    }
}
