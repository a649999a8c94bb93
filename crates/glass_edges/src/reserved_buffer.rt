//! A buffer that is reserved for one file.

ghost use Rattle.std.specs.Prelude.{◌≡◌, ◌≤◌, length, IfOk};

use crate::NoMemory;
use std::alloc::Global;
use std::marker::Model;

/// Memory for at most so many bytes; contracts see that number alone, which is the number asked
/// for and not the capacity that was got.
#[derive(Drop)]
pub(crate) struct ReservedBuffer {
    bytes: Vec<u8>,
    limit: usize,
}

impl Model for ReservedBuffer {
    ghost use Rattle.std.specs.Prelude.{◌≡◌, ◌≤◌, ℕ, [], vec_capacity};

    ghost Value = { ℕ };

    ghost view = { λ b. b.limit };

    ghost invariant = { λ b. (b.bytes.items ≡ []) × (b.limit ≤ vec_capacity b.bytes) };
}

impl ReservedBuffer {
    /// A buffer for at most `limit` bytes.
    pub(crate) fn of(alloc: Global, limit: usize) -> Result<ReservedBuffer, NoMemory>
        ensures { IfOk result (λ b. b ≡ limit) }
    {
        let bytes = Vec::with_capacity(alloc, limit)?;
        Ok(ReservedBuffer { bytes, limit })
    }

    /// The most bytes that fit.
    pub(crate) fn limit(&self) -> usize
        ensures { result ≡ self.now }
    {
        self.limit
    }

    /// The buffer's memory with these bytes in it; takes no memory.
    pub(crate) fn filled(self, bytes: &[u8]) -> Vec<u8>
        requires { length bytes.now ≤ self }
        ensures { result.items ≡ bytes.now }
    {
        let ReservedBuffer {
            bytes: mut memory,
            limit: _,
        } = self;
        let _ = memory.extend_from_slice(bytes);
        memory
    }
}
