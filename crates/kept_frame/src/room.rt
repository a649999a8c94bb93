//! A buffer that is reserved before a quench, so that writing its states takes no memory.

ghost use Rattle.std.specs.Prelude.{◌≡◌, ◌+◌, ◌≤◌, [], ◌++◌, length, IfOk};
ghost use Rattle.kept_frame.specs.Rooms.{Puts};
ghost use Rattle.quenched_states.specs.KeptBytes as kept;
ghost use Rattle.sha2.specs.Sha256.{sha256};

use byteorder::{BigEndian, ByteOrder};
use glass_edges::NoMemory;
use sha2::{Digest, Sha256};
use std::alloc::Global;
use std::marker::Model;

/// The most bytes of kept states, as many as the longest checkpoint has.
pub const LONGEST_KEPT: u64 = 544943596;

/// The number of bytes of so many states, of which each has a checkpoint of `level` bytes.
pub fn kept_length(states: u32, level: u64) -> u64
    requires { level ≤ kept.longest_kept }
    ensures { result ≡ kept.kept_length states level }
{
    44 + states as u64 * level
}

/// A reserved buffer. Contracts see its bytes and how many more fit, `spare`.
#[derive(Drop)]
pub struct KeptRoom {
    bytes: Vec<u8>,
    limit: usize,
}

impl Model for KeptRoom {
    ghost use Rattle.kept_frame.specs.Rooms.{KeptRoomView, room_view};

    ghost Value = { KeptRoomView };

    ghost view = { room_view };

    ghost use Rattle.std.specs.Prelude.{◌≤◌, vec_len, vec_capacity};

    ghost invariant = { λ room. (vec_len room.bytes ≤ room.limit) × (room.limit ≤ vec_capacity room.bytes) };
}

impl KeptRoom {
    /// An empty buffer for so many bytes, at most [`LONGEST_KEPT`].
    ///
    /// # Errors
    ///
    /// Refuses only for lack of memory.
    pub fn reserve(alloc: Global, len: u64) -> Result<KeptRoom, NoMemory>
        requires { len ≤ kept.longest_kept }
        ensures empty { IfOk result (λ room. room.bytes ≡ []) }
        ensures spare { IfOk result (λ room. len ≤ room.spare) }
    {
        Ok(KeptRoom {
            bytes: Vec::with_capacity(alloc, len as usize)?,
            limit: len as usize,
        })
    }

    /// What was written.
    pub fn bytes(&self) -> &[u8]
        ensures { result.now ≡ self.now.bytes }
    {
        &self.bytes
    }

    /// Begins the bytes of so many states in an empty buffer; the checkpoint of each follows. Takes no memory.
    #[tactic(auto, unfolding(quenched_states::specs::KeptBytes::kept_header))]
    pub fn begin(&mut self, states: u32)
        requires empty { self.old.bytes ≡ [] }
        requires spare { 12 ≤ self.old.spare }
        ensures bytes { self.new.bytes ≡ kept.kept_header states }
        ensures spare { self.new.spare + 12 ≡ self.old.spare }
    {
        self.put(b"GLASSKS1");
        let mut piece = [0u8; 4];
        BigEndian::write_u32(&mut piece, states);
        self.put(&piece);
    }

    /// Puts the checkpoint of a state behind the bytes. Takes no memory.
    pub fn put(&mut self, state: &[u8])
        requires { length state.now ≤ self.old.spare }
        ensures { Puts self.old self.new state.now }
    {
        let _ = self.bytes.extend_from_slice(state);
    }

    /// Ends the bytes with the digest of all of them. Takes no memory.
    pub fn end(&mut self)
        requires { 32 ≤ self.old.spare }
        ensures bytes { self.new.bytes ≡ self.old.bytes ++ sha256 self.old.bytes }
        ensures spare { self.new.spare + 32 ≡ self.old.spare }
    {
        let digest = Sha256::digest(self.bytes());
        self.put(&digest);
    }
}
