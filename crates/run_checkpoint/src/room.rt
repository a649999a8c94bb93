//! A buffer that is reserved before a run, so that writing a checkpoint after it takes no memory.

ghost use Rattle.std.specs.Prelude.{◌≡◌, ◌+◌, ◌*◌, ◌≤◌, [], drop, length, IfOk};
ghost use Rattle.byteorder.specs.Endian.{big_bytes};
ghost use Rattle.sha2.specs.Sha256.{sha256};
ghost use Rattle.spin_model.specs.Limits.{greatest_half_plane};
ghost use Rattle.spin_model.specs.Words.{words_32, words_64};
ghost use Rattle.run_checkpoint.specs.Kinds.{signed_bytes};
ghost use Rattle.run_checkpoint.specs.Lengths.{longest_checkpoint};
ghost use Rattle.run_checkpoint.specs.Rooms.{Puts};

use crate::places::behind;
use byteorder::{BigEndian, ByteOrder};
use glass_edges::NoMemory;
use sha2::{Digest, Sha256};
use spin_model::GREATEST_HALF_PLANE;
use std::alloc::Global;
use std::marker::Model;

/// A reserved buffer. Contracts see its bytes and how many more fit, `spare`.
#[derive(Drop)]
pub struct Room {
    bytes: Vec<u8>,
    limit: usize,
}

impl Model for Room {
    ghost use Rattle.run_checkpoint.specs.Rooms.{RoomView, room_view};

    ghost Value = { RoomView };

    ghost view = { room_view };

    ghost use Rattle.std.specs.Prelude.{◌≤◌, vec_len, vec_capacity};

    ghost invariant = { λ room. (vec_len room.bytes ≤ room.limit) × (room.limit ≤ vec_capacity room.bytes) };
}

impl Room {
    /// An empty buffer for so many bytes, at most `LONGEST_CHECKPOINT`.
    ///
    /// # Errors
    ///
    /// Refuses only for lack of memory.
    pub fn reserve(alloc: Global, len: u64) -> Result<Room, NoMemory>
        requires { len ≤ longest_checkpoint }
        ensures empty { IfOk result (λ room. room.bytes ≡ []) }
        ensures spare { IfOk result (λ room. len ≤ room.spare) }
    {
        Ok(Room {
            bytes: Vec::with_capacity(alloc, len as usize)?,
            limit: len as usize,
        })
    }

    /// What was written.
    pub fn bytes(&self) -> &[u8]
        ensures { result.now ≡ self.now.bytes }
    {
        &self.bytes
    }

    /// Gives back the room of all bytes.
    pub fn clear(&mut self)
        ensures bytes { self.new.bytes ≡ [] }
        ensures spare { self.new.spare ≡ self.old.spare + length self.old.bytes }
    {
        self.bytes.clear();
    }

    // Puts a piece behind the bytes.
    pub(crate) fn put(&mut self, piece: &[u8])
        requires { length piece.now ≤ self.old.spare }
        ensures { Puts self.old self.new piece.now }
    {
        let _ = self.bytes.extend_from_slice(piece);
    }

    // Puts a number in four bytes.
    pub(crate) fn put_u32(&mut self, number: u32)
        requires { 4 ≤ self.old.spare }
        ensures { Puts self.old self.new (big_bytes 4 number) }
    {
        let mut piece = [0u8; 4];
        BigEndian::write_u32(&mut piece, number);
        self.put(&piece);
    }

    // Puts a number in eight bytes.
    pub(crate) fn put_u64(&mut self, number: u64)
        requires { 8 ≤ self.old.spare }
        ensures { Puts self.old self.new (big_bytes 8 number) }
    {
        let mut piece = [0u8; 8];
        BigEndian::write_u64(&mut piece, number);
        self.put(&piece);
    }

    // Puts the words of a generator.
    pub(crate) fn put_generator(&mut self, words: &[u32; 61])
        requires { 244 ≤ self.old.spare }
        ensures { Puts self.old self.new (words_32 words.now) }
    {
        let mut piece = [0u8; 244];
        BigEndian::write_u32_into(words, &mut piece);
        self.put(&piece);
    }

    // Puts the spin words of a plane.
    pub(crate) fn put_spins(&mut self, words: &[u64])
        requires few { length words.now ≤ greatest_half_plane }
        requires room { 8 * length words.now ≤ self.old.spare }
        ensures { Puts self.old self.new (words_64 words.now) }
    {
        let mut block = [0u8; 8 * GREATEST_HALF_PLANE];
        let piece = &mut block[..8 * words.len()];
        BigEndian::write_u64_into(words, piece);
        self.put(piece);
    }

    // Puts a signed number in four bytes.
    pub(crate) fn put_i32(&mut self, number: i32)
        requires { 4 ≤ self.old.spare }
        ensures { Puts self.old self.new (signed_bytes number) }
    {
        let mut piece = [0u8; 4];
        BigEndian::write_i32(&mut piece, number);
        self.put(&piece);
    }

    // Puts the digest of the bytes from a place on behind them.
    pub(crate) fn seal(&mut self, start: usize)
        requires start { start ≤ length self.old.bytes }
        requires room { 32 ≤ self.old.spare }
        ensures { Puts self.old self.new (sha256 (drop start self.old.bytes)) }
    {
        let digest = Sha256::digest(behind(self.bytes(), start));
        self.put(&digest);
    }
}
