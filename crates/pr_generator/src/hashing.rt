//! Numbers in the message of a digest.

ghost use Rattle.std.specs.Prelude.{ℕ, ◌++◌, List};
ghost use Rattle.byteorder.specs.Endian.{big_bytes};
ghost use Rattle.sha2.specs.Hashers.{Holds256};

use byteorder::{BigEndian, ByteOrder};
use sha2::{Digest, Sha256};

/// Adds a number as four big-endian bytes to the message that a hasher holds.
pub fn add_u32(hasher: &mut Sha256, number: u32)
    ensures { (m : List ℕ) → Holds256 hasher.old m → Holds256 hasher.new (m ++ big_bytes 4 number) }
{
    let mut bytes = [0u8; 4];
    BigEndian::write_u32(&mut bytes, number);
    hasher.update(&bytes);
}

/// Adds a number as eight big-endian bytes to the message that a hasher holds.
pub fn add_u64(hasher: &mut Sha256, number: u64)
    ensures { (m : List ℕ) → Holds256 hasher.old m → Holds256 hasher.new (m ++ big_bytes 8 number) }
{
    let mut bytes = [0u8; 8];
    BigEndian::write_u64(&mut bytes, number);
    hasher.update(&bytes);
}
