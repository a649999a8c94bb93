//! Numbers in the bytes of a file, big-endian.

ghost use Rattle.std.specs.Prelude.{◌≡◌, ◌+◌, ◌≤◌, length};
ghost use Rattle.glass_edges.specs.Numbers.{number_at};

use byteorder::{BigEndian, ByteOrder};

/// The number of four bytes at a place.
pub fn u32_at(bytes: &[u8], place: usize) -> u32
    requires { place + 4 ≤ length bytes.now }
    ensures { result ≡ number_at 4 place bytes.now }
{
    BigEndian::read_u32(&bytes[place..])
}
