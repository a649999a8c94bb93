//! Parts of the bytes of a checkpoint at their places.

ghost use Rattle.std.specs.Prelude.{◌≡◌, ◌+◌, ◌≤◌, length, drop};
ghost use Rattle.run_checkpoint.specs.Reading.{piece, number_at};
ghost use Rattle.run_checkpoint.specs.UnevenDecoding.{signed_at};

use byteorder::{BigEndian, ByteOrder};

// The bytes from a place on.
pub(crate) fn behind(bytes: &[u8], place: usize) -> &[u8]
    requires { place ≤ length bytes.now }
    ensures value { result.now ≡ drop place bytes.now }
    ensures len { length result.now + place ≡ length bytes.now }
{
    &bytes[place..]
}

// So many bytes from a place on.
pub(crate) fn piece(bytes: &[u8], place: usize, len: usize) -> &[u8]
    requires { place + len ≤ length bytes.now }
    ensures value { result.now ≡ piece place len bytes.now }
    ensures len { length result.now ≡ len }
{
    &bytes[place..place + len]
}

// The number of eight bytes at a place.
pub(crate) fn u64_at(bytes: &[u8], place: usize) -> u64
    requires { place + 8 ≤ length bytes.now }
    ensures { result ≡ number_at 8 place bytes.now }
{
    BigEndian::read_u64(behind(bytes, place))
}

// The signed number of four bytes at a place.
pub(crate) fn i32_at(bytes: &[u8], place: usize) -> i32
    requires { place + 4 ≤ length bytes.now }
    ensures { result ≡ signed_at place bytes.now }
{
    BigEndian::read_i32(behind(bytes, place))
}
