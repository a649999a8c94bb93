//! What stands where in the bytes of kept states.

ghost use Rattle.std.specs.Prelude.{◌≡◌, ◌+◌, ◌*◌, ◌≤◌, length};
ghost use Rattle.quenched_states.specs.KeptTests as tests;

use glass_edges::u32_at;

/// Whether these are the bytes of kept states; all others are the checkpoint of one state.
pub fn are_kept(bytes: &[u8]) -> bool
    ensures { result ≡ tests.are_kept bytes.now }
{
    let front = &bytes[..bytes.len().min(8)];
    front == b"GLASSKS1".as_slice()
}

/// How many states there are.
pub fn kept_count(bytes: &[u8]) -> u32
    requires { 12 ≤ length bytes.now }
    ensures { result ≡ tests.kept_count bytes.now }
{
    u32_at(bytes, 8)
}

/// The checkpoint of a state, counted from 0, where each has `level` bytes.
pub fn state_bytes(bytes: &[u8], level: usize, state: usize) -> &[u8]
    requires { 12 + level * state + level ≤ length bytes.now }
    ensures value { result.now ≡ tests.state_bytes level bytes.now state }
    ensures len { length result.now ≡ level }
{
    let behind = &bytes[12 + level * state..];
    &behind[..level]
}
