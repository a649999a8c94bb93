//! Marsaglia's xorshift generator, with the shifts 13, 7 and 17, as the C sides have it.

/// What all generators begin with.
pub const FIRST: u64 = 88172645463325252;

/// The next word.
pub fn next_word(state: &mut u64) -> u64 {
    *state ^= *state << 13;
    *state ^= *state >> 7;
    *state ^= *state << 17;
    *state
}
