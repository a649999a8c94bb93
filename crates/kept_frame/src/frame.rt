//! The tests of the frame, in their order.

ghost use Rattle.std.specs.Prelude.{◌≡◌, ◌≤◌, length, IfNone};
ghost use Rattle.kept_frame.specs.Told.{told, HasForm};
ghost use Rattle.quenched_states.specs.KeptBytes.{kept_length, longest_kept};
ghost use Rattle.quenched_states.specs.KeptTests as tests;

use crate::places::kept_count;
use crate::refused::KeptRefused;
use crate::room::kept_length;
use glass_edges::stored_digest;
use sha2::{Digest, Sha256};

/// The first refusal of the frame of kept states: of at most `most`, of which each has a checkpoint of `level`
/// bytes. Where there is none, it has so many states as it says.
pub fn frame_refusal(bytes: &[u8], level: u64, most: u32) -> Option<KeptRefused>
    requires { level ≤ longest_kept }
    ensures value { result ≡ tests.frame_refusal told level most bytes.now }
    ensures form { IfNone result (HasForm level most bytes.now) }
{
    if let Some(refused) = short_frame(bytes) {
        return Some(refused);
    }
    if let Some(refused) = wrong_count(bytes, most) {
        return Some(refused);
    }
    if let Some(refused) = wrong_length(bytes, level) {
        return Some(refused);
    }
    wrong_digest(bytes)
}

// Too few bytes for a header and a digest.
#[tactic(auto, unfolding(quenched_states::specs::KeptTests::short_frame))]
fn short_frame(bytes: &[u8]) -> Option<KeptRefused>
    ensures value { result ≡ tests.short_frame told bytes.now }
    ensures long { IfNone result (44 ≤ length bytes.now) }
{
    let len = bytes.len();
    if len < 44 {
        return Some(KeptRefused::Short { len: len as u64 });
    }
    None
}

// No state, or too many.
#[tactic(auto, unfolding(quenched_states::specs::KeptTests::wrong_count))]
fn wrong_count(bytes: &[u8], most: u32) -> Option<KeptRefused>
    requires { 44 ≤ length bytes.now }
    ensures value { result ≡ tests.wrong_count told most bytes.now }
    ensures some { IfNone result (1 ≤ tests.kept_count bytes.now) }
    ensures few { IfNone result (tests.kept_count bytes.now ≤ most) }
{
    let states = kept_count(bytes);
    if states >= 1 && states <= most {
        None
    } else {
        Some(KeptRefused::States { states, most })
    }
}

// Another length than that of its states.
#[tactic(auto, unfolding(quenched_states::specs::KeptTests::wrong_length))]
fn wrong_length(bytes: &[u8], level: u64) -> Option<KeptRefused>
    requires level { level ≤ longest_kept }
    requires long { 44 ≤ length bytes.now }
    ensures value { result ≡ tests.wrong_length told level bytes.now }
    ensures len { IfNone result (length bytes.now ≡ kept_length (tests.kept_count bytes.now) level) }
{
    let found = bytes.len() as u64;
    let wanted = kept_length(kept_count(bytes), level);
    if found == wanted {
        None
    } else {
        Some(KeptRefused::Length { found, wanted })
    }
}

// Another digest than that of all bytes before it.
#[tactic(auto, unfolding(quenched_states::specs::KeptTests::wrong_digest))]
fn wrong_digest(bytes: &[u8]) -> Option<KeptRefused>
    requires { 44 ≤ length bytes.now }
    ensures { result ≡ tests.wrong_digest told bytes.now }
{
    let end = bytes.len() - 32;
    let stored = stored_digest(&bytes[end..]);
    let computed = Sha256::digest(&bytes[..end]);
    if stored == computed {
        None
    } else {
        Some(KeptRefused::Digest { stored, computed })
    }
}
