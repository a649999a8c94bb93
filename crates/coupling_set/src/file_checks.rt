//! The tests of a couplings file, in their order.

ghost use Rattle.std.specs.Prelude.{◌≡◌, ◌≤◌, length, IfNone, IfSome};
ghost use Rattle.coupling_set.specs.CouplingsFile as model;
ghost use Rattle.coupling_set.specs.CouplingsFile.{sample_bytes, file_length, samples_in, IsNamed};
ghost use Rattle.spin_model.specs.Lattice.{IsLawfulSize};

use crate::refused::CouplingsRefused;
use glass_edges::{stored_digest, u32_at};
use sha2::{Digest, Sha256};
use spin_model::MOST_SAMPLES;

/// What a file begins with.
pub(crate) const MAGIC: &[u8; 8] = b"GLASSCJ1";

/// The number of bytes that one sample takes.
pub(crate) fn sample_bytes(size: u32) -> u32
    requires { IsLawfulSize size }
    ensures value { result ≡ sample_bytes size }
    ensures few { result ≤ 98304 }
{
    3 * (size * size * size) / 8
}

/// The number of samples of a file.
pub(crate) fn samples_in(bytes: &[u8]) -> u32
    requires { 48 ≤ length bytes.now }
    ensures { result ≡ samples_in bytes.now }
{
    u32_at(bytes, 12)
}

#[tactic(auto, unfolding(crate::specs::CouplingsFile::short))]
fn short(bytes: &[u8]) -> Option<CouplingsRefused>
    ensures value { result ≡ model.short bytes.now }
    ensures long { IfNone result (48 ≤ length bytes.now) }
    ensures named { IfSome result IsNamed }
{
    if bytes.len() < 48 {
        return Some(CouplingsRefused::Short {
            len: bytes.len() as u64,
        });
    }
    None
}

#[tactic(auto, unfolding(crate::specs::CouplingsFile::other_kind))]
fn other_kind(bytes: &[u8]) -> Option<CouplingsRefused>
    requires { 48 ≤ length bytes.now }
    ensures value { result ≡ model.other_kind bytes.now }
    ensures named { IfSome result IsNamed }
{
    if &bytes[..8] == MAGIC.as_slice() {
        None
    } else {
        Some(CouplingsRefused::Magic)
    }
}

#[tactic(auto, unfolding(crate::specs::CouplingsFile::other_size))]
fn other_size(size: u32, bytes: &[u8]) -> Option<CouplingsRefused>
    requires { 48 ≤ length bytes.now }
    ensures value { result ≡ model.other_size size bytes.now }
    ensures named { IfSome result IsNamed }
{
    let found = u32_at(bytes, 8);
    if found == size {
        None
    } else {
        Some(CouplingsRefused::Size { found })
    }
}

#[tactic(auto, unfolding(crate::specs::CouplingsFile::other_samples))]
fn other_samples(bytes: &[u8]) -> Option<CouplingsRefused>
    requires { 48 ≤ length bytes.now }
    ensures value { result ≡ model.other_samples bytes.now }
    ensures few { IfNone result (samples_in bytes.now ≤ 256) }
    ensures named { IfSome result IsNamed }
{
    let found = samples_in(bytes);
    if 1 <= found && found <= MOST_SAMPLES {
        None
    } else {
        Some(CouplingsRefused::Samples { found })
    }
}

#[tactic(auto, unfolding(crate::specs::CouplingsFile::other_length))]
fn other_length(size: u32, bytes: &[u8]) -> Option<CouplingsRefused>
    requires long { 48 ≤ length bytes.now }
    requires few { samples_in bytes.now ≤ 256 }
    requires lawful { IsLawfulSize size }
    ensures value { result ≡ model.other_length size bytes.now }
    ensures len { IfNone result (length bytes.now ≡ file_length size (samples_in bytes.now)) }
    ensures named { IfSome result IsNamed }
{
    let found = bytes.len() as u64;
    let wanted = 48 + samples_in(bytes) as u64 * sample_bytes(size) as u64;
    if found == wanted {
        None
    } else {
        Some(CouplingsRefused::Length { found, wanted })
    }
}

#[tactic(auto, unfolding(crate::specs::CouplingsFile::damaged))]
fn damaged(bytes: &[u8]) -> Option<CouplingsRefused>
    requires { 48 ≤ length bytes.now }
    ensures value { result ≡ model.damaged bytes.now }
    ensures named { IfSome result IsNamed }
{
    let end = bytes.len() - 32;
    let stored = stored_digest(&bytes[end..]);
    let computed = Sha256::digest(&bytes[..end]);
    if stored == computed {
        None
    } else {
        Some(CouplingsRefused::Digest { stored, computed })
    }
}

/// The first reason to refuse the bytes as couplings of a lattice of this side.
#[tactic(auto, unfolding(crate::specs::CouplingsFile::file_refusal))]
pub(crate) fn file_refusal(size: u32, bytes: &[u8]) -> Option<CouplingsRefused>
    requires { IsLawfulSize size }
    ensures value { result ≡ model.file_refusal size bytes.now }
    ensures few { IfNone result (samples_in bytes.now ≤ 256) }
    ensures len { IfNone result (length bytes.now ≡ file_length size (samples_in bytes.now)) }
    ensures named { IfSome result IsNamed }
{
    if let Some(refused) = short(bytes) {
        return Some(refused);
    }
    if let Some(refused) = other_kind(bytes) {
        return Some(refused);
    }
    if let Some(refused) = other_size(size, bytes) {
        return Some(refused);
    }
    if let Some(refused) = other_samples(bytes) {
        return Some(refused);
    }
    if let Some(refused) = other_length(size, bytes) {
        return Some(refused);
    }
    damaged(bytes)
}
