//! The bytes of a file, read piece by piece, over any reader.

ghost use Rattle.std.specs.Prelude.{◌≡◌, ℕ, ◌+◌, ◌<◌, ◌≤◌, length, IfOk, IfErr, IfSome};
ghost use Rattle.std.specs.IoError.{error_kind};
ghost use Rattle.glass_edges.specs.FileBytes.{IsUnopened};

use crate::Fetched;
use std::alloc::Global;
use std::io::{self, ErrorKind, Read};

/// What a file of at most `limit` bytes gives, of which the system has told whether it can be read.
pub(crate) fn read_opened<F: Read + Drop>(
    opened: io::Result<F>,
    alloc: Global,
    limit: u64,
) -> Fetched
    ensures unopened { IfErr opened (λ error. IsUnopened (error_kind error) result) }
    ensures whole { (v : _) → result ≡ Fetched.Held v
        → IfOk opened (λ file. IfSome (F.remaining file) (λ bytes. v.items ≡ bytes)) }
    ensures limit { (v : _) → result ≡ Fetched.Held v → length v.items ≤ limit }
    ensures past { (n : ℕ) → result ≡ Fetched.TooLong n
        → IfOk opened (λ file. IfSome (F.remaining file) (λ bytes. limit < length bytes)) }
    ensures one_past { (n : ℕ) → result ≡ Fetched.TooLong n → n ≡ limit + 1 }
{
    match opened {
        Ok(mut file) => read_within(&mut file, alloc, limit),
        Err(error) => unopened(error.kind()),
    }
}

// What is answered of a file that the system can't open.
fn unopened(kind: ErrorKind) -> Fetched
    ensures { IsUnopened kind result }
{
    match kind {
        ErrorKind::NotFound => Fetched::Absent,
        _ => Fetched::Failed,
    }
}

// Reads to the end, or one byte past the limit. A read that gives fewer bytes than there is room for
// is no end, and neither is one that fails, which is answered as a fault and not tried again.
fn read_within<F: Read>(file: &mut F, alloc: Global, limit: u64) -> Fetched
    ensures whole { (v : _) → result ≡ Fetched.Held v
        → IfSome (F.remaining file.old) (λ bytes. v.items ≡ bytes) }
    ensures limit { (v : _) → result ≡ Fetched.Held v → length v.items ≤ limit }
    ensures past { (n : ℕ) → result ≡ Fetched.TooLong n
        → IfSome (F.remaining file.old) (λ bytes. limit < length bytes) }
    ensures one_past { (n : ℕ) → result ≡ Fetched.TooLong n → n ≡ limit + 1 }
    ensures present { ¬ (result ≡ Fetched.Absent) }
{
    let mut bytes = Vec::new(alloc);
    let mut chunk = [0u8; 4096];
    'chunks: for _ in 0..u64::MAX {
        let left = limit.saturating_sub(bytes.len() as u64);
        let most = left.saturating_add(1).min(4096) as usize;
        match file.read(&mut chunk[..most]) {
            Ok(0) => return Fetched::Held(bytes),
            Ok(count) if count as u64 > left => return Fetched::TooLong(limit + 1),
            Ok(count) => {
                if bytes.extend_from_slice(&chunk[..count]).is_err() {
                    return Fetched::NoMemory;
                }
            }
            Err(_) => return Fetched::Failed,
        }
    }
    Fetched::Failed
}
