//! How all bytes of a text are put.

ghost use Rattle.std.specs.Prelude.{◌≡◌, [], Ok};
ghost use Rattle.glass_edges.specs.Writes.{Writes};

use crate::{Fault, Sink};

/// Puts all of the bytes, piece by piece; where there are none it makes no put. It ends at the first
/// error, which counts a fault: the output has then taken a prefix of them.
#[tactic(auto, using(crate::proofs::Puts::appended_rest, crate::proofs::Puts::rest_left))]
pub fn put_all<S: Sink>(sink: &mut S, bytes: &[u8]) -> Result<(), Fault>
    ensures written { Writes S.Sink sink.old sink.new bytes.now result }
    ensures nothing { bytes.now ≡ [] → (result ≡ Ok tt) × (sink.new ≡ sink.old) }
{
    let mut at = 0;
    'pieces: while at < bytes.len() {
        at += sink.put(&bytes[at..])?;
    }
    Ok(())
}
