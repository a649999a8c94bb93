//! The bytes that an output took, kept for proofs alone.

ghost use Rattle.std.specs.Prelude.{◌≡◌, ◌++◌, ◌∷◌, []};
ghost use Rattle.glass_edges.specs.TakenBytes.{bytes_of};

use std::snapshot::Snapshot;

/// The bytes that were taken, in their order. Its values stand in snapshots, so a program makes none.
#[derive(Drop)]
pub(crate) enum TakenBytes {
    /// None was taken.
    Nothing,
    /// This byte was taken behind those of the snapshot.
    Byte(Snapshot<TakenBytes>, u8),
}

/// No bytes.
pub(crate) fn none_taken() -> Snapshot<TakenBytes>
    ensures { bytes_of result.value ≡ [] }
{
    Snapshot::of(&TakenBytes::Nothing)
}

/// These bytes, and one behind them.
fn with_byte(taken: Snapshot<TakenBytes>, byte: u8) -> Snapshot<TakenBytes>
    ensures { bytes_of result.value ≡ bytes_of taken.value ++ byte ∷ [] }
{
    Snapshot::of(&TakenBytes::Byte(taken, byte))
}

/// These bytes, and a piece behind them.
pub(crate) fn with_piece(mut taken: Snapshot<TakenBytes>, piece: &[u8]) -> Snapshot<TakenBytes>
    ensures { bytes_of result.value ≡ bytes_of taken.value ++ piece.now }
{
    'bytes: for &byte in piece {
        taken = with_byte(taken, byte);
    }
    taken
}
