//! What a lock keeps.
ghost use Rattle.std.specs.Prelude.{List, ℕ};

/// A value that a lock can keep.
pub trait Kept: Drop {
    /// The type of the value's provenance.
    type Origin;

    // The provenance: plain data that no seat changes.
    ghost origin: { Self → Self.Origin };

    // The progress words, one a place: 4 * epoch + phase.
    ghost marks: { Self → List ℕ };
}
