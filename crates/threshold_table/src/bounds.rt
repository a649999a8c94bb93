//! How many records and fields a text may have.

ghost use Rattle.std.specs.Prelude.{◌≡◌};
ghost use Rattle.threshold_table.specs.TableText.{is_within};

/// A count from `least` to `most`, both included.
#[derive(Clone, Copy)]
pub(crate) struct Bounds {
    pub(crate) least: usize,
    pub(crate) most: usize,
}

impl Bounds {
    /// Whether a count lies within the bounds.
    pub(crate) fn contains(self, count: usize) -> bool
        ensures { result ≡ is_within self count }
    {
        self.least <= count && count <= self.most
    }
}
