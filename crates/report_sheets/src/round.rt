//! Which epochs a round has, and which of them a part.

ghost use Rattle.std.specs.Prelude.{◌≡◌, ◌+◌, ◌*◌, ◌<◌, ◌≤◌, min};
ghost use Rattle.report_sheets.specs.Sheets.{start_of};

/// The epochs of the parts of one round: each has so many, from the first on and before the last.
#[derive(Clone, Copy)]
pub(crate) struct Round {
    pub(crate) first: u64,
    pub(crate) step: u64,
    pub(crate) last: u64,
}

impl Round {
    /// The epoch at which part k begins, and that before it ends.
    pub(crate) fn start(&self, k: u64) -> u64
        ensures { result ≡ start_of self.now k }
    {
        let ahead = self.step.saturating_mul(k);
        self.first.saturating_add(ahead).min(self.last)
    }
}

/// How many epochs a part has and how many a round, and the epoch to which there are rows.
#[derive(Clone, Copy)]
pub(crate) struct Pace {
    pub(crate) step: u64,
    pub(crate) span: u64,
    pub(crate) end: u64,
}

impl Pace {
    /// The pace of rounds of so many parts.
    pub(crate) fn of(step: u64, parts: usize, end: u64) -> Pace
        requires step { 1 ≤ step }
        requires parts { 0 < parts }
        ensures goes_on { 1 ≤ result.span }
        ensures within { result.span ≤ step * parts }
        ensures step { result.step ≡ step }
        ensures end { result.end ≡ end }
    {
        Pace {
            step,
            span: step.saturating_mul(parts as u64),
            end,
        }
    }

    /// The round from an epoch on.
    pub(crate) fn round(&self, first: u64) -> Round
        ensures first { result.first ≡ first }
        ensures step { result.step ≡ self.now.step }
        ensures last { result.last ≡ min (first + self.now.span) self.now.end }
    {
        Round {
            first,
            step: self.step,
            last: first.saturating_add(self.span).min(self.end),
        }
    }

    /// A round of no epochs, at this one.
    pub(crate) fn empty(&self, first: u64) -> Round
        ensures first { result.first ≡ first }
        ensures last { result.last ≡ first }
    {
        Round {
            first,
            step: self.step,
            last: first,
        }
    }
}
