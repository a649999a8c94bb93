//! An epoch of a bank.

ghost use Rattle.std.specs.Prelude.{◌<◌, ◌≤◌};
ghost use Rattle.spin_model.specs.Limits.{last_epoch};

use scalar_rule::Plan;

/// What the slots of a bank share in an epoch: their plan, of how many epochs the last is measured, the epoch,
/// and into how many pieces the planes of a sweep are cut at most.
#[derive(Clone, Copy)]
pub(crate) struct Step<'a> {
    pub(crate) plan: &'a Plan,
    pub(crate) every: u64,
    pub(crate) epoch: u64,
    pub(crate) pieces: u32,
    ghost some_every: { 1 ≤ every },
    ghost short: { epoch < last_epoch },
    ghost some_pieces: { 1 ≤ pieces },
    ghost few_pieces: { pieces ≤ 16 },
}
