//! What a quench is made by.

ghost use Rattle.std.specs.Prelude.{◌<◌, ◌≤◌, length};
ghost use Rattle.quenched_states.specs.KeptStates.{AreQuenchTimes};

use scalar_rule::Plan;
use std::alloc::Global;
use std::sync::Arc;

/// A quench of 1 to 4 banks of 64 samples, each of which has its own plan: the epochs at which its states are
/// kept, how many slots are swept at a time at most, and into how many pieces the planes of a sweep are cut at
/// most. What is kept depends on neither of the last two.
#[derive(Clone, Copy)]
pub struct Quench<'a> {
    pub plans: &'a [Arc<Plan, Global>],
    pub times: &'a [u64],
    pub workers: u32,
    pub pieces: u32,
    ghost some_plans: { 0 < length plans.now },
    ghost times_rise: { AreQuenchTimes times.now },
    ghost some_workers: { 1 ≤ workers },
    ghost some_pieces: { 1 ≤ pieces },
    ghost few_pieces: { pieces ≤ 16 },
}
