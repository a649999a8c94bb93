//! The sums of a slot as numbers, for its records.

ghost use Rattle.std.specs.Prelude.{◌≡◌, ℕ, ◌<◌, slice_index};
ghost use Rattle.exchange_board.specs.Measured.{Measures};
ghost use Rattle.multispin_word.specs.Planes.{number};
ghost use Rattle.plane_sweep.specs.Packed.{part_slot, FitsDuo};
ghost use Rattle.scalar_rule.specs.Epoch as model;
ghost use Rattle.slot_steps.specs.Totals.{AreTotals};

use bit_totals::agreeing;
use multispin_word::Planes;
use plane_sweep::Duo;
use scalar_rule::{Plan, Record, excess};
use slot_steps::Totals;

/// The sums of a slot as numbers, sample by sample, for its records: the unsatisfied bonds of both
/// replicas, and the sites at which they agree.
#[derive(Drop)]
pub struct Measured {
    pub first: [u32; 64],
    pub second: [u32; 64],
    pub agreeing: [u32; 64],
}

/// The sums of a slot as numbers.
pub(crate) fn measure(duo: &Duo, totals: &Totals, plan: &Plan) -> Measured
    requires duo { FitsDuo plan.now.size duo.now }
    requires totals { AreTotals plan.now duo.now totals.now }
    ensures { Measures plan.now duo.now result }
{
    let _ = plan.lattice();
    Measured {
        first: numbers(&totals.first),
        second: numbers(&totals.second),
        agreeing: numbers(&agreeing(&duo.first, &duo.second)),
    }
}

// The numbers of 64 samples.
fn numbers(planes: &Planes<20>) -> [u32; 64]
    ensures { (b : ℕ) → b < 64 → slice_index result b ≡ number planes.now.words b }
{
    let mut all = [0u32; 64];
    planes.to_numbers(&mut all);
    all
}

/// What is measured of a slot in one sample.
pub(crate) fn record_of(duo: &Duo, measured: &Measured, plan: &Plan, sample: u32) -> Record
    requires duo { FitsDuo plan.now.size duo.now }
    requires measured { Measures plan.now duo.now measured.now }
    requires sample { sample < 64 }
    ensures { result ≡ model.record_of plan.now sample (part_slot plan.now.size sample duo.now) }
{
    let sites = plan.lattice().sites();
    let sample = sample as usize;
    Record {
        first_energy: excess(measured.first[sample], 3 * sites),
        second_energy: excess(measured.second[sample], 3 * sites),
        overlap: excess(measured.agreeing[sample], sites),
        first_replica: duo.first.labels[sample],
        second_replica: duo.second.labels[sample],
    }
}
