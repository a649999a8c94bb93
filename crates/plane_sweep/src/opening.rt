//! The packed state that a run begins with.

ghost use Rattle.std.specs.Prelude.{◌≡◌, ◌+◌, ◌*◌, ◌<◌, IfOk, OnOk, replicate};
ghost use Rattle.plane_sweep.specs.Beginnings.{Each, ArePlaneWords, HasSpins, HasDraws, BeginsPlane, BeginsReplica, BeginsDuo, BeginsPair};
ghost use Rattle.scalar_rule.specs.Opening.{all_up};
ghost use Rattle.scalar_rule.specs.Plan.{pairs_of, slots_of};
ghost use Rattle.scalar_rule.specs.declared.sample.Start.TheVariants.{Up, Random};
ghost use Rattle.spin_model.specs.Stream.{advanced};

use crate::generators::seeded;
use crate::random_words::random_words;
use crate::replica::{Duo, Plane, Replica};
use crate::stand::PairWheels;
use glass_edges::NoMemory;
use lattice_geometry::Lattice;
use plain_list::Items;
use pr_generator::Wheel;
use scalar_rule::{Beginning, Plan, Start};
use spin_model::{EXCHANGES_LABEL, STARTS_LABEL, SWEEPS_LABEL};
use std::alloc::Global;

/// All slots, slot 0 first.
pub(crate) fn opening_slots(
    alloc: Global,
    plan: &Plan,
    start: Start,
    bank: u32,
) -> Result<Items<Duo>, NoMemory>
    ensures { IfOk result (Each (BeginsDuo plan.now start bank) (slots_of plan.now)) }
{
    let mut slots = Vec::with_capacity(alloc, plan.slots() as usize)?;
    'opened: for slot in 0..plan.slots() {
        slots.push(opening_duo(alloc, plan, start, bank, slot)?)?;
    }
    Ok(Items::of(slots))
}

/// All pairs, pair 0 first.
pub(crate) fn opening_pairs(
    alloc: Global,
    plan: &Plan,
    bank: u32,
) -> Result<Items<PairWheels>, NoMemory>
    ensures { IfOk result (Each (BeginsPair plan.now bank) (pairs_of plan.now)) }
{
    let count = plan.slots() - 1;
    let mut pairs = Vec::with_capacity(alloc, count as usize)?;
    'opened: for pair in 0..count {
        pairs.push(opening_pair(plan, bank, pair))?;
    }
    Ok(Items::of(pairs))
}

fn opening_pair(plan: &Plan, bank: u32, pair: u32) -> PairWheels
    ensures { BeginsPair plan.now bank pair result }
{
    PairWheels {
        first: seeded(plan.seed(), EXCHANGES_LABEL, pair, 0, bank),
        second: seeded(plan.seed(), EXCHANGES_LABEL, pair, 1, bank),
    }
}

fn opening_duo(
    alloc: Global,
    plan: &Plan,
    start: Start,
    bank: u32,
    slot: u32,
) -> Result<Duo, NoMemory>
    requires { slot < slots_of plan.now }
    ensures { IfOk result (BeginsDuo plan.now start bank slot) }
{
    let first = Beginning {
        start,
        bank,
        slot,
        replica: 0,
    };
    let second = Beginning {
        replica: 1,
        ..first
    };
    Ok(Duo {
        first: opening_replica(alloc, plan, first)?,
        second: opening_replica(alloc, plan, second)?,
    })
}

// One replica of a slot; the label of every sample is the number of the slot.
fn opening_replica(alloc: Global, plan: &Plan, beginning: Beginning) -> Result<Replica, NoMemory>
    requires slot { beginning.slot < slots_of plan.now }
    requires replica { beginning.replica < 2 }
    ensures { IfOk result (BeginsReplica plan.now
        beginning.start beginning.bank beginning.slot beginning.replica) }
{
    // A plan has at most 32 slots.
    let _ = plan.slots();
    let mut planes = Vec::with_capacity(alloc, 2 * plan.lattice().size() as usize)?;
    push_colour(alloc, &mut planes, plan, beginning, 0)?;
    push_colour(alloc, &mut planes, plan, beginning, 1)?;
    Ok(Replica {
        planes: Items::of(planes),
        labels: labels_of(beginning.slot as u8),
    })
}

fn labels_of(slot: u8) -> [u8; 64]
    ensures { result ≡ replicate 64 slot }
{
    [slot; 64]
}

// The planes of one colour behind those of the colours before it. A random start is drawn from its
// first number on for each colour, since the draws go by sites and not by colours.
fn push_colour(
    alloc: Global,
    planes: &mut Vec<Plane>,
    plan: &Plan,
    beginning: Beginning,
    colour: u32,
) -> Result<(), NoMemory>
    requires replica { beginning.replica < 2 }
    requires colour { colour < 2 }
    requires before { Each (BeginsPlane plan.now
        beginning.start beginning.bank beginning.slot beginning.replica)
        (colour * plan.now.size) planes.old.items }
    ensures { OnOk result (Each (BeginsPlane plan.now
        beginning.start beginning.bank beginning.slot beginning.replica)
        ((colour + 1) * plan.now.size) planes.new.items) }
{
    let lattice = plan.lattice();
    let mut wheel = Wheel::seeded(
        plan.seed(),
        STARTS_LABEL,
        beginning.slot,
        beginning.replica,
        beginning.bank,
    );
    'planes: for z in 0..lattice.size() {
        planes.push(Plane {
            words: opening_words(alloc, &lattice, beginning.start, &mut wheel, colour, z)?,
            wheel: seeded(
                plan.seed(),
                SWEEPS_LABEL,
                beginning.slot,
                2 * beginning.replica + colour,
                z,
            ),
        })?;
    }
    Ok(())
}

// The words of one plane: all spins +1, or at random by the next draws of the generator.
fn opening_words(
    alloc: Global,
    lattice: &Lattice,
    start: Start,
    wheel: &mut Wheel,
    colour: u32,
    z: u32,
) -> Result<Items<u64>, NoMemory>
    requires colour { colour < 2 }
    requires plane { z < lattice.now }
    ensures words { IfOk result (ArePlaneWords lattice.now) }
    ensures up { start ≡ Up → IfOk result (HasSpins lattice.now (λ _. all_up lattice.now) colour z) }
    ensures random { start ≡ Random → IfOk result (HasDraws lattice.now wheel.old colour z) }
    ensures moved { start ≡ Random → wheel.new ≡ advanced wheel.old (2 * (lattice.now * lattice.now)) }
{
    match start {
        Start::Up => words_up(alloc, lattice, colour, z),
        Start::Random => random_words(alloc, lattice, wheel, colour, z),
    }
}

fn words_up(alloc: Global, lattice: &Lattice, colour: u32, z: u32) -> Result<Items<u64>, NoMemory>
    ensures words { IfOk result (ArePlaneWords lattice.now) }
    ensures up { IfOk result (HasSpins lattice.now (λ _. all_up lattice.now) colour z) }
{
    let size = lattice.size();
    Ok(Items::of(vec![in alloc; u64::MAX; (size * (size / 2)) as usize]?))
}
