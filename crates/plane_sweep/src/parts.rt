//! One sample of a packed state.

ghost use Rattle.std.specs.Prelude.{◌≡◌, ◌*◌, ◌<◌, IfOk, length, map, All};
ghost use Rattle.plane_sweep.specs.Packed.{word_at, spins_of, generators_of, part_copy, part_slot, part_pair, FitsPlane, FitsReplica, FitsDuo};
ghost use Rattle.spin_model.specs.Lattice.{volume};

use crate::replica::{Duo, Plane, Replica};
use crate::stand::PairWheels;
use glass_edges::NoMemory;
use lattice_geometry::Lattice;
use multispin_word::bit;
use plain_list::Items;
use pr_generator::Wheel;
use scalar_rule::{PlainCopy, PlainPair, PlainSlot, Plan};
use std::alloc::Global;

/// The sample's part in every slot.
pub(crate) fn sample_slots(
    alloc: Global,
    plan: &Plan,
    slots: &Items<Duo>,
    sample: u32,
) -> Result<Items<PlainSlot>, NoMemory>
    requires sample { sample < 64 }
    requires slots { All (FitsDuo plan.now.size) slots.now }
    ensures { IfOk result (λ parts. parts ≡ map (part_slot plan.now.size sample) slots.now) }
{
    let lattice = plan.lattice();
    let mut parts = Vec::with_capacity(alloc, slots.len())?;
    'slots: for t in 0..slots.len() {
        parts.push(sample_slot(alloc, &lattice, slots.at(t), sample)?)?;
    }
    Ok(Items::of(parts))
}

/// The exchange generators of every pair.
pub(crate) fn sample_pairs(
    alloc: Global,
    pairs: &Items<PairWheels>,
) -> Result<Items<PlainPair>, NoMemory>
    ensures { IfOk result (λ parts. parts ≡ map part_pair pairs.now) }
{
    let mut parts = Vec::with_capacity(alloc, pairs.len())?;
    'pairs: for k in 0..pairs.len() {
        parts.push(sample_pair(pairs.at(k)))?;
    }
    Ok(Items::of(parts))
}

fn sample_pair(pair: &PairWheels) -> PlainPair
    ensures { result ≡ part_pair pair.now }
{
    PlainPair {
        first: pair.first.copy(),
        second: pair.second.copy(),
    }
}

fn sample_slot(
    alloc: Global,
    lattice: &Lattice,
    slot: &Duo,
    sample: u32,
) -> Result<PlainSlot, NoMemory>
    requires sample { sample < 64 }
    requires slot { FitsDuo lattice.now slot.now }
    ensures { IfOk result (λ part. part ≡ part_slot lattice.now sample slot.now) }
{
    Ok(PlainSlot {
        first: sample_copy(alloc, lattice, &slot.first, sample)?,
        second: sample_copy(alloc, lattice, &slot.second, sample)?,
    })
}

fn sample_copy(
    alloc: Global,
    lattice: &Lattice,
    replica: &Replica,
    sample: u32,
) -> Result<PlainCopy, NoMemory>
    requires sample { sample < 64 }
    requires replica { FitsReplica lattice.now replica.now }
    ensures { IfOk result (λ part. part ≡ part_copy lattice.now sample replica.now) }
{
    Ok(PlainCopy {
        spins: sample_spins(alloc, lattice, &replica.planes, sample)?,
        wheels: sample_wheels(alloc, &replica.planes)?,
        replica: replica.labels[sample as usize],
    })
}

fn sample_wheels(alloc: Global, planes: &Items<Plane>) -> Result<Items<Wheel>, NoMemory>
    ensures { IfOk result (λ wheels. wheels ≡ generators_of planes.now) }
{
    let mut wheels = Vec::with_capacity(alloc, planes.len())?;
    'planes: for k in 0..planes.len() {
        wheels.push(planes.at(k).wheel.copy())?;
    }
    Ok(Items::of(wheels))
}

fn sample_spins(
    alloc: Global,
    lattice: &Lattice,
    planes: &Items<Plane>,
    sample: u32,
) -> Result<Items<bool>, NoMemory>
    requires sample { sample < 64 }
    requires count { length planes.now ≡ 2 * lattice.now }
    requires planes { All (FitsPlane lattice.now) planes.now }
    ensures { IfOk result (λ spins. spins ≡ spins_of lattice.now sample planes.now) }
{
    let mut spins = Vec::with_capacity(alloc, lattice.sites() as usize)?;
    'sites: for site in 0..lattice.sites() {
        spins.push(bit(site_word(lattice, planes, site), sample))?;
    }
    Ok(Items::of(spins))
}

/// The word of a site, in the planes of a replica.
pub fn site_word(lattice: &Lattice, planes: &Items<Plane>, site: u32) -> u64
    requires site { site < volume lattice.now }
    requires count { length planes.now ≡ 2 * lattice.now }
    requires planes { All (FitsPlane lattice.now) planes.now }
    ensures { result ≡ word_at lattice.now planes.now site }
{
    let (x, y, z) = lattice.coordinates(site);
    let size = lattice.size();
    let plane = planes.at((lattice.colour(site) * size + z) as usize);
    *plane.words.at((y * (size / 2) + x / 2) as usize)
}
