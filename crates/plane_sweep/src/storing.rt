//! One sample written into its bit of a packed state.

ghost use Rattle.std.specs.Prelude.{◌≡◌, ◌*◌, ◌^◌, ◌<◌, length, All};
ghost use Rattle.plane_sweep.specs.Packed.{FitsPlane, FitsReplica, FitsDuo};
ghost use Rattle.plane_sweep.specs.Storing.{Changed, StoresWord, StoresWords, StoresPlane, StoresReplica, StoresDuo, StoresPair};
ghost use Rattle.scalar_rule.specs.Epoch.{slot_at, pair_at};
ghost use Rattle.scalar_rule.specs.Plan.{slots_of};
ghost use Rattle.scalar_rule.specs.Shape.{FitsCopy, FitsSlot, FitSlots};
ghost use Rattle.spin_model.specs.Lattice.{volume, half_plane, IsLawfulSize};

use crate::generators::copied;
use crate::replica::{Duo, Plane, Replica};
use crate::stand::PairWheels;
use lattice_geometry::Lattice;
use multispin_word::with_bit;
use plain_list::Items;
use scalar_rule::{PlainCopy, PlainPair, PlainSlot, Plan};

/// Writes the number of epochs done.
pub(crate) fn store_epoch(epoch: &mut u64, done: u64)
    ensures stored { epoch.new ≡ done }
    ensures bounded { done < 2 ^ 64 }
{
    *epoch = done;
}

/// Writes the sample's part of every slot.
pub(crate) fn store_slots(
    slots: &mut Items<Duo>,
    plan: &Plan,
    parts: &Items<PlainSlot>,
    sample: u32,
)
    requires sample { sample < 64 }
    requires count { length slots.old ≡ slots_of plan.now }
    requires slots { All (FitsDuo plan.now.size) slots.old }
    requires parts { FitSlots plan.now parts.now }
    ensures { Changed (λ t. StoresDuo plan.now.size sample (slot_at parts.now t)) (slots_of plan.now) slots.old slots.new }
{
    let lattice = plan.lattice();
    'slots: for t in 0..slots.len() {
        store_slot(slots.at_mut(t), &lattice, parts.at(t), sample);
    }
}

/// Writes the exchange generators of every pair.
pub(crate) fn store_pairs(pairs: &mut Items<PairWheels>, parts: &Items<PlainPair>)
    requires { length pairs.old ≡ length parts.now }
    ensures { Changed (λ k. StoresPair (pair_at parts.now k)) (length parts.now) pairs.old pairs.new }
{
    'pairs: for k in 0..pairs.len() {
        store_pair(pairs.at_mut(k), parts.at(k));
    }
}

fn store_pair(pair: &mut PairWheels, part: &PlainPair)
    ensures { StoresPair part.now pair.old pair.new }
{
    pair.first = copied(&part.first);
    pair.second = copied(&part.second);
}

fn store_slot(slot: &mut Duo, lattice: &Lattice, part: &PlainSlot, sample: u32)
    requires sample { sample < 64 }
    requires slot { FitsDuo lattice.now slot.old }
    requires part { FitsSlot lattice.now part.now }
    ensures { StoresDuo lattice.now sample part.now slot.old slot.new }
{
    store_replica(&mut slot.first, lattice, &part.first, sample);
    store_replica(&mut slot.second, lattice, &part.second, sample);
}

fn store_replica(replica: &mut Replica, lattice: &Lattice, part: &PlainCopy, sample: u32)
    requires sample { sample < 64 }
    requires replica { FitsReplica lattice.now replica.old }
    requires part { FitsCopy lattice.now part.now }
    ensures { StoresReplica lattice.now sample part.now replica.old replica.new }
{
    store_planes(&mut replica.planes, lattice, part, sample);
    replica.labels[sample as usize] = part.replica;
}

fn store_planes(planes: &mut Items<Plane>, lattice: &Lattice, part: &PlainCopy, sample: u32)
    requires sample { sample < 64 }
    requires count { length planes.old ≡ 2 * lattice.now }
    requires planes { All (FitsPlane lattice.now) planes.old }
    requires part { FitsCopy lattice.now part.now }
    ensures stored { Changed (StoresPlane lattice.now sample part.now.spins part.now.wheels) (2 * lattice.now) planes.old planes.new }
    ensures lawful { IsLawfulSize lattice.now }
{
    'planes: for k in 0..2 * lattice.size() {
        store_plane(planes.at_mut(k as usize), lattice, part, k, sample);
    }
}

// Writes plane k.
fn store_plane(plane: &mut Plane, lattice: &Lattice, part: &PlainCopy, k: u32, sample: u32)
    requires sample { sample < 64 }
    requires plane { FitsPlane lattice.now plane.old }
    requires part { FitsCopy lattice.now part.now }
    requires within { k < 2 * lattice.now }
    ensures { StoresPlane lattice.now sample part.now.spins part.now.wheels k plane.old plane.new }
{
    let size = lattice.size();
    store_words(
        &mut plane.words,
        lattice,
        &part.spins,
        k / size,
        k % size,
        sample,
    );
    plane.wheel = copied(part.wheels.at(k as usize));
}

fn store_words(
    words: &mut Items<u64>,
    lattice: &Lattice,
    spins: &Items<bool>,
    colour: u32,
    z: u32,
    sample: u32,
)
    requires sample { sample < 64 }
    requires words { length words.old ≡ half_plane lattice.now }
    requires spins { length spins.now ≡ volume lattice.now }
    requires colour { colour < 2 }
    requires plane { z < lattice.now }
    ensures { StoresWords lattice.now sample spins.now colour z (half_plane lattice.now) words.old words.new }
{
    let size = lattice.size();
    let half_plane = size * (size / 2);
    let first = colour * (size * half_plane) + z * half_plane;
    'places: for k in 0..half_plane {
        let up = *spins.at(lattice.from_compact(first + k) as usize);
        store_word(words.at_mut(k as usize), up, sample);
    }
}

fn store_word(word: &mut u64, up: bool, sample: u32)
    requires { sample < 64 }
    ensures { StoresWord sample up word.old word.new }
{
    *word = with_bit(*word, sample, up);
}
