//! The memory of a state that is to be read, taken before any of it is filled.

ghost use Rattle.std.specs.Prelude.{◌≡◌, ◌-◌, ◌*◌, ◌≤◌, All, length, IfOk};
ghost use Rattle.spin_model.specs.Limits.{most_slots};
ghost use Rattle.run_checkpoint.specs.Unfilled.{HasWords, HasPlanes, HasReplicas, HasRoom};

use glass_edges::NoMemory;
use plain_list::Items;
use plane_sweep::{Duo, PairWheels, Place, Plane, RaggedStand, Replica, Stand};
use pr_generator::Wheel;
use scalar_rule::Record;
use std::alloc::Global;

// A state at this epoch of so many slots of a lattice of this size, with all memory that it takes.
pub(crate) fn unfilled_stand(
    alloc: Global,
    epoch: u64,
    size: u32,
    count: u32,
) -> Result<Stand, NoMemory>
    requires size { size ≤ 64 }
    requires some { 1 ≤ count }
    requires few { count ≤ most_slots }
    ensures epoch { IfOk result (λ stand. stand.epoch ≡ epoch) }
    ensures room { IfOk result (HasRoom size count) }
{
    Ok(Stand {
        epoch,
        slots: unfilled_slots(alloc, size, count)?,
        pairs: unfilled_pairs(alloc, count as usize - 1)?,
    })
}

// So many slots.
pub(crate) fn unfilled_slots(alloc: Global, size: u32, count: u32) -> Result<Items<Duo>, NoMemory>
    requires size { size ≤ 64 }
    requires few { count ≤ most_slots }
    ensures count { IfOk result (λ slots. length slots ≡ count) }
    ensures slots { IfOk result (All (HasReplicas size)) }
{
    let mut slots = Vec::with_capacity(alloc, count as usize)?;
    'slots: for t in 0..count {
        slots.push(unfilled_slot(alloc, size)?)?;
    }
    Ok(Items::of(slots))
}

fn unfilled_slot(alloc: Global, size: u32) -> Result<Duo, NoMemory>
    requires { size ≤ 64 }
    ensures { IfOk result (HasReplicas size) }
{
    Ok(Duo {
        first: unfilled_replica(alloc, size)?,
        second: unfilled_replica(alloc, size)?,
    })
}

fn unfilled_replica(alloc: Global, size: u32) -> Result<Replica, NoMemory>
    requires { size ≤ 64 }
    ensures { IfOk result (HasPlanes size) }
{
    Ok(Replica {
        planes: unfilled_planes(alloc, size)?,
        labels: [0; 64],
    })
}

fn unfilled_planes(alloc: Global, size: u32) -> Result<Items<Plane>, NoMemory>
    requires { size ≤ 64 }
    ensures count { IfOk result (λ planes. length planes ≡ 2 * size) }
    ensures planes { IfOk result (All (HasWords size)) }
{
    let count = 2 * size as usize;
    let mut planes = Vec::with_capacity(alloc, count)?;
    'planes: for k in 0..count {
        planes.push(unfilled_plane(alloc, size)?)?;
    }
    Ok(Items::of(planes))
}

fn unfilled_plane(alloc: Global, size: u32) -> Result<Plane, NoMemory>
    requires { size ≤ 64 }
    ensures { IfOk result (HasWords size) }
{
    let sites = size as usize * (size as usize / 2);
    Ok(Plane {
        words: Items::of(vec![in alloc; 0u64; sites]?),
        wheel: Wheel::from_words(&[0; 61]),
    })
}

// So many pairs.
pub(crate) fn unfilled_pairs(alloc: Global, count: usize) -> Result<Items<PairWheels>, NoMemory>
    ensures { IfOk result (λ pairs. length pairs ≡ count) }
{
    let mut pairs = Vec::with_capacity(alloc, count)?;
    'pairs: for k in 0..count {
        pairs.push(PairWheels {
            first: Wheel::from_words(&[0; 61]),
            second: Wheel::from_words(&[0; 61]),
        })?;
    }
    Ok(Items::of(pairs))
}

// A state to be filled whose slots have positions, with so many records.
pub(crate) fn unfilled_ragged(
    alloc: Global,
    size: u32,
    count: u32,
    records: usize,
) -> Result<RaggedStand, NoMemory>
    requires size { size ≤ 64 }
    requires some { 1 ≤ count }
    requires few { count ≤ most_slots }
    ensures places { IfOk result (λ ragged. length ragged.places ≡ count) }
    ensures count { IfOk result (λ ragged. length ragged.slots ≡ count) }
    ensures slots { IfOk result (λ ragged. All (HasReplicas size) ragged.slots) }
    ensures pairs { IfOk result (λ ragged. length ragged.pairs ≡ count - 1) }
    ensures records { IfOk result (λ ragged. length ragged.pending ≡ records) }
{
    let place = Place {
        epoch: 0,
        arrived: false,
    };
    let record = Record {
        first_energy: 0,
        second_energy: 0,
        overlap: 0,
        first_replica: 0,
        second_replica: 0,
    };
    Ok(RaggedStand {
        places: Items::of(vec![in alloc; place; count as usize]?),
        slots: unfilled_slots(alloc, size, count)?,
        pairs: unfilled_pairs(alloc, count as usize - 1)?,
        pending: Items::of(vec![in alloc; record; records]?),
    })
}
