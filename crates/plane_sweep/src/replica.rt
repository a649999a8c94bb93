//! The replicas of 64 disorder samples.

ghost use Rattle.std.specs.Prelude.{◌≡◌, IfOk};

use crate::copying::copied_planes;
use glass_edges::NoMemory;
use plain_list::Items;
use pr_generator::Wheel;
use std::alloc::Global;

/// The sites of one checkerboard colour in one plane z.
#[derive(Drop)]
pub struct Plane {
    /// L * (L / 2) words, those of the sites in order of y, then x: bit b is set where sample b's
    /// spin there is +1.
    pub words: Items<u64>,
    /// The generator that serves these sites, shared by all samples.
    pub wheel: Wheel,
}

/// One of the two real replicas of a temperature slot, in 64 disorder samples.
#[derive(Drop)]
pub struct Replica {
    /// 2L planes: the one at `colour * L + z` has the sites of that colour in plane z, so that the
    /// words of all planes, one after the other, are in compact order.
    pub planes: Items<Plane>,
    /// The replica label of each sample, the number of the slot where its spins began.
    pub labels: [u8; 64],
}

impl Replica {
    /// An equal replica.
    ///
    /// # Errors
    ///
    /// Refuses only for lack of memory.
    pub fn copy(&self, alloc: Global) -> Result<Replica, NoMemory>
        ensures { IfOk result (λ copy. copy ≡ self.now) }
    {
        Ok(Replica {
            planes: copied_planes(alloc, &self.planes)?,
            labels: self.labels,
        })
    }
}

/// The two real replicas of a temperature slot.
#[derive(Drop)]
pub struct Duo {
    pub first: Replica,
    pub second: Replica,
}
