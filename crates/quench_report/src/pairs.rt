//! The sums of a slot of two kept states, which are as before at the end.

ghost use Rattle.std.specs.Prelude.{◌≡◌, ◌<◌, All, length};
ghost use Rattle.plane_sweep.specs.Packed.{FitsDuo};
ghost use Rattle.copies_report.specs.States.{bank_at, slot_among};
ghost use Rattle.quench_report.specs.Held.{bank_fields, two_times, HasSlot};
ghost use Rattle.quenched_sums.specs.Told.{TellsPair};

use lattice_geometry::Lattice;
use plain_list::Items;
use plane_sweep::Stand;
use quenched_sums::PairSums;

/// A slot of a bank of a kept state.
#[derive(Clone, Copy)]
pub(crate) struct SlotPlace {
    pub(crate) state: usize,
    pub(crate) bank: usize,
    pub(crate) slot: usize,
}

/// Measures a slot of a kept state and of an earlier one.
pub(crate) fn measure_pair(
    sums: &mut PairSums,
    states: &mut [Items<Stand>],
    lattice: Lattice,
    earlier: usize,
    place: SlotPlace,
)
    requires earlier { earlier < place.state }
    requires state { place.state < length states.old }
    requires slots { All (HasSlot lattice place.bank place.slot) states.old }
    ensures tells { TellsPair lattice sums.new (bank_fields lattice states.old place.state place.bank place.slot earlier) }
    ensures same { states.new ≡ states.old }
{
    let (before, rest) = states.split_at_mut(place.state);
    measure_banks(
        sums,
        &mut before[earlier],
        &mut rest[0],
        lattice,
        place.bank,
        place.slot,
    );
}

// Measures a slot of a bank of two states.
fn measure_banks(
    sums: &mut PairSums,
    earlier: &mut Items<Stand>,
    later: &mut Items<Stand>,
    lattice: Lattice,
    bank: usize,
    slot: usize,
)
    requires earlier { HasSlot lattice bank slot earlier.old }
    requires later { HasSlot lattice bank slot later.old }
    ensures tells { TellsPair lattice sums.new
        (two_times lattice (slot_among (bank_at earlier.old bank).slots slot) (slot_among (bank_at later.old bank).slots slot)) }
    ensures earlier { earlier.new ≡ earlier.old }
    ensures later { later.new ≡ later.old }
{
    measure_stands(
        sums,
        earlier.at_mut(bank),
        later.at_mut(bank),
        lattice,
        slot,
    );
}

// Measures a slot of two packed states.
fn measure_stands(
    sums: &mut PairSums,
    earlier: &mut Stand,
    later: &mut Stand,
    lattice: Lattice,
    slot: usize,
)
    requires earlier { slot < length earlier.old.slots }
    requires later { slot < length later.old.slots }
    requires fits_earlier { FitsDuo lattice (slot_among earlier.old.slots slot) }
    requires fits_later { FitsDuo lattice (slot_among later.old.slots slot) }
    ensures tells { TellsPair lattice sums.new
        (two_times lattice (slot_among earlier.old.slots slot) (slot_among later.old.slots slot)) }
    ensures earlier { earlier.new ≡ earlier.old }
    ensures later { later.new ≡ later.old }
{
    sums.measure(
        earlier.slots.at_mut(slot),
        later.slots.at_mut(slot),
        lattice,
    );
}
