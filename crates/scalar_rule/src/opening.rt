//! The states that a run begins with.

ghost use Rattle.std.specs.Prelude.{◌≡◌, ◌+◌, ◌-◌, ◌*◌, ◌/◌, ◌%◌, ◌<◌, IfOk};
ghost use Rattle.spin_model.specs.Steps.{table};
ghost use Rattle.spin_model.specs.Stream.{advanced, draw};
ghost use Rattle.spin_model.specs.Words.{is_set};
ghost use Rattle.scalar_rule.specs.Opening as model;
ghost use Rattle.scalar_rule.specs.Plan.{pairs_of, slots_of};
ghost use Rattle.scalar_rule.specs.Shape.{Fits};

use crate::plain_copy::PlainCopy;
use crate::plan::Plan;
use crate::sample::{Beginning, PlainPair, PlainSlot, Sample, Start};
use glass_edges::NoMemory;
use lattice_geometry::Lattice;
use multispin_word::bit;
use plain_list::Items;
use pr_generator::Wheel;
use spin_model::{EXCHANGES_LABEL, STARTS_LABEL, SWEEPS_LABEL};
use std::alloc::Global;

impl Sample {
    /// The state that the disorder sample at bit `bit` of bank 0 begins with: epoch 0, each replica
    /// labelled by its slot, the generators as the seed gives them.
    ///
    /// # Errors
    ///
    /// Refuses only for lack of memory.
    pub fn opening(alloc: Global, plan: &Plan, bit: u32, start: Start) -> Result<Sample, NoMemory>
        requires { bit < 64 }
        ensures opening { IfOk result (λ s. s ≡ model.opening plan.now start 0 bit) }
        ensures fits { IfOk result (λ s. Fits plan.now s) }
    {
        Sample::opening_bank(alloc, plan, bit, start, 0)
    }

    /// The state that disorder sample 64 bank + bit begins with: as `opening`, but the generators of
    /// the exchanges and of a random start are the bank's. There are four banks.
    ///
    /// # Errors
    ///
    /// Refuses only for lack of memory.
    pub fn opening_bank(
        alloc: Global,
        plan: &Plan,
        bit: u32,
        start: Start,
        bank: u32,
    ) -> Result<Sample, NoMemory>
        requires bit { bit < 64 }
        requires bank { bank < 4 }
        ensures opening { IfOk result (λ s. s ≡ model.opening plan.now start bank bit) }
        ensures fits { IfOk result (λ s. Fits plan.now s) }
    {
        Ok(Sample {
            bit,
            epoch: 0,
            slots: opening_slots(alloc, plan, bit, start, bank)?,
            pairs: opening_pairs(alloc, plan, bank)?,
        })
    }
}

// All slots, slot 0 first.
fn opening_slots(
    alloc: Global,
    plan: &Plan,
    bit: u32,
    start: Start,
    bank: u32,
) -> Result<Items<PlainSlot>, NoMemory>
    requires { bit < 64 }
    ensures { IfOk result (λ slots. slots ≡
        table (model.opening_slot plan.now start bank bit) (slots_of plan.now)) }
{
    let mut slots = Vec::with_capacity(alloc, plan.slots() as usize)?;
    'opened: for slot in 0..plan.slots() {
        slots.push(opening_slot(alloc, plan, bit, start, bank, slot)?)?;
    }
    Ok(Items::of(slots))
}

// All pairs, pair 0 first.
fn opening_pairs(alloc: Global, plan: &Plan, bank: u32) -> Result<Items<PlainPair>, NoMemory>
    ensures { IfOk result (λ pairs. pairs ≡ table (model.opening_pair plan.now bank) (pairs_of plan.now)) }
{
    let count = plan.slots() - 1;
    let mut pairs = Vec::with_capacity(alloc, count as usize)?;
    'opened: for pair in 0..count {
        pairs.push(opening_pair(plan, bank, pair))?;
    }
    Ok(Items::of(pairs))
}

fn opening_pair(plan: &Plan, bank: u32, pair: u32) -> PlainPair
    ensures { result ≡ model.opening_pair plan.now bank pair }
{
    PlainPair {
        first: Wheel::seeded(plan.seed(), EXCHANGES_LABEL, pair, 0, bank),
        second: Wheel::seeded(plan.seed(), EXCHANGES_LABEL, pair, 1, bank),
    }
}

fn opening_slot(
    alloc: Global,
    plan: &Plan,
    bit: u32,
    start: Start,
    bank: u32,
    slot: u32,
) -> Result<PlainSlot, NoMemory>
    requires bit { bit < 64 }
    requires slot { slot < slots_of plan.now }
    ensures { IfOk result (λ s. s ≡ model.opening_slot plan.now start bank bit slot) }
{
    let first = Beginning {
        start,
        bank,
        slot,
        replica: 0,
    };
    let second = Beginning {
        replica: 1,
        ..first
    };
    Ok(PlainSlot {
        first: opening_copy(alloc, plan, bit, first)?,
        second: opening_copy(alloc, plan, bit, second)?,
    })
}

// One replica of a slot; its label is the number of the slot.
fn opening_copy(
    alloc: Global,
    plan: &Plan,
    bit: u32,
    beginning: Beginning,
) -> Result<PlainCopy, NoMemory>
    requires bit { bit < 64 }
    requires slot { beginning.slot < slots_of plan.now }
    requires replica { beginning.replica < 2 }
    ensures { IfOk result (λ copy. copy ≡ model.opening_copy plan.now
        beginning.start beginning.bank bit beginning.slot beginning.replica) }
{
    // A plan has at most 32 slots.
    let _ = plan.slots();
    Ok(PlainCopy {
        spins: start_spins(alloc, plan, bit, beginning)?,
        wheels: seeded_wheels(
            alloc,
            &plan.lattice(),
            plan.seed(),
            beginning.slot,
            beginning.replica,
        )?,
        replica: beginning.slot as u8,
    })
}

#[tactic(auto, unfolding(crate::specs::Opening::start_spins))]
fn start_spins(
    alloc: Global,
    plan: &Plan,
    bit: u32,
    beginning: Beginning,
) -> Result<Items<bool>, NoMemory>
    requires bit { bit < 64 }
    ensures { IfOk result (λ spins. spins ≡ model.start_spins plan.now
        beginning.start beginning.bank bit beginning.slot beginning.replica) }
{
    let lattice = plan.lattice();
    match beginning.start {
        Start::Up => all_up(alloc, &lattice),
        Start::Random => {
            let mut wheel = Wheel::seeded(
                plan.seed(),
                STARTS_LABEL,
                beginning.slot,
                beginning.replica,
                beginning.bank,
            );
            random_spins(alloc, &lattice, &mut wheel, bit)
        }
    }
}

/// Every spin +1.
pub(crate) fn all_up(alloc: Global, lattice: &Lattice) -> Result<Items<bool>, NoMemory>
    ensures { IfOk result (λ spins. spins ≡ model.all_up lattice.now) }
{
    Ok(Items::of(vec![in alloc; true; lattice.sites() as usize]?))
}

// Spins at random, two draws a site: the sample's bit of the 64 that they have.
fn random_spins(
    alloc: Global,
    lattice: &Lattice,
    wheel: &mut Wheel,
    bit: u32,
) -> Result<Items<bool>, NoMemory>
    requires { bit < 64 }
    ensures { IfOk result (λ spins. spins ≡ model.random_spins lattice.now wheel.old bit) }
{
    let mut spins = Vec::with_capacity(alloc, lattice.sites() as usize)?;
    'sites: for _ in 0..lattice.sites() {
        spins.push(random_spin(wheel, bit))?;
    }
    Ok(Items::of(spins))
}

fn random_spin(wheel: &mut Wheel, sample: u32) -> bool
    requires { sample < 64 }
    ensures moved { wheel.new ≡ advanced wheel.old 2 }
    ensures spin { result ≡ is_set (draw wheel.old (sample / 32)) (sample % 32) }
{
    let mut words = [0u32; 2];
    wheel.fill(&mut words);
    bit(words[(sample / 32) as usize] as u64, sample % 32)
}

/// The generators of a temperature slot and replica.
pub(crate) fn seeded_wheels(
    alloc: Global,
    lattice: &Lattice,
    seed: u64,
    slot: u32,
    replica: u32,
) -> Result<Items<Wheel>, NoMemory>
    requires { replica < 2 }
    ensures { IfOk result (λ wheels. wheels ≡ model.seeded_words lattice.now seed slot replica) }
{
    let size = lattice.size();
    let mut wheels = Vec::with_capacity(alloc, 2 * size as usize)?;
    'wheels: for k in 0..2 * size {
        wheels.push(Wheel::seeded(seed, SWEEPS_LABEL, slot, 2 * replica + k / size, k % size))?;
    }
    Ok(Items::of(wheels))
}
