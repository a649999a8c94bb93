//! The state of one disorder sample.

use crate::plain_copy::PlainCopy;
use plain_list::Items;
use pr_generator::Wheel;

/// How a run's spins begin.
#[derive(Clone, Copy, Debug, PartialEq, Eq)]
pub enum Start {
    /// Every spin +1.
    Up,
    /// Each spin +1 or -1 with equal probability.
    Random,
}

/// Whose beginning it is, and how its spins start: a replica of a slot in the samples of a bank.
#[derive(Clone, Copy, Debug, PartialEq, Eq)]
pub struct Beginning {
    pub start: Start,
    pub bank: u32,
    pub slot: u32,
    pub replica: u32,
}

/// The two real replicas of a temperature slot.
#[derive(Drop)]
pub struct PlainSlot {
    pub first: PlainCopy,
    pub second: PlainCopy,
}

/// The two exchange generators of a pair of neighbouring slots, one for each replica.
#[derive(Drop)]
pub struct PlainPair {
    pub first: Wheel,
    pub second: Wheel,
}

/// The state of one disorder sample, which is bit `bit` of its bank of 64.
#[derive(Drop)]
pub struct Sample {
    pub bit: u32,
    /// The number of epochs done.
    pub epoch: u64,
    /// One entry per temperature slot, slot 0 the coldest.
    pub slots: Items<PlainSlot>,
    /// One entry per pair: pair k is slots k and k + 1.
    pub pairs: Items<PlainPair>,
}

/// What is measured of a slot in an epoch, after its sweeps and before the exchange.
///
/// Energies are in units of the coupling, from -3V to 3V for V sites; the overlap is the sum over
/// the sites of the product of the two replicas' spins, from -V to V; the labels are those of the
/// two replicas.
#[derive(Clone, Copy, Debug, PartialEq, Eq)]
pub struct Record {
    pub first_energy: i32,
    pub second_energy: i32,
    pub overlap: i32,
    pub first_replica: u8,
    pub second_replica: u8,
}
