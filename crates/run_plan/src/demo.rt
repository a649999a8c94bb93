//! The plan of a large run that is made from a number alone.

ghost use Rattle.std.specs.Prelude.{◌≡◌, ◌<◌, ◌≤◌, length, IfOk};
ghost use Rattle.spin_model.specs.Limits.{certain, greatest_demo};
ghost use Rattle.spin_model.specs.Steps.{table};
ghost use Rattle.threshold_table.specs.Tables.{padded};
ghost use Rattle.run_plan.specs.DemoPlan as model;

use crate::run_file::Orders;
use coupling_set::{Couplings, couplings_are_their_bonds};
use glass_edges::NoMemory;
use lattice_geometry::Lattice;
use scalar_rule::{Plan, Start};
use spin_model::CERTAIN;
use std::alloc::Global;
use threshold_table::{RuleKind, RuleRow, RuleTable, SwapTable};

const SIZE: u32 = 16;

const SWEEPS: u32 = 4;

const SLOTS: usize = 8;

const ENTRIES: usize = 64;

const ORDERS: Orders = Orders {
    samples: 64,
    epochs: 16,
    every: 4,
    start: Start::Random,
    spins: false,
};

/// A plan of size 16 with eight temperature slots, Metropolis, random couplings, four sweeps an
/// epoch and the seed `n`; and orders of 64 samples, sixteen epochs, each fourth one recorded, from
/// random spins. Its thresholds are made by whole-number arithmetic.
///
/// # Errors
///
/// Only where memory runs out.
pub fn demo_plan(alloc: Global, n: u64) -> Result<(Plan, Orders), NoMemory>
    requires { n ≤ greatest_demo }
    ensures plan { IfOk result (λ made. made.0 ≡ model.demo_plan n) }
    ensures orders { IfOk result (λ made. made.1 ≡ model.demo_orders) }
{
    let lattice = Lattice::of(SIZE).unwrap();
    let rules = demo_rules(alloc)?;
    let swaps = demo_swaps(alloc)?;
    let couplings = Couplings::random(alloc, lattice, n)?;
    couplings_are_their_bonds(&couplings);
    let plan = Plan::new(lattice, rules, swaps, couplings, SWEEPS, n);
    Ok((plan, ORDERS))
}

fn demo_rules(alloc: Global) -> Result<RuleTable, NoMemory>
    ensures value { IfOk result (λ rules. rules ≡ model.demo_rules) }
    ensures slots { IfOk result (λ rules. length rules.rows ≡ 8) }
{
    let mut rows = [RuleRow { values: [0; 7] }; SLOTS];
    'slots: for slot in 0..SLOTS {
        rows[slot] = slot_row(slot as u64);
    }
    RuleTable::from_rows(alloc, RuleKind::Metropolis, &rows)
}

fn demo_swaps(alloc: Global) -> Result<SwapTable, NoMemory>
    ensures value { IfOk result (λ swaps. swaps ≡ model.demo_swaps) }
    ensures pairs { IfOk result (λ swaps. length swaps ≡ 7) }
{
    let mut rows = [[0; ENTRIES]; SLOTS - 1];
    'pairs: for pair in 0..SLOTS - 1 {
        rows[pair] = pair_entries(pair as u64);
    }
    SwapTable::from_rows(alloc, &rows)
}

// The thresholds of a slot.
fn slot_row(slot: u64) -> RuleRow
    requires { slot < 8 }
    ensures { result.values ≡ padded (model.slot_thresholds slot) }
{
    let weight = CERTAIN * (slot + 2) / (slot + 10);
    let [one, two, three] = powers::<3>(weight);
    RuleRow {
        values: [one, two, three, 0, 0, 0, 0],
    }
}

// The thresholds of a pair.
fn pair_entries(pair: u64) -> [u64; ENTRIES]
    requires { pair < 7 }
    ensures { result ≡ model.pair_entries pair }
{
    powers(CERTAIN * (pair + 2) * (pair + 11) / ((pair + 10) * (pair + 3)))
}

// A threshold below that of probability 1, and its powers.
fn powers<const N: usize>(weight: u64) -> [u64; N]
    requires { weight < certain }
    ensures { result ≡ table (model.power weight) N }
{
    let mut found = [0u64; N];
    let mut power = weight;
    'powers: for times in 0..N {
        found[times] = power;
        power = power * weight / CERTAIN;
    }
    found
}
