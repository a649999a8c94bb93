//! The digest of a plan, and of the plans of several banks.

ghost use Rattle.std.specs.Prelude.{◌≡◌, ℕ, ◌<◌, ◌≤◌, ◌++◌, List, length, map, flat_map};
ghost use Rattle.std.specs.Arc.{arc_value};
ghost use Rattle.sha2.specs.Hashers.{Holds256};
ghost use Rattle.sha2.specs.Sha256.{sha256};
ghost use Rattle.spin_model.specs.Words.{words_64};
ghost use Rattle.threshold_table.specs.Tables.{cases_of, thresholds_of, entries_of};
ghost use Rattle.scalar_rule.specs.Plan.{slots_of};
ghost use Rattle.run_plan.specs.CanonicalPlan as model;

use coupling_set::Couplings;
use pr_generator::{add_u32, add_u64};
use scalar_rule::Plan;
use sha2::{Digest, Sha256};
use std::alloc::Global;
use std::sync::Arc;
use threshold_table::{RuleKind, RuleTable, SwapTable};

/// The SHA-256 of the plan's canonical bytes, which stand in docs/specification/run_file.md. Takes
/// no memory.
#[tactic(auto, unfolding(crate::specs::CanonicalPlan::canonical))]
pub fn digest(plan: &Plan) -> [u8; 32]
    ensures { result ≡ sha256 (model.canonical plan.now) }
{
    let mut hasher = Sha256::new();
    add_header(&mut hasher, plan);
    add_rules(&mut hasher, plan.rules());
    add_swaps(&mut hasher, plan.swaps());
    add_couplings(&mut hasher, plan.couplings());
    hasher.finalize()
}

/// The digest of a run's plans, one for each bank of 64 samples, which differ in their couplings: of
/// one plan its own, of more the SHA-256 of the letters GLASSPL2, the number of plans and their
/// digests in order. Takes no memory.
pub fn digest_banks(plans: &[Arc<Plan, Global>]) -> [u8; 32]
    requires some { 1 ≤ length plans.now }
    requires few { length plans.now ≤ 4 }
    ensures { result ≡ model.banks_digest (map arc_value plans.now) }
{
    if plans.len() == 1 {
        return digest(&plans[0]);
    }
    let mut hasher = Sha256::new();
    hasher.update(b"GLASSPL2");
    add_u32(&mut hasher, plans.len() as u32);
    add_digests(&mut hasher, plans);
    hasher.finalize()
}

// Adds the digests of plans one after the other.
fn add_digests(hasher: &mut Sha256, plans: &[Arc<Plan, Global>])
    ensures { (m : List ℕ) → Holds256 hasher.old m →
        Holds256 hasher.new (m ++ flat_map model.plan_digest (map arc_value plans.now)) }
{
    'plans: for plan in plans {
        hasher.update(&digest(plan));
    }
}

/// The law of the number of a plan's canonical bytes: by the numbers of its slots, entries and sites,
/// and 1624 of one slot of heat bath on the lattice of size 4.
pub fn canonical_length(plan: &Plan)
    ensures formula { length (model.canonical plan.now) ≡ model.canonical_length plan.now }
    ensures smallest { plan.now.size ≡ 4 → slots_of plan.now ≡ 1 → plan.now.rules.kind ≡ RuleKind.Heat →
        length (model.canonical plan.now) ≡ 1624 }
{
    let _ = plan.lattice();
}

// The number of a kind of dynamics.
fn kind_number(kind: RuleKind) -> u32
    ensures { result ≡ model.kind_number kind }
{
    match kind {
        RuleKind::Heat => 1,
        RuleKind::Metropolis => 2,
    }
}

// The thresholds of a slot of this kind.
fn cases(kind: RuleKind) -> usize
    ensures { result ≡ cases_of kind }
{
    match kind {
        RuleKind::Heat => 7,
        RuleKind::Metropolis => 3,
    }
}

// Adds the header.
#[tactic(auto, unfolding(crate::specs::CanonicalPlan::header_bytes))]
fn add_header(hasher: &mut Sha256, plan: &Plan)
    ensures { (m : List ℕ) → Holds256 hasher.old m → Holds256 hasher.new (m ++ model.header_bytes plan.now) }
{
    hasher.update(b"GLASSPL1");
    add_u32(hasher, plan.lattice().size());
    add_u32(hasher, plan.slots());
    add_u32(hasher, kind_number(plan.rules().kind()));
    add_u32(hasher, plan.sweeps());
    add_u64(hasher, plan.seed());
}

// Adds the thresholds slot by slot.
fn add_rules(hasher: &mut Sha256, rules: &RuleTable)
    ensures { (m : List ℕ) → Holds256 hasher.old m →
        Holds256 hasher.new (m ++ flat_map words_64 rules.now.rows) }
{
    'slots: for slot in 0..rules.slots() {
        add_slot(hasher, rules, slot);
    }
}

// Adds the thresholds of a slot.
fn add_slot(hasher: &mut Sha256, rules: &RuleTable, slot: u32)
    requires { slot < length rules.now.rows }
    ensures { (m : List ℕ) → Holds256 hasher.old m →
        Holds256 hasher.new (m ++ words_64 (thresholds_of rules.now slot)) }
{
    let thresholds = &rules.row(slot).values;
    add_numbers(hasher, &thresholds[..cases(rules.kind())]);
}

// Adds numbers one after the other.
fn add_numbers(hasher: &mut Sha256, numbers: &[u64])
    ensures { (m : List ℕ) → Holds256 hasher.old m →
        Holds256 hasher.new (m ++ words_64 numbers.now) }
{
    'numbers: for number in numbers {
        add_u64(hasher, *number);
    }
}

// Adds the entries pair by pair.
fn add_swaps(hasher: &mut Sha256, swaps: &SwapTable)
    ensures { (m : List ℕ) → Holds256 hasher.old m →
        Holds256 hasher.new (m ++ flat_map model.pair_bytes swaps.now) }
{
    'pairs: for pair in 0..swaps.pairs() {
        add_u32(hasher, swaps.entries(pair));
        add_entries(hasher, swaps, pair);
    }
}

// Adds the entries of a pair.
fn add_entries(hasher: &mut Sha256, swaps: &SwapTable, pair: u32)
    requires { pair < length swaps.now }
    ensures { (m : List ℕ) → Holds256 hasher.old m →
        Holds256 hasher.new (m ++ words_64 (entries_of swaps.now pair)) }
{
    'entries: for entry in 0..swaps.entries(pair) {
        add_u64(hasher, swaps.threshold(pair, entry));
    }
}

// Adds the word of each bond.
fn add_couplings(hasher: &mut Sha256, couplings: &Couplings)
    ensures { (m : List ℕ) → Holds256 hasher.old m →
        Holds256 hasher.new (m ++ words_64 (model.bond_words couplings.now)) }
{
    let size = couplings.size();
    'bonds: for bond in 0..3 * (size * size * size) {
        add_u64(hasher, couplings.negative(bond / 3, bond % 3));
    }
}
