//! The plans of several banks. A plan owns its tables, so each bank's are read anew of the same bytes.

ghost use Rattle.std.specs.Prelude.{◌≡◌, ◌≤◌, ◌<◌, ◌+◌, length, map, IfOk, Ok};
ghost use Rattle.std.specs.Arc.{arc_value};
ghost use Rattle.coupling_set.specs.BondsAsWords.{couplings_with, bank_of};
ghost use Rattle.glass_edges.specs.Refusals.{Gives};
ghost use Rattle.run_plan.specs.PlanOf.{plan_with};
ghost use Rattle.run_plan.specs.RunFile.{IsLawfulRunFile};
ghost use Rattle.spin_model.specs.Couplings.{random};
ghost use Rattle.threshold_table.specs.Tables.{rule_table, swap_table};
ghost use Rattle.glass_main.specs.BankTables.{couplings_by, file_with_seed, plan_by, plans_by};
ghost use Rattle.glass_main.specs.ManyBanks.{bank_count};
ghost use Rattle.glass_main.specs.Request as model;

use crate::gathering::{ReadRules, ReadSwaps, make_plus};
use coupling_set::{Couplings, CouplingsRefused, couplings_are_their_bonds};
use glass_edges::NoMemory;
use lattice_geometry::Lattice;
use run_plan::{CouplingSource, RunFile};
use scalar_rule::Plan;
use std::alloc::Global;
use std::sync::Arc;
use threshold_table::{RuleTable, SwapTable, read_rule, read_swap};

/// The plan of each bank of a run file with these tables and this seed, by the bytes of the couplings file
/// where one is named. Random couplings are those of the run file's own seed.
pub(crate) fn plans_of(
    alloc: Global,
    file: &RunFile,
    rules: &ReadRules,
    swaps: &ReadSwaps,
    stored: &[u8],
    seed: u64,
) -> Result<Vec<Arc<Plan, Global>>, CouplingsRefused>
    requires lawful { IsLawfulRunFile file.now }
    requires seed { seed ≤ 9223372036854775807 }
    requires rules { rule_table file.now.kind rules.now.bytes ≡ Ok rules.now.rules }
    requires swaps { swap_table (length rules.now.rules.rows) swaps.now.bytes ≡ Ok swaps.now.swaps }
    requires pairs { length swaps.now.swaps + 1 ≡ length rules.now.rules.rows }
    ensures { Gives CouplingsRefused.NoMemory (λ plans. map arc_value plans.items) result
        (plans_by (file_with_seed seed file.now) rules.now.rules swaps.now.swaps (bank_count file.now.orders.samples)
        (model.bonds_in file.now.couplings file.now.lattice file.now.seed stored.now)) }
{
    let banks = bank_count(file.orders.samples);
    let mut plans = Vec::with_capacity(alloc, banks as usize)?;
    'banks: for bank in 0..banks {
        plans.push(bank_plan(alloc, file, rules, swaps, stored, seed, bank)?)?;
    }
    Ok(plans)
}

// How many banks so many samples are kept in.
fn bank_count(samples: u32) -> u32
    requires { samples ≤ 256 }
    ensures count { result ≡ bank_count samples }
    ensures few { result ≤ 4 }
{
    (samples + 63) / 64
}

// The plan of a bank.
fn bank_plan(
    alloc: Global,
    file: &RunFile,
    rules: &ReadRules,
    swaps: &ReadSwaps,
    stored: &[u8],
    seed: u64,
    bank: u32,
) -> Result<Arc<Plan, Global>, CouplingsRefused>
    requires lawful { IsLawfulRunFile file.now }
    requires seed { seed ≤ 9223372036854775807 }
    requires rules { rule_table file.now.kind rules.now.bytes ≡ Ok rules.now.rules }
    requires swaps { swap_table (length rules.now.rules.rows) swaps.now.bytes ≡ Ok swaps.now.swaps }
    requires pairs { length swaps.now.swaps + 1 ≡ length rules.now.rules.rows }
    requires bank { bank < 4 }
    ensures { Gives CouplingsRefused.NoMemory arc_value result
        (plan_by (file_with_seed seed file.now) rules.now.rules swaps.now.swaps bank
        (model.bonds_in file.now.couplings file.now.lattice file.now.seed stored.now)) }
{
    let couplings = bank_couplings(alloc, file, stored, bank)?;
    let plan = plan_of(alloc, file, rules, swaps, couplings, seed)?;
    Ok(plan)
}

// The plan with these couplings.
fn plan_of(
    alloc: Global,
    file: &RunFile,
    rules: &ReadRules,
    swaps: &ReadSwaps,
    couplings: Couplings,
    seed: u64,
) -> Result<Arc<Plan, Global>, NoMemory>
    requires lawful { IsLawfulRunFile file.now }
    requires seed { seed ≤ 9223372036854775807 }
    requires rules { rule_table file.now.kind rules.now.bytes ≡ Ok rules.now.rules }
    requires swaps { swap_table (length rules.now.rules.rows) swaps.now.bytes ≡ Ok swaps.now.swaps }
    requires pairs { length swaps.now.swaps + 1 ≡ length rules.now.rules.rows }
    requires size { couplings.size ≡ file.now.lattice }
    ensures { IfOk result (λ plan. arc_value plan
        ≡ plan_with (file_with_seed seed file.now) rules.now.rules swaps.now.swaps couplings) }
{
    let own_rules = rules_again(alloc, file, rules)?;
    let own_swaps = swaps_again(alloc, &rules.rules, swaps)?;
    let plan = Plan::new(
        file.lattice,
        own_rules,
        own_swaps,
        couplings,
        file.sweeps,
        seed,
    );
    Ok(Arc::new(alloc, plan)?)
}

// The rule table once more; its bytes were read before, so only memory can be wanting.
fn rules_again(alloc: Global, file: &RunFile, read: &ReadRules) -> Result<RuleTable, NoMemory>
    requires { rule_table file.now.kind read.now.bytes ≡ Ok read.now.rules }
    ensures { IfOk result (λ rules. rules ≡ read.now.rules) }
{
    match read_rule(alloc, read.bytes.as_slice(), file.kind) {
        Ok(rules) => Ok(rules),
        Err(_) => Err(NoMemory),
    }
}

// The swap table once more.
fn swaps_again(alloc: Global, rules: &RuleTable, read: &ReadSwaps) -> Result<SwapTable, NoMemory>
    requires { swap_table (length rules.now.rows) read.now.bytes ≡ Ok read.now.swaps }
    ensures { IfOk result (λ swaps. swaps ≡ read.now.swaps) }
{
    match read_swap(alloc, read.bytes.as_slice(), rules.slots()) {
        Ok(swaps) => Ok(swaps),
        Err(_) => Err(NoMemory),
    }
}

// The couplings of a bank.
#[tactic(auto, unfolding(crate::specs::Request::bonds_in))]
fn bank_couplings(
    alloc: Global,
    file: &RunFile,
    stored: &[u8],
    bank: u32,
) -> Result<Couplings, CouplingsRefused>
    requires { bank < 4 }
    ensures value { Gives CouplingsRefused.NoMemory (λ couplings. couplings) result
        (couplings_by file.now.lattice bank
        (model.bonds_in file.now.couplings file.now.lattice file.now.seed stored.now)) }
    ensures size { IfOk result (λ couplings. couplings.size ≡ file.now.lattice) }
{
    match &file.couplings {
        CouplingSource::Plus => Ok(make_plus(alloc, file.lattice)?),
        CouplingSource::Random => Ok(random_bank(alloc, file.lattice, file.seed, bank)?),
        CouplingSource::File(_) => Couplings::read_bank(alloc, file.lattice, bank, stored),
    }
}

// Random couplings of a seed.
fn random_bank(alloc: Global, lattice: Lattice, seed: u64, bank: u32) -> Result<Couplings, NoMemory>
    requires { bank < 4 }
    ensures made { IfOk result (λ couplings. couplings ≡ couplings_with lattice (bank_of bank (random seed))) }
    ensures size { IfOk result (λ couplings. couplings.size ≡ lattice) }
{
    let couplings = Couplings::random_bank(alloc, lattice, seed, bank)?;
    couplings_are_their_bonds(&couplings);
    Ok(couplings)
}
