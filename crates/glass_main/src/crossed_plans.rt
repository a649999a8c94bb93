//! The plans under which two saved states are read: those of a run, and the same with another seed.

ghost use Rattle.std.specs.Prelude.{◌≡◌, ◌≤◌, ◌+◌, length, option_map, true, IfOk, IfErr, Ok, Err};
ghost use Rattle.coupling_set.specs.CouplingsFile.{couplings_in};
ghost use Rattle.glass_edges.specs.Refusals.{Gives};
ghost use Rattle.run_plan.specs.RunFile.{IsLawfulRunFile};
ghost use Rattle.threshold_table.specs.Tables.{rule_table, swap_table};
ghost use Rattle.glass_main.specs.CrossedPlans.{first_of, planned_read, KeepsSeeded};
ghost use Rattle.glass_main.specs.Endings.{IsOfBanked, IsReached, IsReachedAfter, IsReachedAfterRules};
ghost use Rattle.glass_main.specs.Gathers.{Gathers, Fetches};
ghost use Rattle.glass_main.specs.Outside.{store};
ghost use Rattle.glass_main.specs.Request as model;
ghost use Rattle.glass_main.specs.Statuses.{IfRefused};
ghost use Rattle.glass_main.specs.declared.role.Role.{Role};

use crate::bank_gathering::gather_stored;
use crate::bank_tables::plans_of;
use crate::ending::Ending;
use crate::gathering::{ReadRules, ReadSwaps, gather_rules, gather_run_file, gather_swaps};
use crate::refusal::Refusal;
use coupling_set::CouplingsRefused;
use glass_edges::Shelf;
use run_plan::{Orders, RunFile};
use scalar_rule::Plan;
use std::alloc::Global;
use std::sync::Arc;

/// The plans of the banks of a run, 1 to 4, the same with another seed, and the orders of the run.
#[derive(Drop)]
pub(crate) struct SeededPlans {
    pub(crate) first: Vec<Arc<Plan, Global>>,
    pub(crate) second: Vec<Arc<Plan, Global>>,
    pub(crate) orders: Orders,
}

/// Reads the run file of a name, and what it names.
#[tactic(auto, unfolding(crate::specs::Request::cross_plans_at))]
pub(crate) fn gather_seeded<H: Shelf>(
    alloc: Global,
    shelf: &mut H,
    name: &str,
    seed: u64,
) -> Result<SeededPlans, Ending>
    requires seed { seed ≤ 9223372036854775807 }
    ensures asked { Gathers (option_map (model.cross_plans_at name.now) (H.holds shelf.old))
        (IsReached true name.now (H.holds shelf.old)) (planned_read result)
        (store H.Shelf shelf.old) (store H.Shelf shelf.new) }
    ensures banks { IfErr result (λ ending. IfRefused ending (IsOfBanked true)) }
    ensures kept { IfOk result (KeepsSeeded seed) }
{
    let file = gather_run_file(alloc, shelf, name, true)?;
    gather_after_file(alloc, shelf, &file, seed)
}

// Reads the tables and couplings of a run file.
#[tactic(auto, unfolding(crate::specs::Request::banks_after_file))]
fn gather_after_file<H: Shelf>(
    alloc: Global,
    shelf: &mut H,
    file: &RunFile,
    seed: u64,
) -> Result<SeededPlans, Ending>
    requires lawful { IsLawfulRunFile file.now }
    requires seed { seed ≤ 9223372036854775807 }
    ensures asked { Gathers (option_map (model.banks_after_file file.now) (H.holds shelf.old))
        (IsReachedAfter file.now (H.holds shelf.old)) (planned_read result)
        (store H.Shelf shelf.old) (store H.Shelf shelf.new) }
    ensures kept { IfOk result (KeepsSeeded seed) }
{
    let rules = gather_rules(alloc, shelf, file)?;
    gather_after_rules(alloc, shelf, file, &rules, seed)
}

// Reads the swap table and the couplings of a run file whose rule table is read.
#[tactic(auto, unfolding(crate::specs::Request::banks_after_rules))]
fn gather_after_rules<H: Shelf>(
    alloc: Global,
    shelf: &mut H,
    file: &RunFile,
    rules: &ReadRules,
    seed: u64,
) -> Result<SeededPlans, Ending>
    requires lawful { IsLawfulRunFile file.now }
    requires seed { seed ≤ 9223372036854775807 }
    requires rules { rule_table file.now.kind rules.now.bytes ≡ Ok rules.now.rules }
    ensures asked { Gathers (option_map (model.banks_after_rules file.now rules.now.rules) (H.holds shelf.old))
        (IsReachedAfterRules file.now rules.now.rules (H.holds shelf.old)) (planned_read result)
        (store H.Shelf shelf.old) (store H.Shelf shelf.new) }
    ensures kept { IfOk result (KeepsSeeded seed) }
{
    let swaps = gather_swaps(alloc, shelf, file, &rules.rules)?;
    gather_after_tables(alloc, shelf, file, rules, &swaps, seed)
}

// Reads the couplings of a run file whose tables are read.
#[tactic(auto, unfolding(crate::specs::Request::banks_after_tables))]
fn gather_after_tables<H: Shelf>(
    alloc: Global,
    shelf: &mut H,
    file: &RunFile,
    rules: &ReadRules,
    swaps: &ReadSwaps,
    seed: u64,
) -> Result<SeededPlans, Ending>
    requires lawful { IsLawfulRunFile file.now }
    requires seed { seed ≤ 9223372036854775807 }
    requires rules { rule_table file.now.kind rules.now.bytes ≡ Ok rules.now.rules }
    requires swaps { swap_table (length rules.now.rules.rows) swaps.now.bytes ≡ Ok swaps.now.swaps }
    requires pairs { length swaps.now.swaps + 1 ≡ length rules.now.rules.rows }
    ensures asked { Gathers (option_map (model.banks_after_tables file.now rules.now.rules swaps.now.swaps) (H.holds shelf.old))
        (Fetches Role.Couplings) (planned_read result) (store H.Shelf shelf.old) (store H.Shelf shelf.new) }
    ensures kept { IfOk result (KeepsSeeded seed) }
{
    let stored = gather_stored(alloc, shelf, &file.couplings)?;
    match read_seeded(alloc, file, rules, swaps, stored.as_slice(), seed) {
        Ok(plans) => Ok(plans),
        Err(CouplingsRefused::NoMemory) => Err(Ending::NoMemory),
        Err(refused) => Err(Ending::Refused(Refusal::Couplings(refused))),
    }
}

// The plans with both seeds, by the bytes of the couplings file where one is named.
fn read_seeded(
    alloc: Global,
    file: &RunFile,
    rules: &ReadRules,
    swaps: &ReadSwaps,
    stored: &[u8],
    seed: u64,
) -> Result<SeededPlans, CouplingsRefused>
    requires lawful { IsLawfulRunFile file.now }
    requires seed { seed ≤ 9223372036854775807 }
    requires rules { rule_table file.now.kind rules.now.bytes ≡ Ok rules.now.rules }
    requires swaps { swap_table (length rules.now.rules.rows) swaps.now.bytes ≡ Ok swaps.now.swaps }
    requires pairs { length swaps.now.swaps + 1 ≡ length rules.now.rules.rows }
    ensures value { Gives CouplingsRefused.NoMemory first_of result
        (model.banks_by file.now rules.now.rules swaps.now.swaps
        (model.bonds_in file.now.couplings file.now.lattice file.now.seed stored.now)) }
    ensures cause { IfErr result (λ e. ¬ (e ≡ CouplingsRefused.NoMemory) → couplings_in file.now.lattice 0 stored.now ≡ Err e) }
    ensures kept { IfOk result (KeepsSeeded seed) }
{
    let first = plans_of(alloc, file, rules, swaps, stored, file.seed)?;
    let second = plans_of(alloc, file, rules, swaps, stored, seed)?;
    Ok(SeededPlans {
        first,
        second,
        orders: file.orders,
    })
}
