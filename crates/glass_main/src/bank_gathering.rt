//! Reading what a run file names, where the run may have several banks of 64 samples.

ghost use Rattle.std.specs.Prelude.{◌≡◌, ◌<◌, ◌+◌, length, option_map, IfOk, IfErr, Ok, Err};
ghost use Rattle.coupling_set.specs.CouplingsFile.{couplings_in};
ghost use Rattle.glass_edges.specs.Refusals.{Gives};
ghost use Rattle.run_plan.specs.RunFile.{IsLawfulRunFile};
ghost use Rattle.threshold_table.specs.Tables.{rule_table, swap_table};
ghost use Rattle.glass_main.specs.BankTables.{HasLawfulOrders};
ghost use Rattle.glass_main.specs.Endings.{IsOfBanked, IsReached, IsReachedAfter, IsReachedAfterRules};
ghost use Rattle.glass_main.specs.Gathers.{Gathers, Fetches};
ghost use Rattle.glass_main.specs.Outside.{store};
ghost use Rattle.glass_main.specs.Request as model;
ghost use Rattle.glass_main.specs.Statuses.{IfRefused};

use crate::bank_tables::plans_of;
use crate::ending::Ending;
use crate::gathering::{
    ReadRules, ReadSwaps, gather_after_file, gather_bytes, gather_rules, gather_run_file,
    gather_swaps,
};
use crate::plans::{PlannedBanks, Plans};
use crate::refusal::Refusal;
use crate::role::Role;
use coupling_set::CouplingsRefused;
use glass_edges::Shelf;
use plain_list::Items;
use run_plan::{CouplingSource, RunFile};
use spin_model::BANK_SAMPLES;
use std::alloc::Global;

/// Reads the run file of a name, then the tables and couplings that it names, for a command that runs many
/// banks of 64 samples or but one.
#[tactic(auto, unfolding(crate::specs::Request::plans_at))]
pub(crate) fn gather_plans<H: Shelf>(
    alloc: Global,
    shelf: &mut H,
    name: &str,
    many: bool,
) -> Result<Plans, Ending>
    ensures asked { Gathers (option_map (model.plans_at many name.now) (H.holds shelf.old))
        (IsReached many name.now (H.holds shelf.old)) result
        (store H.Shelf shelf.old) (store H.Shelf shelf.new) }
    ensures banks { IfErr result (λ ending. IfRefused ending (IsOfBanked many)) }
    ensures orders { IfOk result HasLawfulOrders }
{
    let file = gather_run_file(alloc, shelf, name, many)?;
    gather_after_run_file(alloc, shelf, &file)
}

// Reads the tables and couplings of a run file.
#[tactic(auto, unfolding(crate::specs::Request::plans_after_file))]
fn gather_after_run_file<H: Shelf>(
    alloc: Global,
    shelf: &mut H,
    file: &RunFile,
) -> Result<Plans, Ending>
    requires lawful { IsLawfulRunFile file.now }
    ensures asked { Gathers (option_map (model.plans_after_file file.now) (H.holds shelf.old))
        (IsReachedAfter file.now (H.holds shelf.old)) result
        (store H.Shelf shelf.old) (store H.Shelf shelf.new) }
    ensures orders { IfOk result HasLawfulOrders }
{
    if file.orders.samples <= BANK_SAMPLES {
        let planned = gather_after_file(alloc, shelf, file)?;
        Ok(Plans::One(planned))
    } else {
        let planned = gather_banks(alloc, shelf, file)?;
        Ok(Plans::Banks(planned))
    }
}

// Reads the tables and couplings of a run file of several banks.
#[tactic(auto, unfolding(crate::specs::Request::banks_after_file))]
fn gather_banks<H: Shelf>(
    alloc: Global,
    shelf: &mut H,
    file: &RunFile,
) -> Result<PlannedBanks, Ending>
    requires lawful { IsLawfulRunFile file.now }
    requires several { 64 < file.now.orders.samples }
    ensures asked { Gathers (option_map (model.banks_after_file file.now) (H.holds shelf.old))
        (IsReachedAfter file.now (H.holds shelf.old)) result
        (store H.Shelf shelf.old) (store H.Shelf shelf.new) }
{
    let rules = gather_rules(alloc, shelf, file)?;
    gather_after_rules(alloc, shelf, file, &rules)
}

// Reads the swap table and the couplings of a run file whose rule table is read.
#[tactic(auto, unfolding(crate::specs::Request::banks_after_rules))]
fn gather_after_rules<H: Shelf>(
    alloc: Global,
    shelf: &mut H,
    file: &RunFile,
    rules: &ReadRules,
) -> Result<PlannedBanks, Ending>
    requires lawful { IsLawfulRunFile file.now }
    requires several { 64 < file.now.orders.samples }
    requires rules { rule_table file.now.kind rules.now.bytes ≡ Ok rules.now.rules }
    ensures asked { Gathers (option_map (model.banks_after_rules file.now rules.now.rules) (H.holds shelf.old))
        (IsReachedAfterRules file.now rules.now.rules (H.holds shelf.old)) result
        (store H.Shelf shelf.old) (store H.Shelf shelf.new) }
{
    let swaps = gather_swaps(alloc, shelf, file, &rules.rules)?;
    gather_after_tables(alloc, shelf, file, rules, &swaps)
}

// Reads the couplings of a run file whose tables are read.
#[tactic(auto, unfolding(crate::specs::Request::banks_after_tables))]
fn gather_after_tables<H: Shelf>(
    alloc: Global,
    shelf: &mut H,
    file: &RunFile,
    rules: &ReadRules,
    swaps: &ReadSwaps,
) -> Result<PlannedBanks, Ending>
    requires lawful { IsLawfulRunFile file.now }
    requires several { 64 < file.now.orders.samples }
    requires rules { rule_table file.now.kind rules.now.bytes ≡ Ok rules.now.rules }
    requires swaps { swap_table (length rules.now.rules.rows) swaps.now.bytes ≡ Ok swaps.now.swaps }
    requires pairs { length swaps.now.swaps + 1 ≡ length rules.now.rules.rows }
    ensures asked { Gathers (option_map (model.banks_after_tables file.now rules.now.rules swaps.now.swaps) (H.holds shelf.old))
        (Fetches Role.Couplings) result (store H.Shelf shelf.old) (store H.Shelf shelf.new) }
{
    let stored = gather_stored(alloc, shelf, &file.couplings)?;
    match read_banks(alloc, file, rules, swaps, stored.as_slice()) {
        Ok(planned) => Ok(planned),
        Err(CouplingsRefused::NoMemory) => Err(Ending::NoMemory),
        Err(refused) => Err(Ending::Refused(Refusal::Couplings(refused))),
    }
}

// The plans of the banks, by the bytes of the couplings file where one is named.
fn read_banks(
    alloc: Global,
    file: &RunFile,
    rules: &ReadRules,
    swaps: &ReadSwaps,
    stored: &[u8],
) -> Result<PlannedBanks, CouplingsRefused>
    requires lawful { IsLawfulRunFile file.now }
    requires several { 64 < file.now.orders.samples }
    requires rules { rule_table file.now.kind rules.now.bytes ≡ Ok rules.now.rules }
    requires swaps { swap_table (length rules.now.rules.rows) swaps.now.bytes ≡ Ok swaps.now.swaps }
    requires pairs { length swaps.now.swaps + 1 ≡ length rules.now.rules.rows }
    ensures value { Gives CouplingsRefused.NoMemory (λ planned. planned) result
        (model.banks_by file.now rules.now.rules swaps.now.swaps
        (model.bonds_in file.now.couplings file.now.lattice file.now.seed stored.now)) }
    ensures cause { IfErr result (λ e. ¬ (e ≡ CouplingsRefused.NoMemory) → couplings_in file.now.lattice 0 stored.now ≡ Err e) }
{
    match plans_of(alloc, file, rules, swaps, stored, file.seed) {
        Ok(plans) => Ok(PlannedBanks {
            plans,
            orders: file.orders,
        }),
        Err(refused) => Err(refused),
    }
}

/// Fetches the couplings file that a source names; no bytes where it names none.
#[tactic(auto, unfolding(crate::specs::Request::stored_at))]
pub(crate) fn gather_stored<H: Shelf>(
    alloc: Global,
    shelf: &mut H,
    source: &CouplingSource,
) -> Result<Items<u8>, Ending>
    ensures { Gathers (option_map (model.stored_at source.now) (H.holds shelf.old))
        (Fetches Role.Couplings) result (store H.Shelf shelf.old) (store H.Shelf shelf.new) }
{
    match source {
        CouplingSource::Plus => Ok(Items::of(Vec::new(alloc))),
        CouplingSource::Random => Ok(Items::of(Vec::new(alloc))),
        CouplingSource::File(name) => { gather_bytes(alloc, shelf, Role::Couplings, name.as_str()) }
    }
}
