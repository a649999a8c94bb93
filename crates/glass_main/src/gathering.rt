//! Reading what a run file names, step by step.

ghost use Rattle.std.specs.Prelude.{◌≡◌, ◌+◌, Bool, false, length, option_map, IfOk, IfErr, Ok, Err};
ghost use Rattle.coupling_set.specs.BondsAsWords.{couplings_with};
ghost use Rattle.spin_model.specs.Couplings.{plus, random};
ghost use Rattle.glass_edges.specs.Refusals.{Gives};
ghost use Rattle.run_plan.specs.RunFile.{run_file, IsLawfulRunFile, AreLawfulOrders};
ghost use Rattle.threshold_table.specs.Tables.{rule_table, swap_table};
ghost use Rattle.glass_main.specs.BankTables.{rules_read, swaps_read};
ghost use Rattle.glass_main.specs.CheckpointBytes.{AreBytes};
ghost use Rattle.glass_main.specs.Endings.{IsOfBanked, IsOfLevel, IsOfOneEpoch, IsOfStates, IsReached, IsReachedAfter, IsReachedAfterRules};
ghost use Rattle.glass_main.specs.Gathers.{Gathers, Fetches, gathered};
ghost use Rattle.glass_main.specs.Outside.{store};
ghost use Rattle.glass_main.specs.Request as model;
ghost use Rattle.glass_main.specs.Statuses.{IfRefused};

use crate::ending::Ending;
use crate::planned::Planned;
use crate::refusal::Refusal;
use crate::role::Role;
use coupling_set::{Couplings, CouplingsRefused, couplings_are_their_bonds};
use glass_edges::{Fetched, NoMemory, Shelf};
use lattice_geometry::Lattice;
use plain_list::Items;
use run_plan::{CouplingSource, PlanRefused, RunFile, check_banks, read_plan};
use scalar_rule::Plan;
use std::alloc::Global;
use threshold_table::{RuleTable, SwapTable, TableRefused, read_rule, read_swap};

/// A rule table, and the bytes of which it was read.
#[derive(Drop)]
pub(crate) struct ReadRules {
    pub(crate) rules: RuleTable,
    pub(crate) bytes: Items<u8>,
}

/// A swap table, and the bytes of which it was read.
#[derive(Drop)]
pub(crate) struct ReadSwaps {
    pub(crate) swaps: SwapTable,
    pub(crate) bytes: Items<u8>,
}

/// Reads the run file of a name, then the tables and couplings that it names, for a command that runs one
/// bank of 64 samples.
#[tactic(auto, unfolding(crate::specs::Request::plan_at))]
pub(crate) fn gather_plan<H: Shelf>(
    alloc: Global,
    shelf: &mut H,
    name: &str,
) -> Result<Planned, Ending>
    ensures asked { Gathers (option_map (model.plan_at name.now) (H.holds shelf.old))
        (IsReached false name.now (H.holds shelf.old)) result
        (store H.Shelf shelf.old) (store H.Shelf shelf.new) }
    ensures orders { IfOk result (λ planned. AreLawfulOrders planned.orders) }
{
    let file = gather_run_file(alloc, shelf, name, false)?;
    gather_after_file(alloc, shelf, &file)
}

/// Reads the tables and couplings of a run file of one bank.
#[tactic(auto, unfolding(crate::specs::Request::plan_after_file))]
pub(crate) fn gather_after_file<H: Shelf>(
    alloc: Global,
    shelf: &mut H,
    file: &RunFile,
) -> Result<Planned, Ending>
    requires lawful { IsLawfulRunFile file.now }
    requires orders { AreLawfulOrders file.now.orders }
    ensures asked { Gathers (option_map (model.plan_after_file file.now) (H.holds shelf.old))
        (IsReachedAfter file.now (H.holds shelf.old)) result
        (store H.Shelf shelf.old) (store H.Shelf shelf.new) }
    ensures orders { IfOk result (λ planned. AreLawfulOrders planned.orders) }
{
    let ReadRules { rules, .. } = gather_rules(alloc, shelf, file)?;
    gather_after_rules(alloc, shelf, file, rules)
}

// Reads the swap table and the couplings of a run file whose rule table is read.
#[tactic(auto, unfolding(crate::specs::Request::plan_after_rules))]
fn gather_after_rules<H: Shelf>(
    alloc: Global,
    shelf: &mut H,
    file: &RunFile,
    rules: RuleTable,
) -> Result<Planned, Ending>
    requires lawful { IsLawfulRunFile file.now }
    requires orders { AreLawfulOrders file.now.orders }
    ensures asked { Gathers (option_map (model.plan_after_rules file.now rules) (H.holds shelf.old))
        (IsReachedAfterRules file.now rules (H.holds shelf.old)) result
        (store H.Shelf shelf.old) (store H.Shelf shelf.new) }
    ensures orders { IfOk result (λ planned. AreLawfulOrders planned.orders) }
{
    let ReadSwaps { swaps, .. } = gather_swaps(alloc, shelf, file, &rules)?;
    let couplings = gather_couplings(alloc, shelf, file)?;
    Ok(Planned {
        plan: Plan::new(
            file.lattice,
            rules,
            swaps,
            couplings,
            file.sweeps,
            file.seed,
        ),
        orders: file.orders,
    })
}

/// Reads the run file of a name, for a command that runs many banks of 64 samples or but one.
#[tactic(auto, unfolding(crate::specs::Request::run_file_at))]
pub(crate) fn gather_run_file<H: Shelf>(
    alloc: Global,
    shelf: &mut H,
    name: &str,
    many: bool,
) -> Result<RunFile, Ending>
    ensures asked { Gathers (option_map (model.run_file_at many name.now) (H.holds shelf.old))
        (Fetches Role.RunFile) result (store H.Shelf shelf.old) (store H.Shelf shelf.new) }
    // A command that runs many banks tells no need of fewer samples.
    ensures banks { IfErr result (λ ending. IfRefused ending (IsOfBanked many)) }
    ensures lawful { IfOk result IsLawfulRunFile }
    ensures orders { many ≡ false → IfOk result (λ file. AreLawfulOrders file.orders) }
{
    let bytes = gather_bytes(alloc, shelf, Role::RunFile, name)?;
    match read_run_file(alloc, bytes.as_slice(), many) {
        Ok(file) => Ok(file),
        Err(PlanRefused::NoMemory) => Err(Ending::NoMemory),
        Err(refused) => Err(Ending::Refused(Refusal::Plan(refused))),
    }
}

// The run file that the bytes are, for a command that runs many banks of 64 samples or but one.
fn read_run_file(alloc: Global, bytes: &[u8], many: bool) -> Result<RunFile, PlanRefused>
    ensures value { Gives PlanRefused.NoMemory (λ file. file) result (model.banked many (run_file bytes.now)) }
    ensures lawful { IfOk result IsLawfulRunFile }
    ensures orders { many ≡ false → IfOk result (λ file. AreLawfulOrders file.orders) }
    // What many banks refuse one refuses too.
    ensures cause { IfErr result (λ e. ¬ (e ≡ PlanRefused.NoMemory) → model.banked false (run_file bytes.now) ≡ Err e) }
    ensures banks { IfErr result (λ e. IsOfBanked many (Refusal.Plan e)) }
{
    let file = read_plan(alloc, bytes)?;
    check_banks(&file.orders, many)?;
    Ok(file)
}

/// Reads the rule table that a run file names, and keeps its bytes.
#[tactic(auto, unfolding(crate::specs::Request::rules_at))]
pub(crate) fn gather_rules<H: Shelf>(
    alloc: Global,
    shelf: &mut H,
    file: &RunFile,
) -> Result<ReadRules, Ending>
    ensures asked { Gathers (option_map (model.rules_at file.now) (H.holds shelf.old))
        (Fetches Role.RuleTable) (rules_read result)
        (store H.Shelf shelf.old) (store H.Shelf shelf.new) }
    ensures read { IfOk result (λ read. rule_table file.now.kind read.bytes ≡ Ok read.rules) }
{
    let bytes = gather_bytes(alloc, shelf, Role::RuleTable, file.rules.as_str())?;
    match read_rule(alloc, bytes.as_slice(), file.kind) {
        Ok(rules) => Ok(ReadRules { rules, bytes }),
        Err(TableRefused::NoMemory) => Err(Ending::NoMemory),
        Err(refused) => Err(Ending::Refused(Refusal::Rules(refused))),
    }
}

/// Reads the swap table that a run file names, for so many slots, and keeps its bytes.
#[tactic(auto, unfolding(crate::specs::Request::swaps_at))]
pub(crate) fn gather_swaps<H: Shelf>(
    alloc: Global,
    shelf: &mut H,
    file: &RunFile,
    rules: &RuleTable,
) -> Result<ReadSwaps, Ending>
    ensures asked { Gathers (option_map (model.swaps_at file.now rules.now) (H.holds shelf.old))
        (Fetches Role.SwapTable) (swaps_read result)
        (store H.Shelf shelf.old) (store H.Shelf shelf.new) }
    ensures read { IfOk result (λ read. swap_table (length rules.now.rows) read.bytes ≡ Ok read.swaps) }
    ensures pairs { IfOk result (λ read. length read.swaps + 1 ≡ length rules.now.rows) }
{
    let bytes = gather_bytes(alloc, shelf, Role::SwapTable, file.swaps.as_str())?;
    match read_swap(alloc, bytes.as_slice(), rules.slots()) {
        Ok(swaps) => Ok(ReadSwaps { swaps, bytes }),
        Err(TableRefused::NoMemory) => Err(Ending::NoMemory),
        Err(refused) => Err(Ending::Refused(Refusal::Swaps(refused))),
    }
}

// Makes the couplings of a run file, or reads them from the file that it names.
#[tactic(auto, unfolding(crate::specs::Request::couplings_from))]
fn gather_couplings<H: Shelf>(
    alloc: Global,
    shelf: &mut H,
    file: &RunFile,
) -> Result<Couplings, Ending>
    ensures asked { Gathers (option_map (model.couplings_at file.now) (H.holds shelf.old))
        (Fetches Role.Couplings) result (store H.Shelf shelf.old) (store H.Shelf shelf.new) }
    ensures size { IfOk result (λ couplings. couplings.size ≡ file.now.lattice) }
{
    let made = match &file.couplings {
        CouplingSource::Plus => make_plus(alloc, file.lattice),
        CouplingSource::Random => make_random(alloc, file.lattice, file.seed),
        CouplingSource::File(name) => {
            return gather_couplings_file(alloc, shelf, file.lattice, name.as_str());
        }
    };
    match made {
        Ok(couplings) => Ok(couplings),
        Err(NoMemory) => Err(Ending::NoMemory),
    }
}

// Reads the couplings file of a name.
fn gather_couplings_file<H: Shelf>(
    alloc: Global,
    shelf: &mut H,
    lattice: Lattice,
    name: &str,
) -> Result<Couplings, Ending>
    ensures asked { Gathers (option_map (model.couplings_file_at lattice name.now) (H.holds shelf.old))
        (Fetches Role.Couplings) result (store H.Shelf shelf.old) (store H.Shelf shelf.new) }
    ensures size { IfOk result (λ couplings. couplings.size ≡ lattice) }
{
    let bytes = gather_bytes(alloc, shelf, Role::Couplings, name)?;
    match Couplings::read(alloc, lattice, bytes.as_slice()) {
        Ok(couplings) => Ok(couplings),
        Err(CouplingsRefused::NoMemory) => Err(Ending::NoMemory),
        Err(refused) => Err(Ending::Refused(Refusal::Couplings(refused))),
    }
}

/// The ferromagnet.
pub(crate) fn make_plus(alloc: Global, lattice: Lattice) -> Result<Couplings, NoMemory>
    ensures made { IfOk result (λ couplings. couplings ≡ couplings_with lattice plus) }
    ensures size { IfOk result (λ couplings. couplings.size ≡ lattice) }
{
    let couplings = Couplings::plus(alloc, lattice)?;
    couplings_are_their_bonds(&couplings);
    Ok(couplings)
}

/// Random couplings of a seed.
pub(crate) fn make_random(alloc: Global, lattice: Lattice, seed: u64) -> Result<Couplings, NoMemory>
    ensures made { IfOk result (λ couplings. couplings ≡ couplings_with lattice (random seed)) }
    ensures size { IfOk result (λ couplings. couplings.size ≡ lattice) }
{
    let couplings = Couplings::random(alloc, lattice, seed)?;
    couplings_are_their_bonds(&couplings);
    Ok(couplings)
}

/// Fetches the bytes of a file that a run reads.
pub(crate) fn gather_bytes<H: Shelf>(
    alloc: Global,
    shelf: &mut H,
    role: Role,
    name: &str,
) -> Result<Items<u8>, Ending>
    ensures asked { Gathers (option_map (model.bytes_at role name.now) (H.holds shelf.old))
        (Fetches role) result (store H.Shelf shelf.old) (store H.Shelf shelf.new) }
    // A fetch is refused for no format, and so for none of a checkpoint that is not at one epoch, of one bank or of several.
    ensures level { IfErr result (λ ending. IfRefused ending IsOfOneEpoch) }
    ensures levels { IfErr result (λ ending. IfRefused ending IsOfLevel) }
    ensures states { IfErr result (λ ending. IfRefused ending IsOfStates) }
    ensures banks { (many : Bool) → IfErr result (λ ending. IfRefused ending (IsOfBanked many)) }
    ensures bytes { IfOk result AreBytes }
{
    let bytes = fetch_bytes(alloc, shelf, role, name)?;
    are_bytes(bytes.as_slice());
    Ok(bytes)
}

// Fetches the bytes of a file. A fetch that failed is not tried again.
fn fetch_bytes<H: Shelf>(
    alloc: Global,
    shelf: &mut H,
    role: Role,
    name: &str,
) -> Result<Items<u8>, Ending>
    ensures asked { Gathers (option_map (model.bytes_at role name.now) (H.holds shelf.old))
        (Fetches role) result (store H.Shelf shelf.old) (store H.Shelf shelf.new) }
    ensures level { IfErr result (λ ending. IfRefused ending IsOfOneEpoch) }
    ensures levels { IfErr result (λ ending. IfRefused ending IsOfLevel) }
    ensures states { IfErr result (λ ending. IfRefused ending IsOfStates) }
    ensures banks { (many : Bool) → IfErr result (λ ending. IfRefused ending (IsOfBanked many)) }
{
    gathered(role, shelf.fetch(alloc, name, role.limit()))
}

// What a file holds are numbers below 256.
fn are_bytes(bytes: &[u8])
    ensures { AreBytes bytes.now }
{}

/// What is made of a fetch's answer.
pub(crate) fn gathered(role: Role, fetched: Fetched) -> Result<Items<u8>, Ending>
    ensures { result ≡ gathered role fetched }
{
    match fetched {
        Fetched::Held(bytes) => Ok(Items::of(bytes)),
        Fetched::Absent => Err(Ending::Refused(Refusal::Absent(role))),
        Fetched::TooLong(n) => Err(Ending::Refused(Refusal::TooLong(role, n))),
        Fetched::Failed => Err(Ending::Unread(role)),
        Fetched::NoMemory => Err(Ending::NoMemory),
    }
}
