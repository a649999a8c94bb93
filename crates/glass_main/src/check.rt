//! The command `check`: a run file, its tables and couplings are read, and the digest of its plan, or of the
//! plans of its banks, printed.

ghost use Rattle.std.specs.Prelude.{◌≡◌, ◌+◌, ◌≤◌, [], ◌++◌, length, Some};
ghost use Rattle.glass_edges.specs.Writes.{Writes};
ghost use Rattle.command_words.specs.CommandLine.{Check};
ghost use Rattle.glass_main.specs.Outside.{output, store};
ghost use Rattle.glass_main.specs.Statuses.{Ends};
ghost use Rattle.glass_main.specs.Texts.{check_text, plan_line, plan_sizes, plan_dynamics, digest_word};

use crate::bank_gathering::gather_plans;
use crate::digest_lines::digits;
use crate::ending::Ending;
use crate::planned::Planned;
use crate::plans::{PlannedBanks, Plans};
use glass_edges::{Fault, Line, Shelf, Sink};
use report_text::kind_word;
use run_plan::{digest, digest_banks};
use scalar_rule::Plan;
use std::alloc::Global;

/// Reads the run file of a name and what it names, and prints its plan in one line.
pub(crate) fn check<H: Shelf, O: Sink>(
    alloc: Global,
    shelf: &mut H,
    out: &mut O,
    name: &str,
) -> Ending
    ensures { Ends (Some (Check name.now)) result
        (store H.Shelf shelf.old) (store H.Shelf shelf.new)
        (output O.Sink out.old) (output O.Sink out.new) }
{
    let plans = match gather_plans(alloc, shelf, name, true) {
        Ok(plans) => plans,
        Err(ending) => return ending,
    };
    match put_plans(out, &plans) {
        Ok(()) => Ending::Done,
        Err(_) => Ending::Unwritten,
    }
}

// Prints the line of a run's plans.
fn put_plans<O: Sink>(out: &mut O, plans: &Plans) -> Result<(), Fault>
    ensures { Writes O.Sink out.old out.new (check_text plans.now) result }
{
    match plans {
        Plans::One(planned) => put_one(out, planned),
        Plans::Banks(planned) => put_banks(out, planned),
    }
}

// Prints the line of a run of one bank.
fn put_one<O: Sink>(out: &mut O, planned: &Planned) -> Result<(), Fault>
    ensures { Writes O.Sink out.old out.new (check_text (Plans.One planned.now)) result }
{
    let plan = &planned.plan;
    put_plan(out, plan, planned.orders.samples, &digest(plan))
}

// Prints the line of a run of several banks, by the plan of the first and the digest of all.
#[tactic(auto, unfolding(crate::specs::Texts::banks_line))]
fn put_banks<O: Sink>(out: &mut O, planned: &PlannedBanks) -> Result<(), Fault>
    ensures { Writes O.Sink out.old out.new (check_text (Plans.Banks planned.now)) result }
{
    let digest = digest_banks(&planned.plans);
    put_plan(out, &planned.plans[0], planned.orders.samples, &digest)
}

// Prints the line of a plan, for so many samples, with a digest.
fn put_plan<O: Sink>(out: &mut O, plan: &Plan, samples: u32, digest: &[u8; 32]) -> Result<(), Fault>
    ensures { Writes O.Sink out.old out.new (plan_line plan.now samples digest.now) result }
{
    let mut line = Line::new();
    add_sizes(&mut line, plan, samples);
    add_dynamics(&mut line, plan);
    add_digest(&mut line, digest);
    line.add(b"\n");
    line.put(out)
}

// Adds the sizes of a run.
#[tactic(auto, unfolding(crate::specs::Texts::plan_sizes))]
fn add_sizes(line: &mut Line, plan: &Plan, samples: u32)
    requires { line.old ≡ [] }
    ensures text { line.new ≡ plan_sizes plan.now samples }
    ensures short { length line.new ≤ 90 }
{
    line.add(b"plan 1 size=");
    line.number(plan.lattice().size() as u64);
    line.add(b" slots=");
    line.number(plan.slots() as u64);
    line.add(b" samples=");
    line.number(samples as u64);
}

// Adds the dynamics of a plan.
#[tactic(auto, unfolding(crate::specs::Texts::plan_dynamics))]
fn add_dynamics(line: &mut Line, plan: &Plan)
    requires { length line.old ≤ 100 }
    ensures text { line.new ≡ line.old ++ plan_dynamics plan.now }
    ensures short { length line.new ≤ length line.old + 50 }
{
    line.add(b" rule=");
    line.add(kind_word(plan.rules().kind()));
    line.add(b" sweeps=");
    line.number(plan.sweeps() as u64);
}

// Adds a digest.
#[tactic(auto, unfolding(crate::specs::Texts::digest_word))]
fn add_digest(line: &mut Line, digest: &[u8; 32])
    requires { length line.old ≤ 150 }
    ensures text { line.new ≡ line.old ++ digest_word digest.now }
    ensures short { length line.new ≤ length line.old + 72 }
{
    line.add(b" digest=");
    line.add(&digits(digest));
}
