//! The command `age`: each replica of a run is swept from its opening state, without exchange, and its spins
//! are compared with those that it had after a waiting time.

ghost use Rattle.std.specs.Prelude.{Some, IfOk};
ghost use Rattle.glass_edges.specs.Writes.{Writes};
ghost use Rattle.plane_sweep.specs.Packed.{StandFits, StandsFor};
ghost use Rattle.run_plan.specs.RunFile.{AreLawfulOrders};
ghost use Rattle.scalar_rule.specs.Opening.{opening};
ghost use Rattle.glass_main.specs.AgeRun.{age_text};
ghost use Rattle.command_words.specs.CommandLine as commands;
ghost use Rattle.glass_main.specs.Outside.{output, store};
ghost use Rattle.command_words.specs.ReadAge.{read_age_order, IsLawfulAge};
ghost use Rattle.glass_main.specs.Statuses.{Ends};

use crate::ending::Ending;
use crate::gathering::gather_plan;
use crate::planned::Planned;
use aging_run::{Aging, open_aging, text_is_of_the_states, write_aging};
use command_words::AgeOrder;
use glass_edges::{Fault, NoMemory, Shelf, Sink};
use std::alloc::Global;
use std::thread::Threads;

/// Reads the run file of an order and what it names, and prints its aging run.
pub(crate) fn age<R: Threads + Sync, H: Shelf, O: Sink>(
    rt: &R,
    alloc: Global,
    shelf: &mut H,
    out: &mut O,
    order: &AgeOrder<'_>,
) -> Ending
    requires { IsLawfulAge order.now }
    ensures { Ends (Some (commands.Age (read_age_order order.now))) result
        (store H.Shelf shelf.old) (store H.Shelf shelf.new)
        (output O.Sink out.old) (output O.Sink out.new) }
{
    let planned = match gather_plan(alloc, shelf, order.run) {
        Ok(planned) => planned,
        Err(ending) => return ending,
    };
    let aging = match open_opening(alloc, &planned) {
        Ok(aging) => aging,
        Err(_) => return Ending::NoMemory,
    };
    match put_aging(rt, out, aging, &planned, order) {
        Ok(()) => Ending::Done,
        Err(_) => Ending::Unwritten,
    }
}

// Opens an aging run from the states that the samples begin with.
fn open_opening(alloc: Global, planned: &Planned) -> Result<Aging, NoMemory>
    ensures opening { IfOk result (StandsFor planned.now.plan (opening planned.now.plan planned.now.orders.start 0)) }
    ensures fits { IfOk result (StandFits planned.now.plan) }
{
    open_aging(alloc, &planned.plan, planned.orders.start)
}

// Prints the aging run.
fn put_aging<R: Threads + Sync, O: Sink>(
    rt: &R,
    out: &mut O,
    aging: Aging,
    planned: &Planned,
    order: &AgeOrder<'_>,
) -> Result<(), Fault>
    requires opening { StandsFor planned.now.plan (opening planned.now.plan planned.now.orders.start 0) aging }
    requires fits { StandFits planned.now.plan aging }
    requires orders { AreLawfulOrders planned.now.orders }
    requires order { IsLawfulAge order.now }
    ensures { Writes O.Sink out.old out.new
        (age_text planned.now (read_age_order order.now).wait (read_age_order order.now).times) result }
{
    // The text of a packed state is that of the states that it stands for.
    text_is_of_the_states();
    let samples = planned.orders.samples;
    let times = &order.values[..order.count];
    write_aging(rt, aging, &planned.plan, samples, order.wait, times, out)
}
