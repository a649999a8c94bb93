//! The command `plain`: one replica of the ferromagnet, its energy and its spins.

ghost use Rattle.std.specs.Prelude.{◌≡◌, ◌+◌, ◌≤◌, [], ◌++◌, length, Some};
ghost use Rattle.glass_edges.specs.Writes.{Writes};
ghost use Rattle.scalar_rule.specs.Sums.{energy};
ghost use Rattle.spin_model.specs.Couplings.{plus};
ghost use Rattle.spin_model.specs.Lattice.{volume};
ghost use Rattle.command_words.specs.CommandLine.{Plain};
ghost use Rattle.glass_main.specs.Outside.{output, store};
ghost use Rattle.command_words.specs.ReadCommand.{read_order};
ghost use Rattle.glass_main.specs.Statuses.{Ends};
ghost use Rattle.glass_main.specs.Texts.{plain_header, energy_line, plain_text, plain_spins};

use crate::ending::Ending;
use crate::spin_text::put_spin_line;
use command_words::PlainOrder;
use glass_edges::{Fault, Line, Shelf, Sink};
use lattice_geometry::Lattice;
use scalar_rule::{PlainOut, plain_run};
use std::alloc::Global;

/// Runs the order and prints its text.
pub(crate) fn plain<H: Shelf, O: Sink>(
    alloc: Global,
    _shelf: &mut H,
    out: &mut O,
    order: &PlainOrder,
) -> Ending
    ensures ends { Ends (Some (Plain (read_order order.now))) result
        (store H.Shelf _shelf.old) (store H.Shelf _shelf.new)
        (output O.Sink out.old) (output O.Sink out.new) }
    ensures untouched { _shelf.new ≡ _shelf.old }
{
    match plain_run(
        alloc,
        order.lattice,
        order.sweeps,
        order.seed,
        &order.thresholds,
    ) {
        Ok(run) => match put_plain(out, order, &run) {
            Ok(()) => Ending::Done,
            Err(_) => Ending::Unwritten,
        },
        Err(_) => Ending::NoMemory,
    }
}

// Prints the text of an order, run so.
fn put_plain<O: Sink>(out: &mut O, order: &PlainOrder, run: &PlainOut) -> Result<(), Fault>
    requires spins { run.now.spins ≡ plain_spins (read_order order.now) }
    requires energy { run.now.energy ≡ energy order.now.lattice (plus 0) run.now.spins }
    requires sites { length run.now.spins ≡ volume order.now.lattice }
    ensures { Writes O.Sink out.old out.new (plain_text (read_order order.now)) result }
{
    let mut line = Line::new();
    add_header(&mut line, order);
    add_energy(&mut line, &order.lattice, run);
    put_spin_line(out, &mut line, &order.lattice, run.spins.as_slice())
}

// Adds the first line, at most 90 bytes.
#[tactic(auto, unfolding(crate::specs::Texts::plain_header))]
fn add_header(line: &mut Line, order: &PlainOrder)
    requires { line.old ≡ [] }
    ensures text { line.new ≡ plain_header (read_order order.now) }
    ensures short { length line.new ≤ 90 }
{
    line.add(b"plain 1 size=");
    line.number(order.lattice.size() as u64);
    line.add(b" sweeps=");
    line.number(order.sweeps as u64);
    line.add(b" seed=");
    line.number(order.seed);
    line.add(b"\n");
}

// Adds the line of the energy, at most 28 bytes.
#[tactic(auto, unfolding(crate::specs::Texts::energy_line))]
fn add_energy(line: &mut Line, lattice: &Lattice, run: &PlainOut)
    requires energy { run.now.energy ≡ energy lattice.now (plus 0) run.now.spins }
    requires room { length line.old ≤ 100 }
    ensures text { line.new ≡ line.old ++ energy_line lattice.now run.now.spins }
    ensures short { length line.new ≤ length line.old + 28 }
{
    line.add(b"energy,");
    line.signed(run.energy as i64);
    line.add(b"\n");
}
