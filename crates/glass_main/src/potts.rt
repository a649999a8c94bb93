//! The command `potts`: the four-state Potts glass of 64 samples, and the energies and colours of the
//! first of them.

ghost use Rattle.std.specs.Prelude.{◌≡◌, ◌≤◌, Some, IfOk};
ghost use Rattle.glass_edges.specs.Writes.{Writes};
ghost use Rattle.command_words.specs.CommandLine as commands;
ghost use Rattle.glass_main.specs.Outside.{output, store};
ghost use Rattle.glass_main.specs.PottsRun.{couplings_made, potts_opened, potts_report, potts_swept};
ghost use Rattle.command_words.specs.ReadPotts.{read_potts_order, IsLawfulPotts};
ghost use Rattle.glass_main.specs.Statuses.{Ends};

use crate::ending::Ending;
use crate::gathering::{make_plus, make_random};
use command_words::{PottsCouplings, PottsOrder};
use coupling_set::Couplings;
use glass_edges::{Fault, NoMemory, Shelf, Sink};
use potts_glass::{Potts as Glass, PottsRow, write_potts};
use std::alloc::Global;

/// Runs the order and prints its text. The whole glass is there before the first byte is put.
pub(crate) fn potts<H: Shelf, O: Sink>(
    alloc: Global,
    _shelf: &mut H,
    out: &mut O,
    order: &PottsOrder,
) -> Ending
    requires { IsLawfulPotts order.now }
    ensures ends { Ends (Some (commands.Potts (read_potts_order order.now))) result
        (store H.Shelf _shelf.old) (store H.Shelf _shelf.new)
        (output O.Sink out.old) (output O.Sink out.new) }
    ensures untouched { _shelf.new ≡ _shelf.old }
{
    let glass = match open_glass(alloc, order) {
        Ok(glass) => glass,
        Err(_) => return Ending::NoMemory,
    };
    match put_glass(out, glass, order) {
        Ok(()) => Ending::Done,
        Err(_) => Ending::Unwritten,
    }
}

// The glass of an order at its start.
fn open_glass(alloc: Global, order: &PottsOrder) -> Result<Glass, NoMemory>
    ensures { IfOk result (λ glass. glass ≡ potts_opened (read_potts_order order.now)) }
{
    let couplings = make_couplings(alloc, order)?;
    Glass::open(alloc, order.lattice, couplings, order.seed, order.start)
}

// The couplings of an order.
#[tactic(auto, unfolding(crate::specs::PottsRun::couplings_made))]
fn make_couplings(alloc: Global, order: &PottsOrder) -> Result<Couplings, NoMemory>
    ensures made { IfOk result (λ couplings. couplings
        ≡ couplings_made order.now.couplings order.now.lattice order.now.seed) }
    ensures size { IfOk result (λ couplings. couplings.size ≡ order.now.lattice) }
{
    match order.couplings {
        PottsCouplings::Plus => make_plus(alloc, order.lattice),
        PottsCouplings::Random => make_random(alloc, order.lattice, order.seed),
    }
}

// Sweeps the glass of an order, and prints its report. It is given no allocator.
fn put_glass<O: Sink>(out: &mut O, mut glass: Glass, order: &PottsOrder) -> Result<(), Fault>
    requires samples { order.now.samples ≤ 64 }
    requires glass { glass ≡ potts_opened (read_potts_order order.now) }
    ensures { Writes O.Sink out.old out.new (potts_report (read_potts_order order.now)) result }
{
    sweep_glass(&mut glass, &order.row, order.sweeps);
    write_potts(&glass, order.sweeps, order.seed, order.samples, out)
}

// So many sweeps.
fn sweep_glass(glass: &mut Glass, row: &PottsRow, sweeps: u32)
    ensures { glass.new ≡ potts_swept row.now.values sweeps glass.old }
{
    'sweeps: for _ in 0..sweeps {
        glass.sweep(row);
    }
}
