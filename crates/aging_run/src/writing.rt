//! The text of an aging run: the sweeps, and the overlaps with the spins that are kept.

ghost use Rattle.std.specs.Prelude.{◌<◌, ◌≤◌, ◌++◌};
ghost use Rattle.aging_run.specs.Aging as text;
ghost use Rattle.aging_run.specs.Measuring.{overlap_in};
ghost use Rattle.glass_edges.specs.Writes.{Writes, WritesFront};
ghost use Rattle.spin_model.specs.Limits.{most_sweeps};
ghost use Rattle.plane_sweep.specs.Packed.{part, part_copy, part_slot, StandFits, FitsDuo, FitsReplica};
ghost use Rattle.scalar_rule.specs.Plan.{slots_of};

use crate::aging::Aging;
use crate::keeping::keep;
use crate::lines::{Measured, ReplicaPlace, add_overlap, write_end, write_header};
use bit_totals::agreeing;
use glass_edges::{Fault, Line, Sink};
use plane_sweep::{Duo, Replica, Stand, sweep_often};
use scalar_rule::Plan;
use std::thread::Threads;

// The most runs into which the planes of a colour are cut for a sweep.
const PIECES: u32 = 4;

/// What is asked of an aging run.
#[derive(Clone, Copy)]
struct Order<'a> {
    plan: &'a Plan,
    /// How many samples have lines, from the first on.
    samples: u32,
    /// Sweeps before the spins are kept.
    wait: u64,
    /// Sweeps from there on, at which the overlaps are measured.
    times: &'a [u64],
}

/// Puts the text of an aging run of the first `samples` samples: in each replica of each slot `wait`
/// sweeps are made and the spins are kept; at each of the times, which are sweeps from there on, the
/// sum over the sites of kept spin times present spin is a line for each sample. No exchange is made.
/// Takes no memory.
///
/// # Errors
///
/// Where the output failed; it has then taken a prefix of the text.
pub fn write_aging<R: Threads + Sync, O: Sink>(
    rt: &R,
    aging: Aging,
    plan: &Plan,
    samples: u32,
    wait: u64,
    times: &[u64],
    out: &mut O,
) -> Result<(), Fault>
    requires stand { StandFits plan.now aging }
    requires some_samples { 1 ≤ samples }
    requires few_samples { samples ≤ 64 }
    requires wait { wait ≤ most_sweeps }
    requires times { text.AreTimes times.now }
    ensures { Writes O.Sink out.old out.new
        (text.aging_text plan.now samples wait times.now (λ b. part plan.now.size b aging)) result }
{
    let Aging {
        mut stand,
        mut kept,
    } = aging;
    write_header(out, plan, samples, wait)?;
    let order = Order {
        plan,
        samples,
        wait,
        times,
    };
    write_slots(rt, out, &mut stand, &mut kept, &order)?;
    write_end(out)
}

// Puts the lines of all slots.
fn write_slots<R: Threads + Sync, O: Sink>(
    rt: &R,
    out: &mut O,
    stand: &mut Stand,
    kept: &mut Replica,
    order: &Order,
) -> Result<(), Fault>
    requires stand { StandFits order.now.plan.now stand.old }
    requires kept { FitsReplica order.now.plan.now.size kept.old }
    requires samples { order.now.samples ≤ 64 }
    requires wait { order.now.wait ≤ most_sweeps }
    requires times { text.AreTimes order.now.times.now }
    ensures { Writes O.Sink out.old out.new
        (text.all_lines order.now.plan.now order.now.samples order.now.wait order.now.times.now (λ b. part order.now.plan.now.size b stand.old) (slots_of order.now.plan.now)) result }
{
    'slots: for slot in 0..order.plan.slots() {
        write_slot(
            rt,
            out,
            stand.slots.at_mut(slot as usize),
            kept,
            order,
            slot,
        )?;
    }
    Ok(())
}

// Puts the lines of both replicas of a slot.
fn write_slot<R: Threads + Sync, O: Sink>(
    rt: &R,
    out: &mut O,
    duo: &mut Duo,
    kept: &mut Replica,
    order: &Order,
    slot: u32,
) -> Result<(), Fault>
    requires duo { FitsDuo order.now.plan.now.size duo.old }
    requires kept { FitsReplica order.now.plan.now.size kept.old }
    requires slot { slot < slots_of order.now.plan.now }
    requires samples { order.now.samples ≤ 64 }
    requires wait { order.now.wait ≤ most_sweeps }
    requires times { text.AreTimes order.now.times.now }
    ensures written { Writes O.Sink out.old out.new
        (text.slot_lines order.now.plan.now order.now.samples order.now.wait order.now.times.now slot (λ b. part_slot order.now.plan.now.size b duo.old)) result }
    ensures room { FitsReplica order.now.plan.now.size kept.new }
{
    let first = ReplicaPlace { slot, copy: 0 };
    write_replica(rt, out, &mut duo.first, kept, order, first)?;
    let second = ReplicaPlace { slot, copy: 1 };
    write_replica(rt, out, &mut duo.second, kept, order, second)
}

// Puts the lines of a replica: its waiting sweeps, and then those from each time to the next.
fn write_replica<R: Threads + Sync, O: Sink>(
    rt: &R,
    out: &mut O,
    replica: &mut Replica,
    kept: &mut Replica,
    order: &Order,
    place: ReplicaPlace,
) -> Result<(), Fault>
    requires replica { FitsReplica order.now.plan.now.size replica.old }
    requires kept { FitsReplica order.now.plan.now.size kept.old }
    requires slot { place.slot < slots_of order.now.plan.now }
    requires samples { order.now.samples ≤ 64 }
    requires wait { order.now.wait ≤ most_sweeps }
    requires times { text.AreTimes order.now.times.now }
    ensures written { Writes O.Sink out.old out.new
        (text.replica_lines order.now.plan.now order.now.samples order.now.wait order.now.times.now place.slot place.copy (λ b. part_copy order.now.plan.now.size b replica.old)) result }
    ensures room { FitsReplica order.now.plan.now.size kept.new }
{
    let lattice = order.plan.lattice();
    let slot = place.slot;
    sweep_often(rt, replica, order.plan, slot, PIECES, order.wait as u32);
    keep(kept, replica);
    let mut done = 0;
    'times: for k in 0..order.times.len() {
        let time = order.times[k];
        sweep_often(rt, replica, order.plan, slot, PIECES, (time - done) as u32);
        done = time;
        let totals = agreeing(kept, replica);
        let measured = Measured {
            place,
            time,
            agreeing: &totals,
            sites: lattice.sites(),
        };
        write_time(out, &measured, order.samples)?;
    }
    Ok(())
}

// Puts the lines of a replica at one time, from the agreeing sites of each sample.
fn write_time<O: Sink>(out: &mut O, measured: &Measured, samples: u32) -> Result<(), Fault>
    requires { samples ≤ 64 }
    ensures { Writes O.Sink out.old out.new
        (text.time_lines measured.now.place.slot measured.now.place.copy measured.now.time (overlap_in measured.now.agreeing.now.words measured.now.sites) samples) result }
{
    let mut line = Line::new();
    add_time(out, &mut line, measured, samples)?;
    line.put(out)
}

// Adds them behind a text that is still to be put.
fn add_time<O: Sink>(
    out: &mut O,
    line: &mut Line,
    measured: &Measured,
    samples: u32,
) -> Result<(), Fault>
    requires { samples ≤ 64 }
    ensures { WritesFront O.Sink out.old out.new
        (line.old ++ text.time_lines measured.now.place.slot measured.now.place.copy measured.now.time (overlap_in measured.now.agreeing.now.words measured.now.sites) samples) line.new result }
{
    'samples: for b in 0..samples {
        add_overlap(out, line, measured, b)?;
    }
    Ok(())
}
