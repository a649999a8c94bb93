//! Placing of the checkpoint of a run.

ghost use Rattle.std.specs.Prelude.{◌≡◌, ◌≢◌, ◌+◌, ◌≤◌, [], length, map, All, OnOk, OnErr};
ghost use Rattle.std.specs.Arc.{arc_value};
ghost use Rattle.glass_edges.specs.Causes.{HasCause};
ghost use Rattle.glass_edges.specs.Contents.{Placed, SameElsewhere};
ghost use Rattle.run_checkpoint.specs.BankEncoding.{HaveOneShape, banks_encoding, banks_len};
ghost use Rattle.glass_engine.specs.BankPieces.{ends_in, EndsLevel};
ghost use Rattle.glass_engine.specs.BankRuns.{plans_of, runs_of};
ghost use Rattle.glass_engine.specs.KeptRun.{AreRuns};
ghost use Rattle.glass_engine.specs.KeptSaving as model;
ghost use Rattle.glass_engine.specs.Runs.{DoneView, IsEnd};
ghost use Rattle.glass_engine.specs.Saves.{end_checkpoint};
ghost use Rattle.glass_engine.specs.declared.run.SaveKind.TheVariants as saves;

use crate::done::{BankDone, Done};
use crate::saving::Saving;
use glass_edges::{Fault, Shelf};
use run_checkpoint::{Kind, Room, begin_banks, encode, end_banks};
use scalar_rule::Plan;
use std::alloc::Global;
use std::sync::Arc;

/// Places the one checkpoint of a run under a name: of a run to its end that of the states at its last
/// epoch, of one that may stop that of each slot at its own. Takes no memory. A second call places the
/// same bytes.
///
/// # Errors
///
/// Where the store failed; the name may then hold anything.
pub fn save<H: Shelf>(
    done: &mut Done,
    plans: &[Arc<Plan, Global>],
    shelf: &mut H,
    name: &str,
) -> Result<(), Fault>
    requires plans { map arc_value plans.now ≡ plans_of (runs_of done.old) }
    requires saves { All (λ (d : DoneView). d.run.saves ≢ saves.Never) done.old }
    ensures same { done.new ≡ done.old }
    ensures placed { OnOk result (Placed (H.holds shelf.old) (H.holds shelf.new) name.now
        (end_checkpoint done.old)) }
    ensures others { OnErr result (SameElsewhere (H.holds shelf.old) (H.holds shelf.new) name.now) }
    ensures cause { HasCause (H.faults shelf.old) (H.faults shelf.new) result }
{
    write(&done.banks, plans, &mut done.saving);
    let placed = shelf.place(name, done.saving.bytes());
    done.saving.clear();
    placed
}

// Writes the checkpoint of a run at its end into the empty buffer.
fn write(driven: &[BankDone], plans: &[Arc<Plan, Global>], saving: &mut Saving)
    requires plans { map arc_value plans.now ≡ plans_of (runs_of driven.now) }
    requires runs { AreRuns (runs_of driven.now) }
    requires ended { All (λ (d : DoneView). IsEnd d.run d.ended) driven.now }
    requires room { model.KeepsSaving (runs_of driven.now) saving.old }
    ensures kind { model.kind_of saving.new ≡ model.kind_of saving.old }
    ensures limit { model.limit_of saving.new ≡ model.limit_of saving.old }
    ensures bytes { model.kind_of saving.old ≢ saves.Never → model.bytes_of saving.new ≡ end_checkpoint driven.now }
{
    if driven.len() == 1 {
        let bank = &driven[0];
        let orders = bank.orders();
        saving.write(
            bank.ended().stand(),
            &plans[0],
            orders.samples,
            orders.every,
        );
    } else if let Saving::Level(room) = saving {
        encode_banks(driven, plans, room);
    }
}

// Writes the checkpoint of banks that ended at one epoch into an empty buffer.
fn encode_banks(driven: &[BankDone], plans: &[Arc<Plan, Global>], room: &mut Room)
    requires plans { map arc_value plans.now ≡ plans_of (runs_of driven.now) }
    requires several { 2 ≤ length driven.now }
    requires few { length driven.now ≤ 4 }
    requires shape { HaveOneShape (map arc_value plans.now) }
    requires level { All EndsLevel driven.now }
    requires empty { room.old.bytes ≡ [] }
    requires spare { banks_len (map arc_value plans.now) ≤ room.old.spare }
    ensures bytes { room.new.bytes ≡ banks_encoding (map arc_value plans.now) (ends_in driven.now) }
    ensures total { room.new.spare + length room.new.bytes ≡ room.old.spare }
{
    begin_banks(driven.len() as u32, room);
    'banks: for bank in 0..driven.len() {
        encode(
            &Kind::Level,
            driven[bank].ended().stand(),
            &plans[bank],
            room,
        );
    }
    end_banks(room);
}
