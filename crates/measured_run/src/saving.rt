//! Placing of the checkpoint of a run.

ghost use Rattle.std.specs.Prelude.{◌≡◌, ℕ, ◌+◌, ◌≤◌, [], ◌++◌, List, length, true, OnOk, OnErr, flat_map};
ghost use Rattle.glass_edges.specs.Causes.{HasCause};
ghost use Rattle.glass_edges.specs.Contents.{Placed, SameElsewhere};
ghost use Rattle.measured_run.specs.KeptRuns.{end_bytes, end_checkpoint, spare_for};
ghost use Rattle.measured_run.specs.Runs.{checkpoint_at};
ghost use Rattle.run_checkpoint.specs.BankEncoding.{BanksStand};
ghost use Rattle.run_checkpoint.specs.Lengths.{encoding_len};
ghost use Rattle.scalar_rule.specs.Plan.{slots_of};
ghost use Rattle.scalar_rule.specs.declared.sample.Sample.{Sample};

use crate::driven::BankDone;
use crate::run::Done;
use glass_edges::{Fault, Shelf};
use run_checkpoint::{Kind, Room, begin_banks, encode, end_banks};

/// Places the checkpoint of a run under a name: that of the states at its last epoch. Takes no memory.
///
/// # Errors
///
/// Where the store failed; the name may then hold anything.
pub fn save<H: Shelf>(done: Done, shelf: &mut H, name: &str) -> Result<(), Fault>
    requires { done.saves ≡ true }
    ensures placed { OnOk result ((starts : List (ℕ → Sample)) → BanksStand done.plans starts done.bases
        → Placed (H.holds shelf.old) (H.holds shelf.new) name.now (checkpoint_at done.plans starts done.until)) }
    ensures others { OnErr result (SameElsewhere (H.holds shelf.old) (H.holds shelf.new) name.now) }
    ensures cause { HasCause (H.faults shelf.old) (H.faults shelf.new) result }
{
    let Done {
        banks,
        sums: _,
        saving,
        course: _,
    } = done;
    match saving {
        Some(mut room) => {
            write(&banks, &mut room);
            shelf.place(name, room.bytes())
        }
        None => unreachable!(),
    }
}

// Writes the checkpoint of banks at their end into an empty buffer.
#[tactic(auto, unfolding(crate::specs::KeptRuns::end_checkpoint))]
fn write(banks: &[BankDone], room: &mut Room)
    requires some { 1 ≤ length banks.now }
    requires few { length banks.now ≤ 4 }
    requires empty { room.old.bytes ≡ [] }
    requires spare { 44 + spare_for banks.now ≤ room.old.spare }
    ensures { room.new.bytes ≡ end_checkpoint banks.now }
{
    if banks.len() == 1 {
        encode_each(banks, room);
    } else {
        begin_banks(banks.len() as u32, room);
        encode_each(banks, room);
        end_banks(room);
    }
}

// Writes the checkpoints of the banks, one behind the other.
fn encode_each(banks: &[BankDone], room: &mut Room)
    requires { spare_for banks.now ≤ room.old.spare }
    ensures bytes { room.new.bytes ≡ room.old.bytes ++ flat_map end_bytes banks.now }
    ensures spare { room.new.spare + spare_for banks.now ≡ room.old.spare }
{
    'banks: for g in 0..banks.len() {
        encode_bank(&banks[g], room);
    }
}

// Writes that of one bank.
fn encode_bank(bank: &BankDone, room: &mut Room)
    requires { encoding_len bank.now.plan.size (slots_of bank.now.plan) ≤ room.old.spare }
    ensures bytes { room.new.bytes ≡ room.old.bytes ++ end_bytes bank.now }
    ensures spare { room.new.spare + encoding_len bank.now.plan.size (slots_of bank.now.plan) ≡ room.old.spare }
{
    encode(&Kind::Level, bank.stand(), bank.plan(), room);
}
