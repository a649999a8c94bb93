//! The lines of a refused checkpoint.

ghost use Rattle.std.specs.Prelude.{◌++◌, codes, decimal};
ghost use Rattle.hex.specs.Hex.{encode_lower};
ghost use Rattle.glass_main.specs.Lines.{file_front, checkpoint_line};
ghost use Rattle.glass_main.specs.Outside.{output};
ghost use Rattle.glass_main.specs.Statuses.{Says};

use crate::digest_lines::{say_damage, say_digests};
use crate::lines::{
    Numbers, add_file, say, say_end, say_file_number, say_file_numbers, say_number,
    say_other_number,
};
use crate::role::Role;
use glass_edges::{Line, Sink};
use run_checkpoint::CheckpointRefused;

/// Writes why a checkpoint was refused, that of this role.
#[tactic(auto, unfolding(crate::specs::Lines::checkpoint_line, crate::specs::Lines::memory_line))]
pub(crate) fn say_checkpoint<E: Sink>(err: &mut E, file: Role, refused: &CheckpointRefused)
    ensures { Says (checkpoint_line file refused.now) (output E.Sink err.old) (output E.Sink err.new) }
{
    match *refused {
        CheckpointRefused::Short { len } => {
            say_file_number(err, file, b" is too short: ", len, b" bytes\n");
        }
        CheckpointRefused::Magic => say_end(err, file, b" is of another kind\n"),
        CheckpointRefused::Shape { size, slots } => {
            let numbers = Numbers::of(size as u64, slots as u64);
            say_file_numbers(err, file, numbers, b" has size ", b" and ", b" slots\n");
        }
        CheckpointRefused::Length { found, wanted } => {
            say_other_number(err, file, found, b" bytes, not ", wanted);
        }
        CheckpointRefused::Digest { stored, computed } => say_damage(err, file, &stored, &computed),
        CheckpointRefused::OtherPlan { stored, mine } => {
            say_other_plan(err, file, &stored, &mine);
        }
        CheckpointRefused::Replicas { slot, copy, sample } => {
            say_label(err, file, slot, copy, sample);
        }
        CheckpointRefused::Late { epoch, until } => {
            let numbers = Numbers::of(epoch, until);
            say_file_numbers(err, file, numbers, b" is at epoch ", b", past ", b"\n");
        }
        CheckpointRefused::NoMemory => say(err, b"glass: no memory\n"),
        CheckpointRefused::Places { slot } => say_place(err, file, slot),
        CheckpointRefused::Orders { samples, every } => {
            let numbers = Numbers::of(samples as u64, every);
            say_file_numbers(err, file, numbers, b" is of samples=", b" every=", b"\n");
        }
        CheckpointRefused::Pending { found, wanted } => {
            say_other_number(err, file, found, b" pending records, not ", wanted);
        }
        CheckpointRefused::BankCount { found, wanted } => {
            say_other_number(err, file, found as u64, b" banks, not ", wanted as u64);
        }
        CheckpointRefused::BankEpoch { bank, epoch, first } => {
            say_bank(err, file, bank, epoch, first);
        }
    }
}

fn say_other_plan<E: Sink>(err: &mut E, file: Role, stored: &[u8; 32], mine: &[u8; 32])
    ensures { Says (file_front file ++ codes " is of another plan: " ++ encode_lower stored.now
        ++ codes " stored, " ++ encode_lower mine.now ++ codes " here\n")
        (output E.Sink err.old) (output E.Sink err.new) }
{
    let before = b" is of another plan: ";
    say_digests(err, file, before, stored, mine, b" here\n");
}

fn say_place<E: Sink>(err: &mut E, file: Role, slot: u32)
    ensures { Says (file_front file ++ codes " has a wrong place at slot " ++ decimal slot
        ++ codes "\n") (output E.Sink err.old) (output E.Sink err.new) }
{
    let before = b" has a wrong place at slot ";
    say_file_number(err, file, before, slot as u64, b"\n");
}

fn say_label<E: Sink>(err: &mut E, file: Role, slot: u32, copy: u32, sample: u32)
    ensures { Says (file_front file ++ codes " has a wrong replica at slot " ++ decimal slot
        ++ codes ", copy " ++ decimal copy ++ codes ", sample " ++ decimal sample ++ codes "\n")
        (output E.Sink err.old) (output E.Sink err.new) }
{
    let mut line = Line::new();
    add_file(&mut line, file);
    line.add(b" has a wrong replica at slot ");
    line.number(slot as u64);
    line.add(b", copy ");
    line.number(copy as u64);
    say_number(err, &mut line, b", sample ", sample as u64, b"\n");
}

fn say_bank<E: Sink>(err: &mut E, file: Role, bank: u32, epoch: u64, first: u64)
    ensures { Says (file_front file ++ codes " has bank " ++ decimal bank
        ++ codes " at epoch " ++ decimal epoch ++ codes ", not " ++ decimal first ++ codes "\n")
        (output E.Sink err.old) (output E.Sink err.new) }
{
    let mut line = Line::new();
    add_file(&mut line, file);
    line.add(b" has bank ");
    line.number(bank as u64);
    line.add(b" at epoch ");
    line.number(epoch);
    say_number(err, &mut line, b", not ", first, b"\n");
}
