//! Which epochs are recorded, and which pairs of slots have their turn in the exchange of an epoch.

ghost use Rattle.std.specs.Prelude.{◌≡◌, ◌<◌, ◌≤◌};
ghost use Rattle.scalar_rule.specs.Epoch as model;
ghost use Rattle.scalar_rule.specs.Records as records;

/// Whether an epoch is recorded: it is the last of each `every`.
pub fn is_recorded(every: u64, epoch: u64) -> bool
    requires { 1 ≤ every }
    ensures { result ≡ records.is_recorded every epoch }
{
    epoch % every == every - 1
}

/// How many epochs from one on and below another are recorded.
pub fn recorded_epochs(every: u64, from: u64, to: u64) -> u64
    requires some { 1 ≤ every }
    requires window { from ≤ to }
    ensures { result ≡ records.recorded_epochs every from to }
{
    to / every - from / every
}

/// Whether a pair of neighbouring slots has its turn at an epoch: its number, which is that of its
/// colder slot, and the epoch are equal modulo 2.
pub fn has_turn(pair: u32, epoch: u64) -> bool
    ensures { result ≡ model.has_turn pair epoch }
{
    pair as u64 % 2 == epoch % 2
}

/// Whether a slot, of so many, is in a pair that has its turn at an epoch.
pub fn has_partner(slots: u32, slot: u32, epoch: u64) -> bool
    requires { slot < slots }
    ensures { result ≡ model.has_partner slots slot epoch }
{
    if has_turn(slot, epoch) {
        slot + 1 < slots
    } else {
        0 < slot
    }
}
