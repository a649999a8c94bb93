//! The keys of a run file.

ghost use Rattle.std.specs.Prelude.{◌≡◌, Some};
ghost use Rattle.run_plan.specs.RunFile as model;

use std::fmt;

/// A key of a run file, in the order in which the keys are tested.
#[derive(Clone, Copy, Debug, PartialEq, Eq)]
pub enum Key {
    Size,
    Rule,
    Rules,
    Swaps,
    Couplings,
    Sweeps,
    Seed,
    Samples,
    Epochs,
    Every,
    Start,
    Spins,
}

impl Key {
    /// The key as a run file writes it.
    pub fn name(self) -> &'static str
        ensures { result.now ≡ model.name_of self }
    {
        match self {
            Key::Size => "size",
            Key::Rule => "rule",
            Key::Rules => "rules",
            Key::Swaps => "swaps",
            Key::Couplings => "couplings",
            Key::Sweeps => "sweeps",
            Key::Seed => "seed",
            Key::Samples => "samples",
            Key::Epochs => "epochs",
            Key::Every => "every",
            Key::Start => "start",
            Key::Spins => "spins",
        }
    }
}

impl fmt::Display for Key {
    ghost output = { λ key. Some (model.name_of key) };

    fn fmt<W: fmt::Write>(&self, f: &mut fmt::Formatter<W>) -> fmt::Result {
        f.write_str(self.name())
    }
}

/// The keys in the order in which they are tested.
pub(crate) fn keys() -> [Key; 12]
    ensures { result ≡ model.keys }
{
    [
        Key::Size,
        Key::Rule,
        Key::Rules,
        Key::Swaps,
        Key::Couplings,
        Key::Sweeps,
        Key::Seed,
        Key::Samples,
        Key::Epochs,
        Key::Every,
        Key::Start,
        Key::Spins,
    ]
}

/// Whether a text is one of the keys.
#[tactic(auto, unfolding(crate::specs::RunFile::is_key))]
pub(crate) fn is_key(text: &str) -> bool
    ensures { result ≡ model.is_key text.now }
{
    let all = keys();
    'keys: for key in &all {
        if text == key.name() {
            return true;
        }
    }
    false
}
