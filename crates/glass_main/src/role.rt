//! What a file is read as.

ghost use Rattle.std.specs.Prelude.{◌≡◌, ◌≤◌, length};
ghost use Rattle.glass_main.specs.Lines.{role_name};
ghost use Rattle.glass_main.specs.Request.{limit_of};

use run_checkpoint::LONGEST_CHECKPOINT;
use sample_average::MOST_REPORT_BYTES;

/// What a file is read as.
#[derive(Clone, Copy, Debug, PartialEq, Eq)]
pub enum Role {
    RunFile,
    RuleTable,
    SwapTable,
    Couplings,
    Checkpoint,
    Report,
    /// The checkpoint of the second of two states.
    SecondCheckpoint,
}

impl Role {
    /// The file as the lines on the error output name it.
    #[tactic(auto, unfolding(crate::specs::Lines::role_name))]
    pub(crate) fn name(self) -> &'static [u8]
        ensures name { result.now ≡ role_name self }
        ensures short { length result.now ≤ 17 }
    {
        match self {
            Role::RunFile => b"run file",
            Role::RuleTable => b"rule table",
            Role::SwapTable => b"swap table",
            Role::Couplings => b"couplings file",
            Role::Checkpoint => b"checkpoint",
            Role::Report => b"report",
            Role::SecondCheckpoint => b"second checkpoint",
        }
    }

    /// The most bytes that such a file may have.
    pub(crate) fn limit(self) -> u64
        ensures { result ≡ limit_of self }
    {
        match self {
            Role::RunFile => 1048576,
            Role::RuleTable => 65536,
            Role::SwapTable => 4194304,
            Role::Couplings => 25165872,
            Role::Checkpoint => LONGEST_CHECKPOINT,
            Role::Report => MOST_REPORT_BYTES,
            Role::SecondCheckpoint => LONGEST_CHECKPOINT,
        }
    }
}
