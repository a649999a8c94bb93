//! Why a request is refused.

ghost use Rattle.std.specs.Prelude.{◌≡◌};
ghost use Rattle.glass_main.specs.Statuses.{role_status, refusal_status};

use crate::role::Role;
use coupling_set::CouplingsRefused;
use run_checkpoint::CheckpointRefused;
use run_plan::PlanRefused;
use sample_average::ReportRefused;
use threshold_table::TableRefused;

/// Why a request is refused.
#[derive(Debug, Drop)]
pub enum Refusal {
    /// The words are no command.
    Words,
    /// The store holds no file of the name that is read as this.
    Absent(Role),
    /// The file that is read as this has at least so many bytes, more than it may have.
    TooLong(Role, u64),
    /// The run file is refused.
    Plan(PlanRefused),
    /// The rule table is refused.
    Rules(TableRefused),
    /// The swap table is refused.
    Swaps(TableRefused),
    /// The couplings file is refused.
    Couplings(CouplingsRefused),
    /// The checkpoint is refused.
    Checkpoint(CheckpointRefused),
    /// The report is refused.
    Report(ReportRefused),
    /// The checkpoint of the second of two states is refused.
    SecondCheckpoint(CheckpointRefused),
}

/// The exit status of a refusal.
pub(crate) fn refusal_status(refusal: &Refusal) -> u8
    ensures { result ≡ refusal_status refusal.now }
{
    match refusal {
        Refusal::Words => 2,
        Refusal::Absent(_) => 7,
        Refusal::TooLong(role, _) => role_status(*role),
        Refusal::Plan(_) => 3,
        Refusal::Rules(_) => 4,
        Refusal::Swaps(_) => 4,
        Refusal::Couplings(_) => 5,
        Refusal::Checkpoint(_) => 6,
        Refusal::Report(_) => 12,
        Refusal::SecondCheckpoint(_) => 6,
    }
}

fn role_status(role: Role) -> u8
    ensures { result ≡ role_status role }
{
    match role {
        Role::RunFile => 3,
        Role::RuleTable => 4,
        Role::SwapTable => 4,
        Role::Couplings => 5,
        Role::Checkpoint => 6,
        Role::Report => 12,
        Role::SecondCheckpoint => 6,
    }
}
