//! How a call ends, and its exit status.

ghost use Rattle.std.specs.Prelude.{◌≡◌};
ghost use Rattle.glass_main.specs.Statuses.{status_of};

use crate::refusal::{Refusal, refusal_status};
use crate::role::Role;

/// How a call ends.
#[derive(Debug, Drop)]
pub enum Ending {
    /// All of the work is done.
    Done,
    /// The request is refused, and nothing was written.
    Refused(Refusal),
    /// The store failed at the file that is read as this, and nothing was written.
    Unread(Role),
    /// The output failed, with a prefix of the text on it.
    Unwritten,
    /// The store failed at the checkpoint, with the whole text on the output.
    Unsaved,
    /// There was not enough memory, and nothing was written.
    NoMemory,
}

/// The exit status.
pub(crate) fn status(ending: &Ending) -> u8
    ensures { result ≡ status_of ending.now }
{
    match ending {
        Ending::Done => 0,
        Ending::Refused(refusal) => refusal_status(refusal),
        Ending::Unread(_) => 8,
        Ending::Unwritten => 9,
        Ending::Unsaved => 10,
        Ending::NoMemory => 11,
    }
}
