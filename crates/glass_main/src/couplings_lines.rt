//! The lines of a refused couplings file.

ghost use Rattle.glass_main.specs.Lines.{couplings_line};
ghost use Rattle.glass_main.specs.Outside.{output};
ghost use Rattle.glass_main.specs.Statuses.{Says};

use crate::digest_lines::say_damage;
use crate::lines::{say, say_end, say_file_number, say_other_number};
use crate::role::Role;
use coupling_set::CouplingsRefused;
use glass_edges::Sink;

/// Writes why the couplings file was refused.
#[tactic(auto, unfolding(crate::specs::Lines::couplings_line, crate::specs::Lines::memory_line))]
pub(crate) fn say_couplings<E: Sink>(err: &mut E, refused: &CouplingsRefused)
    ensures { Says (couplings_line refused.now) (output E.Sink err.old) (output E.Sink err.new) }
{
    let file = Role::Couplings;
    match *refused {
        CouplingsRefused::Short { len } => {
            say_file_number(err, file, b" is too short: ", len, b" bytes\n");
        }
        CouplingsRefused::Magic => say_end(err, file, b" is of another kind\n"),
        CouplingsRefused::Size { found } => {
            say_file_number(err, file, b" has size ", found as u64, b"\n");
        }
        CouplingsRefused::Samples { found } => {
            say_file_number(err, file, b" has ", found as u64, b" samples\n");
        }
        CouplingsRefused::Length { found, wanted } => {
            say_other_number(err, file, found, b" bytes, not ", wanted);
        }
        CouplingsRefused::Digest { stored, computed } => say_damage(err, file, &stored, &computed),
        CouplingsRefused::NoMemory => say(err, b"glass: no memory\n"),
    }
}
