//! The lines of a refused report.

ghost use Rattle.std.specs.Prelude.{◌++◌, codes, decimal};
ghost use Rattle.glass_main.specs.Lines.{file_front, report_line};
ghost use Rattle.glass_main.specs.Outside.{output};
ghost use Rattle.glass_main.specs.Statuses.{Says};

use crate::lines::{add_file, say, say_file_number, say_number};
use crate::role::Role;
use glass_edges::{Line, Sink};
use sample_average::ReportRefused;

/// Writes why the report was refused.
#[tactic(auto, unfolding(crate::specs::Lines::report_line, crate::specs::Lines::memory_line))]
pub(crate) fn say_report<E: Sink>(err: &mut E, refused: &ReportRefused)
    ensures { Says (report_line refused.now) (output E.Sink err.old) (output E.Sink err.new) }
{
    match *refused {
        ReportRefused::Line { line } => {
            say_file_number(err, Role::Report, b" is wrong at line ", line, b"\n");
        }
        ReportRefused::Blocks { blocks, samples } => say_blocks(err, blocks, samples),
        ReportRefused::NoMemory => say(err, b"glass: no memory\n"),
    }
}

fn say_blocks<E: Sink>(err: &mut E, blocks: u32, samples: u32)
    ensures { Says (file_front Role.Report ++ codes " has " ++ decimal samples
        ++ codes " samples, too few for " ++ decimal blocks ++ codes " blocks\n")
        (output E.Sink err.old) (output E.Sink err.new) }
{
    let mut line = Line::new();
    add_file(&mut line, Role::Report);
    line.add(b" has ");
    line.number(samples as u64);
    say_number(
        err,
        &mut line,
        b" samples, too few for ",
        blocks as u64,
        b" blocks\n",
    );
}
