//! The lines on the error output.

ghost use Rattle.std.specs.Prelude.{◌≡◌, ◌+◌, ◌≤◌, ◌++◌, [], codes, decimal, length};
ghost use Rattle.glass_main.specs.Lines.{role_name, file_front, line_of, refusal_line};
ghost use Rattle.glass_main.specs.Outside.{output};
ghost use Rattle.glass_main.specs.Statuses.{status_of, Says, Told};

use crate::checkpoint_lines::say_checkpoint;
use crate::couplings_lines::say_couplings;
use crate::ending::{Ending, status};
use crate::plan_lines::say_plan;
use crate::refusal::Refusal;
use crate::report_lines::say_report;
use crate::role::Role;
use crate::table_lines::say_table;
use glass_edges::{Line, Sink, put_all};

/// Writes the line of an ending on the error output. A fault of that output changes nothing else.
#[tactic(auto, unfolding(crate::specs::Lines::line_of, crate::specs::Lines::memory_line))]
pub(crate) fn tell<E: Sink>(err: &mut E, ending: &Ending)
    ensures { Told ending.now (output E.Sink err.old) (output E.Sink err.new) }
{
    match ending {
        Ending::Done => {}
        Ending::Refused(refusal) => say_refusal(err, refusal),
        Ending::Unread(role) => say_role(err, b"glass: reading the ", *role, b" failed\n"),
        Ending::Unwritten => say(err, b"glass: writing the report failed\n"),
        Ending::Unsaved => say(err, b"glass: placing the checkpoint failed\n"),
        Ending::NoMemory => say(err, b"glass: no memory\n"),
    }
}

/// Writes the line of the lack of memory, where the words themselves could not be had, and answers
/// the status.
pub fn no_memory<E: Sink>(err: &mut E) -> u8
    ensures status { result ≡ status_of Ending.NoMemory }
    ensures err { Told Ending.NoMemory (output E.Sink err.old) (output E.Sink err.new) }
{
    tell(err, &Ending::NoMemory);
    status(&Ending::NoMemory)
}

#[tactic(auto, unfolding(crate::specs::Lines::refusal_line))]
fn say_refusal<E: Sink>(err: &mut E, refusal: &Refusal)
    ensures { Says (refusal_line refusal.now) (output E.Sink err.old) (output E.Sink err.new) }
{
    match refusal {
        Refusal::Words => say(err, b"glass: the command line is not understood\n"),
        Refusal::Absent(role) => say_end(err, *role, b" is not held\n"),
        Refusal::TooLong(role, n) => say_file_number(
            err,
            *role,
            b" is too long: ",
            *n,
            b" bytes\n",
        ),
        Refusal::Plan(refused) => say_plan(err, refused),
        Refusal::Rules(refused) => say_table(err, Role::RuleTable, refused),
        Refusal::Swaps(refused) => say_table(err, Role::SwapTable, refused),
        Refusal::Couplings(refused) => say_couplings(err, refused),
        Refusal::Checkpoint(refused) => say_checkpoint(err, Role::Checkpoint, refused),
        Refusal::Report(refused) => say_report(err, refused),
        Refusal::SecondCheckpoint(refused) => say_checkpoint(err, Role::SecondCheckpoint, refused),
    }
}

// A line with the name of a file in it.
fn say_role<E: Sink>(err: &mut E, before: &[u8], role: Role, after: &[u8])
    requires { length before.now + length after.now ≤ 100 }
    ensures { Says (before.now ++ role_name role ++ after.now)
        (output E.Sink err.old) (output E.Sink err.new) }
{
    let mut line = Line::new();
    line.add(before);
    line.add(role.name());
    line.add(after);
    say(err, line.as_slice());
}

/// Adds the front of a line on a file.
#[tactic(auto, unfolding(crate::specs::Lines::file_front))]
pub(crate) fn add_file(line: &mut Line, role: Role)
    requires { line.old ≡ [] }
    ensures text { line.new ≡ file_front role }
    ensures short { length line.new ≤ 28 }
{
    line.add(b"glass: the ");
    line.add(role.name());
}

/// Writes a line on a file.
pub(crate) fn say_end<E: Sink>(err: &mut E, role: Role, end: &[u8])
    requires { length end.now ≤ 100 }
    ensures { Says (file_front role ++ end.now) (output E.Sink err.old) (output E.Sink err.new) }
{
    let mut line = Line::new();
    add_file(&mut line, role);
    line.add(end);
    say(err, line.as_slice());
}

/// Writes a line on a file with a number in it.
pub(crate) fn say_file_number<E: Sink>(
    err: &mut E,
    role: Role,
    before: &[u8],
    number: u64,
    after: &[u8],
)
    requires { length before.now + length after.now ≤ 100 }
    ensures { Says (file_front role ++ before.now ++ decimal number ++ after.now)
        (output E.Sink err.old) (output E.Sink err.new) }
{
    let mut line = Line::new();
    add_file(&mut line, role);
    say_number(err, &mut line, before, number, after);
}

/// The two numbers of a line.
#[derive(Clone, Copy)]
pub(crate) struct Numbers {
    pub(crate) first: u64,
    pub(crate) second: u64,
}

impl Numbers {
    /// The first number and the second.
    pub(crate) fn of(first: u64, second: u64) -> Numbers
        ensures first { result.first ≡ first }
        ensures second { result.second ≡ second }
    {
        Numbers { first, second }
    }
}

/// Writes a line on a file with two numbers in it: the texts stand before, between and after them.
pub(crate) fn say_file_numbers<E: Sink>(
    err: &mut E,
    role: Role,
    numbers: Numbers,
    before: &[u8],
    between: &[u8],
    after: &[u8],
)
    requires { length before.now + length between.now + length after.now ≤ 100 }
    ensures { Says (file_front role ++ before.now ++ decimal numbers.first ++ between.now
        ++ decimal numbers.second ++ after.now) (output E.Sink err.old) (output E.Sink err.new) }
{
    let mut line = Line::new();
    add_file(&mut line, role);
    line.add(before);
    line.number(numbers.first);
    say_number(err, &mut line, between, numbers.second, after);
}

/// Writes a line on a file that has another number of something than it should: what it has, the text
/// between, and what is wanted.
pub(crate) fn say_other_number<E: Sink>(
    err: &mut E,
    role: Role,
    found: u64,
    between: &[u8],
    wanted: u64,
)
    requires { length between.now ≤ 80 }
    ensures { Says (file_front role ++ codes " has " ++ decimal found ++ between.now ++ decimal wanted
        ++ codes "\n") (output E.Sink err.old) (output E.Sink err.new) }
{
    let numbers = Numbers::of(found, wanted);
    say_file_numbers(err, role, numbers, b" has ", between, b"\n");
}

/// Writes what the buffer has, and behind it a number between two texts.
pub(crate) fn say_number<E: Sink>(
    err: &mut E,
    line: &mut Line,
    before: &[u8],
    number: u64,
    after: &[u8],
)
    requires { length line.old + length before.now + length after.now ≤ 200 }
    ensures { Says (line.old ++ before.now ++ decimal number ++ after.now)
        (output E.Sink err.old) (output E.Sink err.new) }
{
    line.add(before);
    line.number(number);
    line.add(after);
    say(err, line.as_slice());
}

/// Writes a line, the end of which is lost where the error output fails.
#[tactic(auto, unfolding(crate::specs::Statuses::Says))]
pub(crate) fn say<E: Sink>(err: &mut E, line: &[u8])
    ensures { Says line.now (output E.Sink err.old) (output E.Sink err.new) }
{
    match put_all(err, line) {
        Ok(()) => {}
        Err(_) => {}
    }
}
