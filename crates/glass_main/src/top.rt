//! The top call.

ghost use Rattle.std.specs.Prelude.{◌≡◌, ◌↔◌, Some, None, IfSome, IfOk};
ghost use Rattle.glass_main.specs.CheckpointBytes.{ReadsBytes};
ghost use Rattle.command_words.specs.CommandLine.{Run, Measure, command_of, saved_name};
ghost use Rattle.command_words.specs.MeasureWords.{MeasureOrder, SaysMeasure};
ghost use Rattle.glass_main.specs.CrossedPlans.{HasLawfulSeed};
ghost use Rattle.glass_main.specs.Endings.{ReadsNoFile};
ghost use Rattle.glass_main.specs.LawfulRequests.{IsLawfulWork};
ghost use Rattle.glass_main.specs.NamedStarts.{Seconds, Starts};
ghost use Rattle.glass_main.specs.Outside.{output, store};
ghost use Rattle.glass_main.specs.Request.{request};
ghost use Rattle.command_words.specs.RunWords.{RunOrder, SaysRun};
ghost use Rattle.glass_main.specs.Statuses.{Ends, Answers, Does, Completes, TellsFaults};
ghost use Rattle.command_words.specs.Words.{texts};

use crate::age::age;
use crate::average::average;
use crate::check::check;
use crate::correlation::correlation_lines;
use crate::cross::cross;
use crate::demo::demo;
use crate::ending::{Ending, status};
use crate::lines::tell;
use crate::measure::measure;
use crate::plain::plain;
use crate::potts::potts;
use crate::refusal::Refusal;
use crate::run::run;
use command_words::{Command, read_words};
use glass_edges::{Gate, Shelf, Sink};
use std::alloc::Global;
use std::sync::Wait;
use std::thread::Threads;

/// The program: from the words after its name to the text on `out`, the line on `err` and the exit
/// status.
///
/// - 0: all is done, and `err` got nothing
/// - 2: the words are no command
/// - 3: the run file is refused, or the amount that a run would print
/// - 4: a table is refused
/// - 5: the couplings file is refused
/// - 6: a checkpoint is refused
/// - 7: the store holds no file of the name that is read next
/// - 8: the store failed at a file
/// - 9: the output failed
/// - 10: the store failed at the checkpoint that is saved
/// - 11: memory ran out, which no clause ties to a growth that failed
/// - 12: the report is refused
///
/// With a status other than 0 `err` got one line, or a prefix of it where it failed itself.
///
/// `plain`, `demo` and `potts` read no file, and end with 0, 9 or 11; words that are no command end with 2 alone.
pub fn glass<R: Threads + Wait + Sync, H: Shelf, O: Sink, E: Sink, G: Gate + Sync>(
    rt: &R,
    alloc: Global,
    words: &[String],
    shelf: &mut H,
    out: &mut O,
    err: &mut E,
    gate: &G,
) -> u8
    // The status is that of an ending, whose cause is the named one, and so is what it leaves.
    ensures answers { Answers (command_of (texts words.now)) result
        (store H.Shelf shelf.old) (store H.Shelf shelf.new)
        (output O.Sink out.old) (output O.Sink out.new)
        (output E.Sink err.old) (output E.Sink err.new) }
    ensures words { (result ≡ 2) ↔ (command_of (texts words.now) ≡ None) }
    ensures untouched { ReadsNoFile (command_of (texts words.now)) → shelf.new ≡ shelf.old }

    // The words are those of a run exactly where they say it: its run file's name and options with their
    // values, in any order.
    ensures run_words { (order : RunOrder) → (command_of (texts words.now) ≡ Some (Run order))
        ↔ SaysRun (texts words.now) order }

    // So are those that ask for sums over a run.
    ensures measure_words { (order : MeasureOrder) → (command_of (texts words.now) ≡ Some (Measure order))
        ↔ SaysMeasure (texts words.now) order }

    // A fault that was counted is told by the status.
    ensures faults { TellsFaults result (store H.Shelf shelf.old) (store H.Shelf shelf.new)
        (output O.Sink out.old) (output O.Sink out.new)
        (output E.Sink err.old) (output E.Sink err.new) }

    // With status 0 the output got the text that the request asks for, and the store its checkpoint.
    ensures done { result ≡ 0 → IfSome (request (texts words.now) (H.holds shelf.old)) (λ asked.
        Does (saved_name (command_of (texts words.now))) asked
        (store H.Shelf shelf.old) (store H.Shelf shelf.new)
        (output O.Sink out.old) (output O.Sink out.new)
        (output E.Sink err.old) (output E.Sink err.new)) }

    // And what was asked for is lawful: the plans and the orders of a run, what it began with, and its last
    // epoch, as the laws on runs that go on from one another ask.
    ensures lawful { result ≡ 0 → IfSome (request (texts words.now) (H.holds shelf.old)) (λ asked.
        IfOk asked IsLawfulWork) }

    // The checkpoint that was read is a list of numbers below 256, as the laws on checkpoints ask.
    ensures bytes { result ≡ 0 → ReadsBytes (command_of (texts words.now)) (H.holds shelf.old) }

    // So what it starts with is the state whose encoding the bytes of the named checkpoint are, or where none
    // is named the opening states.
    ensures starts { result ≡ 0 → Starts (command_of (texts words.now)) (H.holds shelf.old) }

    // And the second state of two is the one whose encoding the bytes of its checkpoint are.
    ensures seconds { result ≡ 0 → Seconds (command_of (texts words.now)) (H.holds shelf.old) }

    // Where the store did not fail a refusal is told, and where the output did not either the work is
    // done, but for lack of memory.
    ensures complete { IfSome (request (texts words.now) (H.holds shelf.old)) (λ asked.
        Completes asked result (store H.Shelf shelf.old) (store H.Shelf shelf.new)
        (output O.Sink out.old) (output O.Sink out.new)) }
{
    let ending = answer(rt, alloc, words, shelf, out, gate);
    tell(err, &ending);
    status(&ending)
}

// Does what the words ask for.
fn answer<R: Threads + Wait + Sync, H: Shelf, O: Sink, G: Gate + Sync>(
    rt: &R,
    alloc: Global,
    words: &[String],
    shelf: &mut H,
    out: &mut O,
    gate: &G,
) -> Ending
    ensures ends { Ends (command_of (texts words.now)) result
        (store H.Shelf shelf.old) (store H.Shelf shelf.new)
        (output O.Sink out.old) (output O.Sink out.new) }
    ensures untouched { ReadsNoFile (command_of (texts words.now)) → shelf.new ≡ shelf.old }
    ensures bytes { result ≡ Ending.Done → ReadsBytes (command_of (texts words.now)) (H.holds shelf.old) }
    ensures seed { HasLawfulSeed (command_of (texts words.now)) }
{
    match read_words(words) {
        None => Ending::Refused(Refusal::Words),
        Some(Command::Plain(order)) => plain(alloc, shelf, out, &order),
        Some(Command::Check(name)) => check(alloc, shelf, out, name),
        Some(Command::Run(order)) => run(rt, alloc, shelf, out, gate, &order),
        Some(Command::Average(order)) => average(alloc, shelf, out, &order),
        Some(Command::Demo(n)) => demo(rt, alloc, shelf, out, gate, n),
        Some(Command::Lines(order)) => correlation_lines(alloc, shelf, out, &order),
        Some(Command::Potts(order)) => potts(alloc, shelf, out, &order),
        Some(Command::Age(order)) => age(rt, alloc, shelf, out, &order),
        Some(Command::Measure(order)) => measure(rt, alloc, shelf, out, gate, &order),
        Some(Command::Cross(order)) => cross(alloc, shelf, out, &order),
    }
}
