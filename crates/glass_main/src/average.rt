//! The command `average`: a report is read, and its sums by slot and block of samples are printed.

ghost use Rattle.std.specs.Prelude.{◌≡◌, ◌≤◌, ◌<◌, length, option_map, Some, IfOk, IfErr, IfSome, OnOk};
ghost use Rattle.sample_average.specs.ReadReport.{most_report_bytes};
ghost use Rattle.command_words.specs.CommandLine as commands;
ghost use Rattle.glass_main.specs.Outside as outside;
ghost use Rattle.glass_main.specs.Outside.{output, store};
ghost use Rattle.command_words.specs.ReadCommand.{read_average_order, IsLawfulAverage};
ghost use Rattle.glass_main.specs.Request.{averages_at, bytes_at};
ghost use Rattle.glass_main.specs.Statuses.{Ends};

use crate::ending::Ending;
use crate::gathering::gathered;
use crate::refusal::Refusal;
use crate::role::Role;
use command_words::AverageOrder;
use glass_edges::{Shelf, Sink};
use plain_list::Items;
use sample_average::{Averages, ReportRefused, read_report, write_averages};
use std::alloc::Global;

/// Reads the report of an order, and prints its sums.
pub(crate) fn average<H: Shelf, O: Sink>(
    alloc: Global,
    shelf: &mut H,
    out: &mut O,
    order: &AverageOrder<'_>,
) -> Ending
    requires { IsLawfulAverage order.now }
    ensures { Ends (Some (commands.Average (read_average_order order.now))) result
        (store H.Shelf shelf.old) (store H.Shelf shelf.new)
        (output O.Sink out.old) (output O.Sink out.new) }
{
    let averages = match gather_averages(alloc, shelf, order) {
        Ok(averages) => averages,
        Err(ending) => return ending,
    };
    match write_averages(&averages, out) {
        Ok(()) => Ending::Done,
        Err(_) => Ending::Unwritten,
    }
}

// Reads the report of an order, and takes its sums.
fn gather_averages<H: Shelf>(
    alloc: Global,
    shelf: &mut H,
    order: &AverageOrder<'_>,
) -> Result<Averages, Ending>
    requires { IsLawfulAverage order.now }
    ensures found { IfOk result (λ averages. IfSome
        (option_map (averages_at (read_average_order order.now)) (H.holds shelf.old)) (λ asked. asked ≡ Ok averages)) }
    ensures passed { OnOk result (H.faults shelf.new ≡ H.faults shelf.old) }
    ensures stopped { IfErr result (λ ending. (o : outside.Output)
        → Ends (Some (commands.Average (read_average_order order.now))) ending
        (store H.Shelf shelf.old) (store H.Shelf shelf.new) o o) }
    ensures same { H.holds shelf.new ≡ H.holds shelf.old }
    ensures later { H.faults shelf.old ≤ H.faults shelf.new }
{
    let bytes = gather_report(alloc, shelf, order)?;
    match read_report(alloc, bytes.as_slice(), order.blocks) {
        Ok(averages) => Ok(averages),
        Err(ReportRefused::NoMemory) => Err(Ending::NoMemory),
        Err(refused) => Err(Ending::Refused(Refusal::Report(refused))),
    }
}

// Fetches the bytes of the report. A fetch that failed is not tried again.
fn gather_report<H: Shelf>(
    alloc: Global,
    shelf: &mut H,
    order: &AverageOrder<'_>,
) -> Result<Items<u8>, Ending>
    ensures found { IfOk result (λ bytes. IfSome
        (option_map (bytes_at Role.Report order.now.report.now) (H.holds shelf.old)) (λ asked. asked ≡ Ok bytes)) }
    ensures limit { IfOk result (λ bytes. length bytes ≤ most_report_bytes) }
    ensures passed { OnOk result (H.faults shelf.new ≡ H.faults shelf.old) }
    ensures stopped { IfErr result (λ ending. (o : outside.Output)
        → Ends (Some (commands.Average (read_average_order order.now))) ending
        (store H.Shelf shelf.old) (store H.Shelf shelf.new) o o) }
    ensures same { H.holds shelf.new ≡ H.holds shelf.old }
    ensures later { H.faults shelf.old ≤ H.faults shelf.new }
{
    gathered(
        Role::Report,
        shelf.fetch(alloc, order.report, Role::Report.limit()),
    )
}
