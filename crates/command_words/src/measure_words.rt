//! The words of `measure`, which are those of a run that isn't to stop between epochs.

ghost use Rattle.std.specs.Prelude.{◌≡◌, option_map, IfSome};
ghost use Rattle.command_words.specs.MeasureWords as model;
ghost use Rattle.command_words.specs.ReadCommand.{read_measure_order, IsLawfulMeasure};
ghost use Rattle.command_words.specs.Words.{texts};

use crate::run_words::read_run;

/// What `measure` asks for.
#[derive(Clone, Copy)]
pub struct MeasureOrder<'a> {
    /// The name of the run file.
    pub run: &'a str,
    /// The workers, 1 to 64.
    pub workers: u32,
    /// The pieces that the planes of a sweep are cut into, 1 to 16.
    pub pieces: u32,
    /// The epoch at which the run ends, at most 1000000000; none for that of the run file.
    pub until: Option<u64>,
    /// The name of the checkpoint to go on from; none for the opening state.
    pub from: Option<&'a str>,
    /// The name under which the checkpoint of the end is saved; none for no checkpoint.
    pub save: Option<&'a str>,
}

/// Reads the words of `measure`, of which the first is the command's name.
#[tactic(auto, unfolding(crate::specs::MeasureWords::measure_order))]
pub(crate) fn read_measure(words: &[String]) -> Option<MeasureOrder<'_>>
    ensures value { option_map read_measure_order result ≡ model.measure_order (texts words.now) }
    ensures lawful { IfSome result IsLawfulMeasure }
{
    let order = read_run(words)?;
    if order.stop_after.is_some() {
        return None;
    }
    Some(MeasureOrder {
        run: order.run,
        workers: order.workers,
        pieces: order.pieces,
        until: order.until,
        from: order.from,
        save: order.save,
    })
}
