//! The words of `average`.

ghost use Rattle.std.specs.Prelude.{◌≡◌, option_map, IfSome};
ghost use Rattle.command_words.specs.CommandLine.{average_order};
ghost use Rattle.command_words.specs.ReadCommand.{read_average_order, IsLawfulAverage};
ghost use Rattle.command_words.specs.Words.{texts};

use crate::words::{name_word, number_word, word_at};
use spin_model::MOST_SAMPLES;

/// What `average` asks for: the name of the report, and the number of blocks of its samples, 1 to 256.
#[derive(Clone, Copy)]
pub struct AverageOrder<'a> {
    pub report: &'a str,
    pub blocks: u32,
}

/// Reads the words of `average`.
#[tactic(auto, unfolding(crate::specs::CommandLine::average_order))]
pub(crate) fn read_average(words: &[String]) -> Option<AverageOrder<'_>>
    ensures value { option_map read_average_order result ≡ average_order (texts words.now) }
    ensures lawful { IfSome result IsLawfulAverage }
{
    if words.len() != 3 {
        return None;
    }
    let report = name_word(word_at(words, 1))?;
    let blocks = number_word(word_at(words, 2), 1, MOST_SAMPLES as u64)? as u32;
    Some(AverageOrder { report, blocks })
}
