//! The words of `cross`.

ghost use Rattle.std.specs.Prelude.{◌≡◌, option_map, IfSome};
ghost use Rattle.command_words.specs.CrossWords.{cross_order};
ghost use Rattle.command_words.specs.ReadCross.{read_cross_order, IsLawfulCross};
ghost use Rattle.command_words.specs.Words.{texts};

use crate::words::{name_word, number_word, word_at};

/// What `cross` asks for: the names of the run file and of the first state's checkpoint, and the seed of the
/// second state and the name of its checkpoint.
#[derive(Clone, Copy)]
pub struct CrossOrder<'a> {
    pub run: &'a str,
    pub first: &'a str,
    pub seed: u64,
    pub second: &'a str,
}

/// Reads the words of `cross`.
#[tactic(auto, unfolding(crate::specs::CrossWords::cross_order))]
pub(crate) fn read_cross(words: &[String]) -> Option<CrossOrder<'_>>
    ensures value { option_map read_cross_order result ≡ cross_order (texts words.now) }
    ensures lawful { IfSome result IsLawfulCross }
{
    if words.len() != 5 {
        return None;
    }
    let run = name_word(word_at(words, 1))?;
    let first = name_word(word_at(words, 2))?;
    let seed = number_word(word_at(words, 3), 0, 9223372036854775807)?;
    let second = name_word(word_at(words, 4))?;
    Some(CrossOrder {
        run,
        first,
        seed,
        second,
    })
}
