//! The words of `lines`.

ghost use Rattle.std.specs.Prelude.{◌≡◌, option_map};
ghost use Rattle.command_words.specs.CommandLine.{lines_order};
ghost use Rattle.command_words.specs.ReadCommand.{read_lines_order};
ghost use Rattle.command_words.specs.Words.{texts};

use crate::words::{name_word, word_at};

/// What `lines` asks for: the names of the run file and of the checkpoint.
#[derive(Clone, Copy)]
pub struct LinesOrder<'a> {
    pub run: &'a str,
    pub checkpoint: &'a str,
}

/// Reads the words of `lines`.
#[tactic(auto, unfolding(crate::specs::CommandLine::lines_order))]
pub(crate) fn read_lines(words: &[String]) -> Option<LinesOrder<'_>>
    ensures { option_map read_lines_order result ≡ lines_order (texts words.now) }
{
    if words.len() != 3 {
        return None;
    }
    let run = name_word(word_at(words, 1))?;
    let checkpoint = name_word(word_at(words, 2))?;
    Some(LinesOrder { run, checkpoint })
}
