//! The words of `potts`.

ghost use Rattle.std.specs.Prelude.{◌≡◌, option_map, IfSome};
ghost use Rattle.spin_model.specs.Limits.{certain};
ghost use Rattle.command_words.specs.PottsWords as potts;
ghost use Rattle.command_words.specs.PottsWords.{potts_order};
ghost use Rattle.command_words.specs.ReadPotts.{read_potts_order, IsLawfulPotts};
ghost use Rattle.command_words.specs.Words as model;
ghost use Rattle.command_words.specs.Words.{texts};

use crate::command_line::{read_numbers, size_word};
use crate::words::{number_word, word_at};
use lattice_geometry::Lattice;
use potts_glass::{PottsRow, PottsStart};
use spin_model::{BANK_SAMPLES, CERTAIN, MOST_SWEEPS};

/// The couplings of a Potts glass.
#[derive(Clone, Copy, Debug, PartialEq, Eq)]
pub enum PottsCouplings {
    /// J is +1 at each bond.
    Plus,
    /// J is +1 or -1 by the seed, in each sample its own.
    Random,
}

/// What `potts` asks for: the lattice, the number of sweeps, the seed, how many of the 64 samples are
/// printed, 1 to 64, the couplings, the start, and the six thresholds, each a probability times 2^32.
#[derive(Clone, Copy)]
pub struct PottsOrder {
    pub lattice: Lattice,
    pub sweeps: u32,
    pub seed: u64,
    pub samples: u32,
    pub couplings: PottsCouplings,
    pub start: PottsStart,
    pub row: PottsRow,
}

/// Reads the words of `potts`.
#[tactic(auto, unfolding(crate::specs::PottsWords::potts_order))]
pub(crate) fn read_potts(words: &[String]) -> Option<PottsOrder>
    ensures value { option_map read_potts_order result ≡ potts_order (texts words.now) }
    ensures lawful { IfSome result IsLawfulPotts }
{
    if words.len() != 13 {
        return None;
    }
    let lattice = size_word(word_at(words, 1))?;
    let sweeps = number_word(word_at(words, 2), 0, MOST_SWEEPS)? as u32;
    let seed = number_word(word_at(words, 3), 0, 9223372036854775807)?;
    let samples = number_word(word_at(words, 4), 1, BANK_SAMPLES as u64)? as u32;
    let couplings = couplings_word(word_at(words, 5))?;
    let start = start_word(word_at(words, 6))?;
    let row = row_words(words)?;
    Some(PottsOrder {
        lattice,
        sweeps,
        seed,
        samples,
        couplings,
        start,
        row,
    })
}

// The couplings that a word names.
fn couplings_word(word: &str) -> Option<PottsCouplings>
    ensures { result ≡ potts.couplings_word word.now }
{
    if word == "plus" {
        return Some(PottsCouplings::Plus);
    }
    if word == "random" {
        return Some(PottsCouplings::Random);
    }
    None
}

// The start that a word names.
fn start_word(word: &str) -> Option<PottsStart>
    ensures { result ≡ potts.start_word word.now }
{
    if word == "zero" {
        return Some(PottsStart::Zero);
    }
    if word == "random" {
        return Some(PottsStart::Random);
    }
    None
}

// The six thresholds.
fn row_words(words: &[String]) -> Option<PottsRow>
    ensures { option_map (λ row. row.values) result ≡ model.number_words 0 certain (texts words.now) 7 6 }
{
    let mut values = [0u64; 6];
    if read_numbers(words, 7, CERTAIN, &mut values) {
        Some(PottsRow { values })
    } else {
        None
    }
}
