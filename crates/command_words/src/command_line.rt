//! The command that the words after the program's name ask for.

ghost use Rattle.std.specs.Prelude.{◌≡◌, ℕ, ◌+◌, ◌<◌, ◌≤◌, ◌^◌, length, option_map, Some, None, IfSome, if◌then◌else◌};
ghost use Rattle.spin_model.specs.Limits.{certain, greatest_demo};
ghost use Rattle.command_words.specs.CommandLine.{command_of, plain_order, check_name, demo_number};
ghost use Rattle.command_words.specs.ReadCommand.{read_command, read_order, IsLawfulCommand};
ghost use Rattle.command_words.specs.Words as model;
ghost use Rattle.command_words.specs.Words.{texts, size_word};

use crate::age_words::{AgeOrder, read_age};
use crate::average_words::{AverageOrder, read_average};
use crate::correlation_words::{LinesOrder, read_lines};
use crate::cross_words::{CrossOrder, read_cross};
use crate::measure_words::{MeasureOrder, read_measure};
use crate::potts_words::{PottsOrder, read_potts};
use crate::run_words::{RunOrder, read_run};
use crate::words::{name_word, number_word, word_at};
use lattice_geometry::Lattice;
use spin_model::{CERTAIN, GREATEST_DEMO, MOST_SWEEPS};

/// What `plain` asks for: the lattice, the number of sweeps, the seed, and the seven thresholds,
/// each a probability times 2^32.
#[derive(Clone, Copy)]
pub struct PlainOrder {
    pub lattice: Lattice,
    pub sweeps: u32,
    pub seed: u64,
    pub thresholds: [u64; 7],
}

/// What the words ask for.
#[derive(Clone, Copy)]
pub enum Command<'a> {
    /// One replica of the ferromagnet.
    Plain(PlainOrder),
    /// A look at the run file of this name.
    Check(&'a str),
    /// A run.
    Run(RunOrder<'a>),
    /// Averages of a report.
    Average(AverageOrder<'a>),
    /// A large run whose plan is made from this number, at most a million.
    Demo(u64),
    /// Link overlaps and correlation lines of a checkpoint.
    Lines(LinesOrder<'a>),
    /// A four-state Potts glass.
    Potts(PottsOrder),
    /// An aging run.
    Age(AgeOrder<'a>),
    /// Sums over a run.
    Measure(MeasureOrder<'a>),
    /// Overlaps of the copies of two saved states.
    Cross(CrossOrder<'a>),
}

/// Reads the words. It takes no memory.
#[tactic(auto, unfolding(crate::specs::CommandLine::command_of))]
pub fn read_words(words: &[String]) -> Option<Command<'_>>
    ensures value { option_map read_command result ≡ command_of (texts words.now) }
    ensures lawful { IfSome result IsLawfulCommand }
{
    let name = word_at(words, 0);
    if name == "plain" {
        return Some(Command::Plain(read_plain(words)?));
    }
    if name == "check" {
        return Some(Command::Check(read_check(words)?));
    }
    if name == "run" {
        return Some(Command::Run(read_run(words)?));
    }
    if name == "average" {
        return Some(Command::Average(read_average(words)?));
    }
    if name == "demo" {
        return Some(Command::Demo(read_demo(words)?));
    }
    if name == "lines" {
        return Some(Command::Lines(read_lines(words)?));
    }
    if name == "potts" {
        return Some(Command::Potts(read_potts(words)?));
    }
    if name == "age" {
        return Some(Command::Age(read_age(words)?));
    }
    if name == "measure" {
        return Some(Command::Measure(read_measure(words)?));
    }
    if name == "cross" {
        return Some(Command::Cross(read_cross(words)?));
    }
    None
}

// The word of `check`.
#[tactic(auto, unfolding(crate::specs::CommandLine::check_name))]
fn read_check(words: &[String]) -> Option<&str>
    ensures { option_map (λ run. run.now) result ≡ check_name (texts words.now) }
{
    if words.len() != 2 {
        return None;
    }
    name_word(word_at(words, 1))
}

// The word of `demo`.
#[tactic(auto, unfolding(crate::specs::CommandLine::demo_number))]
fn read_demo(words: &[String]) -> Option<u64>
    ensures value { result ≡ demo_number (texts words.now) }
    ensures lawful { IfSome result (λ n. n ≤ greatest_demo) }
{
    if words.len() != 2 {
        return None;
    }
    number_word(word_at(words, 1), 0, GREATEST_DEMO)
}

// The words of `plain`.
#[tactic(auto, unfolding(crate::specs::CommandLine::plain_order))]
fn read_plain(words: &[String]) -> Option<PlainOrder>
    ensures { option_map read_order result ≡ plain_order (texts words.now) }
{
    if words.len() != 11 {
        return None;
    }
    let lattice = size_word(word_at(words, 1))?;
    let sweeps = number_word(word_at(words, 2), 0, MOST_SWEEPS)? as u32;
    let seed = number_word(word_at(words, 3), 0, 9223372036854775807)?;
    let thresholds = threshold_words(words)?;
    Some(PlainOrder {
        lattice,
        sweeps,
        seed,
        thresholds,
    })
}

/// The lattice whose side a word writes.
pub(crate) fn size_word(text: &str) -> Option<Lattice>
    ensures { option_map (λ (l : ℕ). l) result ≡ size_word text.now }
{
    let size = number_word(text, 4, 64)?;
    Lattice::of(size as u32).ok()
}

// The seven thresholds.
fn threshold_words(words: &[String]) -> Option<[u64; 7]>
    ensures { result ≡ model.number_words 0 certain (texts words.now) 4 7 }
{
    let mut values = [0u64; 7];
    if read_numbers(words, 4, CERTAIN, &mut values) {
        Some(values)
    } else {
        None
    }
}

/// Reads as many number words as the list is long, from word `start` on, and answers whether each is one.
pub(crate) fn read_numbers(words: &[String], start: usize, high: u64, values: &mut [u64]) -> bool
    requires { start + length values.old < 2 ^ 32 }
    ensures { model.number_words 0 high (texts words.now) start (length values.old)
        ≡ (if result then Some values.new else None) }
{
    'words: for k in 0..values.len() {
        match number_word(word_at(words, start + k), 0, high) {
            Some(value) => values[k] = value,
            None => return false,
        }
    }
    true
}
