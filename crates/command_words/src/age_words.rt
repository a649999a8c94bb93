//! The words of `age`.

ghost use Rattle.std.specs.Prelude.{◌≡◌, ◌≤◌, true, length, take, option_map, Some, None, IfSome, if◌then◌else◌};
ghost use Rattle.aging_run.specs.Aging.{AreTimes};
ghost use Rattle.command_words.specs.AgeWords.{times_of, rises};
ghost use Rattle.command_words.specs.CommandLine.{age_order};
ghost use Rattle.command_words.specs.ReadAge.{read_age_order, IsLawfulAge};
ghost use Rattle.command_words.specs.Words.{texts};

use crate::command_line::read_numbers;
use crate::words::{name_word, number_word, word_at};
use spin_model::MOST_SWEEPS;

/// What `age` asks for: the name of the run file, the sweeps after which the spins are kept, and the
/// times, in sweeps from there on, at which they are compared with what they are then.
#[derive(Clone, Copy)]
pub struct AgeOrder<'a> {
    /// The name of the run file.
    pub run: &'a str,
    /// The sweeps after which the spins are kept, at most 1000000.
    pub wait: u64,
    /// The times, the first `count` of these.
    pub values: [u64; 32],
    /// How many times there are, 1 to 32.
    pub count: usize,
}

/// Reads the words of `age`.
#[tactic(auto, unfolding(crate::specs::CommandLine::age_order))]
pub(crate) fn read_age(words: &[String]) -> Option<AgeOrder<'_>>
    ensures value { option_map read_age_order result ≡ age_order (texts words.now) }
    ensures lawful { IfSome result IsLawfulAge }
{
    let run = name_word(word_at(words, 1))?;
    let wait = number_word(word_at(words, 2), 0, MOST_SWEEPS)?;
    let count = number_word(word_at(words, 3), 1, 32)? as usize;
    if words.len() != 4 + count {
        return None;
    }
    let values = read_times(words, count)?;
    Some(AgeOrder {
        run,
        wait,
        values,
        count,
    })
}

// So many times; behind them is nothing to be read.
fn read_times(words: &[String], count: usize) -> Option<[u64; 32]>
    requires { (1 ≤ count) × (count ≤ 32) }
    ensures value { option_map (take count) result ≡ times_of count (texts words.now) }
    ensures lawful { IfSome result (λ values. AreTimes (take count values)) }
{
    let mut values = [0u64; 32];
    if fill_times(words, &mut values[..count]) {
        Some(values)
    } else {
        None
    }
}

// Reads as many times as the list is long, and answers whether they are lawful.
fn fill_times(words: &[String], times: &mut [u64]) -> bool
    requires { (1 ≤ length times.old) × (length times.old ≤ 32) }
    ensures value { times_of (length times.old) (texts words.now) ≡ (if result then Some times.new else None) }
    ensures lawful { result ≡ true → AreTimes times.new }
{
    if !read_numbers(words, 4, MOST_SWEEPS, times) {
        return false;
    }
    rises(times)
}

// Whether each number is below the one behind it.
fn rises(times: &[u64]) -> bool
    requires { 1 ≤ length times.now }
    ensures { result ≡ rises times.now }
{
    'times: for k in 0..times.len() - 1 {
        if times[k + 1] <= times[k] {
            return false;
        }
    }
    true
}
