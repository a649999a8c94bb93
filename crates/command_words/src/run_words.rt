//! The words of the command `run`.

ghost use Rattle.std.specs.Prelude.{◌≡◌, drop, option_map, Some, None, IfSome};
ghost use Rattle.command_words.specs.RunReading as model;
ghost use Rattle.command_words.specs.ReadCommand.{name_bytes, read_run_order, read_said, IsLawfulOrder, AreLawfulWords};
ghost use Rattle.command_words.specs.Words.{texts};

use crate::words::{number_word, word_at};
use glass_edges::is_file_name;
use spin_model::{EVERY_TAKE, LAST_EPOCH};

/// What `run` asks for.
#[derive(Clone, Copy)]
pub struct RunOrder<'a> {
    /// The name of the run file.
    pub run: &'a str,
    /// The workers, 1 to 64.
    pub workers: u32,
    /// The pieces that the planes of a sweep are cut into, 1 to 16.
    pub pieces: u32,
    /// The epoch at which the run ends, at most 1000000000; none for that of the run file.
    pub until: Option<u64>,
    /// The name of the checkpoint to go on from; none for the opening state.
    pub from: Option<&'a str>,
    /// The name under which the checkpoint of the end is saved; none for no checkpoint.
    pub save: Option<&'a str>,
    /// After how many hand-outs of a slot the run stops, at most `EVERY_TAKE`, wherever its slots are;
    /// none for a run to its last epoch.
    pub stop_after: Option<u64>,
}

/// What the words have said so far; an option without a value waits for the next word.
#[derive(Clone, Copy)]
struct RunWords<'a> {
    run: Option<&'a str>,
    waiting: Option<&'a str>,
    workers: Option<u32>,
    pieces: Option<u32>,
    until: Option<u64>,
    from: Option<&'a str>,
    save: Option<&'a str>,
    stop_after: Option<u64>,
}

/// Reads the words of `run`, of which the first is the command's name.
#[tactic(auto, unfolding(crate::specs::RunReading::run_order))]
pub(crate) fn read_run(words: &[String]) -> Option<RunOrder<'_>>
    ensures value { option_map read_run_order result ≡ model.run_order (texts words.now) }
    ensures lawful { IfSome result IsLawfulOrder }
{
    order_in(said_by(after_first(words))?)
}

// All words but the first.
fn after_first(words: &[String]) -> &[String]
    ensures { texts result.now ≡ drop 1 (texts words.now) }
{
    if words.is_empty() { words } else { &words[1..] }
}

// What all words say.
#[tactic(auto, unfolding(crate::specs::RunReading::said_by))]
fn said_by(words: &[String]) -> Option<RunWords<'_>>
    ensures value { option_map read_said result ≡ model.said_by (texts words.now) }
    ensures lawful { IfSome result AreLawfulWords }
{
    let mut said = RunWords {
        run: None,
        waiting: None,
        workers: None,
        pieces: None,
        until: None,
        from: None,
        save: None,
        stop_after: None,
    };
    'words: for k in 0..words.len() {
        said = with_word(said, word_at(words, k))?;
    }
    Some(said)
}

// The order that the words are.
fn order_in(said: RunWords<'_>) -> Option<RunOrder<'_>>
    requires { AreLawfulWords said }
    ensures value { option_map read_run_order result
        ≡ model.order_in (read_said said.entry).run (read_said said.entry).waiting (read_said said.entry) }
    ensures lawful { IfSome result IsLawfulOrder }
{
    match (said.run, said.waiting) {
        (Some(run), None) if is_kept(said.stop_after, said.save) => Some(RunOrder {
            run,
            workers: said.workers.unwrap_or(1),
            pieces: said.pieces.unwrap_or(1),
            until: said.until,
            from: said.from,
            save: said.save,
            stop_after: said.stop_after,
        }),
        _ => None,
    }
}

// Whether a run that may stop is saved.
fn is_kept(stop_after: Option<u64>, save: Option<&str>) -> bool
    ensures { result ≡ model.is_kept stop_after (name_bytes save.entry) }
{
    stop_after.is_none() || save.is_some()
}

// One word more.
fn with_word<'a>(said: RunWords<'a>, word: &'a str) -> Option<RunWords<'a>>
    requires { AreLawfulWords said }
    ensures value { option_map read_said result ≡ model.with_word (Some (read_said said.entry)) word.now }
    ensures lawful { IfSome result AreLawfulWords }
{
    match said.waiting {
        Some(name) => with_option(said, name, word),
        None if word.starts_with("--") => with_option_word(said, word),
        None => with_run(said, word),
    }
}

// A word that is an option, with its value or without.
#[tactic(auto, unfolding(crate::specs::RunReading::with_option_word))]
fn with_option_word<'a>(said: RunWords<'a>, word: &'a str) -> Option<RunWords<'a>>
    requires { AreLawfulWords said }
    ensures value { option_map read_said result ≡ model.with_option_word (read_said said.entry) word.now }
    ensures lawful { IfSome result AreLawfulWords }
{
    match word.split_once('=') {
        Some((name, value)) => with_option(said, name, value),
        None => Some(RunWords {
            waiting: Some(word),
            ..said
        }),
    }
}

// A word that names the run file.
#[tactic(auto, unfolding(crate::specs::RunReading::with_run))]
fn with_run<'a>(said: RunWords<'a>, word: &'a str) -> Option<RunWords<'a>>
    requires { AreLawfulWords said }
    ensures value { option_map read_said result ≡ model.with_run (read_said said.entry) word.now }
    ensures lawful { IfSome result AreLawfulWords }
{
    if said.run.is_some() || !is_file_name(word) {
        return None;
    }
    Some(RunWords {
        run: Some(word),
        ..said
    })
}

// An option with its value.
#[tactic(auto, unfolding(crate::specs::RunReading::with_option))]
fn with_option<'a>(said: RunWords<'a>, name: &str, value: &'a str) -> Option<RunWords<'a>>
    requires { AreLawfulWords said }
    ensures value { option_map read_said result ≡ model.with_option (read_said said.entry) name.now value.now }
    ensures lawful { IfSome result AreLawfulWords }
{
    match name {
        "--workers" => with_workers(said, value),
        "--pieces" => with_pieces(said, value),
        "--until" => with_until(said, value),
        "--from" => with_from(said, value),
        "--save" => with_save(said, value),
        "--stop-after" => with_stop_after(said, value),
        _ => None,
    }
}

fn with_workers<'a>(said: RunWords<'a>, value: &str) -> Option<RunWords<'a>>
    requires { AreLawfulWords said }
    ensures value { option_map read_said result ≡ model.with_workers (read_said said.entry) value.now }
    ensures lawful { IfSome result AreLawfulWords }
{
    if said.workers.is_some() {
        return None;
    }
    let workers = number_word(value, 1, 64)? as u32;
    Some(RunWords {
        waiting: None,
        workers: Some(workers),
        ..said
    })
}

fn with_pieces<'a>(said: RunWords<'a>, value: &str) -> Option<RunWords<'a>>
    requires { AreLawfulWords said }
    ensures value { option_map read_said result ≡ model.with_pieces (read_said said.entry) value.now }
    ensures lawful { IfSome result AreLawfulWords }
{
    if said.pieces.is_some() {
        return None;
    }
    let pieces = number_word(value, 1, 16)? as u32;
    Some(RunWords {
        waiting: None,
        pieces: Some(pieces),
        ..said
    })
}

fn with_until<'a>(said: RunWords<'a>, value: &str) -> Option<RunWords<'a>>
    requires { AreLawfulWords said }
    ensures value { option_map read_said result ≡ model.with_until (read_said said.entry) value.now }
    ensures lawful { IfSome result AreLawfulWords }
{
    if said.until.is_some() {
        return None;
    }
    let until = number_word(value, 0, LAST_EPOCH)?;
    Some(RunWords {
        waiting: None,
        until: Some(until),
        ..said
    })
}

fn with_from<'a>(said: RunWords<'a>, value: &'a str) -> Option<RunWords<'a>>
    requires { AreLawfulWords said }
    ensures value { option_map read_said result ≡ model.with_from (read_said said.entry) value.now }
    ensures lawful { IfSome result AreLawfulWords }
{
    if said.from.is_some() || !is_file_name(value) {
        return None;
    }
    Some(RunWords {
        waiting: None,
        from: Some(value),
        ..said
    })
}

fn with_save<'a>(said: RunWords<'a>, value: &'a str) -> Option<RunWords<'a>>
    requires { AreLawfulWords said }
    ensures value { option_map read_said result ≡ model.with_save (read_said said.entry) value.now }
    ensures lawful { IfSome result AreLawfulWords }
{
    if said.save.is_some() || !is_file_name(value) {
        return None;
    }
    Some(RunWords {
        waiting: None,
        save: Some(value),
        ..said
    })
}

fn with_stop_after<'a>(said: RunWords<'a>, value: &str) -> Option<RunWords<'a>>
    requires { AreLawfulWords said }
    ensures value { option_map read_said result ≡ model.with_stop_after (read_said said.entry) value.now }
    ensures lawful { IfSome result AreLawfulWords }
{
    if said.stop_after.is_some() {
        return None;
    }
    let takes = number_word(value, 0, EVERY_TAKE)?;
    Some(RunWords {
        waiting: None,
        stop_after: Some(takes),
        ..said
    })
}
