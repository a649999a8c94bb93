//! The tests of a run file, key by key.

ghost use Rattle.std.specs.Prelude.{◌≡◌, if◌then◌else◌, option_copied, option_map, take, drop, codes, Some, None};
ghost use Rattle.std.specs.Str.{bytes_eq};
ghost use Rattle.toml.specs.View.{view, table_view};
ghost use Rattle.glass_edges.specs.Refusals.{first_found};
ghost use Rattle.run_plan.specs.RunFile as model;

use crate::key::{Key, is_key, keys};
use crate::refused::PlanRefused;
use glass_edges::is_file_name;
use spin_model::{LAST_EPOCH, MOST_SAMPLES, MOST_SWEEPS, is_lawful_size};
use toml::{Table, Value};

// Why an integer outside two bounds, or no integer, is refused.
#[tactic(auto, unfolding(crate::specs::RunFile::value_refusal))]
fn integer(key: Key, value: &Value, least: i64, most: i64) -> Option<PlanRefused>
    ensures { result ≡ model.value_refusal key (model.integer least most) (view value.now) }
{
    match value.as_integer() {
        None => Some(PlanRefused::Kind { key }),
        Some(n) if least <= n && n <= most => None,
        Some(value) => Some(PlanRefused::Range { key, value }),
    }
}

// Why an integer that is no size of a lattice, or no integer, is refused.
#[tactic(auto, unfolding(crate::specs::RunFile::value_refusal))]
fn size(key: Key, value: &Value) -> Option<PlanRefused>
    ensures { result ≡ model.value_refusal key model.size (view value.now) }
{
    match value.as_integer() {
        None => Some(PlanRefused::Kind { key }),
        Some(n) if n >= 0 && is_lawful_size(n as u64) => None,
        Some(value) => Some(PlanRefused::Range { key, value }),
    }
}

// Why a text other than two words, or no text, is refused.
#[tactic(auto, unfolding(crate::specs::RunFile::value_refusal))]
fn word(key: Key, value: &Value, first: &str, second: &str) -> Option<PlanRefused>
    ensures { result ≡ model.value_refusal key (model.word first.now second.now) (view value.now) }
{
    match value.as_str() {
        None => Some(PlanRefused::Kind { key }),
        Some(text) if text == first || text == second => None,
        Some(_) => Some(PlanRefused::Word { key }),
    }
}

// Why a text that doesn't say where couplings come from, or no text, is refused.
#[tactic(auto, unfolding(crate::specs::RunFile::value_refusal))]
fn source(key: Key, value: &Value) -> Option<PlanRefused>
    ensures { result ≡ model.value_refusal key model.source (view value.now) }
{
    match value.as_str() {
        None => Some(PlanRefused::Kind { key }),
        Some(text) if text == "plus" || text == "random" || names_file(text) => None,
        Some(_) => Some(PlanRefused::Word { key }),
    }
}

/// What stands after `file:`, where a text begins so.
pub(crate) fn after_file(text: &str) -> Option<&str>
    ensures { option_map (λ name. name.now) result
        ≡ (if bytes_eq (take 5 text.now) (codes "file:") then Some (drop 5 text.now) else None) }
{
    text.strip_prefix("file:")
}

// Whether a text names a couplings file.
fn names_file(text: &str) -> bool
    ensures { result ≡ model.names_file text.now }
{
    match after_file(text) {
        Some(name) => is_file_name(name),
        None => false,
    }
}

// Why a text that names no file, or no text, is refused.
#[tactic(auto, unfolding(crate::specs::RunFile::value_refusal))]
fn name(key: Key, value: &Value) -> Option<PlanRefused>
    ensures { result ≡ model.value_refusal key model.name (view value.now) }
{
    match value.as_str() {
        None => Some(PlanRefused::Kind { key }),
        Some(text) if is_file_name(text) => None,
        Some(_) => Some(PlanRefused::Word { key }),
    }
}

// Why no boolean is refused.
#[tactic(auto, unfolding(crate::specs::RunFile::value_refusal))]
fn boolean(key: Key, value: &Value) -> Option<PlanRefused>
    ensures { result ≡ model.value_refusal key model.boolean (view value.now) }
{
    match value.as_bool() {
        None => Some(PlanRefused::Kind { key }),
        Some(_) => None,
    }
}

// Why the row of a key refuses a value.
fn refuse_value(key: Key, value: &Value) -> Option<PlanRefused>
    ensures { result ≡ model.value_refusal key (model.row_of key) (view value.now) }
{
    match key {
        Key::Size => size(key, value),
        Key::Rule => word(key, value, "heat", "metropolis"),
        Key::Rules => name(key, value),
        Key::Swaps => name(key, value),
        Key::Couplings => source(key, value),
        Key::Sweeps => integer(key, value, 1, MOST_SWEEPS as i64),
        Key::Seed => integer(key, value, 0, i64::MAX),
        Key::Samples => integer(key, value, 1, MOST_SAMPLES as i64),
        Key::Epochs => integer(key, value, 0, LAST_EPOCH as i64),
        Key::Every => integer(key, value, 1, LAST_EPOCH as i64),
        Key::Start => word(key, value, "up", "random"),
        Key::Spins => boolean(key, value),
    }
}

// The value at a key.
#[tactic(auto, unfolding(crate::specs::RunFile::value_at))]
pub(crate) fn value_at(table: &Table, key: Key) -> Option<&Value>
    ensures { option_map (λ v. view v.now) result ≡ model.value_at key (table_view table.now) }
{
    table.get(key.name())
}

// Why a key is refused.
#[tactic(auto, unfolding(crate::specs::RunFile::key_refusal))]
fn refuse_key(table: &Table, key: Key) -> Option<PlanRefused>
    ensures { result ≡ model.key_refusal (table_view table.now) key }
{
    match value_at(table, key) {
        Some(value) => refuse_value(key, value),
        None => Some(PlanRefused::Missing { key }),
    }
}

/// The refusal of the first key that is refused, in their order.
pub(crate) fn refuse_keys(table: &Table) -> Option<PlanRefused>
    ensures { result ≡ first_found (λ _ key. model.key_refusal (table_view table.now) key) 0 model.keys }
{
    let all = keys();
    'keys: for key in &all {
        if let Some(refused) = refuse_key(table, *key) {
            return Some(refused);
        }
    }
    None
}

/// The first key, in the order of bytes, that isn't in the table of keys.
pub(crate) fn first_unknown(table: &Table) -> Option<&str>
    ensures { option_copied result ≡ model.first_unknown (table_view table.now) }
{
    'members: for (text, _value) in table.iter() {
        if !is_key(text.as_str()) {
            return Some(text.as_str());
        }
    }
    None
}
