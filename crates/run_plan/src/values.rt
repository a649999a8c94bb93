//! What a document says at keys that were tested.

ghost use Rattle.std.specs.Prelude.{◌≡◌, ◌≤◌, true, None, IfOk, drop, length};
ghost use Rattle.toml.specs.View.{table_view};
ghost use Rattle.run_plan.specs.RunFile as model;

use crate::key::Key;
use crate::lawful::{after_file, value_at};
use crate::run_file::{CouplingSource, Orders, RunFile};
use crate::texts::NameText;
use glass_edges::NoMemory;
use lattice_geometry::Lattice;
use scalar_rule::Start;
use std::alloc::Global;
use threshold_table::RuleKind;
use toml::Table;

/// The run file that a table is, each of whose keys has a lawful value.
#[tactic(auto, unfolding(crate::specs::RunFile::values_of))]
pub(crate) fn values_of(alloc: Global, table: &Table) -> Result<RunFile, NoMemory>
    requires { (key : Key) → model.key_refusal (table_view table.now) key ≡ None }
    ensures { IfOk result (λ file. file ≡ model.values_of (table_view table.now)) }
{
    Ok(RunFile {
        lattice: lattice_in(table),
        kind: kind_in(table),
        rules: name(alloc, table, Key::Rules)?,
        swaps: name(alloc, table, Key::Swaps)?,
        couplings: source_in(alloc, table)?,
        sweeps: sweeps_in(table),
        seed: number(table, Key::Seed),
        orders: orders_in(table),
    })
}

// An integer as a natural number, 0 where it is negative.
fn natural(value: i64) -> u64
    ensures { result ≡ model.natural value }
{
    if value < 0 { 0 } else { value as u64 }
}

// The integer at a key.
#[tactic(auto, unfolding(crate::specs::RunFile::number_at))]
fn number(table: &Table, key: Key) -> u64
    ensures { result ≡ model.number_at key (table_view table.now) }
{
    match value_at(table, key) {
        Some(value) => natural(value.as_integer().unwrap_or(0)),
        None => 0,
    }
}

// The text at a key.
#[tactic(auto, unfolding(crate::specs::RunFile::text_at))]
fn text(table: &Table, key: Key) -> &str
    ensures { result.now ≡ model.text_at key (table_view table.now) }
{
    match value_at(table, key) {
        Some(value) => value.as_str().unwrap_or(""),
        None => "",
    }
}

// The boolean at a key.
#[tactic(auto, unfolding(crate::specs::RunFile::truth_at))]
fn truth(table: &Table, key: Key) -> bool
    ensures { result ≡ model.truth_at key (table_view table.now) }
{
    match value_at(table, key) {
        Some(value) => value.as_bool().unwrap_or(false),
        None => false,
    }
}

// The lattice of the size.
fn lattice_in(table: &Table) -> Lattice
    requires { model.key_refusal (table_view table.now) Key.Size ≡ None }
    ensures { result ≡ model.number_at Key.Size (table_view table.now) }
{
    Lattice::of(number(table, Key::Size) as u32).unwrap()
}

// The sweeps of an epoch.
fn sweeps_in(table: &Table) -> u32
    requires { model.key_refusal (table_view table.now) Key.Sweeps ≡ None }
    ensures { result ≡ model.number_at Key.Sweeps (table_view table.now) }
{
    number(table, Key::Sweeps) as u32
}

// The number of samples that are printed.
fn samples_in(table: &Table) -> u32
    requires { model.key_refusal (table_view table.now) Key.Samples ≡ None }
    ensures { result ≡ model.number_at Key.Samples (table_view table.now) }
{
    number(table, Key::Samples) as u32
}

// The name of a file at a key.
fn name(alloc: Global, table: &Table, key: Key) -> Result<NameText, NoMemory>
    requires row { model.row_of key ≡ model.name }
    requires lawful { model.key_refusal (table_view table.now) key ≡ None }
    ensures { IfOk result (λ name. name ≡ model.text_at key (table_view table.now)) }
{
    NameText::of(alloc, text(table, key))
}

// The dynamics.
fn kind_in(table: &Table) -> RuleKind
    ensures { result ≡ model.kind_of (model.text_at Key.Rule (table_view table.now)) }
{
    if text(table, Key::Rule) == "heat" {
        RuleKind::Heat
    } else {
        RuleKind::Metropolis
    }
}

// Where the couplings come from.
fn source_in(alloc: Global, table: &Table) -> Result<CouplingSource, NoMemory>
    requires { model.key_refusal (table_view table.now) Key.Couplings ≡ None }
    ensures { IfOk result (λ source. source ≡ model.source_of (model.text_at Key.Couplings (table_view table.now))) }
{
    match text(table, Key::Couplings) {
        "plus" => Ok(CouplingSource::Plus),
        "random" => Ok(CouplingSource::Random),
        text => Ok(CouplingSource::File(NameText::of(alloc, file_name(text))?)),
    }
}

// The name of a couplings file.
fn file_name(text: &str) -> &str
    requires { model.names_file text.now ≡ true }
    ensures value { result.now ≡ drop 5 text.now }
    ensures some { 1 ≤ length result.now }
    ensures short { length result.now ≤ 255 }
{
    after_file(text).unwrap_or("")
}

// How the spins begin.
fn start_in(table: &Table) -> Start
    ensures { result ≡ model.start_of (model.text_at Key.Start (table_view table.now)) }
{
    if text(table, Key::Start) == "up" {
        Start::Up
    } else {
        Start::Random
    }
}

// The orders.
fn orders_in(table: &Table) -> Orders
    requires { model.key_refusal (table_view table.now) Key.Samples ≡ None }
    ensures { result ≡ model.orders_of (table_view table.now) }
{
    Orders {
        samples: samples_in(table),
        epochs: number(table, Key::Epochs),
        every: number(table, Key::Every),
        start: start_in(table),
        spins: truth(table, Key::Spins),
    }
}
