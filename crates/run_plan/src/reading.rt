//! Reading a run file.

ghost use Rattle.std.specs.Prelude.{◌≡◌, None, Some, IfOk, IfErr};
ghost use Rattle.glass_edges.specs.Refusals.{Gives, unless};
ghost use Rattle.toml.specs.View.{table_view};
ghost use Rattle.run_plan.specs.RunFile as model;

use crate::lawful::{first_unknown, refuse_keys};
use crate::refused::PlanRefused;
use crate::run_file::RunFile;
use crate::texts::KeyText;
use crate::values::values_of;
use std::alloc::Global;
use toml::Table;

/// What the bytes of a run file say. The keys stand in docs/specification/run_file.md.
///
/// # Errors
///
/// The first refusal in this order: the bytes are no TOML document; key by key it is missing, of
/// another kind, or has an integer or a text that isn't lawful; some key isn't in the table.
/// `NoMemory` may come in place of any answer.
#[tactic(auto, unfolding(crate::specs::RunFile::run_file))]
pub fn read_plan(alloc: Global, bytes: &[u8]) -> Result<RunFile, PlanRefused>
    ensures value { Gives PlanRefused.NoMemory (λ file. file) result (model.run_file bytes.now) }
    ensures lawful { IfOk result model.IsLawfulRunFile }
{
    let table = document(alloc, bytes)?;
    read_table(alloc, &table)
}

// The document that the bytes are.
fn document(alloc: Global, bytes: &[u8]) -> Result<Table, PlanRefused>
    ensures found { IfOk result (λ table. model.document bytes.now ≡ Some (table_view table)) }
    ensures refused { IfErr result (λ e. ¬ (e ≡ PlanRefused.NoMemory) →
        (e ≡ PlanRefused.Toml) × (model.document bytes.now ≡ None)) }
{
    match toml::table_from_slice(alloc, bytes) {
        Ok(table) => Ok(table),
        Err(e) if e.is_memory() => Err(PlanRefused::NoMemory),
        Err(_) => Err(PlanRefused::Toml),
    }
}

// What a document says.
#[tactic(auto, unfolding(crate::specs::RunFile::members_refusal))]
fn read_table(alloc: Global, table: &Table) -> Result<RunFile, PlanRefused>
    ensures value { Gives PlanRefused.NoMemory (λ file. file) result
        (unless (model.members_refusal (table_view table.now)) (model.values_of (table_view table.now))) }
    ensures lawful { IfOk result model.IsLawfulRunFile }
{
    if let Some(refused) = refuse_keys(table) {
        return Err(refused);
    }
    if let Some(text) = first_unknown(table) {
        return Err(PlanRefused::Unknown {
            key: KeyText::of(alloc, text)?,
        });
    }
    Ok(values_of(alloc, table)?)
}
