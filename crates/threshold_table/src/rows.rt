//! The rows of numbers in a text, or its first refusal.

ghost use Rattle.std.specs.Prelude.{◌≡◌, ℕ, ◌≤◌, List, ◌∷◌, ◌++◌, length, take, map, OnOk, IfOk, IfErr};
ghost use Rattle.glass_edges.specs.Refusals.{Gives, Refuses, refusal_of, unless};
ghost use Rattle.threshold_table.specs.TableText.{records, record_refusal, record_values, count_refusal, records_refusal, table_of};

use crate::bounds::Bounds;
use crate::fields::{field_count, numbers};
use crate::lines::{is_lawful_text, next_record, text_of};
use crate::refused::TableRefused;
use plain_list::Items;
use std::alloc::Global;

// The numbers of one record.
#[tactic(auto, unfolding(crate::specs::TableText::record_refusal))]
fn row_in(alloc: Global, at: u64, line: &[u8], width: Bounds) -> Result<Items<u64>, TableRefused>
    ensures refused { Refuses TableRefused.NoMemory result (record_refusal width at line.now) }
    ensures values { IfOk result (λ v. v ≡ record_values line.now) }
{
    let found = field_count(line);
    if !width.contains(found) {
        return Err(TableRefused::Fields {
            at,
            found: found as u64,
            wanted: width.most as u64,
        });
    }
    let mut values = vec![in alloc; 0u64; found]?;
    numbers(at, line, values.as_mut_slice())?;
    Ok(Items::of(values))
}

// Keeps a row, of the first so many.
fn keep(rows: &mut Vec<Items<u64>>, row: Items<u64>, most: usize) -> Result<(), TableRefused>
    requires { length rows.old.items ≤ most }
    ensures kept { OnOk result ((later : List (List ℕ)) →
        take most (rows.new.items ++ later) ≡ take most (rows.old.items ++ row ∷ later)) }
    ensures within { OnOk result (length rows.new.items ≤ most) }
    ensures memory { IfErr result (λ e. e ≡ TableRefused.NoMemory) }
{
    if rows.len() < most {
        rows.push(row)?;
    }
    Ok(())
}

// Refuses a number of records that is out of bounds.
fn counted(found: u64, height: Bounds) -> Result<(), TableRefused>
    ensures { refusal_of result ≡ count_refusal height found }
{
    if found < height.least as u64 {
        return Err(TableRefused::Records {
            found,
            wanted: height.least as u64,
        });
    }
    if found > height.most as u64 {
        return Err(TableRefused::Records {
            found,
            wanted: height.most as u64,
        });
    }
    Ok(())
}

// The rows of a text whose bytes are lawful.
fn rows_in(
    alloc: Global,
    text: &[u8],
    width: Bounds,
    height: Bounds,
) -> Result<Vec<Items<u64>>, TableRefused>
    ensures { Gives TableRefused.NoMemory (λ v. v.items) result
        (unless (records_refusal width height (records text.now))
        (map record_values (records text.now))) }
{
    let mut rows = Vec::new(alloc);
    let mut at = 0u64;
    let mut rest = text;
    'records: while let Some((line, after)) = next_record(rest) {
        let row = row_in(alloc, at, line, width)?;
        keep(&mut rows, row, height.most)?;
        at += 1;
        rest = after;
    }
    counted(at, height)?;
    Ok(rows)
}

/// The rows of a table that has `width` numbers in each record and `height` records, or the first
/// refusal.
#[tactic(auto, unfolding(crate::specs::TableText::table_of))]
pub(crate) fn read_rows(
    alloc: Global,
    bytes: &[u8],
    width: Bounds,
    height: Bounds,
) -> Result<Vec<Items<u64>>, TableRefused>
    ensures { Gives TableRefused.NoMemory (λ v. v.items) result (table_of width height bytes.now) }
{
    let text = text_of(bytes);
    if !is_lawful_text(text) {
        return Err(TableRefused::Csv);
    }
    rows_in(alloc, text, width, height)
}
