//! The two readers of tables.

ghost use Rattle.std.specs.Prelude.{◌≤◌};
ghost use Rattle.spin_model.specs.Limits.{most_slots};
ghost use Rattle.glass_edges.specs.Refusals.{Gives};
ghost use Rattle.threshold_table.specs.Tables.{rule_table, swap_table};

use crate::bounds::Bounds;
use crate::refused::TableRefused;
use crate::rows::read_rows;
use crate::rule_table::{RuleKind, RuleTable, width_of};
use crate::swap_table::SwapTable;
use spin_model::MOST_SLOTS;
use std::alloc::Global;

/// Reads a rule table: 1 to 32 records, slot 0 first, each of 7 numbers for heat bath or 3 for
/// Metropolis. The format stands in docs/specification/tables.md.
///
/// # Errors
///
/// Exactly the first refusal, in this order: Csv over all bytes; then record by record Fields, and
/// field by field Number or TooGreat; Records last. NoMemory may come at any point.
pub fn read_rule(alloc: Global, bytes: &[u8], kind: RuleKind) -> Result<RuleTable, TableRefused>
    ensures { Gives TableRefused.NoMemory (λ t. t) result (rule_table kind bytes.now) }
{
    let height = Bounds {
        least: 1,
        most: MOST_SLOTS as usize,
    };
    let rows = read_rows(alloc, bytes, width_of(kind), height)?;
    let table = RuleTable::of_lists(alloc, kind, rows.as_slice())?;
    Ok(table)
}

/// Reads a swap table: one record per pair of neighbouring slots, so one fewer than `slots`, pair 0
/// first, each of 1 to 4096 numbers. The format stands in docs/specification/tables.md.
///
/// # Errors
///
/// As those of `read_rule`.
#[tactic(auto, unfolding(crate::specs::Tables::swap_table))]
pub fn read_swap(alloc: Global, bytes: &[u8], slots: u32) -> Result<SwapTable, TableRefused>
    requires some { 1 ≤ slots }
    requires few { slots ≤ most_slots }
    ensures { Gives TableRefused.NoMemory (λ t. t) result (swap_table slots bytes.now) }
{
    let pairs = (slots - 1) as usize;
    let width = Bounds {
        least: 1,
        most: 4096,
    };
    let height = Bounds {
        least: pairs,
        most: pairs,
    };
    let rows = read_rows(alloc, bytes, width, height)?;
    Ok(SwapTable::of_lists(rows))
}
