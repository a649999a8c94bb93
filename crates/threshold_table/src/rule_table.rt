//! The rule table: the thresholds of the spin update, by temperature slot.

ghost use Rattle.std.specs.Prelude.{◌≡◌, ℕ, ◌<◌, ◌≤◌, IsTrue, IfOk, length, map, slice_index};
ghost use Rattle.std.specs.List.{list_all};
ghost use Rattle.spin_model.specs.Limits.{most_slots};
ghost use Rattle.threshold_table.specs.Tables.{padded, rule_width, thresholds_in, thresholds_of, threshold_of, is_lawful_row, IsLawfulRow, IsLawfulRules};

use crate::bounds::Bounds;
use glass_edges::NoMemory;
use plain_list::Items;
use std::alloc::Global;
use std::marker::Model;

/// The dynamics that a rule table is for.
#[derive(Clone, Copy, Debug, PartialEq, Eq)]
pub enum RuleKind {
    /// Seven thresholds per slot, for 0 to 6 aligned neighbours.
    Heat,
    /// Three thresholds per slot, for 4, 5 and 6 satisfied bonds.
    Metropolis,
}

/// The thresholds of one temperature slot, each a probability times 2^32.
///
/// Heat bath has `values[a]` for a aligned neighbours. Metropolis has `values[0]` to `values[2]` for
/// 4, 5 and 6 satisfied bonds, and 0 in the rest.
#[derive(Clone, Copy, Debug)]
pub struct RuleRow {
    pub values: [u64; 7],
}

/// The spin rule of one temperature slot: the dynamics, with its thresholds.
#[derive(Clone, Copy, Debug)]
pub struct SlotRule {
    pub kind: RuleKind,
    pub row: RuleRow,
}

/// The thresholds of the spin update for 1 to 32 temperature slots, slot 0 the coldest. Contracts
/// see the kind and for each slot the list of its seven or three thresholds.
#[derive(Drop)]
pub struct RuleTable {
    kind: RuleKind,
    rows: Items<RuleRow>,
}

impl Model for RuleTable {
    ghost use Rattle.threshold_table.specs.Tables.{RuleView};

    ghost Value = { RuleView };

    ghost use Rattle.threshold_table.specs.KeptRules.{rule_view, KeepsRules};

    ghost view = { rule_view };

    ghost invariant = { KeepsRules };
}

impl RuleTable {
    /// A table of given rows, slot 0 first.
    ///
    /// # Errors
    ///
    /// Only where memory runs out.
    pub fn from_rows(alloc: Global, kind: RuleKind, rows: &[RuleRow]) -> Result<RuleTable, NoMemory>
        requires some { 1 ≤ length rows.now }
        requires few { length rows.now ≤ most_slots }
        requires lawful { IsTrue (list_all (is_lawful_row kind) rows.now) }
        ensures { IfOk result (λ t.
            t ≡ record { kind = kind; rows = map (thresholds_in kind) rows.now }) }
    {
        let mut kept = Vec::new(alloc);
        'rows: for row in rows {
            kept.push(copy_of(row))?;
        }
        Ok(RuleTable {
            kind,
            rows: Items::of(kept),
        })
    }

    /// A table of given lists of thresholds.
    pub(crate) fn of_lists(
        alloc: Global,
        kind: RuleKind,
        rows: &[Items<u64>],
    ) -> Result<RuleTable, NoMemory>
        requires { IsLawfulRules (record { kind = kind; rows = rows.now }) }
        ensures { IfOk result (λ t. t ≡ record { kind = kind; rows = rows.now }) }
    {
        let mut kept = Vec::new(alloc);
        'rows: for row in rows {
            kept.push(row_of(row.as_slice()))?;
        }
        Ok(RuleTable {
            kind,
            rows: Items::of(kept),
        })
    }

    /// The dynamics that the table is for.
    pub fn kind(&self) -> RuleKind
        ensures { result ≡ self.now.kind }
    {
        self.kind
    }

    /// The number of temperature slots.
    pub fn slots(&self) -> u32
        ensures value { result ≡ length self.now.rows }
        ensures lawful { IsLawfulRules self.now }
    {
        self.rows.len() as u32
    }

    /// The thresholds of a slot, with zeros after them where there are fewer than seven.
    pub fn row(&self, slot: u32) -> &RuleRow
        requires { slot < length self.now.rows }
        ensures values { result.now.values ≡ padded (thresholds_of self.now slot) }
        ensures thresholds { (case : ℕ) →
            slice_index result.now.values case ≡ threshold_of self.now slot case }
        ensures lawful { IsLawfulRow (rule_width self.now.kind) (thresholds_of self.now slot) }
    {
        self.rows.at(slot as usize)
    }

    /// The spin rule of a slot: the table's dynamics, with the slot's thresholds.
    pub fn rule(&self, slot: u32) -> SlotRule
        requires { slot < length self.now.rows }
        ensures kind { result.kind ≡ self.now.kind }
        ensures values { result.row.values ≡ padded (thresholds_of self.now slot) }
        ensures thresholds { (case : ℕ) →
            slice_index result.row.values case ≡ threshold_of self.now slot case }
        ensures lawful { IsLawfulRow (rule_width self.now.kind) (thresholds_of self.now slot) }
    {
        SlotRule {
            kind: self.kind,
            row: *self.row(slot),
        }
    }
}

/// How many numbers a record of this kind has.
pub(crate) fn width_of(kind: RuleKind) -> Bounds
    ensures { result ≡ rule_width kind }
{
    let cases = match kind {
        RuleKind::Heat => 7,
        RuleKind::Metropolis => 3,
    };
    Bounds {
        least: cases,
        most: cases,
    }
}

fn copy_of(row: &RuleRow) -> RuleRow
    ensures same { result ≡ row.now }
    ensures sized { length row.now.values ≡ 7 }
{
    *row
}

fn row_of(thresholds: &[u64]) -> RuleRow
    requires { length thresholds.now ≤ 7 }
    ensures { result.values ≡ padded thresholds.now }
{
    let mut values = [0u64; 7];
    values[..thresholds.len()].copy_from_slice(thresholds);
    RuleRow { values }
}
