//! The rule of a slot made ready for sweeps.

ghost use Rattle.std.specs.Prelude.{◌≡◌, ◌<◌, true, slice_index};
ghost use Rattle.local_rule.specs.ReadyRules.{AreLimits, IsLimit};
ghost use Rattle.local_rule.specs.RowOrder.{is_in_order};

use crate::row_order::is_in_order;
use spin_model::CERTAIN;
use std::marker::Model;
use threshold_table::{RuleKind, RuleRow, SlotRule};

/// The rule of a temperature slot, and beside its thresholds what a sweep would else find anew in each
/// plane: the limits that a processor compares with draws, and whether the row is in order. Contracts see
/// the rule.
#[derive(Drop)]
pub struct ReadyRule {
    rule: SlotRule,
    limits: [i64; 7],
    in_order: bool,
}

impl Model for ReadyRule {
    ghost use Rattle.threshold_table.specs.declared.rule_table.SlotRule.{SlotRule};

    ghost Value = { SlotRule };

    ghost use Rattle.local_rule.specs.ReadyRules.{IsReady};

    ghost view = { λ ready. ready.rule };

    ghost invariant = { λ ready. IsReady ready.rule ready.limits ready.in_order };
}

impl ReadyRule {
    /// This rule.
    pub fn of(rule: &SlotRule) -> ReadyRule
        ensures { result ≡ rule.now }
    {
        ReadyRule {
            rule: *rule,
            limits: limits_of(&rule.row),
            in_order: is_in_order(rule),
        }
    }

    /// The dynamics.
    #[inline(always)]
    pub fn kind(&self) -> RuleKind
        ensures { result ≡ self.now.kind }
    {
        self.rule.kind
    }

    /// The thresholds.
    #[inline(always)]
    pub fn row(&self) -> &RuleRow
        ensures { result.now ≡ self.now.row }
    {
        &self.rule.row
    }

    /// Whether they are in order: rising by heat bath, and falling by Metropolis.
    #[inline(always)]
    pub fn is_in_order(&self) -> bool
        ensures { result ≡ is_in_order self.now }
    {
        self.in_order
    }

    /// A copy.
    #[inline(always)]
    pub fn copy(&self) -> ReadyRule
        ensures { result ≡ self.now }
    {
        ReadyRule {
            rule: self.rule,
            limits: self.limits,
            in_order: self.in_order,
        }
    }

    /// A copy of a rule that is of this kind and in order: code that it is expanded in asks for neither.
    #[inline(always)]
    pub fn copy_in_order(&self, kind: RuleKind) -> ReadyRule
        requires kind { kind ≡ self.now.kind }
        requires order { is_in_order self.now ≡ true }
        ensures { result ≡ self.now }
    {
        ReadyRule {
            rule: SlotRule {
                kind,
                row: self.rule.row,
            },
            limits: self.limits,
            in_order: true,
        }
    }

    /// A number with a sign that is above the same draws as the threshold of a case.
    #[inline(always)]
    pub(crate) fn limit(&self, case: usize) -> i64
        requires { case < 7 }
        ensures { IsLimit (slice_index self.now.row.values case) result }
    {
        self.limits[case]
    }
}

// The limits of seven thresholds.
fn limits_of(row: &RuleRow) -> [i64; 7]
    ensures { AreLimits row.now.values result }
{
    let cases = &row.values;
    [
        with_sign(cases[0]),
        with_sign(cases[1]),
        with_sign(cases[2]),
        with_sign(cases[3]),
        with_sign(cases[4]),
        with_sign(cases[5]),
        with_sign(cases[6]),
    ]
}

// The processors compare with a sign alone. For 0 the limit is -1, since a compiler that knows of numbers
// without a sign compares them as such, by an instruction more for each draw and each threshold.
#[inline(always)]
fn with_sign(threshold: u64) -> i64
    ensures { IsLimit threshold result }
{
    if threshold == 0 {
        -1
    } else {
        threshold.min(CERTAIN) as i64
    }
}
