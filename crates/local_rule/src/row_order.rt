//! Whether a row of thresholds is in order.

ghost use Rattle.std.specs.Prelude.{◌≡◌};
ghost use Rattle.local_rule.specs.RowOrder.{is_falling, is_in_order, is_rising};

use threshold_table::{RuleKind, RuleRow, SlotRule};

/// Whether no threshold of heat bath is above that of one more aligned neighbour.
#[inline(always)]
pub(crate) fn is_rising(row: &RuleRow) -> bool
    ensures { result ≡ is_rising row.now.values }
{
    let t = &row.values;
    t[0] <= t[1] && t[1] <= t[2] && t[2] <= t[3] && t[3] <= t[4] && t[4] <= t[5] && t[5] <= t[6]
}

/// Whether no threshold of Metropolis is above that of one satisfied bond less.
#[inline(always)]
pub(crate) fn is_falling(row: &RuleRow) -> bool
    ensures { result ≡ is_falling row.now.values }
{
    let t = &row.values;
    t[1] <= t[0] && t[2] <= t[1]
}

/// Whether the row is in the order of the rule's kind.
pub(crate) fn is_in_order(rule: &SlotRule) -> bool
    ensures { result ≡ is_in_order rule.now }
{
    match rule.kind {
        RuleKind::Heat => is_rising(&rule.row),
        RuleKind::Metropolis => is_falling(&rule.row),
    }
}
