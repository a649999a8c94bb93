//! The two tables of thresholds: of the spin update by temperature slot, and of the replica exchange
//! by pair of neighbouring slots. They are read from comma-separated numbers, each refusal exactly
//! the first by a stated order, or made from rows.
#![tactic(auto)]

mod bounds;
mod fields;
mod lines;
mod number;
mod readers;
mod refused;
mod rows;
mod rule_table;
mod swap_table;

pub use readers::{read_rule, read_swap};
pub use refused::TableRefused;
pub use rule_table::{RuleKind, RuleRow, RuleTable, SlotRule};
pub use swap_table::SwapTable;
