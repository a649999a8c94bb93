//! The state of 64 disorder samples, one bit of a word each, and its checkerboard sweep.
#![tactic(auto)]

mod cells;
mod copying;
mod draws;
mod duo_rows;
mod duos;
mod dynamics;
mod generators;
mod lanes;
mod laws;
mod opening;
mod order;
mod pairs;
mod parts;
mod random_words;
mod replica;
mod rows;
mod sizes;
mod stand;
mod storing;
mod surroundings;
mod sweeping;
mod uneven;

pub use cells::{Cell, cell_at, deepest, has_record, shallowest};
pub use draws::{DUO_DRAWS, PLANE_DRAWS, SMALL_DRAWS, is_small};
pub use duos::{sweep_duo_often, sweep_turn_of_duo};
pub use dynamics::{Dynamics, HalfPlane, rule_of_slot, sites_of};
pub use lanes::{pulls_of_four, update_sites, words_at};
pub use laws::{
    labels_permute_after_epochs, labels_permute_after_exchange, parts_are_starting_states,
};
pub use order::{Turn, first_turn, turn_after};
pub use parts::site_word;
pub use replica::{Duo, Plane, Replica};
pub use rows::{Row, first_row, kind_of, pulls_of, row_behind, sweep_words};
pub use sizes::side_of;
pub use stand::{PairWheels, Stand};
pub use surroundings::{Surroundings, lend};
pub use sweeping::{is_forked, sweep, sweep_often};
pub use uneven::{Place, RaggedStand, record_in_range};
