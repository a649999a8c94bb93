//! The spin update at a site for 64 samples at once, by heat bath or Metropolis: on one word with one
//! draw, and on several words with as many draws.
#![tactic(auto)]

pub use lane_rule::{heat_bath_lanes, heat_bath_sites, metropolis_lanes, metropolis_sites};
pub use laws::{heat_bath_both_ways, metropolis_both_ways};
pub use ready_rule::ReadyRule;
pub use vectors::{
    choose_lanes, differing_lanes, full_adder_lanes, joined_lanes, load, shared_lanes,
};
pub use word_rule::{heat_bath, metropolis};

mod lane_rule;
mod laws;
mod ready_rule;
mod row_order;
mod vectors;
mod word_rule;
