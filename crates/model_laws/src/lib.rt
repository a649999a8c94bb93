//! What makes the definitions those of the physics: public laws over them, and no code.
#![tactic(auto)]

mod balance;
mod energy;
mod exchange;
mod order;
mod packing;

pub use balance::{
    boltzmann_nearly_stays, boltzmann_stays, exact_thresholds_balance, heat_bath_balances,
    heat_bath_draws, metropolis_balances, metropolis_draws, opposite_fields_add_up,
    updates_keep_boltzmann, updates_turn_or_keep, weights_are_boltzmann,
};
pub use energy::{
    energy_is_hamiltonian, turning_costs, turning_exchanges_bonds, unsatisfied_are_bonds,
};
pub use exchange::{exact_entries_balance, exchange_balances, exchanges_trade, swapping_draws};
pub use order::{
    both_spins_can_come, draws_act_on_their_sites, draws_are_their_own,
    every_configuration_can_come, order_makes_no_difference, sites_go_at_once,
};
pub use packing::other_samples_dont_matter;
