//! The exchange schedule of three slots, through two seats of a lock on one thread.
#![tactic(auto)]

#[cfg(test)]
mod boards;
#[cfg(test)]
mod events;
#[cfg(test)]
mod pairs;
#[cfg(test)]
mod seats;
