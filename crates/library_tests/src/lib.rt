//! What the calls of low crates do where no clause speaks of it: seats of a lock on threads, a turn that is refused, and
//! writes that fail.
#![tactic(auto)]

#[cfg(test)]
mod seats;
#[cfg(test)]
mod writes;
