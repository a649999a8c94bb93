//! What a caller of the top call alone can do: see its store called, fail one call of it, and hand it a hook.
#![tactic(auto)]

#[cfg(test)]
mod called;
#[cfg(test)]
mod faults;
#[cfg(test)]
mod hooks;
