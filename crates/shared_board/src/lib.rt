//! The exchange schedule under a lock: workers on threads of their own take slots and hand them back,
//! and each call is one turn of the lock.
#![tactic(auto)]

mod closing;
mod opening;
mod pairs;
mod settling;
mod shared;
mod taking;

pub use shared::{BoardPass, SharedBoard};
pub use taking::TryNext;
