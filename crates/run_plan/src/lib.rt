//! The run file, which says what a run is made of, the limits of a run and the digest of a plan.
#![tactic(auto)]

mod amounts;
mod banks;
mod demo;
mod key;
mod lawful;
mod limits;
mod plan_digest;
mod reading;
mod refused;
mod run_file;
mod texts;
mod values;

pub use amounts::{check_amount, row_count};
pub use banks::check_banks;
pub use demo::demo_plan;
pub use key::Key;
pub use plan_digest::{canonical_length, digest, digest_banks};
pub use reading::read_plan;
pub use refused::PlanRefused;
pub use run_file::{CouplingSource, Orders, RunFile};
pub use texts::{KeyText, NameText};
