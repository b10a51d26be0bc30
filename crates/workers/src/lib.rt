//! The workers of a run in threads of their own, from their start to their end.
#![tactic(auto)]

mod crew;
mod run_gate;
mod work;

pub use crew::{join_all, start_all, wanted_memory};
pub use run_gate::RunGate;
pub use work::{WorkHandle, WorkOf};
