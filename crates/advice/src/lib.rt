//! What a plan and a run say to their user: how often the tables come, which periods a plan may have and how long its slots take;
//! whether a run shows that its plan is overfull, and which of its inputs ended before others.
//!
//! Numbers alone: how they are printed is left to the commands.
#![tactic(auto)]

mod ends;
mod load;
mod rhythm;
mod waiting;

pub use ends::{is_early, reached};
pub use load::{left_rate, packets_rate, share, taken_rate};
pub use rhythm::{longest_period, pat_interval, run_seconds, sdt_interval, shortest_period};
pub use waiting::{is_filled, late_by};
