//! What the threads of a run tell one another, and how each waits for what another does.
//!
//! `Signals` are those of the thread that ticks, and `OutputSignals` those of the output's worker. An input's worker has `Wakes`, which the
//! crate `worker` knows. How a thread waits and is woken is the crate `waking`'s; here stands which change each waits for, and who tells it.
#![tactic(auto)]

mod output_signals;
mod signals;

pub use output_signals::OutputSignals;
pub use signals::Signals;
