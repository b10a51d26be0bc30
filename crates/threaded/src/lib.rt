//! The run in threads: each input is read in a thread of its own, the calling thread takes its packets into the multiplex, and
//! one thread more analyses and writes what goes out.
//!
//! A ring an input leads from its worker to the one station, which the calling thread owns and ticks, and a relay of blocks from the
//! station to the output. What is written is what the run in one thread would write: the packets of a sound history that takes
//! of each input what can be taken of its bytes.
#![tactic(auto)]

mod opening;
mod run;
mod seats;
mod telling;
mod working;

pub use run::run_threads;
