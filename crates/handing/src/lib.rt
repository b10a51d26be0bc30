//! How a run in threads goes on, and how its packets come to the thread that analyses and writes them.
//!
//! `send_out` starts that thread, lets the station go on to the end of the run, hands on what goes out through a relay of blocks, and joins
//! the thread.
#![tactic(auto)]

mod driving;
mod output_thread;
mod output_worker;
mod passage;
mod turn;
mod written;

pub use output_thread::send_out;
pub use passage::Passage;
