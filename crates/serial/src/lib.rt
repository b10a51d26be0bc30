//! The run in one thread: the packets of the inputs go into the multiplex in turn, and those of its slots on their way out.
#![tactic(auto)]

mod ending;
mod feeding;
mod opening;
mod run;
mod serial_run;
mod turn;

pub use outcome::{InputSummary, Summary};
pub use outlet::{RunFault, Sink, SlotWriter, WriteSink};
pub use run::{run_serial, run_serial_within};
