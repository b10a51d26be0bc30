//! The way out of a run: each packet is analysed, and written through a buffer to a sink, which counts its failures.
//!
//! Nothing here knows of inputs, of the multiplex or of threads.
#![tactic(auto)]

mod outlet;
mod packet_writer;
mod run_fault;
mod sink;
mod slot_writer;
mod write_sink;
mod writing;

pub use outlet::Outlet;
pub use run_fault::RunFault;
pub use sink::Sink;
pub use slot_writer::SlotWriter;
pub use write_sink::WriteSink;
pub use writing::write_all;
