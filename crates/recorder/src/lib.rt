//! Recording of a feed: what a reader reads goes to a sink.
//!
//! A `Recorder` owns a reader of a feed and a sink. Each step reads what was published and writes its bytes. What it wrote is a
//! beginning of the bytes of what its reader has read, and all of them unless a write failed. It takes no lock, and waits for
//! nobody but its sink.
#![tactic(auto)]

mod record_fault;
mod recorder;
mod writing;

pub use record_fault::RecordFault;
pub use recorder::{PIECE, Recorder};
