//! Rings of packets, one an input: a port that sends and an end that receives, each in a thread of its own.
//!
//! What goes through a ring comes out in the order in which it went in, each packet once, and nothing comes behind the end
//! mark. Neither end locks, waits or asks for memory. Nothing here knows of files, of framing or of the multiplex.
#![tactic(auto)]

mod arrival;
mod arrival_kind;
mod carried;
mod finished_port;
mod nothing_after_end;
mod port;
mod ring_end;
mod ring_reader;
mod rings;

pub use arrival::Arrival;
pub use arrival_kind::ArrivalKind;
pub use finished_port::FinishedPort;
pub use port::Port;
pub use ring_end::RingEnd;
pub use rings::{ports, ring};
