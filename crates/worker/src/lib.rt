//! A worker: it reads an input, and sends its packets that the plans of a schedule name into the input's ring.
//!
//! Each worker may run in a thread of its own. What it read, counted and sent is said of what it hands back. Nothing here
//! knows of the multiplex, of files or of what is written.
#![tactic(auto)]

mod gate;
mod open_gate;
mod place_wait;
mod point;
mod sender;
mod waiting;
mod wakes;
mod worker;

pub use gate::Gate;
pub use open_gate::OpenGate;
pub use point::Point;
pub use waiting::pause;
pub use wakes::{PLACE, Wakes};
pub use worker::Worker;
