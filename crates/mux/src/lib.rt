//! The multiplex without threads: its state, and the history that contracts see.
//!
//! A `Plan` says which streams go into the multiplex, how fast it runs, and which slots carry its tables; a `Schedule` has the plans of a
//! run, each from its slot on. A `Mux` takes
//! packets of the inputs, in the order of their times, and sends one packet a slot: the table packet whose turn it is, else
//! the queued packet that is due first, of those that their streams' transport buffers have room for, else a null packet.
//! It answers that an input isn't ready where the next packet of that input might still go first, so what is sent doesn't
//! depend on the order in which the inputs are read.
//!
//! At a switch to the next plan what is kept of a stream stays where it is, and the queues of streams that go are emptied.
//!
//! Contracts see a `Mux` as its `History`: the schedule, the limit of slots, and the events since it was opened. Each call
//! adds exactly one event, or none. Nothing of the history is stored: a multiplex takes the same memory whatever its length.
//! A `RecordedMux` also keeps the packets that it sent.
#![tactic(auto)]

mod candidate;
mod choice;
mod content;
mod counts;
mod event;
mod first_head;
mod head;
mod head_list;
mod input_state;
mod kept_bucket;
pub mod laws;
mod mux;
mod offered;
mod one_packet;
mod outgoing;
mod output;
mod peak;
mod pid_counters;
mod progress;
mod recorded_mux;
mod sending;
mod slot;
mod slot_clock;
mod span;
mod standing;
mod taken;
mod totals;

pub use content::Content;
pub use counts::Counts;
pub use event::Event;
pub use mux::{MAX_SLOTS, Mux};
pub use offered::Offered;
pub use one_packet::OnePacket;
pub use outgoing::Outgoing;
pub use peak::Peak;
pub use recorded_mux::RecordedMux;
pub use sending::Sending;
pub use slot::Slot;
pub use taken::Taken;
pub use totals::Totals;
