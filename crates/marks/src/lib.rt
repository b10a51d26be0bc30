//! The order of a feed's packets, and marks of how far it went.
//!
//! One `Sequence` gives a feed's packets their order: each goes behind those before it, and nothing goes behind the seal. A
//! `Mark` is a beginning of that sequence that was reached: of two marks of one feed one begins the other, whichever threads
//! they come from. Both take a few bytes however many packets there are, and none of their calls locks, waits or asks for
//! memory. Nothing here keeps a packet.
#![tactic(auto)]

mod add_entry;
mod entry;
mod mark;
mod no_gain;
mod sealed_last;
mod sequence;

pub use entry::Entry;
pub use mark::Mark;
pub use sealed_last::SealedLast;
pub use sequence::Sequence;
