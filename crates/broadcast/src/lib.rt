//! A station whose slots are published: readers read what was sent beside it, with no lock.
//!
//! A `Broadcast` owns a `Station` and the `FeedWriter` of a feed of the same schedule. A tick sends the next slot as the station does,
//! and publishes it. Readers, 1 to 4 of them, are made with it, and read what was published from threads of their own (crate
//! `feed`). What is known of it whenever it is seen: its station is sound and lawful, and what was published begins what the
//! station sent. Where the memory ends nothing is lost: what wasn't published is behind, and a later call publishes it.
#![tactic(auto)]

mod broadcast;
mod feeding;
pub mod laws;
mod sending;
mod ticked;
mod ticked_slot;

pub use broadcast::{Broadcast, MAX_STEPS};
pub use ticked::Ticked;
pub use ticked_slot::TickedSlot;
