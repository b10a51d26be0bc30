//! Packets on their way from one thread to another, in blocks: a sender that hands blocks on, and a receiver that takes them.
//!
//! A block goes through a ring by value, so its packets aren't copied on their way, and comes back empty by a second ring. What
//! goes in comes out in the order in which it went in, each block once, and nothing comes behind the end mark. All memory is asked
//! for when the two are made. Neither locks nor waits.
#![tactic(auto)]

mod block_receiver;
mod block_sender;
mod empty_blocks;
mod finished_sender;
mod making;
mod message;
mod nothing_after_end;
mod room;

pub use block_receiver::BlockReceiver;
pub use block_sender::BlockSender;
pub use finished_sender::FinishedSender;
pub use making::relay;
pub use message::Message;
pub use room::{KEPT, ROOM};
