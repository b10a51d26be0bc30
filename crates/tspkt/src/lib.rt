//! Packets of an MPEG-2 transport stream (ISO/IEC 13818-1, 2.4.3).
//!
//! `Packet` is 188 bytes with a header and an adaptation field as the standard lays them out, with a reader for each field that
//! the multiplex uses. `rewrite` puts a packet on another PID and later in time, `follows` judges its continuity counter, and
//! `Framer` finds the packets in a stream of bytes that comes in pieces, every 188 or 204 bytes as a `PacketSize` says. `time`
//! gives the time of a byte in a stream of constant rate, in ticks of 27 MHz, and `PositionClock` that of each packet in turn.
//! Nothing here knows of tables or plans, and but for the items that a framer tells nothing takes memory.
#![tactic(auto)]

mod counters;
mod feed_fault;
mod fields;
mod framer;
mod framing;
mod item;
mod item_buffer;
mod item_list;
mod laws;
mod lent_packet;
mod malformed;
mod mode;
mod packet;
mod packet_size;
mod position_clock;
mod stamped;
mod stepping;
mod sync;
mod window;

pub use counters::follows;
pub use feed_fault::FeedFault;
pub use framer::{Framer, MAX_LIMIT};
pub use framing::{frame, frame_with_size};
pub use item::Item;
pub use item_buffer::ItemBuffer;
pub use laws::{
    clones_are_equal, clones_are_made, equal_faults_are_the_same, equal_sizes_are_the_same,
};
pub use lent_packet::LentPacket;
pub use malformed::Malformed;
pub use packet::{NULL_PID, PCR_MODULUS, PID_COUNT, Packet, null, rewrite};
pub use packet_size::PacketSize;
pub use position_clock::{HIGHEST_RATE, LOWEST_RATE, PositionClock};
pub use stamped::{Stamped, time};
pub use sync::acquires_sync;
