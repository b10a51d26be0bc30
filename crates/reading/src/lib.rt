//! The reading of an input: from the bytes of a source to packets with their times.
//!
//! A `StreamReader` reads a source in pieces and gives the items that framing finds, each in turn. A `PacketReader` stands on
//! it: it gives the packets that a plan names, each with its time, counts all items, and says why it stopped. Nothing here
//! knows of queues, of the multiplex or of what is written.
#![tactic(auto)]

mod classify;
mod input_limit;
mod item_reader;
mod look;
mod origin;
mod packet_reader;
mod report;
mod source;
mod stop;
mod stream_reader;

pub use input_limit::InputLimit;
pub use look::Look;
pub use origin::Origin;
pub use packet_reader::PacketReader;
pub use report::Report;
pub use source::{ReadSource, Source};
pub use stop::Stop;
pub use stream_reader::{PIECE, StreamReader};
