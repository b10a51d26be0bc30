//! The levels of the transport buffers of any multiplex of constant rate (ISO/IEC 13818-1, 2.4.2), one that overruns them too.
//!
//! An `OpenBucket` follows the level of one buffer as one number. `Levels` has those of some PIDs, and is shown the slots of a stream.
#![tactic(auto)]

mod buffer_level;
mod levels;
mod open_bucket;

pub use buffer_level::BufferLevel;
pub use levels::Levels;
pub use open_bucket::OpenBucket;
