//! Room in the multiplex: transport buffers (ISO/IEC 13818-1, 2.4.2), and the queues of packets that wait.
//!
//! A `Bucket` follows the level of one transport buffer as one number, and says whether a packet of the buffer's set
//! may come next. A `PidQueue` holds the packets of one PID that wait, up to a capacity. Only the making of a queue takes
//! memory.
#![tactic(auto)]

mod bucket;
mod pid_queue;

pub use bucket::{Bucket, TRANSPORT_BUFFER_BYTES};
pub use pid_queue::PidQueue;
