//! A row `[[service]]`.

use crate::stream_parts::StreamParts;

/// A service as the plan's text gives it, before any range is looked at.
#[derive(Drop)]
pub struct ServiceParts {
    /// The place of its input in the plan, from 0.
    pub input: i64,
    /// Its number in the input, 1 to 65,535.
    pub program: i64,
    /// Its number in the output, 1 to 65,535.
    pub service: i64,
    /// The PID of its PMT in the output, 0x0020 to 0x1FFE.
    pub pmt: i64,
    /// Its streams.
    pub streams: Vec<StreamParts>,
}
