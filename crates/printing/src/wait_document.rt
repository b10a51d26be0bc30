//! How long the packets of a stream waited, as a document has it.

use schedule::Schedule;
use serde::Serialize;
use serial::Summary;
use std::alloc::{AllocError, Global};

/// How long the packets of a stream waited, as a document has it.
#[derive(Drop, Serialize)]
pub(crate) struct WaitDocument {
    /// The PID in the output.
    out: u16,
    input: usize,
    /// The PID in the input.
    pid: u16,
    /// The largest delay of a packet, in ticks of 27 MHz.
    delay: u64,
    /// The most packets that waited.
    queue: u64,
}

impl WaitDocument {
    /// Those of the streams of a run. `Err` is want of memory.
    pub fn all_of(
        alloc: Global,
        schedule: &Schedule,
        summary: &Summary,
    ) -> Result<Vec<WaitDocument>, AllocError> {
        let mut waits = Vec::new(alloc);
        for (stream, peak) in schedule.streams().iter().zip(summary.streams.iter()) {
            waits.push(WaitDocument {
                out: stream.output_pid,
                input: stream.input,
                pid: stream.pid,
                delay: peak.delay,
                queue: peak.queued,
            })?;
        }
        Ok(waits)
    }
}
