//! A stream of a plan, as a document has it.

use request::Stream;
use serde::Serialize;

/// A stream of a plan, as a document has it.
#[derive(Drop, Serialize)]
pub(crate) struct StreamDocument {
    /// The PID in the output.
    out: u16,
    input: usize,
    /// The PID in the input.
    pid: u16,
    /// In bits a second.
    leak: u64,
}

impl StreamDocument {
    /// That of a stream.
    pub fn of(stream: &Stream) -> StreamDocument {
        StreamDocument {
            out: stream.output_pid,
            input: stream.input,
            pid: stream.pid,
            leak: stream.leak,
        }
    }
}
