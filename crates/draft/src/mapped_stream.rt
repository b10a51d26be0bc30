//! The streams of a plan with their PIDs in the output.

use crate::candidate::Candidate;
use std::alloc::{AllocError, Global};

/// The PID in the output of the first stream. The others follow.
const FIRST_STREAM_PID: u64 = 0x0200;

/// A stream of a file with its PID in the output.
#[derive(Clone, Copy, Debug, PartialEq, Eq)]
pub(crate) struct MappedStream {
    /// The place of its file.
    pub file: usize,
    pub pid: u16,
    pub out: u64,
    pub leak: u64,
    pub highest: u64,
}

/// The stream with this PID of this file.
pub(crate) fn mapped(streams: &[MappedStream], file: usize, pid: u16) -> Option<&MappedStream> {
    streams
        .iter()
        .find(|stream| stream.file == file && stream.pid == pid)
}

/// The PID in the output of the stream with this number.
fn output_pid(number: usize) -> u64 {
    FIRST_STREAM_PID.saturating_add(number as u64)
}

/// The largest leak rate that a stream has among services: it has the PCR alone in one of them, and may be video in another.
fn largest_leak(services: &[Candidate], file: usize, pid: u16) -> u64 {
    let mut largest = 0;
    for service in services {
        for stream in &service.streams {
            if service.file == file && stream.pid == pid {
                largest = largest.max(stream.leak);
            }
        }
    }
    largest
}

/// The streams of services, each once, with PIDs from 0x0200 on.
pub(crate) fn map_streams(
    alloc: Global,
    services: &[Candidate],
) -> Result<Vec<MappedStream>, AllocError> {
    let mut streams = Vec::new(alloc);
    for service in services {
        let file = service.file;
        for stream in &service.streams {
            if mapped(&streams, file, stream.pid).is_none() {
                streams.push(MappedStream {
                    file,
                    pid: stream.pid,
                    out: output_pid(streams.len()),
                    leak: largest_leak(services, file, stream.pid),
                    highest: stream.highest,
                })?;
            }
        }
    }
    Ok(streams)
}
