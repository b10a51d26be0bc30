//! The inputs of runs.

use crate::threaded_tests::devices::GivenBytes;
use anyhow::Result;
use example::packets;
use reading::ReadSource;
use std::alloc::Global;

/// So many inputs, each with so many packets of the example's stream.
#[derive(Clone, Copy)]
pub struct Inputs {
    pub count: u64,
    pub packets: u64,
}

impl Inputs {
    /// What they are read from. The counters of an input begin where those of the one before end.
    pub fn readers(self, alloc: Global) -> Result<Vec<ReadSource<GivenBytes>>> {
        let mut readers = Vec::new(alloc);
        let mut counter: u8 = 0;
        for _ in 0..self.count {
            let mut counters = Vec::new(alloc);
            for _ in 0..self.packets {
                counters.push(counter)?;
                counter = (counter % 16 + 1) % 16;
            }
            readers.push(ReadSource::new(GivenBytes::new(packets(alloc, &counters)?)))?;
        }
        Ok(readers)
    }
}
