//! The PCRs of all PIDs.

use crate::pcr_watch::PcrWatch;
use crate::place::Place;
use rate_meter::Reading;
use std::alloc::{AllocError, Global};

/// How many PIDs are watched at most.
const MOST: usize = 64;

/// The PCRs of the PIDs that have some: of the first 64.
#[derive(Drop)]
pub(crate) struct PcrWatches {
    alloc: Global,
    watches: Vec<PcrWatch>,
}

impl PcrWatches {
    /// No PCR was read.
    pub fn new(alloc: Global) -> PcrWatches {
        PcrWatches {
            alloc,
            watches: Vec::new(alloc),
        }
    }

    /// The next PCR, of this PID, in the packet at this place. An `Err` is want of memory.
    pub fn add(&mut self, pid: u16, reading: Reading, place: Place) -> Result<(), AllocError> {
        for watch in self.watches.iter_mut() {
            if watch.pid == pid {
                return watch.add(reading, place);
            }
        }
        if self.watches.len() < MOST {
            self.watches.push(PcrWatch::new(self.alloc, pid, reading))?;
        }
        Ok(())
    }

    /// The PCRs of a PID.
    pub fn of(&self, pid: u16) -> Option<&PcrWatch> {
        self.watches.iter().find(|watch| watch.pid == pid)
    }
}
