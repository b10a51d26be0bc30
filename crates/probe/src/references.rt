//! The PIDs that tables refer to.

use std::alloc::{AllocError, Global};
use tables::{PatRow, Pmt};
use tspkt::{NULL_PID, PID_COUNT};

/// The first PID that is no table's by itself, and not reserved (ISO/IEC 13818-1, 2.4.3.3; EN 300 468, 5.1.3).
const FIRST_FREE: u16 = 0x0020;

/// The descriptor_tag of a CA descriptor (ISO/IEC 13818-1, 2.6.16).
const CA_DESCRIPTOR: u8 = 0x09;

/// The PIDs that tables refer to, or are sent on.
#[derive(Drop)]
pub(crate) struct References {
    /// One for each PID.
    marks: Vec<bool>,
}

/// The first of some descriptors, by its tag and its body, and the bytes behind it; none where it isn't whole.
fn split(descriptors: &[u8]) -> Option<(u8, &[u8], &[u8])> {
    let (tag, rest) = descriptors.split_first()?;
    let (length, rest) = rest.split_first()?;
    let (body, behind) = rest.split_at_checked(usize::from(*length))?;
    Some((*tag, body, behind))
}

/// CA_PID of a CA descriptor with this body: the 13 bits behind CA_system_ID and three reserved ones.
fn ca_pid(body: &[u8]) -> Option<u16> {
    let (high, low) = (body.get(2)?, body.get(3)?);
    Some(u16::from(*high) % 32 * 256 + u16::from(*low))
}

impl References {
    /// Those that are there before any table was read: of tables whose PIDs are fixed, reserved ones, and that of null packets. An `Err`
    /// is want of memory.
    pub fn new(alloc: Global) -> Result<References, AllocError> {
        let mut references = References {
            marks: vec![in alloc; false; PID_COUNT]?,
        };
        for pid in 0..FIRST_FREE {
            references.add(pid);
        }
        references.add(NULL_PID);
        Ok(references)
    }

    /// Adds a PID.
    fn add(&mut self, pid: u16) {
        if let Some(mark) = self.marks.get_mut(usize::from(pid)) {
            *mark = true;
        }
    }

    /// Adds those of the ECMs or EMMs that CA descriptors among these name.
    pub fn add_ca(&mut self, descriptors: &[u8]) {
        let mut rest = descriptors;
        for _ in 0..descriptors.len() {
            let Some((tag, body, behind)) = split(rest) else {
                return;
            };
            if tag == CA_DESCRIPTOR
                && let Some(pid) = ca_pid(body)
            {
                self.add(pid);
            }
            rest = behind;
        }
    }

    /// Adds that of a row of the PAT: of a program's PMT, or of the NIT, whose PID is free where program_number is 0 (ISO/IEC 13818-1, 2.4.4.5).
    pub fn add_row(&mut self, row: &PatRow) {
        self.add(row.pid);
    }

    /// Adds those that a program's PMT names.
    pub fn add_program(&mut self, pmt: &Pmt) {
        self.add(pmt.pcr_pid());
        self.add_ca(pmt.program_info().bytes());
        for row in pmt.rows() {
            self.add(row.elementary_pid);
            self.add_ca(row.descriptors.bytes());
        }
    }

    /// Whether a PID is one of them.
    pub fn has(&self, pid: u16) -> bool {
        self.marks.get(usize::from(pid)).is_some_and(|mark| *mark)
    }
}
