//! The sections that are watched.

use crate::occurrences::Occurrences;
use crate::place::Place;
use crate::references::References;
use crate::section_watch::SectionWatch;
use crate::table_kind::TableKind;
use section::Told;
use std::alloc::{AllocError, Global};
use tables::{Pat, PatRow, Pmt};
use tspkt::Packet;

/// The PIDs of the PAT, the CAT, the NIT, the SDT, the EIT and the TDT (ISO/IEC 13818-1, 2.4.3.3; EN 300 468, 5.1.3).
const TABLE_PIDS: [u16; 6] = [0x0000, CAT_PID, 0x0010, 0x0011, 0x0012, 0x0014];

/// The PID of the CAT, its table_id, and how many bytes stand in front of its descriptors and behind them (ISO/IEC 13818-1, 2.4.4.6).
const CAT_PID: u16 = 0x0001;

const CAT_TABLE_ID: u8 = 0x01;

const CAT_HEADER: usize = 8;

const CRC_LENGTH: usize = 4;

/// Watches the sections of the tables, on the PIDs that they have, and those of the PMTs, and keeps which PIDs tables refer to.
#[derive(Drop)]
pub(crate) struct SectionWatches {
    watches: Vec<SectionWatch>,
    told: Vec<Told>,
    references: References,
}

impl SectionWatches {
    /// No packet was seen of a stream that has these programs. An `Err` is want of memory.
    pub fn new(alloc: Global, programs: &[PatRow]) -> Result<SectionWatches, AllocError> {
        let mut watches = SectionWatches {
            watches: Vec::new(alloc),
            told: Vec::new(alloc),
            references: References::new(alloc)?,
        };
        for pid in TABLE_PIDS {
            watches.add(pid)?;
        }
        for row in programs {
            watches.add(row.pid)?;
        }
        Ok(watches)
    }

    /// Watches a PID, once.
    fn add(&mut self, pid: u16) -> Result<(), AllocError> {
        if self.of(pid).is_none() {
            self.watches.push(SectionWatch::new(pid))?;
        }
        Ok(())
    }

    /// The watch of a PID.
    fn of(&self, pid: u16) -> Option<&SectionWatch> {
        self.watches.iter().find(|watch| watch.pid == pid)
    }

    /// Reads the next packet, of whatever PID. An `Err` is want of memory.
    pub fn push(&mut self, packet: &Packet, place: Place) -> Result<(), AllocError> {
        for watch in self.watches.iter_mut() {
            if watch.pid == packet.pid() {
                watch.push(packet, place, &mut self.told)?;
                break;
            }
        }
        if packet.pid() == CAT_PID {
            self.read_cat();
        }
        Ok(())
    }

    /// Keeps the PIDs of the EMMs that the CAT's sections name among those that were told last.
    fn read_cat(&mut self) {
        for item in self.told.iter() {
            if let Told::Section(section) = item
                && section.first() == Some(&CAT_TABLE_ID)
                && let Some(descriptors) = section.get(
                    CAT_HEADER..section.len().saturating_sub(CRC_LENGTH),
                )
            {
                self.references.add_ca(descriptors);
            }
        }
    }

    /// Keeps the PIDs that the rows of the PAT's sections have; the answer is whether all its programs are among these.
    pub fn add_pat(&mut self, sections: &[Pat], programs: &[PatRow]) -> bool {
        for section in sections {
            for row in section.rows() {
                if row.program_number != 0 && !programs.contains(row) {
                    return false;
                }
                self.references.add_row(row);
            }
        }
        true
    }

    /// Keeps the PIDs that the PMTs of programs refer to; the answer is whether each was found, and there is one.
    pub fn add_programs(&mut self, pmts: &[Option<Pmt>]) -> bool {
        for pmt in pmts {
            let Some(pmt) = pmt else {
                return false;
            };
            self.references.add_program(pmt);
        }
        !pmts.is_empty()
    }

    /// Whether a table that was found refers to a PID, or is sent on it.
    pub fn refers_to(&self, pid: u16) -> bool {
        self.references.has(pid)
    }

    /// Whether a table was found; of PAT, PMT and SDT, which acquisition finds, false.
    pub fn has(&self, kind: TableKind) -> bool {
        self.watches.iter().any(|watch| watch.table == Some(kind))
    }

    /// The sections with a wrong CRC on a PID.
    pub fn wrong_of(&self, pid: u16) -> Occurrences {
        match self.of(pid) {
            Some(watch) => watch.wrong,
            None => Occurrences::new(),
        }
    }
}
