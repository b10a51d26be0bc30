//! What was found in a stream.

use crate::pid_survey::PidSurvey;
use crate::table_kind::TableKind;
use acquire::Found;
use rate_meter::Measured;
use tables::{PatRow, Pmt, PmtRow, SdtRow, has_ca_descriptor};
use tspkt::{NULL_PID, PacketSize};

/// What was found in a stream.
#[derive(Drop)]
pub struct Survey {
    /// The size at which it was read.
    pub size: PacketSize,
    /// How many packets it has.
    pub packets: u64,
    /// Its rate, all its bytes counted, by the PID that has the most PCRs; none where no PID has two.
    pub measured: Option<Measured>,
    /// The tables that it has.
    pub tables: Vec<TableKind>,
    /// The programs of its PAT, in its order.
    pub programs: Vec<PatRow>,
    /// Their PMTs, in their order, and the SDT.
    pub found: Found,
    /// The PIDs that have packets, in their order.
    pub pids: Vec<PidSurvey>,
}

impl Survey {
    /// The PMT of the program at this place.
    pub fn pmt(&self, place: usize) -> Option<&Pmt> {
        self.found.pmts.get(place)?.as_ref()
    }

    /// Takes the PMT of a program out, that of the first row of the PAT with this number.
    pub fn take_pmt(&mut self, program: u16) -> Option<Pmt> {
        let place = self
            .programs
            .iter()
            .position(|row| row.program_number == program)?;
        self.found.pmts.get_mut(place)?.take()
    }

    /// The first row of the SDT with this number.
    pub fn row(&self, program: u16) -> Option<&SdtRow> {
        let sections = self.found.sdt.as_ref()?;
        sections
            .iter()
            .flat_map(|section| section.rows())
            .find(|row| row.service_id == program)
    }

    /// What was found of a PID; none where it has no packet.
    pub fn pid(&self, pid: u16) -> Option<&PidSurvey> {
        self.pids.iter().find(|survey| survey.pid == pid)
    }

    /// Whether packets of a PID are scrambled.
    fn has_scrambled(&self, pid: u16) -> bool {
        self.pid(pid).is_some_and(|found| found.scrambled.count > 0)
    }

    /// Whether the stream of a row of a PMT is scrambled: it has a CA descriptor, or some of its packets are scrambled.
    pub fn is_scrambled_stream(&self, row: &PmtRow) -> bool {
        has_ca_descriptor(&row.descriptors) || self.has_scrambled(row.elementary_pid)
    }

    /// Whether the program with this PMT and this row of the SDT is scrambled, or may be: it has a CA descriptor or free_CA_mode, or one
    /// of its streams is scrambled.
    pub fn is_scrambled(&self, pmt: &Pmt, row: Option<&SdtRow>) -> bool {
        row.is_some_and(|row| row.free_ca_mode)
            || has_ca_descriptor(pmt.program_info())
            || (pmt.pcr_pid() != NULL_PID && self.has_scrambled(pmt.pcr_pid()))
            || pmt.rows().iter().any(|row| self.is_scrambled_stream(row))
    }
}
