//! Programs that change inside a stream.

use crate::program_change::ProgramChange;
use crate::watched_program::WatchedProgram;
use std::alloc::{AllocError, Global};
use tables::{Header, Pat, Pmt};
use tspkt::{PID_COUNT, Packet, PacketSize};

/// How many programs are watched at most.
const MOST: usize = 64;

/// Watches the PATs and the PMTs of a stream for programs that change. A table is looked at where its one section lies in one packet, and
/// that packet in one piece of the stream: others come again. One whose version stays is taken for the same (ISO/IEC 13818-1, 2.4.4.5 and
/// 2.4.4.9). Without memory for a table it isn't looked at.
#[derive(Drop)]
pub(crate) struct TableWatch {
    alloc: Global,
    size: PacketSize,
    /// Whether the PAT or a PMT comes on a PID.
    has_tables: Vec<bool>,
    /// The version of the newest PAT, if one came.
    pat_version: Option<u8>,
    programs: Vec<WatchedProgram>,
}

/// The section that begins in a packet, where it ends there too.
fn whole_section(packet: &Packet) -> Option<&[u8]> {
    if !packet.unit_start() || packet.scrambling() != 0 {
        return None;
    }
    let (pointer, rest) = packet.payload().split_first()?;
    let section = rest.get(usize::from(*pointer)..)?;
    let length = usize::from(section.get(1)? % 16) * 256 + usize::from(*section.get(2)?);
    section.get(..length + 3)
}

/// The table_id_extension and the version of a section.
fn head_of(section: &[u8]) -> Option<(u16, u8)> {
    let extension = u16::from(*section.get(3)?) * 256 + u16::from(*section.get(4)?);
    Some((extension, *section.get(5)? / 2 % 32))
}

/// Whether a section is the only one of a table that is in force.
fn is_whole_table(header: Header) -> bool {
    header.current_next_indicator && header.last_section_number == 0
}

/// The PID that a PAT names for a program.
fn pid_in(pat: &Pat, program: u16) -> Option<u16> {
    for row in pat.rows() {
        if row.program_number == program {
            return Some(row.pid);
        }
    }
    None
}

impl TableWatch {
    /// One that saw nothing of a stream of this size.
    pub fn new(alloc: Global, size: PacketSize) -> Result<TableWatch, AllocError> {
        let mut has_tables = vec![in alloc; false; PID_COUNT]?;
        has_tables[0] = true;
        Ok(TableWatch {
            alloc,
            size,
            has_tables,
            pat_version: None,
            programs: Vec::new(alloc),
        })
    }

    /// How a program changed first, if it did.
    pub fn change_of(&self, program: u16) -> Option<ProgramChange> {
        for watched in &self.programs {
            if watched.program == program {
                return watched.changed;
            }
        }
        None
    }

    /// A packet of this PID begins this piece, which stands at a position from this packet's first byte to its last.
    #[inline(always)]
    pub fn look(&mut self, pid: u16, position: u64, piece: &[u8]) {
        if self.has_tables.get(usize::from(pid)) == Some(&true) {
            self.look_at(pid, position, piece);
        }
    }

    /// The same of a PID on which tables come.
    #[inline(never)]
    fn look_at(&mut self, pid: u16, position: u64, piece: &[u8]) {
        let Some(bytes) = piece.first_chunk::<188>() else {
            return;
        };
        let Ok(packet) = Packet::read(bytes) else {
            return;
        };
        let Some(section) = whole_section(&packet) else {
            return;
        };
        if self.is_known(pid, section) {
            return;
        }
        let number = position / self.size.stride() as u64;
        if pid != 0 {
            self.see_pmt(pid, section, number);
        } else if let Ok(pat) = Pat::read(self.alloc, section) {
            self.see_pat(&pat, number);
        }
    }

    /// Whether a section on this PID is of the table that came last there.
    fn is_known(&self, pid: u16, section: &[u8]) -> bool {
        let Some((extension, version)) = head_of(section) else {
            return false;
        };
        if pid == 0 {
            return self.pat_version == Some(version);
        }
        for watched in &self.programs {
            if watched.program == extension && watched.has_pmt(pid, version) {
                return true;
            }
        }
        false
    }

    /// A PAT came with this packet.
    fn see_pat(&mut self, pat: &Pat, packet: u64) {
        let header = pat.header();
        if !is_whole_table(header) {
            return;
        }
        self.pat_version = Some(header.version_number);
        for watched in self.programs.iter_mut() {
            watched.see_row(pid_in(pat, watched.program), packet);
        }
        for row in pat.rows() {
            if row.program_number != 0 {
                self.add(row.program_number, row.pid);
            }
        }
    }

    /// A PAT names a program with this PID.
    fn add(&mut self, program: u16, pid: u16) {
        if let Some(has_tables) = self.has_tables.get_mut(usize::from(pid)) {
            *has_tables = true;
        }
        let is_known = self
            .programs
            .iter()
            .any(|watched| watched.program == program);
        if !is_known && self.programs.len() < MOST {
            let _ = self.programs.push(WatchedProgram::new(program, pid));
        }
    }

    /// A section came on a PID that a PAT names, with this packet.
    fn see_pmt(&mut self, pid: u16, section: &[u8], packet: u64) {
        let Ok(pmt) = Pmt::read(self.alloc, section) else {
            return;
        };
        let header = pmt.header();
        if !is_whole_table(header) {
            return;
        }
        for watched in self.programs.iter_mut() {
            if watched.program == header.table_id_extension {
                watched.see_pmt(pid, header.version_number, packet);
            }
        }
    }
}
