//! A program that a PAT names.

use crate::program_change::{Change, ProgramChange};

/// A program, as the newest tables have it, and how it changed first, if it did.
#[derive(Clone, Copy)]
pub(crate) struct WatchedProgram {
    pub program: u16,
    /// The PID of its PMT.
    pid: u16,
    /// The version of its PMT, where one came.
    version: Option<u8>,
    pub changed: Option<ProgramChange>,
}

impl WatchedProgram {
    /// One that a PAT names with this PID.
    pub fn new(program: u16, pid: u16) -> WatchedProgram {
        WatchedProgram {
            program,
            pid,
            version: None,
            changed: None,
        }
    }

    /// Whether its newest PMT has this version and came on this PID.
    pub fn has_pmt(&self, pid: u16, version: u8) -> bool {
        self.pid == pid && self.version == Some(version)
    }

    /// It changed at this packet.
    fn change(&mut self, change: Change, packet: u64) {
        if self.changed.is_none() {
            self.changed = Some(ProgramChange { change, packet });
        }
    }

    /// A PAT came with this packet, which names this PID for it, or has no row of it.
    pub fn see_row(&mut self, pid: Option<u16>, packet: u64) {
        match pid {
            None => self.change(Change::Left, packet),
            Some(pid) if pid != self.pid => {
                self.change(Change::Moved, packet);
                self.pid = pid;
                self.version = None;
            }
            Some(_) => {}
        }
    }

    /// A PMT of this version came with this packet on a PID.
    pub fn see_pmt(&mut self, pid: u16, version: u8, packet: u64) {
        if pid != self.pid {
            return;
        }
        if let Some(before) = self.version
            && before != version
        {
            self.change(Change::Pmt, packet);
        }
        self.version = Some(version);
    }
}
