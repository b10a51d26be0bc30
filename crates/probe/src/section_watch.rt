//! The sections of a PID.

use crate::occurrences::Occurrences;
use crate::place::Place;
use crate::table_kind::{TableKind, table_of};
use section::{Assembler, Told};
use std::alloc::AllocError;
use tspkt::Packet;

/// The PID of the TDT, whose sections have no CRC (EN 300 468, 5.1.3).
const TDT_PID: u16 = 0x0014;

/// Watches the sections of a PID: whether a table is found there, and which have a wrong CRC (ETSI TR 101 290, 2.2). Scrambled packets
/// are passed over.
#[derive(Drop)]
pub(crate) struct SectionWatch {
    pub pid: u16,
    /// The table that was found, if one was.
    pub table: Option<TableKind>,
    /// Sections with a wrong CRC, at the packets in which they end.
    pub wrong: Occurrences,
    assembler: Assembler,
}

/// The table_id of the first section that begins in a packet.
fn begun_table_id(packet: &Packet) -> Option<u8> {
    if !packet.unit_start() {
        return None;
    }
    let (pointer, rest) = packet.payload().split_first()?;
    rest.get(usize::from(*pointer)).copied()
}

/// The table whose section begins in a packet of this PID.
fn begun_table(pid: u16, packet: &Packet) -> Option<TableKind> {
    table_of(pid, begun_table_id(packet)?)
}

impl SectionWatch {
    /// One that has seen no packet.
    pub fn new(pid: u16) -> SectionWatch {
        SectionWatch {
            pid,
            table: None,
            wrong: Occurrences::new(),
            assembler: Assembler::new(),
        }
    }

    /// Reads the next packet of the PID; `told` is room for what it tells. An `Err` is want of memory.
    pub fn push(
        &mut self,
        packet: &Packet,
        place: Place,
        told: &mut Vec<Told>,
    ) -> Result<(), AllocError> {
        if packet.scrambling() != 0 {
            return Ok(());
        }
        self.table = self.table.or(begun_table(self.pid, packet));
        if self.pid == TDT_PID {
            return Ok(());
        }
        told.clear();
        self.assembler.push(packet, told)?;
        for item in told.iter() {
            self.wrong = self.wrong.with(matches!(item, Told::BadCrc), place);
        }
        Ok(())
    }
}
