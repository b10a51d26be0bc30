//! The sections of one PID.

use section::{Assembler, Told};
use std::alloc::AllocError;
use std::marker::Model;
use tspkt::Packet;

/// Reads the sections of one PID packet by packet (ISO/IEC 13818-1, 2.4.4). Scrambled packets are passed over.
#[derive(Drop)]
pub struct SectionReader {
    pid: u16,
    assembler: Assembler,
}

impl Model for SectionReader {
    ghost use Rattle.tables.specs.SectionReading.{ReaderState};

    ghost Value = { ReaderState };

    ghost view = { λ r. record { pid = r.pid; assembler = r.assembler } };
}

impl SectionReader {
    ghost use Rattle.std.specs.Prelude.{◌≡◌, [], OnOk};
    ghost use Rattle.tables.specs.SectionReading.{reader_on, reader_step, reader_behind};

    /// A reader of a PID that has seen no packet.
    pub fn new(pid: u16) -> SectionReader
        ensures { result ≡ reader_on pid [] }
    {
        SectionReader {
            pid,
            assembler: Assembler::new(),
        }
    }

    /// Reads the next packet, of whatever PID, and leaves in `told` what it tells. An `Err` is want of memory.
    #[inline(always)]
    pub fn push(&mut self, packet: &Packet, told: &mut Vec<Told>) -> Result<(), AllocError>
        ensures state { OnOk result (self.new ≡ reader_behind self.old packet.now) }
        ensures told { OnOk result (told.new.items ≡ (reader_step self.old packet.now).told) }
    {
        told.clear();
        if packet.pid() != self.pid || packet.scrambling() != 0 {
            return Ok(());
        }
        self.assembler.push(packet, told)
    }
}
