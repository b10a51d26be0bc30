//! What is kept of the sections of one PID, where only the PMTs among them are read.

use crate::unread_section::UnreadSection;
use section::{Assembler, Told};
use std::alloc::{AllocError, Global};
use tspkt::Packet;

/// What is kept of the sections of one PID, where only the PMTs among them are read.
#[derive(Drop)]
pub(crate) enum PmtAssembly {
    /// No section is begun, and none began in the last packet.
    Between,
    /// A section is begun, and it is no PMT.
    Unread(UnreadSection),
    /// All sections are read, since one that is a PMT began, or one whose end stands in the packet in which it began.
    Read(Box<Assembler>),
}

impl PmtAssembly {
    ghost use Rattle.std.specs.Prelude.{◌≡◌, [], true, false, IfOk, OnOk};
    ghost use Rattle.tspkt.specs.Packet.{has_payload_of, payload_unit_start_indicator_of};
    ghost use Rattle.section.specs.Assembled.{AssemblerState, packet_told};
    ghost use Rattle.analyse.specs.ToldPmts.{pmts_in};
    ghost use Rattle.analyse.specs.UnreadSections.{IsReadAnew, IsReadAsFirst};
    ghost use Rattle.analyse.specs.PmtAssembling.{StandsFor};
    ghost use Rattle.analyse.specs.Quiet.{LeavesAssembly};

    /// Reads the next packet of the PID, and leaves in `told` what tells its PMTs. An `Err` is want of memory.
    #[inline(always)]
    pub fn push(
        &mut self,
        alloc: Global,
        packet: &Packet,
        told: &mut Vec<Told>,
    ) -> Result<(), AllocError>
        ensures seen { OnOk result ((s : AssemblerState) → StandsFor self.old s
            → StandsFor self.new (packet_told s packet.now).state) }
        ensures told { OnOk result ((s : AssemblerState) → StandsFor self.old s
            → pmts_in told.new.items ≡ pmts_in (packet_told s packet.now).told) }
    {
        told.clear();
        if !packet.has_payload() {
            return Ok(());
        }
        if self.goes_on(packet, told)? {
            return Ok(());
        }
        if packet.unit_start() {
            return self.begin(alloc, packet, told);
        }
        self.rest();
        Ok(())
    }

    /// Reads the packet where it goes on with what was begun; if not, it is still to be read.
    #[inline(always)]
    fn goes_on(&mut self, packet: &Packet, told: &mut Vec<Told>) -> Result<bool, AllocError>
        requires payload { has_payload_of packet.now ≡ true }
        requires told { told.old.items ≡ [] }
        ensures seen { IfOk result (λ on. on ≡ true → (s : AssemblerState) → StandsFor self.old s
            → StandsFor self.new (packet_told s packet.now).state) }
        ensures told { IfOk result (λ on. on ≡ true → (s : AssemblerState) → StandsFor self.old s
            → pmts_in told.new.items ≡ pmts_in (packet_told s packet.now).told) }
        ensures none { IfOk result (λ on. on ≡ false → told.new.items ≡ []) }
        ensures anew { IfOk result (λ on. on ≡ false → (s : AssemblerState) → StandsFor self.old s
            → IsReadAnew s packet.now) }
    {
        match self {
            PmtAssembly::Between => Ok(false),
            PmtAssembly::Unread(section) => Ok(section.push(packet)),
            PmtAssembly::Read(assembler) => {
                if !assembler.has_begun() && !packet.unit_start() {
                    return Ok(false);
                }
                assembler.push(packet, told)?;
                Ok(true)
            }
        }
    }

    /// Reads a packet in which a section can begin, as if it were the first.
    #[inline(never)]
    fn begin(
        &mut self,
        alloc: Global,
        packet: &Packet,
        told: &mut Vec<Told>,
    ) -> Result<(), AllocError>
        requires payload { has_payload_of packet.now ≡ true }
        requires start { payload_unit_start_indicator_of packet.now ≡ true }
        requires told { told.old.items ≡ [] }
        ensures seen { OnOk result ((s : AssemblerState) → IsReadAsFirst s packet.now
            → StandsFor self.new (packet_told s packet.now).state) }
        ensures told { OnOk result ((s : AssemblerState) → IsReadAsFirst s packet.now
            → pmts_in told.new.items ≡ pmts_in (packet_told s packet.now).told) }
    {
        if let Some(section) = UnreadSection::begun_by(packet) {
            *self = PmtAssembly::Unread(section);
            return Ok(());
        }
        let mut assembler = Box::new(alloc, Assembler::new())?;
        assembler.push(packet, told)?;
        *self = PmtAssembly::Read(assembler);
        Ok(())
    }

    /// Whether the packet tells nothing and leaves all as it is: nothing is begun, and no section begins in it.
    #[inline(always)]
    pub fn rests(&self, packet: &Packet) -> bool
        ensures { result ≡ true → (s : AssemblerState) → StandsFor self.now s → LeavesAssembly self.now s packet.now }
    {
        match self {
            PmtAssembly::Between => !packet.unit_start(),
            _ => false,
        }
    }

    /// No section is begun.
    #[inline(always)]
    fn rest(&mut self)
        ensures { self.new ≡ PmtAssembly.Between }
    {
        if !matches!(self, PmtAssembly::Between) {
            *self = PmtAssembly::Between;
        }
    }
}
