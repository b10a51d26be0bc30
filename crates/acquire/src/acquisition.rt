//! Acquisition, packet by packet.

use crate::found::Found;
use crate::program_finder::ProgramFinder;
use crate::table_finder::TableFinder;
use section::Told;
use std::alloc::{AllocError, Global};
use std::marker::Model;
use tables::{Pat, Sdt};
use tspkt::Packet;

/// The PID of the SDT (EN 300 468, 5.1.3).
const SDT_PID: u16 = 0x0011;

/// Finds the tables of programs in the packets of an input, which are pushed in the order in which
/// they come: the first complete PAT, behind it the first current PMT of each program on the PID
/// that the PAT gives it, and the first complete SDT (ISO/IEC 13818-1, 2.4.4; EN 300 468, 5.1.3;
/// which of their sections count is profile). Scrambled packets are passed over.
///
/// Contracts say by `HasSeen` which packets were pushed.
#[derive(Drop)]
pub struct Acquire {
    alloc: Global,
    programs: ProgramFinder,
    sdt: TableFinder<Sdt>,
    told: Vec<Told>,
    is_refused: bool,
}

impl Model for Acquire {
    ghost use Rattle.acquire.specs.Seen.{AcquireState};

    ghost Value = { AcquireState };

    ghost view = { λ a. record { programs = a.programs; sdt = a.sdt; is_refused = a.is_refused } };
}

impl Acquire {
    ghost use Rattle.std.specs.Prelude.{◌≡◌, [], true, false, option_map, IfOk, OnOk, OnErr, Err, alloc_error};
    ghost use Rattle.acquire.specs.Seen.{HasSeen, Sees, TellsAllFound, TellsPat, IsFound, FindsNothing, knows_all};

    /// One that has seen no packet, for these programs, by program_number. Of 0, which is no program's number, no PMT
    /// is found. An `Err` is want of memory.
    pub fn new(alloc: Global, programs: &[u16]) -> Result<Acquire, AllocError>
        ensures seen { IfOk result (λ acquire. HasSeen programs.now acquire []) }
        ensures is_refused { IfOk result (λ acquire. acquire.is_refused ≡ false) }
    {
        Ok(Acquire {
            alloc,
            programs: ProgramFinder::new(alloc, programs)?,
            sdt: TableFinder::new(alloc, SDT_PID),
            told: Vec::new(alloc),
            is_refused: false,
        })
    }

    /// Reads the next packet.
    fn read(&mut self, packet: &Packet) -> Result<(), AllocError>
        ensures seen { OnOk result (Sees self.old packet.now self.new) }
        ensures is_refused { self.new.is_refused ≡ self.old.is_refused }
    {
        self.programs.push(self.alloc, packet, &mut self.told)?;
        self.sdt.push(self.alloc, packet, &mut self.told)
    }

    /// Whether all that is wanted was found.
    fn is_all_found(&self) -> bool
        ensures { result ≡ knows_all self.now }
    {
        self.programs.is_empty() || (self.programs.is_found() && self.sdt.is_found())
    }

    /// Reads the next packet, of whatever PID, and answers whether all that is wanted was found:
    /// the PMT of each program and the SDT, or nothing where no program is named.
    ///
    /// An `Err` is want of memory, and what was found is forgotten. From then on the answer is `Err`, and no further packet is
    /// read.
    pub fn push(&mut self, packet: &Packet) -> Result<bool, AllocError>
        ensures seen { OnOk result (Sees self.old packet.now self.new) }
        ensures all_found { IfOk result (TellsAllFound self.old packet.now) }
        ensures refused { OnErr result (self.new.is_refused ≡ true) }
        ensures forgotten { OnErr result (self.old.is_refused ≡ false → FindsNothing self.new) }
        ensures not_refused { OnOk result (self.new.is_refused ≡ false) }
        ensures stays_refused { self.old.is_refused ≡ true →
            (result ≡ Err alloc_error) × (self.new ≡ self.old) }
    {
        if self.is_refused {
            return Err(AllocError);
        }
        match self.read(packet) {
            Ok(()) => Ok(self.is_all_found()),
            Err(e) => {
                self.is_refused = true;
                self.programs.forget();
                self.sdt.forget();
                Err(e)
            }
        }
    }

    /// The sections of the first complete PAT in the order of their numbers, lent, once it was complete; none where a push was
    /// refused.
    pub fn pat(&self) -> Option<&Vec<Pat>>
        ensures pat { TellsPat self.now (option_map (λ sections. sections.now.items) result) }
        ensures kept { option_map (λ sections. sections.now.items) result ≡ self.now.programs.pat.table.found }
    {
        self.programs.pat()
    }

    /// What was found in the packets that were pushed; nothing where a push was refused. It takes no memory.
    pub fn found(self) -> Found
        ensures found { IsFound self result }
        ensures pmts { result.pmts.items ≡ self.programs.found.items }
        ensures sdt { option_map (λ sections. sections.items) result.sdt ≡ self.sdt.table.found }
    {
        Found {
            pmts: self.programs.into_found(),
            sdt: self.sdt.into_found(),
        }
    }
}
