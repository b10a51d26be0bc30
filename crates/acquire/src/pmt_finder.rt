//! The first PMT of a program.

ghost use Rattle.std.specs.Prelude.{◌≡◌, IfOk, option_to_list, find};
ghost use Rattle.tables.specs.Pmt.{pmt_of};
ghost use Rattle.tables.specs.OnPid.{value_of};
ghost use Rattle.acquire.specs.Seen.{pmts_in, is_pmt_of};

use section::Told;
use std::alloc::{AllocError, Global};
use tables::{Pmt, SectionReader, TableFault};
use tspkt::Packet;

/// Finds the first current PMT of a program on the PID that the PAT gives it (ISO/IEC 13818-1,
/// 2.4.4.8). Its PID is read from the PAT on until the PMT is found.
#[derive(Drop)]
pub struct PmtFinder {
    program: u16,
    reader: Option<SectionReader>,
}

/// The PMT in the bytes, where it is a current one of the program. An `Err` is want of memory.
fn read_pmt(alloc: Global, program: u16, bytes: &[u8]) -> Result<Option<Pmt>, AllocError>
    ensures { IfOk result (λ pmt.
        pmt ≡ find (is_pmt_of program) (option_to_list (value_of (pmt_of bytes.now)))) }
{
    match Pmt::read(alloc, bytes) {
        Ok(pmt) => {
            let header = pmt.header();
            if header.current_next_indicator && header.table_id_extension == program {
                return Ok(Some(pmt));
            }
            Ok(None)
        }
        Err(TableFault::Memory) => Err(AllocError),
        Err(_) => Ok(None),
    }
}

/// The first current PMT of the program among what was told. An `Err` is want of memory.
fn first_pmt(alloc: Global, program: u16, told: &[Told]) -> Result<Option<Pmt>, AllocError>
    ensures { IfOk result (λ pmt. pmt ≡ find (is_pmt_of program) (pmts_in told.now)) }
{
    for item in told {
        if let Told::Section(bytes) = item {
            if let Some(pmt) = read_pmt(alloc, program, bytes.as_slice())? {
                return Ok(Some(pmt));
            }
        }
    }
    Ok(None)
}

impl PmtFinder {
    ghost use Rattle.std.specs.Prelude.{◌≡◌, [], None, IfOk, OnOk};
    ghost use Rattle.acquire.specs.Seen.{pmt_finder_on, pmt_finder_behind, pmt_told};

    /// One of a program for which no PID is known.
    pub fn new(program: u16) -> PmtFinder
        ensures { result ≡ pmt_finder_on program None [] }
    {
        PmtFinder {
            program,
            reader: None,
        }
    }

    /// Begins to read on this PID; on none where the program has no PMT.
    pub fn begin(&mut self, pid: Option<u16>)
        ensures { self.new ≡ pmt_finder_on self.old.program pid [] }
    {
        self.reader = pid.map(SectionReader::new);
    }

    /// The program_number.
    pub fn program(&self) -> u16
        ensures { result ≡ self.now.program }
    {
        self.program
    }

    /// Reads the next packet, of whatever PID, and answers the PMT where the packet completes it;
    /// `told` is room for what it tells. Behind the PMT it reads nothing. An `Err` is want of
    /// memory.
    pub fn push(
        &mut self,
        alloc: Global,
        packet: &Packet,
        told: &mut Vec<Told>,
    ) -> Result<Option<Pmt>, AllocError>
        ensures pmt { IfOk result (λ pmt. pmt ≡ pmt_told packet.now self.old) }
        ensures state { OnOk result (self.new ≡ pmt_finder_behind packet.now self.old) }
    {
        let Some(reader) = &mut self.reader else {
            return Ok(None);
        };
        reader.push(packet, told)?;
        let pmt = first_pmt(alloc, self.program, told)?;
        if pmt.is_some() {
            self.reader = None;
        }
        Ok(pmt)
    }
}
