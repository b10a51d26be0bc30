//! The PMTs of programs, behind the PAT.

ghost use Rattle.std.specs.Prelude.{◌≡◌, vec_len};

use crate::pmt_finder::PmtFinder;
use crate::pmt_finders::{begin_pmts, forget_pmts, new_finders, new_places, push_pmts};
use crate::table_finder::TableFinder;
use section::Told;
use std::alloc::{AllocError, Global};
use tables::{Pat, Pmt};
use tspkt::Packet;

/// The PID of the PAT (ISO/IEC 13818-1, 2.4.4.3).
const PAT_PID: u16 = 0x0000;

/// Finds the PMTs of programs: first the complete PAT, and behind it each PMT on the PID that the
/// PAT gives it (ISO/IEC 13818-1, 2.4.4). All room for what is found is taken at the beginning.
#[derive(Drop)]
pub struct ProgramFinder {
    pat: TableFinder<Pat>,
    finders: Vec<PmtFinder>,
    found: Vec<Option<Pmt>>,
    ghost one_place_each: { vec_len finders ≡ vec_len found },
}

impl ProgramFinder {
    ghost use Rattle.std.specs.Prelude.{◌≡◌, [], ◌==◌, None, length, option_map, IfOk, OnOk};
    ghost use Rattle.std.specs.List.{All};
    ghost use Rattle.acquire.specs.Findings.{all_some};
    ghost use Rattle.acquire.specs.Seen.{HasSoughtPrograms, ProgramsSee};

    /// One that has seen no packet. An `Err` is want of memory.
    pub fn new(alloc: Global, programs: &[u16]) -> Result<ProgramFinder, AllocError>
        ensures { IfOk result (λ finder. HasSoughtPrograms programs.now finder []) }
    {
        let finders = new_finders(alloc, programs)?;
        let found = new_places(alloc, programs)?;
        Ok(ProgramFinder {
            pat: TableFinder::new(alloc, PAT_PID),
            finders,
            found,
        })
    }

    /// Whether there is no program.
    pub fn is_empty(&self) -> bool
        ensures { result ≡ (length self.now.found.items == 0) }
    {
        self.found.is_empty()
    }

    /// Whether the PMT of each program was found.
    pub fn is_found(&self) -> bool
        ensures { result ≡ all_some self.now.found.items }
    {
        for pmt in self.found.iter() {
            if pmt.is_none() {
                return false;
            }
        }
        true
    }

    /// The sections of the first complete PAT in the order of their numbers, once it was complete.
    pub fn pat(&self) -> Option<&Vec<Pat>>
        ensures { option_map (λ sections. sections.now.items) result ≡ self.now.pat.table.found }
    {
        self.pat.found()
    }

    /// Forgets the PAT and the PMTs, where they were found.
    pub fn forget(&mut self)
        ensures pmts { All (λ pmt. pmt ≡ None) self.new.found.items }
        ensures pat { self.new.pat.table.found ≡ None }
    {
        self.pat.forget();
        forget_pmts(&mut self.found);
    }

    /// The PMT of each program, in their order, where it was found.
    pub fn into_found(self) -> Vec<Option<Pmt>>
        ensures { result.items ≡ self.found.items }
    {
        self.found
    }

    /// Reads the next packet, of whatever PID; `told` is room for what it tells. An `Err` is want
    /// of memory.
    pub fn push(
        &mut self,
        alloc: Global,
        packet: &Packet,
        told: &mut Vec<Told>,
    ) -> Result<(), AllocError>
        ensures { OnOk result (ProgramsSee self.old packet.now self.new) }
    {
        if self.pat.is_found() {
            push_pmts(&mut self.finders, &mut self.found, alloc, packet, told)?;
            return Ok(());
        }
        self.pat.push(alloc, packet, told)?;
        if let Some(pats) = self.pat.found() {
            begin_pmts(&mut self.finders, pats.as_slice());
        }
        Ok(())
    }
}
