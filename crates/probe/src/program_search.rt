//! The programs of a stream.

ghost use Rattle.std.specs.Prelude.{◌≡◌, ◌++◌, IfOk, OnOk};
ghost use Rattle.probe.specs.Programs.{programs_of, rows_of};

use acquire::Acquire;
use std::alloc::{AllocError, Global};
use std::marker::Model;
use tables::{Pat, PatRow};
use tspkt::Packet;

/// Finds the programs of a stream: those of its first complete PAT (ISO/IEC 13818-1, 2.4.4.3). Contracts see what acquisition, which
/// is asked for no program, has seen.
#[derive(Drop)]
pub struct ProgramSearch {
    alloc: Global,
    acquire: Acquire,
}

impl Model for ProgramSearch {
    ghost use Rattle.acquire.specs.Seen.{AcquireState};

    ghost Value = { AcquireState };

    ghost view = { λ s. s.acquire };
}

/// Adds the programs of some rows.
fn push_programs(programs: &mut Vec<PatRow>, rows: &[PatRow]) -> Result<(), AllocError>
    ensures { OnOk result (programs.new.items ≡ programs.old.items ++ programs_of rows.now) }
{
    for row in rows {
        if row.program_number != 0 {
            programs.push(*row)?;
        }
    }
    Ok(())
}

/// The programs of a PAT's sections.
fn programs_in(alloc: Global, sections: &[Pat]) -> Result<Vec<PatRow>, AllocError>
    ensures { IfOk result (λ programs. programs.items ≡ programs_of (rows_of sections.now)) }
{
    let mut programs = Vec::new(alloc);
    for section in sections {
        push_programs(&mut programs, section.rows())?;
    }
    Ok(programs)
}

impl ProgramSearch {
    ghost use Rattle.std.specs.Prelude.{◌≡◌, ℕ, List, [], IfOk, OnOk, is_some};
    ghost use Rattle.acquire.specs.Findings.{pat_found};
    ghost use Rattle.acquire.specs.Seen.{HasSeen, Sees};
    ghost use Rattle.probe.specs.Programs.{programs_among};

    /// One that has seen no packet. An `Err` is want of memory.
    pub fn new(alloc: Global) -> Result<ProgramSearch, AllocError>
        ensures { IfOk result (λ search. HasSeen [] search []) }
    {
        Ok(ProgramSearch {
            alloc,
            acquire: Acquire::new(alloc, &[])?,
        })
    }

    /// Reads the next packet, of whatever PID, and answers whether the PAT is complete. An `Err` is want of memory, and from then on the
    /// answer.
    pub fn push(&mut self, packet: &Packet) -> Result<bool, AllocError>
        ensures seen { OnOk result (Sees self.old packet.now self.new) }
        ensures found { IfOk result (λ found. (packets : List (List ℕ)) → HasSeen [] self.new packets
            → found ≡ is_some (pat_found packets)) }
    {
        self.acquire.push(packet)?;
        Ok(self.acquire.pat().is_some())
    }

    /// The programs of the PAT, in its order; none where no PAT was complete. An `Err` is want of memory.
    pub fn programs(&self) -> Result<Vec<PatRow>, AllocError>
        ensures { IfOk result (λ programs. (packets : List (List ℕ)) → HasSeen [] self.now packets
            → programs.items ≡ programs_among packets) }
    {
        match self.acquire.pat() {
            Some(sections) => programs_in(self.alloc, sections),
            None => Ok(Vec::new(self.alloc)),
        }
    }
}
