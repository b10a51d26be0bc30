//! The PMTs of several programs.

ghost use Rattle.std.specs.Prelude.{◌≡◌, [], None, map, length, IfOk, OnOk};
ghost use Rattle.std.specs.List.{flat_map};
ghost use Rattle.tables.specs.Pat.{PatValue};
ghost use Rattle.acquire.specs.Findings.{pmt_pid_of};
ghost use Rattle.acquire.specs.Seen.{pmt_finder_on, pmt_finder_begun, pmt_finder_behind, places_behind};

use crate::pmt_finder::PmtFinder;
use section::Told;
use std::alloc::{AllocError, Global};
use tables::{Pat, PatRow, Pmt};
use tspkt::Packet;

/// The PID of the first row of the program. A row with program_number 0 names the network's PID, and no program.
fn pid_in(rows: &[PatRow], program: u16) -> Option<u16>
    ensures { result ≡ pmt_pid_of program rows.now }
{
    for row in rows {
        if row.program_number != 0 && row.program_number == program {
            return Some(row.pid);
        }
    }
    None
}

/// The PID of the first row of the program in the sections of a PAT.
fn pmt_pid(pats: &[Pat], program: u16) -> Option<u16>
    ensures { result ≡ pmt_pid_of program (flat_map (λ (p : PatValue). p.rows) pats.now) }
{
    for pat in pats {
        if let Some(pid) = pid_in(pat.rows(), program) {
            return Some(pid);
        }
    }
    None
}

/// A finder for each program. An `Err` is want of memory.
pub fn new_finders(alloc: Global, programs: &[u16]) -> Result<Vec<PmtFinder>, AllocError>
    ensures { IfOk result (λ finders.
        finders.items ≡ map (λ program. pmt_finder_on program None []) programs.now) }
{
    programs
        .iter()
        .map(|program| PmtFinder::new(*program))
        .collect(alloc)
}

/// A place for the PMT of each program. An `Err` is want of memory.
pub fn new_places(alloc: Global, programs: &[u16]) -> Result<Vec<Option<Pmt>>, AllocError>
    ensures { IfOk result (λ found. found.items ≡ map (λ _. None) programs.now) }
{
    programs.iter().map(|_| None).collect(alloc)
}

/// Each begins to read on the PID that the PAT gives its program.
pub fn begin_pmts(finders: &mut Vec<PmtFinder>, pats: &[Pat])
    ensures { finders.new.items
        ≡ map (pmt_finder_begun (flat_map (λ (p : PatValue). p.rows) pats.now)) finders.old.items }
{
    for finder in finders.iter_mut() {
        let pid = pmt_pid(pats, finder.program());
        finder.begin(pid);
    }
}

/// Forgets each PMT that was found.
pub fn forget_pmts(found: &mut Vec<Option<Pmt>>)
    ensures { found.new.items ≡ map (λ pmt. None) found.old.items }
{
    for pmt in found.iter_mut() {
        *pmt = None;
    }
}

/// Each reads the packet, and the PMT that one finds comes to its place. An `Err` is want of
/// memory.
pub fn push_pmts(
    finders: &mut [PmtFinder],
    found: &mut [Option<Pmt>],
    alloc: Global,
    packet: &Packet,
    told: &mut Vec<Told>,
) -> Result<(), AllocError>
    requires { length finders.old ≡ length found.old }
    ensures finders { OnOk result (finders.new ≡ map (pmt_finder_behind packet.now) finders.old) }
    ensures found { OnOk result (found.new ≡ places_behind packet.now finders.old found.old) }
{
    for (i, finder) in finders.iter_mut().enumerate() {
        if let Some(pmt) = finder.push(alloc, packet, told)? {
            found[i] = Some(pmt);
        }
    }
    Ok(())
}
