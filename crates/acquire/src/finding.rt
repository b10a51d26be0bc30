//! What a list of packets tells.

ghost use Rattle.std.specs.Prelude.{◌≡◌, IfOk};
ghost use Rattle.acquire.specs.Findings.{findings};
ghost use Rattle.acquire.specs.Seen.{findings_of};

use crate::acquisition::Acquire;
use crate::found::Found;
use std::alloc::{AllocError, Global};
use tspkt::Packet;

/// The tables of programs, by program_number, that are found in the packets of an input, pushed one by one. Of 0, which
/// is no program's number, no PMT is found. It is refused only for want of memory.
pub fn find_tables(alloc: Global, programs: &[u16], packets: &[Packet]) -> Result<Found, AllocError>
    ensures { IfOk result (λ found. findings_of found ≡ findings programs.now packets.now) }
{
    let mut acquire = Acquire::new(alloc, programs)?;
    for packet in packets {
        acquire.push(packet)?;
    }
    Ok(acquire.found())
}
