//! What a list of packets tells.

ghost use Rattle.std.specs.Prelude.{◌≡◌, IfOk, All};
ghost use Rattle.section.specs.Assembled.{assembled};
ghost use Rattle.section.specs.Found.{IsFoundIfSection};

use crate::assembler::Assembler;
use crate::told::Told;
use std::alloc::{AllocError, Global};
use tspkt::Packet;

/// What the packets of one PID tell a new assembler, pushed one by one.
///
/// Each section among it was an unbroken run of bytes in the packets, pointer fields left out, has
/// the length that it says, and a right CRC. It is refused only for want of memory.
pub fn assemble(alloc: Global, packets: &[Packet]) -> Result<Vec<Told>, AllocError>
    ensures told { IfOk result (λ told. told.items ≡ assembled packets.now) }
    ensures found { IfOk result (λ told. All (IsFoundIfSection packets.now) told.items) }
{
    let mut assembler = Assembler::new();
    let mut told = Vec::new(alloc);
    for packet in packets {
        assembler.push(packet, &mut told)?;
    }
    Ok(told)
}
