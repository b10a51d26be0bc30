//! The packets of a table's section.

ghost use Rattle.std.specs.Prelude.{◌≡◌, ◌<◌, ◌≤◌, ◌^◌, length, IfOk};
ghost use Rattle.std.specs.List.{All};
ghost use Rattle.tspkt.specs.Packet.{IsPacket};
ghost use Rattle.output_tables.specs.Output.{table_packets};

use section::packets_of;
use std::alloc::{AllocError, Global};
use tspkt::Packet;

/// The byte with the continuity counter (ISO/IEC 13818-1, 2.4.3.2).
const COUNTER_PLACE: usize = 3;

/// Not scrambled, payload only, and the counter 0.
const PLAIN_WITH_COUNTER_0: u8 = 0x10;

/// The packets of a section of 1 to 1,024 bytes on a PID, each with the counter 0. It fails only for want of memory.
pub fn table_packets(alloc: Global, pid: u16, section: &[u8]) -> Result<Vec<Packet>, AllocError>
    requires some { 0 < length section.now }
    requires whole { length section.now ≤ 1024 }
    requires pid { pid < 2 ^ 13 }
    ensures value { IfOk result (λ v. v.items ≡ table_packets pid section.now) }
    ensures whole { IfOk result (λ v. All IsPacket v.items) }
{
    let counted = packets_of(alloc, section, pid, 0)?;
    let mut packets = Vec::with_capacity(alloc, counted.len())?;
    for packet in &counted {
        packet.known();
        let mut bytes = *packet.bytes();
        bytes[COUNTER_PLACE] = PLAIN_WITH_COUNTER_0;
        let uncounted = Packet::read(&bytes).unwrap();
        uncounted.known();
        packets.push_reserved(uncounted);
    }
    Ok(packets)
}
