//! Makes the rings.

ghost use Rattle.std.specs.Prelude.{◌≡◌, length, IfOk};
ghost use Rattle.port.specs.Rings.{IsNewRing, AreNewRings};

use crate::nothing_after_end::NothingAfterEnd;
use crate::port::Port;
use crate::ring_end::RingEnd;
use crate::ring_reader::RingReader;
use rtrb::RingBuffer;
use std::alloc::{AllocError, Global};

/// The ring of an input, with room for so many packets, the end mark among them: its port and its end. `Err` is want of memory.
pub fn ring(alloc: Global, input: usize, capacity: usize) -> Result<(Port, RingEnd), AllocError>
    ensures { IfOk result (λ r. IsNewRing input r.0 r.1) }
{
    let (producer, consumer) = RingBuffer::with_protocol::<Global, NothingAfterEnd>(
        alloc, capacity,
    )?;
    Ok((
        Port { input, producer },
        RingEnd {
            reader: RingReader::new(input, consumer),
            is_shown: false,
            is_ended: false,
        },
    ))
}

/// The ports and the ends of so many rings, one an input, each with room for so many packets, the end mark among them.
/// `Err` is want of memory.
pub fn ports(
    alloc: Global,
    inputs: usize,
    capacity: usize,
) -> Result<(Vec<Port>, Vec<RingEnd>), AllocError>
    ensures { IfOk result (λ r. AreNewRings inputs r.0.items r.1.items) }
{
    let mut ports = Vec::new(alloc);
    let mut ends = Vec::new(alloc);
    for input in 0..inputs {
        let (port, end) = ring(alloc, input, capacity)?;
        ports.push(port)?;
        ends.push(end)?;
    }
    Ok((ports, ends))
}
