//! A section of the output.

use crate::table_packets::table_packets;
use std::alloc::{AllocError, Global};
use std::marker::Model;
use tspkt::Packet;

/// A section of a table, of 1 to 1,024 bytes, and the PID that it is sent on.
#[derive(Drop)]
pub struct OutputSection {
    pid: u16,
    bytes: Vec<u8>,
}

impl Model for OutputSection {
    ghost use Rattle.std.specs.Prelude.{◌<◌, ◌≤◌, ◌^◌, length};
    ghost use Rattle.output_tables.specs.OnPid.{SectionOnPid};

    ghost Value = { SectionOnPid };

    ghost view = { λ s. record { pid = s.pid; bytes = s.bytes.items } };

    ghost invariant = { λ s. (s.pid < 2 ^ 13) × (0 < length s.bytes.items) × (length s.bytes.items ≤ 1024) };
}

impl OutputSection {
    ghost use Rattle.std.specs.Prelude.{◌≡◌, ◌<◌, ◌≤◌, ◌^◌, ◌++◌, length, IfOk};
    ghost use Rattle.std.specs.List.{All};
    ghost use Rattle.tspkt.specs.Packet.{IsPacket};
    ghost use Rattle.output_tables.specs.OnPid.{packets_on_pid};

    /// The section of these bytes on this PID.
    pub fn new(pid: u16, bytes: Vec<u8>) -> OutputSection
        requires pid { pid < 2 ^ 13 }
        requires some { 0 < length bytes.items }
        requires whole { length bytes.items ≤ 1024 }
        ensures { result ≡ record { pid = pid; bytes = bytes.items } }
    {
        OutputSection { pid, bytes }
    }

    /// An equal section. It fails only for want of memory.
    pub fn copy(&self, alloc: Global) -> Result<OutputSection, AllocError>
        ensures { IfOk result (λ copy. copy ≡ self.now) }
    {
        let bytes = Vec::from_slice(alloc, &self.bytes)?;
        Ok(OutputSection {
            pid: self.pid,
            bytes,
        })
    }

    /// Puts its packets behind others. It fails only for want of memory.
    pub fn push_packets(&self, alloc: Global, packets: &mut Vec<Packet>) -> Result<(), AllocError>
        ensures value { IfOk result (λ _. packets.new.items ≡ packets.old.items ++ packets_on_pid self.now) }
        ensures whole { IfOk result (λ _. All IsPacket (packets_on_pid self.now)) }
    {
        let own = table_packets(alloc, self.pid, &self.bytes)?;
        packets.extend_from_slice(&own)?;
        Ok(())
    }
}
