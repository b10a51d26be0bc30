//! Writing packets through a buffer.

use crate::sink::Sink;
use crate::writing::write_all;
use std::alloc::{AllocError, Global};
use std::io;
use std::marker::Model;
use tspkt::Packet;

/// The length of a packet, in bytes.
const PACKET: usize = 188;

/// The length of the buffer, in bytes: 348 packets.
const BUFFER: usize = 65_424;

/// Packets on their way to a sink: a buffer that is written where it has no room.
#[derive(Drop)]
pub(crate) struct PacketWriter {
    bytes: Vec<u8>,
    count: usize,
}

impl Model for PacketWriter {
    ghost use Rattle.std.specs.Prelude.{◌≡◌, ◌≤◌, ℕ, List, take, vec_len};

    ghost Value = { List ℕ };

    ghost view = { λ w. take w.count w.bytes.items };

    ghost invariant = { λ w. (vec_len w.bytes ≡ 65424) × (w.count ≤ 65424) };
}

impl PacketWriter {
    ghost use Rattle.std.specs.Prelude.{◌≡◌, ◌≤◌, ◌+◌, ◌++◌, ◌↔◌, List, ℕ, [], length, IsTrue, OnOk, OnErr, IfOk};
    ghost use Rattle.std.specs.Io.KnownBytes.{Appends};
    ghost use Rattle.reading.specs.Failures.{FailsOnce};
    ghost use Rattle.outlet.specs.Written.{Sends, SendsBeginning};

    /// One with nothing in its buffer.
    pub fn new(alloc: Global) -> Result<PacketWriter, AllocError>
        ensures { IfOk result (λ writer. writer ≡ []) }
    {
        Ok(PacketWriter {
            bytes: vec![in alloc; 0; BUFFER]?,
            count: 0,
        })
    }

    /// One more packet. Where the buffer has no room for it, what is in it is written to the sink before. At an `Err`,
    /// which only the sink's failure makes, a beginning of all that was to be written is, and the buffer is empty.
    pub fn put<W: Sink>(&mut self, packet: &Packet, sink: &mut W) -> io::Result<()>
        ensures ok { OnOk result
            (Sends (W.contents sink.old) (W.contents sink.new) (self.old ++ packet.now) self.new) }
        ensures err { OnErr result
            (SendsBeginning (W.contents sink.old) (W.contents sink.new) (self.old ++ packet.now)) }
        ensures room { length self.old + 188 ≤ 65424 → sink.new ≡ sink.old }
        ensures empty { OnErr result (self.new ≡ []) }
        ensures failures { OnOk result (W.failures sink.new ≡ W.failures sink.old) }
        ensures failed { OnErr result (FailsOnce (W.failures sink.old) (W.failures sink.new)) }
    {
        if self.has_room() {
            self.add(packet);
            return Ok(());
        }
        match self.flush(sink) {
            Ok(()) => {
                self.add(packet);
                Ok(())
            }
            Err(e) => Err(e),
        }
    }

    /// Whether there is room for a packet.
    fn has_room(&self) -> bool
        ensures { IsTrue result ↔ (length self.now + 188 ≤ 65424) }
    {
        self.count + PACKET <= BUFFER
    }

    /// One more packet in the buffer.
    fn add(&mut self, packet: &Packet)
        requires { length self.old + 188 ≤ 65424 }
        ensures { self.new ≡ self.old ++ packet.now }
    {
        let end = self.count + PACKET;
        self.bytes.as_mut_slice()[self.count..end].copy_from_slice(packet.bytes());
        self.count = end;
    }

    /// Writes what is in the buffer. At an `Err`, which only the sink's failure makes, a beginning of it is written, and
    /// the buffer is empty.
    pub fn flush<W: Sink>(&mut self, sink: &mut W) -> io::Result<()>
        ensures empty { self.new ≡ [] }
        ensures ok { OnOk result (Appends (W.contents sink.old) (W.contents sink.new) self.old) }
        ensures err { OnErr result (SendsBeginning (W.contents sink.old) (W.contents sink.new) self.old) }
        ensures failures { OnOk result (W.failures sink.new ≡ W.failures sink.old) }
        ensures failed { OnErr result (FailsOnce (W.failures sink.old) (W.failures sink.new)) }
    {
        let count = self.count;
        self.count = 0;
        write_all(sink, &self.bytes[..count])
    }
}
