//! The analysis of a stream whose packets are found where they are.

ghost use Rattle.std.specs.Prelude.{◌≡◌, [], IfOk, OnOk};

use crate::stream_analysis::{PACKET, StreamAnalysis};
use files::CommandFault;
use reading::{PIECE, Source, Stop, StreamReader};
use std::alloc::Global;
use std::io::Write;
use tspkt::Item;

/// A slot that is no packet, for one whose sync byte is bad.
const NO_PACKET: [u8; PACKET] = [0; PACKET];

/// The most bytes of a stream that is framed: 2^47.
const MOST_BYTES: u64 = 1 << 47;

impl StreamAnalysis {
    /// Analyses the slot that begins at this byte, and prints what is found in it.
    fn take_slot<O: Write>(
        &mut self,
        alloc: Global,
        slot: &[u8; PACKET],
        byte: u64,
        out: &mut O,
    ) -> Result<(), CommandFault> {
        self.analyser.push(slot, &mut self.found)?;
        self.slots = self.slots.saturating_add(1);
        self.count(slot.as_slice())?;
        if self.found.is_empty() {
            return Ok(());
        }
        self.print_found(alloc, Some(byte), out)
    }

    /// Analyses what framing tells next: a packet, or one or two slots that are none.
    fn take_item<O: Write>(
        &mut self,
        alloc: Global,
        item: &Item,
        out: &mut O,
    ) -> Result<(), CommandFault> {
        match item {
            Item::Packet(byte, bytes) => self.take_slot(alloc, bytes, *byte, out),
            Item::Bad(byte) => self.take_slot(alloc, &NO_PACKET, *byte, out),
            Item::SyncLoss(byte) => {
                let second = byte.saturating_add(self.size.stride() as u64);
                self.take_slot(alloc, &NO_PACKET, *byte, out)?;
                self.take_slot(alloc, &NO_PACKET, second, out)
            }
            Item::Lost(count) => {
                self.lost = self.lost.saturating_add(*count);
                Ok(())
            }
        }
    }

    /// Analyses what framing has told.
    fn take_told<R: Source, O: Write>(
        &mut self,
        alloc: Global,
        stream: &mut StreamReader<R>,
        out: &mut O,
    ) -> Result<(), CommandFault>
        ensures none { OnOk result (stream.new.items.ahead ≡ []) }
        ensures stays { stream.new ≡ record stream.old {
          items = record stream.old.items { ahead = stream.new.items.ahead };
        } }
    {
        while let Some(item) = stream.peek() {
            self.take_item(alloc, item, out)?;
            stream.pass();
        }
        Ok(())
    }

    /// Reads the stream to its end as `read` does, but finds its packets where they are, as a run does: a bad sync byte is a slot, the two bad
    /// ones that lose sync are two, and the bytes that are in no packet belong to none and are counted. What was read from comes back. The answer is
    /// the number of faults, or why the stream is read no further before its end.
    pub fn read_framed<R: Source + Drop, O: Write>(
        &mut self,
        alloc: Global,
        source: R,
        out: &mut O,
    ) -> Result<(R, Result<u64, Stop>), CommandFault>
        ensures { IfOk result (λ ended. IfOk ended.1 (λ faults. faults ≡ self.new.faults)) }
    {
        self.begin(alloc, out)?;
        let mut piece = vec![in alloc; 0; PIECE]?;
        let mut stream = StreamReader::new(alloc, self.size, source, MOST_BYTES);
        loop {
            self.take_told(alloc, &mut stream, out)?;
            if stream.is_over() {
                self.print_end(alloc, self.lost, out)?;
                return Ok((stream.into_source(), Ok(self.faults)));
            }
            if let Err(stop) = stream.read(piece.as_mut_slice()) {
                return Ok((stream.into_source(), Err(stop)));
            }
        }
    }
}
