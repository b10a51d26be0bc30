//! Packets of a schedule's streams, counted as their input is read.

use schedule::Schedule;
use std::alloc::{AllocError, Global};
use tspkt::{Framer, Item, MAX_LIMIT, Packet, PacketSize};

/// Packets that were found in a piece of an input.
#[derive(Clone, Copy)]
pub(crate) struct Counted {
    pub count: u64,
    /// The place of the last one, in bytes.
    pub last: u64,
}

/// Counts the packets of the streams that the plans of a schedule take of an input.
#[derive(Drop)]
pub(crate) struct StreamCounter {
    framer: Framer,
    items: Vec<Item>,
    /// The PIDs of these streams in the input.
    pids: Vec<u16>,
}

impl StreamCounter {
    /// That of the input with this number, whose stream has this size, and of which nothing was read.
    pub fn new(
        alloc: Global,
        schedule: &Schedule,
        number: usize,
        size: PacketSize,
    ) -> Result<StreamCounter, AllocError> {
        let mut pids = Vec::new(alloc);
        for stream in schedule.streams() {
            if stream.input == number {
                pids.push(stream.pid)?;
            }
        }
        Ok(StreamCounter {
            framer: Framer::with_size(size, MAX_LIMIT),
            items: Vec::new(alloc),
            pids,
        })
    }

    /// The packets of the streams that are found with the next piece; none where there are none, and behind want of memory.
    pub fn count(&mut self, piece: &[u8]) -> Option<Counted> {
        self.items.clear();
        self.framer.feed(piece, &mut self.items).ok()?;
        let mut found = None;
        let mut count = 0u64;
        for item in &self.items {
            if let Item::Packet(place, bytes) = item
                && self.pids.contains(&Packet::pid_in(bytes))
                && Packet::fault(bytes).is_none()
            {
                count = count.saturating_add(1);
                found = Some(Counted {
                    count,
                    last: *place,
                });
            }
        }
        found
    }
}
