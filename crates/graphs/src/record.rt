//! What is kept of a run for its picture.

use crate::kinds::Kinds;
use levels::Levels;
use schedule::Schedule;
use std::alloc::{AllocError, Global};
use tspkt::Packet;

/// How many pieces of equal length a picture has at most.
pub(crate) const PIECES: usize = 480;

/// What is kept of a run for its picture: of each piece of it how many packets each kind has, and the highest level of the transport buffers
/// of its PIDs. Where the run gets longer than all pieces are, two become one, so it takes as much memory however long it is.
#[derive(Drop)]
pub struct Record {
    kinds: Kinds,
    levels: Levels,
    rate: u64,
    slots: u64,
    /// How many slots a piece has.
    width: u64,
    /// By piece, and in it by kind.
    packets: Vec<u64>,
    /// In bytes, by piece, and in it by kind.
    highest: Vec<u64>,
}

impl Record {
    /// That of a run of this schedule, of which nothing went out. `Err` is want of memory.
    pub fn new(alloc: Global, schedule: &Schedule) -> Result<Record, AllocError> {
        let mut leaks = Vec::new(alloc);
        for stream in schedule.streams() {
            leaks.push((stream.output_pid, stream.leak))?;
        }
        let rate = schedule.plan(0).rate();
        let kinds = Kinds::of(alloc, schedule)?;
        let places = PIECES.saturating_mul(kinds.count());
        Ok(Record {
            kinds,
            levels: Levels::new(alloc, &leaks, rate)?,
            rate,
            slots: 0,
            width: 1,
            packets: vec![in alloc; 0; places]?,
            highest: vec![in alloc; 0; places]?,
        })
    }

    /// The next slot went out.
    pub fn see(&mut self, slot: &[u8; 188]) {
        if self.piece() >= PIECES {
            self.fold();
        }
        let piece = self.piece();
        let level = self.levels.take(slot);
        self.slots = self.slots.saturating_add(1);
        let Some(kind) = self.kinds.kind(Packet::pid_in(slot)) else {
            return;
        };
        let place = self.place(piece, kind);
        if let Some(packets) = self.packets.get_mut(place) {
            *packets = packets.saturating_add(1);
        }
        if let (Some(level), Some(highest)) = (level, self.highest.get_mut(place)) {
            *highest = level.max(*highest);
        }
    }

    /// The piece of the next slot.
    fn piece(&self) -> usize {
        self.slots.checked_div(self.width).unwrap_or(0) as usize
    }

    /// Each two pieces become one.
    fn fold(&mut self) {
        self.width = self.width.saturating_mul(2);
        for piece in 0..PIECES {
            for kind in 0..self.kinds.count() {
                let (first, second) = (
                    piece.saturating_mul(2),
                    piece.saturating_mul(2).saturating_add(1),
                );
                let packets = self
                    .packets_of(first, kind)
                    .saturating_add(self.packets_of(second, kind));
                let highest = self
                    .highest_of(first, kind)
                    .max(self.highest_of(second, kind));
                let place = self.place(piece, kind);
                if let Some(kept) = self.packets.get_mut(place) {
                    *kept = packets;
                }
                if let Some(kept) = self.highest.get_mut(place) {
                    *kept = highest;
                }
            }
        }
    }

    /// Where a kind stands in a piece.
    fn place(&self, piece: usize, kind: usize) -> usize {
        piece
            .saturating_mul(self.kinds.count())
            .saturating_add(kind)
    }

    /// How many packets a kind has in a piece; 0 behind the last piece.
    pub(crate) fn packets_of(&self, piece: usize, kind: usize) -> u64 {
        self.packets
            .get(self.place(piece, kind))
            .copied()
            .unwrap_or(0)
    }

    /// The highest level of a kind's transport buffers in a piece, in bytes; 0 behind the last piece.
    pub(crate) fn highest_of(&self, piece: usize, kind: usize) -> u64 {
        self.highest
            .get(self.place(piece, kind))
            .copied()
            .unwrap_or(0)
    }

    /// How many pieces there are.
    pub(crate) fn pieces(&self) -> usize {
        let whole = self.slots.saturating_add(self.width).saturating_sub(1);
        (whole.checked_div(self.width).unwrap_or(0) as usize).min(PIECES)
    }

    /// How many slots stand in front of a piece.
    pub(crate) fn slots_before(&self, piece: usize) -> u64 {
        (piece as u64).saturating_mul(self.width).min(self.slots)
    }

    /// How many slots a piece has, of which the last one may have fewer than the others.
    pub(crate) fn slots_in(&self, piece: usize) -> u64 {
        self.slots
            .saturating_sub(self.slots_before(piece))
            .min(self.width)
    }

    /// The rate of the multiplex, in bits a second.
    pub(crate) fn rate(&self) -> u64 {
        self.rate
    }

    /// How many slots went out.
    pub(crate) fn slots(&self) -> u64 {
        self.slots
    }

    /// What the packets are for.
    pub(crate) fn kinds(&self) -> &Kinds {
        &self.kinds
    }
}
