//! The levels of transport buffers.

ghost use Rattle.std.specs.Prelude.{◌≤◌};

use crate::buffer_level::BufferLevel;
use std::alloc::{AllocError, Global};
use tspkt::{PID_COUNT, Packet};

/// What stands for no place.
const NONE: u8 = 0xFF;

/// The levels of the transport buffers of some PIDs of a stream.
#[derive(Drop)]
pub struct Levels {
    levels: Vec<BufferLevel>,
    /// The place of each PID's level.
    places: Vec<u8>,
    /// How many slots were seen.
    slots: u64,
}

impl Levels {
    /// Those of these PIDs, each with its leak, in a stream of this rate, both in bits a second. Of a PID that stands twice the first leak
    /// counts, and from the 256th PID on none is seen. `Err` is want of memory.
    pub fn new(alloc: Global, leaks: &[(u16, u64)], rate: u64) -> Result<Levels, AllocError> {
        let mut levels = Vec::new(alloc);
        let mut places = vec![in alloc; NONE; PID_COUNT]?;
        for (pid, leak) in leaks {
            if levels.len() < usize::from(NONE)
                && let Some(place) = places.get_mut(usize::from(*pid))
                && *place == NONE
            {
                *place = levels.len() as u8;
                levels.push(BufferLevel::new(*pid, *leak, rate))?;
            }
        }
        Ok(Levels {
            levels,
            places,
            slots: 0,
        })
    }

    /// The next slots come, each at the beginning of so many bytes.
    pub fn see(&mut self, slots: &[u8], stride: usize)
        requires { 1 ≤ stride }
    {
        for chunk in slots.chunks(stride) {
            if let Some(slot) = chunk.first_chunk::<188>() {
                let _ = self.take(slot);
            }
        }
    }

    /// The next slot comes. The answer is the level of its PID behind it, in bytes, rounded up, where that is followed.
    pub fn take(&mut self, slot: &[u8; 188]) -> Option<u64> {
        let number = self.slots;
        self.slots = self.slots.saturating_add(1);
        if Packet::fault(slot).is_some() {
            return None;
        }
        let place = self.places.get(usize::from(Packet::pid_in(slot)))?;
        let level = self.levels.get_mut(usize::from(*place))?;
        Some(level.see(number))
    }

    /// The levels, in the order of the PIDs that were named.
    pub fn all(&self) -> &[BufferLevel] {
        &self.levels
    }
}
