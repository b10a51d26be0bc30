//! The packets of a PID.

/// A PID, and the counter of its next packet.
#[derive(Clone, Copy, Debug)]
pub struct Lane {
    pid: u16,
    counter: u8,
}

impl Lane {
    /// That of a PID, at this counter.
    pub fn new(pid: u16, counter: u8) -> Lane {
        Lane {
            pid,
            counter: counter % 16,
        }
    }

    /// Leaves out so many counters.
    pub fn jump(&mut self, by: u8) {
        self.counter = self.counter.wrapping_add(by) % 16;
    }

    /// The header of the next packet, with the bits that say what follows it.
    pub fn header(&mut self, control: u8) -> [u8; 4] {
        let [high, low] = self.pid.to_be_bytes();
        let last = control | self.counter;
        self.counter = self.counter.wrapping_add(1) % 16;
        [0x47, high, low, last]
    }
}
