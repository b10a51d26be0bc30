//! The continuity counters of the PIDs.

ghost use Rattle.std.specs.Prelude.{◌≡◌, ◌<◌, ℕ, replicate, slice_index, IfOk};
ghost use Rattle.mux.specs.PidCounters.{counted};

use std::alloc::{AllocError, Global};
use std::marker::Model;
use tspkt::PID_COUNT;

/// For each PID the continuity counter that its next packet gets, 0 to 15.
#[derive(Drop)]
pub(crate) struct PidCounters {
    next: Vec<u8>,
}

impl Model for PidCounters {
    ghost use Rattle.tspkt.specs.declared.packet.TheConstants.{PID_COUNT};
    ghost use Rattle.std.specs.Prelude.{ℕ, List, ◌≡◌, ◌<◌, length, All};

    ghost Value = { List ℕ };

    ghost view = { λ c. c.next.items };

    ghost invariant = { λ c. (length c.next.items ≡ PID_COUNT) × All (λ n. n < 16) c.next.items };
}

impl PidCounters {
    /// All counters are 0.
    pub fn new(alloc: Global) -> Result<PidCounters, AllocError>
        ensures { IfOk result (λ c. c ≡ replicate PID_COUNT 0) }
    {
        Ok(PidCounters {
            next: vec![in alloc; 0; PID_COUNT]?,
        })
    }

    /// The counter that the next packet of a PID gets.
    pub fn next(&self, pid: u16) -> u8
        requires { pid < PID_COUNT }
        ensures value { result ≡ slice_index self.now pid }
        ensures within { result < 16 }
    {
        self.next[usize::from(pid)]
    }

    /// A packet of this PID goes out.
    pub fn count(&mut self, pid: u16)
        requires { pid < PID_COUNT }
        ensures { self.new ≡ counted self.old pid }
    {
        let next = &mut self.next[usize::from(pid)];
        *next = (*next + 1) % 16;
    }
}
