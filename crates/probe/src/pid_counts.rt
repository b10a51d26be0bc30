//! Packets, counted by their PIDs.

use crate::pid_count::PidCount;
use crate::sighting::Sighting;
use past::Past;
use std::alloc::{AllocError, Global};
use std::marker::Model;
use tspkt::PID_COUNT;

/// How many packets of a stream a window has.
pub(crate) const WINDOW: u64 = 512;

/// Packets, counted by their PIDs. Contracts see what was seen of all of them, newest first.
#[derive(Drop)]
pub(crate) struct PidCounts {
    past: Past<Sighting>,
    packets: u64,
    counts: Vec<PidCount>,
}

impl Model for PidCounts {
    ghost use Rattle.std.specs.Prelude.{List};
    ghost use Rattle.probe.specs.declared.sighting.Sighting.{Sighting as SeenPacket};
    ghost use Rattle.probe.specs.Counting.{AreCounts};

    ghost Value = { List SeenPacket };

    ghost view = { λ c. c.past };

    ghost invariant = { λ c. AreCounts c.past c.packets c.counts.items };
}

impl PidCounts {
    ghost use Rattle.std.specs.Prelude.{◌≡◌, ◌<◌, ◌∷◌, [], length, IfOk};
    ghost use Rattle.rate_meter.specs.Line.{within_64};
    ghost use Rattle.probe.specs.Counts.{IsCountOf};

    /// No packet was seen.
    pub fn new(alloc: Global) -> Result<PidCounts, AllocError>
        ensures { IfOk result (λ c. c ≡ []) }
    {
        Ok(PidCounts {
            past: Past::new(),
            packets: 0,
            counts: vec![in alloc; PidCount::new(); PID_COUNT]?,
        })
    }

    /// Counts a packet.
    pub fn add(&mut self, sighting: Sighting)
        ensures { self.new ≡ sighting ∷ self.old }
    {
        let window = self.packets / WINDOW;
        let place = usize::from(sighting.pid);
        if place < PID_COUNT {
            self.counts[place] = self.counts[place].with(window, sighting);
        }
        self.packets = self.packets.saturating_add(1);
        self.past.add(sighting);
    }

    /// How many packets were seen.
    pub fn packets(&self) -> u64
        ensures { result ≡ within_64 (length self.now) }
    {
        self.packets
    }

    /// What is counted of a PID, 0 to 0x1FFF.
    pub fn of(&self, pid: u16) -> PidCount
        requires { pid < 8192 }
        ensures { IsCountOf pid self.now result }
    {
        self.counts[usize::from(pid)]
    }
}
