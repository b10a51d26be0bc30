//! Packets, counted by their PIDs.

use crate::deviation::part_rate;
use crate::seen::Seen;
use past::Past;
use std::alloc::{AllocError, Global};
use std::marker::Model;
use tspkt::PID_COUNT;

/// Packets that were seen, counted by their PIDs. Contracts see the list of all of them, newest first.
#[derive(Drop)]
pub(crate) struct PidCounts {
    past: Past<Seen>,
    packets: u64,
    counts: Vec<u64>,
}

impl Model for PidCounts {
    ghost use Rattle.std.specs.Prelude.{List};
    ghost use Rattle.rate_meter.specs.declared.seen.Seen.{Seen as SeenPacket};
    ghost use Rattle.rate_meter.specs.Meter.{AreCounts};

    ghost Value = { List SeenPacket };

    ghost view = { λ c. c.past };

    ghost invariant = { λ c. AreCounts c.past c.packets c.counts.items };
}

impl PidCounts {
    ghost use Rattle.std.specs.Prelude.{◌≡◌, ◌<◌, ◌∷◌, [], length, IfOk};
    ghost use Rattle.rate_meter.specs.Line.{within_64};
    ghost use Rattle.rate_meter.specs.Meter.{packets_of, pid_rate_of};

    /// No packet was seen.
    pub fn new(alloc: Global) -> Result<PidCounts, AllocError>
        ensures { IfOk result (λ c. c ≡ []) }
    {
        Ok(PidCounts {
            past: Past::new(),
            packets: 0,
            counts: vec![in alloc; 0; PID_COUNT]?,
        })
    }

    /// Counts a packet.
    #[inline(always)]
    pub fn add(&mut self, seen: Seen)
        ensures { self.new ≡ seen ∷ self.old }
    {
        let place = usize::from(seen.pid);
        if place < PID_COUNT {
            self.counts[place] = self.counts[place].saturating_add(1);
        }
        self.packets = self.packets.saturating_add(1);
        self.past.add(seen);
    }

    /// How many packets were seen.
    pub fn packets(&self) -> u64
        ensures { result ≡ within_64 (length self.now) }
    {
        self.packets
    }

    /// How many packets a PID had, 0 to 0x1FFF.
    pub fn of(&self, pid: u16) -> u64
        requires { pid < 8192 }
        ensures { result ≡ within_64 (packets_of pid self.now) }
    {
        self.counts[usize::from(pid)]
    }

    /// The rate of a PID, 0 to 0x1FFF, in a stream of this rate, in its unit: rounded to the nearest; 0 where no packet was seen.
    pub fn rate(&self, rate: u64, pid: u16) -> u64
        ensures { pid < 8192 → result ≡ pid_rate_of rate pid self.now }
    {
        let place = usize::from(pid);
        if self.packets == 0 || place >= PID_COUNT {
            return 0;
        }
        part_rate(rate, self.counts[place], self.packets)
    }
}
