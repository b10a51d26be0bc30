//! Clocks by their PIDs.

use crate::clock::Clock;
use crate::reading::Reading;

/// The clock of a PID.
#[derive(Drop)]
pub struct PidClock {
    pub pid: u16,
    pub clock: Clock,
}

impl PidClock {
    ghost use Rattle.std.specs.Prelude.{◌≡◌};
    ghost use Rattle.rate_meter.specs.Meter.{clock_behind};

    /// Gets a reading, if it is of its PID.
    pub(crate) fn read(&mut self, pid: u16, reading: Reading)
        ensures { self.new ≡ clock_behind pid reading self.old }
    {
        if self.pid == pid {
            self.clock.add(reading);
        }
    }
}
