//! What is counted of a PID.

use crate::occurrences::Occurrences;
use crate::sighting::Sighting;

/// What is counted of the packets of a PID.
#[derive(Clone, Copy, Debug, PartialEq, Eq)]
pub(crate) struct PidCount {
    /// How many there are, and the first of them.
    pub all: Occurrences,
    /// How many of them are scrambled, and the first of these.
    pub scrambled: Occurrences,
    /// How many of them have the transport_error_indicator, and the first of these.
    pub errors: Occurrences,
    /// The most that a window of the stream has. Windows are 512 packets of all PIDs, one behind the other.
    pub highest: u64,
    /// The window of the newest one, from 0.
    window: u64,
    /// How many that window has.
    in_window: u64,
}

impl PidCount {
    ghost use Rattle.std.specs.Prelude.{◌≡◌, ℕ, List, [], ◌∷◌};
    ghost use Rattle.probe.specs.declared.sighting.Sighting.{Sighting as SeenPacket};
    ghost use Rattle.probe.specs.Counts.{window_behind};
    ghost use Rattle.probe.specs.Counting.{IsKeptCount};

    /// That of a PID that has no packets.
    pub fn new() -> PidCount
        ensures { (pid : ℕ) → IsKeptCount pid [] result }
    {
        PidCount {
            all: Occurrences::new(),
            scrambled: Occurrences::new(),
            errors: Occurrences::new(),
            highest: 0,
            window: 0,
            in_window: 0,
        }
    }

    /// The count with one more packet of its PID, in this window of the stream.
    pub fn with(self, window: u64, sighting: Sighting) -> PidCount
        ensures { (seen : List SeenPacket) → window ≡ window_behind seen → IsKeptCount sighting.pid seen self
            → IsKeptCount sighting.pid (sighting ∷ seen) result }
    {
        let before = if window == self.window {
            self.in_window
        } else {
            0
        };
        let in_window = before.saturating_add(1);
        PidCount {
            all: self.all.with(true, sighting.place),
            scrambled: self.scrambled.with(sighting.is_scrambled, sighting.place),
            errors: self.errors.with(sighting.has_error, sighting.place),
            highest: self.highest.max(in_window),
            window,
            in_window,
        }
    }
}
