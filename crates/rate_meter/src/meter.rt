//! What measures a stream.

ghost use Rattle.std.specs.Prelude.{◌≡◌, IfOk};
ghost use Rattle.rate_meter.specs.Meter.{new_meter, shown_piece};
ghost use Rattle.rate_meter.specs.Steps.{Shown};

use crate::measured::Measured;
use crate::program_change::ProgramChange;
use std::alloc::{AllocError, Global};
use tspkt::PacketSize;

/// What is shown the bytes of a stream while they are read, and says its rate. `RateMeter` is one. What holds a meter and goes to
/// another thread is generic in it, so that nobody has to look through all that a `RateMeter` holds to see that it may.
pub trait Meter {
    // where the stream stands, and which packets were found
    ghost shown: { Self → Shown };

    /// One that was shown nothing of a stream of this size.
    fn new(alloc: Global, size: PacketSize) -> Result<Self, AllocError>
        ensures { IfOk result (λ m. shown m ≡ (new_meter size).shown) };

    /// The stream goes on with this piece. One that would pass 140,737,488,355,328 bytes isn't looked at.
    fn show(&mut self, piece: &[u8])
        ensures { shown self.new ≡ shown_piece piece.now (shown self.old) };

    /// What the clock with the most points says, of those that say a rate; none where no clock does.
    fn measured(&self) -> Option<Measured>;

    /// The highest rate of a second by the clock of a PID, in bits a second, 0 where no second is over; none where it has no clock.
    fn fastest(&self, pid: u16) -> Option<u64>;

    /// The rate of a PID, 0 to 0x1FFF, where the stream runs at this rate, in its unit.
    fn pid_rate(&self, rate: u64, pid: u16) -> u64;

    /// How a program of the stream's PAT changed first, if it did.
    fn change_of(&self, program: u16) -> Option<ProgramChange>;

    /// How many packets of a PID, 0 to 0x1FFF, are scrambled.
    fn scrambled_of(&self, pid: u16) -> u64;
}
