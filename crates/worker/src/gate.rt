//! What may stop a worker.

use crate::point::Point;

/// Says whether a worker may go on. It counts how often it said no, so that a stop is told only where there was one.
pub trait Gate {
    ghost use Rattle.std.specs.Prelude.{ℕ, ◌≡◌, MatchBool};
    ghost use Rattle.worker.specs.Stops.{StopsOnce};

    // How often it said no, up to the largest number of 64 bits.
    ghost stops: { Self → ℕ };

    /// Whether the worker may go on from this point. It may also make the worker wait.
    fn pass(&mut self, at: Point) -> bool
        ensures { MatchBool result (stops self.new ≡ stops self.old)
            (StopsOnce (stops self.old) (stops self.new)) };
}
