//! The gate of a worker in a run.

ghost use Rattle.std.specs.Prelude.{◌≡◌};

use std::alloc::Global;
use std::sync::Arc;
use std::sync::atomic::{AtomicBool, Ordering};
use worker::{Gate, Point};

/// The gate that a worker was given, which is asked first, and whether the run is over. It says no where either does.
#[derive(Drop)]
pub struct RunGate<G> {
    pub(crate) given: G,
    is_over: Arc<AtomicBool, Global>,
    stops: u64,
}

impl<G: Gate> RunGate<G> {
    /// One that said no to nothing yet.
    pub(crate) fn new(given: G, is_over: Arc<AtomicBool, Global>) -> RunGate<G>
        ensures { result.given ≡ given }
    {
        RunGate {
            given,
            is_over,
            stops: 0,
        }
    }
}

impl<G: Gate> Gate for RunGate<G> {
    ghost stops = { λ g. g.stops };

    fn pass(&mut self, at: Point) -> bool {
        let passes = self.given.pass(at) && !self.is_over.load(Ordering::SeqCst);
        if !passes {
            self.stops = self.stops.saturating_add(1);
        }
        passes
    }
}
