//! A gate that never says no.

use crate::gate::Gate;
use crate::point::Point;

/// A gate that never says no: an input is read to its end, unless the run ends before.
#[derive(Clone, Copy)]
pub struct OpenGate;

impl Gate for OpenGate {
    ghost stops = { λ g. 0 };

    fn pass(&mut self, _at: Point) -> bool {
        true
    }
}
