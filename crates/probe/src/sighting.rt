//! What is seen of a packet.

use crate::place::Place;

/// What is counted of a packet.
#[derive(Clone, Copy, Debug, PartialEq, Eq)]
pub(crate) struct Sighting {
    /// Its PID, 0 to 0x1FFF.
    pub pid: u16,
    /// Whether its transport_scrambling_control isn't 0.
    pub is_scrambled: bool,
    /// Its transport_error_indicator: a demodulator couldn't mend it.
    pub has_error: bool,
    pub place: Place,
}
