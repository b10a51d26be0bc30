//! Why 188 bytes are no packet.

use thiserror::Error;

/// The first thing in which 188 bytes miss the layout of a packet, in the order of the variants
/// (ISO/IEC 13818-1, 2.4.3.2 and 2.4.3.4).
#[derive(Clone, Copy, Debug, PartialEq, Eq, Error)]
pub enum Malformed {
    /// The sync byte is not 0x47.
    #[error("the sync byte is not 0x47")]
    BadSync,
    /// The adaptation field control is 00, which is reserved.
    #[error("the adaptation field control is reserved")]
    ReservedControl,
    /// The adaptation field's length does not fit its control bits, or the PCR does not fit into it.
    #[error("the adaptation field does not fit")]
    BadAdaptation,
}
