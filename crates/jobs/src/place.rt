//! What goes into a packet's place.

/// What goes into one place of a second of a made stream.
#[derive(Clone, Copy, Debug, PartialEq, Eq)]
pub enum Place {
    /// The null packet.
    Null,
    /// The packet of the table with this number: the PAT, the PMTs and the SDT, in this order.
    Table(u8),
    /// A packet of the stream with this number.
    Stream(u8),
    /// The same with a PCR.
    Clock(u8),
}
