//! What an assembler tells.

use arrayvec::ArrayVec;

/// What the packets of one PID tell.
#[derive(Debug, PartialEq, Eq, Drop)]
pub enum Told {
    /// A whole section whose CRC is right, with its CRC: section_length + 3 bytes.
    Section(ArrayVec<u8, 1024>),
    /// A whole section whose CRC is wrong.
    BadCrc,
    /// A section that was begun, with a section_length above 1,021 bytes.
    TooLong,
    /// A section that was begun and given up before its end.
    Cut,
}
