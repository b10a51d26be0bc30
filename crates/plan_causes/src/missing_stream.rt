//! A stream without a row.

use std::fmt;
use std::fmt::{Display, Formatter};

/// A PID that a program's PMT names, and none of the service's rows.
#[derive(Clone, Copy, Debug, PartialEq, Eq)]
pub enum MissingStream {
    /// That of an elementary stream.
    Elementary {
        /// elementary_PID in the input.
        pid: u16,
        /// 8 bits.
        stream_type: u8,
    },
    /// PCR_PID in the input, not 0x1FFF.
    Pcr(u16),
}

impl Display for MissingStream {
    fn fmt<W: fmt::Write>(&self, f: &mut Formatter<W>) -> fmt::Result {
        match self {
            MissingStream::Elementary { pid, stream_type } => {
                write!(f, "PID 0x{pid:04X} (stream type 0x{stream_type:02X})")
            }
            MissingStream::Pcr(pid) => write!(f, "PID 0x{pid:04X} for the PCR"),
        }
    }
}
