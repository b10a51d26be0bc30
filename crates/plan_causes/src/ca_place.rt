//! Where a service is scrambled.

use std::fmt;
use std::fmt::{Display, Formatter};

/// What says that a service is scrambled, or may be.
#[derive(Clone, Copy, Debug, PartialEq, Eq)]
pub enum CaPlace {
    /// A CA descriptor of the program.
    Program,
    /// A CA descriptor of the elementary stream with this PID in the input.
    Stream(u16),
    /// free_CA_mode in the service's row of the SDT.
    FreeCaMode,
}

impl Display for CaPlace {
    fn fmt<W: fmt::Write>(&self, f: &mut Formatter<W>) -> fmt::Result {
        match self {
            CaPlace::Program => f.write_str("its PMT has a CA descriptor of the program"),
            CaPlace::Stream(pid) => write!(f, "its PMT has a CA descriptor of PID 0x{pid:04X}"),
            CaPlace::FreeCaMode => f.write_str("free_CA_mode is 1 in its row of the SDT"),
        }
    }
}
