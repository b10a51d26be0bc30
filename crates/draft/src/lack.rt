//! Why a file or a service is left out.

use std::fmt;
use std::fmt::{Display, Formatter};

/// Why a file or one of its services is left out of a plan.
#[derive(Clone, Copy, Debug, PartialEq, Eq)]
pub enum Lack {
    /// No PID of the file has two PCRs with no packet missing between, so that its rate isn't known.
    NoRate,
    /// Its rate is none that an input may have: so many bits a second.
    RateOutOfRange(u64),
    /// It has no program.
    NoProgram,
    /// The PMT of the service was not found.
    NoPmt,
    /// The SDT has no row of it, or one without a service descriptor whose lengths fill it.
    NoRow,
    /// It is scrambled, or may be.
    Scrambled,
    /// It has a stream on this PID, which no plan may name.
    BadPid(u16),
    /// The plan has no room for it: it has as many inputs, services or streams as it may, or as fit into its rate.
    NoRoom,
}

impl Display for Lack {
    fn fmt<W: fmt::Write>(&self, f: &mut Formatter<W>) -> fmt::Result {
        match self {
            Lack::NoRate => f.write_str(
                "its rate isn't known: fewer than two PCRs were found with no packet missing between",
            ),
            Lack::RateOutOfRange(rate) => write!(
                f,
                "it runs at {rate} bits a second; an input has 500000 to 100000000"
            ),
            Lack::NoProgram => f.write_str("it has no program"),
            Lack::NoPmt => f.write_str("its PMT was not found"),
            Lack::NoRow => f.write_str("the SDT has no row that describes it"),
            Lack::Scrambled => f.write_str("it is scrambled"),
            Lack::BadPid(pid) => write!(
                f,
                "it has a stream on PID 0x{pid:04X}; a plan names 0x0020 to 0x1FFE"
            ),
            Lack::NoRoom => f.write_str("the plan has no room for it"),
        }
    }
}
