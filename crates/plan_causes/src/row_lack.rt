//! What is lacking of a service's row.

use std::fmt;
use std::fmt::{Display, Formatter};

/// Why a service isn't described in its input.
#[derive(Clone, Copy, Debug, PartialEq, Eq)]
pub enum RowLack {
    /// The input has no complete SDT.
    NoSdt,
    /// Its SDT has no row of the service.
    NoRow,
    /// The first row of the service has no service descriptor whose lengths fill it.
    NoDescriptor,
}

impl Display for RowLack {
    fn fmt<W: fmt::Write>(&self, f: &mut Formatter<W>) -> fmt::Result {
        f.write_str(match self {
            RowLack::NoSdt => "the input has no complete SDT",
            RowLack::NoRow => "the input's SDT has no row of it",
            RowLack::NoDescriptor => {
                "its row of the input's SDT has no service descriptor whose lengths fill it"
            }
        })
    }
}
