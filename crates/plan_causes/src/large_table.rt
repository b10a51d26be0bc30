//! A table that is too large.

use crate::service_numbers::ServiceNumbers;
use std::fmt;
use std::fmt::{Display, Formatter};

/// What has no room in a section: section_length is at most 1,021.
#[derive(Clone, Copy, Debug, PartialEq, Eq)]
pub enum LargeTable {
    /// The NIT, which would have this section_length.
    Nit(usize),
    /// The row of the SDT of this service.
    SdtRow(ServiceNumbers),
    /// The PMT of one of the services. One that was read is never too large.
    Pmt,
}

impl Display for LargeTable {
    fn fmt<W: fmt::Write>(&self, f: &mut Formatter<W>) -> fmt::Result {
        match self {
            LargeTable::Nit(length) => {
                write!(f, "section_length of the NIT is {length}, at most 1021")
            }
            LargeTable::SdtRow(service) => {
                write!(f, "{service}: its row of the SDT has no room in a section")
            }
            LargeTable::Pmt => {
                f.write_str("section_length of the PMT of a service is above 1021")
            }
        }
    }
}
