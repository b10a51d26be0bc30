//! What of a plan is out of its range.

use crate::input_cause::InputCause;
use crate::ranged_number::RangedNumber;
use crate::service_cause::ServiceCause;
use request::{
    FIRST_LETTER, LAST_LETTER, MAX_DESCRIPTORS, MAX_INPUTS, MAX_NAME, MAX_SERVICES, MAX_STREAMS,
};
use std::fmt;
use std::fmt::{Display, Formatter};

/// A number, a text or a count of a plan that is out of its range, with the place where it stands and what is found there.
/// Places are counted from 0.
#[derive(Clone, Copy, Debug, PartialEq, Eq)]
pub enum RangeCause {
    /// This number at the top.
    Top(RangedNumber),
    /// `network_name` has so many bytes.
    NameLength(usize),
    /// `network_name` has this byte at this place.
    NameByte { place: usize, byte: u8 },
    /// `transport_descriptors` has so many bytes.
    DescriptorsLength(usize),
    /// `transport_descriptors` isn't made of whole descriptors.
    DescriptorsNotWhole,
    /// There are so many inputs.
    InputCount(usize),
    /// The input at this place.
    Input { input: usize, cause: InputCause },
    /// There are so many services.
    ServiceCount(usize),
    /// The service at this place.
    Service { service: usize, cause: ServiceCause },
    /// There are so many streams.
    StreamCount(usize),
}

impl Display for RangeCause {
    fn fmt<W: fmt::Write>(&self, f: &mut Formatter<W>) -> fmt::Result {
        match self {
            RangeCause::Top(number) => write!(f, "{number}"),
            RangeCause::NameLength(count) => {
                write!(f, "network_name has {count} bytes, from 1 to {MAX_NAME}")
            }
            RangeCause::NameByte { place, byte } => write!(
                f,
                "network_name has byte 0x{byte:02X} at place {place}, from 0x{FIRST_LETTER:02X} to 0x{LAST_LETTER:02X}"
            ),
            RangeCause::DescriptorsLength(count) => write!(
                f,
                "transport_descriptors has {count} bytes, from 0 to {MAX_DESCRIPTORS}"
            ),
            RangeCause::DescriptorsNotWhole => {
                f.write_str("transport_descriptors isn't made of whole descriptors")
            }
            RangeCause::InputCount(count) => {
                write!(f, "the plan has {count} inputs, from 1 to {MAX_INPUTS}")
            }
            RangeCause::Input { input, cause } => write!(f, "input {input}: {cause}"),
            RangeCause::ServiceCount(count) => {
                write!(f, "the plan has {count} services, from 1 to {MAX_SERVICES}")
            }
            RangeCause::Service { service, cause } => cause.write(*service, f),
            RangeCause::StreamCount(count) => {
                write!(f, "the plan has {count} streams, from 1 to {MAX_STREAMS}")
            }
        }
    }
}
