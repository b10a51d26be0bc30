//! Where a service of a plan is out of its ranges.

use crate::ranged_number::RangedNumber;
use std::fmt;
use std::fmt::{Display, Formatter};

/// What of a service is out of its range.
#[derive(Clone, Copy, Debug, PartialEq, Eq)]
pub enum ServiceCause {
    /// It names this input, and the plan has so many, which are counted from 0.
    NoInput { input: i64, inputs: usize },
    /// This number of it.
    Number(RangedNumber),
    /// This number of its stream at this place, from 0.
    Stream { stream: usize, number: RangedNumber },
}

impl ServiceCause {
    /// Writes it, behind the place of the service.
    pub fn write<W: fmt::Write>(&self, service: usize, f: &mut Formatter<W>) -> fmt::Result {
        match self {
            ServiceCause::NoInput { input, inputs } => write!(
                f,
                "service {service}: input is {input}, from 0 to {}",
                inputs.saturating_sub(1)
            ),
            ServiceCause::Number(number) => write!(f, "service {service}: {number}"),
            ServiceCause::Stream { stream, number } => {
                write!(f, "service {service}'s stream {stream}: {number}")
            }
        }
    }
}
