//! Where an input of a plan is out of its ranges.

use crate::ranged_number::RangedNumber;
use std::fmt;
use std::fmt::{Display, Formatter};

/// What of an input is out of its range.
#[derive(Clone, Copy, Debug, PartialEq, Eq)]
pub enum InputCause {
    /// This number of it.
    Number(RangedNumber),
    /// The size of its packets, in bytes, which is neither 188 nor 204.
    PacketSize(i64),
}

impl InputCause {
    /// The key of the value that is out of its range, as the plan writes it.
    pub fn key(&self) -> &'static str {
        match self {
            InputCause::Number(number) => number.key.name(),
            InputCause::PacketSize(_) => "size",
        }
    }
}

impl Display for InputCause {
    fn fmt<W: fmt::Write>(&self, f: &mut Formatter<W>) -> fmt::Result {
        match self {
            InputCause::Number(number) => write!(f, "{number}"),
            InputCause::PacketSize(size) => write!(f, "size is {size}, either 188 or 204"),
        }
    }
}
