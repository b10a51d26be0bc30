//! A number of a plan with its range.

use crate::number_key::NumberKey;
use std::fmt;
use std::fmt::{Display, Formatter};

/// A number of a plan, and the range that it has to be in.
#[derive(Clone, Copy, Debug, PartialEq, Eq)]
pub struct RangedNumber {
    /// Its key.
    pub key: NumberKey,
    /// What the plan has there.
    pub value: i64,
    /// The least that it may be.
    pub low: u64,
    /// The greatest that it may be.
    pub high: u64,
}

impl RangedNumber {
    ghost use Rattle.std.specs.Prelude.{◌≡◌};
    ghost use Rattle.request_causes.specs.RangeCauses.{ranged, is_outside};

    /// A number with its range.
    pub fn new(key: NumberKey, value: i64, low: u64, high: u64) -> RangedNumber
        ensures { result ≡ ranged key value low high }
    {
        RangedNumber {
            key,
            value,
            low,
            high,
        }
    }

    /// Whether it is below or above its range.
    pub fn is_outside(&self) -> bool
        ensures { result ≡ is_outside self.now }
    {
        match u64::try_from(self.value) {
            Ok(value) => !(self.low <= value && value <= self.high),
            Err(_) => true,
        }
    }
}

impl Display for RangedNumber {
    fn fmt<W: fmt::Write>(&self, f: &mut Formatter<W>) -> fmt::Result {
        let RangedNumber {
            key,
            value,
            low,
            high,
        } = self;
        if key.is_pid() && 0 <= *value {
            write!(
                f,
                "{key} is 0x{value:04X}, from 0x{low:04X} to 0x{high:04X}"
            )
        } else if key.is_pid() {
            write!(f, "{key} is {value}, from 0x{low:04X} to 0x{high:04X}")
        } else {
            write!(f, "{key} is {value}, from {low} to {high}")
        }
    }
}
