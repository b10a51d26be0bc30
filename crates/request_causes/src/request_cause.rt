//! Where a plan's text is at fault by itself.

use crate::pid_cause::PidCause;
use crate::range_cause::RangeCause;
use request::PlanFault;
use std::fmt;
use std::fmt::{Display, Formatter};

/// A place to which a fault of a plan's text applies, and what stands there: for the faults 2 to 4.
#[derive(Clone, Copy, Debug, PartialEq, Eq)]
pub enum RequestCause {
    /// A number, a text or a count is out of its range.
    OutOfRange(RangeCause),
    /// The services at these places, from 0, both have this number in the output.
    ServiceTaken {
        first: usize,
        second: usize,
        number: i64,
    },
    /// A PID is used for two things.
    PidTaken(PidCause),
}

impl RequestCause {
    ghost use Rattle.std.specs.Prelude.{◌≡◌};
    ghost use Rattle.request_causes.specs.Causes.{fault_of};

    /// The fault that it is a cause of.
    pub fn fault(&self) -> PlanFault
        ensures { result ≡ fault_of self.now }
    {
        match self {
            RequestCause::OutOfRange(_) => PlanFault::OutOfRange,
            RequestCause::ServiceTaken { .. } => PlanFault::ServiceTaken,
            RequestCause::PidTaken(_) => PlanFault::PidTaken,
        }
    }
}

impl Display for RequestCause {
    fn fmt<W: fmt::Write>(&self, f: &mut Formatter<W>) -> fmt::Result {
        match self {
            RequestCause::OutOfRange(cause) => write!(f, "{cause}"),
            RequestCause::ServiceTaken {
                first,
                second,
                number,
            } => write!(
                f,
                "services {first} and {second} both have the number {number}"
            ),
            RequestCause::PidTaken(cause) => write!(f, "{cause}"),
        }
    }
}
