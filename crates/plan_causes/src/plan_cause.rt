//! Where a plan is at fault.

use crate::ca_place::CaPlace;
use crate::large_table::LargeTable;
use crate::missing_stream::MissingStream;
use crate::row_lack::RowLack;
use crate::service_numbers::ServiceNumbers;
use request::PlanFault;
use std::fmt;
use std::fmt::{Display, Formatter};

/// A place to which a fault of a plan applies, and what was found there: one for each of the faults 5 to 12.
#[derive(Clone, Copy, Debug, PartialEq, Eq)]
pub enum PlanCause {
    /// The program of this service was not found in its input.
    NoProgram(ServiceNumbers),
    /// This service is not described in its input.
    NoSdtRow(ServiceNumbers, RowLack),
    /// This service is scrambled.
    CaFound(ServiceNumbers, CaPlace),
    /// The program of this service has a stream that no row of the service has.
    RateMissing(ServiceNumbers, MissingStream),
    /// A row of this service has this PID in the input, which its program's PMT doesn't name.
    StreamUnknown(ServiceNumbers, u16),
    /// This table is too large.
    TooLarge(LargeTable),
    /// The period, in slots, and the least that a round of the tables fits into.
    RoundTooLong { period: u64, shortest: u64 },
    /// The period, in slots, and the longest that the limits of repetition allow.
    PeriodTooLong { period: u64, longest: u64 },
}

impl PlanCause {
    ghost use Rattle.std.specs.Prelude.{◌≡◌};
    ghost use Rattle.plan_causes.specs.Causes.{fault_of};

    /// The fault that it is a cause of.
    pub fn fault(&self) -> PlanFault
        ensures { result ≡ fault_of self.now }
    {
        match self {
            PlanCause::NoProgram(_) => PlanFault::NoProgram,
            PlanCause::NoSdtRow(..) => PlanFault::NoSdtRow,
            PlanCause::CaFound(..) => PlanFault::CaFound,
            PlanCause::RateMissing(..) => PlanFault::RateMissing,
            PlanCause::StreamUnknown(..) => PlanFault::StreamUnknown,
            PlanCause::TooLarge(_) => PlanFault::TooLarge,
            PlanCause::RoundTooLong { .. } => PlanFault::RoundTooLong,
            PlanCause::PeriodTooLong { .. } => PlanFault::PeriodTooLong,
        }
    }
}

impl Display for PlanCause {
    fn fmt<W: fmt::Write>(&self, f: &mut Formatter<W>) -> fmt::Result {
        match self {
            PlanCause::NoProgram(service) => write!(
                f,
                "{service}: the input's PAT has no such program, or its PMT was not found"
            ),
            PlanCause::NoSdtRow(service, lack) => write!(f, "{service}: {lack}"),
            PlanCause::CaFound(service, place) => write!(f, "{service}: {place}"),
            PlanCause::RateMissing(service, stream) => {
                write!(f, "{service}: its PMT names {stream}, and no row has it")
            }
            PlanCause::StreamUnknown(service, pid) => {
                write!(
                    f,
                    "{service}: a row has PID 0x{pid:04X}, and its PMT doesn't name it"
                )
            }
            PlanCause::TooLarge(table) => write!(f, "{table}"),
            PlanCause::RoundTooLong { period, shortest } => {
                write!(f, "period is {period}, at least {shortest}")
            }
            PlanCause::PeriodTooLong { period, longest } => {
                write!(f, "period is {period}, at most {longest}")
            }
        }
    }
}
