//! Why a plan is refused.

ghost use Rattle.std.specs.Prelude.{◌≡◌};
ghost use Rattle.request.specs.PlanFault.{number_of};

use std::alloc::{AllocError, AllocFailed};
use thiserror::Error;

/// Why a plan is refused, or a schedule of plans. Of those that apply the one with the least number is answered, and want of
/// memory only where none of the others applies, or where memory ends before the text is read.
#[derive(Clone, Copy, Debug, PartialEq, Eq, Error)]
pub enum PlanFault {
    /// The text isn't TOML, or a key is missing, unknown or of another type, or the hex digits are wrong.
    #[error("the text is no plan: it isn't TOML, or a key is missing, unknown or of another type")]
    BadText,
    /// A number, a count or a text is out of its range, or a service names an input that isn't there.
    #[error("a value of the plan is out of its range")]
    OutOfRange,
    /// Two services have one number in the output.
    #[error("two services have one number")]
    ServiceTaken,
    /// An output PID is used for two things, two rows of one PID of an input differ, or a service names a PID twice.
    #[error("a PID is used twice")]
    PidTaken,
    /// The input's PAT has no program of a service's number, or its PMT wasn't found.
    #[error("a program is not in its input")]
    NoProgram,
    /// The input has no complete SDT, or it no row of a service, or the first such row no service descriptor whose lengths
    /// fill it.
    #[error("a service is not described in its input")]
    NoSdtRow,
    /// A service is scrambled.
    #[error("a service is scrambled")]
    CaFound,
    /// An elementary PID of a service's program, or its PCR PID where that isn't 0x1FFF, has no row in the service.
    #[error("a stream of a program has no row in the plan")]
    RateMissing,
    /// A row of the plan has a PID that the program's PMT doesn't name.
    #[error("a row of the plan names a stream that is not in its program")]
    StreamUnknown,
    /// A PMT, a NIT or a row of the SDT is too large for a section.
    #[error("a table is too large for its section")]
    TooLarge,
    /// A round of the tables doesn't fit into its period.
    #[error("the tables do not fit into their period")]
    RoundTooLong,
    /// The period is above what the limits of repetition allow.
    #[error("the period of the tables is too long")]
    PeriodTooLong,
    /// There is no memory for the plan.
    #[error("no memory")]
    Memory,
    /// A later plan of a schedule differs in its rate, its period, its watch, its queues or rings, an id, or an input.
    #[error("a later plan differs in what all plans of a run have in common")]
    SwitchUneven,
    /// The version of a later plan isn't that of the plan before plus 1, modulo 32.
    #[error("the version of a later plan is not the next one")]
    VersionWrong,
    /// A later plan has an output PID of an earlier one, and not for what the plan just before it has that PID for.
    #[error("a later plan uses an output PID again")]
    PidReused,
    /// There are more than 16 later plans, or the slot of one is 0, no multiple of the period, not after the one before, or
    /// above 999,999.
    #[error("a later plan can't begin at its slot")]
    SwitchSlot,
    /// With the round of a later plan a table would come later than its limit, counted across the switch.
    #[error("the tables of a later plan come too late after the switch")]
    SwitchTooLong,
}

impl PlanFault {
    /// The number by which the fault is known to users: 1 to 18, in the order of the names above.
    pub fn number(self) -> u8
        ensures { result ≡ number_of self }
    {
        match self {
            PlanFault::BadText => 1,
            PlanFault::OutOfRange => 2,
            PlanFault::ServiceTaken => 3,
            PlanFault::PidTaken => 4,
            PlanFault::NoProgram => 5,
            PlanFault::NoSdtRow => 6,
            PlanFault::CaFound => 7,
            PlanFault::RateMissing => 8,
            PlanFault::StreamUnknown => 9,
            PlanFault::TooLarge => 10,
            PlanFault::RoundTooLong => 11,
            PlanFault::PeriodTooLong => 12,
            PlanFault::Memory => 13,
            PlanFault::SwitchUneven => 14,
            PlanFault::VersionWrong => 15,
            PlanFault::PidReused => 16,
            PlanFault::SwitchSlot => 17,
            PlanFault::SwitchTooLong => 18,
        }
    }
}

impl From<AllocError> for PlanFault {
    ghost use Rattle.std.specs.Prelude.{◌≡◌};
    ghost use Rattle.request.specs.declared.plan_fault.PlanFault.TheVariants.{Memory};

    ghost from_gives = { λ _ e. e ≡ Memory };

    fn from(_e: AllocError) -> PlanFault {
        PlanFault::Memory
    }
}

impl<T: Drop> From<AllocFailed<T>> for PlanFault {
    ghost use Rattle.std.specs.Prelude.{◌≡◌};
    ghost use Rattle.request.specs.declared.plan_fault.PlanFault.TheVariants.{Memory};

    ghost from_gives = { λ _ e. e ≡ Memory };

    fn from(_e: AllocFailed<T>) -> PlanFault {
        PlanFault::Memory
    }
}
