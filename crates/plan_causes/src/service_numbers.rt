//! The numbers of a service.

use request::Service;
use std::fmt;
use std::fmt::{Display, Formatter};

/// Which service of a plan it is.
#[derive(Clone, Copy, Debug, PartialEq, Eq)]
pub struct ServiceNumbers {
    /// Its number in the output. No other service of the plan has it.
    pub number: u16,
    /// The place of its input in the plan, from 0.
    pub input: usize,
    /// Its number in the input.
    pub program: u16,
}

impl ServiceNumbers {
    ghost use Rattle.std.specs.Prelude.{◌≡◌};
    ghost use Rattle.request.specs.Request.{service_value};
    ghost use Rattle.plan_causes.specs.ServiceNumbers.{numbers_of};

    /// Those of a service.
    pub fn of(service: &Service) -> ServiceNumbers
        ensures { result ≡ numbers_of (service_value service.now) }
    {
        ServiceNumbers {
            number: service.service,
            input: service.input,
            program: service.program,
        }
    }
}

impl Display for ServiceNumbers {
    fn fmt<W: fmt::Write>(&self, f: &mut Formatter<W>) -> fmt::Result {
        let ServiceNumbers {
            number,
            input,
            program,
        } = self;
        write!(f, "service {number} (input {input}, program {program})")
    }
}
