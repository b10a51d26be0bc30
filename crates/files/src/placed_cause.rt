//! A cause of a fault of a plan's text, with its line.

use crate::cause_lines::cause_line;
use request::{Parts, PlanFault};
use request_causes::{RequestCause, cause_of};
use std::alloc::{AllocError, Global};
use std::fmt;
use std::fmt::{Display, Formatter};

/// A cause of a fault of a plan's text, and the line, from 1, of the value that is at fault, where one is and its line is known.
#[derive(Clone, Copy, Debug, PartialEq, Eq)]
pub(crate) struct PlacedCause {
    pub cause: RequestCause,
    pub line: Option<usize>,
}

impl PlacedCause {
    ghost use Rattle.std.specs.Prelude.{◌≡◌, IfOk, IfSome, IsSomeAnd};
    ghost use Rattle.request.specs.Text.{text_parts};
    ghost use Rattle.request_causes.specs.Causes.{IsCauseOf, fault_of};

    /// A cause of this fault of a plan's text, by the values that it writes. There is none of a text that is no plan's, and
    /// none of want of memory.
    pub fn find(
        alloc: Global,
        fault: PlanFault,
        text: &str,
    ) -> Result<Option<PlacedCause>, AllocError>
        ensures cause { IfOk result (λ found. IfSome found
            (λ placed. IsSomeAnd (text_parts text.now) (λ parts. IsCauseOf parts placed.cause))) }
        ensures fault { IfOk result (λ found. IfSome found (λ placed. fault_of placed.cause ≡ fault)) }
    {
        let Ok(parts) = Parts::read(alloc, text) else {
            return Ok(None);
        };
        match cause_of(alloc, &parts, fault)? {
            Some(cause) => Ok(Some(PlacedCause {
                cause,
                line: cause_line(text, &parts, &cause),
            })),
            None => Ok(None),
        }
    }
}

impl Display for PlacedCause {
    fn fmt<W: fmt::Write>(&self, f: &mut Formatter<W>) -> fmt::Result {
        match self.line {
            Some(line) => write!(f, "line {line}: {}", self.cause),
            None => write!(f, "{}", self.cause),
        }
    }
}
