//! A PID that is used twice.

use crate::placed_row::PlacedRow;
use std::fmt;
use std::fmt::{Display, Formatter};

/// Where a PID is used for two things, and which PID. The places of services and streams are those of the plan's text, from 0.
#[derive(Clone, Copy, Debug, PartialEq, Eq)]
pub enum PidCause {
    /// Two streams of this service name one PID of its input.
    NamedTwice {
        service: usize,
        first: usize,
        second: usize,
        pid: i64,
    },
    /// These rows name one PID of an input, and differ in the PID in the output or the leak rate.
    RowsDiffer(PlacedRow, PlacedRow),
    /// These rows name two PIDs of the inputs, and have one PID in the output.
    StreamsMeet(PlacedRow, PlacedRow),
    /// This row has the PID in the output that this service's PMT has.
    StreamMeetsPmt(PlacedRow, usize),
    /// The PMTs of two services have one PID.
    PmtsMeet {
        first: usize,
        second: usize,
        pid: i64,
    },
}

impl Display for PidCause {
    fn fmt<W: fmt::Write>(&self, f: &mut Formatter<W>) -> fmt::Result {
        match self {
            PidCause::NamedTwice {
                service,
                first,
                second,
                pid,
            } => write!(
                f,
                "service {service} names input PID 0x{pid:04X} twice: streams {first} and {second}"
            ),
            PidCause::RowsDiffer(a, b) => {
                let (input, pid) = (a.input, a.pid);
                write!(
                    f,
                    "input {input}'s PID 0x{pid:04X} has two rows that differ: "
                )?;
                let (out, leak) = (a.out, a.leak);
                write!(f, "{a} has out 0x{out:04X} and leak {leak}, ")?;
                let (out, leak) = (b.out, b.leak);
                write!(f, "{b} has out 0x{out:04X} and leak {leak}")
            }
            PidCause::StreamsMeet(a, b) => {
                let pid = a.out;
                write!(f, "{a} and {b} both have the output PID 0x{pid:04X}")
            }
            PidCause::StreamMeetsPmt(row, service) => {
                let pid = row.out;
                write!(
                    f,
                    "service {service}'s PMT and {row} both have the output PID 0x{pid:04X}"
                )
            }
            PidCause::PmtsMeet { first, second, pid } => write!(
                f,
                "service {first}'s PMT and service {second}'s PMT both have the output PID 0x{pid:04X}"
            ),
        }
    }
}
