//! A fault of a stream.

use crate::fault_kind::FaultKind;
use std::fmt;

/// A fault: its slot, its kind, and the PID that it is told of, where there is one.
#[derive(Clone, Copy, Debug, PartialEq, Eq)]
pub struct Fault {
    /// The slot at which it is told, from 0.
    pub slot: u64,
    pub kind: FaultKind,
    /// 0 to 0x1FFF; none for the faults of sync.
    pub pid: Option<u16>,
}

/// Prints as `slot 501 1.5.a 0x0100`, with `-` where there is no PID.
impl fmt::Display for Fault {
    ghost use Rattle.std.specs.Prelude.{Some};
    ghost use Rattle.analyse.specs.FaultNames.{fault_text};

    ghost output = { λ fault. Some (fault_text fault) };

    fn fmt<W: fmt::Write>(&self, f: &mut fmt::Formatter<W>) -> fmt::Result {
        let slot = self.slot;
        let kind = self.kind;
        match self.pid {
            Some(pid) => write!(f, "slot {slot} {kind} 0x{pid:04X}"),
            None => write!(f, "slot {slot} {kind} -"),
        }
    }
}
