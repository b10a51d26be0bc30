//! A fault of a stream, as a document has it.

use advice::reached;
use analyse::Fault;
use serde::Serialize;

/// A fault of a stream, as a document has it.
#[derive(Drop, Serialize)]
pub(crate) struct FaultDocument {
    slot: u64,
    /// Its number in ETSI TR 101 290.
    kind: &'static str,
    /// Its name there.
    name: &'static str,
    pid: Option<u16>,
    /// The byte at which the slot begins.
    byte: u64,
    /// When that byte comes, in milliseconds.
    ms: u64,
}

impl FaultDocument {
    /// That of a fault whose slot begins at this byte of a stream of this rate, in bits a second.
    pub fn of(fault: &Fault, byte: u64, rate: u64) -> FaultDocument {
        FaultDocument {
            slot: fault.slot,
            kind: fault.kind.number(),
            name: fault.kind.name(),
            pid: fault.pid,
            byte,
            ms: reached(0, rate, byte),
        }
    }
}
