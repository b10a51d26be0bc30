//! What an analysis counts by kind and by PID.

ghost use Rattle.std.specs.Prelude.{◌≡◌, ◌≤◌, Some, slice_get};

use crate::fault_lines::KINDS;
use crate::kind_document::KindDocument;
use crate::pid_document::PidDocument;
use crate::summary_document::SummaryDocument;
use crate::told_document::ToldDocument;
use advice::share;
use analyse::{Fault, FaultCounts, FaultKind};
use std::alloc::{AllocError, Global};
use std::collections::BTreeMap;
use std::io;
use std::io::Write;
use tspkt::{PID_COUNT, Packet};

/// How many keys a kind of faults has: one for each PID, and one more.
const KEYS: u32 = 0x4000;
/// What stands for a PID in the key of a fault without one, behind all PIDs.
const NO_PID: u16 = 0x2000;

/// How often a fault was told, and at which slots first and last.
#[derive(Clone, Copy, Debug)]
struct Tally {
    count: u64,
    first: u64,
    last: u64,
}

/// How often each fault of a stream was told, and how many packets each PID has.
#[derive(Drop)]
pub(crate) struct AnalysisSummary {
    kinds: FaultCounts,
    /// By the place of the kind in `KINDS`, and the PID.
    told: BTreeMap<u32, Tally>,
    /// By PID.
    packets: Vec<u64>,
}

/// The place of a kind in `KINDS`.
fn place_of(kind: FaultKind) -> u8
    ensures { slice_get KINDS result ≡ Some kind }
{
    match kind {
        FaultKind::TsSyncLoss => 0,
        FaultKind::SyncByteError => 1,
        FaultKind::PatError2 => 2,
        FaultKind::ContinuityCountError => 3,
        FaultKind::PmtError2 => 4,
        FaultKind::PidError => 5,
    }
}

impl AnalysisSummary {
    /// That of no slots. `Err` is want of memory.
    pub fn new(alloc: Global) -> Result<AnalysisSummary, AllocError> {
        Ok(AnalysisSummary {
            kinds: FaultCounts::new(),
            told: BTreeMap::new(alloc),
            packets: vec![in alloc; 0; PID_COUNT]?,
        })
    }

    /// Counts the next slots, each at the beginning of so many bytes: one that is a packet belongs to its PID.
    pub fn see(&mut self, slots: &[u8], stride: usize)
        requires { 1 ≤ stride }
    {
        for chunk in slots.chunks(stride) {
            if let Some(slot) = chunk.first_chunk::<188>()
                && Packet::fault(slot).is_none()
                && let Some(count) = self.packets.get_mut(usize::from(Packet::pid_in(slot)))
            {
                *count = count.saturating_add(1);
            }
        }
    }

    /// Counts a fault, which comes behind those before. `Err` is want of memory.
    pub fn add(&mut self, fault: &Fault) -> Result<(), AllocError> {
        self.kinds.add(fault.kind);
        let pid = u32::from(fault.pid.unwrap_or(NO_PID));
        let key = u32::from(place_of(fault.kind)) * KEYS + pid;
        let slot = fault.slot;
        let tally = self.told.entry(key)?.or_insert(Tally {
            count: 0,
            first: slot,
            last: slot,
        });
        tally.count = tally.count.saturating_add(1);
        tally.last = slot;
        Ok(())
    }

    /// Prints a line for each kind of faults that was told, for each of these on each PID, and for each PID with packets. The stream has
    /// so many slots, and its packets this rate, in bits a second.
    pub fn print<O: Write>(&self, rate: u64, slots: u64, out: &mut O) -> io::Result<()> {
        for kind in KINDS {
            let count = self.kinds.of(kind);
            if count > 0 {
                let name = kind.name();
                writeln!(out, "kind {kind} count {count} {name}")?;
            }
        }
        for (key, tally) in &self.told {
            print_tally(*key, *tally, out)?;
        }
        for (pid, packets) in self.packets.iter().enumerate() {
            if let Some(rate) = rate_of(*packets, rate, slots) {
                writeln!(out, "pid 0x{pid:04X} packets {packets} rate {rate}")?;
            }
        }
        Ok(())
    }

    /// The same for a document. `Err` is want of memory.
    pub fn document(
        &self,
        alloc: Global,
        rate: u64,
        slots: u64,
    ) -> Result<SummaryDocument, AllocError> {
        Ok(SummaryDocument {
            kinds: KindDocument::all_of(alloc, &self.kinds)?,
            told: self.told_documents(alloc)?,
            pids: self.pid_documents(alloc, rate, slots)?,
        })
    }

    /// Each fault on each PID, for a document. `Err` is want of memory.
    fn told_documents(&self, alloc: Global) -> Result<Vec<ToldDocument>, AllocError> {
        let mut told = Vec::new(alloc);
        for (key, tally) in &self.told {
            if let Some((kind, pid)) = split(*key) {
                told.push(ToldDocument {
                    kind: kind.number(),
                    pid,
                    count: tally.count,
                    first: tally.first,
                    last: tally.last,
                })?;
            }
        }
        Ok(told)
    }

    /// Each PID with packets, for a document. `Err` is want of memory.
    fn pid_documents(
        &self,
        alloc: Global,
        rate: u64,
        slots: u64,
    ) -> Result<Vec<PidDocument>, AllocError> {
        let mut pids = Vec::new(alloc);
        for (pid, packets) in self.packets.iter().enumerate() {
            if let Some(rate) = rate_of(*packets, rate, slots) {
                let packets = *packets;
                pids.push(PidDocument { pid, packets, rate })?;
            }
        }
        Ok(pids)
    }
}

/// The kind and the PID that a key stands for.
fn split(key: u32) -> Option<(FaultKind, Option<u16>)> {
    let kind = *KINDS.get((key / KEYS) as usize)?;
    let pid = (key % KEYS) as u16;
    Some((kind, if pid == NO_PID { None } else { Some(pid) }))
}

/// Prints the line of a fault on a PID.
fn print_tally<O: Write>(key: u32, tally: Tally, out: &mut O) -> io::Result<()> {
    let Tally { count, first, last } = tally;
    match split(key) {
        Some((kind, Some(pid))) => write!(out, "told {kind} 0x{pid:04X}")?,
        Some((kind, None)) => write!(out, "told {kind} -")?,
        None => return Ok(()),
    }
    writeln!(out, " count {count} first {first} last {last}")
}

/// The rate of so many packets of a stream of so many slots, whose packets have this rate, in bits a second; none where there are none.
fn rate_of(packets: u64, rate: u64, slots: u64) -> Option<u64> {
    if packets == 0 || packets > slots {
        return None;
    }
    Some(share(rate, packets, slots))
}
