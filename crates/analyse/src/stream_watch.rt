//! The watches of a stream, together.

ghost use Rattle.std.specs.Prelude.{◌≡◌, ◌+◌, ◌++◌, option_map, IfOk, OnOk};
ghost use Rattle.analyse.specs.Faults.{told_if};
ghost use Rattle.analyse.specs.SlotReading.{IsReadAs};
ghost use Rattle.analyse.specs.StreamWatching.{pid_or_zero};

use crate::counter_watches::CounterWatches;
use crate::fault::Fault;
use crate::fault_kind::FaultKind;
use crate::pat_watch::PatWatch;
use crate::sync_watch::SyncWatch;
use crate::table_watches::TableWatches;
use rounds::half_second;
use std::alloc::{AllocError, Global};
use std::marker::Model;
use tspkt::Packet;

/// Tells a fault, where there is one.
#[inline(always)]
fn tell_if(
    is_fault: bool,
    kind: FaultKind,
    slot: u64,
    pid: Option<u16>,
    out: &mut Vec<Fault>,
) -> Result<(), AllocError>
    ensures { OnOk result (out.new.items ≡ out.old.items ++ told_if is_fault kind slot pid) }
{
    if is_fault {
        out.push(Fault { slot, kind, pid })?;
    }
    Ok(())
}

/// One slot more. An `Err` is a number past 64 bits.
#[inline(always)]
fn next_count(count: u64) -> Result<u64, AllocError>
    ensures { IfOk result (λ next. next ≡ count + 1) }
{
    match count.checked_add(1) {
        Some(next) => Ok(next),
        None => Err(AllocError),
    }
}

/// The packet's PID; 0 where there is none.
#[inline(always)]
fn pid_of(packet: Option<&Packet>) -> u16
    ensures { result ≡ pid_or_zero (option_map (λ p. p.now) packet.entry) }
{
    match packet {
        Some(packet) => packet.pid(),
        None => 0,
    }
}

/// Watches a stream, slot by slot.
#[derive(Drop)]
pub struct StreamWatch {
    count: u64,
    sync: SyncWatch,
    pat: PatWatch,
    counters: CounterWatches,
    tables: TableWatches,
}

impl Model for StreamWatch {
    ghost use Rattle.analyse.specs.StreamWatching.{StreamState};

    ghost Value = { StreamState };

    ghost view = { λ w. record {
      count = w.count;
      sync = w.sync;
      pat = w.pat;
      counters = w.counters;
      tables = w.tables;
    } };
}

impl StreamWatch {
    ghost use Rattle.std.specs.Prelude.{◌≡◌, ◌∷◌, ◌++◌, [], ℕ, List, length, Some, true, IfOk, OnOk};
    ghost use Rattle.analyse.specs.Faults.{faults_at};
    ghost use Rattle.analyse.specs.Quiet.{IsQuiet};
    ghost use Rattle.analyse.specs.StreamWatching.{HaveSeenStream};

    /// Watches of a stream of `rate` bits a second that have seen no slot; a PID has to come within `period` slots. An
    /// `Err` is want of memory.
    pub fn new(alloc: Global, rate: u64, period: u64) -> Result<StreamWatch, AllocError>
        ensures { IfOk result (λ w. HaveSeenStream rate period w []) }
    {
        let limit = half_second(rate);
        Ok(StreamWatch {
            count: 0,
            sync: SyncWatch::new(),
            pat: PatWatch::new(alloc, limit),
            counters: CounterWatches::new(alloc)?,
            tables: TableWatches::new(alloc, limit, period)?,
        })
    }

    /// Sees the next slot, which is read as this packet, or as none, and tells its faults behind those of `out`. An `Err` is
    /// want of memory, or a stream of 2^64 - 1 slots.
    #[inline(always)]
    pub(crate) fn see(
        &mut self,
        slot: &[u8; 188],
        packet: Option<&Packet>,
        out: &mut Vec<Fault>,
    ) -> Result<(), AllocError>
        requires { IsReadAs slot.now (option_map (λ p. p.now) packet) }
        ensures seen { OnOk result ((rate period : ℕ) (slots : List (List ℕ)) → HaveSeenStream rate period self.old slots
            → HaveSeenStream rate period self.new (slots ++ slot.now ∷ [])) }
        ensures told { OnOk result ((rate period : ℕ) (slots : List (List ℕ)) → HaveSeenStream rate period self.old slots
            → out.new.items ≡ out.old.items ++ faults_at rate period (slots ++ slot.now ∷ []) (length slots)) }
    {
        match packet {
            Some(packet) if self.is_quiet(slot, packet) => self.pass(slot, packet, out),
            _ => self.see_any(slot, packet, out),
        }
    }

    /// Whether the slot, read as this packet, can tell no more than its counter's fault, and changes no more than what is
    /// known of its counter and of when its PID came last.
    #[inline(always)]
    fn is_quiet(&self, slot: &[u8; 188], packet: &Packet) -> bool
        ensures { result ≡ true → IsQuiet self.now slot.now packet.now }
    {
        if packet.unit_start() {
            return false;
        }
        if !self.sync.stands(slot) {
            return false;
        }
        if !self.pat.rests(self.count, packet) {
            return false;
        }
        self.tables.rest_at(self.count, packet)
    }

    /// Sees such a slot.
    #[inline(always)]
    fn pass(
        &mut self,
        slot: &[u8; 188],
        packet: &Packet,
        out: &mut Vec<Fault>,
    ) -> Result<(), AllocError>
        requires read { IsReadAs slot.now (Some packet.now) }
        requires quiet { IsQuiet self.old slot.now packet.now }
        ensures seen { OnOk result ((rate period : ℕ) (slots : List (List ℕ)) → HaveSeenStream rate period self.old slots
            → HaveSeenStream rate period self.new (slots ++ slot.now ∷ [])) }
        ensures told { OnOk result ((rate period : ℕ) (slots : List (List ℕ)) → HaveSeenStream rate period self.old slots
            → out.new.items ≡ out.old.items ++ faults_at rate period (slots ++ slot.now ∷ []) (length slots)) }
    {
        let count = self.count;
        let next = next_count(count)?;
        let pid = packet.pid();
        self.tables.pass(next, pid);
        self.count = next;
        let is_bad = self.counters.push_of(pid, packet);
        let pid = Some(pid);
        tell_if(is_bad, FaultKind::ContinuityCountError, count, pid, out)?;
        Ok(())
    }

    /// Sees the next slot, whatever it is.
    #[inline(never)]
    fn see_any(
        &mut self,
        slot: &[u8; 188],
        packet: Option<&Packet>,
        out: &mut Vec<Fault>,
    ) -> Result<(), AllocError>
        requires { IsReadAs slot.now (option_map (λ p. p.now) packet) }
        ensures seen { OnOk result ((rate period : ℕ) (slots : List (List ℕ)) → HaveSeenStream rate period self.old slots
            → HaveSeenStream rate period self.new (slots ++ slot.now ∷ [])) }
        ensures told { OnOk result ((rate period : ℕ) (slots : List (List ℕ)) → HaveSeenStream rate period self.old slots
            → out.new.items ≡ out.old.items ++ faults_at rate period (slots ++ slot.now ∷ []) (length slots)) }
    {
        let count = self.count;
        let next = next_count(count)?;
        let sync = self.sync.push(slot);
        tell_if(sync.lost, FaultKind::TsSyncLoss, count, None, out)?;
        tell_if(sync.bad, FaultKind::SyncByteError, count, None, out)?;
        let pat = self.pat.push(count, packet)?;
        tell_if(pat.bad, FaultKind::PatError2, count, Some(0x0000), out)?;
        let is_bad = self.counters.push(packet);
        let pid = Some(pid_of(packet));
        tell_if(is_bad, FaultKind::ContinuityCountError, count, pid, out)?;
        self.tables.tell(count, packet, out)?;
        self.tables
            .push(next, packet, self.pat.programs(), pat.changed)?;
        self.count = next;
        Ok(())
    }
}
