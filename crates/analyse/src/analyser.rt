//! The analyser of a stream.

ghost use Rattle.std.specs.Prelude.{◌≡◌, ◌∷◌, ◌++◌, [], option_map, OnOk};
ghost use Rattle.analyse.specs.Faults.{faults_at};
ghost use Rattle.analyse.specs.SlotReading.{IsReadAs};
ghost use Rattle.analyse.specs.Analysed.{IsWatching, WatchesSlot, WatchesTell};

use crate::fault::Fault;
use crate::stream_watch::StreamWatch;
use std::alloc::{AllocError, Global};
use std::marker::Model;
use tspkt::Packet;

/// Makes the watches, which see the first slot. They are large, and made here so that no other call keeps room for them.
#[inline(never)]
fn see_first(
    alloc: Global,
    rate: u64,
    period: u64,
    watch: &mut Option<StreamWatch>,
    slot: &[u8; 188],
    packet: Option<&Packet>,
    out: &mut Vec<Fault>,
) -> Result<(), AllocError>
    requires { IsReadAs slot.now (option_map (λ p. p.now) packet) }
    ensures seen { OnOk result (IsWatching rate period watch.new (slot.now ∷ [])) }
    ensures told { OnOk result (out.new.items ≡ out.old.items ++ faults_at rate period (slot.now ∷ []) 0) }
{
    let mut first = StreamWatch::new(alloc, rate, period)?;
    first.see(slot, packet, out)?;
    *watch = Some(first);
    Ok(())
}

/// Sees the next slot. The first one makes the watches.
fn see_slot(
    alloc: Global,
    rate: u64,
    period: u64,
    watch: &mut Option<StreamWatch>,
    slot: &[u8; 188],
    packet: Option<&Packet>,
    out: &mut Vec<Fault>,
) -> Result<(), AllocError>
    requires { IsReadAs slot.now (option_map (λ p. p.now) packet) }
    ensures seen { OnOk result (WatchesSlot rate period watch.old slot.now watch.new) }
    ensures told { OnOk result (WatchesTell rate period watch.old slot.now out.old.items out.new.items) }
{
    match watch {
        Some(watch) => watch.see(slot, packet, out),
        None => see_first(alloc, rate, period, watch, slot, packet, out),
    }
}

/// Tells the faults of a stream by the first priority of ETSI TR 101 290 (5.2.1), slot by slot; the exact conditions and the
/// limits in slots are profile.
///
/// A slot costs constant time, save where a section ends or a gap falls due. Where a push is refused for want of memory,
/// each later one is refused too.
#[derive(Drop)]
pub struct Analyser {
    alloc: Global,
    rate: u64,
    period: u64,
    watch: Option<StreamWatch>,
    /// The faults of the slot that is being seen.
    found: Vec<Fault>,
    is_refused: bool,
}

impl Model for Analyser {
    ghost use Rattle.analyse.specs.Analysed.{AnalyserState};

    ghost Value = { AnalyserState };

    ghost view = { λ a. record {
      rate = a.rate;
      period = a.period;
      watch = a.watch;
      is_refused = a.is_refused;
    } };
}

impl Analyser {
    ghost use Rattle.std.specs.Prelude.{◌≡◌, ◌≤◌, [], true, option_map, vec_capacity, IsErr, OnOk, OnErr};
    ghost use Rattle.analyse.specs.SlotReading.{IsReadAs};
    ghost use Rattle.analyse.specs.Analysed.{HasAccepted, AcceptsSlot, TellsSlot, TellsAll};

    /// An analyser of a stream of `rate` bits a second. The PIDs to which a PMT refers have to come within `period` slots
    /// each. It takes no memory before the first slot.
    pub fn new(alloc: Global, rate: u64, period: u64) -> Analyser
        ensures rate { result.rate ≡ rate }
        ensures period { result.period ≡ period }
        ensures seen { HasAccepted result [] }
    {
        Analyser {
            alloc,
            rate,
            period,
            watch: None,
            found: Vec::new(alloc),
            is_refused: false,
        }
    }

    /// Sees the next slot, and tells its faults behind those of `out`: in the order of the standard's list, and for one kind
    /// by PID.
    ///
    /// An `Err` is want of memory, or a stream of 2^64 - 1 slots; it adds nothing, and each later push answers it too. Room that
    /// `out` has stays.
    pub fn push(&mut self, slot: &[u8; 188], out: &mut Vec<Fault>) -> Result<(), AllocError>
        ensures rate { self.new.rate ≡ self.old.rate }
        ensures period { self.new.period ≡ self.old.period }
        ensures seen { OnOk result (AcceptsSlot self.old slot.now self.new) }
        ensures told { OnOk result (TellsSlot self.old slot.now out.old.items out.new.items) }
        ensures whole { OnOk result (TellsAll self.old slot.now out.old.items out.new.items) }
        ensures err { OnErr result (out.new.items ≡ out.old.items) }
        ensures refused { OnErr result (self.new.is_refused ≡ true) }
        ensures stays { self.old.is_refused ≡ true → IsErr result }
        ensures capacity { vec_capacity out.old ≤ vec_capacity out.new }
    {
        match Packet::read(slot) {
            Ok(packet) => self.see(slot, Some(&packet), out),
            Err(_) => self.see(slot, None, out),
        }
    }

    /// The same of a slot that carries this packet.
    pub fn push_packet(&mut self, packet: &Packet, out: &mut Vec<Fault>) -> Result<(), AllocError>
        ensures rate { self.new.rate ≡ self.old.rate }
        ensures period { self.new.period ≡ self.old.period }
        ensures seen { OnOk result (AcceptsSlot self.old packet.now self.new) }
        ensures told { OnOk result (TellsSlot self.old packet.now out.old.items out.new.items) }
        ensures whole { OnOk result (TellsAll self.old packet.now out.old.items out.new.items) }
        ensures err { OnErr result (out.new.items ≡ out.old.items) }
        ensures refused { OnErr result (self.new.is_refused ≡ true) }
        ensures stays { self.old.is_refused ≡ true → IsErr result }
        ensures capacity { vec_capacity out.old ≤ vec_capacity out.new }
    {
        packet.known();
        self.see(packet.bytes(), Some(packet), out)
    }

    /// Sees the next slot, which is read as this packet, or as none.
    fn see(
        &mut self,
        slot: &[u8; 188],
        packet: Option<&Packet>,
        out: &mut Vec<Fault>,
    ) -> Result<(), AllocError>
        requires { IsReadAs slot.now (option_map (λ p. p.now) packet) }
        ensures rate { self.new.rate ≡ self.old.rate }
        ensures period { self.new.period ≡ self.old.period }
        ensures seen { OnOk result (AcceptsSlot self.old slot.now self.new) }
        ensures told { OnOk result (TellsSlot self.old slot.now out.old.items out.new.items) }
        ensures whole { OnOk result (TellsAll self.old slot.now out.old.items out.new.items) }
        ensures err { OnErr result (out.new.items ≡ out.old.items) }
        ensures refused { OnErr result (self.new.is_refused ≡ true) }
        ensures stays { self.old.is_refused ≡ true → IsErr result }
        ensures capacity { vec_capacity out.old ≤ vec_capacity out.new }
    {
        if self.is_refused {
            return Err(AllocError);
        }
        let result = self.see_accepted(slot, packet, out);
        self.is_refused = result.is_err();
        result
    }

    /// The same, where no push was refused.
    fn see_accepted(
        &mut self,
        slot: &[u8; 188],
        packet: Option<&Packet>,
        out: &mut Vec<Fault>,
    ) -> Result<(), AllocError>
        requires { IsReadAs slot.now (option_map (λ p. p.now) packet) }
        ensures rate { self.new.rate ≡ self.old.rate }
        ensures period { self.new.period ≡ self.old.period }
        ensures seen { OnOk result (AcceptsSlot self.old slot.now self.new) }
        ensures told { OnOk result (TellsSlot self.old slot.now out.old.items out.new.items) }
        ensures err { OnErr result (out.new.items ≡ out.old.items) }
        ensures capacity { vec_capacity out.old ≤ vec_capacity out.new }
    {
        self.found.clear();
        see_slot(
            self.alloc,
            self.rate,
            self.period,
            &mut self.watch,
            slot,
            packet,
            &mut self.found,
        )?;
        if self.found.is_empty() {
            return Ok(());
        }
        out.extend_from_slice(&self.found)
    }
}
