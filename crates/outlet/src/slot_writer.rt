//! What goes out of a run.

use crate::packet_writer::PacketWriter;
use crate::run_fault::RunFault;
use crate::sink::Sink;
use analyse::{Analyser, Fault, FaultReport};
use std::alloc::{AllocError, Global};
use tspkt::Packet;

/// Packets on their way out: each that is taken is analysed, and written through a buffer.
#[derive(Drop)]
pub struct SlotWriter {
    writer: PacketWriter,
    analyser: Analyser,
    /// The faults of the packet that was analysed last.
    told: Vec<Fault>,
    faults: u64,
    /// The first of all faults, and how many there are of each kind.
    report: FaultReport,
}

impl SlotWriter {
    ghost use Rattle.std.specs.Prelude.{◌≡◌, ◌∷◌, ◌++◌, ℕ, List, [], Err, true, IsErr, IfOk, OnOk, OnErr};
    ghost use Rattle.std.specs.Io.KnownBytes.{Appends};
    ghost use Rattle.reading.specs.Failures.{FailsOnce};
    ghost use Rattle.outlet.specs.Written.{Sends, SendsBeginning};
    ghost use Rattle.outlet.specs.Sending.{HasAnalysed};

    /// One that has sent nothing, for a multiplex of this rate (bits a second). Each PID that a PMT refers to has to come
    /// within `period` slots.
    pub fn new(alloc: Global, rate: u64, period: u64) -> Result<SlotWriter, AllocError>
        ensures analysed { IfOk result (λ s. HasAnalysed s rate period []) }
        ensures waiting { IfOk result (λ s. s.writer ≡ []) }
    {
        Ok(SlotWriter {
            writer: PacketWriter::new(alloc)?,
            analyser: Analyser::new(alloc, rate, period),
            told: Vec::new(alloc),
            faults: 0,
            report: FaultReport::new(),
        })
    }

    /// How many faults were told.
    pub fn faults(&self) -> u64
        ensures { result ≡ self.now.faults }
    {
        self.faults
    }

    /// What is reported of the faults that were told.
    pub fn into_report(self) -> FaultReport
        ensures { result ≡ self.report }
    {
        self.report
    }

    /// Analyses a packet and writes it. At want of memory the packet isn't taken: nothing is written, and what waits and what is
    /// said of the faults are as they were; each later packet is refused for want of memory too. At a failed write the packet was
    /// analysed, and nothing waits.
    /// After a failed write it goes on: what wasn't written of what waited and of this packet is lost, and a later one comes behind.
    pub fn put<W: Sink>(&mut self, packet: &Packet, sink: &mut W) -> Result<(), RunFault>
        ensures analysed { OnOk result ((rate period : ℕ) (slots : List (List ℕ))
            → HasAnalysed self.old rate period slots
            → HasAnalysed self.new rate period (slots ++ packet.now ∷ [])) }
        ensures written { OnOk result
            (Sends (W.contents sink.old) (W.contents sink.new) (self.old.writer ++ packet.now) self.new.writer) }
        ensures begun { OnErr result
            (SendsBeginning (W.contents sink.old) (W.contents sink.new) (self.old.writer ++ packet.now)) }
        ensures failures { OnOk result (W.failures sink.new ≡ W.failures sink.old) }
        ensures memory { result ≡ Err RunFault.Memory → sink.new ≡ sink.old }
        ensures refused { result ≡ Err RunFault.Memory → self.new.analyser.is_refused ≡ true }
        ensures still_refused { self.old.analyser.is_refused ≡ true → result ≡ Err RunFault.Memory }
        ensures stays { result ≡ Err RunFault.Memory
            → (self.new.writer ≡ self.old.writer) × (self.new.faults ≡ self.old.faults) × (self.new.report ≡ self.old.report) }
        ensures failed_waiting { result ≡ Err RunFault.Write → self.new.writer ≡ [] }
        ensures failed_analysed { result ≡ Err RunFault.Write → (rate period : ℕ) (slots : List (List ℕ))
            → HasAnalysed self.old rate period slots
            → HasAnalysed self.new rate period (slots ++ packet.now ∷ []) }
        ensures failed { result ≡ Err RunFault.Write
            → FailsOnce (W.failures sink.old) (W.failures sink.new) }
    {
        self.analyse(packet)?;
        match self.writer.put(packet, sink) {
            Ok(()) => Ok(()),
            Err(_) => Err(RunFault::Write),
        }
    }

    /// Analyses a packet. At an `Err`, which is want of memory, no fault is counted or reported, and each later packet is refused
    /// too.
    fn analyse(&mut self, packet: &Packet) -> Result<(), AllocError>
        ensures analysed { OnOk result ((rate period : ℕ) (slots : List (List ℕ))
            → HasAnalysed self.old rate period slots
            → HasAnalysed self.new rate period (slots ++ packet.now ∷ [])) }
        ensures writer { self.new.writer ≡ self.old.writer }
        ensures refused { OnErr result (self.new.analyser.is_refused ≡ true) }
        ensures still_refused { self.old.analyser.is_refused ≡ true → IsErr result }
        ensures stays { OnErr result ((self.new.faults ≡ self.old.faults) × (self.new.report ≡ self.old.report)) }
    {
        self.told.clear();
        self.analyser.push_packet(packet, &mut self.told)?;
        let told = self.told.as_slice().len() as u64;
        self.faults = self.faults.saturating_add(told);
        self.report.add_all(self.told.as_slice());
        Ok(())
    }

    /// Writes what is in the buffer.
    /// After a failed write it goes on: what wasn't written is lost, and a later packet comes behind what was.
    pub fn flush<W: Sink>(&mut self, sink: &mut W) -> Result<(), RunFault>
        ensures stays { self.new ≡ record self.old { writer = [] } }
        ensures ok { OnOk result (Appends (W.contents sink.old) (W.contents sink.new) self.old.writer) }
        ensures begun { OnErr result
            (SendsBeginning (W.contents sink.old) (W.contents sink.new) self.old.writer) }
        ensures failures { OnOk result (W.failures sink.new ≡ W.failures sink.old) }
        ensures failed { OnErr result ((result ≡ Err RunFault.Write)
            × FailsOnce (W.failures sink.old) (W.failures sink.new)) }
    {
        match self.writer.flush(sink) {
            Ok(()) => Ok(()),
            Err(_) => Err(RunFault::Write),
        }
    }
}
