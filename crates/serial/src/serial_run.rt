//! The serial run.

use crate::ending::end_inputs;
use crate::feeding::read_on;
use crate::opening::open_inputs;
use crate::turn::Turn;
use inlets::{Entry, Step, take_step};
use mux::{Mux, OnePacket, Outgoing};
use outcome::{Summary, end_run};
use outlet::{RunFault, Sink, SlotWriter};
use reading::{InputLimit, PIECE, PacketReader, Source};
use schedule::Schedule;
use std::alloc::{AllocError, Global};

/// A run in one thread: the multiplex, its inputs, and what the output goes through.
#[derive(Drop)]
pub(crate) struct SerialRun<R> {
    mux: Mux,
    inputs: Vec<Entry<PacketReader<R>>>,
    piece: Vec<u8>,
    /// The packet of a slot on its way from the multiplex to the output.
    sent: OnePacket,
    output: SlotWriter,
}

impl<R: Source + Drop> SerialRun<R> {
    ghost use Rattle.std.specs.Prelude.{◌≡◌, ◌^◌, ◌<◌, ◌≤◌, ℕ, List, [], Option, Ok, length, map, IfOk, OnOk};
    ghost use Rattle.mux.specs.History.{Run};
    ghost use Rattle.mux.specs.Headline.{IsSound};
    ghost use Rattle.outcome.specs.Taking.{IsOver};
    ghost use Rattle.outcome.specs.Ending.{IsTold};
    ghost use Rattle.serial.specs.Feeding.{AllTellFailures};
    ghost use Rattle.serial.specs.Ending.{ended_of};
    ghost use Rattle.reading.specs.InputLimit.{IsAllowed};
    ghost use Rattle.reading.specs.declared.input_limit.InputLimit.{InputLimit as Limit};
    ghost use Rattle.serial.specs.Running.{IsRunning, GoesOn, steps_left};

    /// A run of a schedule for at most this many slots, whose inputs may have as many bytes as `limit` says at their sizes, and of
    /// which nothing was taken or sent.
    pub fn open(
        alloc: Global,
        schedule: Schedule,
        slots: u64,
        limit: InputLimit,
        readers: Vec<R>,
    ) -> Result<SerialRun<R>, AllocError>
        requires slots { slots ≤ 2 ^ 40 }
        requires limit { IsAllowed limit }
        requires readers { length readers.items ≡ length schedule.first.request.inputs }
        ensures running { IfOk result (λ r. IsRunning R.remaining (record { schedule = schedule; limit = slots }) limit (map R.remaining readers.items) r) }
        ensures new { IfOk result (λ r. r.mux.events ≡ []) }
        ensures waiting { IfOk result (λ r. r.output.writer ≡ []) }
        ensures failures { IfOk result (λ r. AllTellFailures R.failures (map R.failures readers.items) r.inputs.items) }
    {
        let piece = vec![in alloc; 0; PIECE]?;
        let plan = schedule.plan(0);
        let output = SlotWriter::new(alloc, plan.rate(), plan.request().watch())?;
        let inputs = open_inputs(alloc, &schedule, limit, readers)?;
        let mux = Mux::open(alloc, schedule, slots)?;
        Ok(SerialRun {
            mux,
            inputs,
            piece,
            sent: OnePacket::new(),
            output,
        })
    }

    /// What every run keeps.
    pub fn known(&self)
        ensures { IsSound self.now.mux }
    {
        self.mux.known();
    }

    /// What became of the run, and its readers.
    pub fn finish(self, alloc: Global) -> Result<(Summary, Vec<R>), AllocError>
        requires { length self.inputs.items ≡ length self.mux.run.schedule.first.request.inputs }
        ensures { IfOk result (λ done. IsTold self.mux.run.schedule self.mux.events (map ended_of self.inputs.items) self.output done.0 done.1.items) }
    {
        let SerialRun {
            mux,
            inputs,
            output,
            ..
        } = self;
        let ended = end_inputs(alloc, inputs)?;
        end_run(alloc, &mux, ended, output)
    }

    /// Sends slots until nothing is left to send or the run has all its slots, and writes what is in the buffer.
    pub fn drive<W: Sink>(&mut self, sink: &mut W) -> Result<(), RunFault>
        requires { (run : Run) × (limit : Limit) × (starts : List (Option (List ℕ))) × IsRunning R.remaining run limit starts self.old }
        ensures goes { GoesOn R.remaining R.failures W.contents W.failures self.old sink.old result self.new sink.new }
        ensures over { OnOk result (IsOver self.new.mux.run self.new.mux.events) }
        ensures flushed { OnOk result (self.new.output.writer ≡ []) }
    {
        loop {
            match self.step(sink)? {
                Turn::Goes => {}
                Turn::Over => break,
            }
        }
        self.output.flush(sink)
    }

    /// One step: the next slot is sent, or the next plan comes into force, or the input for which the multiplex waits has its turn. Before
    /// that input is read what waits is written.
    fn step<W: Sink>(&mut self, sink: &mut W) -> Result<Turn, RunFault>
        requires { (run : Run) × (limit : Limit) × (starts : List (Option (List ℕ))) × IsRunning R.remaining run limit starts self.old }
        ensures goes { GoesOn R.remaining R.failures W.contents W.failures self.old sink.old result self.new sink.new }
        ensures fewer { result ≡ Ok Turn.Goes
            → steps_left self.old.mux.run self.new.mux.events < steps_left self.old.mux.run self.old.mux.events }
        ensures over { result ≡ Ok Turn.Over → IsOver self.new.mux.run self.new.mux.events }
    {
        self.mux.schedule().known();
        let SerialRun {
            mux,
            inputs,
            piece,
            sent,
            output,
        } = self;
        sent.clear();
        match take_step(mux, inputs, sent) {
            Step::Sent => {
                output.put(sent.last(), sink)?;
                Ok(Turn::Goes)
            }
            Step::Switched | Step::Turned => Ok(Turn::Goes),
            Step::Waits(input) => {
                let piece = piece.as_mut_slice();
                read_on(mux, input, &mut inputs[input], piece, output, sink)?;
                Ok(Turn::Goes)
            }
            Step::Done | Step::RunFull => Ok(Turn::Over),
        }
    }
}
