//! An input on its way into its ring.

ghost use Rattle.std.specs.Prelude.{◌≡◌, MatchBool};
ghost use Rattle.worker.specs.Stops.{StopsOnce};
ghost use Rattle.worker.specs.Sending.{first_cause};

use crate::gate::Gate;
use crate::place_wait::PlaceWait;
use crate::point::Point;
use port::{FinishedPort, Port};
use reading::{Look, PIECE, PacketReader, Report, Source, Stop};
use schedule::Schedule;
use std::alloc::Global;
use std::sync::Wait;
use std::time::Clock;

/// An input that is read, the port that its packets go to, and the gate that may stop it.
#[derive(Drop)]
pub(crate) struct Sender<R, G> {
    pub schedule: Schedule,
    pub reader: PacketReader<R>,
    pub gate: G,
    pub port: Port,
    pub wait: PlaceWait,
}

impl<R: Source + Drop, G: Gate + Drop> Sender<R, G> {
    ghost use Rattle.std.specs.Prelude.{◌≡◌, ◌<◌, ◌⊎◌, ℕ, List, Option, length, true, false, None, Some, IfSome, IsSome, MatchBool};
    ghost use Rattle.reading.specs.PacketReading.{IsSpent};
    ghost use Rattle.reading.specs.declared.stop.Stop.TheVariants.{Gate, Memory, ReadFailed};
    ghost use Rattle.worker.specs.Stops.{StopsOnce};
    ghost use Rattle.worker.specs.Sending.{HasSent, SendsOn, first_cause};

    /// Sends all packets of the input that a plan names, and answers what stopped it, if anything did beside the input: the
    /// gate, or want of memory to read with.
    pub fn send<T: Wait + Clock>(&mut self, alloc: Global, rt: &T) -> Option<Stop>
        requires { self.old.reader.held ≡ None }
        ensures sent { SendsOn R.remaining R.failures self.old self.new }
        ensures over { result ≡ None
            → IsSpent self.new.reader ⊎ (self.new.reader.report.stopped ≡ Some Memory) }
        ensures causes { IfSome result (λ stop. (stop ≡ Gate) ⊎ (stop ≡ Memory)) }
        ensures refused { result ≡ Some Memory → self.new ≡ self.old }
        ensures unfailed { result ≡ Some Gate → (start : Option (List ℕ)) → HasSent R.remaining start self.old
            → self.new.reader.report.stopped ≡ Some ReadFailed → ⊥ }
        ensures stopped { result ≡ Some Gate → StopsOnce (G.stops self.old.gate) (G.stops self.new.gate) }
        ensures gate { (result ≡ Some Gate → ⊥) → G.stops self.new.gate ≡ G.stops self.old.gate }
    {
        let Ok(mut piece) = vec![in alloc; 0; PIECE] else {
            return Some(Stop::Memory);
        };
        self.send_all(rt, piece.as_mut_slice())
    }

    /// The same, in pieces of at most the length of `piece`. The gate isn't asked behind a failed read.
    fn send_all<T: Wait + Clock>(&mut self, rt: &T, piece: &mut [u8]) -> Option<Stop>
        requires piece { 0 < length piece.old }
        requires held { self.old.reader.held ≡ None }
        ensures sent { SendsOn R.remaining R.failures self.old self.new }
        ensures over { result ≡ None
            → IsSpent self.new.reader ⊎ (self.new.reader.report.stopped ≡ Some Memory) }
        ensures causes { IfSome result (λ stop. stop ≡ Gate) }
        ensures stopped { result ≡ Some Gate → StopsOnce (G.stops self.old.gate) (G.stops self.new.gate) }
        ensures gate { (result ≡ Some Gate → ⊥) → G.stops self.new.gate ≡ G.stops self.old.gate }
        ensures unfailed { result ≡ Some Gate → (start : Option (List ℕ)) → HasSent R.remaining start self.old
            → self.new.reader.report.stopped ≡ Some ReadFailed → ⊥ }
    {
        for _ in rt.forever() {
            match self.reader.look(&self.schedule) {
                Look::Packet(place) => {
                    if !self.send_held(rt, place) {
                        return Some(Stop::Gate);
                    }
                }
                Look::More => {
                    if !self.gate.pass(Point::Read) {
                        return Some(Stop::Gate);
                    }
                    if self.reader.read(piece).is_err() {
                        return None;
                    }
                }
                Look::Over => return None,
            }
        }
        unreachable!()
    }

    /// Sends the packet that the reader holds, with the place of its stream. False is answered where the gate said no, before or after
    /// it was sent.
    fn send_held<T: Wait + Clock>(&mut self, rt: &T, place: usize) -> bool
        requires { IsSome self.old.reader.held }
        ensures sent { SendsOn R.remaining R.failures self.old self.new }
        ensures stopped { self.new.reader.report.stopped ≡ self.old.reader.report.stopped }
        ensures released { result ≡ true → self.new.reader.held ≡ None }
        ensures gate { MatchBool result (G.stops self.new.gate ≡ G.stops self.old.gate)
            (StopsOnce (G.stops self.old.gate) (G.stops self.new.gate)) }
    {
        for _ in rt.forever() {
            let is_sent = self.port.send_for(place, &self.reader.held().unwrap());
            if is_sent {
                self.reader.release();
                self.wait.ends();
                return self.gate.pass(Point::Offered);
            }
            if !self.gate.pass(Point::Full) {
                return false;
            }
            self.wait.waits(rt);
        }
        unreachable!()
    }

    /// Ends the port, with the end mark unless the gate says no or said so before, and tells what was found. `stop` is what
    /// stopped the sending beside what stopped the reading.
    pub fn finish<T: Wait + Clock>(self, rt: &T, stop: Option<Stop>) -> (Report, FinishedPort, R, G)
        ensures source { result.2 ≡ self.reader.stream.source }
        ensures port { result.1.port ≡ self.port }
        ensures counts { result.0 ≡ record self.reader.report { stopped = result.0.stopped } }
        ensures cause { result.0.stopped ≡ first_cause self.reader.report.stopped stop result.1.is_ended }
        ensures stopped { stop ≡ Some Gate
            → (G.stops result.3 ≡ G.stops self.gate) × (result.1.is_ended ≡ false) }
        ensures gate { (stop ≡ Some Gate → ⊥) → MatchBool result.1.is_ended
            (G.stops result.3 ≡ G.stops self.gate) (StopsOnce (G.stops self.gate) (G.stops result.3)) }
    {
        let Sender {
            reader,
            mut gate,
            port,
            mut wait,
            ..
        } = self;
        let finished = if matches!(stop, Some(Stop::Gate)) {
            port.finish()
        } else {
            end(rt, port, &mut gate, &mut wait)
        };
        wait.ends();
        let report = reader.report();
        let stopped = cause(report.stopped, stop, finished.is_ended());
        let report = Report { stopped, ..report };
        (report, finished, reader.into_source(), gate)
    }
}

/// What stopped a worker first: what stopped its reading, or else its sending, or else the gate, where no end mark was sent.
fn cause(reading: Option<Stop>, sending: Option<Stop>, is_ended: bool) -> Option<Stop>
    ensures { result ≡ first_cause reading sending is_ended }
{
    match (reading, sending) {
        (Some(stop), _) => Some(stop),
        (None, Some(stop)) => Some(stop),
        (None, None) if is_ended => None,
        (None, None) => Some(Stop::Gate),
    }
}

/// Ends a port with the end mark, or without it where the gate says no before the mark found a free place.
pub(crate) fn end<G: Gate, T: Wait + Clock>(
    rt: &T,
    port: Port,
    gate: &mut G,
    wait: &mut PlaceWait,
) -> FinishedPort
    ensures port { result.port ≡ port }
    ensures gate { MatchBool result.is_ended (G.stops gate.new ≡ G.stops gate.old)
        (StopsOnce (G.stops gate.old) (G.stops gate.new)) }
{
    let mut port = port;
    for _ in rt.forever() {
        match port.end() {
            Ok(finished) => return finished,
            Err(back) => port = back,
        }
        if !gate.pass(Point::Full) {
            return port.finish();
        }
        wait.waits(rt);
    }
    unreachable!()
}
