//! A worker.

ghost use Rattle.std.specs.Prelude.{◌≡◌, ◌<◌, ◌≤◌, length};
ghost use Rattle.tspkt.specs.declared.framer.TheConstants.{MAX_LIMIT};
ghost use Rattle.tspkt.specs.declared.packet_size.PacketSize.{PacketSize};
ghost use Rattle.reading.specs.InputLimit.{limit_of_input};

use crate::gate::Gate;
use crate::place_wait::PlaceWait;
use crate::sender::Sender;
use crate::wakes::Wakes;
use port::{FinishedPort, Port};
use reading::{InputLimit, PacketReader, Report, Source, Stop};
use schedule::Schedule;
use std::alloc::Global;
use std::sync::Wait;
use std::time::Clock;

/// An input of a schedule, how many bytes it may have, what it is read from, the port that its packets go to, and the gate that may stop it.
#[derive(Drop)]
pub struct Worker<R, G> {
    alloc: Global,
    schedule: Schedule,
    number: usize,
    limit: InputLimit,
    source: R,
    gate: G,
    port: Port,
    wait: PlaceWait,
    ghost known: { number < length schedule.first.request.inputs },
    ghost within: { (size : PacketSize) → limit_of_input limit size ≤ MAX_LIMIT },
    ghost unsent: { length port.sent ≡ 0 },
}

impl<R: Source + Drop, G: Gate + Drop> Worker<R, G> {
    ghost use Rattle.std.specs.Prelude.{◌≡◌, ◌<◌, ◌⊎◌, ℕ, [], List, length, true, false, None, Some, IfSome, IsSome, MatchBool};
    ghost use Rattle.std.specs.List.{slice_get};
    ghost use Rattle.request.specs.Request.{InputValue};
    ghost use Rattle.reading.specs.Failures.{FailsOnce};
    ghost use Rattle.reading.specs.InputLimit.{IsAllowed, limit_of_input};
    ghost use Rattle.reading.specs.Takeable.{origin_of};
    ghost use Rattle.worker.specs.Stops.{StopsOnce};
    ghost use Rattle.worker.specs.Working.{HasWorked};

    /// The worker of the schedule's input with this number, which may have as many bytes as `limit` says (up to 140,737,488,355,328),
    /// and whose port sent nothing yet. It takes no memory before it runs.
    pub fn new(
        alloc: Global,
        source: R,
        gate: G,
        port: Port,
        schedule: Schedule,
        number: usize,
        limit: InputLimit,
    ) -> Worker<R, G>
        requires number { number < length schedule.first.request.inputs }
        requires limit { IsAllowed limit }
        requires unsent { port.sent ≡ [] }
        ensures input { (result.schedule ≡ schedule) × (result.number ≡ number) × (result.limit ≡ limit) }
        ensures ends { (result.source ≡ source) × (result.gate ≡ gate) × (result.port ≡ port) }
    {
        Worker {
            alloc,
            schedule,
            number,
            limit,
            source,
            gate,
            port,
            wait: PlaceWait::asleep(),
        }
    }

    /// The same worker, which is woken where there is a place in its ring, and wakes whoever takes its packets: a worker by itself sleeps
    /// 50 microseconds at a time at a full ring, and wakes nobody.
    pub fn woken(self, wakes: Wakes) -> Worker<R, G>
        ensures input { (result.schedule ≡ self.schedule) × (result.number ≡ self.number) × (result.limit ≡ self.limit) }
        ensures ends { (result.source ≡ self.source) × (result.gate ≡ self.gate) × (result.port ≡ self.port) }
    {
        let Worker {
            alloc,
            schedule,
            number,
            limit,
            source,
            gate,
            port,
            ..
        } = self;
        let wait = PlaceWait::woken(wakes);
        Worker {
            alloc,
            schedule,
            number,
            limit,
            source,
            gate,
            port,
            wait,
        }
    }

    /// Reads the input, and sends its packets that the plans name, each with its time, until the input ends, a fault ends it,
    /// or the gate says no. Then it sends the end mark, unless the gate said no. The gate is asked before each read, after each packet that went into the ring, and after each packet or end mark that found it full.
    ///
    /// It answers what was found in the input, the finished port, and the source and the gate. Of several causes that stop it
    /// the first is told. The end mark was sent exactly where the gate never said no.
    pub fn run<T: Wait + Clock>(self, rt: &T) -> (Report, FinishedPort, R, G)
        ensures sent { (input : InputValue) → slice_get self.schedule.first.request.inputs self.number ≡ Some input
            → HasWorked (limit_of_input self.limit input.size) self.schedule (origin_of self.number input) (R.remaining self.source) (R.remaining result.2)
            self.port.ring result.0 result.1 }
        ensures failed { result.0.stopped ≡ Some Stop.ReadFailed
            → FailsOnce (R.failures self.source) (R.failures result.2) }
        ensures gate { result.0.stopped ≡ Some Stop.Gate → StopsOnce (G.stops self.gate) (G.stops result.3) }
        ensures left { result.0.stopped ≡ Some Stop.Gate → result.1.is_ended ≡ false }
        ensures unfailed { (result.0.stopped ≡ Some Stop.ReadFailed → ⊥)
            → R.failures result.2 ≡ R.failures self.source }
        ensures marked { result.1.is_ended ≡ false → StopsOnce (G.stops self.gate) (G.stops result.3) }
        ensures heeded { result.1.is_ended ≡ true → G.stops result.3 ≡ G.stops self.gate }
    {
        let Worker {
            alloc,
            schedule,
            number,
            limit,
            source,
            gate,
            port,
            wait,
        } = self;
        schedule.known();
        let input = &schedule.plan(0).inputs()[number];
        let most = limit.bytes(input.size);
        let reader = PacketReader::new(alloc, number, input, source, most);
        let mut sender = Sender {
            schedule,
            reader,
            gate,
            port,
            wait,
        };
        let stop = sender.send(alloc, rt);
        sender.finish(rt, stop)
    }
}
