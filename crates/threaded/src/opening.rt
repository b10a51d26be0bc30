//! A run before its workers are started.

ghost use Rattle.std.specs.Prelude.{◌≡◌, ◌^◌, ◌≤◌, [], length, vec_capacity, IfOk};
ghost use Rattle.outlet.specs.Sending.{HasAnalysed};
ghost use Rattle.station.specs.Opening.{IsOpened};
ghost use Rattle.threaded.specs.Opening.{IsReady};

use crate::seats::seats;
use outcome::Ended;
use outlet::SlotWriter;
use port::Port;
use reading::Source;
use schedule::Schedule;
use signals::{OutputSignals, Signals};
use station::Station;
use std::alloc::{AllocError, Global};
use worker::Gate;
use workers::WorkHandle;

/// A run before its workers are started: the station, what each worker is made of, what the output goes through, what the
/// threads tell one another, and room for the threads of the workers and for what they leave.
pub(crate) struct Opening<R: Source + Drop, G: Gate + Drop> {
    pub station: Station,
    pub seats: Vec<((R, G), Port)>,
    pub output: SlotWriter,
    pub signals: Signals,
    pub told: OutputSignals,
    pub handles: Vec<WorkHandle<R, G>>,
    pub ended: Vec<Ended<(R, G)>>,
}

/// What the output of a schedule goes through.
fn open_output(alloc: Global, schedule: &Schedule) -> Result<SlotWriter, AllocError>
    ensures analysed { IfOk result (λ o. HasAnalysed o schedule.now.first.request.rate schedule.now.first.request.watch []) }
    ensures waiting { IfOk result (λ o. o.writer ≡ []) }
{
    let plan = schedule.plan(0);
    SlotWriter::new(alloc, plan.rate(), plan.request().watch())
}

/// The station of a schedule for at most so many slots, and the port of each input, in their order.
fn open_station(
    alloc: Global,
    schedule: &Schedule,
    slots: u64,
) -> Result<(Station, Vec<Port>), AllocError>
    requires { slots ≤ 2 ^ 40 }
    ensures { IfOk result (λ o. IsOpened schedule.now slots o.0 o.1.items) }
{
    Station::open(alloc, schedule.copy(alloc)?, slots)
}

/// A run of a schedule for at most this many slots, with a reader and a gate an input. `Err` is want of memory.
pub(crate) fn open<R: Source + Drop, G: Gate + Drop>(
    alloc: Global,
    schedule: &Schedule,
    slots: u64,
    readers: Vec<R>,
    gates: Vec<G>,
) -> Result<Opening<R, G>, AllocError>
    requires { slots ≤ 2 ^ 40 }
    ensures ready { IfOk result (λ o. IsReady schedule.now slots readers.items gates.items o.station o.seats.items) }
    ensures analysed { IfOk result (λ o. HasAnalysed o.output schedule.now.first.request.rate schedule.now.first.request.watch []) }
    ensures waiting { IfOk result (λ o. o.output.writer ≡ []) }
    ensures handles { IfOk result (λ o. (o.handles.items ≡ []) × (length o.seats.items ≤ vec_capacity o.handles)) }
    ensures ended { IfOk result (λ o. (o.ended.items ≡ []) × (length o.seats.items ≤ vec_capacity o.ended)) }
{
    let output = open_output(alloc, schedule)?;
    let ring = schedule.plan(0).request().ring();
    let (signals, told) = Signals::open(alloc, readers.len(), ring)?;
    let (station, ports) = open_station(alloc, schedule, slots)?;
    let seats = seats(alloc, readers, gates, ports)?;
    let (handles, ended) = (
        Vec::with_capacity(alloc, seats.len())?,
        Vec::with_capacity(alloc, seats.len())?,
    );
    Ok(Opening {
        station,
        seats,
        output,
        signals,
        told,
        handles,
        ended,
    })
}
