//! The station: its state, and its ticks.

mod by_value;

ghost use Rattle.std.specs.Prelude.{◌≡◌, ◌<◌, ◌≤◌, ◌^◌, ◌+◌, ◌-◌, ◌++◌, ℕ, List, Some, length, map, vec_len, vec_capacity, IfOk};
ghost use Rattle.std.specs.List.{slice_get};
ghost use Rattle.request.specs.declared.stream.Stream.{Stream};
ghost use Rattle.schedule.specs.Streams.{all_streams};
ghost use Rattle.mux.specs.History.{slots, emitted, is_closed};
ghost use Rattle.mux.specs.Lawful.{input_count};
ghost use Rattle.mux.specs.Peaks.{IsPeak};
ghost use Rattle.mux.specs.Totals.{IsTotals, IsCounts};
ghost use Rattle.mux.specs.Headline.{IsSound};
ghost use Rattle.station.specs.Stations.{IsLawfulStation, rings_of};
ghost use Rattle.station.specs.Ticking.{Ticks, MovesAll};
ghost use Rattle.station.specs.Advancing.{Advances, AdvancesBehind};
ghost use Rattle.station.specs.Opening.{IsOpened, new_entry};
ghost use Rattle.station.specs.Settling.{IsSettled};

use crate::advancing::advance_behind;
use crate::moving::move_in;
use crate::settled::Settled;
use inlets::Entry;
use mux::{Counts, Mux, Outgoing, Peak, Sending, Totals};
use port::{FinishedPort, Port, RingEnd, ports};
use schedule::Schedule;
use std::alloc::{AllocError, Global};
use std::marker::Model;
use tspkt::Packet;

/// A multiplex, and the rings that its inputs' packets come through. Contracts see the history of the multiplex, and of each
/// input what came out of its ring and the packet that is shown.
///
/// Whenever a station is seen its history is lawful, and of each input the packets that came out of the ring are those that
/// were taken, and then the one that is shown: it was refused, and is offered again.
#[derive(Drop)]
pub struct Station {
    mux: Mux,
    entries: Vec<Entry<RingEnd>>,
    /// How many packets a ring has room for.
    ring: usize,
}

impl Model for Station {
    ghost use Rattle.std.specs.Prelude.{◌≡◌};
    ghost use Rattle.station.specs.Stations.{StationValue, IsLawfulStation};

    ghost Value = { StationValue };

    ghost view = { λ s. record { history = s.mux; inputs = s.entries.items } };

    ghost invariant = { λ s. IsLawfulStation s.mux s.entries.items
        × (s.ring ≡ s.mux.run.schedule.first.request.ring) };
}

/// The inputs that come through these rings, of which nothing came.
fn new_entries(alloc: Global, ends: Vec<RingEnd>) -> Result<Vec<Entry<RingEnd>>, AllocError>
    ensures { IfOk result (λ v. v.items ≡ map new_entry ends.items) }
{
    let mut entries = Vec::new(alloc);
    for end in ends {
        entries.push(Entry {
            inlet: end,
            is_closed: false,
        })?;
    }
    Ok(entries)
}

/// Moves what the rings show into the multiplex, input 0 first, at most so many packets an input.
fn move_all(mux: &mut Mux, entries: &mut Vec<Entry<RingEnd>>, most: usize)
    requires { IsLawfulStation mux.old entries.old.items }
    ensures moves { MovesAll 0 most mux.old entries.old.items mux.new entries.new.items }
    ensures lawful { IsLawfulStation mux.new entries.new.items }
    ensures run { mux.new.run ≡ mux.old.run }
{
    for number in 0..entries.len() {
        move_in(mux, number, &mut entries[number], most);
    }
}

impl Station {
    /// A station of this schedule with nothing taken or sent, for at most this many slots (at most 2^40), and the port of each
    /// input. `Err` is want of memory.
    pub fn open(
        alloc: Global,
        schedule: Schedule,
        slots: u64,
    ) -> Result<(Station, Vec<Port>), AllocError>
        requires { slots ≤ 2 ^ 40 }
        ensures { IfOk result (λ r. IsOpened schedule slots r.0 r.1.items) }
    {
        let plan = schedule.plan(0);
        let ring = plan.request().ring();
        let (ports, ends) = ports(alloc, plan.inputs().len(), ring)?;
        let entries = new_entries(alloc, ends)?;
        let mux = Mux::open(alloc, schedule, slots)?;
        Ok((Station { mux, entries, ring }, ports))
    }

    /// Moves what the rings show into the multiplex, input 0 first, at most as many packets an input as a ring has room for,
    /// and then sends the next slot, or goes over to the next plan, where the multiplex can. A packet that isn't taken is held, and stays
    /// the next one of its input. An input is closed at its end mark, and where its next packet can never be taken: its plan has no
    /// stream of its PID, or its time is before that of the packet taken before it. No memory is asked for. The packet of
    /// the slot goes behind those that `out` has, which needs room for it.
    pub fn tick_behind<O: Outgoing>(&mut self, out: &mut O) -> Sending
        requires { 0 < O.room out.old }
        ensures ticks { Ticks self.old result self.new }
        ensures emitted { (packets : List (List ℕ)) × (O.packets out.new ≡ O.packets out.old ++ packets)
            × (emitted self.new.history.run.schedule self.new.history.events
            ≡ emitted self.old.history.run.schedule self.old.history.events ++ packets)
            × (O.room out.old ≤ O.room out.new + length packets) }
        ensures rings { rings_of self.new.inputs ≡ rings_of self.old.inputs }
        ensures run { self.new.history.run ≡ self.old.history.run }
    {
        move_all(&mut self.mux, &mut self.entries, self.ring);
        self.mux.send_next(out)
    }

    /// Goes on as far as the rings show, by at most so many steps, in one go: a step sends the next slot, or goes over to the next plan,
    /// or takes what comes next of the input that the multiplex waits for. So a packet is taken no sooner than it is needed. `Sent` is answered where all
    /// steps were done; else the answer says why there is no further one: the run is done, it has all its slots, or nothing is
    /// seen in the ring of the input that isn't ready. `sent` is left with the packets of the slots, for which it needs room: no memory is
    /// asked for.
    pub fn advance(&mut self, most: usize, sent: &mut Vec<Packet>) -> Sending
        requires { most ≤ vec_capacity sent.old }
        ensures advances { Advances most self.old result self.new sent.new.items }
        ensures emitted { emitted self.new.history.run.schedule self.new.history.events
            ≡ emitted self.old.history.run.schedule self.old.history.events ++ sent.new.items }
        ensures rings { rings_of self.new.inputs ≡ rings_of self.old.inputs }
        ensures run { self.new.history.run ≡ self.old.history.run }
        ensures room { vec_capacity sent.old ≤ vec_capacity sent.new }
    {
        sent.clear();
        self.advance_behind(most, sent)
    }

    /// Goes on as `advance` does, and puts the packets of the slots behind those that `sent` has. It needs room for both.
    pub fn advance_behind(&mut self, most: usize, sent: &mut Vec<Packet>) -> Sending
        requires { vec_len sent.old + most ≤ vec_capacity sent.old }
        ensures advances { AdvancesBehind most self.old sent.old.items result self.new sent.new.items }
        ensures emitted { (packets : List (List ℕ)) → sent.new.items ≡ sent.old.items ++ packets
            → emitted self.new.history.run.schedule self.new.history.events
            ≡ emitted self.old.history.run.schedule self.old.history.events ++ packets }
        ensures rings { rings_of self.new.inputs ≡ rings_of self.old.inputs }
        ensures run { self.new.history.run ≡ self.old.history.run }
        ensures room { (vec_len sent.new ≤ vec_len sent.old + most) × (vec_capacity sent.old ≤ vec_capacity sent.new) }
    {
        advance_behind(&mut self.mux, &mut self.entries, most, sent)
    }

    /// The multiplex.
    pub fn mux(&self) -> &Mux
        ensures { result.now ≡ self.now.history }
    {
        &self.mux
    }

    /// What every station keeps.
    pub fn known(&self)
        ensures sound { IsSound self.now.history }
        ensures lawful { IsLawfulStation self.now.history self.now.inputs }
    {
        self.mux.known();
    }

    /// How many slots were sent.
    pub fn slots(&self) -> u64
        ensures { result ≡ slots self.now.history.events }
    {
        self.mux.slots()
    }

    /// What became of the packets that were taken of an input.
    pub fn totals(&self, input: usize) -> Totals
        requires { input < input_count self.now.history.run.schedule }
        ensures { IsTotals self.now.history.run.schedule input self.now.history.events result }
    {
        self.mux.totals(input)
    }

    /// What the slots carried.
    pub fn counts(&self) -> Counts
        ensures { IsCounts self.now.history.events result }
    {
        self.mux.counts()
    }

    /// The largest delay of a stream's packets that were sent, and the most packets that ever waited in its queue. The stream
    /// is named by its place in the schedule.
    pub fn peak(&self, place: usize) -> Peak
        requires { place < length (all_streams self.now.history.run.schedule) }
        ensures { (st : Stream) → slice_get (all_streams self.now.history.run.schedule) place ≡ Some st
            → IsPeak self.now.history.run.schedule self.now.history.events st result }
    {
        self.mux.peak(place)
    }

    /// Whether an input is closed: nothing more is taken of it.
    pub fn is_closed(&self, input: usize) -> bool
        requires { input < input_count self.now.history.run.schedule }
        ensures { result ≡ is_closed input self.now.history.events }
    {
        self.entries[input].is_closed
    }

    /// What became of the packets that a port of this station sent, which sends no more.
    pub fn settle(&mut self, port: FinishedPort) -> Settled
        requires { slice_get (rings_of self.old.inputs) port.port.ring.input ≡ Some port.port.ring }
        ensures same { self.new ≡ self.old }
        ensures settled { IsSettled self.old port result }
    {
        let mut port = port;
        let input = port.input();
        let entry = &mut self.entries[input];
        let left = entry.inlet.left(&mut port);
        let held = if entry.inlet.is_showing() { 1 } else { 0 };
        Settled {
            taken: self.mux.totals(input).taken,
            held,
            left,
        }
    }
}
