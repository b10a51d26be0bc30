//! The broadcast: its state, and what it does.

ghost use Rattle.std.specs.Prelude.{◌≡◌, ◌≢◌, ◌<◌, ◌≤◌, ◌^◌, ◌++◌, [], List, ℕ, Some, None, true, false, length, replicate, IfOk, IfSome, MatchOption};
ghost use Rattle.std.specs.List.{slice_get};
ghost use Rattle.mux.specs.History.{slots};
ghost use Rattle.mux.specs.declared.sending.Sending.{Sending as SlotAnswer};
ghost use Rattle.mux.specs.Lawful.{input_count};
ghost use Rattle.mux.specs.Totals.{IsTotals, IsCounts};
ghost use Rattle.station.specs.Stations.{rings_of};
ghost use Rattle.station.specs.Ticking.{Ticks};
ghost use Rattle.station.specs.Advancing.{Advances};
ghost use Rattle.station.specs.Opening.{IsOpened};
ghost use Rattle.station.specs.Settling.{IsSettled};
ghost use Rattle.feed.specs.Readers.{new_reader};
ghost use Rattle.broadcast.specs.Broadcasts.{IsLawfulBroadcast, LosesNothing, PublishesOn, emitted_by, behind_of, mark_of_published, new_broadcast};

use crate::feeding::{make_room, publish_on};
use crate::sending;
use crate::ticked::Ticked;
use crate::ticked_slot::TickedSlot;
use feed::{FeedReader, FeedWriter, Publisher, PublishingEnd};
use marks::Mark;
use mux::{Counts, Totals};
use port::{FinishedPort, Port};
use schedule::Schedule;
use station::{Settled, Station};
use std::alloc::{AllocError, Global};
use std::marker::Model;
use std::sync::Wait;
use tspkt::Packet;

/// How many steps `Broadcast::advance` takes at most: 256. The packets of so many slots have room without a request for memory.
pub const MAX_STEPS: usize = 256;

/// A station, and the feed that its packets are published to. Contracts see the station, which feed it is, what was published, and
/// whether the feed is sealed.
///
/// Whenever a broadcast is seen its station is sound and lawful, and what was published begins what the station sent. It isn't
/// `Drop`: end it by `close`.
pub struct Broadcast<E: PublishingEnd = Publisher> {
    station: Station,
    feed: FeedWriter<E>,
    /// The packets that went out in the last call.
    sent: Vec<Packet>,
    /// How many of these were appended to the feed.
    appended: usize,
}

impl<E: PublishingEnd> Model for Broadcast<E> {
    ghost use Rattle.std.specs.Prelude.{◌≤◌, length, drop, vec_capacity};
    ghost use Rattle.broadcast.specs.Broadcasts.{BroadcastValue};
    ghost use Rattle.broadcast.specs.Keeping.{KeepsFeed};

    ghost Value = { BroadcastValue };

    ghost view = { λ b. record {
      station = b.station;
      feed = b.feed.feed;
      published = b.feed.published;
      is_sealed = b.feed.is_sealed;
    } };

    ghost invariant = { λ b. KeepsFeed b.station b.feed (drop b.appended b.sent.items)
        × (b.appended ≤ length b.sent.items) × (256 ≤ vec_capacity b.sent) };
}

impl Broadcast {
    /// A broadcast of this schedule with nothing taken, sent or published, for at most this many slots (at most 2^40); the port of each
    /// input; and 1 to 4 readers, which read nothing yet. `Err` is want of memory.
    pub fn open<R: Wait>(
        rt: &R,
        alloc: Global,
        schedule: Schedule,
        slots: u64,
        readers: usize,
    ) -> Result<(Broadcast, Vec<Port>, Vec<FeedReader>), AllocError>
        requires slots { slots ≤ 2 ^ 40 }
        requires readers { (0 < readers) × (readers < 5) }
        ensures station { IfOk result (λ r. IsOpened schedule slots r.0.station r.1.items) }
        ensures feed { IfOk result (λ r. r.0 ≡ new_broadcast r.0.station r.0.feed) }
        ensures readers { IfOk result (λ r. r.2.items ≡ replicate readers (new_reader schedule r.0.feed)) }
    {
        let sent = Vec::with_capacity(alloc, MAX_STEPS)?;
        let (feed, readers) = feed::open(rt, alloc, &schedule, readers)?;
        match Station::open(alloc, schedule, slots) {
            Ok((station, ports)) => {
                let broadcast = Broadcast {
                    station,
                    feed,
                    sent,
                    appended: 0,
                };
                Ok((broadcast, ports, readers))
            }
            Err(refused) => {
                feed.close(rt);
                Err(refused)
            }
        }
    }
}

impl<E: PublishingEnd> Broadcast<E> {
    /// Ticks the station, and publishes what it sent. What the rings show is moved in, input 0 first, and then the next slot is
    /// sent, where it can be. `Memory` is answered, and the station isn't ticked, where a packet of an earlier call still waits for
    /// memory. `behind` is how many packets that went out aren't published: each is published by a later call. Where the feed is
    /// sealed nothing is published, and `Memory` is never answered. It waits for readers that are reading.
    pub fn tick<R: Wait>(&mut self, rt: &R) -> Ticked
        ensures ticks { (slot : SlotAnswer) → result.slot ≡ TickedSlot.Answered slot → Ticks self.old.station slot self.new.station }
        ensures memory { result.slot ≡ TickedSlot.Memory → (self.old.is_sealed ≡ false)
            × (self.new.station ≡ self.old.station) × (behind_of self.old ≢ []) }
        ensures publishes { PublishesOn self.old self.new }
        ensures nothing_lost { LosesNothing self.new }
        ensures behind { result.behind ≡ length (behind_of self.new) }
        ensures rings { rings_of self.new.station.inputs ≡ rings_of self.old.station.inputs }
        ensures run { self.new.station.history.run ≡ self.old.station.history.run }
    {
        let slot = self.tick_station();
        let behind = self.publish(rt);
        Ticked { slot, behind }
    }

    /// The same without publishing.
    fn tick_station(&mut self) -> TickedSlot
        ensures ticks { (slot : SlotAnswer) → result ≡ TickedSlot.Answered slot → Ticks self.old.station slot self.new.station }
        ensures memory { result ≡ TickedSlot.Memory → (self.old.is_sealed ≡ false)
            × (self.new.station ≡ self.old.station) × (behind_of self.old ≢ []) }
        ensures feed { self.new ≡ record self.old { station = self.new.station } }
        ensures rings { rings_of self.new.station.inputs ≡ rings_of self.old.station.inputs }
        ensures run { self.new.station.history.run ≡ self.old.station.history.run }
    {
        let Broadcast {
            station,
            feed,
            sent,
            appended,
        } = self;
        if !make_room(station, feed, sent, appended) {
            return TickedSlot::Memory;
        }
        TickedSlot::Answered(sending::tick(station, sent))
    }

    /// Lets the station go on as far as the rings show, by at most so many steps (at most 256), each of which sends the next slot or
    /// takes what comes next of the input that it waits for; and then publishes, once for all slots. The slot is answered as
    /// `Station::advance` does, `Sent` where all steps were done, or as `Memory` where `tick` does so; and all else is as of `tick`.
    pub fn advance<R: Wait>(&mut self, rt: &R, most: usize) -> Ticked
        requires { most ≤ 256 }
        ensures advances { (slot : SlotAnswer) → result.slot ≡ TickedSlot.Answered slot → (packets : List (List ℕ))
            × Advances most self.old.station slot self.new.station packets
            × (emitted_by self.new.station ≡ emitted_by self.old.station ++ packets) }
        ensures memory { result.slot ≡ TickedSlot.Memory → (self.old.is_sealed ≡ false)
            × (self.new.station ≡ self.old.station) × (behind_of self.old ≢ []) }
        ensures publishes { PublishesOn self.old self.new }
        ensures nothing_lost { LosesNothing self.new }
        ensures behind { result.behind ≡ length (behind_of self.new) }
        ensures rings { rings_of self.new.station.inputs ≡ rings_of self.old.station.inputs }
        ensures run { self.new.station.history.run ≡ self.old.station.history.run }
    {
        let slot = self.advance_station(most);
        let behind = self.publish(rt);
        Ticked { slot, behind }
    }

    /// The same without publishing.
    fn advance_station(&mut self, most: usize) -> TickedSlot
        requires { most ≤ 256 }
        ensures advances { (slot : SlotAnswer) → result ≡ TickedSlot.Answered slot → (packets : List (List ℕ))
            × Advances most self.old.station slot self.new.station packets
            × (emitted_by self.new.station ≡ emitted_by self.old.station ++ packets) }
        ensures memory { result ≡ TickedSlot.Memory → (self.old.is_sealed ≡ false)
            × (self.new.station ≡ self.old.station) × (behind_of self.old ≢ []) }
        ensures feed { self.new ≡ record self.old { station = self.new.station } }
        ensures rings { rings_of self.new.station.inputs ≡ rings_of self.old.station.inputs }
        ensures run { self.new.station.history.run ≡ self.old.station.history.run }
    {
        let Broadcast {
            station,
            feed,
            sent,
            appended,
        } = self;
        if !make_room(station, feed, sent, appended) {
            return TickedSlot::Memory;
        }
        TickedSlot::Answered(station.advance(most, sent))
    }

    /// Publishes what is behind, as far as there is memory, and answers how many packets still are. Where the feed is sealed nothing
    /// is published. It waits for readers that are reading.
    #[tactic(auto, using(crate::proofs::KeepingLaws::nothing_lost))]
    pub fn publish<R: Wait>(&mut self, rt: &R) -> u64
        ensures station { self.new.station ≡ self.old.station }
        ensures publishes { PublishesOn self.old self.new }
        ensures nothing_lost { LosesNothing self.new }
        ensures behind { result ≡ length (behind_of self.new) }
    {
        let Broadcast {
            station,
            feed,
            sent,
            appended,
        } = self;
        publish_on(rt, station, feed, sent.as_slice(), appended);
        self.behind()
    }

    /// How many packets that went out aren't published.
    pub fn behind(&self) -> u64
        ensures { result ≡ length (behind_of self.now) }
    {
        self.station.slots() - self.feed.mark().count()
    }

    /// The mark of all that was published. Where the feed is sealed it is as good as that of `seal`.
    pub fn mark(&self) -> Mark
        ensures { result ≡ mark_of_published self.now }
    {
        self.feed.mark()
    }

    /// Publishes what is behind, seals the feed, and answers the mark of all that was published, which is all that the station sent
    /// so far. Nothing is published after it, and what later calls send stays behind. `None`, with nothing sealed, is answered where
    /// there is no memory to publish all; and of a sealed feed. (No clause excludes `None` elsewhere.) It waits for readers that are
    /// reading.
    pub fn seal<R: Wait>(&mut self, rt: &R) -> Option<Mark>
        ensures station { self.new.station ≡ self.old.station }
        ensures unsealed { result ≡ None → PublishesOn self.old self.new }
        ensures sealed { IfSome result (λ mark. (self.old.is_sealed ≡ false)
            × (self.new ≡ record self.old { published = emitted_by self.old.station; is_sealed = true })
            × (mark ≡ mark_of_published self.new)) }
    {
        if self.is_sealed() {
            return None;
        }
        if self.publish(rt) > 0 {
            return None;
        }
        self.feed.seal()
    }

    /// Whether the feed is sealed.
    pub fn is_sealed(&self) -> bool
        ensures { result ≡ self.now.is_sealed }
    {
        self.feed.is_sealed()
    }

    /// What every broadcast keeps.
    pub fn known(&self)
        ensures { IsLawfulBroadcast self.now }
    {
        let _ = &self.feed;
        self.station.known();
    }

    /// How many slots were sent.
    pub fn slots(&self) -> u64
        ensures { result ≡ slots self.now.station.history.events }
    {
        self.station.slots()
    }

    /// The station, lent: what it says of its slots, inputs and streams.
    pub fn station(&self) -> &Station
        ensures { result.now ≡ self.now.station }
    {
        &self.station
    }

    /// What became of the packets that were taken of an input.
    pub fn totals(&self, input: usize) -> Totals
        requires { input < input_count self.now.station.history.run.schedule }
        ensures { IsTotals self.now.station.history.run.schedule input self.now.station.history.events result }
    {
        self.station.totals(input)
    }

    /// What the slots carried.
    pub fn counts(&self) -> Counts
        ensures { IsCounts self.now.station.history.events result }
    {
        self.station.counts()
    }

    /// What became of the packets that a port of this broadcast sent, which sends no more.
    pub fn settle(&mut self, port: FinishedPort) -> Settled
        requires { slice_get (rings_of self.old.station.inputs) port.port.ring.input ≡ Some port.port.ring }
        ensures same { self.new ≡ self.old }
        ensures settled { IsSettled self.old.station port result }
    {
        self.station.settle(port)
    }

    /// The same broadcast over an end that is made of this one, and of which all is known that is known of this one.
    pub fn map_end<N: PublishingEnd, M: FnOnce(E) -> N>(self, make: M) -> Broadcast<N>
        requires made { (end : E) → M.pre make end }
        requires marked { (end : E) (made : N) → M.post make end made → E.is_marked end → N.is_marked made }
        requires same { (end : E) (made : N) → M.post make end made → (N.feed made ≡ E.feed end) × (N.schedule made ≡ E.schedule end)
            × (N.published made ≡ E.published end) × (N.pending made ≡ E.pending end) }
        ensures { result ≡ self }
    {
        let Broadcast {
            station,
            feed,
            sent,
            appended,
        } = self;
        Broadcast {
            station,
            feed: feed.map_end(make),
            sent,
            appended,
        }
    }

    /// Waits for readers that are reading, and closes the feed: what wasn't published is lost to readers, and they aren't let in any
    /// more. The station comes back.
    pub fn close<R: Wait>(self, rt: &R) -> Station
        ensures { result ≡ self.station }
    {
        let Broadcast {
            station,
            feed,
            sent: _sent,
            appended: _,
        } = self;
        feed.close(rt);
        station
    }
}
