//! The watch of a PID's continuity counter.

use std::marker::Model;
use tspkt::Packet;

/// Watches the continuity counter of the packets of one PID (ISO/IEC 13818-1, 2.4.3.3; ETSI TR 101 290, 5.2.1:
/// Continuity_count_error). It keeps the last packet, and whether that one is a copy of the one before it.
#[derive(Drop)]
pub struct CounterWatch {
    last: Packet,
    is_copy: bool,
}

impl Model for CounterWatch {
    ghost use Rattle.analyse.specs.CounterWatching.{CounterState};

    ghost Value = { CounterState };

    ghost view = { λ w. record { last = w.last; is_copy = w.is_copy } };
}

impl CounterWatch {
    ghost use Rattle.std.specs.Prelude.{◌≡◌, [], ◌∷◌, ◌++◌, ℕ, List};
    ghost use Rattle.tspkt.specs.Counters.{lawful_of};
    ghost use Rattle.analyse.specs.CounterWatching.{HasSeenPackets, is_next_lawful, steps_to};
    ghost use Rattle.analyse.specs.Faults.{last_is_lawful};

    /// A watch that has seen the first packet of a PID.
    pub fn new(first: &Packet) -> CounterWatch
        ensures { HasSeenPackets result (first.now ∷ []) }
    {
        CounterWatch {
            last: *first,
            is_copy: false,
        }
    }

    /// Whether the counter of the next packet steps with payload, or stays without.
    fn steps_to(&self, next: &Packet) -> bool
        ensures { result ≡ steps_to self.now.last next.now }
    {
        let last = self.last.counter();
        if next.has_payload() {
            next.counter() == (last + 1) % 16
        } else {
            next.counter() == last
        }
    }

    /// Whether the next packet is lawful, where it is a copy of the last one or not.
    #[inline(always)]
    fn is_lawful(&self, next: &Packet, is_copy: bool) -> bool
        ensures { result ≡ is_next_lawful self.now next.now is_copy }
    {
        next.discontinuity() || self.steps_to(next) || is_copy && !self.is_copy
    }

    /// Sees the next packet of the PID, and tells whether it is lawful behind those before it.
    #[inline(always)]
    pub fn push(&mut self, next: &Packet) -> bool
        ensures seen { (packets : List (List ℕ)) → HasSeenPackets self.old packets
            → HasSeenPackets self.new (packets ++ next.now ∷ []) }
        ensures lawful { (packets : List (List ℕ)) → HasSeenPackets self.old packets
            → result ≡ last_is_lawful (lawful_of (packets ++ next.now ∷ [])) }
    {
        if self.last.counter() == next.counter() {
            return self.push_same(next);
        }
        let lawful = self.is_lawful(next, false);
        self.is_copy = false;
        self.last = *next;
        lawful
    }

    /// The same, where the packet can be a copy of the last one.
    #[inline(never)]
    fn push_same(&mut self, next: &Packet) -> bool
        ensures seen { (packets : List (List ℕ)) → HasSeenPackets self.old packets
            → HasSeenPackets self.new (packets ++ next.now ∷ []) }
        ensures lawful { (packets : List (List ℕ)) → HasSeenPackets self.old packets
            → result ≡ last_is_lawful (lawful_of (packets ++ next.now ∷ [])) }
    {
        let is_copy = self.last.is_copy(next);
        let lawful = self.is_lawful(next, is_copy);
        self.is_copy = is_copy;
        self.last = *next;
        lawful
    }
}
