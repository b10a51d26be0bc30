//! The watches of the continuity counters of all PIDs.

ghost use Rattle.std.specs.Prelude.{◌≡◌, [], ◌∷◌, ◌++◌, ℕ, List, not};
ghost use Rattle.tspkt.specs.Counters.{lawful_of};
ghost use Rattle.analyse.specs.CountersWatching.{HasSeenIfAny};
ghost use Rattle.analyse.specs.Faults.{last_is_lawful};

use crate::counter_watch::CounterWatch;
use std::alloc::{AllocError, Global};
use std::marker::Model;
use tspkt::{NULL_PID, PID_COUNT, Packet};

/// Sees the next packet of a PID, and tells whether it isn't lawful. The first one makes the PID's watch.
#[inline(always)]
fn see_packet(watch: &mut Option<CounterWatch>, packet: &Packet) -> bool
    ensures seen { (packets : List (List ℕ)) → HasSeenIfAny watch.old packets
        → HasSeenIfAny watch.new (packets ++ packet.now ∷ []) }
    ensures bad { (packets : List (List ℕ)) → HasSeenIfAny watch.old packets
        → result ≡ not (last_is_lawful (lawful_of (packets ++ packet.now ∷ []))) }
{
    match watch {
        Some(watch) => !watch.push(packet),
        None => {
            *watch = Some(CounterWatch::new(packet));
            false
        }
    }
}

/// Watches the continuity counters of all PIDs but that of null packets (ETSI TR 101 290, 5.2.1:
/// Continuity_count_error). It keeps about 1.6 MB, taken when it is made.
#[derive(Drop)]
pub struct CounterWatches {
    watches: Vec<Option<CounterWatch>>,
}

impl Model for CounterWatches {
    ghost use Rattle.tspkt.specs.declared.packet.TheConstants.{PID_COUNT};
    ghost use Rattle.std.specs.Prelude.{◌≡◌, List, Option, length};
    ghost use Rattle.analyse.specs.CounterWatching.{CounterState};

    ghost Value = { List (Option CounterState) };

    ghost view = { λ w. w.watches.items };

    ghost invariant = { λ w. length w.watches.items ≡ PID_COUNT };
}

impl CounterWatches {
    ghost use Rattle.tspkt.specs.declared.packet.TheConstants.{PID_COUNT};
    ghost use Rattle.std.specs.Prelude.{◌≡◌, ◌<◌, [], ◌∷◌, ◌++◌, ℕ, List, length, Some, option_map, IfOk};
    ghost use Rattle.tspkt.specs.Packet.{pid_of};
    ghost use Rattle.analyse.specs.SlotReading.{IsReadAs};
    ghost use Rattle.analyse.specs.CountersWatching.{HaveSeenPids};
    ghost use Rattle.analyse.specs.Faults.{is_counter_bad_at};

    /// Watches that have seen no slot.
    pub fn new(alloc: Global) -> Result<CounterWatches, AllocError>
        ensures { IfOk result (λ w. HaveSeenPids w []) }
    {
        let mut watches = Vec::with_capacity(alloc, PID_COUNT)?;
        for _ in 0..PID_COUNT {
            watches.push_reserved(None);
        }
        Ok(CounterWatches { watches })
    }

    /// Sees what the next slot is read as, and tells whether it is a packet whose counter isn't lawful.
    #[inline(always)]
    pub fn push(&mut self, packet: Option<&Packet>) -> bool
        ensures seen { (slots : List (List ℕ)) (slot : List ℕ) → HaveSeenPids self.old slots
            → IsReadAs slot (option_map (λ p. p.now) packet.entry)
            → HaveSeenPids self.new (slots ++ slot ∷ []) }
        ensures bad { (slots : List (List ℕ)) (slot : List ℕ) → HaveSeenPids self.old slots
            → IsReadAs slot (option_map (λ p. p.now) packet.entry)
            → result ≡ is_counter_bad_at (slots ++ slot ∷ []) (length slots) }
    {
        match packet {
            Some(packet) => self.push_of(packet.pid(), packet),
            None => false,
        }
    }

    /// The same of a packet of this PID.
    #[inline(always)]
    pub fn push_of(&mut self, pid: u16, packet: &Packet) -> bool
        requires of_packet { pid ≡ pid_of packet.now }
        requires fits { pid < PID_COUNT }
        ensures seen { (slots : List (List ℕ)) (slot : List ℕ) → HaveSeenPids self.old slots
            → IsReadAs slot (Some packet.now) → HaveSeenPids self.new (slots ++ slot ∷ []) }
        ensures bad { (slots : List (List ℕ)) (slot : List ℕ) → HaveSeenPids self.old slots
            → IsReadAs slot (Some packet.now) → result ≡ is_counter_bad_at (slots ++ slot ∷ []) (length slots) }
    {
        if pid == NULL_PID {
            return false;
        }
        see_packet(&mut self.watches[usize::from(pid)], packet)
    }
}
