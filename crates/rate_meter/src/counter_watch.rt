//! Where continuity counters break off.

ghost use Rattle.std.specs.Prelude.{◌≡◌, ◌<◌, ◌==◌, ◌&&◌, ◌||◌, ℕ, Bool, List, Some, false, length, slice_get, if◌then◌else◌};
ghost use Rattle.rate_meter.specs.declared.seen.Seen.{Seen as SeenPacket};
ghost use Rattle.rate_meter.specs.Counters.{is_next as is_next_of, goes_on_behind};

use crate::seen::Seen;
use past::Past;
use std::alloc::{AllocError, Global};
use std::marker::Model;

/// How many PIDs there are but that of null packets, which is the last one (ISO/IEC 13818-1, 2.4.3.3).
const PIDS: usize = 8_191;

/// Watches the continuity counters of a stream, and says of each packet whether one of them broke off since its PID had its newest
/// PCR. Contracts see the list of all packets, newest first.
#[derive(Drop)]
pub(crate) struct CounterWatch {
    past: Past<Seen>,
    /// 1 more than the newest counter of each PID; 0 where none is known.
    newest: Vec<u16>,
    /// Whether a counter broke off behind the newest PCR of each PID.
    cut: Vec<bool>,
}

impl Model for CounterWatch {
    ghost use Rattle.std.specs.Prelude.{List};
    ghost use Rattle.rate_meter.specs.declared.seen.Seen.{Seen as SeenPacket};
    ghost use Rattle.rate_meter.specs.Counters.{KeepsCounters};

    ghost Value = { List SeenPacket };

    ghost view = { λ w. w.past };

    ghost invariant = { λ w. KeepsCounters w.past w.newest.items w.cut.items };
}

/// Whether a packet has the counter that follows this one.
#[inline(always)]
fn is_next(before: u16, now: Seen) -> bool
    requires { before < 65535 }
    ensures { result ≡ is_next_of before now }
{
    if now.has_payload {
        u16::from(now.counter) == (before + 1) % 16
    } else {
        u16::from(now.counter) == before
    }
}

/// Whether a packet has the counter that follows the one that is kept so, if one is known.
#[inline(always)]
fn goes_on(kept: u16, now: Seen) -> bool
    ensures { result ≡ goes_on_behind kept now }
{
    kept == 0 || is_next(kept - 1, now)
}

/// A counter broke off at a packet of the PID with this place, or not, and the packet has a PCR, or not: whether one broke off since the
/// PID's newest PCR, up to the packet. With the PCR that is forgotten.
#[inline(always)]
fn cut_behind(cut: &mut Vec<bool>, place: usize, is_broken: bool, reads: bool) -> bool
    requires { place < length cut.old.items }
    ensures length { length cut.new.items ≡ length cut.old.items }
    ensures told { (before : Bool) → slice_get cut.old.items place ≡ Some before → result ≡ (is_broken || before) }
    ensures cut { (pid : ℕ) (before : Bool) → slice_get cut.old.items pid ≡ Some before
        → slice_get cut.new.items pid ≡ Some (if (place == pid) && reads then false else (is_broken || before)) }
{
    if is_broken {
        cut.fill(true);
    }
    let is_cut_off = cut[place];
    if reads {
        cut[place] = false;
    }
    is_cut_off
}

impl CounterWatch {
    ghost use Rattle.std.specs.Prelude.{◌≡◌, ◌∷◌, [], IfOk};
    ghost use Rattle.rate_meter.specs.Counters.{is_cut_off};

    /// No packet was seen.
    pub fn new(alloc: Global) -> Result<CounterWatch, AllocError>
        ensures { IfOk result (λ w. w ≡ []) }
    {
        Ok(CounterWatch {
            past: Past::new(),
            newest: vec![in alloc; 0; PIDS]?,
            cut: vec![in alloc; false; PIDS]?,
        })
    }

    /// A packet was seen: whether a counter broke off between it and the newest PCR of its PID.
    #[inline(always)]
    pub fn add(&mut self, seen: Seen) -> bool
        ensures seen { self.new ≡ seen ∷ self.old }
        ensures cut { result ≡ is_cut_off seen self.old }
    {
        let place = usize::from(seen.pid);
        let mut is_cut_off = false;
        if place < PIDS {
            let is_broken = !seen.is_discontinuous && !goes_on(self.newest[place], seen);
            self.newest[place] = u16::from(seen.counter) + 1;
            is_cut_off = cut_behind(&mut self.cut, place, is_broken, seen.reading.is_some());
        }
        self.past.add(seen);
        is_cut_off
    }
}
