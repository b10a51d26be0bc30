//! The clocks of a stream.

ghost use Rattle.std.specs.Prelude.{◌≡◌, ◌++◌, ◌∷◌, [], List, Some, map, true, false, ◌⊎◌, All, IsTrue, IfSome, IfNone};
ghost use Rattle.rate_meter.specs.declared.seen.Seen.{Seen as SeenPacket};
ghost use Rattle.rate_meter.specs.Meter.{AreClocks, IsClockIn, IsNoLonger, clock_behind, has_clock as has_clock_of, measured_by, measured_of};

use crate::clock::Clock;
use crate::measured::Measured;
use crate::pid_clock::PidClock;
use crate::reading::Reading;
use crate::seen::Seen;
use past::Past;
use std::alloc::Global;
use std::marker::Model;

/// How many clocks a stream has at most.
const MOST: usize = 64;

/// The clocks of a stream, one a PID that has PCRs, up to 64. Contracts see the packets that were seen, newest first, and whether
/// no PID with PCRs was left out, since there were more or no memory.
#[derive(Drop)]
pub(crate) struct Clocks {
    past: Past<Seen>,
    clocks: Vec<PidClock>,
    is_whole: bool,
}

impl Model for Clocks {
    ghost use Rattle.rate_meter.specs.Meter.{ClocksValue, AreClocks};

    ghost Value = { ClocksValue };

    ghost view = { λ c. record { seen = c.past; is_whole = c.is_whole } };

    ghost invariant = { λ c. AreClocks c.past c.is_whole c.clocks.items };
}

/// Whether one of the clocks is that of this PID.
fn has_clock(clocks: &[PidClock], pid: u16) -> bool
    ensures { result ≡ has_clock_of pid clocks.now }
{
    clocks.iter().any(|clock| clock.pid == pid)
}

/// Adds a clock for a PID, and answers whether it could.
fn open_clock(clocks: &mut Vec<PidClock>, pid: u16) -> bool
    ensures opened { result ≡ true → clocks.new.items ≡ clocks.old.items ++ (record { pid = pid; clock = [] }) ∷ [] }
    ensures refused { result ≡ false → clocks.new.items ≡ clocks.old.items }
{
    let clock = PidClock {
        pid,
        clock: Clock::new(),
    };
    clocks.len() < MOST && clocks.push(clock).is_ok()
}

/// Sees to it that a PID has a clock, where the clocks are whole, and answers whether they still are.
fn prepare(clocks: &mut Vec<PidClock>, is_whole: bool, pid: u16) -> bool
    ensures clocks { (seen : List SeenPacket) → AreClocks seen is_whole clocks.old.items
        → AreClocks seen result clocks.new.items }
    ensures has { IsTrue result → has_clock_of pid clocks.new.items ≡ true }
{
    if !is_whole {
        return false;
    }
    if has_clock(clocks, pid) {
        return true;
    }
    open_clock(clocks, pid)
}

/// The clock with this PID.
fn find(clocks: &[PidClock], pid: u16) -> Option<&PidClock>
    ensures some { IfSome result (λ clock. clock.now.pid ≡ pid) }
    ensures among { IfSome result (λ clock. (seen : List SeenPacket)
        → All (IsClockIn seen) clocks.now → IsClockIn seen clock.now) }
    ensures none { IfNone result (has_clock_of pid clocks.now ≡ false) }
{
    for clock in clocks {
        if clock.pid == pid {
            return Some(clock);
        }
    }
    None
}

/// The clock of this PID gets a reading.
fn read(clocks: &mut Vec<PidClock>, pid: u16, reading: Reading)
    ensures { clocks.new.items ≡ map (clock_behind pid reading) clocks.old.items }
{
    for clock in clocks.iter_mut() {
        clock.read(pid, reading);
    }
}

/// What a clock says, if it says a rate.
fn measured(clock: &PidClock) -> Option<Measured>
    ensures { result ≡ measured_by clock.now.pid clock.now.clock }
{
    match clock.clock.rate() {
        Some(rate) => Some(Measured {
            pid: clock.pid,
            rate,
            is_variable: clock.clock.pace().is_variable(),
            points: clock.clock.count(),
        }),
        None => None,
    }
}

/// Of two the one that rests on more points; the first where they are equal.
fn longer(first: Option<Measured>, second: Option<Measured>) -> Option<Measured>
    ensures either { (result ≡ first) ⊎ (result ≡ second) }
    ensures first { IsNoLonger first result }
    ensures second { IsNoLonger second result }
{
    match (first, second) {
        (Some(a), Some(b)) if a.points < b.points => second,
        (Some(_), _) => first,
        (None, _) => second,
    }
}

/// What the clock with the most points says, of those that say a rate.
fn longest(clocks: &[PidClock]) -> Option<Measured>
    ensures own { (seen : List SeenPacket) → All (IsClockIn seen) clocks.now
        → IfSome result (λ m. measured_of m.pid seen ≡ Some m) }
    ensures most { All (λ c. IsNoLonger (measured_by c.pid c.clock) result) clocks.now }
{
    let mut found = None;
    for clock in clocks {
        found = longer(found, measured(clock));
    }
    found
}

impl Clocks {
    ghost use Rattle.std.specs.Prelude.{◌≡◌, ◌∷◌, [], ℕ, Some, true, IsTrue, IfSome, IfNone};
    ghost use Rattle.rate_meter.specs.Meter.{IsNoLonger, measured_of, readings_of};

    /// Nothing was seen.
    pub fn new(alloc: Global) -> Clocks
        ensures { result ≡ record { seen = []; is_whole = true } }
    {
        Clocks {
            past: Past::new(),
            clocks: Vec::new(alloc),
            is_whole: true,
        }
    }

    /// A packet was seen.
    #[inline(always)]
    pub fn add(&mut self, seen: Seen)
        ensures { self.new.seen ≡ seen ∷ self.old.seen }
    {
        if let Some(reading) = seen.reading {
            self.is_whole = prepare(&mut self.clocks, self.is_whole, seen.pid);
            read(&mut self.clocks, seen.pid, reading);
        }
        self.past.add(seen);
    }

    /// Whether no PID with PCRs was left out.
    pub fn is_whole(&self) -> bool
        ensures { result ≡ self.now.is_whole }
    {
        self.is_whole
    }

    /// The clock of a PID.
    pub fn of(&self, pid: u16) -> Option<&Clock>
        ensures some { IfSome result (λ clock. clock.now ≡ readings_of pid self.now.seen) }
        ensures none { IfNone result (IsTrue self.now.is_whole → readings_of pid self.now.seen ≡ []) }
    {
        match find(&self.clocks, pid) {
            Some(found) => Some(&found.clock),
            None => None,
        }
    }

    /// What the clock with the most points says, of those that say a rate.
    pub fn measured(&self) -> Option<Measured>
        ensures own { IfSome result (λ m. measured_of m.pid self.now.seen ≡ Some m) }
        ensures most { IsTrue self.now.is_whole → (pid : ℕ) → IsNoLonger (measured_of pid self.now.seen) result }
    {
        longest(&self.clocks)
    }
}
