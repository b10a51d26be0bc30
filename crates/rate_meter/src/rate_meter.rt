//! The rate of a stream by its own clocks.

ghost use Rattle.std.specs.Prelude.{◌≡◌, ◌∷◌, if◌then◌else◌};

use crate::clock::Clock;
use crate::clocks::Clocks;
use crate::counter_watch::CounterWatch;
use crate::measured::Measured;
use crate::meter::Meter;
use crate::pid_counts::PidCounts;
use crate::program_change::ProgramChange;
use crate::seen::Seen;
use crate::stepper::Stepper;
use crate::table_watch::TableWatch;
use std::alloc::{AllocError, Global};
use std::marker::Model;
use tspkt::{MAX_LIMIT, PacketSize};

/// Measures a stream that it is shown in pieces: how many packets each PID has, and at which rate it runs by each of its clocks.
///
/// Of each packet the first 12 bytes are looked at, and nothing is asked for but memory for a clock where its PID has its first
/// PCR. Contracts see which packets were found, newest first.
#[derive(Drop)]
pub struct RateMeter {
    stepper: Stepper,
    counts: PidCounts,
    scrambled: PidCounts,
    counters: CounterWatch,
    clocks: Clocks,
    tables: TableWatch,
}

impl Model for RateMeter {
    ghost use Rattle.rate_meter.specs.Meter.{MeterValue, AreParts};

    ghost Value = { MeterValue };

    ghost view = { λ m. record {
      shown = record { step = m.stepper; seen = m.counts };
      is_whole = m.clocks.is_whole;
    } };

    ghost invariant = { λ m. AreParts m.counts m.clocks.seen m.counters m.scrambled };
}

/// Counts a packet that is scrambled, and no other.
#[inline(always)]
fn count_if_scrambled(scrambled: &mut PidCounts, seen: Seen)
    ensures { scrambled.new ≡ (if seen.is_scrambled then seen ∷ scrambled.old else scrambled.old) }
{
    if seen.is_scrambled {
        scrambled.add(seen);
    }
}

impl RateMeter {
    ghost use Rattle.std.specs.Prelude.{◌≡◌, ◌+◌, ◌<◌, ◌≤◌, ◌∷◌, [], ℕ, Some, length, take, IsTrue, IfOk, IfSome, IfNone};
    ghost use Rattle.tspkt.specs.declared.framer.TheConstants.{MAX_LIMIT};
    ghost use Rattle.rate_meter.specs.Line.{within_64};
    ghost use Rattle.rate_meter.specs.Steps.{shown};
    ghost use Rattle.rate_meter.specs.Counters.{all_marked};
    ghost use Rattle.rate_meter.specs.Meter.{IsNoLonger, measured_of, new_meter, readings_of, packets_of, pid_rate_of, scrambled_among, shown_piece};

    /// One that was shown nothing of a stream of this size.
    pub fn new(alloc: Global, size: PacketSize) -> Result<RateMeter, AllocError>
        ensures { IfOk result (λ m. m ≡ new_meter size) }
    {
        Ok(RateMeter {
            stepper: Stepper::new(size),
            counts: PidCounts::new(alloc)?,
            scrambled: PidCounts::new(alloc)?,
            counters: CounterWatch::new(alloc)?,
            clocks: Clocks::new(alloc),
            tables: TableWatch::new(alloc, size)?,
        })
    }

    /// A packet was seen.
    #[inline(always)]
    fn see(&mut self, seen: Seen)
        ensures step { self.new.shown.step ≡ self.old.shown.step }
        ensures seen { self.new.shown.seen ≡ seen ∷ self.old.shown.seen }
    {
        self.counts.add(seen);
        count_if_scrambled(&mut self.scrambled, seen);
        let is_cut_off = self.counters.add(seen);
        self.clocks.add(seen.cut_off(is_cut_off));
    }

    /// Takes bytes from the front of a piece, and answers how many.
    #[inline(always)]
    fn advance(&mut self, piece: &[u8]) -> usize
        requires some { 0 < length piece.now }
        requires position { self.old.shown.step.position + length piece.now ≤ MAX_LIMIT }
        ensures some { 0 < result }
        ensures within { result ≤ length piece.now }
        ensures position { self.new.shown.step.position ≡ self.old.shown.step.position + result }
        ensures shown { self.new.shown ≡ shown self.old.shown (take result piece.now) }
    {
        let (count, seen) = self.stepper.step(piece);
        if let Some(seen) = seen {
            self.tables.look(seen.pid, self.stepper.position(), piece);
            self.see(seen);
        }
        count
    }

    /// The stream goes on with this piece. One that would pass 140,737,488,355,328 bytes isn't looked at.
    pub fn show(&mut self, piece: &[u8])
        ensures { self.new.shown ≡ shown_piece piece.now self.old.shown }
    {
        if piece.len() as u64 > MAX_LIMIT.saturating_sub(self.stepper.position()) {
            return;
        }
        let mut at = 0;
        while at < piece.len() {
            at += self.advance(&piece[at..]);
        }
    }

    /// How many packets were found.
    pub fn packets(&self) -> u64
        ensures { result ≡ within_64 (length self.now.shown.seen) }
    {
        self.counts.packets()
    }

    /// How many of them have this PID, 0 to 0x1FFF.
    pub fn packets_of(&self, pid: u16) -> u64
        requires { pid < 8192 }
        ensures { result ≡ within_64 (packets_of pid self.now.shown.seen) }
    {
        self.counts.of(pid)
    }

    /// How many of the packets of this PID, 0 to 0x1FFF, are scrambled.
    pub fn scrambled_of(&self, pid: u16) -> u64
        requires { pid < 8192 }
        ensures { result ≡ within_64 (packets_of pid (scrambled_among self.now.shown.seen)) }
    {
        self.scrambled.of(pid)
    }

    /// The rate of a PID, 0 to 0x1FFF, where the stream runs at this rate, in its unit: as much of it as of the packets that were
    /// found are that PID's, rounded to the nearest; 0 where none was found.
    pub fn pid_rate(&self, rate: u64, pid: u16) -> u64
        ensures { pid < 8192 → result ≡ pid_rate_of rate pid self.now.shown.seen }
    {
        self.counts.rate(rate, pid)
    }

    /// How a program of the stream's PAT changed first, if it did; of the first 64 that a PAT named.
    pub fn change_of(&self, program: u16) -> Option<ProgramChange> {
        self.tables.change_of(program)
    }

    /// Whether each PID with PCRs has its clock: no more than 64 have PCRs, and no memory was refused.
    pub fn is_whole(&self) -> bool
        ensures { result ≡ self.now.is_whole }
    {
        self.clocks.is_whole()
    }

    /// The clock of a PID. None of a PID without PCRs, or whose clock was left out.
    pub fn clock_of(&self, pid: u16) -> Option<&Clock>
        ensures some { IfSome result (λ clock. clock.now ≡ readings_of pid (all_marked self.now.shown.seen)) }
        ensures none { IfNone result (IsTrue self.now.is_whole → readings_of pid (all_marked self.now.shown.seen) ≡ []) }
    {
        self.clocks.of(pid)
    }

    /// What the clock with the most points says, of those that say a rate; none where no clock does.
    pub fn measured(&self) -> Option<Measured>
        ensures own { IfSome result (λ m. measured_of m.pid (all_marked self.now.shown.seen) ≡ Some m) }
        ensures most { IsTrue self.now.is_whole → (pid : ℕ)
            → IsNoLonger (measured_of pid (all_marked self.now.shown.seen)) result }
    {
        self.clocks.measured()
    }
}

impl Meter for RateMeter {
    ghost shown = { λ m. m.shown };

    fn new(alloc: Global, size: PacketSize) -> Result<RateMeter, AllocError> {
        RateMeter::new(alloc, size)
    }

    fn show(&mut self, piece: &[u8]) {
        RateMeter::show(self, piece);
    }

    fn measured(&self) -> Option<Measured> {
        RateMeter::measured(self)
    }

    fn fastest(&self, pid: u16) -> Option<u64> {
        let clock = self.clock_of(pid)?;
        Some(clock.pace().fastest)
    }

    fn pid_rate(&self, rate: u64, pid: u16) -> u64 {
        RateMeter::pid_rate(self, rate, pid)
    }

    fn change_of(&self, program: u16) -> Option<ProgramChange> {
        RateMeter::change_of(self, program)
    }

    fn scrambled_of(&self, pid: u16) -> u64 {
        if pid < 8_192 {
            RateMeter::scrambled_of(self, pid)
        } else {
            0
        }
    }
}
