//! A thread that waits.

ghost use Rattle.std.specs.Prelude.{◌≡◌, ◌<◌, ◌≤◌};

use crate::bell::Bell;
use crate::napping::nap;
use crate::rest::Rest;
use crate::waker::Waker;
use std::alloc::{AllocError, Global};
use std::marker::Model;
use std::sync::atomic::{AtomicU64, Ordering};
use std::sync::{Arc, Wait};
use std::thread::Parker;
use std::time::{Clock, Duration, Instant};
use std::{hint, thread};

/// How many first looks a sleeper makes that naps behind them.
const ONE_LOOK: u32 = 1;
/// How many another one makes, behind a short sleep. With a yield of some 0.4 microseconds behind each, they take a fiftieth of a
/// millisecond where no other thread wants the core.
const MANY_LOOKS: u32 = 50;
/// How many it makes behind a long sleep, or while others want the core. Behind as many first looks it keeps the core.
const FEW_LOOKS: u32 = 4;
/// From when on it makes few first looks: so many microseconds after the first yield of a wait.
const LONGEST_LOOKS: u64 = 4_000;
/// A sleep of fewer microseconds is short.
const SHORT_SLEEP: u64 = 1_000;
/// A yield that takes so many microseconds is long: a thread of the same run mostly gives the core back sooner, and another program mostly
/// doesn't.
const LONG_YIELD: u64 = 1_000;
/// A long yield takes so much off the trust in yields, and a short one adds 1. At 0 others are taken to want the core.
const COST_OF_A_LONG_YIELD: u32 = 64;
/// The most trust in yields, twice what a long one costs: a single one changes nothing at first.
const MOST_TRUST: u32 = 128;
/// Once others wanted the core, so many waits nap and don't yield: some tenth of a second, in which another program mostly goes on.
const WAITS_WITHOUT_YIELD: u32 = 1_024;

/// A thread that waits for what others change. Contracts see how many first looks it made since it last found what it waited for, how many
/// there are before it tells that it waits, and what it told that it waits for, one change a bit.
#[derive(Drop)]
pub struct Sleeper {
    bell: Arc<Bell, Global>,
    looks: u32,
    first_looks: u32,
    told: u64,
    /// When the first looks of this wait began to yield.
    since: Option<Instant>,
    /// Whether it always naps before it tells, and not only where others want the core.
    naps: bool,
    /// How far a yield is trusted to be short.
    trust: u32,
    /// How many waits come that nap and don't yield.
    waits_without_yield: u32,
}

impl Model for Sleeper {
    ghost use Rattle.std.specs.Prelude.{◌≤◌, ◌<◌};
    ghost use Rattle.waking.specs.Sleeping.{SleeperValue};

    ghost Value = { SleeperValue };

    ghost view = { λ s. record { looks = s.looks; first_looks = s.first_looks; told = s.told } };

    // It has first looks, and tells only behind them.
    ghost invariant = { λ s. (s.looks ≤ 50) × (0 < s.first_looks) × (s.first_looks ≤ 50) × (0 < s.told → 0 < s.looks) };
}

/// Whether `end` is less than so many microseconds behind `start`; false where one of them isn't known.
fn is_within(start: Option<Instant>, end: Option<Instant>, micros: u64) -> bool {
    match (start, end) {
        (Some(start), Some(end)) => {
            end.saturating_duration_since(start) < Duration::from_micros(micros)
        }
        _ => false,
    }
}

/// The most first looks, by whether it naps behind them.
fn most_looks(naps: bool) -> u32
    ensures { (0 < result) × (result ≤ 50) }
{
    if naps { ONE_LOOK } else { MANY_LOOKS }
}

/// How many first looks there are where others want the core, or a sleep was long.
fn few_looks(naps: bool) -> u32
    ensures { (0 < result) × (result ≤ 50) }
{
    FEW_LOOKS.min(most_looks(naps))
}

impl Sleeper {
    ghost use Rattle.std.specs.Prelude.{◌≡◌, ◌<◌, ◌+◌, IfOk};
    ghost use Rattle.waking.specs.Sleeping.{IsAwake, Waits};
    ghost use Rattle.waking.specs.declared.rest.Rest.TheVariants.{Nap, Sleep};

    /// One that waits for nothing yet. `Err` is want of memory.
    pub fn new(alloc: Global) -> Result<Sleeper, AllocError>
        ensures { IfOk result IsAwake }
    {
        Sleeper::open(alloc, false)
    }

    /// One that always naps behind its first look. What comes within the nap needs no wake-up, but is seen only when the nap is over.
    /// `Err` is want of memory.
    pub fn napping(alloc: Global) -> Result<Sleeper, AllocError>
        ensures { IfOk result IsAwake }
    {
        Sleeper::open(alloc, true)
    }

    /// One that waits for nothing yet, by whether it always naps.
    fn open(alloc: Global, naps: bool) -> Result<Sleeper, AllocError>
        ensures { IfOk result IsAwake }
    {
        let bell = Bell {
            awaited: AtomicU64::new(0),
            parker: Parker::new(),
        };
        Ok(Sleeper {
            bell: Arc::new(alloc, bell)?,
            looks: 0,
            first_looks: most_looks(naps),
            told: 0,
            since: None,
            naps,
            trust: MOST_TRUST,
            waits_without_yield: 0,
        })
    }

    /// What wakes it behind a change of these kinds, one a bit. `Err` is want of memory.
    pub fn waker(&self, changes: u64) -> Result<Waker, AllocError> {
        Ok(Waker {
            bell: Arc::try_clone(&self.bell)?,
            changes,
        })
    }

    /// Waits behind a look that found nothing, for a change of these kinds, one a bit. It sleeps only where an earlier call told of these
    /// changes, so that a look lay between, and then until such a change or until `limit`. It answers how it rested. Whoever calls it
    /// looks again.
    pub fn wait<T: Wait + Clock>(&mut self, rt: &T, changes: u64, limit: Option<Duration>) -> Rest
        requires { 0 < changes }
        ensures { Waits self.old changes result self.new }
    {
        if self.looks < self.first_looks {
            self.pause(rt);
            return Rest::Pause;
        }
        let rest = self.rest(rt, changes, limit);
        self.told = changes;
        self.bell.awaited.store(changes, Ordering::SeqCst);
        rest
    }

    /// Waits behind one of the first looks: behind the first few it keeps the core, and behind the others it yields it.
    fn pause<T: Clock>(&mut self, rt: &T)
        requires { self.old.looks < 50 }
        ensures { self.new ≡ record self.old { looks = self.old.looks + 1; first_looks = self.new.first_looks } }
    {
        self.looks += 1;
        if self.looks <= FEW_LOOKS {
            hint::spin_loop();
            return;
        }
        let start = Instant::now(rt).ok();
        if self.looks == FEW_LOOKS + 1 {
            self.since = start;
        }
        thread::yield_now();
        let end = Instant::now(rt).ok();
        if !is_within(self.since, end, LONGEST_LOOKS) {
            self.first_looks = few_looks(self.naps);
        }
        self.judge(is_within(start, end, LONG_YIELD));
    }

    /// Trusts yields more behind a short one, and less behind a long one. Where no trust is left, it doesn't yield for a while.
    fn judge(&mut self, is_short: bool)
        ensures { self.new ≡ record self.old { first_looks = self.new.first_looks } }
    {
        if is_short {
            self.trust = self.trust.saturating_add(1).min(MOST_TRUST);
            return;
        }
        self.trust = self.trust.saturating_sub(COST_OF_A_LONG_YIELD);
        if self.trust == 0 {
            self.trust = COST_OF_A_LONG_YIELD;
            self.first_looks = few_looks(self.naps);
            self.waits_without_yield = WAITS_WITHOUT_YIELD;
        }
    }

    /// Rests behind the first looks: it sleeps where it told of these changes, and where it told of none it may nap.
    fn rest<T: Wait + Clock>(&mut self, rt: &T, changes: u64, limit: Option<Duration>) -> Rest
        requires { 0 < changes }
        ensures kept { self.new ≡ record self.old { first_looks = self.new.first_looks } }
        ensures asleep { result ≡ Sleep → self.old.told ≡ changes }
        ensures awake { self.old.told ≡ changes → result ≡ Sleep }
        ensures napped { result ≡ Nap → self.old.told ≡ 0 }
    {
        if self.told == changes {
            self.sleep(rt, limit);
            return Rest::Sleep;
        }
        if self.told != 0 {
            return Rest::Pause;
        }
        let naps = self.naps || self.waits_without_yield != 0;
        if self.waits_without_yield == 1 {
            self.first_looks = most_looks(self.naps);
        }
        self.waits_without_yield = self.waits_without_yield.saturating_sub(1);
        if !naps {
            return Rest::Pause;
        }
        nap(rt);
        Rest::Nap
    }

    /// Sleeps until the token is given, or for as long as `limit` says.
    fn sleep<T: Wait + Clock>(&mut self, rt: &T, limit: Option<Duration>)
        ensures { self.new ≡ record self.old { first_looks = self.new.first_looks } }
    {
        let start = Instant::now(rt).ok();
        match limit {
            Some(limit) => self.bell.parker.park_timeout(rt, limit),
            None => self.bell.parker.park(rt),
        }
        let is_short = is_within(start, Instant::now(rt).ok(), SHORT_SLEEP);
        let yields = is_short && self.waits_without_yield == 0;
        self.first_looks = if yields {
            most_looks(self.naps)
        } else {
            few_looks(self.naps)
        };
    }

    /// It found what it waited for, or no longer waits.
    #[inline(always)]
    pub fn found(&mut self)
        ensures { self.new ≡ record self.old { looks = 0; told = 0 } }
    {
        if self.looks != 0 {
            self.rise();
        }
    }

    /// Takes back what it told.
    #[inline(never)]
    fn rise(&mut self)
        ensures { self.new ≡ record self.old { looks = 0; told = 0 } }
    {
        self.looks = 0;
        if self.told != 0 {
            self.told = 0;
            self.bell.awaited.store(0, Ordering::SeqCst);
        }
    }
}
