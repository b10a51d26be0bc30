//! The PCRs of a PID.

ghost use Rattle.std.specs.Prelude.{◌≡◌, ◌≤◌};
ghost use Rattle.probe.specs.Jitter.{jitter_of, is_jump as is_jump_said, is_late as is_late_said};

use crate::occurrences::Occurrences;
use crate::pcr_step::{PcrStep, off, step_between};
use crate::place::Place;
use rate_meter::{Reading, elapsed, is_splice};
use std::alloc::{AllocError, Global};

/// The most ticks of 27 MHz from one PCR to the next: those of a tenth of a second (ISO/IEC 13818-1, 2.7.2).
const LONGEST: u64 = 2_700_000;

/// The most steps that are kept of a PID.
const MOST_STEPS: usize = 65_536;

/// The PCRs of a PID: how many there are, the last one, the steps from one to the next, without splices, and what is wrong with them.
#[derive(Drop)]
pub(crate) struct PcrWatch {
    pub pid: u16,
    pub count: u64,
    /// Those that come more than a tenth of a second behind the one before (ETSI TR 101 290, 2.3.a).
    pub late: Occurrences,
    /// Those that jump without a discontinuity indicator (ETSI TR 101 290, 2.3.b).
    pub jumps: Occurrences,
    last: Reading,
    steps: Vec<PcrStep>,
}

/// Whether a PCR comes more than a tenth of a second behind the one before.
fn is_late(before: Reading, now: Reading) -> bool
    ensures { result ≡ is_late_said before now }
{
    !is_splice(before, now) && LONGEST < elapsed(before.pcr, now.pcr)
}

/// Whether the clock jumps from one PCR to the next, and nothing says so.
fn is_jump(before: Reading, now: Reading) -> bool
    ensures { result ≡ is_jump_said before now }
{
    is_splice(before, now) && !now.is_discontinuous
}

/// The largest of the steps' differences from a rate, above 0; 0 of no step.
fn largest(steps: &[PcrStep], rate: u64) -> u64
    requires { 1 ≤ rate }
    ensures { result ≡ jitter_of rate steps.now }
{
    let mut most = 0;
    for step in steps.iter() {
        most = off(*step, rate).max(most);
    }
    most
}

impl PcrWatch {
    /// That of a PID whose first PCR this is.
    pub fn new(alloc: Global, pid: u16, first: Reading) -> PcrWatch {
        PcrWatch {
            pid,
            count: 1,
            late: Occurrences::new(),
            jumps: Occurrences::new(),
            last: first,
            steps: Vec::new(alloc),
        }
    }

    /// The next PCR, in the packet at this place. Of more than 65,536 steps the first ones are kept. An `Err` changes nothing.
    pub fn add(&mut self, now: Reading, place: Place) -> Result<(), AllocError> {
        if let Some(step) = step_between(self.last, now)
            && self.steps.len() < MOST_STEPS
        {
            self.steps.push(step)?;
        }
        self.late = self.late.with(is_late(self.last, now), place);
        self.jumps = self.jumps.with(is_jump(self.last, now), place);
        self.last = now;
        self.count = self.count.saturating_add(1);
        Ok(())
    }

    /// By how much the time from one PCR to the next is off what the bytes between them take at this rate, in bits a second: at
    /// most, in nanoseconds. None where there is no step, and at 0.
    pub fn jitter(&self, rate: u64) -> Option<u64> {
        if rate == 0 || self.steps.is_empty() {
            return None;
        }
        Some(largest(&self.steps, rate))
    }
}
