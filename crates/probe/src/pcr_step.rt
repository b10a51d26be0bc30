//! From one PCR to the next.

ghost use Rattle.std.specs.Prelude.{◌≡◌, ◌≤◌};
ghost use Rattle.probe.specs.Jitter.{off_of, step_of};

use rate_meter::{Reading, elapsed, is_splice};

/// What lies between a PCR of a PID and its next one.
#[derive(Clone, Copy, Debug, PartialEq, Eq)]
pub(crate) struct PcrStep {
    /// The bytes from the one packet to the other.
    pub bytes: u64,
    /// The difference of the two, in ticks of 27 MHz.
    pub ticks: u64,
}

/// The bits of a byte, and the ticks of 27 MHz in a second.
const TICKS_BY_BYTE: u128 = 216_000_000;

/// The step from one PCR to the next; none where the clock was set anew between them.
pub(crate) fn step_between(before: Reading, now: Reading) -> Option<PcrStep>
    ensures { result ≡ step_of before now }
{
    if is_splice(before, now) {
        return None;
    }
    Some(PcrStep {
        bytes: now.position.saturating_sub(before.position),
        ticks: elapsed(before.pcr, now.pcr),
    })
}

/// How far the difference of two PCRs is from the time that the bytes between them take at this rate, above 0, in bits a second:
/// in nanoseconds, rounded down to a tick of 27 MHz and then to a nanosecond; 2^64 - 1 where it is more.
pub(crate) fn off(step: PcrStep, rate: u64) -> u64
    requires { 1 ≤ rate }
    ensures { result ≡ off_of rate step }
{
    let said = u128::from(step.ticks) * u128::from(rate);
    let taken = u128::from(step.bytes) * TICKS_BY_BYTE;
    let off = said.max(taken) - said.min(taken);
    // A tick of 27 MHz has 1,000 / 27 nanoseconds.
    let nanoseconds = off / u128::from(rate) * 1_000 / 27;
    nanoseconds.min(u128::from(u64::MAX)) as u64
}
