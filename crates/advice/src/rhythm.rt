//! How often the tables come, in which periods they may, and how long slots take.

ghost use Rattle.std.specs.Prelude.{◌≡◌, ◌≤◌, ℕ};
ghost use Rattle.advice.specs.Rhythm.{milliseconds_of, pat_interval_of, sdt_interval_of, IsLawfulPeriod, run_seconds_of};

use rounds::{SLOT_BITS, TableRounds, half_second, two_seconds};

/// The slots of a run that isn't asked for another length.
const RUN_SLOTS: u64 = 1_000_000;

/// How long so many slots take at this rate, in milliseconds, rounded up.
fn milliseconds(rate: u64, slots: u64) -> u64
    requires some { 1 ≤ rate }
    requires slots { slots ≤ rate }
    ensures { result ≡ milliseconds_of rate slots }
{
    (u128::from(slots) * 1_504_000).div_ceil(u128::from(rate)) as u64
}

/// How long it takes from one PAT to the next, and from one PMT of a service to its next, in milliseconds, rounded up: at most
/// 500.
pub fn pat_interval(rounds: &TableRounds) -> u64
    ensures value { result ≡ pat_interval_of rounds.now }
    ensures within { result ≤ 500 }
{
    rounds.known();
    milliseconds(rounds.rate(), rounds.period())
}

/// How long it takes from one packet of the SDT or the NIT to the same again, in milliseconds, rounded up: at most 2,000.
pub fn sdt_interval(rounds: &TableRounds) -> u64
    ensures value { result ≡ sdt_interval_of rounds.now }
    ensures within { result ≤ 2000 }
{
    rounds.known();
    let rate = rounds.rate();
    milliseconds(rate, rounds.slow_len() as u64 * rounds.period())
}

/// The least period that these tables may have at their rate, in slots: below it a round has no room.
pub fn shortest_period(rounds: &TableRounds) -> u64
    ensures lawful { IsLawfulPeriod rounds.now result }
    ensures least { (period : ℕ) → IsLawfulPeriod rounds.now period → result ≤ period }
{
    rounds.known();
    (rounds.fast_len() as u64 + 1) * rounds.gap()
}

/// The greatest period that these tables may have at their rate, in slots: above it PAT and PMTs would come later than each
/// half second, or the SDT later than each two seconds.
pub fn longest_period(rounds: &TableRounds) -> u64
    ensures lawful { IsLawfulPeriod rounds.now result }
    ensures greatest { (period : ℕ) → IsLawfulPeriod rounds.now period → period ≤ result }
{
    rounds.known();
    let rate = rounds.rate();
    half_second(rate).min(two_seconds(rate) / rounds.slow_len() as u64)
}

/// How long a run of 1,000,000 slots is at the rate of the multiplex, in seconds, rounded down.
pub fn run_seconds(rounds: &TableRounds) -> u64
    ensures { result ≡ run_seconds_of rounds.now.rate }
{
    rounds.known();
    RUN_SLOTS * SLOT_BITS / rounds.rate()
}
