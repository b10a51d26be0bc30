//! How often the tables have to come, and how far apart they go out.

ghost use Rattle.std.specs.Prelude.{◌≡◌, ◌≤◌};
ghost use Rattle.rounds.specs.Rounds.{gap_of, fast_limit_of, sdt_limit_of};

/// The least gap between two table packets, in slots.
const MIN_GAP: u64 = 2;

/// How fast the buffer of the tables leaks, in bits a second (ISO/IEC 13818-1, 2.4.2.3).
const LEAK: u64 = 1_000_000;

/// The bits of a slot.
pub const SLOT_BITS: u64 = 1_504;

/// Slots from one table packet of a round to the next, at a rate of up to 100,000,000 bits a second.
pub fn gap(rate: u64) -> u64
    requires rate { rate ≤ 100000000 }
    ensures value { result ≡ gap_of rate }
    ensures few { result ≤ 100 }
{
    MIN_GAP.max(rate.div_ceil(LEAK))
}

/// How many slots half a second has at a rate in bits a second: within it the PAT and the PMTs come again (ETSI TR 101 290, 5.2.1).
pub fn half_second(rate: u64) -> u64
    ensures { result ≡ fast_limit_of rate }
{
    rate / (2 * SLOT_BITS)
}

/// How many slots two seconds have at a rate in bits a second: within them the SDT comes again (ETSI TR 101 211, 4.4).
pub fn two_seconds(rate: u64) -> u64
    ensures { result ≡ sdt_limit_of rate }
{
    rate / (SLOT_BITS / 2)
}
