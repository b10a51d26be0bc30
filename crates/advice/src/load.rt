//! What the streams took, what the rate leaves them, and what of an input's rate its packets are.

ghost use Rattle.std.specs.Prelude.{◌≡◌, ◌≤◌};
ghost use Rattle.advice.specs.Load.{share_of, taken_rate_of, left_rate_of, packets_rate_of};

use rounds::TableRounds;
use tspkt::PacketSize;

/// The part of a rate that so many slots of so many have, in bits a second, rounded down.
pub fn share(rate: u64, part: u64, whole: u64) -> u64
    requires some { 1 ≤ whole }
    requires part { part ≤ whole }
    ensures value { result ≡ share_of rate part whole }
    ensures part { result ≤ rate }
{
    (u128::from(rate) * u128::from(part) / u128::from(whole)) as u64
}

/// What the streams of a run took, in bits a second, rounded down: so many of its slots had a packet of theirs, of so many
/// slots of all. 0 of a run without a slot.
pub fn taken_rate(rounds: &TableRounds, elementary: u64, slots: u64) -> u64
    requires { elementary ≤ slots }
    ensures value { result ≡ taken_rate_of rounds.now.rate elementary slots }
    ensures within { result ≤ rounds.now.rate }
{
    if slots == 0 {
        return 0;
    }
    share(rounds.rate(), elementary, slots)
}

/// What the rate leaves for streams, in bits a second, rounded down: its part of the slots of a round that carry no table.
pub fn left_rate(rounds: &TableRounds) -> u64
    ensures value { result ≡ left_rate_of rounds.now }
    ensures within { result ≤ rounds.now.rate }
{
    rounds.known();
    let (rate, period) = (rounds.rate(), rounds.period());
    let tables = rounds.fast_len() as u64;
    let free = period.saturating_sub(tables).saturating_sub(1);
    share(rate, free, period)
}

/// The rate of the packets alone of a stream of this size and this rate, in bits a second, rounded down: what of the rate isn't that
/// of the bytes that follow each packet.
pub fn packets_rate(size: PacketSize, rate: u64) -> u64
    ensures value { result ≡ packets_rate_of size rate }
    ensures within { result ≤ rate }
{
    share(rate, 188, size.stride() as u64)
}
