//! The rule on continuity counters.

ghost use Rattle.std.specs.Prelude.{◌≡◌, option_map};
ghost use Rattle.tspkt.specs.Counters.{follows_of, is_second_copy};

use crate::packet::Packet;

/// Whether `next` is lawful behind `last`, the packet before it in the list of its PID, where `before` is the one before
/// that: the discontinuity is indicated, the counter steps with payload or stays without, or it is the one copy that may
/// be sent (ISO/IEC 13818-1, 2.4.3.3). The standard has no such rule for null packets.
#[tactic(auto, unfolding(crate::specs::Counters::follows_of))]
pub fn follows(before: Option<&Packet>, last: &Packet, next: &Packet) -> bool
    ensures { result ≡ follows_of (option_map (λ p. p.now) before.entry) last.now next.now }
{
    if next.discontinuity() {
        return true;
    }
    if next.has_payload() && next.counter() == (last.counter() + 1) % 16 {
        return true;
    }
    if !next.has_payload() && next.counter() == last.counter() {
        return true;
    }
    last.is_copy(next) && !second_copy(before, last)
}

/// Whether the last packet is a copy of the one before it.
#[tactic(auto, unfolding(crate::specs::Counters::is_second_copy))]
fn second_copy(before: Option<&Packet>, last: &Packet) -> bool
    ensures { result ≡ is_second_copy (option_map (λ p. p.now) before.entry) last.now }
{
    match before {
        Some(before) => before.is_copy(last),
        None => false,
    }
}
