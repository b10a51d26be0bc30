//! How a station goes on as far as its rings show.

ghost use Rattle.std.specs.Prelude.{◌≡◌, ◌⊎◌, ◌+◌, ◌<◌, ◌≤◌, ◌++◌, ℕ, List, true, false, None, Some, IsSome, length, vec_len, vec_capacity, MatchOption};
ghost use Rattle.station.specs.Stations.{IsLawfulStation};
ghost use Rattle.station.specs.Advancing.{AdvancesBehind, IsStep, IsStuck};

use inlets::{Entry, Step, take_step};
use mux::{Mux, Sending};
use port::RingEnd;
use tspkt::Packet;

/// One step: the next slot is sent, and its packet goes behind those in `sent`; or the next plan comes into force; or what comes next
/// is taken of the input that the multiplex waits for. Where neither can be done the answer says why, and nothing changed.
fn step_behind(
    mux: &mut Mux,
    entries: &mut Vec<Entry<RingEnd>>,
    sent: &mut Vec<Packet>,
) -> Option<Sending>
    requires lawful { IsLawfulStation mux.old entries.old.items }
    requires room { vec_len sent.old < vec_capacity sent.old }
    ensures step { MatchOption result
        ((packets : List (List ℕ)) × (sent.new.items ≡ sent.old.items ++ packets)
        × IsStep (record { history = mux.old; inputs = entries.old.items }) (record { history = mux.new; inputs = entries.new.items }) packets)
        (λ answer. (mux.new ≡ mux.old) × (entries.new.items ≡ entries.old.items) × (sent.new.items ≡ sent.old.items)
        × IsStuck answer (record { history = mux.new; inputs = entries.new.items })) }
    ensures lawful { IsLawfulStation mux.new entries.new.items }
    ensures room { (vec_len sent.new ≤ vec_len sent.old + 1) × (vec_capacity sent.old ≤ vec_capacity sent.new) }
{
    match take_step(mux, entries, sent) {
        Step::Sent | Step::Switched | Step::Turned => None,
        Step::Waits(input) => Some(Sending::NotReady(input)),
        Step::Done => Some(Sending::Done),
        Step::RunFull => Some(Sending::RunFull),
    }
}

/// Goes on by at most so many steps, and answers why no further, `Sent` where all of them were done. The packets that went out
/// go behind those in `sent`.
pub(crate) fn advance_behind(
    mux: &mut Mux,
    entries: &mut Vec<Entry<RingEnd>>,
    most: usize,
    sent: &mut Vec<Packet>,
) -> Sending
    requires lawful { IsLawfulStation mux.old entries.old.items }
    requires room { vec_len sent.old + most ≤ vec_capacity sent.old }
    ensures advances { AdvancesBehind most (record { history = mux.old; inputs = entries.old.items }) sent.old.items result
        (record { history = mux.new; inputs = entries.new.items }) sent.new.items }
    ensures lawful { IsLawfulStation mux.new entries.new.items }
    ensures room { (vec_len sent.new ≤ vec_len sent.old + most) × (vec_capacity sent.old ≤ vec_capacity sent.new) }
{
    for _count in 0..most {
        if let Some(answer) = step_behind(mux, entries, sent) {
            return answer;
        }
    }
    Sending::Sent
}
