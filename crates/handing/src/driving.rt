//! How a run goes on, and how what goes out of it is handed on.

ghost use Rattle.std.specs.Prelude.{◌≡◌, ◌⊎◌, ◌≤◌, ◌++◌, ◌∷◌, [], ℕ, List, true, MatchBool, vec_capacity};
ghost use Rattle.outcome.specs.Taking.{IsOver};
ghost use Rattle.station.specs.Stations.{StationValue};
ghost use Rattle.handing.specs.Handing.{HandsAllBut, HandsSome, IsHandedOn};
ghost use Rattle.handing.specs.Outputs.{packets_in};

use crate::passage::STEPS;
use crate::turn::Turn;
use mux::Sending;
use relay::{BlockSender, FinishedSender};
use signals::Signals;
use station::Station;
use std::sync::Wait;
use std::time::Clock;
use tspkt::Packet;

/// Lets the station go on until nothing is left to send or the run has all its slots, and hands on what goes out, and then the end
/// mark. Where an input isn't ready, or no empty block has come back, the calling thread lets others go first. Where the run is over
/// before, no mark is sent. `packets` is empty, and has room for what goes out in a turn.
#[tactic(auto, using(crate::proofs::HandingLaws::begins_handing, crate::proofs::HandingLaws::all_handed, crate::proofs::HandingLaws::ends_handing, crate::proofs::HandingLaws::cuts_handing))]
pub(crate) fn drive<T: Wait + Clock>(
    rt: &T,
    station: &mut Station,
    packets: &mut Vec<Packet>,
    sender: BlockSender,
    signals: &mut Signals,
) -> FinishedSender
    requires unsent { sender.sent ≡ [] }
    requires empty { packets.old.items ≡ [] }
    requires room { STEPS ≤ vec_capacity packets.old }
    ensures { IsHandedOn station.old station.new sender.relay result }
{
    let mut sender = sender;
    for _ in rt.forever() {
        match step(rt, station, packets, &mut sender, signals) {
            Turn::Goes => signals.came(),
            Turn::Waits => signals.waits_for_packets(rt, !packets.is_empty()),
            Turn::Over => return end(rt, sender, signals),
            Turn::CutShort => return sender.finish(),
        }
    }
    unreachable!()
}

/// Lets the station go on by as many steps as the block in hand has places left, and hands on what went out.
fn step<T: Wait + Clock>(
    rt: &T,
    station: &mut Station,
    packets: &mut Vec<Packet>,
    sender: &mut BlockSender,
    signals: &mut Signals,
) -> Turn
    requires { STEPS ≤ vec_capacity packets.old }
    ensures relay { sender.new.relay ≡ sender.old.relay }
    ensures all { (result ≡ Turn.CutShort → ⊥) → (start : StationValue)
        → HandsAllBut start station.old sender.old.sent packets.old.items
        → HandsAllBut start station.new sender.new.sent packets.new.items }
    ensures some { (start : StationValue)
        → HandsAllBut start station.old sender.old.sent packets.old.items → HandsSome start station.new sender.new.sent }
    ensures over { result ≡ Turn.Over
        → IsOver station.new.history.run station.new.history.events × (packets.new.items ≡ []) }
    ensures room { STEPS ≤ vec_capacity packets.new }
{
    let before = packets.len();
    let most = STEPS.saturating_sub(before);
    let answer = station.advance_behind(most, packets);
    let is_nothing_sent = packets.len() == before;
    signals.turned(&answer, most, packets.len().saturating_sub(before));
    let turn = turn_of(answer, is_nothing_sent);
    hand_on(rt, packets, sender, signals, turn)
}

/// What a turn did whose steps ended with this answer, by what went out.
fn turn_of(answer: Sending, is_nothing_sent: bool) -> Turn
    ensures over { result ≡ Turn.Over → (answer ≡ Sending.Done) ⊎ (answer ≡ Sending.RunFull) }
    ensures goes { result ≡ Turn.CutShort → ⊥ }
{
    match answer {
        Sending::NotReady(_) if is_nothing_sent => Turn::Waits,
        Sending::Done | Sending::RunFull => Turn::Over,
        _ => Turn::Goes,
    }
}

/// Hands the block in hand on behind a turn, where it has packets: as soon as an empty one is there, if it is full or the last one, and
/// else only where more than the last few blocks are empty. So the run never waits for its output before that has as many full blocks to
/// write, however little each turn sends; and nothing stays in hand while the output has nothing to do. It
/// answers what the turn did, or `CutShort` where the run was over before.
fn hand_on<T: Wait + Clock>(
    rt: &T,
    packets: &mut Vec<Packet>,
    sender: &mut BlockSender,
    signals: &mut Signals,
    turn: Turn,
) -> Turn
    requires { STEPS ≤ vec_capacity packets.old }
    ensures relay { sender.new.relay ≡ sender.old.relay }
    ensures sent { (rest : List (List ℕ))
        × (packets_in sender.old.sent ++ packets.old.items ≡ packets_in sender.new.sent ++ rest)
        × ((result ≡ Turn.CutShort → ⊥) → rest ≡ packets.new.items) }
    ensures turn { (result ≡ Turn.CutShort → ⊥) → result ≡ turn }
    ensures last { result ≡ Turn.Over → packets.new.items ≡ [] }
    ensures room { STEPS ≤ vec_capacity packets.new }
{
    if !packets.is_empty() {
        if matches!(turn, Turn::Over) || packets.len() >= STEPS {
            if !send(rt, packets, sender, signals) {
                return Turn::CutShort;
            }
        } else if sender.offer(packets) {
            signals.sent();
        }
    }
    if signals.is_over() {
        return Turn::CutShort;
    }
    turn
}

/// Sends a block, as soon as an empty one is there to take its place. False is answered where the run was over before.
fn send<T: Wait + Clock>(
    rt: &T,
    packets: &mut Vec<Packet>,
    sender: &mut BlockSender,
    signals: &mut Signals,
) -> bool
    requires { STEPS ≤ vec_capacity packets.old }
    ensures relay { sender.new.relay ≡ sender.old.relay }
    ensures sent { MatchBool result
        ((packets_in sender.new.sent ≡ packets_in sender.old.sent ++ packets.old.items) × (packets.new.items ≡ []))
        (sender.new ≡ sender.old) }
    ensures room { STEPS ≤ vec_capacity packets.new }
{
    for _ in rt.forever() {
        if sender.send(packets) {
            signals.sent();
            return true;
        }
        if signals.is_over() {
            return false;
        }
        signals.waits_for_block(rt);
    }
    unreachable!()
}

/// Ends the sender with the end mark, as soon as there is a place for it, or without it where the run was over before.
fn end<T: Wait + Clock>(rt: &T, sender: BlockSender, signals: &mut Signals) -> FinishedSender
    ensures { result.sender ≡ sender }
{
    let mut sender = sender;
    for _ in rt.forever() {
        match sender.end() {
            Ok(finished) => {
                signals.sent();
                return finished;
            }
            Err(back) => sender = back,
        }
        if signals.is_over() {
            return sender.finish();
        }
        signals.waits_for_block(rt);
    }
    unreachable!()
}
