//! A step of a run.

ghost use Rattle.std.specs.Prelude.{◌≡◌, ◌≢◌, ◌<◌, ◌≤◌, ◌+◌, length};
ghost use Rattle.mux.specs.Lawful.{input_count};
ghost use Rattle.mux.specs.Answers.{SendsOn};
ghost use Rattle.inlets.specs.Stepping.{Steps};

use crate::entry::Entry;
use crate::inlet::Inlet;
use crate::step::Step;
use crate::taking::Taking;
use crate::turns::take;
use mux::{Mux, Outgoing, Sending};

/// One step: the next slot is sent, or the next plan comes into force, or the input that the multiplex waits for has its turn. Where
/// none of these can be, the answer says why, and nothing changed but that an inlet was looked at. There is an entry an input, in
/// their order. The packet of a slot goes behind those that `out` has, which needs room for it.
pub fn take_step<I: Inlet, O: Outgoing>(
    mux: &mut Mux,
    entries: &mut Vec<Entry<I>>,
    out: &mut O,
) -> Step
    requires entries { length entries.old.items ≡ input_count mux.old.run.schedule }
    requires room { 0 < O.room out.old }
    ensures steps { Steps I.shown I.IsOver I.IsWaiting I.looks I.released mux.old entries.old.items result mux.new entries.new.items }
    ensures sent { result ≡ Step.Sent → SendsOn mux.old mux.new (O.packets out.old) (O.packets out.new) }
    ensures unsent { result ≢ Step.Sent → out.new ≡ out.old }
    ensures room { O.room out.old ≤ O.room out.new + 1 }
    ensures run { mux.new.run ≡ mux.old.run }
{
    match mux.send_next(out) {
        Sending::Sent => Step::Sent,
        Sending::Switched => Step::Switched,
        Sending::NotReady(input) => match take(mux, input, &mut entries[input]) {
            Taking::Took | Taking::HeldBack | Taking::Closed => Step::Turned,
            Taking::Waits => Step::Waits(input),
        },
        Sending::Done => Step::Done,
        Sending::RunFull => Step::RunFull,
    }
}
