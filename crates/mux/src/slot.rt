//! What `slot` answers.

ghost use Rattle.std.specs.Prelude.{◌≢◌};
ghost use Rattle.mux.specs.History.{History};
ghost use Rattle.mux.specs.Answers.{SendAnswers, SlotAnswers};

use crate::sending::Sending;
use tspkt::Packet;

/// What became of a slot. `Sent` and `Switched` alone change the multiplex.
#[derive(Drop)]
pub enum Slot {
    /// This packet was sent.
    Sent(Packet),
    /// The next plan came into force, and nothing was sent.
    Switched,
    /// An input isn't ready, and this is the least one.
    NotReady(usize),
    /// All inputs are closed, and nothing waits in a queue.
    Done,
    /// The run has all its slots.
    RunFull,
    /// The memory for its packet was refused, where packets are kept.
    Memory,
}

/// The same answer of `slot`, where no packet was sent.
pub(crate) fn without_packet(answer: Sending) -> Slot
    requires { answer ≢ Sending.Sent }
    ensures { (h new : History) → SendAnswers h answer new → SlotAnswers h result new }
{
    match answer {
        Sending::Sent => unreachable!(),
        Sending::Switched => Slot::Switched,
        Sending::NotReady(input) => Slot::NotReady(input),
        Sending::Done => Slot::Done,
        Sending::RunFull => Slot::RunFull,
    }
}
