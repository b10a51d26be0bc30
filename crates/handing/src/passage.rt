//! How a run's packets come to the thread of its output.

ghost use Rattle.std.specs.Prelude.{◌≡◌, ◌≤◌, [], IfOk, vec_capacity};
ghost use Rattle.relay.specs.Relays.{IsNewRelay};

use relay::{BlockReceiver, BlockSender, ROOM, relay};
use signals::OutputSignals;
use std::alloc::{AllocError, Global};
use tspkt::Packet;

/// How many packets a block has when it is full, and how many steps a station goes on by at once, at most: each sends a slot, or
/// takes what comes next of an input.
pub(crate) const STEPS: usize = ROOM;

/// How many blocks are on their way to the output, at most.
const BLOCKS: usize = 15;

/// How a run's packets come to the thread of its output: the block in hand, which those of a turn go into, the two ends of a relay,
/// and what the thread tells the one that ticks.
#[derive(Drop)]
pub struct Passage {
    pub packets: Vec<Packet>,
    pub sender: BlockSender,
    pub receiver: BlockReceiver,
    pub signals: OutputSignals,
}

impl Passage {
    /// One that nothing came through. `Err` is want of memory.
    pub fn open(alloc: Global, signals: OutputSignals) -> Result<Passage, AllocError>
        ensures relay { IfOk result (λ p. IsNewRelay BLOCKS p.sender p.receiver) }
        ensures empty { IfOk result (λ p. p.packets.items ≡ []) }
        ensures room { IfOk result (λ p. STEPS ≤ vec_capacity p.packets) }
    {
        let packets = Vec::with_capacity(alloc, STEPS)?;
        let (sender, receiver) = relay(alloc, BLOCKS)?;
        Ok(Passage {
            packets,
            sender,
            receiver,
            signals,
        })
    }
}
