//! Analyses and writes what goes out of a run.

ghost use Rattle.std.specs.Prelude.{◌≡◌, [], true, false};
ghost use Rattle.handing.specs.Outputs.{IsPut, IsWritten};

use crate::written::Written;
use outlet::{Outlet, RunFault, Sink};
use relay::{BlockReceiver, Message};
use signals::OutputSignals;
use std::sync::Wait;
use std::time::Clock;
use tspkt::Packet;

/// The end of the relay that a run's packets come through, what they go out by, and what it tells the thread that ticks.
#[derive(Drop)]
pub(crate) struct OutputWorker<W> {
    pub receiver: BlockReceiver,
    pub outlet: Outlet<W>,
    pub signals: OutputSignals,
}

impl<W: Sink + Drop> OutputWorker<W> {
    ghost use Rattle.handing.specs.Outputs.{HasWritten};

    /// Takes the packets out of the relay, and analyses and writes each, until the end mark comes or a fault ends it. The run is
    /// over where a fault did.
    pub fn run<T: Wait + Clock>(self, rt: &T) -> Written<W>
        ensures { HasWritten W.contents W.failures self result }
    {
        let OutputWorker {
            mut receiver,
            mut outlet,
            mut signals,
        } = self;
        let result = write_all(rt, &mut receiver, &mut outlet, &mut signals);
        if result.is_err() {
            signals.end();
        }
        Written {
            receiver,
            outlet,
            result,
        }
    }
}

/// Analyses and writes what comes out of a relay, until the end mark comes. What waits in the buffer is written before the thread has
/// waited twice in a row for what comes next.
fn write_all<T: Wait + Clock, W: Sink>(
    rt: &T,
    receiver: &mut BlockReceiver,
    outlet: &mut Outlet<W>,
    signals: &mut OutputSignals,
) -> Result<(), RunFault>
    ensures { IsWritten W.contents W.failures receiver.old outlet.old receiver.new outlet.new result }
{
    let mut has_waited = false;
    for _ in rt.forever() {
        match receiver.next() {
            Some(Message::Block(block)) => {
                has_waited = false;
                signals.came();
                put_all(block.as_slice(), outlet)?;
                let _ = receiver.give_back(block);
            }
            Some(Message::End) => return outlet.output.flush(&mut outlet.sink),
            None => {
                write_waiting(outlet, has_waited)?;
                has_waited = signals.waits(rt, has_waited);
            }
        }
    }
    unreachable!()
}

/// Writes what waits in the buffer where the thread has waited and no block was seen since. Else it writes nothing, so that a busy run
/// makes no more writes than its buffer wants.
fn write_waiting<W: Sink>(outlet: &mut Outlet<W>, has_waited: bool) -> Result<(), RunFault>
    ensures put { IsPut W.contents W.failures outlet.old [] outlet.new result }
    ensures written { has_waited ≡ true → outlet.new.output.writer ≡ [] }
    ensures unasked { has_waited ≡ false → outlet.new ≡ outlet.old }
{
    if !has_waited {
        return Ok(());
    }
    outlet.output.flush(&mut outlet.sink)
}

/// Analyses and writes packets, in their order.
fn put_all<W: Sink>(packets: &[Packet], outlet: &mut Outlet<W>) -> Result<(), RunFault>
    ensures { IsPut W.contents W.failures outlet.old packets.now outlet.new result }
{
    for packet in packets {
        outlet.output.put(packet, &mut outlet.sink)?;
    }
    Ok(())
}
