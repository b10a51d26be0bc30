//! The thread of the output, from its start to its end.

ghost use Rattle.std.specs.Prelude.{◌≡◌, ◌≤◌, [], IfOk, IfErr, vec_capacity};
ghost use Rattle.relay.specs.Relays.{IsNewRelay};
ghost use Rattle.handing.specs.declared.passage.TheConstants.{STEPS, BLOCKS};
ghost use Rattle.handing.specs.Driving.{Drives};
ghost use Rattle.handing.specs.Outputs.{HasWritten};

use crate::driving::drive;
use crate::output_worker::OutputWorker;
use crate::passage::Passage;
use crate::written::Written;
use outlet::{Outlet, RunFault, Sink};
use relay::{BlockSender, FinishedSender};
use signals::Signals;
use station::Station;
use std::snapshot::Snapshot;
use std::sync::Wait;
use std::thread;
use std::thread::{Promise, PromisedHandle, Threads};
use std::time::Clock;

/// What the thread of the output promises of what it hands back: the contract of its worker.
#[derive(Drop)]
pub(crate) struct OutputOf<W: Sink + Drop> {
    pub worker: Snapshot<OutputWorker<W>>,
}

impl<W: Sink + Drop> Promise<Written<W>> for OutputOf<W> {
    ghost use Rattle.handing.specs.Outputs.{HasWritten};

    ghost kept_by = { λ p r. HasWritten W.contents W.failures p.worker.value r };
}

/// The thread of the output.
pub type OutputHandle<W> = PromisedHandle<Written<W>, OutputOf<W>>;

/// Starts the thread of the output, which takes what this sender sends. Where no thread can be made the sender is finished, and
/// what the worker leaves then is answered: it ends at the end mark.
fn start<T: Threads + Wait + Clock + Copy + Send + Drop + 'static, W: Sink + Send + Drop + 'static>(
    rt: T,
    sender: BlockSender,
    worker: OutputWorker<W>,
) -> Result<(BlockSender, OutputHandle<W>), (FinishedSender, Written<W>)>
    ensures started { IfOk result (λ s. (s.0 ≡ sender) × (s.1.promise.worker.value ≡ worker)) }
    ensures refused { IfErr result (λ e.
        (e.0.sender ≡ sender) × HasWritten W.contents W.failures worker e.1) }
{
    let promise = OutputOf {
        worker: Snapshot::of(&worker),
    };
    match thread::spawn_with(
        &rt,
        promise,
        move || -> Written<W>
            ensures { HasWritten W.contents W.failures worker result }
        { worker.run(&rt) },
    ) {
        Ok(handle) => Ok((sender, handle)),
        Err(refused) => {
            let finished = match sender.end() {
                Ok(finished) => finished,
                Err(sender) => sender.finish(),
            };
            Err((finished, (refused.value)()))
        }
    }
}

/// Starts the thread of the output, ticks to the end of the run, and joins the thread. What the packets go out by comes back.
/// `Memory` is answered where no thread can be made, too: then nothing was ticked.
pub fn send_out<
    T: Threads + Wait + Clock + Copy + Send + Drop + 'static,
    W: Sink + Send + Drop + 'static,
>(
    rt: T,
    station: &mut Station,
    passage: Passage,
    signals: &mut Signals,
    outlet: Outlet<W>,
) -> (Outlet<W>, Result<(), RunFault>)
    requires relay { IsNewRelay BLOCKS passage.sender passage.receiver }
    requires empty { passage.packets.items ≡ [] }
    requires room { STEPS ≤ vec_capacity passage.packets }
    ensures { Drives W.contents W.failures station.old station.new outlet result.0 result.1 }
{
    let Passage {
        mut packets,
        sender,
        receiver,
        signals: told,
    } = passage;
    let worker = OutputWorker {
        receiver,
        outlet,
        signals: told,
    };
    match start(rt, sender, worker) {
        Ok((sender, handle)) => {
            let mut finished = drive(&rt, station, &mut packets, sender, signals);
            let Written {
                mut receiver,
                outlet,
                result,
            } = handle.join(&rt);
            let _ = receiver.left(&mut finished);
            (outlet, result)
        }
        Err((mut finished, written)) => {
            let Written {
                mut receiver,
                outlet,
                result,
            } = written;
            let _ = receiver.left(&mut finished);
            (outlet, result.and(Err(RunFault::Memory)))
        }
    }
}
