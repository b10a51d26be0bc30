//! What is told of a run at its end.

ghost use Rattle.std.specs.Prelude.{◌≡◌, ◌⊎◌, length, Err, IfOk, OnOk, OnErr};
ghost use Rattle.outcome.specs.Ending.{HadMemory, IsTold};
ghost use Rattle.workers.specs.Crews.{WantedMemory};

use outcome::{Ended, Summary, end_run};
use outlet::{Outlet, RunFault, Sink};
use station::Station;
use std::alloc::Global;
use workers::wanted_memory;

/// What is told of a run that was driven so, whose workers left this. Where one wanted memory `Memory` is told, whatever the writer
/// did. The sink comes back.
#[tactic(auto, using(crate::proofs::ResultLaws::ok_unwritten))]
pub(crate) fn tell<R: Drop, G: Drop, W: Sink>(
    alloc: Global,
    station: &Station,
    driven: Result<(), RunFault>,
    ended: Vec<Ended<(R, G)>>,
    outlet: Outlet<W>,
) -> (W, Result<(Summary, Vec<(R, G)>), RunFault>)
    requires { OnOk driven (length ended.items ≡ length station.now.history.run.schedule.first.request.inputs) }
    ensures sink { result.0 ≡ outlet.sink }
    ensures told { IfOk result.1 (λ done.
        IsTold station.now.history.run.schedule station.now.history.events ended.items outlet.output done.0 done.1.items) }
    ensures well { OnOk result.1 (OnErr driven ⊥ × HadMemory ended.items) }
    ensures write { result.1 ≡ Err RunFault.Write → (driven ≡ Err RunFault.Write) × HadMemory ended.items }
    ensures memory { result.1 ≡ Err RunFault.Memory → (driven ≡ Err RunFault.Write → ⊥) ⊎ WantedMemory ended.items }
{
    let Outlet { output, sink } = outlet;
    if wanted_memory(ended.as_slice()) {
        return (sink, Err(RunFault::Memory));
    }
    match driven {
        Ok(()) => {}
        Err(fault) => return (sink, Err(fault)),
    }
    match end_run(alloc, station.mux(), ended, output) {
        Ok(done) => (sink, Ok(done)),
        Err(_) => (sink, Err(RunFault::Memory)),
    }
}
