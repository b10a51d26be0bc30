//! A station of one input, and the port of that input.

ghost use Rattle.std.specs.Prelude.{◌≡◌, [], Some, length};
ghost use Rattle.std.specs.List.{slice_get};
ghost use Rattle.schedule.specs.Streams.{all_streams};
ghost use Rattle.mux.specs.Lawful.{input_count};
ghost use Rattle.station.specs.Stations.{rings_of};

use example::plan_with_rings;
use port::Port;
use schedule::Schedule;
use station::Station;
use std::alloc::Global;
use std::process::Abort;

/// A station of the example plan, whose queue and ring have room for so many packets, and the port of its input.
pub fn open(rt: &impl Abort, alloc: Global, queue: usize, ring: usize) -> (Station, Port)
    ensures tied { slice_get (rings_of result.0.inputs) result.1.ring.input ≡ Some result.1.ring }
    ensures inputs { input_count result.0.history.run.schedule ≡ 1 }
    ensures streams { length (all_streams result.0.history.run.schedule) ≡ 1 }
    ensures unsent { result.1.sent ≡ [] }
{
    let plan = plan_with_rings(alloc, queue, ring, &[0]).expect(rt, "a plan");
    let schedule = Schedule::single(alloc, plan);
    assert!(rt; schedule.plan(0).inputs().len() == 1);
    assert!(rt; schedule.streams().len() == 1);
    let (station, mut ports) = Station::open(alloc, schedule, 1_000).expect(rt, "a station");
    (station, ports.pop().expect(rt, "a port"))
}
