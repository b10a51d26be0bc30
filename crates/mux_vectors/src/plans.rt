//! Schedules of multiplexes.

use anyhow::Result;
use example::{plan_of, planned, tables};
use schedule::Schedule;
use std::alloc::Global;

/// The example plan with an input at four times the rate of the multiplex, whose stream's buffer leaks a quarter of it.
const FAST_INPUT: &str = "rate = 1504000
period = 100
watch = 1000
version = 0
queue = 64
ring = 64
transport_stream_id = 1
original_network_id = 2
network_id = 3
network_name = \"N\"
transport_descriptors = \"\"
[[input]]
file = \"x.ts\"
rate = 6016000
offset = 0
[[service]]
input = 0
program = 100
service = 500
pmt = 256
[[service.stream]]
pid = 257
out = 512
leak = 376000
";

/// That of a fast input.
pub fn fast(alloc: Global) -> Result<Schedule> {
    let plan = planned(alloc, FAST_INPUT, &tables(alloc)?)?;
    Ok(Schedule::single(alloc, plan))
}

/// The example plan with queues of so many packets, and inputs that begin at these times, each with the example's service.
pub fn single(alloc: Global, queue: usize, offsets: &[u64]) -> Result<Schedule> {
    let plan = plan_of(alloc, queue, offsets)?;
    Ok(Schedule::single(alloc, plan))
}
