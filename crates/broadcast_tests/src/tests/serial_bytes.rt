//! What the run in one thread writes.

ghost use Rattle.std.specs.Prelude.{◌≡◌, ◌≤◌, ◌^◌, length};

use outlet::WriteSink;
use reading::ReadSource;
use schedule::Schedule;
use serial::run_serial;
use std::alloc::Global;
use std::process::Abort;

/// The bytes that a run in one thread writes of a schedule whose inputs all have these bytes.
pub fn serial_bytes(rt: &impl Abort, alloc: Global, schedule: Schedule, input: &[u8]) -> Vec<u8> {
    let mut readers = Vec::new(alloc);
    for _ in 0..schedule.plan(0).inputs().len() {
        assert!(rt; readers.push(ReadSource::new(input)).is_ok());
    }
    assert!(rt; readers.len() == schedule.plan(0).inputs().len());
    let sink = WriteSink::new(Vec::new(alloc));
    let (sink, result) = run_serial(alloc, schedule, 1_000_000, readers, sink);
    assert!(rt; result.is_ok());
    sink.into_inner()
}
