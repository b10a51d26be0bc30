//! Parts of a plan's text, and plans with other queues, inputs and services than the example's.

use crate::example_plan;
use anyhow::Result;
use plan::Plan;
use std::alloc::{AllocError, Global};

/// The head of a plan's text, with rings of 64 packets.
pub fn settings(alloc: Global, queue: usize) -> Result<String, AllocError> {
    settings_with_rings(alloc, queue, 64)
}

/// The head of a plan's text, with queues and rings of so many packets.
pub fn settings_with_rings(alloc: Global, queue: usize, ring: usize) -> Result<String, AllocError> {
    format!(in alloc;
        "rate = 1504000
period = 100
watch = 1000
version = 0
queue = {queue}
ring = {ring}
transport_stream_id = 1
original_network_id = 2
network_id = 3
network_name = \"N\"
transport_descriptors = \"\"
"
    )
}

/// An input in a plan's text.
fn input(alloc: Global, offset: u64) -> Result<String, AllocError> {
    format!(in alloc;
        "[[input]]
file = \"x.ts\"
rate = 1504000
offset = {offset}
"
    )
}

/// A service in a plan's text, the one with this number: service 500 + number with the PMT PID 0x0100 + number, and one
/// stream, which becomes 0x0200 + number.
pub fn service(
    alloc: Global,
    number: usize,
    input: usize,
    program: usize,
    pid: usize,
) -> Result<String, AllocError> {
    let number = number % 16;
    let (service, pmt, out) = (500 + number, 0x0100 + number, 0x0200 + number);
    format!(in alloc;
        "[[service]]
input = {input}
program = {program}
service = {service}
pmt = {pmt}
[[service.stream]]
pid = {pid}
out = {out}
leak = 2000000
"
    )
}

/// The example plan with this queue and inputs at these offsets, each with the example's service.
pub fn plan_of(alloc: Global, queue: usize, offsets: &[u64]) -> Result<Plan> {
    plan_with_rings(alloc, queue, 64, offsets)
}

/// The same, with rings of so many packets.
pub fn plan_with_rings(alloc: Global, queue: usize, ring: usize, offsets: &[u64]) -> Result<Plan> {
    let mut text = settings_with_rings(alloc, queue, ring)?;
    for offset in offsets {
        text.push_str(&input(alloc, *offset)?)?;
    }
    let mut number = 0;
    for _ in offsets {
        text.push_str(&service(alloc, number, number, 100, 0x0101)?)?;
        number = number % 16 + 1;
    }
    example_plan::planned(alloc, &text, &example_plan::tables(alloc)?)
}
