//! An example: a plan for one service of one input, and the tables that this input has.

ghost use Rattle.std.specs.Prelude.{◌≡◌, ◌<◌, ◌≤◌, length, IfOk};
ghost use Rattle.mux.specs.declared.mux.TheConstants.{MAX_SLOTS};
ghost use Rattle.mux.specs.Lawful.{input_count};

use acquire::Found;
use anyhow::{Error, Result, bail};
use mux::{MAX_SLOTS, Mux};
use plan::Plan;
use request::Request;
use schedule::Schedule;
use section::{crc, packets_of};
use selection::seek;
use std::alloc::{AllocError, Global};
use tspkt::Packet;

/// The plan's text. A slot of this rate takes 27,000 ticks of 27 MHz, as a packet of the input does.
pub const PLAN: &str = "rate = 1504000
period = 100
watch = 1000
version = 0
queue = 64
ring = 64
transport_stream_id = 1
original_network_id = 2
network_id = 3
network_name = \"N\"
transport_descriptors = \"\"
[[input]]
file = \"x.ts\"
rate = 1504000
offset = 0
[[service]]
input = 0
program = 100
service = 500
pmt = 256
[[service.stream]]
pid = 257
out = 512
leak = 2000000
";

/// The PMT PID of the input's program.
const PMT_PID: u16 = 0x1000;

/// The sections of the input's tables, each without its CRC_32: the PAT names program 100, whose PMT has one stream, of
/// video, on PID 0x0101 with the PCR; the SDT has a service descriptor.
const PAT: [u8; 12] = [0x00, 0xB0, 0x0D, 0, 7, 0xC1, 0, 0, 0, 100, 0xF0, 0x00];

const PMT: [u8; 17] = [
    0x02, 0xB0, 0x12, 0, 100, 0xC1, 0, 0, 0xE1, 0x01, 0xF0, 0x00, 0x02, 0xE1, 0x01, 0xF0, 0x00,
];

const SDT: [u8; 23] = [
    0x42, 0xF0, 0x18, 0, 7, 0xC1, 0, 0, 0, 9, 0xFF, 0, 100, 0xFC, 0x80, 7, 0x48, 5, 0x01, 1, b'A',
    1, b'B',
];

/// Adds the packets of a section, whose CRC_32 is put in.
pub fn add_section(
    alloc: Global,
    packets: &mut Vec<Packet>,
    pid: u16,
    bytes: &[u8],
) -> Result<(), AllocError>
    requires pid { pid < 8192 }
    requires length { length bytes.now ≤ 1020 }
{
    let mut whole = bytes.to_vec(alloc)?;
    whole.extend_from_slice(&crc(bytes).to_be_bytes())?;
    packets.extend_from_slice(&packets_of(alloc, &whole, pid, 0)?)
}

/// The packets of the input's tables.
pub fn tables(alloc: Global) -> Result<Vec<Packet>, AllocError> {
    let mut packets = Vec::new(alloc);
    add_section(alloc, &mut packets, 0x0000, &PAT)?;
    add_section(alloc, &mut packets, PMT_PID, &PMT)?;
    add_section(alloc, &mut packets, 0x0011, &SDT)?;
    Ok(packets)
}

/// What is found in an input that begins with these packets.
fn find(alloc: Global, request: &Request, input: usize, packets: &[Packet]) -> Result<Found> {
    let mut acquire = seek(alloc, request, input)?;
    for packet in packets {
        let _ = acquire.push(packet)?;
    }
    Ok(acquire.found())
}

/// What is found in the inputs of a request, each of which begins with these packets.
fn find_all(alloc: Global, request: &Request, packets: &[Packet]) -> Result<Vec<Found>> {
    let mut all = Vec::new(alloc);
    for input in 0..request.inputs().len() {
        all.push(find(alloc, request, input, packets)?)?;
    }
    Ok(all)
}

/// The plan of a request, whose inputs begin with these packets.
fn build(alloc: Global, request: &Request, packets: &[Packet]) -> Result<Plan> {
    let found = find_all(alloc, request, packets)?;
    Plan::build(alloc, request, &found).map_err(Error::from)
}

/// The plan of this text, where each input begins with these packets.
pub fn planned(alloc: Global, text: &str, packets: &[Packet]) -> Result<Plan> {
    let request = Request::read(alloc, text)?;
    build(alloc, &request, packets)
}

/// A multiplex of a plan that has so many inputs, for at most this many slots.
pub fn open(alloc: Global, plan: Plan, inputs: usize, slots: u64) -> Result<Mux>
    requires { slots ≤ MAX_SLOTS }
    ensures { IfOk result (λ m. input_count m.run.schedule ≡ inputs) }
{
    if plan.inputs().len() != inputs {
        bail!("the plan has another number of inputs");
    }
    Ok(Mux::open(alloc, Schedule::single(alloc, plan), slots)?)
}

/// A multiplex of the example's plan, for as many slots as a run may have.
pub(crate) fn opened(alloc: Global) -> Result<Mux>
    ensures { IfOk result (λ m. input_count m.run.schedule ≡ 1) }
{
    let tables = tables(alloc)?;
    open(alloc, planned(alloc, PLAN, &tables)?, 1, MAX_SLOTS)
}
