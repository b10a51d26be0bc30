//! Runs by schedules, slot by slot. `stdout` has what is to be printed, worked out on paper. A slot and a packet take 27,000 ticks; tables go
//! out in the slots 0, 2 and 4 of each plan, and packet k of the input comes in slot k.
//!
//! First 103 packets, where the plan goes over at slot 100 to one with the next version and the stream on another PID: packets 97 to 99
//! wait then, and are dropped. Then 1,640 packets, with a switch at each of sixteen neighbouring periods and the stream in all plans: nothing
//! is dropped, and of the second run the tables alone are printed.
#![tactic(auto)]

mod kept_bytes;

use crate::kept_bytes::KeptBytes;
use anyhow::{Result, bail};
use example::{packets, plan_a_period, switched};
use outlet::WriteSink;
use reading::ReadSource;
use schedule::Schedule;
use serial::{Summary, run_serial};
use std::alloc::Global;
use std::io;
use std::io::{BufWriter, Cursor, Write};

/// The bytes of an input of so many packets.
fn input(alloc: Global, count: u64) -> Result<Vec<u8>> {
    let mut counters = Vec::new(alloc);
    for counter in 0..count {
        counters.push((counter % 16) as u8)?;
    }
    Ok(packets(alloc, &counters)?)
}

/// What is written of a schedule over so many packets, and what became of the run.
fn run(alloc: Global, schedule: Schedule, count: u64) -> Result<(Vec<u8>, Summary)> {
    let readers = vec![in alloc; ReadSource::new(Cursor::new(input(alloc, count)?))]?;
    if schedule.plan(0).inputs().len() != readers.len() {
        bail!("the plan has another number of inputs");
    }
    let sink = WriteSink::new(KeptBytes::new(alloc));
    let (sink, result) = run_serial(alloc, schedule, 10_000, readers, sink);
    let (summary, _) = result?;
    Ok((sink.into_inner().bytes, summary))
}

/// A byte of a packet.
fn byte(packet: &[u8], place: usize) -> u8 {
    packet.get(place).copied().unwrap_or(0)
}

/// Prints the PID and the counter of a slot's packet, where the PID is below a bound; and of a table the version, in the sixth byte of its
/// section, which begins behind the pointer_field.
fn print_slot<W: Write>(number: usize, packet: &[u8], bound: u16, out: &mut W) -> io::Result<()> {
    let pid = u16::from(byte(packet, 1) % 32) * 256 + u16::from(byte(packet, 2));
    let (counter, version) = (byte(packet, 3) % 16, byte(packet, 10) / 2 % 32);
    if pid >= bound {
        return Ok(());
    }
    write!(out, "{number}: 0x{pid:04x} {counter}")?;
    if pid < 0x0200 {
        write!(out, ", version {version}")?;
    }
    writeln!(out)
}

/// Prints the slots whose packets have a PID below a bound, and what became of the run.
fn print_run<W: Write>(bytes: &[u8], summary: &Summary, bound: u16, out: &mut W) -> io::Result<()> {
    for (number, packet) in bytes.chunks(188).enumerate() {
        print_slot(number, packet, bound, out)?;
    }
    for input in &summary.inputs {
        let totals = input.totals;
        let (taken, sent, dropped, queued) = (
            totals.taken,
            totals.sent,
            totals.dropped,
            totals.queued,
        );
        writeln!(
            out,
            "taken {taken}, sent {sent}, dropped {dropped}, queued {queued}"
        )?;
    }
    let (length, counts, faults) = (bytes.len(), summary.counts, summary.faults);
    let (tables, elementary, null) = (counts.tables, counts.elementary, counts.null);
    writeln!(
        out,
        "{length} bytes, tables {tables}, elementary {elementary}, null {null}, faults {faults}"
    )
}

fn main(rt: HostRuntime) -> Result<()> {
    let alloc = rt.alloc();
    let mut out = BufWriter::new(alloc, rt.stdout())?;
    let (bytes, summary) = run(alloc, switched(alloc)?, 103)?;
    print_run(&bytes, &summary, 0x2000, &mut out)?;
    let (bytes, summary) = run(alloc, plan_a_period(alloc, 16)?, 1_640)?;
    print_run(&bytes, &summary, 0x0200, &mut out)?;
    out.flush()?;
    Ok(())
}
