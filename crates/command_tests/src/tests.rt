//! A run, a check and an analysis over files in memory. What else commands do is tested over real files, by `scripts/commands`.

mod memory_files;
mod memory_reader;
mod memory_writer;

use crate::tests::memory_files::MemoryFiles;
use anyhow::Result;
use commands::command;
use example::eight_packets;
use live::WatchedFiles;
use std::alloc::Global;
use std::process::Abort;
use std::sync::Wait;
use std::test::Fail;
use std::thread::Threads;
use std::time::Clock;
use std::{io, str};

const RUN: [&str; 5] = ["run", "--plan", "x.toml", "--out", "out.ts"];

const RUN_SERIAL: [&str; 6] = ["run", "--plan", "x.toml", "--out", "out.ts", "--serial"];

const RUN_ALL: [&str; 6] = ["run", "--plan", "x.toml", "--out", "out.ts", "--all"];

const CHECK: [&str; 3] = ["check", "--plan", "x.toml"];

const ANALYSE: [&str; 6] = ["analyse", "--rate", "1504000", "--period", "1000", "x.ts"];

/// Bytes as text; `?` where they are none.
fn text(bytes: &[u8]) -> &str {
    str::from_utf8(bytes).unwrap_or("?")
}

/// A command over the example's plan and an input ends with this status and these texts, and writes so many bytes of an output, or
/// makes none.
fn ends<T: Abort + Threads + Wait + Clock + Copy + Send + Drop + 'static>(
    rt: T,
    alloc: Global,
    words: &[&str],
    input: Vec<u8>,
    wanted: (u8, &str, &str, Option<usize>),
) -> Result<()> {
    let files = MemoryFiles::new(alloc, example::PLAN, input)?;
    let mut files = WatchedFiles::new(alloc, files);
    let (mut out, mut err) = (Vec::new(alloc), Vec::new(alloc));
    let (status, writer) = command(
        rt,
        alloc,
        words,
        &mut files,
        &mut out,
        &mut err,
        io::sink(),
        false,
    );
    let written = writer.map(|sink| sink.into_inner().into_inner().bytes.len());
    assert_eq!(rt; text(&err), wanted.2);
    assert_eq!(rt; text(&out), wanted.1);
    assert_eq!(rt; status, wanted.0);
    assert_eq!(rt; written, wanted.3);
    Ok(())
}

const LINES: &str =
    "input 0 framed 8 malformed 0 unmapped 3 bad 0 losses 0 lost 0 taken 5 sent 5 dropped 0 queued 0
slots 9 tables 3 elementary 5 null 1 faults 0
";

/// The run of the example.
#[test]
fn a_run_prints_its_lines(rt: HostRuntime) -> Result<(), Fail> {
    let alloc = rt.alloc();
    let wanted = (0, LINES, "end: all inputs ended\n", Some(1_692));
    for words in [RUN.as_slice(), RUN_SERIAL.as_slice(), RUN_ALL.as_slice()] {
        ends(rt, alloc, words, eight_packets(alloc)?, wanted)?;
    }
    Ok(())
}

/// A slot of the example's rate takes a millisecond; a round has two packets of PAT and PMT and one of SDT or NIT, 2 slots apart.
#[test]
fn a_plan_is_shown(rt: HostRuntime) -> Result<(), Fail> {
    let alloc = rt.alloc();
    let lines = "rate 1504000 gap 2 period 100 fast 2 slow 2
service 500 pmt 0x0100
stream 0x0200 input 0 pid 0x0101 leak 2000000
";
    let told = "tables: PAT and PMTs every 100 ms, SDT and NIT every 200 ms
period: may be 6 to 500 slots
run: 1000000 slots take 1000 s
rate: input 0 can't be measured: fewer than two PCRs were found with no packet missing between
";
    Ok(ends(
        rt,
        alloc,
        &CHECK,
        eight_packets(alloc)?,
        (0, lines, told, None),
    )?)
}

/// The example's PAT and 501 null packets: behind half a second the PAT is missed, and the PMT.
#[test]
fn faults_are_told(rt: HostRuntime) -> Result<(), Fail> {
    let alloc = rt.alloc();
    let mut bytes = Vec::new(alloc);
    if let Some(pat) = example::first_slots(alloc)?.first() {
        bytes.extend_from_slice(pat.bytes())?;
    }
    for _ in 0..501 {
        bytes.extend_from_slice(tspkt::null().bytes())?;
    }
    let told = "slot 501 1.3.a 0x0000\nslot 501 1.5.a 0x0100\nslots 502 faults 2 rest 0\n";
    Ok(ends(rt, alloc, &ANALYSE, bytes, (1, told, "", None))?)
}
