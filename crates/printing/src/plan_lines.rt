//! The lines of a plan: what it makes, and how often its tables come.

use advice::{longest_period, pat_interval, run_seconds, sdt_interval, shortest_period};
use plan::Plan;
use std::io;
use std::io::Write;

/// Prints what a plan makes: the rhythm of its tables, its services, and its streams by their numbers.
pub fn print_plan<O: Write>(plan: &Plan, out: &mut O) -> io::Result<()> {
    let (rate, gap, period) = (plan.rate(), plan.gap(), plan.period());
    let (fast, slow) = (plan.fast_len(), plan.slow_len());
    writeln!(
        out,
        "rate {rate} gap {gap} period {period} fast {fast} slow {slow}"
    )?;
    for service in plan.services() {
        let (number, pmt) = (service.service, service.pmt);
        writeln!(out, "service {number} pmt 0x{pmt:04X}")?;
    }
    for stream in plan.streams() {
        let (output_pid, input) = (stream.output_pid, stream.input);
        let (pid, leak) = (stream.pid, stream.leak);
        writeln!(
            out,
            "stream 0x{output_pid:04X} input {input} pid 0x{pid:04X} leak {leak}"
        )?;
    }
    Ok(())
}

/// Prints how often the tables of a plan come, which `period` it may have, and how long a run of 1,000,000 slots is.
pub fn print_rhythm<E: Write>(plan: &Plan, err: &mut E) -> io::Result<()> {
    let rounds = plan.rounds();
    let (pat, sdt) = (pat_interval(rounds), sdt_interval(rounds));
    let (shortest, longest) = (shortest_period(rounds), longest_period(rounds));
    let seconds = run_seconds(rounds);
    writeln!(
        err,
        "tables: PAT and PMTs every {pat} ms, SDT and NIT every {sdt} ms"
    )?;
    writeln!(err, "period: may be {shortest} to {longest} slots")?;
    writeln!(err, "run: 1000000 slots take {seconds} s")
}
