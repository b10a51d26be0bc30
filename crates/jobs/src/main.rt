//! Jobs that are measured, whose inputs are made as they are read. `jobs JOB SEED` does the job of this name over inputs that
//! the seed makes, and `jobs JOB SEED SECONDS` over inputs of so many seconds. The jobs are `recordings`, `recordings_serial`,
//! `cable`, `transponder`, `thin` and `judged`. It prints what became of a job, and digests of what it wrote.
#![tactic(auto)]

mod digest;
mod job;
mod judging;
mod lane;
mod made_input;
mod made_reader;
mod measured_run;
mod multiplex;
mod off_air;
mod packet_maker;
mod pids;
mod place;
mod planned;
mod pool;
mod random;
mod running;
mod sections;
mod shape;
mod stream_maker;
mod table_lane;
mod timetable;
mod turn;
mod turns;

use crate::job::Job;
use crate::judging::judge;
use crate::measured_run::print_measured;
use crate::running::run_multiplex;
use anyhow::{Context, Result, bail};
use std::env;

const USAGE: &str =
    "usage: jobs recordings | recordings_serial | cable | transponder | thin | judged SEED [SECONDS]";

/// The most seconds of an input.
const MOST_SECONDS: u64 = 100_000;

fn main(rt: HostRuntime) -> Result<()> {
    let mut words = env::args(&rt)?;
    let _program = words.next();
    let (Some(name), Some(seed)) = (words.next(), words.next()) else {
        bail!("{USAGE}");
    };
    let Some((job, full)) = Job::named(name.as_str()) else {
        bail!("{USAGE}");
    };
    let seed = u64::from(seed.as_str().parse::<u32>().context("the seed")?);
    let seconds = match words.next() {
        Some(word) => word.as_str().parse::<u64>().context("the seconds")?,
        None => full,
    };
    let seconds = seconds.min(MOST_SECONDS);
    let mut out = rt.stdout();
    match job {
        Job::Multiplex(multiplex) => {
            let measured = run_multiplex(rt.alloc(), rt, multiplex, seed, seconds)?;
            print_measured(name.as_str(), &measured, &mut out)?;
        }
        Job::Judged => judge(rt.alloc(), name.as_str(), seed, seconds, &mut out)?,
    }
    Ok(())
}
