//! Whole commands.

use crate::measuring_inputs::{measure, tell_other_rate};
use crate::run_command::{Asked, run};
use crate::shows::Shows;
use advice::packets_rate;
use files::{
    CommandFault, FileCause, Files, InputFile, NoNotices, ReadSchedule, read_request,
    read_schedule, stopped,
};
use levels::Levels;
use live::{RunFiles, WaitTeller};
use measuring::{Metered, is_input_wrong, is_too_much, print_measured, sum_of};
use printing::{
    Shown, StreamAnalysis, analysis_status, print_plan, print_rhythm, print_same_files,
    print_schedule_document, print_shape, print_switch_tables, print_switches, strict_status,
};
use probing::{ProbeAnswer, probe_files};
use rate_meter::RateMeter;
use schedule::Schedule;
use std::alloc::Global;
use std::convert::AsStr;
use std::io::{ErrorKind, Write};
use std::sync::Wait;
use std::thread::Threads;
use std::time::Clock;
use words::{Analysis, Command, LineFault, Progress, line};

/// The most bytes of a stream that is analysed with `--sync`: 2^47.
const MOST_FRAMED: u64 = 1 << 47;

/// The status of a refused command line.
const REFUSED: u8 = 2;

/// Does a whole command, with files by their names, and prints its lines to `out` and its fault to `err`, behind the delays
/// of a run that is asked for them. What `err` doesn't take is left out. The answer is the status with which the program
/// ends, and the output's writer, where one was made.
///
/// The status is 0 for success. It is 1 where an analysis told a fault or found no packet, where a strict check or run found what isn't as it
/// should be, and where a probe found no packets or made no plan. It is 2 for refused words, 3 for a refused plan, 4 for a file that failed
/// and 5 for want of memory. Without words it does the stored first run.
///
/// The first fault ends a command: of its words, of the plan's file, of its text, of the inputs while their tables are sought,
/// of the plan, of the inputs as they are opened again, of the output file, and of the run. An output that is the plan's file or
/// an input can't be made, whatever its name.
///
/// An output gets its name when the run has ended and no input failed. Where the output goes to standard output, the lines of
/// the run go to `err`.
///
/// A run reads each input in a thread of its own; or all in the calling thread, where the words ask for that, and where there is one core and
/// all inputs are files.
///
/// What is waited for before a run or a check, once that takes two seconds, and how far a run is that is asked for that, a thread says on
/// `voice`, and nothing more behind it: so `voice` and `err` may be one file. Where that is a terminal, a run shows there how far it
/// is, unless it is asked for reports or for silence.
pub fn command<
    T: Threads + Wait + Clock + Copy + Send + Drop + 'static,
    F: RunFiles,
    O: Write,
    E: Write,
    V: Write + Copy + Send + Drop + 'static,
    S: AsStr,
>(
    rt: T,
    alloc: Global,
    words: &[S],
    files: &mut F,
    out: &mut O,
    err: &mut E,
    voice: V,
    is_terminal: bool,
) -> (u8, Option<F::Writer>)
where
    F::Again: Send + 'static,
    F::Writer: Send + Drop + 'static,
{
    if words.is_empty() {
        let ended = print_first(alloc, out);
        let status = end(ended, out, err);
        let _ = writeln!(err, "help: remux --help");
        return (status, None);
    }
    match line(alloc, words) {
        Err(fault) => (print_line_fault(fault, out, err), None),
        Ok(
            Command::Check {
                plan,
                later,
                strict,
                json,
            },
        ) => {
            let asked = AskedCheck {
                plan,
                later: &later,
                strict,
                json,
            };
            let ended = check(rt, alloc, files, &asked, out, err, voice);
            (end_over(plan, &later, ended, out, err), None)
        }
        Ok(Command::Analyse(asked)) => (analyse_asked(alloc, files, &asked, out, err), None),
        Ok(
            Command::Probe {
                files: names,
                plan,
                json,
            },
        ) => {
            let ended = probe_files(alloc, files, &names, answer_of(plan, json), out, err);
            (end(ended, out, err), None)
        }
        Ok(
            Command::Run {
                plan,
                later,
                out: name,
                length,
                serial,
                delays,
                strict,
                report,
                progress,
                graph,
                json,
            },
        ) => {
            let asked = Asked {
                plan,
                later: &later,
                out: name,
                length,
                is_serial: serial,
                delays,
                strict,
                report,
                shows: shows_of(progress, is_terminal),
                graph,
                json,
            };
            run::<T, F, O, E, V, RateMeter>(rt, alloc, files, &asked, out, err, voice)
        }
    }
}

/// What became of a command, once what it printed went out too.
fn sent<O: Write>(ended: Result<u8, CommandFault>, out: &mut O) -> Result<u8, CommandFault> {
    let flushed = out.flush();
    let status = ended?;
    flushed?;
    Ok(status)
}

/// The status of a command that has ended; its fault is printed.
pub(crate) fn end<O: Write, E: Write>(
    ended: Result<u8, CommandFault>,
    out: &mut O,
    err: &mut E,
) -> u8 {
    match sent(ended, out) {
        Ok(status) => status,
        Err(fault) => {
            let _ = fault.print(err);
            fault.status()
        }
    }
}

/// The same of a command over the plan in this file and those that follow it. Where a file isn't there, it says which names are taken,
/// and from where.
pub(crate) fn end_over<O: Write, E: Write>(
    plan: &str,
    later: &[(u64, &str)],
    ended: Result<u8, CommandFault>,
    out: &mut O,
    err: &mut E,
) -> u8 {
    let advice = match &ended {
        Err(fault) => name_advice(plan, later, fault),
        Ok(_) => None,
    };
    let status = end(ended, out, err);
    if let Some(advice) = advice {
        let _ = writeln!(err, "{advice}");
    }
    status
}

/// What is said of the name of a file that isn't there, and of the folder of an output: of an address that it is none, and of an input
/// whose name isn't absolute, from where names are taken.
fn name_advice(plan: &str, later: &[(u64, &str)], fault: &CommandFault) -> Option<&'static str> {
    let CommandFault::File(name, FileCause::Open(error) | FileCause::Create(error)) = fault else {
        return None;
    };
    if error.kind() != ErrorKind::NotFound || name.is_empty() {
        return None;
    }
    if name.contains("://") {
        return Some("names are those of files and pipes, and no addresses of a network");
    }
    if is_input(plan, later, fault) && !name.starts_with("/") {
        return Some("names in a plan are taken from the folder in which the program is called");
    }
    None
}

/// Whether the file of a fault that can't be opened is an input: it is, unless it is a plan's, since an output is made.
fn is_input(plan: &str, later: &[(u64, &str)], fault: &CommandFault) -> bool {
    match fault {
        CommandFault::File(name, FileCause::Open(_)) => {
            let name = name.as_str();
            name != plan && !later.iter().any(|(_, plan)| name == *plan)
        }
        _ => false,
    }
}

/// Prints why words are no command, or the help that they ask for.
fn print_line_fault<O: Write, E: Write>(fault: LineFault, out: &mut O, err: &mut E) -> u8 {
    match fault {
        LineFault::Memory => end(Err(CommandFault::Memory), out, err),
        LineFault::Refused(text) => {
            let _ = write!(err, "{text}");
            REFUSED
        }
        LineFault::Help(text) => {
            let ended = print_help(&text, out);
            end(ended, out, err)
        }
    }
}

/// Prints the help that was asked for.
fn print_help<O: Write>(text: &str, out: &mut O) -> Result<u8, CommandFault> {
    write!(out, "{text}")?;
    Ok(0)
}

/// Prints the packets of the stored first run.
fn print_first<O: Write>(alloc: Global, out: &mut O) -> Result<u8, CommandFault> {
    let Ok(packets) = example::first_slots(alloc) else {
        return Err(CommandFault::Memory);
    };
    for packet in &packets {
        let line = hex::encode(alloc, packet.bytes())?;
        writeln!(out, "{line}")?;
    }
    Ok(0)
}

/// What a check is asked for.
#[derive(Clone, Copy)]
struct AskedCheck<'a> {
    /// The name of the plan's file.
    plan: &'a str,
    /// The plans that follow it: the slot from which on each is in force, and the name of its file.
    later: &'a [(u64, &'a str)],
    /// Whether a plan that an input's rates don't fit ends it with status 1.
    strict: bool,
    /// Whether it is shown as JSON.
    json: bool,
}

/// How a run shows how far it is, by where it is to show it.
fn shows_of(progress: Progress, is_terminal: bool) -> Shows {
    match (progress, is_terminal) {
        (Progress::Never, _) | (Progress::OnTerminal, false) => Shows::Nothing,
        (Progress::Always, false) => Shows::Lines,
        (Progress::OnTerminal | Progress::Always, true) => Shows::OnTerminal,
    }
}

/// What a probe prints, by what it is asked for: a plan, or JSON, or lines.
fn answer_of(plan: bool, json: bool) -> ProbeAnswer {
    match (plan, json) {
        (true, _) => ProbeAnswer::Plan,
        (false, true) => ProbeAnswer::Document,
        (false, false) => ProbeAnswer::Lines,
    }
}

/// Prints a schedule as JSON, with the rates that were measured of its inputs.
fn print_check_document<R: Drop, O: Write>(
    alloc: Global,
    schedule: &Schedule,
    readers: &[Metered<R>],
    out: &mut O,
) -> Result<(), CommandFault> {
    let mut measured = Vec::new(alloc);
    for reader in readers {
        measured.push(reader.measured())?;
    }
    let taken = sum_of(schedule.plan(0), readers);
    print_schedule_document(alloc, schedule, &measured, taken, out)
}

/// Shows a plan and those that follow it: its lines, those of each switch, or all of this as JSON, and on `err` what is said of its rhythm, of the switches'
/// tables and of its inputs' rates. A strict check ends with 1 where these aren't as they should be.
fn check<
    T: Threads + Wait + Clock + Copy + Send + Drop + 'static,
    F: Files,
    O: Write,
    E: Write,
    V: Write + Send + Drop + 'static,
>(
    rt: T,
    alloc: Global,
    files: &mut F,
    asked: &AskedCheck,
    out: &mut O,
    err: &mut E,
    voice: V,
) -> Result<u8, CommandFault> {
    let mut teller = WaitTeller::new(rt, alloc, voice);
    let read = read_schedule(alloc, files, &mut teller, asked.plan, asked.later);
    teller.end();
    let ReadSchedule {
        schedule,
        readers,
        ..
    } = read?;
    if !asked.json {
        print_plan(schedule.plan(0), out)?;
        print_switches(&schedule, out)?;
        out.flush()?;
    }
    let (readers, is_measured) = match measure(alloc, files, &schedule, readers) {
        Ok(readers) => (readers, true),
        Err(_) => (Vec::new(alloc), false),
    };
    if asked.json {
        print_check_document(alloc, &schedule, &readers, out)?;
        out.flush()?;
    }
    let _ = print_rhythm(schedule.plan(0), err);
    let _ = print_switch_tables(&schedule, err);
    if !is_measured {
        let _ = writeln!(err, "rate: the inputs can't be measured");
        return Ok(0);
    }
    let _ = print_measured(&schedule, &readers, err);
    let _ = print_same_files(&readers, err);
    let is_sound = !is_input_wrong(&schedule, &readers) && !is_too_much(&schedule, &readers);
    Ok(strict_status(asked.strict, is_sound, 0))
}

/// Whether an analysis follows transport buffers.
fn has_levels(asked: &Analysis) -> bool {
    asked.levels.is_some() || !asked.leaks.is_empty()
}

/// Lets an analysis follow the transport buffers that are asked for: those of the PIDs that are named, and of the streams of a plan.
fn watch_levels<F: Files>(
    alloc: Global,
    files: &mut F,
    analysis: &mut StreamAnalysis,
    asked: &Analysis,
) -> Result<(), CommandFault> {
    if !has_levels(asked) {
        return Ok(());
    }
    let mut leaks = Vec::from_slice(alloc, &asked.leaks)?;
    if let Some(name) = asked.levels {
        let (request, _) = read_request(alloc, files, &mut NoNotices, name)?;
        for stream in request.streams() {
            leaks.push((stream.output_pid, stream.leak))?;
        }
    }
    let rate = packets_rate(asked.size, asked.rate);
    analysis.watch(Levels::new(alloc, &leaks, rate)?);
    Ok(())
}

/// Does an analysis that is asked for, prints its fault, and answers the status.
fn analyse_asked<F: Files, O: Write, E: Write>(
    alloc: Global,
    files: &mut F,
    asked: &Analysis,
    out: &mut O,
    err: &mut E,
) -> u8 {
    let mut analysis = StreamAnalysis::new(alloc, asked.size, asked.rate, asked.period);
    analysis.show(Shown {
        limit: asked.limit,
        places: asked.places,
        summary: asked.summary,
        json: asked.json,
    });
    let ended = match watch_levels(alloc, files, &mut analysis, asked) {
        Ok(()) => analyse(alloc, files, &mut analysis, asked, out, err),
        Err(fault) => Err(fault),
    };
    end(ended, out, err)
}

/// Analyses a stream whose packets are sought where they are. What it was read from comes back, and the number of faults.
fn analyse_framed<R: InputFile + Drop, O: Write>(
    alloc: Global,
    analysis: &mut StreamAnalysis,
    name: &str,
    source: R,
    out: &mut O,
) -> Result<(R, u64), CommandFault> {
    let (source, ended) = analysis.read_framed(alloc, source, out)?;
    match ended {
        Ok(faults) => Ok((source, faults)),
        Err(stop) => Err(stopped(alloc, name, &source, stop, MOST_FRAMED)),
    }
}

/// Analyses a stream whose slots follow one another. What it was read from comes back, and the number of faults.
fn analyse_slots<R: InputFile + Drop, O: Write>(
    alloc: Global,
    analysis: &mut StreamAnalysis,
    name: &str,
    source: R,
    out: &mut O,
) -> Result<(R, u64), CommandFault> {
    let mut source = source;
    let ended = analysis.read(alloc, &mut source, out)?;
    match ended {
        Some(faults) => Ok((source, faults)),
        None => Err(CommandFault::file(alloc, name, source.cause())),
    }
}

/// Reports what is found in a stream, and on `err` where it lost its sync, and what it looks like, where it has a fault or no packet, and isn't made of packets of
/// the size that is asked for.
fn analyse<F: Files, O: Write, E: Write>(
    alloc: Global,
    files: &mut F,
    analysis: &mut StreamAnalysis,
    asked: &Analysis,
    out: &mut O,
    err: &mut E,
) -> Result<u8, CommandFault> {
    let name = asked.file;
    let source = match files.reader(name) {
        Ok(source) => source,
        Err(cause) => return Err(CommandFault::file(alloc, name, cause)),
    };
    let (source, faults) = if asked.sync {
        analyse_framed(alloc, analysis, name, source, out)?
    } else {
        analyse_slots(alloc, analysis, name, source, out)?
    };
    out.flush()?;
    let status = analysis_status(analysis.slots(), faults);
    let loss = if asked.sync { None } else { analysis.loss() };
    let is_wrong = status != 0;
    let _ = print_shape(name, asked.size, source.head(), is_wrong, loss, err);
    if is_wrong || has_levels(asked) {
        tell_other_rate(alloc, files, asked, source, err);
    }
    Ok(status)
}
