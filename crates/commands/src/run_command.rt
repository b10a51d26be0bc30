//! The command that makes a multiplex.

ghost use Rattle.std.specs.Prelude.{◌≡◌, ℕ, length, true, IfOk};
ghost use Rattle.reading.specs.InputLimit.{IsAllowed as IsAllowedLimit};
ghost use Rattle.words.specs.Ranges.{IsAllowedLength};

use crate::commands::{end, end_over};
use crate::measuring_inputs::tell_low_leaks;
use crate::shows::Shows;
use crate::whole_run::run_schedule;
use files::{
    CommandFault, FileCause, FileIdentity, Files, InputFile, NoNotices, Notices, OutputFile,
    ReadSchedule, is_among, open_again, open_output, read_schedule, stopped,
};
use graphs::{Bar, print_picture};
use live::{Goal, Reporter, RunBoard, RunFiles, WaitTeller, print_board};
use measuring::{Metered, is_input_wrong, print_wrong_rates, with_meters};
use outlet::{RunFault, write_all};
use plan::Plan;
use printing::{
    has_damage, has_early_end, is_overfull, print_damage, print_delays, print_early_ends,
    print_end, print_faults, print_overfull, print_run_document, print_same_files, print_summary,
    print_unreached, strict_status,
};
use rate_meter::Meter;
use reading::{InputLimit, Stop};
use schedule::Schedule;
use serial::Summary;
use std::alloc::{AllocError, Global};
use std::io::Write;
use std::sync::{Arc, Wait};
use std::thread;
use std::thread::Threads;
use std::time::Clock;
use words::{RunLength, most_slots};

/// What a run is asked for.
#[derive(Clone, Copy)]
pub(crate) struct Asked<'a> {
    /// The name of the plan's file.
    pub plan: &'a str,
    /// The plans that follow it: the slot from which on each is in force, and the name of its file.
    pub later: &'a [(u64, &'a str)],
    /// The name of the output.
    pub out: &'a str,
    /// How long the run goes on.
    pub length: RunLength,
    /// Whether the run uses one thread alone.
    pub is_serial: bool,
    /// Whether the delays of the streams are printed.
    pub delays: bool,
    /// Whether a run that shows what isn't as it should be ends with status 1.
    pub strict: bool,
    /// After how many seconds each time it is said how far the run is, if it is.
    pub report: Option<u64>,
    /// How it shows how far it is, where it isn't asked for reports.
    pub shows: Shows,
    /// The name of the file that a picture of it is written to, if one is.
    pub graph: Option<&'a str>,
    /// Whether what became of it is printed as JSON.
    pub json: bool,
}

/// The most bytes of an input of a run of this length.
fn input_limit(length: RunLength) -> InputLimit
    ensures slots { (most : ℕ) → length ≡ RunLength.Slots most → result ≡ InputLimit.OfSize }
    ensures all { length ≡ RunLength.All → result ≡ InputLimit.Bytes 140737488355328 }
    ensures allowed { IsAllowedLimit result }
{
    match length {
        RunLength::Slots(_) => InputLimit::OfSize,
        RunLength::All => InputLimit::Bytes(1 << 47),
    }
}

/// What a run needs: a schedule, what its inputs are read from, and what its output is written to.
#[derive(Drop)]
struct Prepared<R, W> {
    schedule: Schedule,
    /// An equal one, for the names of the inputs.
    kept: Schedule,
    readers: Vec<R>,
    writer: W,
}

/// A run that has ended by itself: its schedule, what became of it, and the readers of its inputs.
#[derive(Drop)]
struct Ran<R> {
    schedule: Schedule,
    summary: Summary,
    readers: Vec<R>,
}

/// Refuses a picture that would be written over one of the files that are read, or over the output, as far as that is known: where neither
/// is there yet, by their names.
fn check_picture<F: Files>(
    alloc: Global,
    files: &mut F,
    asked: &Asked,
    read: &[FileIdentity],
) -> Result<(), CommandFault> {
    let Some(name) = asked.graph else {
        return Ok(());
    };
    let picture = files.output_identity(name);
    let is_output = picture.is_some() && picture == files.output_identity(asked.out);
    if name == asked.out || is_output || is_among(picture, read) {
        return Err(CommandFault::file(alloc, name, FileCause::IsTaken));
    }
    Ok(())
}

/// Refuses a picture that can't be made, before the run.
fn try_picture<F: Files>(alloc: Global, files: &mut F, asked: &Asked) -> Result<(), CommandFault> {
    let Some(name) = asked.graph else {
        return Ok(());
    };
    match files.try_writer(name) {
        Ok(()) => Ok(()),
        Err(cause) => Err(CommandFault::file(alloc, name, cause)),
    }
}

/// What a run needs, and the board on which it is noted how far it is. The output is made last, so that a refused run leaves none.
fn prepare<F: RunFiles, N: Notices>(
    alloc: Global,
    files: &mut F,
    notices: &mut N,
    asked: &Asked,
) -> Result<(Prepared<F::Again, F::Writer>, Arc<RunBoard, Global>), CommandFault>
    ensures { IfOk result (λ p. length p.0.readers.items ≡ length p.0.schedule.first.request.inputs) }
{
    let read = read_schedule(alloc, files, notices, asked.plan, asked.later)?;
    let identities = read.identities(alloc)?;
    let kept = read.schedule.copy(alloc)?;
    let ReadSchedule {
        schedule,
        readers,
        ..
    } = read;
    check_picture(alloc, files, asked, &identities)?;
    try_picture(alloc, files, asked)?;
    let (is_counted, is_drawn) = (asked.report.is_some(), asked.graph.is_some());
    let board = files.watch(alloc, &schedule, is_counted, is_drawn)?;
    let (readers, writer) = open_all(
        alloc,
        files,
        notices,
        schedule.plan(0),
        readers,
        asked.out,
        &identities,
    )?;
    let prepared = Prepared {
        schedule,
        kept,
        readers,
        writer,
    };
    Ok((prepared, board))
}

/// The inputs of a plan, opened again, and then the output of this name, which has to be none of the files that were read.
fn open_all<F: Files, N: Notices>(
    alloc: Global,
    files: &mut F,
    notices: &mut N,
    plan: &Plan,
    readers: Vec<F::Reader>,
    name: &str,
    read: &[FileIdentity],
) -> Result<(Vec<F::Again>, F::Writer), CommandFault>
    ensures { IfOk result (λ opened. length opened.0.items ≡ length plan.now.request.inputs) }
{
    let readers = open_again(alloc, files, plan, readers)?;
    let (writer, _) = open_output(alloc, files, notices, name, read)?;
    Ok((readers, writer))
}

/// What a run needs, while a thread says on `voice` what is waited for.
fn prepare_telling<
    T: Threads + Wait + Clock + Copy + Send + Drop + 'static,
    F: RunFiles,
    V: Write + Send + Drop + 'static,
>(
    rt: T,
    alloc: Global,
    files: &mut F,
    asked: &Asked,
    voice: V,
) -> Result<(Prepared<F::Again, F::Writer>, Arc<RunBoard, Global>), CommandFault>
    ensures { IfOk result (λ p. length p.0.readers.items ≡ length p.0.schedule.first.request.inputs) }
{
    let mut teller = WaitTeller::new(rt, alloc, voice);
    let prepared = prepare(alloc, files, &mut teller, asked);
    teller.end();
    prepared
}

/// Makes the multiplex of a plan whose inputs have meters, and prints what became of it. Of a run that goes on until its inputs end, and
/// by a low leak rate for days, it says first which leak rates are too low. What it waits for before it runs it says on `voice`, and how
/// far it is, where it is asked for that.
pub(crate) fn run<
    T: Threads + Wait + Clock + Copy + Send + Drop + 'static,
    F: RunFiles,
    O: Write,
    E: Write,
    V: Write + Copy + Send + Drop + 'static,
    M: Meter + Send + Drop + 'static,
>(
    rt: T,
    alloc: Global,
    files: &mut F,
    asked: &Asked,
    out: &mut O,
    err: &mut E,
    voice: V,
) -> (u8, Option<F::Writer>)
where
    F::Again: Send + 'static,
    F::Writer: Send + Drop + 'static,
    requires { IsAllowedLength asked.now.length }
{
    let (prepared, board) = match prepare_telling(rt, alloc, files, asked, voice) {
        Ok(prepared) => prepared,
        Err(fault) => return (
            end_over(asked.plan, asked.later, Err(fault), out, err),
            None,
        ),
    };
    if asked.length == RunLength::All {
        tell_low_leaks(alloc, files, &prepared.schedule, &prepared.readers, err);
    }
    let is_standard = files.is_standard_output(asked.out);
    let (mut writer, ran) = run_reporting::<T, F, V, M>(
        rt, alloc, files, prepared, &board, asked, voice,
    );
    let status = match ran {
        Ok((ran, named)) => {
            let told = tell_run(alloc, &ran, is_standard, asked, out, err);
            let (named, partial) = match named {
                Ok(status) => (
                    draw(alloc, files, &mut writer, &ran, asked).and(Ok(status)),
                    "picture",
                ),
                Err(fault) => (Err(fault), "output"),
            };
            let status = end(told.and(named), out, err);
            tell_found(files, &ran, partial, err);
            strict_status(asked.strict, is_sound(&ran), status)
        }
        Err(fault) => {
            let has_left = has_no_reader(&fault);
            let status = end(Err(fault), out, err);
            if has_left {
                let _ = print_board(&board, err);
            }
            tell_partial(files, "output", err);
            status
        }
    };
    (status, Some(writer))
}

/// Draws a run whose multiplex went to this writer, where that is asked for.
fn draw<F: RunFiles, R>(
    alloc: Global,
    files: &mut F,
    writer: &mut F::Writer,
    ran: &Ran<R>,
    asked: &Asked,
) -> Result<(), CommandFault>
where
    F::Writer: Drop,
{
    let (Some(name), Some(record)) = (asked.graph, F::take_record(writer)) else {
        return Ok(());
    };
    let mut bars = Vec::new(alloc);
    for (stream, peak) in ran
        .schedule
        .streams()
        .iter()
        .zip(ran.summary.streams.iter())
    {
        bars.push(Bar {
            pid: stream.output_pid,
            delay: peak.delay,
        })?;
    }
    let mut picture = Vec::new(alloc);
    if print_picture(&record, &bars, &mut picture).is_err() {
        return Err(CommandFault::Memory);
    }
    // The output has its name now, so another name of it is found, too.
    check_picture(alloc, files, asked, &[])?;
    let (mut writer, _) = open_output(alloc, files, &mut NoNotices, name, &[])?;
    if write_all(&mut writer, &picture).is_err() {
        return Err(CommandFault::file(alloc, name, writer.cause()));
    }
    match files.complete() {
        Ok(()) => Ok(()),
        Err(cause) => Err(CommandFault::file(alloc, name, cause)),
    }
}

/// Whether a run failed since nobody reads its output any more.
fn has_no_reader(fault: &CommandFault) -> bool {
    matches!(fault, CommandFault::File(_, FileCause::NoReader))
}

/// Whether a run shows that its plans and its inputs are as they should be: no plan is overfull, no input ended before others or is damaged,
/// and the rates are those of the plans.
fn is_sound<R, M: Meter>(ran: &Ran<Metered<R, M>>) -> bool {
    !is_overfull(&ran.schedule, &ran.summary)
        && !has_early_end(&ran.schedule, &ran.summary)
        && !has_damage(&ran.summary)
        && !is_input_wrong(&ran.schedule, &ran.readers)
}

/// Says why a run ended, and what isn't as it should be. A file that didn't get its name is called as `partial` says.
fn tell_found<F: Files, R: InputFile, M: Meter, E: Write>(
    files: &F,
    ran: &Ran<Metered<R, M>>,
    partial: &str,
    err: &mut E,
) {
    let _ = print_end(ran.schedule.plan(0), &ran.summary, &ran.readers, err);
    let _ = print_unreached(&ran.schedule, &ran.summary, err);
    let _ = print_early_ends(&ran.schedule, &ran.summary, err);
    let _ = print_damage(&ran.summary, err);
    let _ = print_faults(&ran.schedule, &ran.summary, err);
    let _ = print_overfull(&ran.schedule, &ran.summary, err);
    tell_partial(files, partial, err);
    let _ = print_wrong_rates(&ran.schedule, &ran.readers, err);
    let _ = print_same_files(&ran.readers, err);
}

/// Says where a file stands that didn't get its name, if there is one: the output, or the picture.
fn tell_partial<F: Files, E: Write>(files: &F, which: &str, err: &mut E) {
    if let Some(partial) = files.partial() {
        let _ = writeln!(err, "{partial}: the {which} so far");
    }
}

/// Where a run of these readers ends.
fn goal_of<R: InputFile, W>(
    alloc: Global,
    prepared: &Prepared<R, W>,
    length: RunLength,
) -> Result<Goal, AllocError> {
    let mut lengths = Vec::new(alloc);
    for reader in &prepared.readers {
        lengths.push(reader.length())?;
    }
    let slots = match length {
        RunLength::Slots(slots) => Some(slots),
        RunLength::All => None,
    };
    Ok(Goal::of(prepared.schedule.plan(0), lengths, slots))
}

/// A thread that says on `voice` how far a run is that ends there, where that is asked for.
fn start_reporter<
    T: Threads + Wait + Clock + Copy + Send + Drop + 'static,
    V: Write + Send + Drop + 'static,
>(
    rt: T,
    alloc: Global,
    board: &Arc<RunBoard, Global>,
    goal: Goal,
    asked: &Asked,
    voice: V,
) -> Result<Option<Reporter>, AllocError> {
    match (asked.report, asked.shows) {
        (Some(seconds), _) => Ok(Some(Reporter::start(rt, alloc, board, seconds, voice)?)),
        (None, Shows::Nothing) => Ok(None),
        (None, shows) => {
            let is_terminal = shows == Shows::OnTerminal;
            // A run that can't show how far it is goes on.
            Ok(Reporter::show(rt, alloc, board, goal, is_terminal, voice).ok())
        }
    }
}

/// How a run ended: by itself, and then what became of its output, or by a fault.
type Ended<R> = Result<(Ran<R>, Result<u8, CommandFault>), CommandFault>;

/// Makes the multiplex of a plan, as `run_prepared`, while a thread says on `voice` how far it is, where that is asked for.
fn run_reporting<
    T: Threads + Wait + Clock + Copy + Send + Drop + 'static,
    F: Files,
    V: Write + Send + Drop + 'static,
    M: Meter + Send + Drop + 'static,
>(
    rt: T,
    alloc: Global,
    files: &mut F,
    prepared: Prepared<F::Again, F::Writer>,
    board: &Arc<RunBoard, Global>,
    asked: &Asked,
    voice: V,
) -> (F::Writer, Ended<Metered<F::Again, M>>)
where
    F::Again: Send + 'static,
    F::Writer: Send + Drop + 'static,
    requires readers { length prepared.readers.items ≡ length prepared.schedule.first.request.inputs }
    requires length { IsAllowedLength asked.now.length }
{
    let reporter = match goal_of(alloc, &prepared, asked.length) {
        Ok(goal) => start_reporter(rt, alloc, board, goal, asked, voice),
        Err(refused) => Err(refused),
    };
    let Ok(reporter) = reporter else {
        let Prepared { writer, .. } = prepared;
        return (writer, Err(CommandFault::Memory));
    };
    let ended = run_prepared::<T, F, M>(rt, alloc, files, prepared, asked);
    if let Some(reporter) = reporter {
        reporter.end(&rt);
    }
    ended
}

/// Whether this process may run on one core alone.
fn has_one_core<T: Threads>(rt: &T) -> bool {
    match thread::available_parallelism(rt) {
        Ok(cores) => cores.get() == 1,
        Err(_) => false,
    }
}

/// Whether a run uses one thread alone: where that is asked for, and on one core, where threads have nothing to do beside one another, if
/// all inputs are files of a known length: a read of one waits for nobody who writes it.
fn is_alone<T: Threads, R: InputFile>(rt: &T, is_serial: bool, readers: &[R]) -> bool
    ensures { is_serial ≡ true → result ≡ true }
{
    if is_serial {
        return true;
    }
    has_one_core(rt) && readers.iter().all(|reader| reader.length().is_some())
}

/// Makes the multiplex of a plan. A run that has ended by itself is answered with what became of its output.
fn run_prepared<
    T: Threads + Wait + Clock + Copy + Send + Drop + 'static,
    F: Files,
    M: Meter + Send + Drop + 'static,
>(
    rt: T,
    alloc: Global,
    files: &mut F,
    prepared: Prepared<F::Again, F::Writer>,
    asked: &Asked,
) -> (F::Writer, Ended<Metered<F::Again, M>>)
where
    F::Again: Send + 'static,
    F::Writer: Send + Drop + 'static,
    requires readers { length prepared.readers.items ≡ length prepared.schedule.first.request.inputs }
    requires length { IsAllowedLength asked.now.length }
{
    let Prepared {
        schedule,
        kept,
        readers,
        writer,
    } = prepared;
    let Ok(readers) = with_meters(alloc, schedule.plan(0), readers) else {
        return (writer, Err(CommandFault::Memory));
    };
    let (slots, limit) = (most_slots(asked.length), input_limit(asked.length));
    let is_serial = is_alone(&rt, asked.is_serial, &readers);
    match run_schedule(
        rt, alloc, is_serial, schedule, slots, limit, readers, writer,
    ) {
        (writer, Ok((summary, readers))) => {
            let ran = Ran {
                schedule: kept,
                summary,
                readers,
            };
            let named = name_output(alloc, files, &ran, asked.out, limit);
            (writer, Ok((ran, named)))
        }
        (writer, Err(RunFault::Write)) => {
            let fault = CommandFault::file(alloc, asked.out, writer.cause());
            (writer, Err(fault))
        }
        (writer, Err(RunFault::Memory)) => (writer, Err(CommandFault::Memory)),
    }
}

/// Gives the output of a run its name, where no input failed; each may have as many bytes as the limit says.
fn name_output<F: Files, R: InputFile>(
    alloc: Global,
    files: &mut F,
    ran: &Ran<R>,
    name: &str,
    limit: InputLimit,
) -> Result<u8, CommandFault> {
    let inputs = ran
        .schedule
        .plan(0)
        .inputs()
        .iter()
        .zip(ran.summary.inputs.iter());
    for ((input, summary), reader) in inputs.zip(ran.readers.iter()) {
        if let Some(stop) = failure_of(summary.report.stopped) {
            let (name, most) = (input.file.as_str(), limit.bytes(input.size));
            return Err(stopped(alloc, name, reader, stop, most));
        }
    }
    match files.complete() {
        Ok(()) => Ok(0),
        Err(cause) => Err(CommandFault::file(alloc, name, cause)),
    }
}

/// Why an input failed, if it did: the end of the run is no failure.
fn failure_of(stopped: Option<Stop>) -> Option<Stop> {
    match stopped {
        None | Some(Stop::Gate) => None,
        Some(stop) => Some(stop),
    }
}

/// Prints what became of a run, in lines or as JSON.
fn print_ran<R, O: Write>(
    alloc: Global,
    ran: &Ran<R>,
    is_json: bool,
    out: &mut O,
) -> Result<(), CommandFault> {
    if is_json {
        return print_run_document(alloc, &ran.schedule, &ran.summary, out);
    }
    print_summary(&ran.summary, out)?;
    Ok(())
}

/// Prints what became of a run: on `err` where `out` has the multiplex. How long its streams waited comes behind it, on `err`, where that is
/// asked for.
fn tell_run<R, O: Write, E: Write>(
    alloc: Global,
    ran: &Ran<R>,
    is_standard: bool,
    asked: &Asked,
    out: &mut O,
    err: &mut E,
) -> Result<(), CommandFault> {
    if is_standard {
        let _ = print_ran(alloc, ran, asked.json, err);
    } else {
        print_ran(alloc, ran, asked.json, out)?;
        out.flush()?;
    }
    if asked.delays {
        let _ = print_delays(&ran.schedule, &ran.summary, err);
    }
    Ok(())
}
