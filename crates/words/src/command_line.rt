//! The words of a command line.

ghost use Rattle.std.specs.Prelude.{◌≡◌, length, map, IfOk, IfSome};
ghost use Rattle.std.specs.List.{All};
ghost use Rattle.tspkt.specs.PacketSize.{stride_of};
ghost use Rattle.words.specs.Ranges.{IsWithin, IsAllowedLength, IsAllowedSwitch, IsAllowedLeak, IsAllowed};

use crate::analysis::Analysis;
use crate::command::{
    Command, LEAST_RATE, LineFault, MOST_FILES, MOST_LINES, MOST_RATE, MOST_SECONDS, MOST_SLOTS,
    MOST_SWITCH_SLOT,
};
use crate::leak::leaks_in;
use crate::options::program;
use crate::progress::Progress;
use crate::run_length::RunLength;
use clap::error::ErrorKind;
use clap::{ArgMatches, Error};
use std::alloc::{AllocError, Global};
use std::convert::AsStr;
use tspkt::PacketSize;

/// The number, where it is from `least` to `most`.
fn within(number: u64, least: u64, most: u64) -> Option<u64>
    ensures { IfSome result (λ x. (x ≡ number) × IsWithin least most x) }
{
    if least <= number && number <= most {
        Some(number)
    } else {
        None
    }
}

/// How long a run is to go on: with `--all` until its inputs end.
fn length_of(matches: &ArgMatches) -> Option<RunLength>
    ensures { IfSome result IsAllowedLength }
{
    if matches.get_flag("all") {
        return Some(RunLength::All);
    }
    let slots = within(matches.get_one::<u64>("slots")?, 1, MOST_SLOTS)?;
    Some(RunLength::Slots(slots))
}

/// After how many seconds each time a run is to say how far it is, if it is to.
fn report_of(matches: &ArgMatches) -> Option<u64>
    ensures { IfSome result (IsWithin 1 3600) }
{
    within(matches.get_one::<u64>("report")?, 1, MOST_SECONDS)
}

/// Where a run is to show how far it is.
fn progress_of(matches: &ArgMatches) -> Progress {
    if matches.get_flag("quiet") {
        Progress::Never
    } else if matches.get_flag("progress") {
        Progress::Always
    } else {
        Progress::OnTerminal
    }
}

/// At most how many faults of an analysis are to have a line, if not all are; none where it is out of its range.
fn limit_of(matches: &ArgMatches) -> Option<Option<u64>>
    ensures { IfSome result (λ limit. IfSome limit (IsWithin 0 1000000)) }
{
    match matches.get_one::<u64>("limit") {
        Some(limit) => Some(Some(within(limit, 0, MOST_LINES)?)),
        None => Some(None),
    }
}

/// The slot from which on a plan may come into force, if this is one.
fn slot_in(text: &str) -> Option<u64>
    ensures { IfSome result (IsWithin 1 999999) }
{
    within(text.parse().ok()?, 1, MOST_SWITCH_SLOT)
}

/// What is said of words that the parser took, and which are no command.
const NO_COMMAND: &str = "error: the words are no command\n\nFor more information, try '--help'.\n";

/// What is said of a later plan without a slot, or of a slot without one.
const UNPAIRED: &str =
    "error: '--then <F>' and '--at <N>' go in pairs: a plan's file, and the slot from which on it is in force\n\nFor more information, try '--help'.\n";

/// These plans, in their order, each with the slot of the same place; what is said where a slot is out of its range, which the parser
/// excludes.
fn paired<'a>(
    alloc: Global,
    plans: &[&'a str],
    slots: &[&'a str],
) -> Result<Result<Vec<(u64, &'a str)>, &'static str>, AllocError>
    requires { length slots.now ≡ length plans.now }
    ensures slots { IfOk result (λ read. IfOk read (λ later. All IsAllowedSwitch later.items)) }
    ensures plans { IfOk result (λ read. IfOk read (λ later. map (λ pair. pair.1) later.items ≡ plans.now)) }
{
    let mut later = Vec::new(alloc);
    for number in 0..plans.len() {
        let Some(slot) = slot_in(slots[number]) else {
            return Ok(Err(NO_COMMAND));
        };
        later.push((slot, plans[number]))?;
    }
    Ok(Ok(later))
}

/// The plans that follow the first, in the order in which they are given, each with its slot; what is said where they aren't given in
/// pairs.
fn later_of<'a>(
    alloc: Global,
    matches: &ArgMatches<'a>,
) -> Result<Result<Vec<(u64, &'a str)>, &'static str>, AllocError>
    ensures { IfOk result (λ read. IfOk read (λ later. All IsAllowedSwitch later.items)) }
{
    match (matches.get_strs("then"), matches.get_strs("at")) {
        (None, None) => Ok(Ok(Vec::new(alloc))),
        (Some(plans), Some(slots)) if plans.len() == slots.len() => paired(alloc, plans, slots),
        _ => Ok(Err(UNPAIRED)),
    }
}

/// The size of packets that stand so many bytes apart, if it is one.
fn size_of(bytes: u64) -> Option<PacketSize>
    ensures { IfSome result (λ size. stride_of size ≡ bytes) }
{
    match bytes {
        188 => Some(PacketSize::Ts188),
        204 => Some(PacketSize::Ts204),
        _ => None,
    }
}

/// The files that are probed, in their order; none of another command.
fn files_of<'a>(alloc: Global, matches: &ArgMatches<'a>) -> Result<Vec<&'a str>, AllocError> {
    match matches.get_strs("files") {
        Some(files) => Vec::from_slice(alloc, files),
        None => Ok(Vec::new(alloc)),
    }
}

/// The command that probes these files; none where they are too few or too many, which the parser excludes.
fn probe_of<'a>(files: Vec<&'a str>, plan: bool, json: bool) -> Option<Command<'a>>
    ensures { IfSome result IsAllowed }
{
    if files.is_empty() || files.len() > MOST_FILES {
        return None;
    }
    Some(Command::Probe { files, plan, json })
}

/// The leak rates that an analysis is told; none of another command.
fn leaks_of(
    alloc: Global,
    matches: &ArgMatches,
) -> Result<Result<Vec<(u16, u64)>, &'static str>, AllocError>
    ensures { IfOk result (λ read. IfOk read (λ leaks. All IsAllowedLeak leaks.items)) }
{
    match matches.get_strs("leak") {
        Some(words) => leaks_in(alloc, words),
        None => Ok(Ok(Vec::new(alloc))),
    }
}

/// The command that was read, with these later plans, these files to probe and these leak rates; none where a value is missing or out of its range, which
/// the parser excludes.
fn command_of<'a>(
    name: &str,
    matches: &ArgMatches<'a>,
    later: Vec<(u64, &'a str)>,
    files: Vec<&'a str>,
    leaks: Vec<(u16, u64)>,
) -> Option<Command<'a>>
    requires switches { All IsAllowedSwitch later.items }
    requires leaks { All IsAllowedLeak leaks.items }
    ensures { IfSome result IsAllowed }
{
    match name {
        "run" => Some(Command::Run {
            plan: matches.get_str("plan")?,
            later,
            out: matches.get_str("out")?,
            length: length_of(matches)?,
            serial: matches.get_flag("serial"),
            delays: matches.get_flag("delays"),
            strict: matches.get_flag("strict"),
            report: report_of(matches),
            progress: progress_of(matches),
            graph: matches.get_str("graph"),
            json: matches.get_flag("json"),
        }),
        "check" => Some(Command::Check {
            plan: matches.get_str("plan")?,
            later,
            strict: matches.get_flag("strict"),
            json: matches.get_flag("json"),
        }),
        "analyse" => Some(Command::Analyse(Analysis {
            size: size_of(matches.get_one::<u64>("size")?)?,
            rate: within(matches.get_one::<u64>("rate")?, LEAST_RATE, MOST_RATE)?,
            sync: matches.get_flag("sync"),
            period: within(matches.get_one::<u64>("period")?, 1, MOST_SLOTS)?,
            limit: limit_of(matches)?,
            places: matches.get_flag("places"),
            summary: matches.get_flag("summary"),
            levels: matches.get_str("levels"),
            leaks,
            json: matches.get_flag("json"),
            file: matches.get_str("file")?,
        })),
        "probe" => probe_of(files, matches.get_flag("plan"), matches.get_flag("json")),
        _ => None,
    }
}

/// The words as the parser reads them; what is said of them where it takes them and they are no command.
fn parse<'a, S: AsStr>(
    alloc: Global,
    words: &'a [S],
) -> Result<Result<Command<'a>, &'static str>, Error>
    ensures { IfOk result (λ read. IfOk read IsAllowed) }
{
    let matches = program(alloc)?.try_get_matches_from(words)?;
    let Some((name, inner)) = matches.subcommand() else {
        return Ok(Err(NO_COMMAND));
    };
    let later = match later_of(alloc, inner)? {
        Ok(later) => later,
        Err(text) => return Ok(Err(text)),
    };
    let leaks = match leaks_of(alloc, inner)? {
        Ok(leaks) => leaks,
        Err(text) => return Ok(Err(text)),
    };
    let files = files_of(alloc, inner)?;
    match command_of(name, inner, later, files, leaks) {
        Some(command) => Ok(Ok(command)),
        None => Ok(Err(NO_COMMAND)),
    }
}

/// How the parser says that a number is none that `--slots` may have.
const NO_LENGTH: &str = "for '--slots <N>': ";

/// How the parser ends what it says.
const ADVICE: &str = "\n\nFor more information";

/// The same, behind a word of what longer runs are asked for by.
const ADVICE_ON_LENGTH: &str =
    "\n\n  tip: '--all' goes on until the inputs end\n\nFor more information";

/// Why words are refused, by what the parser says: where it is the length of a run, `--all` is mentioned.
fn refused(alloc: Global, kind: ErrorKind, text: String) -> LineFault {
    if kind != ErrorKind::ValueValidation || !text.contains(NO_LENGTH) {
        return LineFault::Refused(text);
    }
    match text.replacen(alloc, ADVICE, ADVICE_ON_LENGTH, 1) {
        Ok(text) => LineFault::Refused(text),
        Err(_) => LineFault::Memory,
    }
}

/// What the parser tells, as text.
fn fault_of(alloc: Global, error: &Error) -> LineFault {
    let kind = error.kind();
    if kind == ErrorKind::OutOfMemory {
        return LineFault::Memory;
    }
    match format!(in alloc; "{error}") {
        Ok(text) if matches!(kind, ErrorKind::DisplayHelp | ErrorKind::DisplayVersion) => {
            LineFault::Help(text)
        }
        Ok(text) => refused(alloc, kind, text),
        Err(_) => LineFault::Memory,
    }
}

/// That of words of which this is said.
fn refused_with(alloc: Global, text: &str) -> LineFault {
    match String::from_str(alloc, text) {
        Ok(text) => LineFault::Refused(text),
        Err(_) => LineFault::Memory,
    }
}

/// Reads the words of a command line, without the program's own name.
///
/// Words that are no command, and numbers out of their ranges, are refused with a text that says what is wrong. Help and
/// the version come as a text too.
pub fn line<'a, S: AsStr>(alloc: Global, words: &'a [S]) -> Result<Command<'a>, LineFault>
    ensures { IfOk result IsAllowed }
{
    match parse(alloc, words) {
        Ok(Ok(command)) => Ok(command),
        Ok(Err(text)) => Err(refused_with(alloc, text)),
        Err(error) => Err(fault_of(alloc, &error)),
    }
}
