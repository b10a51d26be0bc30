//! The commands and their options, as the parser knows them, and their help.

use crate::command::{
    LEAST_RATE, MOST_FILES, MOST_LINES, MOST_RATE, MOST_SECONDS, MOST_SLOTS, MOST_SWITCH_SLOT,
};
use clap::builder::ValueParser;
use clap::{Arg, ArgAction, Command};
use std::alloc::{AllocError, Global};

const ABOUT: &str = "Takes services from several MPEG-2 transport streams and makes one multiplex \
of constant rate. Without words it sends the first two slots of a stored plan.";

const EXAMPLE: &str = "Example, from the top of the repository:
  ./remux probe examples/north.ts examples/south.ts --plan
  ./remux run --plan examples/plan.toml --out out.ts
  ./remux analyse --rate 3000000 --period 5000 out.ts

Status: 0 success, 1 analyse reported a fault or found no packets, --strict what is wrong with a plan or an input, or probe found no packets or made no plan, 2 refused words, 3 refused plan, 4 a file that failed, 5 out of memory.";

const RUN_USAGE: &str =
    "remux run --plan <F> [--then <F> --at <N>].. --out <F> [--slots <N> | --all] [--serial] [--delays] [--strict] [--report <N> | --progress | --quiet] [--graph <F>] [--json]";

const RUN_EXAMPLE: &str =
    "It prints a line for each input and one for the output, on standard error where the multiplex goes to standard output.
The output is written as its name with .part, and gets its name when the run has ended well.

Each input is read in a thread of its own. With --serial, and on one core over files, one thread reads them all in turn: it writes the \
same output, and reads of each input no more than its slots ask for, where a run in threads reads ahead.

With --all the run goes on until its inputs end, whatever its length; it takes no more memory than a short one.

With --delays it prints a line for each stream too, on standard error: the largest delay of its packets \
in ticks of 27 MHz, and the most packets that waited in its queue. Where the delay grows with the length of the run \
the plan is overfull; where the queue came to the plan's 'queue' it may be.

A stream whose packets waited more than a second is reported on standard error, \
and one whose queue came to the plan's 'queue' too; so are inputs that are damaged, whose rate isn't as the plan states or that ended a \
second before others, a 'leak' that is too low, packets that are scrambled, and a program that changed. With --strict the status of such a run is 1; its output is the same.

With --then F --at N the plan in F is in force from slot N on, and the output goes on without a gap; the pair may be given again, for the \
plan behind it. Both plans have the same rate, period and inputs, and the second has the next version. \
`remux check` with the same words shows what each switch keeps, drops and begins.

With --report 10 it prints every 10 seconds how far the run is, on standard error; and at once where an input ends while others go on, \
or makes all wait for more than a second.

Where standard error is a terminal a line there shows how far the run is, and how long it still takes; it goes away at the end. \
With --quiet, and with --report, there is none; with --progress it is printed each second where standard error is no terminal, too.

With --graph run.svg it draws the run when it has ended: what of the multiplex each service has over time, how full the \
transport buffers are, and the longest delay of each stream.

With --json it prints one JSON document in the place of the lines of its inputs and its output; the delays of its streams stand in it, too.

Example:
  ./remux run --plan examples/plan.toml --out out.ts --slots 50000";

const CHECK_USAGE: &str = "remux check --plan <F> [--then <F> --at <N>].. [--strict] [--json]";

const CHECK_EXAMPLE: &str =
    "It reads the plan and the tables of its inputs, and prints the rhythm of the tables, \
the services and the streams. On standard error it prints how often the tables come, \
which 'period' the plan may have, how long 1000000 slots take, \
and what the inputs' rates are where they aren't as the plan states. With --strict the status is 1 where such a rate is wrong, \
a 'leak' is too low, packets are scrambled, a program changed, or the services take more than there is. With --json standard output has one JSON document.

Example:
  ./remux check --plan examples/plan.toml";

const ANALYSE_USAGE: &str =
    "remux analyse --rate <N> --period <N> [--size <N>] [--sync] [--limit <N>] [--places] [--summary] [--levels <F>] [--leak <PID=N>].. [--json] <F>";

const ANALYSE_EXAMPLE: &str =
    "It prints a line for each fault of the first priority of ETSI TR 101 290, and one for the \
stream. The status is 1 where there is a fault or no packet.

With --size 204 sixteen bytes follow each packet, as demodulators hand them out: they are skipped, \
and --rate counts them. Else packets follow one another every 188 bytes. With --sync they are sought behind each place where sync was lost, \
as a run seeks those of its inputs; without it all that stands behind such a place is read at the old steps, and is mostly faults.

With --limit 10 only the first ten faults have a line; all are counted. With --places such a line ends with the byte of the file at which \
the fault's packet begins, from 0, and with the time at which that byte comes at --rate, in milliseconds. With --summary the last line comes \
behind the number of faults of each kind, and on each PID, and behind the packets and the rate of each PID. \
With --json all of this is one JSON document, with each fault on a line.

With --levels plan.toml it also prints the highest level of the transport buffer (ISO/IEC 13818-1, 2.4.2) of each PID that the plan \
gives a stream, and with --leak 0x0200=2000000 that of PID 0x0200, by this leak rate. Such a buffer holds 512 bytes.

Example:
  ./remux analyse --rate 3000000 --period 5000 out.ts";

const PROBE_USAGE: &str = "remux probe <F>.. [--plan | --json]";

const PROBE_EXAMPLE: &str =
    "It reads the first 67108864 bytes of each file, of packets of 188 or 204 bytes, and prints what it is: its size and rate, \
its tables, its programs with their streams, and for each PID its rate, its PCRs, and what is wrong there. \
With --json it prints all this as one JSON document. The status is 1 where a file has no packets.

With --plan it prints a plan of all services instead, which runs as it is, and on standard error which are left out and why. \
The status is 1 where no plan can be made.

Example, from the top of the repository:
  ./remux probe examples/north.ts
  ./remux probe examples/north.ts examples/south.ts --plan > plan.toml";

/// How many bytes may lie from one packet to the next.
const SIZES: [&str; 2] = ["188", "204"];

/// An option `--NAME` without a value.
fn flag<'a>(alloc: Global, name: &'a str, help: &'a str) -> Arg<'a> {
    Arg::new(alloc, name)
        .long(name)
        .help(help)
        .action(ArgAction::SetTrue)
}

/// An argument that has to be given, with a file's name as its value.
fn file<'a>(alloc: Global, name: &'a str, help: &'a str) -> Arg<'a> {
    Arg::new(alloc, name)
        .value_name("F")
        .help(help)
        .required(true)
        .action(ArgAction::Set)
}

/// An option `--NAME N` with a number from `least` to `most`.
fn number<'a>(alloc: Global, name: &'a str, help: &'a str, least: u64, most: u64) -> Arg<'a> {
    Arg::new(alloc, name)
        .long(name)
        .value_name("N")
        .help(help)
        .value_parser(ValueParser::Unsigned(least, most))
}

/// The option `--plan F`.
fn plan<'a>(alloc: Global) -> Arg<'a> {
    file(alloc, "plan", "The plan's file, in TOML").long("plan")
}

/// The option `--then F`, which may be given several times.
fn then<'a>(alloc: Global) -> Arg<'a> {
    Arg::new(alloc, "then")
        .long("then")
        .value_name("F")
        .help("The file of a plan that follows, in TOML; with --at")
        .action(ArgAction::Append)
}

/// The option `--at N`, once for each `--then`.
fn at<'a>(alloc: Global) -> Arg<'a> {
    let help = "The slot from which on that plan is in force, 1 to 999999";
    number(alloc, "at", help, 1, MOST_SWITCH_SLOT).action(ArgAction::Append)
}

/// The option `--out F`.
fn out<'a>(alloc: Global) -> Arg<'a> {
    let help =
        "The file that the multiplex is written to, none of those that are read; - is standard output";
    file(alloc, "out", help).long("out")
}

/// The option `--slots N`, which may be left out.
fn slots<'a>(alloc: Global) -> Arg<'a> {
    let help = "The most packets that are written, 1 to 1000000";
    number(alloc, "slots", help, 1, MOST_SLOTS).default_value("1000000")
}

/// The option `--all`, which goes with no `--slots`.
fn all<'a>(alloc: Global) -> Result<Arg<'a>, AllocError> {
    flag(alloc, "all", "Go on until the inputs end").conflicts_with("slots")
}

/// The option `--strict`.
fn strict<'a>(alloc: Global) -> Arg<'a> {
    let help = "End with status 1 where the plan or an input isn't as it should be";
    flag(alloc, "strict", help)
}

/// The option `--json`.
fn json<'a>(alloc: Global) -> Arg<'a> {
    flag(alloc, "json", "Print JSON in place of lines")
}

/// The option `--report N`.
fn report<'a>(alloc: Global) -> Arg<'a> {
    let help = "Print on standard error every N seconds how far the run is, 1 to 3600";
    number(alloc, "report", help, 1, MOST_SECONDS)
}

/// The option `--progress`, which goes with no `--report`.
fn progress<'a>(alloc: Global) -> Result<Arg<'a>, AllocError> {
    let help = "Show how far the run is also where standard error is no terminal";
    flag(alloc, "progress", help).conflicts_with("report")
}

/// The option `--quiet`, which goes with neither.
fn quiet<'a>(alloc: Global) -> Result<Arg<'a>, AllocError> {
    flag(alloc, "quiet", "Don't show how far the run is")
        .conflicts_with("report")?
        .conflicts_with("progress")
}

/// The option `--graph F`.
fn graph<'a>(alloc: Global) -> Arg<'a> {
    Arg::new(alloc, "graph")
        .long("graph")
        .value_name("F")
        .help("Draw the run as an SVG in F")
        .action(ArgAction::Set)
}

/// The option `--rate N`.
fn rate<'a>(alloc: Global) -> Arg<'a> {
    let help = "The rate of the stream in bits a second, 500000 to 100000000";
    number(alloc, "rate", help, LEAST_RATE, MOST_RATE).required(true)
}

/// The option `--period N`.
fn period<'a>(alloc: Global) -> Arg<'a> {
    let help = "After how many packets the absence of a PID is reported, 1 to 1000000";
    number(alloc, "period", help, 1, MOST_SLOTS).required(true)
}

/// The option `--limit N`.
fn limit<'a>(alloc: Global) -> Arg<'a> {
    let help = "Print at most N faults, 0 to 1000000";
    number(alloc, "limit", help, 0, MOST_LINES)
}

/// The option `--levels F`.
fn levels<'a>(alloc: Global) -> Arg<'a> {
    Arg::new(alloc, "levels")
        .long("levels")
        .value_name("F")
        .help("Print the highest level of the transport buffer of each stream of the plan in F")
        .action(ArgAction::Set)
}

/// The option `--leak PID=N`, which may be given several times.
fn leak<'a>(alloc: Global) -> Arg<'a> {
    Arg::new(alloc, "leak")
        .long("leak")
        .value_name("PID=N")
        .help(
            "Print the highest level of this PID's transport buffer, which leaks at N bits a second",
        )
        .action(ArgAction::Append)
}

/// The option `--size N`, which may be left out.
fn size<'a>(alloc: Global) -> Arg<'a> {
    Arg::new(alloc, "size")
        .long("size")
        .value_name("N")
        .help("How many bytes lie from one packet to the next")
        .value_parser(ValueParser::Names(&SIZES))
        .default_value("188")
}

/// A command with its help, and without arguments.
fn command<'a>(
    alloc: Global,
    name: &'a str,
    about: &'a str,
    usage: &'a str,
    example: &'a str,
) -> Command<'a> {
    Command::new(alloc, name)
        .about(about)
        .override_usage(usage)
        .after_help(example)
}

fn run_command<'a>(alloc: Global) -> Result<Command<'a>, AllocError> {
    let about = "Makes the multiplex of a plan";
    command(alloc, "run", about, RUN_USAGE, RUN_EXAMPLE)
        .arg(plan(alloc))?
        .arg(then(alloc))?
        .arg(at(alloc))?
        .arg(out(alloc))?
        .arg(slots(alloc))?
        .arg(all(alloc)?)?
        .arg(flag(alloc, "serial", "Read all inputs in one thread"))?
        .arg(flag(
            alloc,
            "delays",
            "Print on standard error how long streams waited",
        ))?
        .arg(strict(alloc))?
        .arg(report(alloc))?
        .arg(progress(alloc)?)?
        .arg(quiet(alloc)?)?
        .arg(graph(alloc))?
        .arg(json(alloc))
}

fn check_command<'a>(alloc: Global) -> Result<Command<'a>, AllocError> {
    let about = "Says whether a plan can be run, and shows what it makes";
    command(alloc, "check", about, CHECK_USAGE, CHECK_EXAMPLE)
        .arg(plan(alloc))?
        .arg(then(alloc))?
        .arg(at(alloc))?
        .arg(strict(alloc))?
        .arg(json(alloc))
}

fn analyse_command<'a>(alloc: Global) -> Result<Command<'a>, AllocError> {
    let about = "Reports the faults of a stream";
    let stream = "The stream's file: packets from its start; - is standard input";
    command(alloc, "analyse", about, ANALYSE_USAGE, ANALYSE_EXAMPLE)
        .arg(rate(alloc))?
        .arg(period(alloc))?
        .arg(size(alloc))?
        .arg(flag(alloc, "sync", "Seek packets where sync was lost"))?
        .arg(limit(alloc))?
        .arg(flag(
            alloc,
            "places",
            "Print at which byte and millisecond each fault is",
        ))?
        .arg(flag(
            alloc,
            "summary",
            "Print counts of faults and packets by PID",
        ))?
        .arg(levels(alloc))?
        .arg(leak(alloc))?
        .arg(json(alloc))?
        .arg(file(alloc, "file", stream))
}

fn probe_command<'a>(alloc: Global) -> Result<Command<'a>, AllocError> {
    let about = "Says what is in streams, or makes a plan of them";
    let streams = "The streams' files, 1 to 8; - is standard input";
    let files = file(alloc, "files", streams).action(ArgAction::Append);
    command(alloc, "probe", about, PROBE_USAGE, PROBE_EXAMPLE)
        .arg(files.num_args(1..=MOST_FILES))?
        .arg(flag(
            alloc,
            "plan",
            "Print a plan of all services that can be taken",
        ))?
        .arg(json(alloc).conflicts_with("plan")?)
}

/// The program, with its commands.
pub(crate) fn program<'a>(alloc: Global) -> Result<Command<'a>, AllocError> {
    Command::new(alloc, "remux")
        .version("0.1.0")
        .about(ABOUT)
        .after_help(EXAMPLE)
        .no_binary_name(true)
        .subcommand_required(true)
        .subcommand(run_command(alloc)?)?
        .subcommand(check_command(alloc)?)?
        .subcommand(analyse_command(alloc)?)?
        .subcommand(probe_command(alloc)?)
}
