//! What the program is asked to do.

use crate::analysis::Analysis;
use crate::progress::Progress;
use crate::run_length::RunLength;

/// What the program is asked to do, in the words of its command line.
#[derive(Debug, PartialEq, Eq, Drop)]
pub enum Command<'a> {
    /// Make the multiplex.
    Run {
        /// The name of the plan's file.
        plan: &'a str,
        /// The plans that follow it: the slot from which on each is in force, 1 to 999,999, and the name of its file.
        later: Vec<(u64, &'a str)>,
        /// The name of the output file, which is none of those that the run reads.
        out: &'a str,
        /// How long the run goes on.
        length: RunLength,
        /// Whether the run uses one thread alone.
        serial: bool,
        /// Whether the largest delay and queue of each stream are told.
        delays: bool,
        /// Whether a run that shows that its plan or an input isn't as it should be ends with status 1.
        strict: bool,
        /// After how many seconds each time it is said how far the run is, 1 to 3,600, if it is.
        report: Option<u64>,
        /// Where it shows how far it is.
        progress: Progress,
        /// The name of the file that a picture of it is written to, if one is.
        graph: Option<&'a str>,
        /// Whether what became of it is printed as JSON.
        json: bool,
    },
    /// Make the plan, and show it.
    Check {
        /// The name of the plan's file.
        plan: &'a str,
        /// The plans that follow it, as those of a run.
        later: Vec<(u64, &'a str)>,
        /// Whether a plan that an input's rates don't fit ends it with status 1.
        strict: bool,
        /// Whether it is shown as JSON.
        json: bool,
    },
    /// Tell the faults of a stream.
    Analyse(Analysis<'a>),
    /// Say what is in streams.
    Probe {
        /// The names of their files, 1 to 8.
        files: Vec<&'a str>,
        /// Whether a plan of them is made, and nothing else is said.
        plan: bool,
        /// Whether what is in them is printed as JSON.
        json: bool,
    },
}

/// Why words are no command.
#[derive(Debug, Drop)]
pub enum LineFault {
    /// They are refused: what is wrong, and how it is meant.
    Refused(String),
    /// They ask for help, or for the version: the text.
    Help(String),
    /// There is no memory to read them.
    Memory,
}

/// The most slots of a run that isn't asked to go on until its inputs end, and of a watched period.
pub(crate) const MOST_SLOTS: u64 = 1_000_000;
/// The last slot from which on a plan may come into force.
pub(crate) const MOST_SWITCH_SLOT: u64 = 999_999;
/// The most seconds from one report of a run to the next.
pub(crate) const MOST_SECONDS: u64 = 3_600;
/// The least rate of a stream, in bits a second.
pub(crate) const LEAST_RATE: u64 = 500_000;
/// The largest one.
pub(crate) const MOST_RATE: u64 = 100_000_000;
/// The most faults to which the lines of an analysis may be limited.
pub(crate) const MOST_LINES: u64 = 1_000_000;
/// The most files that are probed at once: as many as a plan has inputs.
pub(crate) const MOST_FILES: usize = 8;
