//! Says how far a run is.

use crate::goal::Goal;
use crate::progress_line::print_progress;
use crate::report_lines::print_board;
use crate::run_board::RunBoard;
use crate::run_seen::{RunSeen, SECOND};
use std::alloc::{AllocError, Global};
use std::io::Write;
use std::sync::{Arc, Wait};
use std::thread;
use std::thread::{JoinHandle, Threads};
use std::time::{Clock, Duration, Instant};

/// How long it is from one look to the next, in milliseconds.
const LOOK: u64 = 1_000 / SECOND;

/// When a report is due.
#[derive(Clone, Copy)]
struct Due {
    /// When the run began, where the clock can be read.
    start: Option<Instant>,
    /// How many seconds it is from one report to the next.
    every: u64,
    /// How many reports there were.
    count: u64,
}

impl Due {
    /// Whether the next report is due, which is counted then.
    fn is_now<T: Clock>(&mut self, rt: &T) -> bool {
        let Some(start) = self.start else {
            return false;
        };
        let next = self.every.saturating_mul(self.count.saturating_add(1));
        match start.elapsed(rt) {
            Ok(elapsed) if elapsed >= Duration::from_secs(next) => {
                self.count = self.count.saturating_add(1);
                true
            }
            _ => false,
        }
    }
}

/// Says what has been printed, at once, and keeps nothing of it.
fn say<V: Write>(lines: &mut Vec<u8>, voice: &mut V) {
    if !lines.is_empty() {
        let _ = voice.write_all(lines);
        lines.clear();
    }
}

/// Says how far a run is every so many seconds, and at once what happens in it, until it has ended.
fn say_all<T: Wait + Clock, V: Write>(
    rt: &T,
    alloc: Global,
    board: &RunBoard,
    seen: &mut RunSeen,
    every: u64,
    voice: &mut V,
) {
    let mut due = Due {
        start: Instant::now(rt).ok(),
        every,
        count: 0,
    };
    let mut lines = Vec::new(alloc);
    for _ in rt.forever() {
        if board.wait(rt, Duration::from_millis(LOOK)) {
            return;
        }
        let _ = seen.look(board, &mut lines);
        if due.is_now(rt) {
            let _ = print_board(board, &mut lines);
        }
        say(&mut lines, voice);
    }
}

/// How long it is from one renewal of the line on a terminal to the next, in milliseconds.
const RENEWAL: u64 = 500;

/// What goes in front of a renewed line on a terminal: the cursor goes back to its beginning, and the line is emptied.
const RENEW: &[u8] = b"\r\x1b[K";

/// What goes around such a line: the terminal cuts it off at its right edge, and breaks lines again behind it. A broken line would leave rows.
const CUT: &[u8] = b"\x1b[?7l";

const BREAK: &[u8] = b"\x1b[?7h";

/// How many milliseconds have passed; 0 where the clock can't be read.
fn since<T: Clock>(rt: &T, start: Option<Instant>) -> u64 {
    let Some(start) = start else {
        return 0;
    };
    match start.elapsed(rt) {
        Ok(elapsed) => elapsed.as_millis().min(u128::from(u64::MAX)) as u64,
        Err(_) => 0,
    }
}

/// Shows how far a run is, until it has ended: on a terminal twice a second in a line that is renewed, and goes away at the end, and
/// elsewhere each second in a line of its own.
fn show_all<T: Wait + Clock, V: Write>(
    rt: &T,
    alloc: Global,
    board: &RunBoard,
    goal: &Goal,
    is_terminal: bool,
    voice: &mut V,
) {
    let start = Instant::now(rt).ok();
    let pause = if is_terminal { RENEWAL } else { 2 * RENEWAL };
    let mut line = Vec::new(alloc);
    let mut is_shown = false;
    for _ in rt.forever() {
        let is_over = board.wait(rt, Duration::from_millis(pause));
        if is_terminal && (is_shown || !is_over) {
            let _ = line.write_all(RENEW);
        }
        if !is_over {
            let (before, behind): (&[u8], &[u8]) = if is_terminal {
                (CUT, BREAK)
            } else {
                (b"", b"\n")
            };
            let _ = line.write_all(before);
            let _ = print_progress(board, goal, since(rt, start), &mut line);
            let _ = line.write_all(behind);
        }
        is_shown = true;
        say(&mut line, voice);
        if is_over {
            return;
        }
    }
}

/// A thread that says how far a run is: every so many seconds a line, as
/// `report: slots 126330 faults 0, input 0 position 23750000 queue 12, input 1 position 188000 queue 0 waited for`; and at once where an
/// input ends while others go on, or where all wait for one for more than a second.
pub struct Reporter {
    board: Arc<RunBoard, Global>,
    handle: JoinHandle<()>,
}

impl Reporter {
    /// Starts the thread, which says each line on `voice`. An `Err` is want of memory, or that no thread can be made.
    pub fn start<
        T: Threads + Wait + Clock + Copy + Send + Drop + 'static,
        V: Write + Send + Drop + 'static,
    >(
        rt: T,
        alloc: Global,
        board: &Arc<RunBoard, Global>,
        every: u64,
        voice: V,
    ) -> Result<Reporter, AllocError> {
        let (own, theirs) = (Arc::try_clone(board)?, Arc::try_clone(board)?);
        let seen = RunSeen::new(alloc, board)?;
        let started = thread::spawn(&rt, move || {
            let (mut seen, mut voice) = (seen, voice);
            say_all(&rt, alloc, &theirs, &mut seen, every, &mut voice)
        });
        match started {
            Ok(handle) => Ok(Reporter { board: own, handle }),
            Err(_) => Err(AllocError),
        }
    }

    /// Starts a thread that shows on `voice` how far the run is: on a terminal in a line that is renewed twice a second and goes away at the
    /// end, and elsewhere in a line each second, as `slots 126330, inputs 45 46 %, 9 of 20 s, 12.3x, 1 s left`. An `Err` is want of memory, or
    /// that no thread can be made.
    pub fn show<
        T: Threads + Wait + Clock + Copy + Send + Drop + 'static,
        V: Write + Send + Drop + 'static,
    >(
        rt: T,
        alloc: Global,
        board: &Arc<RunBoard, Global>,
        goal: Goal,
        is_terminal: bool,
        voice: V,
    ) -> Result<Reporter, AllocError> {
        let (own, theirs) = (Arc::try_clone(board)?, Arc::try_clone(board)?);
        let started = thread::spawn(&rt, move || {
            let mut voice = voice;
            show_all(&rt, alloc, &theirs, &goal, is_terminal, &mut voice)
        });
        match started {
            Ok(handle) => Ok(Reporter { board: own, handle }),
            Err(_) => Err(AllocError),
        }
    }

    /// Ends the thread: behind it nothing goes to its writer.
    pub fn end<T: Threads + Wait>(self, rt: &T) {
        let Reporter { board, handle } = self;
        board.end(rt);
        handle.join(rt);
    }
}
