//! What a command waits for, as one thread notes it and another one says it.

use crate::waiting::Waiting;
use std::alloc::{AllocError, Global};
use std::io::Write;
use std::sync::{Condvar, Mutex, Wait};
use std::time::{Clock, Duration};

/// After how long it is said what is waited for, in seconds.
const PATIENCE: u64 = 2;

/// What is waited for now.
#[derive(Drop)]
struct Place {
    waiting: Option<Waiting>,
    /// How often something else was waited for before.
    turn: u64,
    is_over: bool,
}

/// What a command waits for: noted by the thread that waits, and said by another one.
#[derive(Drop)]
pub(crate) struct WaitBoard {
    place: Mutex<Place>,
    changed: Condvar,
}

/// What there is to be said, once something was waited for so long.
enum Next {
    /// Nothing now: something else is waited for, or nothing.
    Nothing,
    /// This line, of this turn; none without memory for it.
    Line(u64, Option<String>),
    /// Nothing any more.
    Over,
}

/// The line of what is waited for.
fn line_of(alloc: Global, place: &Place) -> Result<Option<String>, AllocError> {
    match &place.waiting {
        Some(waiting) => Ok(Some(format!(in alloc; "wait: {waiting}\n")?)),
        None => Ok(None),
    }
}

impl WaitBoard {
    /// Nothing is waited for yet.
    pub fn new() -> WaitBoard {
        WaitBoard {
            place: Mutex::new(Place {
                waiting: None,
                turn: 0,
                is_over: false,
            }),
            changed: Condvar::new(),
        }
    }

    /// From now on this is waited for, if something is.
    pub fn note<R: Wait>(&self, rt: &R, waiting: Option<Waiting>) {
        let mut place = self.place.lock(rt);
        place.waiting = waiting;
        place.turn = place.turn.wrapping_add(1);
        drop(place);
        self.changed.notify_all();
    }

    /// Whether tables of this input are what is waited for.
    pub fn is_for_tables<R: Wait>(&self, rt: &R, input: usize, has_pat: bool) -> bool {
        match &self.place.lock(rt).waiting {
            Some(waiting) => waiting.is_for_tables(input, has_pat),
            None => false,
        }
    }

    /// Nothing more is said.
    pub fn end<R: Wait>(&self, rt: &R) {
        let mut place = self.place.lock(rt);
        place.is_over = true;
        drop(place);
        self.changed.notify_all();
    }

    /// Says what is waited for whenever it has been for two seconds, a line each time, until nothing more is to be said.
    pub fn say_all<R: Wait + Clock, V: Write>(&self, rt: &R, alloc: Global, voice: &mut V) {
        let mut said = 0;
        for _ in rt.forever() {
            match self.next(rt, alloc, said) {
                Next::Nothing => {}
                Next::Line(turn, line) => {
                    said = turn;
                    if let Some(line) = line {
                        let _ = voice.write_all(line.as_bytes());
                    }
                }
                Next::Over => return,
            }
        }
    }

    /// Waits until something is waited for in another turn than the one that was said last, and then for two seconds that it goes on.
    fn next<R: Wait + Clock>(&self, rt: &R, alloc: Global, said: u64) -> Next {
        let place = self.changed.wait_while(rt, self.place.lock(rt), |place| {
            !place.is_over && (place.turn == said || place.waiting.is_none())
        });
        let turn = place.turn;
        let patience = Duration::from_secs(PATIENCE);
        let (place, waited) = self
            .changed
            .wait_timeout_while(rt, place, patience, |place| {
                !place.is_over && place.turn == turn
            });
        if place.is_over {
            return Next::Over;
        }
        if waited.timed_out() {
            Next::Line(turn, line_of(alloc, &place).unwrap_or(None))
        } else {
            Next::Nothing
        }
    }
}
