//! Says what a command waits for.

use crate::wait_board::WaitBoard;
use crate::waiting::Waiting;
use files::Notices;
use std::alloc::{AllocError, Global};
use std::io::Write;
use std::sync::{Arc, Wait};
use std::thread;
use std::thread::{JoinHandle, Threads};
use std::time::Clock;

/// A thread that says what is waited for, and where it is noted.
struct Telling {
    board: Arc<WaitBoard, Global>,
    handle: JoinHandle<()>,
}

/// Is told what a command waits for, and says it where that takes two seconds: a line for each wait, as
/// `wait: north.fifo: it isn't open yet: a pipe waits for its other end`. Where there is no memory for it, or no thread, nothing is said.
pub struct WaitTeller<T> {
    rt: T,
    alloc: Global,
    telling: Option<Telling>,
}

/// Starts the thread.
fn start<
    T: Threads + Wait + Clock + Copy + Send + Drop + 'static,
    V: Write + Send + Drop + 'static,
>(rt: T, alloc: Global, voice: V) -> Result<Telling, AllocError> {
    let board = Arc::new(alloc, WaitBoard::new())?;
    let theirs = Arc::try_clone(&board)?;
    let started = thread::spawn(&rt, move || {
        let mut voice = voice;
        theirs.say_all(&rt, alloc, &mut voice)
    });
    match started {
        Ok(handle) => Ok(Telling { board, handle }),
        Err(_) => Err(AllocError),
    }
}

impl<T: Threads + Wait + Clock + Copy + Send + Drop + 'static> WaitTeller<T> {
    /// One that says on `voice` what is waited for.
    pub fn new<V: Write + Send + Drop + 'static>(rt: T, alloc: Global, voice: V) -> WaitTeller<T> {
        WaitTeller {
            rt,
            alloc,
            telling: start(rt, alloc, voice).ok(),
        }
    }

    /// Ends the thread: behind it nothing goes to its writer.
    pub fn end(self) {
        let WaitTeller {
            rt,
            alloc: _,
            telling,
        } = self;
        if let Some(Telling { board, handle }) = telling {
            board.end(&rt);
            handle.join(&rt);
        }
    }
}

impl<T: Wait> WaitTeller<T> {
    /// From now on this is waited for; nothing where there is no memory for a name.
    fn note(&self, waiting: Result<Waiting, AllocError>) {
        if let Some(telling) = &self.telling {
            telling.board.note(&self.rt, waiting.ok());
        }
    }
}

/// The file with this name is being opened.
fn opening(alloc: Global, name: &str) -> Result<Waiting, AllocError> {
    Ok(Waiting::Opening(String::from_str(alloc, name)?))
}

/// Tables of an input haven't come yet.
fn tables(alloc: Global, number: usize, name: &str, has_pat: bool) -> Result<Waiting, AllocError> {
    Ok(Waiting::Tables {
        number,
        name: String::from_str(alloc, name)?,
        has_pat,
    })
}

impl<T: Wait> Notices for WaitTeller<T> {
    fn opens(&mut self, name: &str) {
        self.note(opening(self.alloc, name));
    }

    fn seeks(&mut self, number: usize, name: &str, has_pat: bool) {
        if let Some(telling) = &self.telling
            && !telling.board.is_for_tables(&self.rt, number, has_pat)
        {
            self.note(tables(self.alloc, number, name, has_pat));
        }
    }

    fn goes_on(&mut self) {
        if let Some(telling) = &self.telling {
            telling.board.note(&self.rt, None);
        }
    }
}
