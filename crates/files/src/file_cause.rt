//! Why a file fails.

use std::io;
use std::io::ErrorKind;
use thiserror::Error;

/// Why a file fails: what was done with it, with the system's reason, or what it is.
#[derive(Clone, Copy, Debug, Error)]
pub enum FileCause {
    /// It can't be opened.
    #[error("it can't be opened: {0}")]
    Open(io::Error),
    /// A read failed.
    #[error("it can't be read: {0}")]
    Read(io::Error),
    /// A write failed.
    #[error("it can't be written: {0}")]
    Write(io::Error),
    /// It is an output, and a pipe that nobody reads any more.
    #[error("its reader is gone")]
    NoReader,
    /// It is an output, which is written beside the name that it is to get, and no file can be made there.
    #[error("no new file can be made beside it: {0}")]
    Create(io::Error),
    /// It is an output that can't be given its name.
    #[error("the new file can't be given its name: {0}")]
    Rename(io::Error),
    /// It has more bytes than it may have: so many.
    #[error("it has more than {0} bytes")]
    TooLong(u64),
    /// It is a plan's file, and a transport stream.
    #[error("it is a transport stream; a plan is text")]
    IsStream,
    /// It is an output, and the plan's file or an input's.
    #[error("it is the plan's file or an input; the output has to be another file")]
    IsRead,
    /// It is the picture of a run, and a file that the run reads, or its output.
    #[error("it is the plan's file, an input or the output; the picture has to be another file")]
    IsTaken,
    /// It can be read only once, and two inputs are read from it.
    #[error("it can be read only once, and is asked for twice")]
    AskedTwice,
}

impl FileCause {
    /// That of a write that failed with this reason.
    pub fn of_write(error: io::Error) -> FileCause {
        if error.kind() == ErrorKind::BrokenPipe {
            FileCause::NoReader
        } else {
            FileCause::Write(error)
        }
    }

    /// Whether it is a write that failed.
    pub fn is_of_write(&self) -> bool {
        matches!(self, FileCause::Write(_) | FileCause::NoReader)
    }

    /// Whether it is that a file can be read only once, and that no more of it is kept.
    pub fn is_past_kept(&self) -> bool {
        matches!(self, FileCause::Read(error) if error.kind() == ErrorKind::FileTooLarge)
    }

    /// Whether it is want of memory.
    pub fn is_memory(&self) -> bool {
        match self {
            FileCause::Open(error)
            | FileCause::Read(error)
            | FileCause::Write(error)
            | FileCause::Create(error)
            | FileCause::Rename(error) => error.kind() == ErrorKind::OutOfMemory,
            _ => false,
        }
    }
}
