//! A file that is written.

use crate::FileCause;
use outlet::Sink;

/// A sink that is a file: it says why it failed.
pub trait OutputFile: Sink {
    /// Why it failed last.
    fn cause(&self) -> FileCause;
}
