//! Where a command's files come from.

use crate::output_file::OutputFile;
use crate::{FileCause, FileIdentity, Sources};

/// Gives readers and writers for names, so that a test can stand in for the system's files.
pub trait Files: Sources {
    type Writer: OutputFile;

    /// Whether the output with this name goes where standard output goes: `-` is standard output's name.
    fn is_standard_output(&mut self, name: &str) -> bool;

    /// Which file an output with this name would take the place of, or be written to: none where there is none yet, and for a
    /// character device, which is no store of bytes.
    fn output_identity(&mut self, name: &str) -> Option<FileIdentity>;

    /// A writer to a new, empty file that can get this name. What has the name stays as it was until `complete`, if it is a file.
    fn writer(&mut self, name: &str) -> Result<Self::Writer, FileCause>;

    /// Whether an output with this name can be made, beside what has the name and in its place: it is made under another name, and removed.
    /// A pipe or a device isn't tried: it is opened once, to be written. An `Err` says why not.
    fn try_writer(&mut self, name: &str) -> Result<(), FileCause>;

    /// Gives the output its name, in the place of the file that had it. An `Err` changes nothing.
    fn complete(&mut self) -> Result<(), FileCause>;

    /// The name under which the output stands while it hasn't its own; none where it is written where it is, and where there is
    /// none.
    fn partial(&self) -> Option<&str>;
}
