//! Where the files that a command reads come from.

use crate::FileCause;
use crate::input_file::InputFile;

/// Gives readers for names, so that a test can stand in for the system's files.
pub trait Sources {
    /// What a plan's file is read from, and an input whose tables are sought.
    type Reader: InputFile + Drop;

    /// What an input is read from in the run.
    type Again: InputFile + Drop;

    /// A reader of the file with this name, from its beginning.
    fn reader(&mut self, name: &str) -> Result<Self::Reader, FileCause>;

    /// A reader of the same file, from its beginning, for tables that are sought once more. `first` has read some of it.
    fn anew(&mut self, name: &str, first: Self::Reader) -> Result<Self::Reader, FileCause>;

    /// A reader of the same file, from its beginning again. `first` has read some of it.
    fn again(&mut self, name: &str, first: Option<Self::Reader>) -> Result<Self::Again, FileCause>;
}
