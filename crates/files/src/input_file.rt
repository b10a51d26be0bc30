//! A file that is read.

use crate::FileCause;
use crate::file_identity::FileIdentity;
use reading::Source;

/// A source that is a file: it says which one it is, and why it failed.
pub trait InputFile: Source {
    /// Which file it is: none for a character device, which is no store of bytes.
    fn identity(&self) -> Option<FileIdentity>;

    /// How many bytes it has; none where that isn't known, as of a pipe.
    fn length(&self) -> Option<u64>;

    /// Its first bytes, up to 2,048, of those that were read.
    fn head(&self) -> &[u8];

    /// Why it failed last.
    fn cause(&self) -> FileCause;
}
