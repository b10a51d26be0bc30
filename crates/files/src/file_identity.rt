//! Which file a name stands for.

ghost use Rattle.std.specs.Prelude.{◌↔◌, IsTrue};
ghost use Rattle.files.specs.Identity.{IsAmong};

/// A file, whatever names it has.
#[derive(Clone, Copy, Debug, PartialEq, Eq)]
pub struct FileIdentity {
    /// The device that the file is on.
    pub device: u64,
    /// Its number there: that of its inode.
    pub number: u64,
}

/// Whether a file is one of those that are read. One that isn't known is none of them.
pub fn is_among(file: Option<FileIdentity>, read: &[FileIdentity]) -> bool
    ensures { IsTrue result ↔ IsAmong file read.now }
{
    match file {
        Some(file) => read.contains(&file),
        None => false,
    }
}
