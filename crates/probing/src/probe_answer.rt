//! What a probe prints.

/// What a probe prints.
#[derive(Clone, Copy, Debug, PartialEq, Eq)]
pub enum ProbeAnswer {
    /// Lines of what is in each file.
    Lines,
    /// The same as JSON, in one document of all files.
    Document,
    /// A plan of all files.
    Plan,
}
