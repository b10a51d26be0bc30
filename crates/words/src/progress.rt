//! Where a run shows how far it is.

/// Where a run shows how far it is, in a line that is renewed.
#[derive(Clone, Copy, Debug, PartialEq, Eq)]
pub enum Progress {
    /// On standard error, where that is a terminal.
    OnTerminal,
    /// On standard error, whatever that is.
    Always,
    /// Nowhere.
    Never,
}
