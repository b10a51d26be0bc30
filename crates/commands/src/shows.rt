//! How a run shows how far it is.

/// How a run shows how far it is while it goes on.
#[derive(Clone, Copy, Debug, PartialEq, Eq)]
pub(crate) enum Shows {
    /// Not at all.
    Nothing,
    /// In a line each second.
    Lines,
    /// In a line of a terminal that is renewed.
    OnTerminal,
}
