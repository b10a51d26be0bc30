//! Why an input is read no further.

/// Why an input was read no further before its end.
#[derive(Clone, Copy, Debug, PartialEq, Eq)]
pub enum Stop {
    /// The run ended first.
    Gate,
    /// A read failed.
    ReadFailed,
    /// It has more bytes than it may have.
    TooMuch,
    /// Memory was refused.
    Memory,
}
