//! A row `[[service.stream]]`.

/// A stream of a service as the plan's text gives it, before any range is looked at.
#[derive(Clone, Copy, Debug, PartialEq, Eq)]
pub struct StreamParts {
    /// The PID in the input, 0x0020 to 0x1FFE.
    pub pid: i64,
    /// The PID in the output, 0x0020 to 0x1FFE.
    pub out: i64,
    /// The leak rate of the stream's transport buffer, in bits a second, 1,000 to 100,000,000.
    pub leak: i64,
}
