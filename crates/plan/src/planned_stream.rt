//! A stream of a plan.

/// A stream of a plan as the multiplex knows it: by its number.
#[derive(Clone, Copy, Debug, PartialEq, Eq)]
pub struct PlannedStream {
    /// Its number, from 0: its place among the streams of the plan's request.
    pub number: usize,
    /// The PID that it has in the output.
    pub output_pid: u16,
    /// The leak rate of its transport buffer, in bits a second.
    pub leak: u64,
}
