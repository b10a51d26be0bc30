//! A stream of a request.

/// The packets of one PID of an input, and the PID that they get in the output (ISO/IEC 13818-1, 2.4.3.3).
#[derive(Clone, Copy, Debug, PartialEq, Eq)]
pub struct Stream {
    /// The input's place in the plan, from 0.
    pub input: usize,
    /// The PID in the input, 0x0020 to 0x1FFE.
    pub pid: u16,
    /// The PID in the output, 0x0020 to 0x1FFE. Nothing else of the plan has it.
    pub output_pid: u16,
    /// The leak rate of its transport buffer, in bits a second, 1,000 to 100,000,000.
    pub leak: u64,
}
