//! A service of a request.

/// A service of an input, and what it becomes in the output.
#[derive(Drop)]
pub struct Service {
    /// The place of its input in the plan, from 0.
    pub input: usize,
    /// Its number in the input, 1 to 65,535.
    pub program: u16,
    /// Its number in the output, 1 to 65,535. No other service of the plan has it.
    pub service: u16,
    /// The PID of its PMT in the output, 0x0020 to 0x1FFE. Nothing else of the plan has it.
    pub pmt: u16,
    /// The numbers of its streams, from 0, in the order of the text.
    pub streams: Vec<usize>,
}
