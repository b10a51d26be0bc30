//! A row of a program association table.

/// A row of a PAT (ISO/IEC 13818-1, 2.4.4.3).
#[derive(Clone, Copy, Debug, PartialEq, Eq)]
pub struct PatRow {
    /// The program, 16 bits. 0 stands for the network.
    pub program_number: u16,
    /// program_map_PID, or network_PID where program_number is 0: 13 bits, 0 to 0x1FFF.
    pub pid: u16,
}
