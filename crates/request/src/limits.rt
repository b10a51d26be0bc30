//! The ranges of a plan's numbers, both ends included.

/// The least rate of an input or the multiplex, in bits a second.
pub const MIN_RATE: u64 = 500_000;
/// The greatest rate of an input or the multiplex, in bits a second.
pub const MAX_RATE: u64 = 100_000_000;
/// The least leak rate of a transport buffer, in bits a second.
pub const MIN_LEAK: u64 = 1_000;
/// The greatest leak rate of a transport buffer, in bits a second.
pub const MAX_LEAK: u64 = 100_000_000;
/// The greatest offset of an input, in ticks of 27 MHz: an hour.
pub const MAX_OFFSET: u64 = 97_200_000_000;
/// The greatest period of the tables and of the watch, in slots.
pub const MAX_SLOTS: u64 = 1_000_000;
/// The greatest version_number.
pub const MAX_VERSION: u64 = 31;
/// The greatest number of packets in a queue or a ring.
pub const MAX_ITEMS: u64 = 1_024;
/// The greatest identifier of 16 bits: of a transport stream, a network, a program or a service.
pub const MAX_ID: u64 = 65_535;
/// The least PID that a plan may name. Those below are kept for tables.
pub const FIRST_PID: u64 = 0x0020;
/// The greatest PID that a plan may name. The next is that of null packets.
pub const LAST_PID: u64 = 0x1ffe;
/// The greatest number of inputs.
pub const MAX_INPUTS: usize = 8;
/// The greatest number of services.
pub const MAX_SERVICES: usize = 16;
/// The greatest number of streams.
pub const MAX_STREAMS: usize = 64;
/// The greatest number of bytes in network_name.
pub const MAX_NAME: usize = 64;
/// The least byte of network_name: a space.
pub const FIRST_LETTER: u8 = 0x20;
/// The greatest byte of network_name: a tilde.
pub const LAST_LETTER: u8 = 0x7e;
/// The greatest number of bytes in transport_descriptors.
pub const MAX_DESCRIPTORS: usize = 900;
