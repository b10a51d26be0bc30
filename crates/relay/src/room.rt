//! How much a block holds.

/// For how many packets a block has room, at least.
pub const ROOM: usize = 256;

/// How many empty blocks are left to blocks that are sent, and not to those that are offered.
pub const KEPT: usize = 5;
