//! The highest level of a transport buffer, as a document has it.

use levels::Levels;
use serde::Serialize;
use std::alloc::{AllocError, Global};

/// The highest level of a transport buffer, as a document has it.
#[derive(Drop, Serialize)]
pub(crate) struct LevelDocument {
    pid: u16,
    /// In bits a second.
    leak: u64,
    /// The highest level, in bytes.
    bytes: u64,
    /// The slot at whose end it was so high first.
    slot: u64,
    /// How many packets left it above 512 bytes.
    over: u64,
    /// How many packets its PID had.
    packets: u64,
}

impl LevelDocument {
    /// Those of these levels. `Err` is want of memory.
    pub fn all_of(alloc: Global, levels: &Levels) -> Result<Vec<LevelDocument>, AllocError> {
        let mut documents = Vec::new(alloc);
        for level in levels.all() {
            documents.push(LevelDocument {
                pid: level.pid(),
                leak: level.leak(),
                bytes: level.highest(),
                slot: level.slot(),
                over: level.over(),
                packets: level.packets(),
            })?;
        }
        Ok(documents)
    }
}
