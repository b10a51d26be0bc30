//! The packets of the example's input.

use crate::example_plan::tables;
use std::alloc::{AllocError, Global};

/// Adds packets of PID 0x0101 with these counters, each of 184 bytes 0xAA.
pub fn add_packets(bytes: &mut Vec<u8>, counters: &[u8]) -> Result<(), AllocError> {
    for counter in counters {
        bytes.extend_from_slice(&[0x47, 0x01, 0x01, 0x10 + counter % 16])?;
        bytes.extend_from_slice(&[0xAA; 184])?;
    }
    Ok(())
}

/// So many packets of PID 0x0101.
pub fn packets(alloc: Global, counters: &[u8]) -> Result<Vec<u8>, AllocError> {
    let mut bytes = Vec::new(alloc);
    add_packets(&mut bytes, counters)?;
    Ok(bytes)
}

/// An input's PAT, PMT and SDT, and five packets of PID 0x0101.
pub fn eight_packets(alloc: Global) -> Result<Vec<u8>, AllocError> {
    let mut bytes = Vec::new(alloc);
    for packet in &tables(alloc)? {
        bytes.extend_from_slice(packet.bytes())?;
    }
    add_packets(&mut bytes, &[0, 1, 2, 3, 4])?;
    Ok(bytes)
}
