//! A packet of an input.

use anyhow::{Result, bail};
use tspkt::{Packet, Stamped};

/// A packet of an input: its PID and counter, and its time in ticks of 27 MHz.
#[derive(Clone, Copy)]
pub struct Item {
    pub pid: u64,
    pub counter: u64,
    pub stamp: u64,
}

/// A packet with payload alone, 184 bytes 0xAA.
pub fn stamped(item: Item) -> Result<Stamped> {
    let mut bytes = [0xAA; 188];
    bytes[0] = 0x47;
    bytes[1] = (item.pid / 256 % 32) as u8;
    bytes[2] = (item.pid % 256) as u8;
    bytes[3] = 0x10 + (item.counter % 16) as u8;
    match Packet::read(&bytes) {
        Ok(packet) => Ok(Stamped {
            packet,
            stamp: item.stamp,
        }),
        Err(_) => bail!("no packet"),
    }
}
