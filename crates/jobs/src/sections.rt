//! The tables of a made stream.

ghost use Rattle.std.specs.Prelude.{◌<◌};

use crate::pids::Pids;
use crate::shape::Shape;
use anyhow::{Result, bail};
use section::{crc, packets_of};
use std::alloc::{AllocError, Global};
use tspkt::Packet;

const PAT_PID: u16 = 0x0000;

const SDT_PID: u16 = 0x0011;

/// What fits into a packet behind its header and its pointer field.
const MOST: usize = 183;

/// The number of a service in a made stream.
pub fn program(service: u8) -> u16 {
    1 + u16::from(service)
}

/// A section with its CRC_32, of a table with this table_id, these bits before section_length and this table_id_extension.
fn whole(
    alloc: Global,
    table_id: u8,
    bits: u8,
    extension: u16,
    body: &[u8],
) -> Result<Vec<u8>, AllocError> {
    let length = u8::try_from(body.len().saturating_add(9)).unwrap_or(0);
    let [high, low] = extension.to_be_bytes();
    let mut section = vec![in alloc; table_id, bits, length, high, low, 0xC1, 0, 0]?;
    section.extend_from_slice(body)?;
    section.extend_from_slice(&crc(&section).to_be_bytes())?;
    Ok(section)
}

/// The one packet of a section.
fn packet_of(alloc: Global, section: &[u8], pid: u16) -> Result<Packet>
    requires { pid < 8192 }
{
    if section.is_empty() || section.len() > MOST {
        bail!("a section of the made stream has no packet");
    }
    match packets_of(alloc, section, pid, 0)?.first() {
        Some(packet) => Ok(*packet),
        None => bail!("a section of the made stream has no packet"),
    }
}

/// The PAT, which names all services.
fn pat(alloc: Global, shape: Shape, pids: Pids) -> Result<Vec<u8>, AllocError> {
    let mut rows = Vec::new(alloc);
    for service in 0..shape.services {
        rows.extend_from_slice(&program(service).to_be_bytes())?;
        rows.extend_from_slice(&(0xE000 | pids.pmt(service)).to_be_bytes())?;
    }
    whole(alloc, 0x00, 0xB0, 1, &rows)
}

/// The PMT of a service: its first stream is of video and has the PCR, and the others are of audio.
fn pmt(alloc: Global, shape: Shape, pids: Pids, service: u8) -> Result<Vec<u8>, AllocError> {
    let mut body = Vec::new(alloc);
    body.extend_from_slice(&(0xE000 | pids.stream(service, 0)).to_be_bytes())?;
    body.extend_from_slice(&[0xF0, 0x00])?;
    for stream in 0..shape.streams {
        body.push(if stream == 0 { 0x02 } else { 0x03 })?;
        body.extend_from_slice(&(0xE000 | pids.stream(service, stream)).to_be_bytes())?;
        body.extend_from_slice(&[0xF0, 0x00])?;
    }
    whole(alloc, 0x02, 0xB0, program(service), &body)
}

/// The SDT, which names all services.
fn sdt(alloc: Global, shape: Shape) -> Result<Vec<u8>, AllocError> {
    let mut body = vec![in alloc; 0, 2, 0xFF]?;
    for service in 0..shape.services {
        let letter = b'A'.wrapping_add(service);
        body.extend_from_slice(&program(service).to_be_bytes())?;
        body.extend_from_slice(&[0xFC, 0x80, 7, 0x48, 5, 0x01, 0, 2, b'S', letter])?;
    }
    whole(alloc, 0x42, 0xF0, 1, &body)
}

/// The packets of the tables of a made stream, one a table: the PAT, the PMTs and the SDT.
pub fn table_packets(alloc: Global, shape: Shape, pids: Pids) -> Result<Vec<Packet>> {
    let mut packets = Vec::new(alloc);
    packets.push(packet_of(alloc, &pat(alloc, shape, pids)?, PAT_PID)?)?;
    for service in 0..shape.services {
        let section = pmt(alloc, shape, pids, service)?;
        packets.push(packet_of(alloc, &section, pids.pmt(service))?)?;
    }
    packets.push(packet_of(alloc, &sdt(alloc, shape)?, SDT_PID)?)?;
    Ok(packets)
}
