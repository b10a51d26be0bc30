//! Calls on sections.

use crate::names::Names;
use crate::numbers::{first_word, number, sixteen_bits};
use crate::packets::packet_of;
use crate::printed::print_digits;
use anyhow::{Result, bail};
use section::{Told, assemble, crc, packets_of};
use std::alloc::Global;
use std::io;
use std::io::Write;
use tspkt::Packet;

/// `crc BYTES`: the register over the bytes.
pub fn crc_register<W: Write>(bytes: &[u8], out: &mut W) -> Result<()> {
    write!(out, "0x{:08x}", crc(bytes))?;
    Ok(())
}

/// The packets of a section on a PID, from this counter on.
pub fn packets(alloc: Global, section: &[u8], pid: u16, counter: u64) -> Result<Vec<Packet>> {
    if section.is_empty() || section.len() > 1024 || pid > 0x1FFF {
        bail!("a section or a PID that there is not");
    }
    Ok(packets_of(alloc, section, pid, (counter % 16) as u8)?)
}

/// Prints a section: its length, the register over all but its CRC_32, and that.
fn print_section<W: Write>(section: &[u8], out: &mut W) -> io::Result<()> {
    let (front, last) = section.split_at(section.len().saturating_sub(4));
    write!(out, "section of {} 0x{:08x} ", section.len(), crc(front))?;
    print_digits(last, out)?;
    write!(out, ";")
}

/// Prints what was told.
fn print_told<W: Write>(told: &[Told], out: &mut W) -> io::Result<()> {
    let mut between = "";
    for one in told {
        write!(out, "{between}")?;
        match one {
            Told::Section(section) => print_section(section.as_slice(), out)?,
            Told::BadCrc => write!(out, "bad CRC;")?,
            Told::TooLong => write!(out, "too long;")?,
            Told::Cut => write!(out, "cut;")?,
        }
        between = " ";
    }
    Ok(())
}

/// How many stuffing bytes stand at the end.
fn stuffing(bytes: &[u8]) -> usize {
    let mut count = 0_usize;
    for byte in bytes.iter().rev() {
        if *byte != 0xFF {
            break;
        }
        count = count.saturating_add(1);
    }
    count
}

/// Prints a packet of a section: its first six bytes, its last four, and how many stuffing bytes it ends with.
fn print_packet<W: Write>(packet: &Packet, out: &mut W) -> io::Result<()> {
    let (head, tail) = packet.bytes().split_at(6);
    print_digits(head, out)?;
    write!(out, "..")?;
    print_digits(tail.get(178..).unwrap_or(&[]), out)?;
    write!(out, " stuffed {}, ", stuffing(tail))
}

/// `carry PID COUNTER BYTES`: the packets of a section, and what they tell.
pub fn carried<W: Write>(alloc: Global, names: &Names, words: &str, out: &mut W) -> Result<()> {
    let (pid, words) = first_word(words);
    let (counter, words) = first_word(words);
    let section = names.bytes(words)?;
    let packets = packets(alloc, &section, sixteen_bits(pid)?, number(counter)?)?;
    for packet in &packets {
        print_packet(packet, out)?;
    }
    write!(out, "| ")?;
    let again = assemble(alloc, &packets)?;
    print_told(&again, out)?;
    Ok(())
}

/// A packet of PID 0x0100: `START COUNTER PAYLOAD`, where START is 1 at a payload unit start and else 0. The payload is stuffed.
fn packet(names: &Names, words: &str) -> Result<Packet> {
    let (start, words) = first_word(words);
    let (counter, words) = first_word(words);
    let payload = names.bytes(words)?;
    if payload.len() > 184 {
        bail!("{} bytes are no payload", payload.len());
    }
    let mut bytes = [0xFF; 188];
    bytes[0] = 0x47;
    bytes[1] = if start == "1" { 0x41 } else { 0x01 };
    bytes[2] = 0x00;
    bytes[3] = 0x10 + (number(counter)? % 16) as u8;
    for (byte, from) in bytes[4..].iter_mut().zip(payload.iter()) {
        *byte = *from;
    }
    packet_of(&bytes)
}

/// `assemble PACKET / ..`: what these packets tell.
pub fn assembled<W: Write>(alloc: Global, names: &Names, words: &str, out: &mut W) -> Result<()> {
    let mut packets = Vec::new(alloc);
    for words in words.split(" / ") {
        packets.push(packet(names, words)?)?;
    }
    let told = assemble(alloc, &packets)?;
    print_told(&told, out)?;
    Ok(())
}
