//! Calls that look for tables.

use crate::names::Names;
use crate::numbers::{first_word, numbers, sixteen_bits};
use crate::packets::packet_of;
use crate::printed::yes_or_no;
use crate::sections::packets;
use acquire::{Acquire, Found, find_tables};
use anyhow::Result;
use std::alloc::Global;
use std::io;
use std::io::Write;
use tspkt::Packet;

/// Adds the packets of `PID SECTION`, or the packet of `raw BYTES`.
fn add(alloc: Global, names: &Names, words: &str, all: &mut Vec<Packet>) -> Result<()> {
    let (word, words) = first_word(words);
    let bytes = names.bytes(words)?;
    if word == "raw" {
        all.push(packet_of(&bytes)?)?;
    } else {
        all.extend_from_slice(&packets(alloc, &bytes, sixteen_bits(word)?, 0)?)?;
    }
    Ok(())
}

/// Prints what was found: of each program whether its PMT was, and of how many sections the SDT is.
fn print_found<W: Write>(found: &Found, out: &mut W) -> io::Result<()> {
    write!(out, "| PMTs")?;
    for pmt in &found.pmts {
        match pmt {
            Some(pmt) => write!(out, " of {}", pmt.header().table_id_extension)?,
            None => write!(out, " none")?,
        }
    }
    let sections = found.sdt.as_ref().map(|sections| sections.len());
    write!(out, ", SDT {sections:?}")
}

/// The programs with these numbers.
fn programs_of(alloc: Global, words: &str) -> Result<Vec<u16>> {
    let mut wanted = Vec::new(alloc);
    for program in &numbers(alloc, words)? {
        wanted.push((*program % 65_536) as u16)?;
    }
    Ok(wanted)
}

/// Pushes packets, prints behind each whether all tables are there, and at the end what was found.
fn print_pushed<W: Write>(
    alloc: Global,
    wanted: &[u16],
    packets: &[Packet],
    out: &mut W,
) -> Result<()> {
    let mut acquire = Acquire::new(alloc, wanted)?;
    for packet in packets {
        let answer = yes_or_no(acquire.push(packet)?);
        write!(out, "{answer} ")?;
    }
    print_found(&acquire.found(), out)?;
    Ok(())
}

/// `acquire PROGRAM,.. / PACKETS / ..`: whether all tables are there behind each packet, and what is found by `Acquire` and by
/// `find_tables`.
pub fn acquired<W: Write>(alloc: Global, names: &Names, words: &str, out: &mut W) -> Result<()> {
    let (programs, words) = words.split_once(" / ").unwrap_or((words, ""));
    let wanted = programs_of(alloc, programs)?;
    let mut all = Vec::new(alloc);
    for words in words.split(" / ") {
        add(alloc, names, words, &mut all)?;
    }
    print_pushed(alloc, &wanted, &all, out)?;
    write!(out, " ")?;
    print_found(&find_tables(alloc, &wanted, &all)?, out)?;
    Ok(())
}
