//! Calls that read, compare and rewrite packets, and of times.

use crate::names::Names;
use crate::numbers::{first_word, number, numbers, sixteen_bits};
use crate::printed::{print_bytes, yes_or_no};
use anyhow::{Error, Result, bail};
use std::alloc::Global;
use std::io;
use std::io::Write;
use tspkt::{
    HIGHEST_RATE, LOWEST_RATE, MAX_LIMIT, Packet, PacketSize, PositionClock, follows, null,
    rewrite, time,
};

/// The highest position of which `time` tells the time.
const HIGHEST_POSITION: u64 = 3_422_552_064;

/// Exactly 188 bytes.
fn whole(bytes: &[u8]) -> Result<&[u8; 188]> {
    match bytes.first_chunk::<188>() {
        Some(first) if bytes.len() == 188 => Ok(first),
        _ => bail!("{} bytes are no packet", bytes.len()),
    }
}

/// The packet of these bytes.
pub fn packet_of(bytes: &[u8]) -> Result<Packet> {
    Packet::read(whole(bytes)?).map_err(Error::from)
}

/// The packet of these words.
fn named(names: &Names, words: &str) -> Result<Packet> {
    let bytes = names.bytes(words)?;
    packet_of(&bytes)
}

/// Prints the fields of a packet.
fn print_fields<W: Write>(packet: &Packet, out: &mut W) -> io::Result<()> {
    write!(
        out,
        "unit_start {} pid 0x{:04x} ",
        yes_or_no(packet.unit_start()),
        packet.pid()
    )?;
    write!(
        out,
        "scrambling {} counter {} ",
        packet.scrambling(),
        packet.counter()
    )?;
    let length = packet.payload().len();
    write!(
        out,
        "payload {} of {length} ",
        yes_or_no(packet.has_payload())
    )?;
    let (discontinuity, pcr) = (yes_or_no(packet.discontinuity()), packet.pcr());
    let byte = packet.bytes()[11];
    write!(
        out,
        "discontinuity {discontinuity} pcr {pcr:?} byte 11 0x{byte:02x}"
    )
}

/// `packet BYTES`: its fields, or the first thing in which it misses the layout.
pub fn fields<W: Write>(bytes: &[u8], out: &mut W) -> Result<()> {
    match Packet::read(whole(bytes)?) {
        Ok(packet) => print_fields(&packet, out)?,
        Err(fault) => write!(out, "{fault:?}: {fault}")?,
    }
    Ok(())
}

/// `send PID DELAY BYTES`: the packet on that PID, so many ticks later.
pub fn sent<W: Write>(names: &Names, words: &str, out: &mut W) -> Result<()> {
    let (pid, words) = first_word(words);
    let (delay, words) = first_word(words);
    let (pid, delay) = (sixteen_bits(pid)?, number(delay)?);
    let packet = named(names, words)?;
    if pid > 0x1FFF {
        bail!("{pid} is no PID");
    }
    print_bytes(rewrite(&packet, pid, delay).bytes(), out)?;
    Ok(())
}

/// `count COUNTER BYTES`: the packet with that counter.
pub fn counted<W: Write>(names: &Names, words: &str, out: &mut W) -> Result<()> {
    let (counter, words) = first_word(words);
    let counter = (number(counter)? % 16) as u8;
    let packet = named(names, words)?;
    print_bytes(packet.with_counter(counter).bytes(), out)?;
    Ok(())
}

/// `null`: the null packet.
pub fn print_null<W: Write>(out: &mut W) -> Result<()> {
    print_bytes(null().bytes(), out)?;
    Ok(())
}

/// Whether the next packet follows the last one, where the one before that has these words, or is none where they are `-`.
fn is_followed(names: &Names, before: &str, last: &Packet, next: &Packet) -> Result<bool> {
    if before == "-" {
        return Ok(follows(None, last, next));
    }
    let before = named(names, before)?;
    Ok(follows(Some(&before), last, next))
}

/// `follows BEFORE / LAST / NEXT`: whether the next packet follows the last one, where `-` is no packet before that.
pub fn followed<W: Write>(names: &Names, words: &str, out: &mut W) -> Result<()> {
    let Some((before, words)) = words.split_once(" / ") else {
        bail!("one packet alone");
    };
    let Some((last, next)) = words.split_once(" / ") else {
        bail!("two packets alone");
    };
    let last = named(names, last)?;
    let next = named(names, next)?;
    let told = yes_or_no(is_followed(names, before, &last, &next)?);
    write!(out, "{told}")?;
    Ok(())
}

/// `copy FIRST / SECOND`: whether these are copies.
pub fn copied<W: Write>(names: &Names, words: &str, out: &mut W) -> Result<()> {
    let Some((first, second)) = words.split_once(" / ") else {
        bail!("one packet alone");
    };
    let first = named(names, first)?;
    let second = named(names, second)?;
    let told = yes_or_no(first.is_copy(&second));
    write!(out, "{told}")?;
    Ok(())
}

/// `time POSITION RATE`: the time of the position, in ticks.
pub fn time_of<W: Write>(words: &str, out: &mut W) -> Result<()> {
    let (position, rate) = first_word(words);
    let (position, rate) = (number(position)?, number(rate)?);
    if position > HIGHEST_POSITION || rate == 0 {
        bail!("a position or rate out of its range");
    }
    write!(out, "{}", time(position, rate))?;
    Ok(())
}

/// The size of packets: 188 or 204.
pub fn size_of(word: &str) -> Result<PacketSize> {
    match word {
        "188" => Ok(PacketSize::Ts188),
        "204" => Ok(PacketSize::Ts204),
        _ => bail!("packets of {word} bytes"),
    }
}

/// The clock of a stream of this packet size and rate.
fn clock_of(size: &str, rate: u64) -> Result<PositionClock> {
    if rate < LOWEST_RATE || rate > HIGHEST_RATE {
        bail!("a rate out of its range");
    }
    Ok(match size_of(size)? {
        PacketSize::Ts188 => PositionClock::new(rate),
        size => PositionClock::with_size(size, rate),
    })
}

/// `clock SIZE RATE POSITION,..`: the times of the packets at these positions, in ticks.
pub fn clock<W: Write>(alloc: Global, words: &str, out: &mut W) -> Result<()> {
    let (size, words) = first_word(words);
    let (rate, positions) = first_word(words);
    let mut clock = clock_of(size, number(rate)?)?;
    let mut between = "";
    for position in &numbers(alloc, positions)? {
        if *position > MAX_LIMIT {
            bail!("a position out of its range");
        }
        clock.go_to(*position);
        write!(out, "{between}{}", clock.time())?;
        between = " ";
    }
    Ok(())
}
