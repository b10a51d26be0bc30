//! Calls that frame.

use crate::names::Names;
use crate::numbers::{first_word, number, numbers};
use crate::packets::size_of;
use crate::told::{Kind, Told};
use anyhow::{Error, Result, bail};
use std::alloc::{AllocError, Global};
use std::io;
use std::io::Write;
use tspkt::{FeedFault, Framer, Item, ItemBuffer, MAX_LIMIT, PacketSize, frame, frame_with_size};

/// What an item tells.
fn told_of(item: &Item) -> Told {
    let (kind, number) = match item {
        Item::Packet(place, bytes) if bytes[0] == 0x47 && bytes[187] == 0xAA => {
            (Kind::Packet, *place)
        }
        Item::Packet(place, _) => (Kind::OtherPacket, *place),
        Item::Bad(place) => (Kind::Bad, *place),
        Item::SyncLoss(place) => (Kind::SyncLoss, *place),
        Item::Lost(count) => (Kind::Lost, *count),
    };
    Told { kind, number }
}

/// Adds what items tell.
fn add_told(told: &mut Vec<Told>, items: &[Item]) -> Result<(), AllocError> {
    for item in items {
        told.push(told_of(item))?;
    }
    Ok(())
}

/// Prints what was told.
fn print_told<W: Write>(told: &[Told], out: &mut W) -> io::Result<()> {
    let mut between = "";
    for one in told {
        let (word, number) = (one.kind.word(), one.number);
        write!(out, "{between}{word} {number};")?;
        between = " ";
    }
    Ok(())
}

/// Nothing more comes: what that tells is added.
fn finish(alloc: Global, framer: Framer, told: &mut Vec<Told>) -> Result<()> {
    let mut items = Vec::new(alloc);
    match framer.finish(&mut items) {
        Ok(()) => Ok(add_told(told, &items)?),
        Err((_, fault)) => Err(Error::from(fault)),
    }
}

/// What a framer tells that is fed these bytes in pieces of so many.
fn in_pieces(alloc: Global, size: PacketSize, bytes: &[u8], step: usize) -> Result<Vec<Told>> {
    let mut framer = Framer::with_size(size, MAX_LIMIT);
    let mut items = Vec::new(alloc);
    for piece in bytes.chunks(step.max(1)) {
        framer.feed(piece, &mut items)?;
    }
    let mut told = Vec::new(alloc);
    add_told(&mut told, &items)?;
    finish(alloc, framer, &mut told)?;
    Ok(told)
}

/// What a framer tells that is refilled by these bytes in pieces of so many, over the items from before.
fn in_refills(alloc: Global, size: PacketSize, bytes: &[u8], step: usize) -> Result<Vec<Told>> {
    let mut framer = Framer::with_size(size, MAX_LIMIT);
    let mut items = ItemBuffer::new(alloc);
    let mut told = Vec::new(alloc);
    for piece in bytes.chunks(step.max(1)) {
        framer.refill(piece, &mut items)?;
        add_told(&mut told, items.told())?;
    }
    items.clear();
    let finished = framer.finish_refill(&mut items);
    add_told(&mut told, items.told())?;
    match finished {
        Ok(()) => Ok(told),
        Err((_, fault)) => Err(Error::from(fault)),
    }
}

/// What is told of a whole stream.
fn whole(alloc: Global, size: PacketSize, bytes: &[u8]) -> Result<Vec<Told>> {
    let pieces = vec![in alloc; bytes.to_vec(alloc)?]?;
    let items = match size {
        PacketSize::Ts188 => frame(alloc, &pieces)?,
        size => frame_with_size(alloc, size, &pieces)?,
    };
    let mut told = Vec::new(alloc);
    add_told(&mut told, &items)?;
    Ok(told)
}

/// Prints what is told of a stream in pieces of so many bytes, where it isn't what is told of the whole stream.
fn print_other<W: Write>(whole: &[Told], step: u64, other: &[Told], out: &mut W) -> io::Result<()> {
    if whole == other {
        return Ok(());
    }
    write!(out, " | in pieces of {step}: ")?;
    print_told(other, out)
}

/// `frame SIZE PIECES,.. BYTES`: what is told of a stream of packets of this size. Fed in pieces of these sizes it tells the same, or
/// what it tells stands behind that.
pub fn framed<W: Write>(alloc: Global, names: &Names, words: &str, out: &mut W) -> Result<()> {
    let (size, words) = first_word(words);
    let (steps, words) = first_word(words);
    let size = size_of(size)?;
    let bytes = names.bytes(words)?;
    let whole = whole(alloc, size, &bytes)?;
    print_told(&whole, out)?;
    for step in &numbers(alloc, steps)? {
        let other = in_pieces(alloc, size, &bytes, *step as usize)?;
        print_other(&whole, *step, &other, out)?;
    }
    Ok(())
}

/// `refill SIZE PIECES,.. BYTES`: the same of a framer that is refilled.
pub fn refilled<W: Write>(alloc: Global, names: &Names, words: &str, out: &mut W) -> Result<()> {
    let (size, words) = first_word(words);
    let (steps, words) = first_word(words);
    let size = size_of(size)?;
    let bytes = names.bytes(words)?;
    let whole = in_refills(alloc, size, &bytes, bytes.len())?;
    print_told(&whole, out)?;
    for step in &numbers(alloc, steps)? {
        let other = in_refills(alloc, size, &bytes, *step as usize)?;
        print_other(&whole, *step, &other, out)?;
    }
    Ok(())
}

/// Prints what a piece is answered.
fn print_answer<W: Write>(answer: Result<(), FeedFault>, out: &mut W) -> io::Result<()> {
    match answer {
        Ok(()) => write!(out, "taken"),
        Err(fault) => write!(out, "{fault:?}: {fault}"),
    }
}

/// Prints what is told in brackets.
fn print_in_brackets<W: Write>(told: &[Told], out: &mut W) -> io::Result<()> {
    write!(out, ", told [")?;
    print_told(told, out)?;
    write!(out, "]")
}

/// A framer of packets of this size that takes so many bytes at most.
fn limited_framer(size: &str, limit: &str) -> Result<Framer> {
    let limit = number(limit)?;
    if limit > MAX_LIMIT {
        bail!("a limit out of its range");
    }
    Ok(match size_of(size)? {
        PacketSize::Ts188 => Framer::with_limit(limit),
        size => Framer::with_size(size, limit),
    })
}

/// `limit BYTES_AT_MOST SIZE PIECE / ..`: what each piece of a stream with a limit is answered, and what is told behind it.
pub fn limited<W: Write>(alloc: Global, names: &Names, words: &str, out: &mut W) -> Result<()> {
    let (limit, words) = first_word(words);
    let (size, pieces) = first_word(words);
    let mut framer = limited_framer(size, limit)?;
    for piece in pieces.split(" / ") {
        let bytes = names.bytes(piece)?;
        let mut items = Vec::new(alloc);
        print_answer(framer.feed(&bytes, &mut items), out)?;
        let mut told = Vec::new(alloc);
        add_told(&mut told, &items)?;
        print_in_brackets(&told, out)?;
        write!(out, " | ")?;
    }
    let mut told = Vec::new(alloc);
    finish(alloc, framer, &mut told)?;
    write!(out, "end")?;
    print_in_brackets(&told, out)?;
    Ok(())
}
