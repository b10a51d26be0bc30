//! Calls by their names.

use crate::acquiring::acquired;
use crate::analysing::analysed;
use crate::buffering::{buffered, queued};
use crate::framing::{framed, limited, refilled};
use crate::names::Names;
use crate::numbers::first_word;
use crate::packets::{clock, copied, counted, fields, followed, print_null, sent, time_of};
use crate::rhythm::rounds_of;
use crate::sections::{assembled, carried, crc_register};
use crate::table_calls::{descriptors, table};
use anyhow::{Result, bail};
use std::alloc::Global;
use std::io::Write;

/// Prints what a line tells: itself where it is a comment, nothing where it is empty or gives a name, and else what its call found.
pub fn tell<W: Write>(alloc: Global, names: &mut Names, line: &str, out: &mut W) -> Result<()> {
    if line.is_empty() {
        return Ok(());
    }
    if line.starts_with('#') {
        writeln!(out, "{line}")?;
        return Ok(());
    }
    if let Some((name, words)) = line.split_once(" = ") {
        return names.add(name, words);
    }
    let (call, words) = first_word(line);
    if !of_packets(alloc, names, call, words, out)? && !of_tables(alloc, names, call, words, out)? {
        of_parts(alloc, call, words, out)?;
    }
    writeln!(out)?;
    Ok(())
}

/// Prints what a call of `tspkt` found, and answers whether it is one.
fn of_packets<W: Write>(
    alloc: Global,
    names: &Names,
    call: &str,
    words: &str,
    out: &mut W,
) -> Result<bool> {
    match call {
        "packet" => fields(&names.bytes(words)?, out)?,
        "send" => sent(names, words, out)?,
        "count" => counted(names, words, out)?,
        "null" => print_null(out)?,
        "follows" => followed(names, words, out)?,
        "copy" => copied(names, words, out)?,
        "time" => time_of(words, out)?,
        "clock" => clock(alloc, words, out)?,
        "frame" => framed(alloc, names, words, out)?,
        "refill" => refilled(alloc, names, words, out)?,
        "limit" => limited(alloc, names, words, out)?,
        _ => return Ok(false),
    }
    Ok(true)
}

/// The same of a call on sections and tables.
fn of_tables<W: Write>(
    alloc: Global,
    names: &Names,
    call: &str,
    words: &str,
    out: &mut W,
) -> Result<bool> {
    match call {
        "crc" => crc_register(&names.bytes(words)?, out)?,
        "carry" => carried(alloc, names, words, out)?,
        "assemble" => assembled(alloc, names, words, out)?,
        "pat" | "pmt" | "nit" | "sdt" => table(alloc, call, &names.bytes(words)?, out)?,
        "descriptors" => descriptors(alloc, &names.bytes(words)?, out)?,
        "acquire" => acquired(alloc, names, words, out)?,
        "analyse" => analysed(alloc, names, words, out)?,
        _ => return Ok(false),
    }
    Ok(true)
}

/// Prints what another call found.
fn of_parts<W: Write>(alloc: Global, call: &str, words: &str, out: &mut W) -> Result<()> {
    match call {
        "buffer" => buffered(words, out),
        "queue" => queued(alloc, words, out),
        "rounds" => rounds_of(alloc, words, out),
        _ => bail!("there is no call {call}"),
    }
}
