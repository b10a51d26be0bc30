//! What of a multiplex each service has over time, drawn as areas one above the other.

use crate::canvas::{KEY, SHARES, SHARES_HEIGHT, colour, edges};
use crate::record::Record;
use crate::times::{SECOND, print_time, time_of};
use std::io;
use std::io::Write;

/// How many packets the kinds below this one have in a piece.
fn below(record: &Record, piece: usize, kind: usize) -> u64 {
    let mut packets = 0u64;
    for lower in 0..kind {
        packets = packets.saturating_add(record.packets_of(piece, lower));
    }
    packets
}

/// How far from above so many packets of a piece stand.
fn y_of(record: &Record, piece: usize, packets: u64) -> u64 {
    let slots = record.slots_in(piece);
    let part = packets.min(slots).saturating_mul(SHARES_HEIGHT);
    let height = part.checked_div(slots).unwrap_or(0);
    (SHARES + SHARES_HEIGHT).saturating_sub(height)
}

/// Draws the area of a kind: its upper edge from the left to the right, and its lower one back.
fn print_area<W: Write>(record: &Record, kind: usize, out: &mut W) -> io::Result<()> {
    let pieces = record.pieces();
    let colour = colour(record.kinds().service(kind), kind);
    write!(out, "<polygon fill=\"{colour}\" points=\"")?;
    for piece in 0..pieces {
        let y = y_of(record, piece, below(record, piece, kind.saturating_add(1)));
        let (left, right) = edges(record, piece);
        write!(out, "{left},{y} {right},{y} ")?;
    }
    for piece in (0..pieces).rev() {
        let y = y_of(record, piece, below(record, piece, kind));
        let (left, right) = edges(record, piece);
        write!(out, "{right},{y} {left},{y} ")?;
    }
    writeln!(out, "\"/>")
}

/// How many packets a kind has in all.
fn packets_of(record: &Record, kind: usize) -> u64 {
    let mut packets = 0u64;
    for piece in 0..record.pieces() {
        packets = packets.saturating_add(record.packets_of(piece, kind));
    }
    packets
}

/// The mean rate of so many packets of the run, in thousands of bits a second.
fn mean_rate(record: &Record, packets: u64) -> u128 {
    let part = u128::from(packets) * u128::from(record.rate());
    part.checked_div(u128::from(record.slots())).unwrap_or(0) / 1_000
}

/// Says below the key that what is white are null packets, and their mean rate.
fn print_nulls<W: Write>(record: &Record, out: &mut W) -> io::Result<()> {
    let count = record.kinds().count();
    let mut packets = 0u64;
    for kind in 0..count {
        packets = packets.saturating_add(packets_of(record, kind));
    }
    let rate = mean_rate(record, record.slots().saturating_sub(packets));
    let (x, y) = (
        KEY,
        (count as u64).saturating_mul(15).saturating_add(SHARES),
    );
    write!(
        out,
        "<rect x=\"{x}\" y=\"{y}\" width=\"10\" height=\"10\" fill=\"white\" stroke=\"black\"/>"
    )?;
    let (x, text) = (x.saturating_add(15), y.saturating_add(9));
    writeln!(
        out,
        "<text x=\"{x}\" y=\"{text}\">null: mean {rate} kbit/s</text>"
    )
}

/// How many pieces there are up to the last one in which a kind has packets.
fn pieces_of(record: &Record, kind: usize) -> usize {
    let mut pieces = 0;
    for piece in 0..record.pieces() {
        if record.packets_of(piece, kind) > 0 {
            pieces = piece.saturating_add(1);
        }
    }
    pieces
}

/// Says when the packets of a service end, where it has some, and none in the run's last second and its last fiftieth.
fn print_end<W: Write>(record: &Record, kind: usize, out: &mut W) -> io::Result<()> {
    let slots = record.slots_before(pieces_of(record, kind));
    let behind = record.slots().saturating_sub(slots);
    let is_short = time_of(record, behind) <= SECOND || behind <= record.slots() / 50;
    if slots == 0 || is_short {
        return Ok(());
    }
    write!(out, ", up to ")?;
    print_time(record, slots, out)
}

/// Writes which colour a kind has, and its mean rate, in thousands of bits a second.
fn print_key<W: Write>(record: &Record, kind: usize, out: &mut W) -> io::Result<()> {
    let service = record.kinds().service(kind);
    let colour = colour(service, kind);
    let (x, y) = (KEY, (kind as u64).saturating_mul(15).saturating_add(SHARES));
    let rate = mean_rate(record, packets_of(record, kind));
    let text = y.saturating_add(9);
    write!(
        out,
        "<rect x=\"{x}\" y=\"{y}\" width=\"10\" height=\"10\" fill=\"{colour}\"/>"
    )?;
    let x = x.saturating_add(15);
    write!(out, "<text x=\"{x}\" y=\"{text}\">")?;
    match (service, record.kinds().name(kind)) {
        (Some(number), "") => write!(out, "{number}")?,
        (Some(number), name) => write!(out, "{number} {name}")?,
        (None, _) => write!(out, "tables")?,
    }
    write!(out, ": mean {rate} kbit/s")?;
    if service.is_some() {
        print_end(record, kind, out)?;
    }
    writeln!(out, "</text>")
}

/// Draws the shares of the services and of the tables, and their key.
pub(crate) fn print_shares<W: Write>(record: &Record, out: &mut W) -> io::Result<()> {
    for kind in 0..record.kinds().count() {
        print_area(record, kind, out)?;
        print_key(record, kind, out)?;
    }
    print_nulls(record, out)
}
