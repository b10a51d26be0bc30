//! How full the transport buffers are, drawn as curves.

use crate::canvas::{LEFT, LEVELS, LEVELS_HEIGHT, PLOT, colour, edges};
use crate::record::Record;
use std::io;
use std::io::Write;

/// How many bytes a transport buffer holds (ISO/IEC 13818-1, 2.4.2).
const HOLDS: u64 = 512;
/// How many bytes the picture has room for.
const ROOM: u64 = 640;

/// How far from above so many bytes stand.
pub(crate) fn y_of(bytes: u64) -> u64 {
    let height = bytes.min(ROOM).saturating_mul(LEVELS_HEIGHT) / ROOM;
    (LEVELS + LEVELS_HEIGHT).saturating_sub(height)
}

/// Draws the highest level of a service's transport buffers behind its packets, from one piece that has some to the next.
fn print_curve<W: Write>(record: &Record, kind: usize, out: &mut W) -> io::Result<()> {
    let colour = colour(record.kinds().service(kind), kind);
    write!(out, "<polyline fill=\"none\" stroke=\"{colour}\" points=\"")?;
    for piece in 0..record.pieces() {
        if record.packets_of(piece, kind) > 0 {
            let y = y_of(record.highest_of(piece, kind));
            let (left, right) = edges(record, piece);
            write!(out, "{left},{y} {right},{y} ")?;
        }
    }
    writeln!(out, "\"/>")
}

/// Draws the levels of the services' transport buffers, and the line that none may pass.
pub(crate) fn print_curves<W: Write>(record: &Record, out: &mut W) -> io::Result<()> {
    for kind in 0..record.kinds().count() {
        if record.kinds().service(kind).is_some() {
            print_curve(record, kind, out)?;
        }
    }
    let (y, right) = (y_of(HOLDS), LEFT + PLOT);
    writeln!(
        out,
        "<line x1=\"{LEFT}\" y1=\"{y}\" x2=\"{right}\" y2=\"{y}\" stroke=\"#d62728\" stroke-dasharray=\"6 3\"/>"
    )?;
    let (end, text) = (right - 6, y.saturating_sub(6));
    writeln!(
        out,
        "<text x=\"{end}\" y=\"{text}\" text-anchor=\"end\" fill=\"#d62728\">512 bytes, all that is allowed</text>"
    )
}
