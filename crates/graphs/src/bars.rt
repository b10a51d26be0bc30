//! How long the packets of each stream waited, drawn as bars.

use crate::bar::Bar;
use crate::canvas::{BAR_HEIGHT, BARS, LEFT, PLOT, colour};
use crate::record::Record;
use std::io;
use std::io::Write;

/// Ticks of 27 MHz in a tenth of a millisecond.
const TENTH: u64 = 2_700;

/// The longest delay.
fn longest(bars: &[Bar]) -> u64 {
    let mut longest = 0;
    for bar in bars {
        longest = bar.delay.max(longest);
    }
    longest
}

/// Draws the bar with this number, where the longest has such a delay.
fn print_bar<W: Write>(
    record: &Record,
    number: usize,
    bar: &Bar,
    longest: u64,
    out: &mut W,
) -> io::Result<()> {
    let kind = record.kinds().kind(bar.pid).unwrap_or(0);
    let colour = colour(record.kinds().service(kind), kind);
    let y = (number as u64)
        .saturating_mul(BAR_HEIGHT)
        .saturating_add(BARS);
    let part = u128::from(bar.delay) * u128::from(PLOT - 100);
    let width = part.checked_div(u128::from(longest)).unwrap_or(0);
    let text = y.saturating_add(10);
    let pid = bar.pid;
    let (whole, tenth) = (bar.delay / TENTH / 10, bar.delay / TENTH % 10);
    let (name, behind) = (LEFT - 6, width.saturating_add(u128::from(LEFT + 6)));
    write!(out, "<text x=\"{name}\" y=\"{text}\" text-anchor=\"end\">")?;
    if let Some(number) = record.kinds().service(kind) {
        write!(out, "{number}: ")?;
    }
    writeln!(out, "0x{pid:04X}</text>")?;
    write!(
        out,
        "<rect x=\"{LEFT}\" y=\"{y}\" width=\"{width}\" height=\"12\" fill=\"{colour}\"/>"
    )?;
    writeln!(
        out,
        "<text x=\"{behind}\" y=\"{text}\">{whole}.{tenth} ms</text>"
    )
}

/// Draws the bars of all streams.
pub(crate) fn print_bars<W: Write>(record: &Record, bars: &[Bar], out: &mut W) -> io::Result<()> {
    let longest = longest(bars);
    for (number, bar) in bars.iter().enumerate() {
        print_bar(record, number, bar, longest, out)?;
    }
    Ok(())
}
