//! The picture of a run.

use crate::bar::Bar;
use crate::bars::print_bars;
use crate::canvas::{
    BAR_HEIGHT, BARS, LEFT, LEVELS, LEVELS_HEIGHT, PLOT, SHARES, SHARES_HEIGHT, WIDTH,
};
use crate::curves::{print_curves, y_of};
use crate::record::Record;
use crate::shares::print_shares;
use crate::times::{is_long, print_time, time_of};
use std::io;
use std::io::Write;

/// What is said of the transport buffers.
const NEAR: &str =
    "A curve close to 512 is no fault: a packet may go as soon as its buffer has room for it. Above 512 a receiver would lose bytes.";

/// How many round numbers a scale has at most, beside its beginning.
const MARKS: u64 = 8;

/// The step of a scale up to this number: of 1, 2 and 5 times a power of ten the least of which at most so many fit.
fn step_of(all: u128) -> u128 {
    let mut power = 1u128;
    for _ in 0..38 {
        for factor in [1u128, 2, 5] {
            let step = power.saturating_mul(factor);
            if all <= step.saturating_mul(u128::from(MARKS)) {
                return step;
            }
        }
        power = power.saturating_mul(10);
    }
    power
}

/// Says above all how fast the multiplex is, and how long the run.
fn print_heading<W: Write>(record: &Record, out: &mut W) -> io::Result<()> {
    let rate = record.rate() / 1_000;
    write!(
        out,
        "<text x=\"{LEFT}\" y=\"22\" font-size=\"16\">A multiplex of {rate} kbit/s, "
    )?;
    print_time(record, record.slots(), out)?;
    writeln!(out, "</text>")
}

/// Begins the picture, with so many bars.
fn print_head<W: Write>(bars: usize, out: &mut W) -> io::Result<()> {
    let height = (bars as u64)
        .saturating_mul(BAR_HEIGHT)
        .saturating_add(BARS + 20);
    writeln!(
        out,
        "<svg xmlns=\"http://www.w3.org/2000/svg\" viewBox=\"0 0 {WIDTH} {height}\" font-family=\"sans-serif\" font-size=\"11\">"
    )?;
    writeln!(
        out,
        "<rect width=\"{WIDTH}\" height=\"{height}\" fill=\"white\"/>"
    )
}

/// Writes what is shown below.
fn print_title<W: Write>(y: u64, title: &str, out: &mut W) -> io::Result<()> {
    writeln!(
        out,
        "<text x=\"{LEFT}\" y=\"{y}\" font-size=\"14\">{title}</text>"
    )
}

/// Draws the frame of a part, so far from above and so high.
fn print_frame<W: Write>(y: u64, height: u64, out: &mut W) -> io::Result<()> {
    writeln!(
        out,
        "<rect x=\"{LEFT}\" y=\"{y}\" width=\"{PLOT}\" height=\"{height}\" fill=\"none\" stroke=\"black\"/>"
    )
}

/// Writes a number at the left of a frame.
fn print_mark<W: Write>(y: u128, mark: &str, number: u128, out: &mut W) -> io::Result<()> {
    let (x, text) = (LEFT - 6, y.saturating_add(4));
    writeln!(
        out,
        "<text x=\"{x}\" y=\"{text}\" text-anchor=\"end\">{number}{mark}</text>"
    )
}

/// Writes the times below a frame, at round numbers of milliseconds, or of seconds of a long run.
fn print_times<W: Write>(record: &Record, y: u64, out: &mut W) -> io::Result<()> {
    let all = time_of(record, record.slots());
    let step = step_of(all);
    for mark in 0..=MARKS {
        let time = step.saturating_mul(u128::from(mark));
        if time <= all {
            let along = time.saturating_mul(u128::from(PLOT));
            let x = along
                .checked_div(all)
                .unwrap_or(0)
                .saturating_add(u128::from(LEFT));
            write!(out, "<text x=\"{x}\" y=\"{y}\" text-anchor=\"middle\">")?;
            if is_long(record) {
                let seconds = time / 1_000;
                writeln!(out, "{seconds} s</text>")?;
            } else {
                writeln!(out, "{time} ms</text>")?;
            }
        }
    }
    Ok(())
}

/// Writes the rates at the left of the shares, at round numbers, up to that of the multiplex.
fn print_rates<W: Write>(record: &Record, out: &mut W) -> io::Result<()> {
    let all = u128::from(record.rate() / 1_000);
    let step = step_of(all);
    for mark in 0..=MARKS {
        let rate = step.saturating_mul(u128::from(mark));
        if rate <= all {
            let up = rate.saturating_mul(u128::from(SHARES_HEIGHT));
            let height = up.checked_div(all).unwrap_or(0);
            let y = u128::from(SHARES + SHARES_HEIGHT).saturating_sub(height);
            print_mark(y, " kbit/s", rate, out)?;
        }
    }
    Ok(())
}

/// Draws what of the multiplex each service has.
fn print_first<W: Write>(record: &Record, out: &mut W) -> io::Result<()> {
    print_title(SHARES - 12, "The multiplex, by service, over time", out)?;
    print_shares(record, out)?;
    print_frame(SHARES, SHARES_HEIGHT, out)?;
    print_rates(record, out)?;
    print_times(record, SHARES + SHARES_HEIGHT + 14, out)
}

/// Draws how full the transport buffers are.
fn print_second<W: Write>(record: &Record, out: &mut W) -> io::Result<()> {
    let title =
        "The fullest transport buffer of each service, in bytes: 512 are allowed, and never passed";
    print_title(LEVELS - 12, title, out)?;
    print_curves(record, out)?;
    print_frame(LEVELS, LEVELS_HEIGHT, out)?;
    print_mark(u128::from(y_of(512)), "", 512, out)?;
    print_mark(u128::from(y_of(256)), "", 256, out)?;
    print_mark(u128::from(y_of(0)), "", 0, out)?;
    print_times(record, LEVELS + LEVELS_HEIGHT + 14, out)?;
    let y = LEVELS + LEVELS_HEIGHT + 34;
    writeln!(out, "<text x=\"{LEFT}\" y=\"{y}\">{NEAR}</text>")
}

/// Draws a run: what of its multiplex each service has over time, how full the transport buffers are, and the longest delay of each
/// stream.
pub fn print_picture<W: Write>(record: &Record, bars: &[Bar], out: &mut W) -> io::Result<()> {
    print_head(bars.len(), out)?;
    print_heading(record, out)?;
    print_first(record, out)?;
    print_second(record, out)?;
    print_title(BARS - 12, "The longest delay of each stream", out)?;
    print_bars(record, bars, out)?;
    writeln!(out, "</svg>")
}
