//! Times in a picture.

use crate::record::Record;
use std::io;
use std::io::Write;

/// The bits of a slot.
const SLOT: u64 = 1_504;

/// The milliseconds of a second.
pub(crate) const SECOND: u128 = 1_000;

/// The milliseconds of a run above which times are in seconds.
const LONG: u128 = 10_000;

/// How long so many slots of a run take, in milliseconds, rounded down.
pub(crate) fn time_of(record: &Record, slots: u64) -> u128 {
    let bits = u128::from(slots) * u128::from(SLOT);
    (bits * 1_000)
        .checked_div(u128::from(record.rate()))
        .unwrap_or(0)
}

/// Whether a run is so long that its times are in seconds.
pub(crate) fn is_long(record: &Record) -> bool {
    time_of(record, record.slots()) > LONG
}

/// Writes how long so many slots of a run take, in milliseconds, or of a long run in tenths of a second.
pub(crate) fn print_time<W: Write>(record: &Record, slots: u64, out: &mut W) -> io::Result<()> {
    let time = time_of(record, slots);
    if is_long(record) {
        let (seconds, tenth) = (time / 1_000, time / 100 % 10);
        write!(out, "{seconds}.{tenth} s")
    } else {
        write!(out, "{time} ms")
    }
}
