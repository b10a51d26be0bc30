//! Calls on transport buffers and on queues.

use crate::numbers::{first_word, number};
use anyhow::{Result, bail};
use buffers::{Bucket, PidQueue};
use std::alloc::Global;
use std::io;
use std::io::Write;
use tspkt::Stamped;

/// The next slot carries a packet of the buffer, where one is wanted and it fits, or else another one. Whether it carried its own.
fn goes_on(bucket: &mut Bucket, is_wanted: bool) -> bool {
    if is_wanted && bucket.fits() {
        bucket.send();
        true
    } else {
        bucket.idle();
        false
    }
}

/// Prints what a word does: `+` is a slot for a packet of the buffer, `-` one for another, each as often as stands behind `*`: how many
/// packets went into it, and the level then. `>N` is the level N slots later, in which nothing comes.
fn print_word<W: Write>(bucket: &mut Bucket, word: &str, out: &mut W) -> io::Result<()> {
    if let Some(slots) = word.strip_prefix('>') {
        let level = bucket.after(slots.parse::<u64>().unwrap_or(0)).level();
        return write!(out, "later {level};");
    }
    let (kind, times) = word.split_once('*').unwrap_or((word, "1"));
    let mut went = 0_u16;
    for _ in 0..times.parse::<u16>().unwrap_or(0) {
        went = went.saturating_add(u16::from(goes_on(bucket, kind == "+")));
    }
    write!(out, "{went} of {times} {};", bucket.level())
}

/// `buffer LEAK RATE WORD ..`: a buffer that leaks so many bits a second, in a multiplex of so many; levels are in bytes times that rate.
pub fn buffered<W: Write>(words: &str, out: &mut W) -> Result<()> {
    let (leak, words) = first_word(words);
    let (rate, words) = first_word(words);
    let (leak, rate) = (number(leak)?, number(rate)?);
    if leak < 1 || leak > 100_000_000 || rate < 500_000 || rate > 100_000_000 {
        bail!("a leak or a rate out of its range");
    }
    let mut bucket = Bucket::new(leak, rate);
    for word in words.split_ascii_whitespace() {
        print_word(&mut bucket, word, out)?;
    }
    Ok(())
}

/// Prints what a queue answers: `+T` offers a packet of that time, `?T` asks for one that is due then, and `-` takes one.
fn print_answer<W: Write>(queue: &mut PidQueue, word: &str, out: &mut W) -> io::Result<()> {
    let stamp = word
        .get(1..)
        .unwrap_or("")
        .parse::<u64>()
        .unwrap_or(u64::MAX);
    let packet = tspkt::null();
    if word.starts_with('+') {
        let back = queue.offer(Stamped { packet, stamp }).err();
        let back = back.map(|item| item.stamp);
        write!(out, "back {back:?}")?;
    } else if word.starts_with('?') {
        write!(out, "due {:?}", queue.first_due(stamp))?;
    } else {
        let taken = queue.take().map(|item| item.stamp);
        write!(out, "taken {taken:?}")?;
    }
    let head = queue.head().map(|item| item.stamp);
    write!(out, " head {head:?} of {};", queue.len())
}

/// `queue CAPACITY WORD ..`: a queue with room for so many packets; a time that isn't written is the greatest there is.
pub fn queued<W: Write>(alloc: Global, words: &str, out: &mut W) -> Result<()> {
    let (capacity, words) = first_word(words);
    let capacity = number(capacity)?;
    if capacity < 1 || capacity > 1_024 {
        bail!("a capacity out of its range");
    }
    let mut queue = PidQueue::with_capacity(alloc, capacity as usize)?;
    for word in words.split_ascii_whitespace() {
        print_answer(&mut queue, word, out)?;
    }
    Ok(())
}
