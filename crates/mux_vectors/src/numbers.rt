//! Numbers in words.

use anyhow::{Result, bail};
use std::alloc::Global;

/// The numbers that stand behind a call, in decimal digits with blanks between them.
pub fn numbers(alloc: Global, words: &str) -> Result<Vec<u64>> {
    let mut all = Vec::new(alloc);
    for word in words.split_ascii_whitespace() {
        match word.parse::<u64>() {
            Ok(number) => all.push(number)?,
            Err(_) => bail!("{word} is no number"),
        }
    }
    Ok(all)
}

/// The number at a place, from 0.
pub fn at(numbers: &[u64], place: usize) -> Result<u64> {
    match numbers.get(place) {
        Some(number) => Ok(*number),
        None => bail!("a number is missing"),
    }
}

/// The same as a number of inputs, streams or packets.
pub fn count_at(numbers: &[u64], place: usize) -> Result<usize> {
    Ok(at(numbers, place)? as usize)
}
