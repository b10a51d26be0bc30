//! Numbers in words.

use anyhow::{Result, bail};
use std::alloc::Global;

/// A number, in decimal digits.
pub fn number(word: &str) -> Result<u64> {
    match word.trim().parse::<u64>() {
        Ok(number) => Ok(number),
        Err(_) => bail!("{word} is no number"),
    }
}

/// A number of 16 bits.
pub fn sixteen_bits(word: &str) -> Result<u16> {
    match word.trim().parse::<u16>() {
        Ok(number) => Ok(number),
        Err(_) => bail!("{word} is no number of 16 bits"),
    }
}

/// Numbers with commas between them, or `-` for none.
pub fn numbers(alloc: Global, words: &str) -> Result<Vec<u64>> {
    let mut all = Vec::new(alloc);
    if words.trim() == "-" {
        return Ok(all);
    }
    for word in words.split(',') {
        all.push(number(word)?)?;
    }
    Ok(all)
}

/// The first word of these, and those behind it.
pub fn first_word<'a>(words: &'a str) -> (&'a str, &'a str) {
    words.split_once(' ').unwrap_or((words, ""))
}
