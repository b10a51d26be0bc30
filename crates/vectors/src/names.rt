//! Bytes in words.

use anyhow::{Result, bail};
use std::alloc::Global;

/// Bytes with a name.
#[derive(Drop)]
struct Named {
    name: String,
    bytes: Vec<u8>,
}

/// Names of bytes.
#[derive(Drop)]
pub struct Names {
    alloc: Global,
    all: Vec<Named>,
}

impl Names {
    /// None yet.
    pub fn new(alloc: Global) -> Names {
        Names {
            alloc,
            all: Vec::new(alloc),
        }
    }

    /// Names the bytes of these words. A name is given once.
    pub fn add(&mut self, name: &str, words: &str) -> Result<()> {
        for named in &self.all {
            if named.name.as_str() == name {
                bail!("{name} is named twice");
            }
        }
        let alloc = self.alloc;
        let bytes = self.bytes(words)?;
        let name = format!(in alloc; "{name}")?;
        self.all.push(Named { name, bytes })?;
        Ok(())
    }

    /// The bytes that these words say, one behind the other. A word is a name or hex digits, and may be said so many times, as in
    /// `AA*184`.
    pub fn bytes(&self, words: &str) -> Result<Vec<u8>> {
        let mut bytes = Vec::new(self.alloc);
        for word in words.split_ascii_whitespace() {
            self.add_word(word, &mut bytes)?;
        }
        Ok(bytes)
    }

    /// Adds the bytes of a word.
    fn add_word(&self, word: &str, bytes: &mut Vec<u8>) -> Result<()> {
        let (word, times) = word.split_once('*').unwrap_or((word, "1"));
        let Ok(times) = times.parse::<u16>() else {
            bail!("{word} is said {times} times");
        };
        let part = self.part(word)?;
        for _ in 0..times {
            bytes.extend_from_slice(&part)?;
        }
        Ok(())
    }

    /// The bytes of a name or of hex digits.
    fn part(&self, word: &str) -> Result<Vec<u8>> {
        for named in &self.all {
            if named.name.as_str() == word {
                return Ok(named.bytes.to_vec(self.alloc)?);
            }
        }
        match hex::decode(self.alloc, word.as_bytes()) {
            Ok(bytes) => Ok(bytes),
            Err(_) => bail!("{word} is neither a name nor hex digits"),
        }
    }
}
