//! Plans in words.

use anyhow::Result;
use example::{PLAN, planned, service, tables};
use plan::Plan;
use std::alloc::{AllocError, Global};

/// A second input.
const INPUT: &str = "[[input]]
file = \"x.ts\"
rate = 1504000
offset = 0
";

/// The value that words as `version=1 out=514` give to a name, if they do.
fn value_of<'a>(words: &'a str, name: &str) -> Option<&'a str> {
    for word in words.split_ascii_whitespace() {
        if let Some((key, value)) = word.split_once('=')
            && key == name
        {
            return Some(value);
        }
    }
    None
}

/// The key of a line of a plan's text; the line itself where it has none.
fn key_of(line: &str) -> &str {
    match line.split_once(" = ") {
        Some((key, _)) => key,
        None => line,
    }
}

/// The example's text, with `size=N` for its input, with a second input at `inputs=2`, and with a second service, which is one of the second
/// input, at `services=2`.
fn base(alloc: Global, words: &str) -> Result<String, AllocError> {
    let mut text = String::new(alloc);
    for line in PLAN.lines() {
        text.push_str(line)?;
        text.push('\n')?;
        if key_of(line) == "file"
            && let Some(size) = value_of(words, "size")
        {
            text.push_str("size = ")?;
            text.push_str(size)?;
            text.push('\n')?;
        }
        if key_of(line) == "offset" && value_of(words, "inputs") == Some("2") {
            text.push_str(INPUT)?;
        }
    }
    if value_of(words, "services") == Some("2") {
        text.push_str(&service(alloc, 1, 1, 100, 257)?)?;
    }
    Ok(text)
}

/// The name that a line of this key goes by where so many lines before have the key: `rate` is the first, and `rate2` the second.
fn name_of(alloc: Global, key: &str, before: usize) -> Result<String, AllocError> {
    if before == 0 {
        format!(in alloc; "{key}")
    } else {
        let number = before.saturating_add(1);
        format!(in alloc; "{key}{number}")
    }
}

/// How many of the first so many lines of a text have a key.
fn times(text: &str, count: usize, key: &str) -> usize {
    text.lines()
        .take(count)
        .filter(|line| key_of(line) == key)
        .count()
}

/// The example's plan with the values that words as `version=1 out=514` give.
pub fn plan_with(alloc: Global, words: &str) -> Result<Plan> {
    let base = base(alloc, words)?;
    let mut text = String::new(alloc);
    for (number, line) in base.lines().enumerate() {
        let key = key_of(line);
        let name = name_of(alloc, key, times(&base, number, key))?;
        match value_of(words, &name) {
            Some(value) => {
                text.push_str(key)?;
                text.push_str(" = ")?;
                text.push_str(value)?;
            }
            None => text.push_str(line)?,
        }
        text.push('\n')?;
    }
    planned(alloc, &text, &tables(alloc)?)
}
