//! What is said of a key that a plan's text lacks.

use std::alloc::{AllocError, Global};

/// What is said of a key that is missing at the top.
fn missing_at_top(alloc: Global, key: &str) -> Result<String, AllocError> {
    match key {
        "input" | "service" => format!(in alloc; "no [[{key}]]"),
        _ => format!(in alloc; "missing key '{key}' at the top, in front of the first [[..]]"),
    }
}

/// What is said of a key that is missing, in a table of this list or at the top, and whose table's header has this line, if it is
/// known.
pub(crate) fn missing_words(
    alloc: Global,
    list: Option<&str>,
    key: &str,
    line: Option<usize>,
) -> Result<String, AllocError> {
    let Some(list) = list else {
        return missing_at_top(alloc, key);
    };
    match line {
        Some(line) => format!(in alloc; "line {line}: missing key '{key}'"),
        None => format!(in alloc; "missing key '{key}' in a [[{list}]]"),
    }
}
