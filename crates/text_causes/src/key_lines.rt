//! The lines of keys.

use crate::headers::{header_behind, header_line, is_header};

/// Whether a line gives this key its value, as `rate = 5` does.
fn has_key(line: &str, key: &str) -> bool {
    match line.trim_start().strip_prefix(key) {
        Some(rest) => rest.trim_start().starts_with("="),
        None => false,
    }
}

/// The line, from 1, that gives this key its value, behind the line with this number and in front of the next header. None
/// where no line does, or several do: then some stand in a text.
fn line_behind(text: &str, header: usize, key: &str) -> Option<usize> {
    let mut found = None;
    let mut line = 0usize;
    for content in text.lines() {
        line = line.saturating_add(1);
        if header < line && is_header(content) {
            return found;
        }
        if header < line && has_key(content, key) {
            if found.is_some() {
                return None;
            }
            found = Some(line);
        }
    }
    found
}

/// The line, from 1, that gives this key its value, in whatever table. None where no line does, or several do.
pub(crate) fn only_line(text: &str, key: &str) -> Option<usize> {
    let mut found = None;
    let mut line = 0usize;
    for content in text.lines() {
        line = line.saturating_add(1);
        if has_key(content, key) {
            if found.is_some() {
                return None;
            }
            found = Some(line);
        }
    }
    found
}

/// The line, from 1, at which a key stands at the top of a plan's text, in front of its tables. None where it isn't known.
pub fn top_key_line(text: &str, key: &str) -> Option<usize> {
    line_behind(text, 0, key)
}

/// The line, from 1, at which a key stands in the table with this number, from 0, of a list, as `input` or `service.stream`,
/// which has `total` tables. None where it isn't known: where the tables have no headers of their own.
pub fn key_line(text: &str, list: &str, number: usize, total: usize, key: &str) -> Option<usize> {
    line_behind(text, header_line(text, list, number, total)?, key)
}

/// The line, from 1, at which a key stands in the table of a list whose header has this line, or at the top for line 0: where it
/// is given its value, or its first header, as `[[inputs]]`. None where it isn't known.
pub(crate) fn named_line(
    text: &str,
    header: usize,
    list: Option<&str>,
    key: &str,
) -> Option<usize> {
    match line_behind(text, header, key) {
        Some(line) => Some(line),
        None => header_behind(text, header, list, key),
    }
}
