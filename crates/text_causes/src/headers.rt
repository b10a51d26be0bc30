//! The lines of the headers of tables.

/// The name in a line that is the header of a table of a list, as `input` in `[[input]]`.
fn header_name(line: &str) -> Option<&str> {
    let (name, rest) = line.trim().strip_prefix("[[")?.split_once("]]")?;
    let rest = rest.trim_start();
    if rest.is_empty() || rest.starts_with("#") {
        Some(name.trim())
    } else {
        None
    }
}

/// Whether a line is a header of any kind, or goes on with a list.
pub(crate) fn is_header(line: &str) -> bool {
    line.trim_start().starts_with("[")
}

/// The line, from 1, of the header with this number, from 0, among those with this name. None where the text has another
/// number of them than `total`: then some stand in a text, or some tables have no header.
pub(crate) fn header_line(text: &str, name: &str, number: usize, total: usize) -> Option<usize> {
    let mut found = None;
    let (mut headers, mut line) = (0usize, 0usize);
    for content in text.lines() {
        line = line.saturating_add(1);
        if header_name(content) == Some(name) {
            if headers == number {
                found = Some(line);
            }
            headers = headers.saturating_add(1);
        }
    }
    if headers == total { found } else { None }
}

/// The path in a line that is the header of a table, alone or of a list.
fn header_path(line: &str) -> Option<&str> {
    let inner = line.trim_start().strip_prefix("[")?;
    let inner = inner.strip_prefix("[").unwrap_or(inner);
    let (path, _) = inner.split_once("]")?;
    Some(path.trim())
}

/// Whether a path goes through this key of the tables of a list, or of the top.
fn goes_through(path: &str, list: Option<&str>, key: &str) -> Option<bool> {
    let inner = match list {
        Some(list) => path.strip_prefix(list)?.strip_prefix(".")?,
        None => path,
    };
    let rest = inner.strip_prefix(key)?;
    Some(rest.is_empty() || rest.starts_with("."))
}

/// The first line, from 1, behind the line with this number, that is a header of what this key of the tables of a list has, or
/// of the top, as `[[inputs]]`, `[inputs]` or `[inputs.more]`.
pub(crate) fn header_behind(
    text: &str,
    line: usize,
    list: Option<&str>,
    key: &str,
) -> Option<usize> {
    let mut number = 0usize;
    for content in text.lines() {
        number = number.saturating_add(1);
        if line < number
            && let Some(path) = header_path(content)
            && goes_through(path, list, key) == Some(true)
        {
            return Some(number);
        }
    }
    None
}

/// A header that is written in the place of another one, and that one.
#[derive(Clone, Copy)]
pub(crate) struct MistakenHeader {
    pub written: &'static str,
    pub meant: &'static str,
}

/// One of these.
fn mistaken(written: &'static str, meant: &'static str) -> Option<MistakenHeader> {
    Some(MistakenHeader { written, meant })
}

/// The header in a line, where it is written in the place of another one.
fn mistaken_in(line: &str) -> Option<MistakenHeader> {
    let (header, _) = line.split_once("#").unwrap_or((line, ""));
    match header.trim() {
        "[input]" => mistaken("[input]", "[[input]]"),
        "[service]" => mistaken("[service]", "[[service]]"),
        "[service.stream]" => mistaken("[service.stream]", "[[service.stream]]"),
        "[stream]" => mistaken("[stream]", "[[service.stream]]"),
        "[[stream]]" => mistaken("[[stream]]", "[[service.stream]]"),
        _ => None,
    }
}

/// The first line, from 1, whose header is written in the place of another one, and that header.
pub(crate) fn mistaken_header(text: &str) -> Option<(usize, MistakenHeader)> {
    let mut number = 0usize;
    for content in text.lines() {
        number = number.saturating_add(1);
        if let Some(header) = mistaken_in(content) {
            return Some((number, header));
        }
    }
    None
}
