//! The key of a plan's text that is at fault, and its line.

use crate::headers::header_line;
use crate::key_fault::KeyFault;
use crate::key_lines::{named_line, only_line};
use crate::tables::tables_of;
use std::alloc::{AllocError, Global};

/// A key that is at fault.
#[derive(Clone, Copy, Debug)]
pub(crate) struct WrongKey<'a> {
    /// What is wrong with it.
    pub fault: KeyFault,
    /// The list of tables one of which is at fault, as `input` or `service.stream`; none at the top.
    pub list: Option<&'a str>,
    /// Its name.
    pub key: &'a str,
}

/// What stands between these words and the next backquote.
fn quoted<'a>(text: &'a str, before: &str) -> Option<&'a str> {
    let (name, _) = text.strip_prefix(before)?.split_once("`")?;
    Some(name)
}

/// Where the key is, by the second line that the reader of the keys says: its list, or its list and its name; none at the top.
fn path_of(lines: &str) -> Option<&str> {
    let (_, second) = lines.trim_end().split_once("\n")?;
    second.strip_prefix("in `")?.strip_suffix("`")
}

impl<'a> WrongKey<'a> {
    /// The key that the reader of the keys names, by its message and all its lines; none where it names none.
    pub fn read(message: &'a str, lines: &'a str) -> Option<WrongKey<'a>> {
        let path = path_of(lines);
        let (fault, list, key) = if let Some(key) = quoted(message, "missing field `") {
            (KeyFault::Missing, path, key)
        } else if let Some(key) = quoted(message, "unknown field `") {
            (KeyFault::Unknown, path, key)
        } else {
            let fault = KeyFault::of_type(message)?;
            match path?.rsplit_once(".") {
                Some((list, key)) => (fault, Some(list), key),
                None => (fault, None, path?),
            }
        };
        Some(WrongKey { fault, list, key })
    }

    /// Its line in a text, from 1; that of the header of its table where it is missing. None where it isn't known.
    pub fn line(&self, alloc: Global, text: &str) -> Result<Option<usize>, AllocError> {
        let header = match self.list {
            Some(list) => self.table_line(alloc, text, list)?,
            None => Some(0),
        };
        if self.fault == KeyFault::Missing {
            return Ok(header);
        }
        match header {
            Some(header) => Ok(named_line(text, header, self.list, self.key)),
            None => Ok(only_line(text, self.key)),
        }
    }

    /// The line of the header of the first table of a list that has this fault.
    fn table_line(
        &self,
        alloc: Global,
        text: &str,
        list: &str,
    ) -> Result<Option<usize>, AllocError> {
        let Ok(table) = toml::table_from_str(alloc, text) else {
            return Ok(None);
        };
        let tables = tables_of(alloc, &table, list)?;
        match tables
            .iter()
            .position(|table| self.fault.is_in(table, self.key))
        {
            Some(number) => Ok(header_line(text, list, number, tables.len())),
            None => Ok(None),
        }
    }
}
