//! Why a text is no plan.

ghost use Rattle.std.specs.Prelude.{◌≡◌, ◌≤◌, ◌==◌, length};
ghost use Rattle.std.specs.List.{count_by};
ghost use Rattle.text_causes.specs.Lines.{line_of};

use crate::headers::{MistakenHeader, mistaken_header};
use crate::hex_digits::digits_cause;
use crate::key_fault::KeyFault;
use crate::key_lines::top_key_line;
use crate::missing::missing_words;
use crate::plan_keys::PlanKeys;
use crate::wrong_key::WrongKey;
use std::alloc::{AllocError, Global};

/// How many lines end in these bytes.
fn lines_ended(bytes: &[u8]) -> usize
    ensures value { result ≡ count_by (λ byte. byte == 10) bytes.now }
    ensures bound { result ≤ length bytes.now }
{
    bytes.iter().filter(|byte| **byte == b'\n').count()
}

/// The line, from 1, that the byte at this place stands in.
fn line_at(bytes: &[u8], place: usize) -> usize
    requires { place ≤ length bytes.now }
    ensures { result ≡ line_of bytes.now place }
{
    1 + lines_ended(&bytes[..place])
}

/// The line at which a text is no TOML, and why; none where it is.
fn syntax_cause(alloc: Global, text: &str) -> Result<Option<String>, AllocError> {
    match toml::table_from_str(alloc, text) {
        Ok(_) => Ok(None),
        Err(error) => match error.span() {
            Some(span) => {
                let (line, message) = (line_at(text.as_bytes(), span.start), error.message());
                Ok(Some(format!(in alloc; "line {line}: {message}")?))
            }
            None => Err(AllocError),
        },
    }
}

/// Words with their line in front, if it is known.
fn with_line(alloc: Global, line: Option<usize>, words: &str) -> Result<String, AllocError> {
    match line {
        Some(line) => format!(in alloc; "line {line}: {words}"),
        None => String::from_str(alloc, words),
    }
}

/// What is said of a key that is missing, unknown or of another type, by the message of the reader of the keys and all its lines.
fn key_words(alloc: Global, text: &str, message: &str, lines: &str) -> Result<String, AllocError> {
    let words = lines.trim_end().replace(alloc, "\n", " ")?;
    let Some(wrong) = WrongKey::read(message, lines) else {
        return Ok(words);
    };
    let line = wrong.line(alloc, text)?;
    match wrong.fault {
        KeyFault::Missing => missing_words(alloc, wrong.list, wrong.key, line),
        _ => with_line(alloc, line, &words),
    }
}

/// What is wrong with `transport_descriptors`, whose value are these digits, in words; none where nothing is.
fn descriptors_cause(
    alloc: Global,
    text: &str,
    digits: &str,
) -> Result<Option<String>, AllocError> {
    let Some(cause) = digits_cause(alloc, digits)? else {
        return Ok(None);
    };
    let words = format!(in alloc; "transport_descriptors {cause}")?;
    Ok(Some(with_line(alloc, top_key_line(text, "transport_descriptors"), &words)?))
}

/// What is wrong with the keys of a text, in words; none where each is as it should be.
fn key_cause(alloc: Global, text: &str) -> Result<Option<String>, AllocError> {
    match toml::from_str::<PlanKeys>(alloc, text) {
        Ok(keys) => descriptors_cause(alloc, text, &keys.transport_descriptors),
        Err(error) => {
            let lines = format!(in alloc; "{error}")?;
            Ok(Some(key_words(alloc, text, error.message(), &lines)?))
        }
    }
}

/// Why a text that is no plan is none: a header that is written in the place of another one goes before what is said of the text.
fn with_header(alloc: Global, text: &str, cause: String) -> Result<String, AllocError> {
    match mistaken_header(text) {
        Some((line, MistakenHeader { written, meant })) => {
            format!(in alloc; "line {line}: {meant} is meant where {written} stands")
        }
        None => Ok(cause),
    }
}

/// Why a text is no plan: a header that is written in the place of another one, as `[input]` in that of `[[input]]`; else the line at
/// which it is no TOML; the key that is missing, with the line of the header of its table; the key that is unknown or of another type,
/// with its line; or the hex digits that are wrong. The line is left out where it isn't known. None where nothing is wrong with the
/// keys.
pub fn text_cause(alloc: Global, text: &str) -> Result<Option<String>, AllocError> {
    let found = match syntax_cause(alloc, text)? {
        Some(cause) => Some(cause),
        None => key_cause(alloc, text)?,
    };
    match found {
        Some(cause) => Ok(Some(with_header(alloc, text, cause)?)),
        None => Ok(None),
    }
}

/// Why these bytes are no text: the line of the first one that isn't UTF-8, in words. None where they are a text.
pub fn bytes_cause(alloc: Global, bytes: &[u8]) -> Result<Option<String>, AllocError> {
    let Err(error) = str::from_utf8(bytes) else {
        return Ok(None);
    };
    let place = error.valid_up_to();
    let Some(byte) = bytes.get(place) else {
        return Ok(None);
    };
    let line = line_at(bytes, place);
    Ok(Some(format!(in alloc; "line {line}: it is no UTF-8 text, from byte 0x{byte:02X} on")?))
}
