//! Text in a table.

use std::fmt::{Display, Formatter};
use std::{fmt, str};

/// The byte in front of text in UTF-8.
const UTF_8: u8 = 0x15;

/// Text as a descriptor has it (EN 300 468, annex A): bytes, in front of which a byte below 0x20 may say in which characters they
/// are. Printed, text in UTF-8 is as it is, but for control characters; of other text the letters of ASCII are, and another
/// character is a `?`; so is each of a set of two bytes a character.
#[derive(Clone, Copy)]
pub struct DvbText<'a>(pub &'a [u8]);

/// The text behind what selects its characters.
fn behind_selector(bytes: &[u8]) -> &[u8] {
    match bytes {
        [0x10, _, _, text @ ..] => text,
        [0x1F, _, text @ ..] => text,
        [0x01..=0x1E, text @ ..] => text,
        _ => bytes,
    }
}

/// Prints the characters of a text that are none of control.
fn print_chars<W: fmt::Write>(text: &str, f: &mut Formatter<W>) -> fmt::Result {
    for c in text.chars() {
        if !c.is_control() && !matches!(c, '\u{E080}'..='\u{E09F}') {
            f.write_char(c)?;
        }
    }
    Ok(())
}

/// Prints a byte of text that isn't in UTF-8: none of control (EN 300 468, table A.1).
fn print_byte<W: fmt::Write>(byte: u8, f: &mut Formatter<W>) -> fmt::Result {
    match byte {
        0x20..=0x7E => f.write_char(char::from(byte)),
        0x00..=0x1F | 0x7F..=0x9F => Ok(()),
        _ => f.write_char('?'),
    }
}

/// Prints a `?` for each character of text in a set of two bytes a character (EN 300 468, table A.3).
fn print_pairs<W: fmt::Write>(text: &[u8], f: &mut Formatter<W>) -> fmt::Result {
    for _ in 0..text.len() / 2 {
        f.write_char('?')?;
    }
    Ok(())
}

impl Display for DvbText<'_> {
    fn fmt<W: fmt::Write>(&self, f: &mut Formatter<W>) -> fmt::Result {
        let text = behind_selector(self.0);
        if self.0.first() == Some(&UTF_8)
            && let Ok(text) = str::from_utf8(text)
        {
            return print_chars(text, f);
        }
        if let Some(0x11..=0x14) = self.0.first() {
            return print_pairs(text, f);
        }
        for byte in text {
            print_byte(*byte, f)?;
        }
        Ok(())
    }
}
