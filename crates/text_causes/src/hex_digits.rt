//! Hex digits that stand for no bytes.

use std::alloc::{AllocError, Global};

/// What is wrong with a text that is to have two hex digits for each byte, in words; none where nothing is.
pub(crate) fn digits_cause(alloc: Global, digits: &str) -> Result<Option<String>, AllocError> {
    for (place, byte) in digits.as_bytes().iter().enumerate() {
        if !byte.is_ascii_hexdigit() {
            return Ok(Some(format!(in alloc;
                "has byte 0x{byte:02X} at place {place}, which is no hex digit"
            )?));
        }
    }
    match digits.len() % 2 {
        0 => Ok(None),
        _ => Ok(Some(format!(in alloc; "has an odd number of hex digits, {}", digits.len())?)),
    }
}
