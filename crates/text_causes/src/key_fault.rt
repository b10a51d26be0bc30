//! What can be wrong with a key of a plan's text.

use toml::Table;

/// What is wrong with a key.
#[derive(Clone, Copy, Debug, PartialEq, Eq)]
pub(crate) enum KeyFault {
    /// It is missing.
    Missing,
    /// No such key is known.
    Unknown,
    /// Its value is no whole number.
    NotNumber,
    /// Its value is no text.
    NotText,
    /// Its value is no list.
    NotList,
}

impl KeyFault {
    /// What is wrong with a key whose value is of another type, by what the reader of the keys says. None where it wants a type
    /// that no key has.
    pub fn of_type(message: &str) -> Option<KeyFault> {
        let (_, wanted) = message.rsplit_once("expected ")?;
        match wanted {
            "an integer" => Some(KeyFault::NotNumber),
            "a string" => Some(KeyFault::NotText),
            "a sequence" => Some(KeyFault::NotList),
            _ => None,
        }
    }

    /// Whether a table has this fault at a key.
    pub fn is_in(self, table: &Table, key: &str) -> bool {
        let Some(value) = table.get(key) else {
            return self == KeyFault::Missing;
        };
        match self {
            KeyFault::Missing => false,
            KeyFault::Unknown => true,
            KeyFault::NotNumber => !value.is_integer(),
            KeyFault::NotText => !value.is_str(),
            KeyFault::NotList => !value.is_array(),
        }
    }
}
