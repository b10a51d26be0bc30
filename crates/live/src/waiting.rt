//! What a command waits for.

use std::fmt;
use std::fmt::{Display, Formatter};

/// What a command waits for, before it runs.
#[derive(Drop)]
pub(crate) enum Waiting {
    /// The file with this name is being opened.
    Opening(String),
    /// Tables of the input with this number and name haven't come yet.
    Tables {
        number: usize,
        name: String,
        /// Whether its PAT has.
        has_pat: bool,
    },
}

impl Waiting {
    /// Whether it is for tables of this input, whose PAT has come or not.
    pub fn is_for_tables(&self, input: usize, is_found: bool) -> bool {
        match self {
            Waiting::Opening(_) => false,
            Waiting::Tables {
                number,
                has_pat,
                ..
            } => *number == input && *has_pat == is_found,
        }
    }
}

impl Display for Waiting {
    fn fmt<W: fmt::Write>(&self, f: &mut Formatter<W>) -> fmt::Result {
        match self {
            Waiting::Opening(name) => {
                write!(
                    f,
                    "{name}: it isn't open yet: a pipe waits for its other end"
                )
            }
            Waiting::Tables {
                number,
                name,
                has_pat,
            } => {
                write!(f, "input {number}, {name}: ")?;
                f.write_str(if *has_pat {
                    "its PAT has come, and its SDT or a PMT hasn't yet"
                } else {
                    "its PAT hasn't come yet"
                })
            }
        }
    }
}
