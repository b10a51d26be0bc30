//! What is left out.

use crate::lack::Lack;
use std::fmt;
use std::fmt::{Display, Formatter};

/// A file, by its place from 0, or one of its programs, that is left out of a plan.
#[derive(Clone, Copy, Debug, PartialEq, Eq)]
pub struct LeftOut {
    pub file: usize,
    pub program: Option<u16>,
    pub lack: Lack,
}

impl Display for LeftOut {
    fn fmt<W: fmt::Write>(&self, f: &mut Formatter<W>) -> fmt::Result {
        let (file, lack) = (self.file, self.lack);
        match self.program {
            Some(program) => write!(f, "left out: file {file} program {program}: {lack}"),
            None => write!(f, "left out: file {file}: {lack}"),
        }
    }
}
