//! A section of a table that comes in several.

use crate::header::Header;
use std::marker::Model;

/// A section of a table: its header, and what it says.
#[derive(Drop)]
pub struct TableSection<T> {
    pub header: Header,
    pub table: T,
}

impl<T> Model for TableSection<T> {
    ghost use Rattle.tables.specs.InForce.{SectionValue};

    ghost Value = { SectionValue T };

    ghost view = { λ s. record { header = s.header; table = s.table } };
}
