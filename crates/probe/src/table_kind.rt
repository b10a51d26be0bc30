//! The tables of a stream.

use std::fmt;
use std::fmt::{Display, Formatter};

/// A table of a stream (ISO/IEC 13818-1, 2.4.4; EN 300 468, 5.2).
#[derive(Clone, Copy, Debug, PartialEq, Eq)]
pub enum TableKind {
    Pat,
    Cat,
    Pmt,
    Nit,
    Sdt,
    Eit,
    Tdt,
}

/// The table whose sections have this table_id on this PID, of those that acquisition doesn't find: the CAT, the NIT of the network that
/// the stream is of, the EIT of all streams, and the TDT (ISO/IEC 13818-1, 2.4.4.4; EN 300 468, 5.1.3).
pub(crate) fn table_of(pid: u16, table_id: u8) -> Option<TableKind> {
    match (pid, table_id) {
        (0x0001, 0x01) => Some(TableKind::Cat),
        (0x0010, 0x40) => Some(TableKind::Nit),
        (0x0012, 0x4E..=0x6F) => Some(TableKind::Eit),
        (0x0014, 0x70) => Some(TableKind::Tdt),
        _ => None,
    }
}

impl Display for TableKind {
    fn fmt<W: fmt::Write>(&self, f: &mut Formatter<W>) -> fmt::Result {
        f.write_str(match self {
            TableKind::Pat => "PAT",
            TableKind::Cat => "CAT",
            TableKind::Pmt => "PMT",
            TableKind::Nit => "NIT",
            TableKind::Sdt => "SDT",
            TableKind::Eit => "EIT",
            TableKind::Tdt => "TDT",
        })
    }
}
