//! Why bytes are no section of a table.

use std::alloc::{AllocError, AllocFailed};
use thiserror::Error;

/// Why bytes are no section of a table. Of those that apply the first is answered, and want of
/// memory only where none of the others applies.
#[derive(Clone, Copy, Debug, PartialEq, Eq, Error)]
pub enum TableFault {
    /// There are fewer than the three bytes that hold table_id and section_length.
    #[error("fewer than three bytes")]
    Short,
    /// It is a section of another table.
    #[error("another table_id")]
    WrongId,
    /// section_length + 3 isn't the number of bytes, or section_length is below 9 or above 1,021.
    #[error("the section_length is wrong")]
    BadLength,
    /// The register over the section isn't 0.
    #[error("the CRC is wrong")]
    BadCrc,
    /// section_syntax_indicator is 0, section_number is above last_section_number, or either isn't 0
    /// in a table that is always of one section.
    #[error("the header is wrong")]
    BadHeader,
    /// The body, a row or a descriptor doesn't end where its length says.
    #[error("a loop does not end where its length says")]
    BadLoop,
    /// There is no memory for the table.
    #[error("no memory")]
    Memory,
}

impl From<AllocError> for TableFault {
    ghost use Rattle.std.specs.Prelude.{◌≡◌};
    ghost use Rattle.tables.specs.declared.table_fault.TableFault.TheVariants.{Memory};

    ghost from_gives = { λ _ e. e ≡ Memory };

    fn from(_e: AllocError) -> TableFault {
        TableFault::Memory
    }
}

impl<T: Drop> From<AllocFailed<T>> for TableFault {
    ghost use Rattle.std.specs.Prelude.{◌≡◌};
    ghost use Rattle.tables.specs.declared.table_fault.TableFault.TheVariants.{Memory};

    ghost from_gives = { λ _ e. e ≡ Memory };

    fn from(_e: AllocFailed<T>) -> TableFault {
        TableFault::Memory
    }
}
