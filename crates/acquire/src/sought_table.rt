//! Tables that are sought in their sections.

use crate::first_table::FirstTable;
use std::alloc::{AllocError, Global};
use tables::{Pat, Sdt, TableFault};

/// A table that comes in sections.
pub trait SoughtTable: Drop {
    ghost use Rattle.std.specs.Prelude.{ℕ, List, Option, ◌++◌, OnOk, option_to_list};
    ghost use Rattle.tables.specs.InForce.{SectionValue};
    ghost use Rattle.acquire.specs.Taken.{HasTaken};

    // What bytes say as a section of the table, where they are one.
    ghost section_of: { List ℕ → Option (SectionValue Self) };

    /// Takes a section, where the bytes are one of the table. An `Err` is want of memory.
    fn take_section(
        table: &mut FirstTable<Self>,
        alloc: Global,
        bytes: &[u8],
    ) -> Result<(), AllocError>
        ensures { OnOk result ((sections : List (SectionValue Self)) → HasTaken table.old sections →
            HasTaken table.new (sections ++ option_to_list (section_of bytes.now))) };
}

impl SoughtTable for Pat {
    ghost use Rattle.tables.specs.OnPid.{pat_section_of};

    ghost section_of = { pat_section_of };

    fn take_section(
        table: &mut FirstTable<Pat>,
        alloc: Global,
        bytes: &[u8],
    ) -> Result<(), AllocError> {
        match Pat::read(alloc, bytes) {
            Ok(pat) => table.push(alloc, pat.header(), pat),
            Err(TableFault::Memory) => Err(AllocError),
            Err(_) => Ok(()),
        }
    }
}

impl SoughtTable for Sdt {
    ghost use Rattle.tables.specs.OnPid.{sdt_section_of};

    ghost section_of = { sdt_section_of };

    fn take_section(
        table: &mut FirstTable<Sdt>,
        alloc: Global,
        bytes: &[u8],
    ) -> Result<(), AllocError> {
        match Sdt::read(alloc, bytes) {
            Ok(sdt) => table.push(alloc, sdt.header(), sdt),
            Err(TableFault::Memory) => Err(AllocError),
            Err(_) => Ok(()),
        }
    }
}
