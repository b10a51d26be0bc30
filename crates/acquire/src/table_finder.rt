//! The first complete table on a PID.

ghost use Rattle.std.specs.Prelude.{◌++◌, List, OnOk, filter_map};
ghost use Rattle.tables.specs.InForce.{SectionValue};
ghost use Rattle.tables.specs.OnPid.{sections_in};
ghost use Rattle.acquire.specs.Taken.{HasTaken};

use crate::first_table::FirstTable;
use crate::sought_table::SoughtTable;
use section::Told;
use std::alloc::{AllocError, Global};
use tables::SectionReader;
use tspkt::Packet;

/// Finds the first complete table on a PID; when it is complete is profile.
#[derive(Drop)]
pub struct TableFinder<T> {
    reader: SectionReader,
    table: FirstTable<T>,
}

/// Takes the sections of the table among what was told. An `Err` is want of memory.
fn take_told<T: SoughtTable>(
    table: &mut FirstTable<T>,
    alloc: Global,
    told: &[Told],
) -> Result<(), AllocError>
    ensures { OnOk result ((sections : List (SectionValue T)) → HasTaken table.old sections →
        HasTaken table.new (sections ++ filter_map T.section_of (sections_in told.now))) }
{
    for item in told {
        if let Told::Section(bytes) = item {
            T::take_section(table, alloc, bytes.as_slice())?;
        }
    }
    Ok(())
}

impl<T: SoughtTable> TableFinder<T> {
    ghost use Rattle.std.specs.Prelude.{◌≡◌, ℕ, List, [], ◌∷◌, ◌++◌, None, OnOk, is_some, option_map};
    ghost use Rattle.acquire.specs.Seen.{HasSought};

    /// One that has seen no packet, on this PID.
    pub fn new(alloc: Global, pid: u16) -> TableFinder<T>
        ensures { HasSought pid T.section_of result.reader result.table [] }
    {
        TableFinder {
            reader: SectionReader::new(pid),
            table: FirstTable::new(alloc),
        }
    }

    /// Whether the table was found.
    pub fn is_found(&self) -> bool
        ensures { result ≡ is_some self.now.table.found }
    {
        self.table.is_found()
    }

    /// Its sections in the order of their numbers, once it was complete.
    pub fn found(&self) -> Option<&Vec<T>>
        ensures { option_map (λ tables. tables.now.items) result ≡ self.now.table.found }
    {
        self.table.found()
    }

    /// Forgets the table, where it was found.
    pub fn forget(&mut self)
        ensures { self.new.table ≡ record self.old.table { found = None } }
    {
        self.table.forget();
    }

    /// The same, handed out.
    pub fn into_found(self) -> Option<Vec<T>>
        ensures { option_map (λ tables. tables.items) result ≡ self.table.found }
    {
        self.table.into_found()
    }

    /// Reads the next packet, of whatever PID; `told` is room for what it tells. Behind the first
    /// complete table it changes nothing. An `Err` is want of memory.
    pub fn push(
        &mut self,
        alloc: Global,
        packet: &Packet,
        told: &mut Vec<Told>,
    ) -> Result<(), AllocError>
        ensures { OnOk result ((pid : ℕ) (packets : List (List ℕ)) →
            HasSought pid T.section_of self.old.reader self.old.table packets →
            HasSought pid T.section_of self.new.reader self.new.table (packets ++ packet.now ∷ [])) }
    {
        if self.table.is_found() {
            return Ok(());
        }
        self.reader.push(packet, told)?;
        take_told(&mut self.table, alloc, told)?;
        Ok(())
    }
}
