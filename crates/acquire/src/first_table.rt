//! The first complete table.

use std::alloc::{AllocError, Global};
use std::marker::Model;
use std::mem;
use tables::{Header, TableRun};

/// Finds the first complete table among the sections that come.
#[derive(Drop)]
pub struct FirstTable<T> {
    run: TableRun<T>,
    found: Option<Vec<T>>,
}

impl<T> Model for FirstTable<T> {
    ghost use Rattle.std.specs.Prelude.{option_map};
    ghost use Rattle.acquire.specs.Taken.{FirstTableState};

    ghost Value = { FirstTableState T };

    ghost view = { λ f. record { run = f.run; found = option_map (λ v. v.items) f.found } };
}

impl<T: Drop> FirstTable<T> {
    ghost use Rattle.std.specs.Prelude.{◌≡◌, ◌++◌, ◌∷◌, [], List, None, is_some, option_map, OnOk};
    ghost use Rattle.tables.specs.InForce.{SectionValue};
    ghost use Rattle.acquire.specs.Taken.{HasTaken};

    /// One that no section came to.
    pub fn new(alloc: Global) -> FirstTable<T>
        ensures { HasTaken result [] }
    {
        FirstTable {
            run: TableRun::new(alloc),
            found: None,
        }
    }

    /// The sections of the table in the order of their numbers, once it was complete.
    pub fn found(&self) -> Option<&Vec<T>>
        ensures { option_map (λ tables. tables.now.items) result ≡ self.now.found }
    {
        self.found.as_ref()
    }

    /// Whether the table was found.
    pub fn is_found(&self) -> bool
        ensures { result ≡ is_some self.now.found }
    {
        self.found.is_some()
    }

    /// Forgets the table, where it was found.
    pub fn forget(&mut self)
        ensures { self.new ≡ record self.old { found = None } }
    {
        self.found = None;
    }

    /// The sections of the table, handed out.
    pub fn into_found(self) -> Option<Vec<T>>
        ensures { option_map (λ tables. tables.items) result ≡ self.found }
    {
        self.found
    }

    /// The next section came. Behind the first complete table it changes nothing.
    pub fn push(&mut self, alloc: Global, header: Header, table: T) -> Result<(), AllocError>
        ensures { OnOk result ((sections : List (SectionValue T)) → HasTaken self.old sections →
            HasTaken self.new (sections ++ record { header = header; table = table } ∷ [])) }
    {
        if self.found.is_some() {
            return Ok(());
        }
        self.run.push(header, table)?;
        if self.run.is_complete() {
            let run = mem::replace(&mut self.run, TableRun::new(alloc));
            self.found = run.into_complete(alloc)?;
        }
        Ok(())
    }
}
