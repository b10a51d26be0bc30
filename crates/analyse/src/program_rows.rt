//! The programs of the PAT in force.

ghost use Rattle.std.specs.Prelude.{◌≡◌, ◌==◌, ◌++◌, not, true, IfOk, OnOk, filter, option_map};
ghost use Rattle.analyse.specs.ProgramsWatching.{as_section, pat_in, is_program};

use crate::table_seen::TableSeen;
use section::Told;
use std::alloc::{AllocError, Global};
use std::marker::Model;
use tables::{Pat, PatRow, TableFault, TableRun};

/// The section of the PAT that was told, where it is one. An `Err` is want of memory.
fn read_pat(alloc: Global, told: &Told) -> Result<Option<Pat>, AllocError>
    ensures { IfOk result (λ found. option_map as_section found ≡ pat_in told.now) }
{
    let Told::Section(bytes) = told else {
        return Ok(None);
    };
    match Pat::read(alloc, bytes) {
        Ok(pat) => Ok(Some(pat)),
        Err(TableFault::Memory) => Err(AllocError),
        Err(_) => Ok(None),
    }
}

/// Adds the rows of programs.
fn push_programs(from: &[PatRow], rows: &mut Vec<PatRow>) -> Result<(), AllocError>
    ensures { OnOk result (rows.new.items ≡ rows.old.items ++ filter is_program from.now) }
{
    for row in from {
        if row.program_number != 0 {
            rows.push(*row)?;
        }
    }
    Ok(())
}

/// Whether both are the same rows.
fn are_same(rows: &[PatRow], other: &[PatRow]) -> bool
    ensures { result ≡ true → rows.now ≡ other.now }
{
    rows == other
}

/// The programs of the PAT in force (ISO/IEC 13818-1, 2.4.4.3), as its sections come. A row with program_number 0 names
/// the network's PID and is left out.
#[derive(Drop)]
pub struct ProgramRows {
    alloc: Global,
    run: TableRun<Pat>,
    rows: Vec<PatRow>,
}

impl Model for ProgramRows {
    ghost use Rattle.analyse.specs.ProgramsWatching.{ProgramsState};

    ghost Value = { ProgramsState };

    ghost view = { λ p. record { run = p.run; rows = p.rows.items } };
}

impl ProgramRows {
    ghost use Rattle.std.specs.Prelude.{◌≡◌, [], ◌++◌, List, false, IfOk, OnOk, reverse, option_to_list};
    ghost use Rattle.std.specs.List.{list_any};
    ghost use Rattle.tables.specs.InForce.{SectionValue, in_force};
    ghost use Rattle.tables.specs.Kept.{StandsFor};
    ghost use Rattle.tables.specs.Pat.{PatValue};
    ghost use Rattle.analyse.specs.ProgramsWatching.{HasRows, pat_in, pats_in, is_pat_in, program_rows_of, programs_of_section};

    /// Those of no section.
    pub fn new(alloc: Global) -> ProgramRows
        ensures { HasRows result [] }
    {
        ProgramRows {
            alloc,
            run: TableRun::new(alloc),
            rows: Vec::new(alloc),
        }
    }

    /// The rows of programs of the PAT in force, in the order of section numbers. It need not be complete.
    pub fn rows(&self) -> &[PatRow]
        ensures { result.now ≡ self.now.rows }
    {
        &self.rows
    }

    /// Takes the sections of the PAT among what was told. An `Err` is want of memory.
    #[inline(always)]
    pub fn push(&mut self, told: &[Told]) -> Result<TableSeen, AllocError>
        ensures came { IfOk result (λ seen. seen.came ≡ list_any is_pat_in told.now) }
        ensures changed { IfOk result (λ seen. seen.changed ≡ false → self.new.rows ≡ self.old.rows) }
        ensures seen { OnOk result ((sections : List (SectionValue PatValue)) → HasRows self.old sections
            → HasRows self.new (sections ++ pats_in told.now)) }
    {
        if !self.push_all(told)? {
            return Ok(TableSeen {
                came: false,
                changed: false,
            });
        }
        let rows = self.rows_in_force()?;
        let changed = !are_same(&rows, &self.rows);
        self.rows = rows;
        Ok(TableSeen {
            came: true,
            changed,
        })
    }

    /// Takes the sections into the run, and tells whether there was one.
    #[inline(always)]
    fn push_all(&mut self, told: &[Told]) -> Result<bool, AllocError>
        ensures rows { self.new.rows ≡ self.old.rows }
        ensures came { IfOk result (λ came. came ≡ list_any is_pat_in told.now) }
        ensures run { OnOk result ((sections : List (SectionValue PatValue)) → StandsFor self.old.run (reverse sections)
            → StandsFor self.new.run (reverse (sections ++ pats_in told.now))) }
    {
        let mut came = false;
        for item in told {
            came |= self.push_one(item)?;
        }
        Ok(came)
    }

    /// Takes what was told into the run, where it is a section of the table.
    #[inline(never)]
    fn push_one(&mut self, told: &Told) -> Result<bool, AllocError>
        ensures rows { self.new.rows ≡ self.old.rows }
        ensures came { IfOk result (λ came. came ≡ is_pat_in told.now) }
        ensures run { OnOk result ((sections : List (SectionValue PatValue)) → StandsFor self.old.run (reverse sections)
            → StandsFor self.new.run (reverse (sections ++ option_to_list (pat_in told.now)))) }
    {
        let Some(pat) = read_pat(self.alloc, told)? else {
            return Ok(false);
        };
        self.run.push(pat.header(), pat)?;
        Ok(true)
    }

    /// The rows of programs of what is in force. An `Err` is want of memory.
    #[inline(never)]
    fn rows_in_force(&self) -> Result<Vec<PatRow>, AllocError>
        ensures { IfOk result (λ rows. (sections : List (SectionValue PatValue)) → StandsFor self.now.run sections
            → rows.items ≡ program_rows_of sections) }
    {
        let mut rows = Vec::new(self.alloc);
        for number in 0..256_u16 {
            self.push_section(number as u8, &mut rows)?;
        }
        Ok(rows)
    }

    /// Adds the rows of programs of the section that is in force under this number.
    fn push_section(&self, number: u8, rows: &mut Vec<PatRow>) -> Result<(), AllocError>
        ensures { OnOk result ((sections : List (SectionValue PatValue)) → StandsFor self.now.run sections
            → rows.new.items ≡ rows.old.items ++ programs_of_section (in_force sections number)) }
    {
        match self.run.under(number) {
            Some(pat) => push_programs(pat.rows(), rows),
            None => Ok(()),
        }
    }
}
