//! The table in force, as its sections come.

ghost use Rattle.std.specs.Prelude.{◌≡◌, ◌≢◌, ◌==◌, ℕ, ◌≤◌, vec_len, vec_capacity, option_map};
ghost use Rattle.std.specs.List.{position};
ghost use Rattle.tables.specs.InForce.{is_of_same_version};
ghost use Rattle.tables.specs.Kept.{kept_with, kept_under};

use crate::header::Header;
use crate::table_section::TableSection;
use std::alloc::{AllocError, Global};
use std::marker::Model;

/// What is in force of one table among the sections that came, one by one (ISO/IEC 13818-1,
/// 2.4.4.5; EN 300 468, 5.2; when a table counts as changed or as complete is profile).
///
/// It keeps the current sections of the newest table_id_extension, version_number and
/// last_section_number, and of each section_number the newest: at most 256. Contracts see what it
/// keeps, and say by `StandsFor` of which lists of sections, newest first, this is what is in
/// force.
#[derive(Drop)]
pub struct TableRun<T> {
    sections: Vec<TableSection<T>>,
}

impl<T> Model for TableRun<T> {
    ghost use Rattle.std.specs.Prelude.{List};
    ghost use Rattle.tables.specs.InForce.{SectionValue};

    ghost Value = { List (SectionValue T) };

    ghost view = { λ r. r.sections.items };
}

/// Whether both are sections of one version of one table.
fn is_of_same_version(header: &Header, other: &Header) -> bool
    ensures { result ≡ is_of_same_version header.now other.now }
{
    header.table_id_extension == other.table_id_extension
        && header.version_number == other.version_number
        && header.last_section_number == other.last_section_number
}

/// Leaves nothing where the sections are of another version.
fn keep_version<T: Drop>(sections: &mut Vec<TableSection<T>>, header: &Header)
    ensures items { sections.new.items ≡ kept_with header.now sections.old.items }
    ensures len { vec_len sections.new ≤ vec_len sections.old }
    ensures capacity { vec_capacity sections.new ≡ vec_capacity sections.old }
{
    if let Some(newest) = sections.first() {
        if !is_of_same_version(header, &newest.header) {
            sections.clear();
        }
    }
}

/// The place of the first section of this number.
fn place_of<T>(sections: &[TableSection<T>], number: u8) -> Option<usize>
    ensures { result ≡ position (λ s. s.header.section_number == number) sections.now }
{
    sections
        .iter()
        .position(|section| section.header.section_number == number)
}

/// Takes the first section of this number out.
fn take_section<T>(sections: &mut Vec<TableSection<T>>, number: u8) -> Option<T>
    ensures taken { result ≡ option_map (λ s. s.table) (kept_under sections.old.items number) }
    ensures others { (other : ℕ) → other ≢ number →
        kept_under sections.new.items other ≡ kept_under sections.old.items other }
{
    let place = place_of(sections, number)?;
    let TableSection { header: _, table } = sections.remove(place);
    Some(table)
}

impl<T: Drop> TableRun<T> {
    ghost use Rattle.std.specs.Prelude.{◌≡◌, List, [], ◌∷◌, true, option_map, is_some, IfOk, OnOk, OnErr};
    ghost use Rattle.tables.specs.InForce.{SectionValue, in_force, complete_table};
    ghost use Rattle.tables.specs.Kept.{StandsFor, kept_under, kept_table, tables_of};

    /// One that no section came to.
    pub fn new(alloc: Global) -> TableRun<T>
        ensures empty { result ≡ [] }
        ensures stands { StandsFor result [] }
    {
        TableRun {
            sections: Vec::new(alloc),
        }
    }

    /// The next section came. One that isn't current changes nothing; one of another
    /// table_id_extension, version_number or last_section_number empties what is kept; one of a
    /// number that is kept takes its place.
    ///
    /// An `Err` is want of memory, and changes nothing.
    pub fn push(&mut self, header: Header, table: T) -> Result<(), AllocError>
        ensures stands { OnOk result (
            (sections : List (SectionValue T)) → StandsFor self.old sections →
            StandsFor self.new (record { header = header; table = table } ∷ sections)) }
        ensures err { OnErr result (self.new ≡ self.old) }
        ensures current { OnErr result (header.current_next_indicator ≡ true) }
    {
        if !header.current_next_indicator {
            return Ok(());
        }
        self.sections.reserve(1)?;
        keep_version(&mut self.sections, &header);
        let number = header.section_number;
        self.sections
            .retain(|section| section.header.section_number != number);
        self.sections
            .insert(0, TableSection { header, table })
            .unwrap();
        Ok(())
    }

    /// Whether a section is kept under this number.
    fn holds(&self, number: u8) -> bool
        ensures { result ≡ is_some (kept_under self.now number) }
    {
        place_of(&self.sections, number).is_some()
    }

    /// The table of the section that is in force under this number.
    pub fn under(&self, number: u8) -> Option<&T>
        ensures kept { option_map (λ t. t.now) result
            ≡ option_map (λ s. s.table) (kept_under self.now number) }
        ensures in_force { (sections : List (SectionValue T)) → StandsFor self.now sections →
            option_map (λ t. t.now) result
            ≡ option_map (λ s. s.table) (in_force sections number) }
    {
        let place = place_of(&self.sections, number)?;
        let section = &self.sections[place];
        Some(&section.table)
    }

    /// Whether the table is complete: a section is in force under every number from 0 to
    /// last_section_number.
    pub fn is_complete(&self) -> bool
        ensures kept { result ≡ is_some (kept_table self.now) }
        ensures complete { (sections : List (SectionValue T)) → StandsFor self.now sections →
            result ≡ is_some (complete_table sections) }
    {
        let Some(newest) = self.sections.first() else {
            return false;
        };
        for number in 0..=newest.header.last_section_number {
            if !self.holds(number) {
                return false;
            }
        }
        true
    }

    /// The tables of all sections in the order of their numbers, where the table is complete. An
    /// `Err` is want of memory.
    pub fn into_complete(self, alloc: Global) -> Result<Option<Vec<T>>, AllocError>
        ensures kept { IfOk result (λ found.
            option_map (λ tables. tables.items) found ≡ option_map tables_of (kept_table self)) }
        ensures complete { IfOk result (λ found.
            (sections : List (SectionValue T)) → StandsFor self sections →
            option_map (λ tables. tables.items) found
            ≡ option_map tables_of (complete_table sections)) }
    {
        let TableRun { mut sections } = self;
        let Some(newest) = sections.first() else {
            return Ok(None);
        };
        let last = newest.header.last_section_number;
        let mut tables = Vec::with_capacity(alloc, usize::from(last) + 1)?;
        for number in 0..=last {
            match take_section(&mut sections, number) {
                Some(table) => tables.push_reserved(table),
                None => return Ok(None),
            }
        }
        Ok(Some(tables))
    }
}
