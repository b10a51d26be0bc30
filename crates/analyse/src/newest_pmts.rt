//! The newest PMTs of one PID.

ghost use Rattle.std.specs.Prelude.{◌≡◌, ◌==◌, true, IfOk, map, option_map};
ghost use Rattle.std.specs.List.{position};
ghost use Rattle.analyse.specs.PmtWatching.{elementary_pids, pids_kept};

use crate::newest_pmt::NewestPmt;
use std::alloc::{AllocError, Global};
use std::marker::Model;
use tables::{Pmt, PmtRow};

/// The elementary PIDs of the rows. An `Err` is want of memory.
fn elementary_pids(alloc: Global, rows: &[PmtRow]) -> Result<Vec<u16>, AllocError>
    ensures { IfOk result (λ pids. pids.items ≡ elementary_pids rows.now) }
{
    let mut pids = Vec::with_capacity(alloc, rows.len())?;
    for row in rows {
        pids.push_reserved(row.elementary_pid);
    }
    Ok(pids)
}

/// Whether these are the elementary PIDs of the rows.
fn are_elementary_pids(pids: &[u16], rows: &[PmtRow]) -> bool
    ensures { result ≡ true → pids.now ≡ elementary_pids rows.now }
{
    if pids.len() != rows.len() {
        return false;
    }
    for (place, row) in rows.iter().enumerate() {
        if pids[place] != row.elementary_pid {
            return false;
        }
    }
    true
}

/// The place of what is kept of a program.
fn place_of(kept: &[NewestPmt], program: u16) -> Option<usize>
    ensures { result ≡ position (λ p. p.program == program) kept.now }
{
    kept.iter().position(|pmt| pmt.program == program)
}

/// The elementary PIDs of each program's newest current PMT among those of one PID (ISO/IEC 13818-1, 2.4.4.8; that the
/// newest counts is profile).
#[derive(Drop)]
pub struct NewestPmts {
    alloc: Global,
    kept: Vec<NewestPmt>,
}

impl Model for NewestPmts {
    ghost use Rattle.std.specs.Prelude.{List};
    ghost use Rattle.analyse.specs.PmtWatching.{PmtPids};

    ghost Value = { List PmtPids };

    ghost view = { λ p. p.kept.items };
}

impl NewestPmts {
    ghost use Rattle.std.specs.Prelude.{◌≡◌, [], ◌∷◌, ◌++◌, List, true, false, Some, IfOk, OnOk, option_map};
    ghost use Rattle.tables.specs.Pmt.{PmtValue};
    ghost use Rattle.analyse.specs.PmtWatching.{elementary_pids, pids_kept, without, KeepsNewest};

    /// Those of no PMT.
    pub fn new(alloc: Global) -> NewestPmts
        ensures { result ≡ [] }
    {
        NewestPmts {
            alloc,
            kept: Vec::new(alloc),
        }
    }

    /// The elementary PIDs of the program's newest current PMT, in the order of its rows.
    pub fn pids(&self, program: u16) -> Option<&[u16]>
        ensures { option_map (λ pids. pids.now) result ≡ pids_kept self.now program }
    {
        let place = place_of(&self.kept, program)?;
        let pmt = &self.kept[place];
        Some(&pmt.pids)
    }

    /// The next PMT came. One that isn't current changes nothing. Tells whether what is kept may have changed; an `Err`
    /// is want of memory.
    pub fn push(&mut self, pmt: &Pmt) -> Result<bool, AllocError>
        ensures seen { OnOk result ((pmts : List PmtValue) → KeepsNewest self.old pmts
            → KeepsNewest self.new (pmts ++ pmt.now ∷ [])) }
        ensures changed { IfOk result (λ changed. changed ≡ false → self.new ≡ self.old) }
    {
        let header = pmt.header();
        if !header.current_next_indicator {
            return Ok(false);
        }
        if self.has(header.table_id_extension, pmt.rows()) {
            return Ok(false);
        }
        let pids = elementary_pids(self.alloc, pmt.rows())?;
        self.put(header.table_id_extension, pids)?;
        Ok(true)
    }

    /// Whether the elementary PIDs of these rows are kept of the program.
    fn has(&self, program: u16, rows: &[PmtRow]) -> bool
        ensures { result ≡ true → pids_kept self.now program ≡ Some (elementary_pids rows.now) }
    {
        match self.pids(program) {
            Some(pids) => are_elementary_pids(pids, rows),
            None => false,
        }
    }

    /// Keeps these PIDs of the program.
    fn put(&mut self, program: u16, pids: Vec<u16>) -> Result<(), AllocError>
        ensures { OnOk result (self.new ≡ record { program = program; pids = pids.items } ∷ without program self.old) }
    {
        self.kept.reserve(1)?;
        self.kept.retain(|pmt| pmt.program != program);
        self.kept.insert(0, NewestPmt { program, pids }).unwrap();
        Ok(())
    }
}
