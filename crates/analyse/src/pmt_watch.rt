//! The watch of the PMTs of one PID.

ghost use Rattle.std.specs.Prelude.{◌≡◌, IfOk};
ghost use Rattle.analyse.specs.ToldPmts.{pmt_in};

use crate::newest_pmts::NewestPmts;
use crate::pmt_assembly::PmtAssembly;
use crate::table_seen::TableSeen;
use section::Told;
use std::alloc::{AllocError, Global};
use std::marker::Model;
use tables::{Pmt, TableFault};
use tspkt::Packet;

/// The PMT that was told, where it is one. An `Err` is want of memory.
fn read_pmt(alloc: Global, told: &Told) -> Result<Option<Pmt>, AllocError>
    ensures { IfOk result (λ found. found ≡ pmt_in told.now) }
{
    let Told::Section(bytes) = told else {
        return Ok(None);
    };
    match Pmt::read(alloc, bytes) {
        Ok(pmt) => Ok(Some(pmt)),
        Err(TableFault::Memory) => Err(AllocError),
        Err(_) => Ok(None),
    }
}

/// Makes the PMTs of one PID out of its packets that aren't scrambled, and keeps what its newest PMTs say.
#[derive(Drop)]
pub struct PmtWatch {
    alloc: Global,
    assembly: PmtAssembly,
    newest: NewestPmts,
}

impl Model for PmtWatch {
    ghost use Rattle.analyse.specs.PmtWatching.{PmtState};

    ghost Value = { PmtState };

    ghost view = { λ w. record { assembly = w.assembly; newest = w.newest } };
}

impl PmtWatch {
    ghost use Rattle.std.specs.Prelude.{◌≡◌, ◌∷◌, ◌++◌, [], ◌+◌, ℕ, List, length, Some, true, false, IfOk, OnOk, option_map, option_to_list};
    ghost use Rattle.std.specs.List.{list_any};
    ghost use Rattle.tables.specs.Pmt.{PmtValue};
    ghost use Rattle.analyse.specs.SlotReading.{IsReadAs};
    ghost use Rattle.analyse.specs.Faults.{completes, pmts_of};
    ghost use Rattle.tables.specs.SectionReading.{is_on};
    ghost use Rattle.analyse.specs.ToldPmts.{pmt_in, pmts_in, is_pmt_in};
    ghost use Rattle.analyse.specs.PmtWatching.{new_pmt_watch, pids_kept, KeepsNewest, HasSeenPmts};
    ghost use Rattle.analyse.specs.Quiet.{LeavesPmt};

    /// A watch that has seen no packet.
    pub fn new(alloc: Global) -> PmtWatch
        ensures { result ≡ new_pmt_watch }
    {
        PmtWatch {
            alloc,
            assembly: PmtAssembly::Between,
            newest: NewestPmts::new(alloc),
        }
    }

    /// The elementary PIDs of the program's newest current PMT, in the order of its rows.
    pub fn pids(&self, program: u16) -> Option<&[u16]>
        ensures { option_map (λ pids. pids.now) result ≡ pids_kept self.now.newest program }
    {
        self.newest.pids(program)
    }

    /// Sees the next slot's packet, which is of the PID and not scrambled. `told` is room for its sections. An `Err` is want
    /// of memory.
    #[inline(always)]
    pub fn push(&mut self, packet: &Packet, told: &mut Vec<Told>) -> Result<TableSeen, AllocError>
        ensures changed { IfOk result (λ seen. seen.changed ≡ false → self.new.newest ≡ self.old.newest) }
        ensures seen { OnOk result ((slots : List (List ℕ)) (slot : List ℕ) (pid : ℕ) → HasSeenPmts pid self.old slots
            → IsReadAs slot (Some packet.now) → is_on pid packet.now ≡ true
            → HasSeenPmts pid self.new (slots ++ slot ∷ [])) }
        ensures came { IfOk result (λ seen. (slots : List (List ℕ)) (slot : List ℕ) (pid : ℕ)
            → HasSeenPmts pid self.old slots → IsReadAs slot (Some packet.now) → is_on pid packet.now ≡ true
            → seen.came ≡ completes (pmts_of pid) (slots ++ slot ∷ []) (length slots + 1)) }
    {
        self.assembly.push(self.alloc, packet, told)?;
        let seen = self.push_all(told)?;
        Ok(seen)
    }

    /// Whether this packet, of the PID and not scrambled, tells nothing and leaves the watch as it is.
    #[inline(always)]
    pub fn rests(&self, packet: &Packet) -> bool
        ensures { result ≡ true → (pid : ℕ) → is_on pid packet.now ≡ true → LeavesPmt pid self.now packet.now }
    {
        self.assembly.rests(packet)
    }

    /// Takes the PMTs among what was told.
    #[inline(always)]
    fn push_all(&mut self, told: &[Told]) -> Result<TableSeen, AllocError>
        ensures assembly { self.new.assembly ≡ self.old.assembly }
        ensures came { IfOk result (λ seen. seen.came ≡ list_any is_pmt_in told.now) }
        ensures changed { IfOk result (λ seen. seen.changed ≡ false → self.new.newest ≡ self.old.newest) }
        ensures newest { OnOk result ((pmts : List PmtValue) → KeepsNewest self.old.newest pmts
            → KeepsNewest self.new.newest (pmts ++ pmts_in told.now)) }
    {
        let mut seen = TableSeen {
            came: false,
            changed: false,
        };
        for item in told {
            let one = self.push_one(item)?;
            seen = TableSeen {
                came: seen.came | one.came,
                changed: seen.changed | one.changed,
            };
        }
        Ok(seen)
    }

    /// Takes what was told, where it is a PMT.
    #[inline(never)]
    fn push_one(&mut self, told: &Told) -> Result<TableSeen, AllocError>
        ensures assembly { self.new.assembly ≡ self.old.assembly }
        ensures came { IfOk result (λ seen. seen.came ≡ is_pmt_in told.now) }
        ensures changed { IfOk result (λ seen. seen.changed ≡ false → self.new.newest ≡ self.old.newest) }
        ensures newest { OnOk result ((pmts : List PmtValue) → KeepsNewest self.old.newest pmts
            → KeepsNewest self.new.newest (pmts ++ option_to_list (pmt_in told.now))) }
    {
        let Some(pmt) = read_pmt(self.alloc, told)? else {
            return Ok(TableSeen {
                came: false,
                changed: false,
            });
        };
        let changed = self.newest.push(&pmt)?;
        Ok(TableSeen {
            came: true,
            changed,
        })
    }
}
