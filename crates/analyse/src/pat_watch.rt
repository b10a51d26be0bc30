//! The watch of the PAT.

ghost use Rattle.std.specs.Prelude.{◌≡◌, ◌||◌, [], ◌∷◌, ◌++◌, ℕ, List, option_map, filter_map, OnOk};
ghost use Rattle.std.specs.List.{list_any};
ghost use Rattle.tspkt.specs.Bits.{field};
ghost use Rattle.tables.specs.OnPid.{section_in, sections_on};
ghost use Rattle.tables.specs.SectionReading.{reader_on};
ghost use Rattle.analyse.specs.Slots.{packets_in};
ghost use Rattle.analyse.specs.SlotReading.{IsReadAs};
ghost use Rattle.analyse.specs.PatWatching.{is_other_in, is_scrambled};

use crate::gap_watch::GapWatch;
use crate::program_rows::ProgramRows;
use section::Told;
use std::alloc::{AllocError, Global};
use std::marker::Model;
use tables::{PatRow, SectionReader};
use tspkt::Packet;

/// The table_id of a section.
#[tactic(auto, using(crate::proofs::TableIdLaws::table_id_at))]
fn table_id(bytes: &[u8]) -> u8
    ensures { result ≡ field bytes.now 0 8 }
{
    if bytes.is_empty() {
        return 0;
    }
    bytes[0]
}

/// Whether what was told is a section with another table_id than the PAT's.
fn is_other_in(told: &Told) -> bool
    ensures { result ≡ is_other_in told.now }
{
    match told {
        Told::Section(bytes) => table_id(bytes) != 0,
        _ => false,
    }
}

/// Whether it is a scrambled packet of the PAT's PID.
fn is_scrambled(packet: Option<&Packet>) -> bool
    ensures { result ≡ is_scrambled (option_map (λ p. p.now) packet.entry) }
{
    match packet {
        Some(packet) => packet.pid() == 0 && packet.scrambling() != 0,
        None => false,
    }
}

fn has_other(told: &[Told]) -> bool
    ensures { result ≡ list_any is_other_in told.now }
{
    told.iter().any(|told| is_other_in(told))
}

/// Whether the PAT didn't come, another section did, or the packet is scrambled.
fn is_bad(missed: bool, told: &[Told], packet: Option<&Packet>) -> bool
    ensures { result ≡ ((missed || list_any is_other_in told.now)
        || is_scrambled (option_map (λ p. p.now) packet.entry)) }
{
    missed || has_other(told) || is_scrambled(packet)
}

/// Sees what the next slot is read as, and leaves in `told` what it tells.
#[inline(always)]
fn see(
    sections: &mut SectionReader,
    packet: Option<&Packet>,
    told: &mut Vec<Told>,
) -> Result<(), AllocError>
    ensures seen { OnOk result ((slots : List (List ℕ)) (slot : List ℕ) (pid : ℕ)
        → sections.old ≡ reader_on pid (packets_in slots) → IsReadAs slot (option_map (λ p. p.now) packet.entry)
        → sections.new ≡ reader_on pid (packets_in (slots ++ slot ∷ []))) }
    ensures told { OnOk result ((slots : List (List ℕ)) (slot : List ℕ) (pid : ℕ)
        → sections.old ≡ reader_on pid (packets_in slots) → IsReadAs slot (option_map (λ p. p.now) packet.entry)
        → sections_on pid (packets_in (slots ++ slot ∷ []))
        ≡ sections_on pid (packets_in slots) ++ filter_map section_in told.new.items) }
{
    match packet {
        Some(packet) => sections.push(packet, told),
        None => {
            told.clear();
            Ok(())
        }
    }
}

/// What a slot tells of the PAT.
#[derive(Clone, Copy, Debug, PartialEq, Eq)]
pub struct PatSeen {
    /// PAT_error_2.
    pub bad: bool,
    /// The programs of the PAT in force may have changed; where not, they stayed as they were.
    pub changed: bool,
}

/// Watches PID 0x0000 (ETSI TR 101 290, 5.2.1: PAT_error_2): a section of the PAT comes within its limit of slots, none
/// with another table_id comes, and no packet is scrambled.
#[derive(Drop)]
pub struct PatWatch {
    alloc: Global,
    sections: SectionReader,
    gap: GapWatch,
    marked: bool,
    programs: ProgramRows,
}

impl Model for PatWatch {
    ghost use Rattle.analyse.specs.PatWatching.{PatState};

    ghost Value = { PatState };

    ghost view = { λ w. record { sections = w.sections; gap = w.gap; marked = w.marked; programs = w.programs } };
}

impl PatWatch {
    ghost use Rattle.std.specs.Prelude.{◌≡◌, [], ◌∷◌, ◌++◌, ℕ, List, length, true, false, option_map, OnOk, IfOk};
    ghost use Rattle.analyse.specs.PatWatching.{HasSeenPat};
    ghost use Rattle.analyse.specs.Faults.{is_pat_bad_at};
    ghost use Rattle.analyse.specs.InForce.{program_rows_behind};
    ghost use Rattle.analyse.specs.Quiet.{LeavesPat};

    /// A watch that has seen no slot. The PAT has to come within so many slots.
    pub fn new(alloc: Global, limit: u64) -> PatWatch
        ensures limit { result.gap.limit ≡ limit }
        ensures seen { HasSeenPat result [] }
    {
        PatWatch {
            alloc,
            sections: SectionReader::new(0x0000),
            gap: GapWatch::new(limit),
            marked: true,
            programs: ProgramRows::new(alloc),
        }
    }

    /// The rows of programs of the PAT in force, in the order of section numbers. It need not be complete.
    pub fn programs(&self) -> &[PatRow]
        ensures kept { result.now ≡ self.now.programs.rows }
        ensures in_force { (slots : List (List ℕ)) → HasSeenPat self.now slots
            → result.now ≡ program_rows_behind slots }
    {
        self.programs.rows()
    }

    /// Sees what the next slot is read as, and tells whether the PAT is faulty at it. `count` is the number of slots
    /// before it. An `Err` is want of memory; nothing is said of the watch behind it.
    #[inline(always)]
    pub fn push(&mut self, count: u64, packet: Option<&Packet>) -> Result<PatSeen, AllocError>
        ensures limit { self.new.gap.limit ≡ self.old.gap.limit }
        ensures seen { OnOk result ((slots : List (List ℕ)) (slot : List ℕ) → HasSeenPat self.old slots
            → length slots ≡ count → IsReadAs slot (option_map (λ p. p.now) packet.entry)
            → HasSeenPat self.new (slots ++ slot ∷ [])) }
        ensures bad { IfOk result (λ seen. (slots : List (List ℕ)) (slot : List ℕ) → HasSeenPat self.old slots
            → length slots ≡ count → IsReadAs slot (option_map (λ p. p.now) packet.entry)
            → seen.bad ≡ is_pat_bad_at self.old.gap.limit (slots ++ slot ∷ []) count) }
        ensures changed { IfOk result (λ seen. seen.changed ≡ false
            → self.new.programs.rows ≡ self.old.programs.rows) }
    {
        let missed = self.gap.push(count, true, self.marked);
        // Let go with this slot.
        let mut told = Vec::new(self.alloc);
        see(&mut self.sections, packet, &mut told)?;
        let programs = self.programs.push(&told)?;
        self.marked = programs.came;
        Ok(PatSeen {
            bad: is_bad(missed, &told, packet),
            changed: programs.changed,
        })
    }

    /// Whether nothing is told at the next slot, and this packet leaves the watch as it is: it is of another PID, the last
    /// slot was no mark, and no gap falls due.
    #[inline(always)]
    pub fn rests(&self, count: u64, packet: &Packet) -> bool
        ensures { result ≡ true → LeavesPat self.now count packet.now }
    {
        if packet.pid() == 0 {
            return false;
        }
        if self.marked {
            return false;
        }
        !self.gap.is_told(count)
    }
}
