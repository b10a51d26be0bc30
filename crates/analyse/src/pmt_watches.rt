//! The watches of the PMTs of all PIDs.

ghost use Rattle.std.specs.Prelude.{◌≡◌, ◌∷◌, ◌++◌, [], ◌+◌, ℕ, List, length, Some, true, false, IfOk, OnOk};
ghost use Rattle.analyse.specs.SlotReading.{IsReadAs};
ghost use Rattle.analyse.specs.Faults.{completes, pmts_of};
ghost use Rattle.tables.specs.SectionReading.{is_on};
ghost use Rattle.analyse.specs.PmtWatching.{HasSeenPmts, new_pmt_watch, state_of, boxed_state};

use crate::pmt_watch::PmtWatch;
use crate::table_seen::TableSeen;
use section::Told;
use std::alloc::{AllocError, Global};
use std::marker::Model;
use tspkt::{PID_COUNT, Packet};

/// A watch that has seen no packet. An `Err` is want of memory.
#[inline(never)]
fn boxed_watch(alloc: Global) -> Result<Box<PmtWatch>, AllocError>
    ensures { IfOk result (λ w. w.value ≡ new_pmt_watch) }
{
    Ok(Box::new(alloc, PmtWatch::new(alloc))?)
}

/// Sees the next packet of a PID, which isn't scrambled. The first one makes the PID's watch.
#[inline(always)]
fn see_packet(
    alloc: Global,
    watch: &mut Option<Box<PmtWatch>>,
    packet: &Packet,
    told: &mut Vec<Told>,
) -> Result<TableSeen, AllocError>
    ensures changed { IfOk result (λ seen. seen.changed ≡ false
        → (state_of (boxed_state watch.new)).newest ≡ (state_of (boxed_state watch.old)).newest) }
    ensures seen { OnOk result ((slots : List (List ℕ)) (slot : List ℕ) (pid : ℕ)
        → HasSeenPmts pid (state_of (boxed_state watch.old)) slots
        → IsReadAs slot (Some packet.now) → is_on pid packet.now ≡ true
        → HasSeenPmts pid (state_of (boxed_state watch.new)) (slots ++ slot ∷ [])) }
    ensures came { IfOk result (λ seen. (slots : List (List ℕ)) (slot : List ℕ) (pid : ℕ)
        → HasSeenPmts pid (state_of (boxed_state watch.old)) slots
        → IsReadAs slot (Some packet.now) → is_on pid packet.now ≡ true
        → seen.came ≡ completes (pmts_of pid) (slots ++ slot ∷ []) (length slots + 1)) }
{
    match watch {
        Some(watch) => watch.push(packet, told),
        None => {
            let mut first = boxed_watch(alloc)?;
            let seen = first.push(packet, told)?;
            *watch = Some(first);
            Ok(seen)
        }
    }
}

/// Watches the PMTs of all PIDs (ISO/IEC 13818-1, 2.4.4.8), whether a PAT names them or not. A PID is given memory at its
/// first packet that isn't scrambled.
#[derive(Drop)]
pub struct PmtWatches {
    alloc: Global,
    watches: Vec<Option<Box<PmtWatch>>>,
}

impl Model for PmtWatches {
    ghost use Rattle.tspkt.specs.declared.packet.TheConstants.{PID_COUNT};
    ghost use Rattle.std.specs.Prelude.{◌≡◌, List, Option, length, map};
    ghost use Rattle.analyse.specs.PmtWatching.{PmtState, boxed_state};

    ghost Value = { List (Option PmtState) };

    ghost view = { λ w. map boxed_state w.watches.items };

    ghost invariant = { λ w. length w.watches.items ≡ PID_COUNT };
}

impl PmtWatches {
    ghost use Rattle.std.specs.Prelude.{◌≡◌, ◌∷◌, ◌++◌, [], ◌+◌, ◌<◌, ◌&&◌, ℕ, List, length, Some, true, false, IfOk, OnOk, option_map};
    ghost use Rattle.analyse.specs.SlotReading.{IsReadAs};
    ghost use Rattle.analyse.specs.Faults.{completes, pmts_of};
    ghost use Rattle.analyse.specs.GapsWatching.{is_of_packet};
    ghost use Rattle.analyse.specs.PmtWatching.{HaveSeenPmts, pids_of_program};
    ghost use Rattle.analyse.specs.Quiet.{LeavesPmts};

    /// Watches that have seen no slot.
    pub fn new(alloc: Global) -> Result<PmtWatches, AllocError>
        ensures { IfOk result (λ w. HaveSeenPmts w []) }
    {
        let mut watches = Vec::with_capacity(alloc, PID_COUNT)?;
        for _ in 0..PID_COUNT {
            watches.push_reserved(None);
        }
        Ok(PmtWatches { alloc, watches })
    }

    /// The elementary PIDs of the newest current PMT of a program on a PID, in the order of its rows.
    pub fn pids(&self, pid: u16, program: u16) -> Option<&[u16]>
        ensures { option_map (λ pids. pids.now) result ≡ pids_of_program self.now pid program }
    {
        let watch = self.watches.get(usize::from(pid))?;
        match watch {
            Some(watch) => watch.pids(program),
            None => None,
        }
    }

    /// Sees what the next slot is read as. An `Err` is want of memory.
    #[inline(always)]
    pub fn push(&mut self, packet: Option<&Packet>) -> Result<TableSeen, AllocError>
        ensures changed { IfOk result (λ seen. seen.changed ≡ false → (pid program : ℕ)
            → pids_of_program self.new pid program ≡ pids_of_program self.old pid program) }
        ensures seen { OnOk result ((slots : List (List ℕ)) (slot : List ℕ) → HaveSeenPmts self.old slots
            → IsReadAs slot (option_map (λ p. p.now) packet.entry) → HaveSeenPmts self.new (slots ++ slot ∷ [])) }
        ensures came { IfOk result (λ seen. (slots : List (List ℕ)) (slot : List ℕ) → HaveSeenPmts self.old slots
            → IsReadAs slot (option_map (λ p. p.now) packet.entry) → (pid : ℕ)
            → completes (pmts_of pid) (slots ++ slot ∷ []) (length slots + 1)
            ≡ (seen.came && is_of_packet (option_map (λ p. p.now) packet.entry) pid)) }
    {
        let nothing = TableSeen {
            came: false,
            changed: false,
        };
        let Some(packet) = packet else {
            return Ok(nothing);
        };
        if packet.scrambling() != 0 {
            return Ok(nothing);
        }
        let place = usize::from(packet.pid());
        // Let go with this packet.
        let mut told = Vec::new(self.alloc);
        let seen = see_packet(self.alloc, &mut self.watches[place], packet, &mut told)?;
        Ok(seen)
    }

    /// Whether this packet tells nothing and leaves the watches as they are.
    #[inline(always)]
    pub fn rest_at(&self, packet: &Packet) -> bool
        ensures { result ≡ true → LeavesPmts self.now packet.now }
    {
        if packet.scrambling() != 0 {
            return true;
        }
        match &self.watches[usize::from(packet.pid())] {
            Some(watch) => watch.rests(packet),
            _ => false,
        }
    }
}
