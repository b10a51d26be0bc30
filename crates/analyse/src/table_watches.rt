//! The watches of the PMTs, and of the PIDs to which they refer.

ghost use Rattle.std.specs.Prelude.{◌≡◌, ◌<◌, ◌&&◌, ℕ, option_map};
ghost use Rattle.std.specs.Option.{ForSome};
ghost use Rattle.tspkt.specs.declared.packet.TheConstants.{PID_COUNT};
ghost use Rattle.analyse.specs.GapsWatching.{is_of_packet, HasChanged};
ghost use Rattle.analyse.specs.TablesWatching.{scrambled_pid, watched_only};
ghost use Rattle.analyse.specs.WatchedPids.{is_pmt_pid_of, is_referred_of};

use crate::fault::Fault;
use crate::fault_kind::FaultKind;
use crate::gap_watches::GapWatches;
use crate::pmt_watches::PmtWatches;
use crate::watched_pids::{pmt_pids, referred_pids};
use std::alloc::{AllocError, Global};
use std::marker::Model;
use tables::PatRow;
use tspkt::Packet;

/// The PID of a scrambled packet.
#[inline(always)]
fn scrambled_pid(packet: Option<&Packet>) -> Option<u16>
    ensures value { result ≡ scrambled_pid (option_map (λ p. p.now) packet.entry) }
    ensures fits { ForSome result (λ pid. pid < PID_COUNT) }
{
    match packet {
        Some(packet) if packet.scrambling() != 0 => Some(packet.pid()),
        _ => None,
    }
}

/// The PID, where it is watched.
#[inline(always)]
fn watched_only(gaps: &GapWatches, pid: Option<u16>) -> Option<u16>
    requires { ForSome pid (λ pid. pid < PID_COUNT) }
    ensures value { result ≡ watched_only gaps.now pid }
    ensures fits { ForSome result (λ pid. pid < PID_COUNT) }
{
    match pid {
        Some(pid) if gaps.is_watched(pid) => Some(pid),
        _ => None,
    }
}

/// The packet, where it is a mark.
#[inline(always)]
fn packet_if(is_mark: bool, packet: Option<&Packet>) -> Option<&Packet>
    ensures { (pid : ℕ) → is_of_packet (option_map (λ p. p.now) result) pid
        ≡ (is_mark && is_of_packet (option_map (λ p. p.now) packet.entry) pid) }
{
    if is_mark { packet } else { None }
}

/// Sees a number of slots at which the PIDs of the PMTs are watched that these rows name. The set of them is large, and
/// made here so that no other call keeps room for it.
#[inline(never)]
fn change_pmts(gaps: &mut GapWatches, next: u64, rows: &[PatRow], pmt: Option<&Packet>)
    ensures { HasChanged gaps.old gaps.new (is_pmt_pid_of rows.now) next (option_map (λ p. p.now) pmt.entry) }
{
    gaps.change(next, &pmt_pids(rows), pmt);
}

/// The same of the PIDs to which the PMTs of these rows refer.
#[inline(never)]
fn change_pids(
    gaps: &mut GapWatches,
    next: u64,
    rows: &[PatRow],
    pmts: &PmtWatches,
    packet: Option<&Packet>,
)
    ensures { HasChanged gaps.old gaps.new (is_referred_of pmts.now rows.now) next (option_map (λ p. p.now) packet.entry) }
{
    gaps.change(next, &referred_pids(rows, pmts), packet);
}

/// Watches the PIDs that carry a PMT (ETSI TR 101 290, 5.2.1: PMT_error_2), and those to which a PMT refers as elementary
/// PIDs (PID_error).
#[derive(Drop)]
pub struct TableWatches {
    pmts: PmtWatches,
    pmt_gaps: GapWatches,
    pid_gaps: GapWatches,
}

impl Model for TableWatches {
    ghost use Rattle.analyse.specs.TablesWatching.{TablesState};

    ghost Value = { TablesState };

    ghost view = { λ w. record { pmts = w.pmts; pmt_gaps = w.pmt_gaps; pid_gaps = w.pid_gaps } };
}

impl TableWatches {
    ghost use Rattle.std.specs.Prelude.{◌≡◌, ◌+◌, ◌<◌, ◌∷◌, ◌++◌, [], ℕ, List, length, Some, true, false, IfOk, OnOk, option_map};
    ghost use Rattle.tspkt.specs.Packet.{pid_of};
    ghost use Rattle.analyse.specs.SlotReading.{IsReadAs};
    ghost use Rattle.analyse.specs.InForce.{program_rows_behind};
    ghost use Rattle.analyse.specs.TablesWatching.{HaveSeenTables, table_faults_at};
    ghost use Rattle.analyse.specs.Quiet.{LeavesTables};

    /// Watches that have seen no slot. A PMT has to come within `limit` slots, a packet within `period`.
    pub fn new(alloc: Global, limit: u64, period: u64) -> Result<TableWatches, AllocError>
        ensures limit { IfOk result (λ w. w.pmt_gaps.limit ≡ limit) }
        ensures period { IfOk result (λ w. w.pid_gaps.limit ≡ period) }
        ensures seen { IfOk result (λ w. HaveSeenTables w []) }
    {
        Ok(TableWatches {
            pmts: PmtWatches::new(alloc)?,
            pmt_gaps: GapWatches::new(alloc, limit)?,
            pid_gaps: GapWatches::new(alloc, period)?,
        })
    }

    /// Tells the faults of the next slot behind those of `out`. `count` is the number of slots before it, and `packet` what
    /// it is read as. An `Err` is want of memory.
    #[inline(always)]
    pub fn tell(
        &mut self,
        count: u64,
        packet: Option<&Packet>,
        out: &mut Vec<Fault>,
    ) -> Result<(), AllocError>
        ensures limit { self.new.pmt_gaps.limit ≡ self.old.pmt_gaps.limit }
        ensures period { self.new.pid_gaps.limit ≡ self.old.pid_gaps.limit }
        ensures seen { OnOk result ((slots : List (List ℕ)) → HaveSeenTables self.old slots → length slots ≡ count
            → HaveSeenTables self.new slots) }
        ensures told { OnOk result ((slots : List (List ℕ)) (slot : List ℕ) → HaveSeenTables self.old slots
            → length slots ≡ count → IsReadAs slot (option_map (λ p. p.now) packet.entry)
            → out.new.items ≡ out.old.items
            ++ table_faults_at self.old.pmt_gaps.limit self.old.pid_gaps.limit (slots ++ slot ∷ []) count) }
    {
        let also = watched_only(&self.pmt_gaps, scrambled_pid(packet));
        self.pmt_gaps.tell(count, also, FaultKind::PmtError2, out)?;
        self.pid_gaps.tell(count, None, FaultKind::PidError, out)?;
        Ok(())
    }

    /// Whether nothing is told at the slot behind so many, where it is this packet, and of the PMTs all stays as it is.
    #[inline(always)]
    pub fn rest_at(&self, count: u64, packet: &Packet) -> bool
        ensures { result ≡ true → LeavesTables self.now count packet.now }
    {
        if !self.pmt_gaps.is_early(count) {
            return false;
        }
        if !self.pid_gaps.is_early(count) {
            return false;
        }
        match watched_only(&self.pmt_gaps, scrambled_pid(Some(packet))) {
            Some(_) => false,
            None => self.pmts.rest_at(packet),
        }
    }

    /// Sees such a packet, of this PID, behind which the PAT in force has the same rows as before.
    #[inline(always)]
    pub fn pass(&mut self, next: u64, pid: u16)
        requires { pid < PID_COUNT }
        ensures limit { self.new.pmt_gaps.limit ≡ self.old.pmt_gaps.limit }
        ensures period { self.new.pid_gaps.limit ≡ self.old.pid_gaps.limit }
        ensures seen { (slots : List (List ℕ)) (slot packet : List ℕ) → HaveSeenTables self.old slots
            → length slots + 1 ≡ next → IsReadAs slot (Some packet) → pid_of packet ≡ pid
            → LeavesTables self.old (length slots) packet
            → program_rows_behind (slots ++ slot ∷ []) ≡ program_rows_behind slots
            → HaveSeenTables self.new (slots ++ slot ∷ []) }
    {
        self.pid_gaps.pass_marked(next, pid);
    }

    /// Sees what the next slot is read as, behind which the PAT in force has these rows of programs; `changed` is false
    /// only where it had them before. An `Err` is want of memory.
    #[inline(always)]
    pub fn push(
        &mut self,
        next: u64,
        packet: Option<&Packet>,
        rows: &[PatRow],
        changed: bool,
    ) -> Result<(), AllocError>
        ensures limit { self.new.pmt_gaps.limit ≡ self.old.pmt_gaps.limit }
        ensures period { self.new.pid_gaps.limit ≡ self.old.pid_gaps.limit }
        ensures seen { OnOk result ((slots : List (List ℕ)) (slot : List ℕ) → HaveSeenTables self.old slots
            → length slots + 1 ≡ next → IsReadAs slot (option_map (λ p. p.now) packet.entry)
            → rows.now ≡ program_rows_behind (slots ++ slot ∷ [])
            → (changed ≡ false → program_rows_behind (slots ++ slot ∷ []) ≡ program_rows_behind slots)
            → HaveSeenTables self.new (slots ++ slot ∷ [])) }
    {
        let seen = self.pmts.push(packet)?;
        let pmt = packet_if(seen.came, packet);
        if changed || seen.changed {
            change_pmts(&mut self.pmt_gaps, next, rows, pmt);
            change_pids(&mut self.pid_gaps, next, rows, &self.pmts, packet);
            return Ok(());
        }
        self.pmt_gaps.pass(next, pmt);
        self.pid_gaps.pass(next, packet);
        Ok(())
    }
}
