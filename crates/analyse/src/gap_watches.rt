//! The watches of the gaps of all PIDs.

ghost use Rattle.std.specs.Prelude.{◌≡◌, ◌+◌, ◌++◌, ◌≤◌, option_map, IfSome, OnOk};
ghost use Rattle.analyse.specs.GapsWatching.{is_of_packet, is_also, told_also};
ghost use Rattle.analyse.specs.GapWatching.{is_long};

use crate::fault::Fault;
use crate::fault_kind::FaultKind;
use crate::gap_watch::since_behind;
use std::alloc::{AllocError, Global};
use std::marker::Model;
use tspkt::{PID_COUNT, Packet};

/// Whether an open gap is as long as the limit behind `count` slots.
fn is_long(limit: u64, count: u64, since: Option<u64>) -> bool
    ensures { result ≡ is_long limit count since }
{
    match since {
        Some(since) => since <= count && count - since == limit,
        None => false,
    }
}

/// Whether it is the PID.
fn is_also(also: Option<u16>, pid: u16) -> bool
    ensures { result ≡ is_also also pid }
{
    match also {
        Some(other) => other == pid,
        None => false,
    }
}

/// The lesser of a bound and the slot at which a gap that opens behind so many slots falls due.
fn lesser_due(due: u64, since: u64, limit: u64) -> u64
    ensures below { result ≤ due }
    ensures at_most { result ≤ since + limit }
{
    due.min(since.saturating_add(limit))
}

/// The lesser of a bound and the slot at which an open gap falls due, where that is not before this slot.
fn due_with(due: u64, since: Option<u64>, limit: u64, count: u64) -> u64
    ensures below { result ≤ due }
    ensures at_most { IfSome since (λ first. count ≤ first + limit → result ≤ first + limit) }
{
    match since {
        Some(first) if count <= first.saturating_add(limit) => lesser_due(due, first, limit),
        _ => due,
    }
}

/// Whether it is a packet of this PID.
fn is_of_packet(packet: Option<&Packet>, pid: u16) -> bool
    ensures { result ≡ is_of_packet (option_map (λ p. p.now) packet.entry) pid }
{
    match packet {
        Some(packet) => packet.pid() == pid,
        None => false,
    }
}

/// Tells the PID `also`, where there is one.
#[inline(always)]
fn tell_also(
    count: u64,
    also: Option<u16>,
    kind: FaultKind,
    out: &mut Vec<Fault>,
) -> Result<(), AllocError>
    ensures { OnOk result (out.new.items ≡ out.old.items ++ told_also also kind count) }
{
    if let Some(pid) = also {
        out.push(Fault {
            slot: count,
            kind,
            pid: Some(pid),
        })?;
    }
    Ok(())
}

/// Watches of each PID whether something of it comes at least once in so many slots (the limits of ETSI TR 101 290,
/// 5.2.1, in slots). A number of slots at which nothing happens to a PID costs nothing, and so does a slot at which no gap
/// can fall due.
#[derive(Drop)]
pub struct GapWatches {
    limit: u64,
    watched: Vec<bool>,
    since: Vec<Option<u64>>,
    /// No gap falls due before this slot.
    due: u64,
}

impl Model for GapWatches {
    ghost use Rattle.tspkt.specs.declared.packet.TheConstants.{PID_COUNT};
    ghost use Rattle.std.specs.Prelude.{◌≡◌, length};
    ghost use Rattle.analyse.specs.GapsWatching.{GapsState};

    ghost Value = { GapsState };

    ghost view = { λ w. record { limit = w.limit; watched = w.watched.items; since = w.since.items; due = w.due } };

    ghost invariant = { λ w. (length w.watched.items ≡ PID_COUNT) × (length w.since.items ≡ PID_COUNT) };
}

impl GapWatches {
    ghost use Rattle.std.specs.Prelude.{◌≡◌, ◌+◌, ◌++◌, ◌<◌, ◌||◌, ℕ, Bool, List, Some, true, false, option_map, slice_index_or, IfOk, OnOk};
    ghost use Rattle.std.specs.Option.{ForSome};
    ghost use Rattle.tspkt.specs.Packet.{pid_of};
    ghost use Rattle.analyse.specs.Faults.{told_if};
    ghost use Rattle.analyse.specs.GapWatching.{is_long};
    ghost use Rattle.analyse.specs.GapsWatching.{is_watched, since_of, ChangesTo, IsChangedAt, IsLowered, IsDue, HaveSeenNumbers, OnlyMarked, gaps_at, long_gaps};

    /// Watches with this limit that have seen nothing.
    pub fn new(alloc: Global, limit: u64) -> Result<GapWatches, AllocError>
        ensures limit { IfOk result (λ w. w.limit ≡ limit) }
        ensures watched { IfOk result (λ w. (pid : ℕ) → is_watched w pid ≡ false) }
        ensures seen { IfOk result (λ w. (watched mark : ℕ → ℕ → Bool) → HaveSeenNumbers w watched mark 0) }
    {
        let mut watched = Vec::new(alloc);
        watched.resize(PID_COUNT, false)?;
        let mut since = Vec::new(alloc);
        since.resize(PID_COUNT, None)?;
        Ok(GapWatches {
            limit,
            watched,
            since,
            due: u64::MAX,
        })
    }

    /// Sees a number of slots at which the same PIDs are watched as before, and the last slot is a mark of its PID, if it
    /// is this packet, and of no other.
    #[inline(always)]
    pub fn pass(&mut self, count: u64, marked: Option<&Packet>)
        ensures limit { self.new.limit ≡ self.old.limit }
        ensures watched { self.new.watched ≡ self.old.watched }
        ensures seen { (watched mark : ℕ → ℕ → Bool) → HaveSeenNumbers self.old watched mark count
            → OnlyMarked self.old watched mark count (option_map (λ p. p.now) marked.entry)
            → HaveSeenNumbers self.new watched mark (count + 1) }
    {
        if let Some(packet) = marked {
            self.pass_marked(count, packet.pid());
        }
    }

    /// The same, where the last slot is a mark of this PID.
    #[inline(always)]
    pub fn pass_marked(&mut self, count: u64, pid: u16)
        requires { pid < PID_COUNT }
        ensures limit { self.new.limit ≡ self.old.limit }
        ensures watched { self.new.watched ≡ self.old.watched }
        ensures seen { (watched mark : ℕ → ℕ → Bool) (packet : List ℕ) → pid_of packet ≡ pid
            → HaveSeenNumbers self.old watched mark count → OnlyMarked self.old watched mark count (Some packet)
            → HaveSeenNumbers self.new watched mark (count + 1) }
    {
        let place = usize::from(pid);
        if self.watched[place] {
            self.since[place] = Some(count);
            self.due = lesser_due(self.due, count, self.limit);
        }
    }

    /// Whether the PID is watched.
    #[inline(always)]
    pub fn is_watched(&self, pid: u16) -> bool
        requires { pid < PID_COUNT }
        ensures { result ≡ is_watched self.now pid }
    {
        self.watched[usize::from(pid)]
    }

    /// Whether no gap can fall due at the slot behind so many.
    #[inline(always)]
    pub fn is_early(&self, count: u64) -> bool
        ensures { result ≡ true → count < self.now.due }
    {
        count < self.due
    }

    /// Sees a number of slots at which these PIDs are watched. A PID that wasn't watched before has a mark, and so has the
    /// PID of this packet, if the last slot is a mark.
    pub fn change(&mut self, count: u64, set: &[bool; 8192], marked: Option<&Packet>)
        ensures seen { (watched mark : ℕ → ℕ → Bool) → HaveSeenNumbers self.old watched mark count
            → ChangesTo self.old set.now watched mark count (option_map (λ p. p.now) marked.entry)
            → HaveSeenNumbers self.new watched mark (count + 1) }
        ensures watched { (pid : ℕ) → pid < PID_COUNT → is_watched self.new pid ≡ slice_index_or set.now pid false }
        ensures limit { self.new.limit ≡ self.old.limit }
    {
        self.lower_due(count);
        for pid in 0..8192_u16 {
            self.change_one(count, pid, set[usize::from(pid)], is_of_packet(marked, pid));
        }
    }

    /// A gap may open behind so many slots.
    fn lower_due(&mut self, count: u64)
        ensures { IsLowered self.old self.new count }
    {
        self.due = lesser_due(self.due, count, self.limit);
    }

    /// One PID's part of a change.
    fn change_one(&mut self, count: u64, pid: u16, watched: bool, marked: bool)
        requires { pid < PID_COUNT }
        ensures { IsChangedAt self.old self.new count pid watched marked }
    {
        let place = usize::from(pid);
        let mark = marked || watched && !self.watched[place];
        self.since[place] = since_behind(self.since[place], count, watched, mark);
        self.watched[place] = watched;
    }

    /// Tells the gaps of the slot behind `count` slots, and the PID `also` as if it had one, in the order of PIDs and
    /// behind those of `out`. An `Err` is want of memory.
    #[inline(always)]
    pub fn tell(
        &mut self,
        count: u64,
        also: Option<u16>,
        kind: FaultKind,
        out: &mut Vec<Fault>,
    ) -> Result<(), AllocError>
        requires { ForSome also (λ pid. pid < PID_COUNT) }
        ensures limit { self.new.limit ≡ self.old.limit }
        ensures watched { self.new.watched ≡ self.old.watched }
        ensures seen { (watched mark : ℕ → ℕ → Bool) → HaveSeenNumbers self.old watched mark (count + 1)
            → HaveSeenNumbers self.new watched mark (count + 1) }
        ensures told { OnOk result ((watched mark : ℕ → ℕ → Bool) → HaveSeenNumbers self.old watched mark (count + 1)
            → out.new.items ≡ out.old.items ++ gaps_at self.old.limit watched mark also kind count) }
    {
        self.renew_due(count);
        self.tell_due(count, also, kind, out)
    }

    /// Finds anew the slot at which a gap can fall due, where it has come.
    #[inline(always)]
    fn renew_due(&mut self, count: u64)
        ensures limit { self.new.limit ≡ self.old.limit }
        ensures watched { self.new.watched ≡ self.old.watched }
        ensures seen { (watched mark : ℕ → ℕ → Bool) → HaveSeenNumbers self.old watched mark (count + 1)
            → HaveSeenNumbers self.new watched mark (count + 1) }
    {
        if self.due <= count {
            self.due = self.next_due(count);
        }
    }

    /// Tells the gaps of the slot behind `count` slots, and `also`; all PIDs are gone through only where one can fall due.
    #[inline(always)]
    fn tell_due(
        &self,
        count: u64,
        also: Option<u16>,
        kind: FaultKind,
        out: &mut Vec<Fault>,
    ) -> Result<(), AllocError>
        requires { ForSome also (λ pid. pid < PID_COUNT) }
        ensures { OnOk result ((watched mark : ℕ → ℕ → Bool) → HaveSeenNumbers self.now watched mark (count + 1)
            → out.new.items ≡ out.old.items ++ gaps_at self.now.limit watched mark also kind count) }
    {
        if count < self.due {
            return tell_also(count, also, kind, out);
        }
        self.tell_long(count, also, kind, out)
    }

    /// The least slot, from this one on, at which an open gap falls due.
    #[inline(never)]
    fn next_due(&self, count: u64) -> u64
        ensures { IsDue self.now count result }
    {
        let mut due = u64::MAX;
        for since in &self.since {
            due = due_with(due, *since, self.limit, count);
        }
        due
    }

    /// Tells the open gaps that are as long as the limit, and `also`.
    #[inline(never)]
    fn tell_long(
        &self,
        count: u64,
        also: Option<u16>,
        kind: FaultKind,
        out: &mut Vec<Fault>,
    ) -> Result<(), AllocError>
        ensures { OnOk result (out.new.items ≡ out.old.items ++ long_gaps self.now also kind count PID_COUNT) }
    {
        for pid in 0..8192_u16 {
            self.tell_one(count, pid, is_also(also, pid), kind, out)?;
        }
        Ok(())
    }

    /// Tells one PID, where its gap is as long as the limit or it is to be told too.
    fn tell_one(
        &self,
        count: u64,
        pid: u16,
        is_also: bool,
        kind: FaultKind,
        out: &mut Vec<Fault>,
    ) -> Result<(), AllocError>
        requires { pid < PID_COUNT }
        ensures { OnOk result (out.new.items ≡ out.old.items
            ++ told_if (is_long self.now.limit count (since_of self.now pid) || is_also) kind count (Some pid)) }
    {
        if is_long(self.limit, count, self.since[usize::from(pid)]) || is_also {
            out.push(Fault {
                slot: count,
                kind,
                pid: Some(pid),
            })?;
        }
        Ok(())
    }
}
