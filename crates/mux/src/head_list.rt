//! The heads of all queues, and which of them goes first.

ghost use Rattle.std.specs.Prelude.{◌≡◌, ◌*◌, ◌+◌, ◌<◌, ◌≤◌, ◌^◌, length, map, IfOk};
ghost use Rattle.mux.specs.Keeping.{head_time};
ghost use Rattle.mux.specs.HeadList.{IsRank, KeepsRanks, IsLeast};

use crate::first_head::FirstHead;
use crate::head::Head;
use buffers::PidQueue;
use request::Stream;
use std::alloc::{AllocError, Global};
use std::marker::Model;

/// How many heads a block has.
const BLOCK: usize = 8;

/// The least time without a rank: 2^48 - 1 ticks of 27 MHz, some 120 days. Each time below it makes one number of 64 bits with a
/// PID, which isn't the greatest.
pub(crate) const UNRANKED: u64 = 281_474_976_710_655;

/// The rank of a head, its time and then its PID as one number: it is less where the head goes before. A head without a rank has
/// the greatest number in its place.
#[inline(always)]
fn rank_of(head: Head) -> u64
    ensures { IsRank head result }
{
    if head.time < UNRANKED {
        head.time * 65_536 + u64::from(head.pid)
    } else {
        u64::MAX
    }
}

/// The head of the least rank of a block. Its place is as good as random: it is chosen by values and not by branches, which a
/// processor would foretell wrongly.
#[inline(always)]
fn first_of(ranks: &[u64], block: usize) -> FirstHead
    requires { 8 * block + 8 ≤ length ranks.now }
    ensures { IsLeast ranks.now block result }
{
    let from = BLOCK * block;
    let mut first = FirstHead {
        rank: ranks[from],
        place: from,
    };
    for i in 1..BLOCK {
        let rank = ranks[from + i];
        if rank < first.rank {
            first = FirstHead {
                rank,
                place: from + i,
            };
        }
    }
    first
}

/// The heads of the streams' queues, in the plan's order. Their ranks lie beside them, in blocks of eight, and of each block the
/// first: so a slot looks at the firsts, and a head that changes at its block.
#[derive(Drop)]
pub(crate) struct HeadList {
    heads: Vec<Head>,
    /// The ranks of the heads, and then the greatest number up to the end of the last block.
    ranks: Vec<u64>,
    /// The first head of each block.
    firsts: Vec<FirstHead>,
}

impl Model for HeadList {
    ghost use Rattle.std.specs.Prelude.{List};
    ghost use Rattle.mux.specs.declared.head.Head.{Head as HeadOf};
    ghost use Rattle.mux.specs.HeadList.{KeepsRanks, KeepsFirsts};

    ghost Value = { List HeadOf };

    ghost view = { λ h. h.heads.items };

    ghost invariant = { λ h. KeepsRanks h.heads.items h.ranks.items × KeepsFirsts h.ranks.items h.firsts.items };
}

/// The heads of these streams' queues.
fn heads_of(alloc: Global, streams: &[Stream], queues: &[PidQueue]) -> Result<Vec<Head>, AllocError>
    requires { length streams.now ≡ length queues.now }
    ensures times { IfOk result (λ v. map (λ h. h.time) v.items ≡ map head_time queues.now) }
    ensures pids { IfOk result (λ v. map (λ h. h.pid) v.items ≡ map (λ st. st.output_pid) streams.now) }
{
    let mut heads = Vec::with_capacity(alloc, streams.len())?;
    for i in 0..streams.len() {
        heads.push(Head {
            time: queues[i].head_time(),
            pid: streams[i].output_pid,
        })?;
    }
    Ok(heads)
}

/// The ranks of these heads, in so many blocks.
fn ranks_of(alloc: Global, heads: &[Head], blocks: usize) -> Result<Vec<u64>, AllocError>
    requires covers { length heads.now ≤ 8 * blocks }
    requires fits { 8 * blocks < 2 ^ 64 }
    ensures ranks { IfOk result (λ v. KeepsRanks heads.now v.items) }
    ensures size { IfOk result (λ v. length v.items ≡ 8 * blocks) }
{
    let mut ranks = Vec::with_capacity(alloc, BLOCK * blocks)?;
    for i in 0..BLOCK * blocks {
        let rank = match heads.get(i) {
            Some(head) => rank_of(*head),
            None => u64::MAX,
        };
        ranks.push(rank)?;
    }
    Ok(ranks)
}

impl HeadList {
    ghost use Rattle.std.specs.Prelude.{◌≡◌, ◌<◌, ◌≤◌, ℕ, length, map, slice_set, IfOk, IfSome, IfNone};
    ghost use Rattle.mux.specs.Keeping.{head_time};
    ghost use Rattle.mux.specs.HeadList.{IsFirst, head_at, with_time};

    /// The heads of these streams' queues.
    pub fn new(
        alloc: Global,
        streams: &[Stream],
        queues: &[PidQueue],
    ) -> Result<HeadList, AllocError>
        requires { length streams.now ≡ length queues.now }
        ensures times { IfOk result (λ h. map (λ x. x.time) h ≡ map head_time queues.now) }
        ensures pids { IfOk result (λ h. map (λ x. x.pid) h ≡ map (λ st. st.output_pid) streams.now) }
    {
        let heads = heads_of(alloc, streams, queues)?;
        let blocks = heads.len().div_ceil(BLOCK);
        let ranks = ranks_of(alloc, &heads, blocks)?;
        let mut firsts = Vec::with_capacity(alloc, blocks)?;
        for block in 0..blocks {
            firsts.push(first_of(&ranks, block))?;
        }
        Ok(HeadList {
            heads,
            ranks,
            firsts,
        })
    }

    /// The heads, side by side.
    pub fn all(&self) -> &[Head]
        ensures { result.now ≡ self.now }
    {
        &self.heads
    }

    /// The head that goes first of all, and its place; none where no head has a rank.
    #[inline(always)]
    pub fn first(&self) -> Option<(usize, Head)>
        ensures some { IfSome result (λ f. IsFirst self.now f.0 f.1) }
        ensures ranked { IfSome result (λ f. f.1.time < UNRANKED) }
        ensures none { IfNone result ((j : ℕ) → j < length self.now → UNRANKED ≤ (head_at self.now j).time) }
    {
        // Its block is chosen by values, as its place in the block is.
        let mut rank = u64::MAX;
        let mut least = 0;
        for block in 0..self.firsts.len() {
            let next = self.firsts[block].rank;
            if next < rank {
                rank = next;
                least = block;
            }
        }
        if rank == u64::MAX {
            return None;
        }
        let place = self.firsts[least].place;
        Some((place, self.heads[place]))
    }

    /// The head at a place has this time from now on.
    #[inline(always)]
    pub fn set(&mut self, index: usize, time: u64)
        requires { index < length self.old }
        ensures { self.new ≡ slice_set self.old index (with_time time (head_at self.old index)) }
    {
        let head = Head {
            time,
            pid: self.heads[index].pid,
        };
        let rank = rank_of(head);
        self.heads[index] = head;
        self.ranks[index] = rank;
        let block = index / BLOCK;
        let first = self.firsts[block];
        if rank < first.rank {
            self.firsts[block] = FirstHead { rank, place: index };
        } else if first.place == index {
            self.firsts[block] = first_of(&self.ranks, block);
        }
    }
}
