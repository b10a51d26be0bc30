//! The watch of one thing that has to come within a limit of slots.

ghost use Rattle.std.specs.Prelude.{◌≡◌};
ghost use Rattle.analyse.specs.GapWatching.{since_behind};

use std::marker::Model;

/// The mark whose gap is open behind `count` slots.
pub fn since_behind(since: Option<u64>, count: u64, watched: bool, mark: bool) -> Option<u64>
    ensures { result ≡ since_behind since count watched mark }
{
    if !watched {
        return None;
    }
    if mark { Some(count) } else { since }
}

/// Watches one thing that has to come at least once in so many slots (the limits of ETSI TR 101 290, 5.2.1, in slots).
///
/// It is asked of numbers of slots, from 0 on: behind the first `count` slots, is the thing watched, and is the last
/// of those slots a mark?
#[derive(Drop)]
pub struct GapWatch {
    limit: u64,
    since: Option<u64>,
}

impl Model for GapWatch {
    ghost use Rattle.analyse.specs.GapWatching.{GapState};

    ghost Value = { GapState };

    ghost view = { λ w. record { limit = w.limit; since = w.since } };
}

impl GapWatch {
    ghost use Rattle.std.specs.Prelude.{◌≡◌, ◌+◌, ℕ, Bool};
    ghost use Rattle.analyse.specs.GapWatching.{new_gap, is_told, HasSeenNumbers};
    ghost use Rattle.analyse.specs.Gaps.{is_gap_at};

    /// A watch with this limit that has seen nothing.
    pub fn new(limit: u64) -> GapWatch
        ensures state { result ≡ new_gap limit }
        ensures seen { (watched mark : ℕ → Bool) → HasSeenNumbers result watched mark 0 }
    {
        GapWatch { limit, since: None }
    }

    /// Sees what holds behind the first `count` slots, and answers whether a gap is told at the slot that comes next:
    /// the thing was watched, and no mark came, for as many slots as the limit says and no more.
    #[inline(always)]
    pub fn push(&mut self, count: u64, watched: bool, mark: bool) -> bool
        ensures seen { (is_watched is_mark : ℕ → Bool) → HasSeenNumbers self.old is_watched is_mark count
            → is_watched count ≡ watched → is_mark count ≡ mark
            → HasSeenNumbers self.new is_watched is_mark (count + 1) }
        ensures told { (is_watched is_mark : ℕ → Bool) → HasSeenNumbers self.old is_watched is_mark count
            → is_watched count ≡ watched → is_mark count ≡ mark
            → result ≡ is_gap_at self.old.limit is_watched is_mark count }
        ensures limit { self.new.limit ≡ self.old.limit }
    {
        self.since = since_behind(self.since, count, watched, mark);
        self.is_told(count)
    }

    /// Whether the open gap is as long as the limit.
    #[inline(always)]
    pub fn is_told(&self, count: u64) -> bool
        ensures { result ≡ is_told self.now count }
    {
        match self.since {
            Some(since) => since <= count && count - since == self.limit,
            None => false,
        }
    }
}
