//! How far a feed went.

ghost use Rattle.std.specs.Prelude.{◌≡◌, ◌≤◌, ◌⊎◌, length, false, MatchBool, IfSome};
ghost use Rattle.marks.specs.Marks.{Begins, steps_of, with_entry};
ghost use Rattle.marks.specs.SealedLast.{word_of};

use crate::add_entry::AddEntry;
use crate::entry::Entry;
use crate::no_gain::NoGain;
use crate::sealed_last::SealedLast;
use logbook::{Offer, Seen, Word};
use std::marker::Model;

/// A beginning of a feed's packets that was reached. Contracts see which feed it is of, its packets, and whether these are all
/// that the feed will ever have. A number and a flag are all that it takes. It can be sent to another thread.
#[derive(Drop)]
pub struct Mark {
    pub(crate) count: u64,
    pub(crate) is_sealed: bool,
    pub(crate) seen: Seen<Entry, u64, SealedLast>,
}

impl Model for Mark {
    ghost use Rattle.std.specs.Prelude.{◌≡◌, length};
    ghost use Rattle.marks.specs.Entries.{packets_of, has_seal, IsSealedLast};
    ghost use Rattle.marks.specs.Marks.{MarkValue, mark_of};

    ghost Value = { MarkValue };

    ghost view = { λ m. mark_of m.seen.book m.seen.log };

    ghost invariant = { λ m. (m.count ≡ length (packets_of m.seen.log)) × (m.is_sealed ≡ has_seal m.seen.log)
        × IsSealedLast m.seen.log };
}

impl Mark {
    /// How many packets it has.
    pub fn count(&self) -> u64
        ensures { result ≡ length self.now.packets }
    {
        self.count
    }

    /// Whether its packets are all that the feed will ever have.
    pub fn is_sealed(&self) -> bool
        ensures { result ≡ self.now.is_sealed }
    {
        self.is_sealed
    }

    /// An equal mark.
    pub fn copy(&self) -> Mark
        ensures { result ≡ self.now }
    {
        Mark {
            count: self.count,
            is_sealed: self.is_sealed,
            seen: self.seen.again(),
        }
    }

    /// Whether the other is the later one of two marks of one feed.
    fn is_before(&self, other: &Mark) -> bool
        ensures { MatchBool result (steps_of self.now ≤ steps_of other.now) (steps_of other.now ≤ steps_of self.now) }
    {
        self.count < other.count || (self.count == other.count && !self.is_sealed)
    }

    /// The later of two marks of one feed: the other one begins it.
    pub fn later(&self, other: &Mark) -> Mark
        requires { other.now.feed ≡ self.now.feed }
        ensures one { (result ≡ self.now) ⊎ (result ≡ other.now) }
        ensures this { Begins self.now result }
        ensures that { Begins other.now result }
        ensures packets { length self.now.packets ≤ length other.now.packets → result.packets ≡ other.now.packets }
    {
        let mut both = self.seen.again();
        both.learn(&other.seen);
        if self.is_before(other) {
            other.copy()
        } else {
            self.copy()
        }
    }

    /// The mark once the entry was added behind it.
    pub(crate) fn followed_by(
        &self,
        word: &Word<Entry, u64, SealedLast>,
        entry: Entry,
    ) -> Option<Mark>
        requires word { word.now ≡ word_of self.now.feed }
        requires open { self.now.is_sealed ≡ false }
        ensures { IfSome result (λ mark. mark ≡ with_entry self.now entry) }
    {
        let count = self.count;
        let more = count.checked_add(1)?;
        let mut seen = self.seen.again();
        let mut offer: Offer<Entry, u64, SealedLast, NoGain> = seen.plain::<
            NoGain,
            Entry,
            AddEntry,
        >(&entry);
        let mut pen = seen.no_pen();
        let found = word.compare_exchange::<AddEntry, NoGain>(
            count, more, &mut seen, &mut offer, &mut pen,
        );
        if found != count {
            return None;
        }
        match entry {
            Entry::Packet(_) => Some(Mark {
                count: more,
                is_sealed: false,
                seen,
            }),
            Entry::Seal => Some(Mark {
                count,
                is_sealed: true,
                seen,
            }),
        }
    }
}
