//! What gives a feed's packets their order.

ghost use Rattle.std.specs.Prelude.{◌≡◌, [], false, length, MatchBool};
ghost use Rattle.marks.specs.Marks.{open_mark, with_entry, with_packet, sealed};

use crate::entry::Entry;
use crate::mark::Mark;
use crate::sealed_last::SealedLast;
use logbook::{Seen, Start, Word};
use std::marker::Model;
use tspkt::Packet;

/// The sequence of a feed's packets, as the one who adds to it holds it. Contracts see it as the mark of all that was added.
#[derive(Drop)]
pub struct Sequence {
    word: Word<Entry, u64, SealedLast>,
    mark: Mark,
}

impl Model for Sequence {
    ghost use Rattle.std.specs.Prelude.{◌≡◌};
    ghost use Rattle.marks.specs.Marks.{MarkValue};
    ghost use Rattle.marks.specs.SealedLast.{word_of};

    ghost Value = { MarkValue };

    ghost view = { λ s. s.mark };

    ghost invariant = { λ s. s.word ≡ word_of s.mark.feed };
}

impl Sequence {
    /// The sequence of a new feed: nothing was added.
    pub fn new() -> Sequence
        ensures empty { result ≡ open_mark result.feed [] }
    {
        let (seen, mut first, _second) = Seen::open(Start::alone(), 0, 0);
        Sequence {
            word: Word::tracked(0, &mut first),
            mark: Mark {
                count: 0,
                is_sealed: false,
                seen,
            },
        }
    }

    /// A mark of all that was added.
    pub fn mark(&self) -> Mark
        ensures { result ≡ self.now }
    {
        self.mark.copy()
    }

    /// How many packets were added.
    pub fn count(&self) -> u64
        ensures { result ≡ length self.now.packets }
    {
        self.mark.count()
    }

    /// Whether it was sealed.
    pub fn is_sealed(&self) -> bool
        ensures { result ≡ self.now.is_sealed }
    {
        self.mark.is_sealed()
    }

    /// Adds an entry, and says whether it did.
    fn add(&mut self, entry: Entry) -> bool
        requires { self.old.is_sealed ≡ false }
        ensures { MatchBool result (self.new ≡ with_entry self.old entry) (self.new ≡ self.old) }
    {
        match self.mark.followed_by(&self.word, entry) {
            Some(mark) => {
                self.mark = mark;
                true
            }
            None => false,
        }
    }

    /// Adds a packet, and says whether it did. It doesn't only where 2^64 - 1 were added, or where another added in between,
    /// which no clause excludes and nobody can, since nobody else holds the sequence.
    pub fn push(&mut self, packet: Packet) -> bool
        requires { self.old.is_sealed ≡ false }
        ensures { MatchBool result (self.new ≡ with_packet self.old packet) (self.new ≡ self.old) }
    {
        self.add(Entry::Packet(packet))
    }

    /// Seals the sequence, and says whether it did: nothing is added any more. It refuses where `push` does.
    pub fn seal(&mut self) -> bool
        requires { self.old.is_sealed ≡ false }
        ensures { MatchBool result (self.new ≡ sealed self.old) (self.new ≡ self.old) }
    {
        self.add(Entry::Seal)
    }
}
