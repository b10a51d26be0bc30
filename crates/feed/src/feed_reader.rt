//! A reader of a feed.

ghost use Rattle.std.specs.Prelude.{◌≡◌, ◌⊎◌, ◌<◌, ◌≤◌, [], ◌++◌, vec_len, vec_capacity, IfErr, OnOk};
ghost use Rattle.emission.specs.Spans.{IsEmissionOf};
ghost use Rattle.marks.specs.Marks.{Begins};

use crate::not_let_in::NotLetIn;
use crate::reader_end::ReaderEnd;
use crate::reading_end::ReadingEnd;
use marks::Mark;
use std::marker::Model;
use tspkt::Packet;

/// A reader of a feed. Contracts see the schedule of the feed, all that the reader knows of the feed, by what it read and by marks,
/// and all that it has read, in order: a beginning of what it knows. None of its calls locks, waits or asks for memory.
#[derive(Drop)]
pub struct FeedReader<E: ReadingEnd + Drop = ReaderEnd> {
    pub(crate) end: E,
    pub(crate) known: Mark,
    /// How many packets were read.
    pub(crate) count: usize,
}

impl<E: ReadingEnd + Drop> Model for FeedReader<E> {
    ghost use Rattle.std.specs.Prelude.{◌≤◌, length, take};
    ghost use Rattle.emission.specs.Spans.{IsEmissionOf};
    ghost use Rattle.feed.specs.Readers.{FeedReaderValue};

    ghost Value = { FeedReaderValue };

    ghost view = { λ r. record { schedule = E.schedule r.end; known = r.known; read = take r.count r.known.packets } };

    ghost invariant = { λ r. E.is_told r.known.feed r.end × (r.count ≤ length r.known.packets)
        × IsEmissionOf (E.schedule r.end) (take r.count r.known.packets) };
}

impl<E: ReadingEnd + Drop> FeedReader<E> {
    /// Learns a mark of its feed: it reads no less from then on.
    pub fn learn(&mut self, mark: Mark)
        requires { mark.feed ≡ self.old.known.feed }
        ensures reader { self.new ≡ record self.old { known = self.new.known } }
        ensures mark { Begins mark self.new.known }
        ensures known { Begins self.old.known self.new.known }
        ensures one { (self.new.known ≡ self.old.known) ⊎ (self.new.known ≡ mark) }
    {
        let FeedReader { known, .. } = self;
        *known = known.later(&mark);
    }

    /// Reads on: at most so many of the packets that were published and that it hasn't read come into the piece, in place of what
    /// stood there. Where fewer came it has read all that was published when it looked, and the list of each mark that it learnt
    /// begins what it read; of a sealed one it is the whole list. It refuses where the feed is closed, and nothing was read.
    pub fn read(&mut self, piece: &mut Vec<Packet>, most: usize) -> Result<(), NotLetIn>
        requires room { most ≤ vec_capacity piece.old }
        ensures schedule { self.new.schedule ≡ self.old.schedule }
        ensures read { self.new.read ≡ self.old.read ++ piece.new.items }
        ensures known { Begins self.old.known self.new.known }
        ensures most { vec_len piece.new ≤ most }
        ensures whole { OnOk result (vec_len piece.new < most → self.new.read ≡ self.new.known.packets) }
        ensures refused { IfErr result (λ _. (self.new ≡ self.old) × (piece.new.items ≡ [])) }
        ensures lawful { IsEmissionOf self.new.schedule self.new.read }
        ensures room { vec_capacity piece.old ≤ vec_capacity piece.new }
    {
        let FeedReader { end, known, count } = self;
        let Some(shown) = end.read(known, *count, piece, most) else {
            return Err(NotLetIn);
        };
        *known = shown;
        *count += piece.len();
        Ok(())
    }
}
