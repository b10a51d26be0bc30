//! The end of a feed that reads.

ghost use Rattle.std.specs.Prelude.{◌≡◌, ℕ, ◌-◌, ◌≤◌, [], length, take, drop, vec_capacity, MatchOption};
ghost use Rattle.emission.specs.Spans.{IsEmissionOf};
ghost use Rattle.marks.specs.Marks.{FeedId, Begins};
ghost use Rattle.schedule.specs.Schedule.{ScheduleValue};

use marks::Mark;
use tspkt::Packet;

/// What a `FeedReader` knows of its end: its schedule, and which feed it was told of. `ReaderEnd` is one.
pub trait ReadingEnd {
    ghost schedule: { Self → ScheduleValue };

    // it was told of this feed
    ghost is_told: { FeedId → Self → Type 0 };

    /// Copies what was published behind the first so many packets into the piece, at most `most` packets, in place of what stood
    /// there, and answers the mark of all that was published, which the mark that is known begins. None is answered where the
    /// feed is closed.
    fn read(
        &mut self,
        known: &Mark,
        count: usize,
        piece: &mut Vec<Packet>,
        most: usize,
    ) -> Option<Mark>
        requires told { is_told known.now.feed self.old }
        requires count { count ≤ length known.now.packets }
        requires room { most ≤ vec_capacity piece.old }
        ensures told { is_told known.now.feed self.new }
        ensures schedule { schedule self.new ≡ schedule self.old }
        ensures shown { MatchOption result (piece.new.items ≡ []) (λ shown. Begins known.now shown
            × (piece.new.items ≡ take most (drop count shown.packets)) × IsEmissionOf (schedule self.old) shown.packets) }
        ensures room { vec_capacity piece.old ≤ vec_capacity piece.new };
}
