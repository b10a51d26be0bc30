//! The end of a feed that publishes.

ghost use Rattle.std.specs.Prelude.{◌≡◌, ℕ, List, [], ◌∷◌, ◌++◌, MatchBool, MatchResult};
ghost use Rattle.emission.specs.Spans.{IsEmissionOf};
ghost use Rattle.marks.specs.Marks.{FeedId, open_mark};
ghost use Rattle.schedule.specs.Schedule.{ScheduleValue};

use marks::Mark;
use std::alloc::AllocError;
use std::sync::Wait;
use tspkt::Packet;

/// What a `FeedWriter` knows of its end: the schedule and the feed that it is of, what was published, and what was appended and isn't
/// published yet. `Publisher` is one.
pub trait PublishingEnd {
    ghost feed: { Self → FeedId };

    ghost schedule: { Self → ScheduleValue };

    ghost published: { Self → List (List ℕ) };

    ghost pending: { Self → List (List ℕ) };

    // it was told of its feed, and each packet has the mark of all up to it
    ghost is_marked: { Self → Type 0 };

    /// Appends a packet with the mark of all packets up to it, and says whether it did. It doesn't only where there is no memory.
    fn append(&mut self, packet: Packet, mark: Mark) -> bool
        requires marked { is_marked self.old }
        requires mark { mark ≡ open_mark (feed self.old) (published self.old ++ (pending self.old ++ packet ∷ [])) }
        ensures marked { is_marked self.new }
        ensures feed { (feed self.new ≡ feed self.old) × (schedule self.new ≡ schedule self.old) }
        ensures published { published self.new ≡ published self.old }
        ensures pending { MatchBool result (pending self.new ≡ pending self.old ++ packet ∷ []) (pending self.new ≡ pending self.old) };

    /// Publishes what was appended, or nothing where there is no memory. It waits for readers that still read the copy that is
    /// brought up to date.
    fn publish<R: Wait>(&mut self, rt: &R) -> Result<(), AllocError>
        requires marked { is_marked self.old }
        requires lawful { IsEmissionOf (schedule self.old) (published self.old ++ pending self.old) }
        ensures marked { is_marked self.new }
        ensures feed { (feed self.new ≡ feed self.old) × (schedule self.new ≡ schedule self.old) }
        ensures published { MatchResult result
            (λ _. (published self.new ≡ published self.old ++ pending self.old) × (pending self.new ≡ []))
            (λ _. (published self.new ≡ published self.old) × (pending self.new ≡ pending self.old)) };

    /// The mark of what was published.
    fn mark(&self) -> Mark
        requires marked { is_marked self.now }
        ensures { result ≡ open_mark (feed self.now) (published self.now) };

    /// Waits for the readers that are reading, and ends the feed.
    fn close<R: Wait>(self, rt: &R);
}
