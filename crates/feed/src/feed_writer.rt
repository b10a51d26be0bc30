//! The writer of a feed.

ghost use Rattle.std.specs.Prelude.{◌≡◌, [], ◌∷◌, ◌++◌, true, false, length, None, MatchResult, MatchOption, MatchBool};
ghost use Rattle.emission.specs.Spans.{IsEmissionOf};
ghost use Rattle.feed.specs.Writers.{mark_of_published, list_of, KeepsOrder};

use crate::publisher::Publisher;
use crate::publishing_end::PublishingEnd;
use marks::{Mark, Sequence};
use std::alloc::AllocError;
use std::marker::Model;
use std::sync::Wait;
use tspkt::Packet;

/// The end of a feed that publishes. Contracts see which feed it is and its schedule, which never change, the packets that were
/// published, those that are behind, that is, appended and not yet published, and whether the feed is sealed. It isn't `Drop`:
/// end it by `close`.
pub struct FeedWriter<E: PublishingEnd = Publisher> {
    pub(crate) end: E,
    pub(crate) sequence: Sequence,
    /// A packet of the sequence that the end had no memory for yet: the last one that is behind.
    pub(crate) held: Option<Packet>,
}

impl<E: PublishingEnd> Model for FeedWriter<E> {
    ghost use Rattle.std.specs.Prelude.{◌++◌};
    ghost use Rattle.feed.specs.Writers.{FeedWriterValue, KeepsOrder, list_of};

    ghost Value = { FeedWriterValue };

    ghost view = { λ w. record {
      feed = w.sequence.feed;
      schedule = E.schedule w.end;
      published = E.published w.end;
      behind = E.pending w.end ++ list_of w.held;
      is_sealed = w.sequence.is_sealed;
    } };

    ghost invariant = { λ w. E.is_marked w.end
        × KeepsOrder w.sequence (E.feed w.end) (E.published w.end) (E.pending w.end) w.held };
}

/// Gives the packet that is held to the end, and says whether none is held any more: it is held on where there is no memory.
fn settle<E: PublishingEnd>(end: &mut E, sequence: &Sequence, held: &mut Option<Packet>) -> bool
    requires marked { E.is_marked end.old }
    requires order { KeepsOrder sequence.now (E.feed end.old) (E.published end.old) (E.pending end.old) held.old }
    ensures marked { E.is_marked end.new }
    ensures order { KeepsOrder sequence.now (E.feed end.new) (E.published end.new) (E.pending end.new) held.new }
    ensures feed { (E.feed end.new ≡ E.feed end.old) × (E.schedule end.new ≡ E.schedule end.old) }
    ensures published { E.published end.new ≡ E.published end.old }
    ensures behind { E.pending end.new ++ list_of held.new ≡ E.pending end.old ++ list_of held.old }
    ensures none { result ≡ true → held.new ≡ None }
{
    let Some(packet) = *held else {
        return true;
    };
    if !end.append(packet, sequence.mark()) {
        return false;
    }
    *held = None;
    true
}

impl<E: PublishingEnd> FeedWriter<E> {
    /// Appends a packet, which readers don't see before the next `publish`. It is handed back, and nothing changed, where there is
    /// no memory for the packet before it, or where the feed has 2^64 - 1 packets. (No clause excludes that it is handed back
    /// elsewhere.)
    pub fn append(&mut self, packet: Packet) -> Result<(), Packet>
        requires open { self.old.is_sealed ≡ false }
        ensures { MatchResult result
            (λ _. self.new ≡ record self.old { behind = self.old.behind ++ packet ∷ [] })
            (λ back. (back ≡ packet) × (self.new ≡ self.old)) }
    {
        let FeedWriter {
            end,
            sequence,
            held,
        } = self;
        if !settle(end, sequence, held) || !sequence.push(packet) {
            return Err(packet);
        }
        *held = Some(packet);
        settle(end, sequence, held);
        Ok(())
    }

    /// Publishes all that is behind, or nothing where there is no memory. It waits for readers that are reading. What is published
    /// is copied once for each of two copies, so it is best called once for many packets.
    pub fn publish<R: Wait>(&mut self, rt: &R) -> Result<(), AllocError>
        requires open { self.old.is_sealed ≡ false }
        requires lawful { IsEmissionOf self.old.schedule (self.old.published ++ self.old.behind) }
        ensures { MatchResult result
            (λ _. self.new ≡ record self.old { published = self.old.published ++ self.old.behind; behind = [] })
            (λ _. self.new ≡ self.old) }
    {
        let FeedWriter {
            end,
            sequence,
            held,
        } = self;
        if !settle(end, sequence, held) {
            return Err(AllocError);
        }
        end.publish(rt)
    }

    /// The mark of all that was published.
    pub fn mark(&self) -> Mark
        ensures { result ≡ mark_of_published self.now }
    {
        if self.sequence.is_sealed() {
            self.sequence.mark()
        } else {
            self.end.mark()
        }
    }

    /// How many packets are behind: appended and not yet published.
    pub fn behind(&self) -> u64
        ensures { result ≡ length self.now.behind }
    {
        self.sequence.count() - self.end.mark().count()
    }

    /// Whether the feed is sealed.
    pub fn is_sealed(&self) -> bool
        ensures { result ≡ self.now.is_sealed }
    {
        self.sequence.is_sealed()
    }

    /// Seals the feed, and answers the mark of all that was published: nothing is published any more. (No clause excludes `None`,
    /// with nothing changed. It takes no memory, and nobody else holds the sequence that could refuse it.)
    pub fn seal(&mut self) -> Option<Mark>
        requires open { self.old.is_sealed ≡ false }
        requires all { self.old.behind ≡ [] }
        ensures { MatchOption result (self.new ≡ self.old)
            (λ mark. (self.new ≡ record self.old { is_sealed = true }) × (mark ≡ mark_of_published self.new)) }
    {
        if self.sequence.seal() {
            Some(self.sequence.mark())
        } else {
            None
        }
    }

    /// The same writer over an end that is made of this one, and of which all is known that is known of this one: so a caller may
    /// stand between a writer and its end.
    pub fn map_end<N: PublishingEnd, M: FnOnce(E) -> N>(self, make: M) -> FeedWriter<N>
        requires made { (end : E) → M.pre make end }
        requires marked { (end : E) (made : N) → M.post make end made → E.is_marked end → N.is_marked made }
        requires same { (end : E) (made : N) → M.post make end made → (N.feed made ≡ E.feed end) × (N.schedule made ≡ E.schedule end)
            × (N.published made ≡ E.published end) × (N.pending made ≡ E.pending end) }
        ensures { result ≡ self }
    {
        let FeedWriter {
            end,
            sequence,
            held,
        } = self;
        FeedWriter {
            end: make(end),
            sequence,
            held,
        }
    }

    /// Waits for the readers that are reading, and closes the feed: what wasn't published is lost, and readers aren't let in any
    /// more.
    pub fn close<R: Wait>(self, rt: &R) {
        let FeedWriter {
            end,
            sequence: _sequence,
            held: _,
        } = self;
        end.close(rt);
    }
}
