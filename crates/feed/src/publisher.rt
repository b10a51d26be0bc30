//! The writer of `left_right`, as the end of a feed.

ghost use Rattle.std.specs.Prelude.{◌≡◌, [], ◌++◌, drop, MatchResult};
ghost use Rattle.emission.specs.Spans.{IsEmissionOf};
ghost use Rattle.left_right.specs.Sides.{view};
ghost use Rattle.feed.specs.Knowing.{feed_known};
ghost use Rattle.feed.specs.Versions.{packets_in};
ghost use Rattle.feed.specs.Ends.{IsMarked};

use crate::append::Append;
use crate::feed_rule::FeedRule;
use crate::knowledge::Knowledge;
use crate::publishing::Publishing;
use crate::publishing_end::PublishingEnd;
use crate::version::Version;
use core::mem::replace_with;
use left_right::writer::Writer;
use marks::Mark;
use std::alloc::AllocError;
use std::sync::Wait;
use tspkt::Packet;

/// The end that publishes: two copies of what is published, and what the older one lacks. It isn't `Drop`: end it by `close`.
pub type Publisher = Writer<Version, Append, Knowledge, FeedRule>;

/// Publishes what is pending, or nothing.
fn publish_all<R: Wait>(writer: Publisher, rt: &R) -> (Publisher, Result<(), AllocError>)
    requires marked { IsMarked (view writer.desk.place) writer.desk.shown.value (drop writer.behind writer.log.items) }
    requires lawful { IsEmissionOf writer.desk.shown.value.schedule.value
        (writer.desk.shown.value.packets.items ++ packets_in (drop writer.behind writer.log.items)) }
    ensures marked { IsMarked (view result.0.desk.place) result.0.desk.shown.value (drop result.0.behind result.0.log.items) }
    ensures feed { feed_known (view result.0.desk.place) ≡ feed_known (view writer.desk.place) }
    ensures schedule { result.0.desk.shown.value.schedule.value ≡ writer.desk.shown.value.schedule.value }
    ensures published { MatchResult result.1
        (λ _. (result.0.desk.shown.value.packets.items
        ≡ writer.desk.shown.value.packets.items ++ packets_in (drop writer.behind writer.log.items))
        × (drop result.0.behind result.0.log.items ≡ []))
        (λ _. (result.0.desk.shown.value ≡ writer.desk.shown.value)
        × (drop result.0.behind result.0.log.items ≡ drop writer.behind writer.log.items)) }
{
    let (writer, done) = writer.publish_as::<Publishing, R>(rt);
    match done {
        Ok(()) => (writer, Ok(())),
        Err(refused) => (writer, Err(refused)),
    }
}

impl PublishingEnd for Publisher {
    ghost feed = { λ w. feed_known (view w.desk.place) };

    ghost schedule = { λ w. w.desk.shown.value.schedule.value };

    ghost published = { λ w. w.desk.shown.value.packets.items };

    ghost pending = { λ w. packets_in (drop w.behind w.log.items) };

    ghost is_marked = { λ w. IsMarked (view w.desk.place) w.desk.shown.value (drop w.behind w.log.items) };

    fn append(&mut self, packet: Packet, mark: Mark) -> bool {
        Writer::append(self, Append { packet, mark }).is_ok()
    }

    fn publish<R: Wait>(&mut self, rt: &R) -> Result<(), AllocError> {
        replace_with(
            self,
            rt,
            |writer: Publisher, rt: &R| -> (Publisher, Result<(), AllocError>) {
                publish_all(writer, rt)
            },
        )
    }

    fn mark(&self) -> Mark {
        self.published().mark.copy()
    }

    fn close<R: Wait>(self, rt: &R) {
        self.take(rt);
    }
}
