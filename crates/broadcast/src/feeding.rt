//! How packets that went out come into the feed.

ghost use Rattle.std.specs.Prelude.{◌≡◌, ◌≢◌, ◌≤◌, ◌++◌, ◌<◌, [], length, drop, true, false, vec_capacity};
ghost use mathlib.Core.List.{IsPrefix};
ghost use Rattle.broadcast.specs.Keeping.{KeepsFeed, PublishesInto};

use feed::{FeedWriter, PublishingEnd};
use station::Station;
use std::sync::Wait;
use tspkt::Packet;

/// Appends the packets that weren't appended yet, and says whether all are now: it ends where there is no memory for one.
pub(crate) fn append_all<E: PublishingEnd>(
    feed: &mut FeedWriter<E>,
    sent: &[Packet],
    appended: &mut usize,
) -> bool
    requires open { feed.old.is_sealed ≡ false }
    requires count { appended.old ≤ length sent.now }
    ensures feed { feed.new ≡ record feed.old { behind = feed.new.behind } }
    ensures order { feed.new.behind ++ drop appended.new sent.now ≡ feed.old.behind ++ drop appended.old sent.now }
    ensures count { appended.new ≤ length sent.now }
    ensures all { result ≡ true → appended.new ≡ length sent.now }
    ensures some { result ≡ false → appended.new < length sent.now }
{
    while *appended < sent.len() {
        if feed.append(sent[*appended]).is_err() {
            return false;
        }
        *appended += 1;
    }
    true
}

/// Makes room for the packets that go out next, and says whether it did: where one of those before finds no memory in the feed,
/// they wait on.
pub(crate) fn make_room<E: PublishingEnd>(
    station: &Station,
    feed: &mut FeedWriter<E>,
    sent: &mut Vec<Packet>,
    appended: &mut usize,
) -> bool
    requires count { appended.old ≤ length sent.old.items }
    requires keeps { KeepsFeed station.now feed.old (drop appended.old sent.old.items) }
    ensures count { appended.new ≤ length sent.new.items }
    ensures keeps { KeepsFeed station.now feed.new (drop appended.new sent.new.items) }
    ensures feed { feed.new ≡ record feed.old { behind = feed.new.behind } }
    ensures room { result ≡ true → (sent.new.items ≡ []) × (appended.new ≡ 0) }
    ensures waits { result ≡ false → (feed.old.is_sealed ≡ false) × (drop appended.new sent.new.items ≢ []) }
    ensures capacity { vec_capacity sent.old ≤ vec_capacity sent.new }
{
    let is_free = feed.is_sealed() || append_all(feed, sent.as_slice(), appended);
    if is_free {
        sent.clear();
        *appended = 0;
    }
    is_free
}

/// Publishes what wasn't published yet, as far as there is memory; nothing where the feed is sealed.
pub(crate) fn publish_on<E: PublishingEnd, R: Wait>(
    rt: &R,
    station: &Station,
    feed: &mut FeedWriter<E>,
    sent: &[Packet],
    appended: &mut usize,
)
    requires count { appended.old ≤ length sent.now }
    requires keeps { KeepsFeed station.now feed.old (drop appended.old sent.now) }
    ensures count { appended.new ≤ length sent.now }
    ensures keeps { KeepsFeed station.now feed.new (drop appended.new sent.now) }
    ensures publishes { PublishesInto feed.old feed.new }
{
    if feed.is_sealed() {
        return;
    }
    append_all(feed, sent, appended);
    // What it sent is an emission of its schedule.
    station.known();
    let _ = feed.publish(rt);
}
