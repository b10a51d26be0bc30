//! The reader of `left_right`, as the end of a feed.

ghost use Rattle.std.specs.Prelude.{◌≡◌, ◌≤◌, [], length, take, drop, vec_capacity, MatchOption};
ghost use Rattle.emission.specs.Spans.{IsEmissionOf};
ghost use Rattle.left_right.specs.Sides.{view};
ghost use Rattle.marks.specs.Marks.{Begins};
ghost use Rattle.feed.specs.Knowing.{informed};

use crate::feed_rule::FeedRule;
use crate::informed::Informed;
use crate::knowledge::Knowledge;
use crate::reading::Reading;
use crate::reading_end::ReadingEnd;
use crate::version::Version;
use core::mem::{replace, replace_with};
use left_right::reader::Reader;
use marks::Mark;
use schedule::Schedule;
use std::snapshot::Snapshot;
use tspkt::Packet;

/// The end that reads one of two copies of what is published.
pub type ReaderEnd = Informed<Snapshot<Schedule>, Reader<Version, Knowledge, FeedRule>>;

/// Copies what stands behind the first so many packets, at most `most`, into the room of the piece.
fn copy_behind(all: &[Packet], count: usize, piece: &mut Vec<Packet>, most: usize)
    requires count { count ≤ length all.now }
    requires room { most ≤ vec_capacity piece.old }
    ensures piece { piece.new.items ≡ take most (drop count all.now) }
    ensures room { vec_capacity piece.old ≤ vec_capacity piece.new }
{
    let rest = &all[count..];
    piece.clear();
    let Ok(()) = piece.extend_from_slice(&rest[..most.min(rest.len())]) else {
        unreachable!()
    };
}

/// Enters, copies what stands behind the first so many packets, and leaves.
fn read_behind(
    end: ReaderEnd,
    known: &Mark,
    count: usize,
    piece: &mut Vec<Packet>,
    most: usize,
) -> (ReaderEnd, Option<Mark>)
    requires told { view end.reader.place ≡ informed end.schedule.value known.now.feed }
    requires count { count ≤ length known.now.packets }
    requires room { most ≤ vec_capacity piece.old }
    ensures told { view result.0.reader.place ≡ informed end.schedule.value known.now.feed }
    ensures schedule { result.0.schedule.value ≡ end.schedule.value }
    ensures shown { MatchOption result.1 (piece.new.items ≡ []) (λ shown. Begins known.now shown
        × (piece.new.items ≡ take most (drop count shown.packets)) × IsEmissionOf end.schedule.value shown.packets) }
    ensures room { vec_capacity piece.old ≤ vec_capacity piece.new }
{
    let Informed { schedule, reader } = end;
    match reader.enter_as::<Reading>() {
        Err(reader) => {
            piece.clear();
            (Informed { schedule, reader }, None)
        }
        Ok(reading) => {
            let version = reading.get();
            if version.mark.count() < known.count() {
                piece.clear();
                let reader = reading.leave();
                return (Informed { schedule, reader }, None);
            }
            let shown = known.later(&version.mark);
            copy_behind(version.packets.as_slice(), count, piece, most);
            let reader = reading.leave();
            (Informed { schedule, reader }, Some(shown))
        }
    }
}

impl ReadingEnd for ReaderEnd {
    ghost schedule = { λ r. r.schedule.value };

    ghost is_told = { λ feed r. view r.reader.place ≡ informed r.schedule.value feed };

    fn read(
        &mut self,
        known: &Mark,
        count: usize,
        piece: &mut Vec<Packet>,
        most: usize,
    ) -> Option<Mark> {
        let room = replace(piece, Vec::new(*piece.allocator()));
        let (room, shown) = replace_with(
            self,
            room,
            |end: ReaderEnd, room: Vec<Packet>| -> (ReaderEnd, (Vec<Packet>, Option<Mark>)) {
                let mut room = room;
                let (end, shown) = read_behind(end, known, count, &mut room, most);
                (end, (room, shown))
            },
        );
        *piece = room;
        shown
    }
}
