//! Opens a feed.

ghost use Rattle.std.specs.Prelude.{◌≡◌, ◌<◌, [], drop, replicate, IfOk, OnOk};
ghost use Rattle.left_right.specs.Sides.{view};
ghost use Rattle.marks.specs.Marks.{open_mark};
ghost use Rattle.feed.specs.Ends.{IsNewEnd};
ghost use Rattle.feed.specs.Readers.{new_reader};
ghost use Rattle.feed.specs.Writers.{new_writer};

use crate::feed_reader::FeedReader;
use crate::feed_writer::FeedWriter;
use crate::informed::Informed;
use crate::joining::Joining;
use crate::publisher::Publisher;
use crate::publishing::Publishing;
use crate::reader_end::ReaderEnd;
use crate::version::{Version, VersionOf};
use left_right::writer::Writer;
use marks::Sequence;
use schedule::Schedule;
use std::alloc::{AllocError, Global};
use std::snapshot::Snapshot;
use std::sync::Wait;

/// A version of which nothing is published.
fn empty(alloc: Global, schedule: &Schedule, sequence: &Sequence) -> Version
    ensures { (result.schedule.value ≡ schedule.now) × (result.packets.items ≡ []) × (result.mark ≡ sequence.now) }
{
    VersionOf {
        schedule: Snapshot::of(schedule),
        packets: Vec::new(alloc),
        mark: sequence.mark(),
    }
}

/// The end that publishes of a new feed, with room for so many readers.
fn new_publisher<R: Wait>(
    rt: &R,
    alloc: Global,
    schedule: &Schedule,
    sequence: &Sequence,
    readers: usize,
) -> Result<Publisher, AllocError>
    requires readers { (0 < readers) × (readers < 5) }
    requires empty { sequence.now ≡ open_mark sequence.now.feed [] }
    ensures { IfOk result (λ w. IsNewEnd schedule.now sequence.now.feed
        (view w.desk.place) w.desk.shown.value (drop w.behind w.log.items)) }
{
    let first = empty(alloc, schedule, sequence);
    let second = empty(alloc, schedule, sequence);
    let writer: Publisher = Writer::new(alloc, first, second, readers)?;
    let (writer, done) = writer.publish_as::<Publishing, R>(rt);
    match done {
        Ok(()) => Ok(writer),
        Err(refused) => {
            writer.take(rt);
            Err(refused)
        }
    }
}

/// A new end that reads, which is told what the writer knows.
fn new_reader_end(writer: &mut Publisher, schedule: &Schedule) -> Result<ReaderEnd, AllocError>
    ensures writer { (view writer.new.desk.place ≡ view writer.old.desk.place) × (writer.new.desk.shown ≡ writer.old.desk.shown)
        × (writer.new.log ≡ writer.old.log) × (writer.new.behind ≡ writer.old.behind) }
    ensures told { IfOk result (λ r. (view r.reader.place ≡ view writer.old.desk.place) × (r.schedule.value ≡ schedule.now)) }
{
    let mut reader = writer.factory().reader()?;
    let note = writer.tell::<Joining>();
    reader.learn::<Joining>(note);
    Ok(Informed {
        schedule: Snapshot::of(schedule),
        reader,
    })
}

/// Adds so many new readers to the list, which is empty.
fn add_readers(
    writer: &mut Publisher,
    schedule: &Schedule,
    sequence: &Sequence,
    readers: usize,
    all: &mut Vec<FeedReader>,
) -> Result<(), AllocError>
    requires new { IsNewEnd schedule.now sequence.now.feed
        (view writer.old.desk.place) writer.old.desk.shown.value (drop writer.old.behind writer.old.log.items) }
    requires none { all.old.items ≡ [] }
    requires empty { sequence.now ≡ open_mark sequence.now.feed [] }
    ensures new { IsNewEnd schedule.now sequence.now.feed
        (view writer.new.desk.place) writer.new.desk.shown.value (drop writer.new.behind writer.new.log.items) }
    ensures readers { OnOk result (all.new.items ≡ replicate readers (new_reader schedule.now sequence.now.feed)) }
{
    for _ in 0..readers {
        let end = new_reader_end(writer, schedule)?;
        let reader = FeedReader {
            end,
            known: sequence.mark(),
            count: 0,
        };
        if all.push(reader).is_err() {
            return Err(AllocError);
        }
    }
    Ok(())
}

/// Opens a feed of this schedule, of which nothing is published, with 1 to 4 readers, which read nothing yet. It refuses only for want
/// of memory.
pub fn open<R: Wait>(
    rt: &R,
    alloc: Global,
    schedule: &Schedule,
    readers: usize,
) -> Result<(FeedWriter, Vec<FeedReader>), AllocError>
    requires readers { (0 < readers) × (readers < 5) }
    ensures writer { IfOk result (λ t. t.0 ≡ new_writer t.0.feed schedule.now) }
    ensures readers { IfOk result (λ t. t.1.items ≡ replicate readers (new_reader schedule.now t.0.feed)) }
{
    let sequence = Sequence::new();
    let mut all = Vec::with_capacity(alloc, readers)?;
    let mut end = new_publisher(rt, alloc, schedule, &sequence, readers)?;
    if add_readers(&mut end, schedule, &sequence, readers, &mut all).is_err() {
        end.take(rt);
        return Err(AllocError);
    }
    let writer = FeedWriter {
        end,
        sequence,
        held: None,
    };
    Ok((writer, all))
}
