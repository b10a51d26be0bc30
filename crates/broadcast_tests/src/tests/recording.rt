//! Recorders of a broadcast.

ghost use Rattle.std.specs.Prelude.{◌≡◌};

use crate::tests::asking::{ends, marks, piece_of, seals, sends};
use crate::tests::device::TestWriter;
use crate::tests::opening::{Seats, open};
use broadcast::Broadcast;
use feed::FeedReader;
use marks::Mark;
use outlet::WriteSink;
use recorder::{RecordFault, Recorder};
use std::alloc::Global;
use std::process::Abort;
use std::sync::Wait;
use tspkt::Packet;

/// A recorder of the first reader of a broadcast, and its second one.
struct Recording {
    broadcast: Broadcast,
    recorder: Recorder<WriteSink<TestWriter>>,
    second: FeedReader,
}

/// A sink that takes at most 100 bytes a write, and fails at the write with this number, from 0.
fn sink(alloc: Global, fails_at: usize) -> WriteSink<TestWriter> {
    WriteSink::new(TestWriter {
        bytes: Vec::new(alloc),
        step: 100,
        fails_at,
        calls: 0,
    })
}

/// A recorder over such a sink, and a broadcast of eight slots, of which none went out yet.
fn open_recording<T: Abort + Wait>(rt: &T, alloc: Global, fails_at: usize) -> Recording
    ensures { result.recorder.reader.known.feed ≡ result.broadcast.feed }
{
    let (seats, port) = open(rt, alloc, 5);
    ends(rt, port);
    let Seats {
        broadcast,
        first,
        second,
    } = seats;
    Recording {
        broadcast,
        recorder: Recorder::new(alloc, first, sink(alloc, fails_at)),
        second,
    }
}

/// A step writes so many packets, or fails.
fn steps(
    rt: &impl Abort,
    recorder: &mut Recorder<WriteSink<TestWriter>>,
    expected: Result<usize, RecordFault>,
)
    ensures { recorder.new.reader.known.feed ≡ recorder.old.reader.known.feed }
{
    assert_eq!(rt; recorder.step(), expected);
}

/// A recorder ends so: the bytes that were written.
fn finishes(
    rt: &impl Abort,
    recorder: Recorder<WriteSink<TestWriter>>,
    mark: Mark,
    expected: Result<(), RecordFault>,
) -> Vec<u8>
    requires { mark.feed ≡ recorder.reader.known.feed }
{
    let (sink, result) = recorder.finish(mark);
    assert_eq!(rt; result, expected);
    sink.into_inner().bytes
}

/// The bytes of these packets.
fn bytes_of(rt: &impl Abort, alloc: Global, packets: &[Packet]) -> Vec<u8> {
    let mut bytes = Vec::new(alloc);
    for packet in packets {
        bytes.extend_from_slice(packet.bytes()).expect(rt, "memory");
    }
    bytes
}

/// Of these bytes those were written that so many writes of 100 bytes take.
fn wrote(rt: &impl Abort, writes: usize, written: &[u8], bytes: &[u8]) {
    let count = writes.saturating_mul(100).min(bytes.len());
    assert_eq!(rt; written, &bytes[..count]);
}

/// How a recorder of so many bytes ends whose sink fails at the write with this number.
fn end_of(fails_at: usize, bytes: usize) -> Result<(), RecordFault> {
    if fails_at.saturating_mul(100) < bytes {
        Err(RecordFault::Write)
    } else {
        Ok(())
    }
}

/// The broadcast is sealed after so many slots, and the recorder ends. Of their bytes, which the second reader reads, those were
/// written that came before the write that fails, if one does.
fn ends_recording<T: Abort + Wait>(
    rt: &T,
    alloc: Global,
    recording: Recording,
    slots: usize,
    fails_at: usize,
)
    requires { recording.recorder.reader.known.feed ≡ recording.broadcast.feed }
{
    let Recording {
        mut broadcast,
        recorder,
        mut second,
    } = recording;
    let mark = seals(rt, &mut broadcast, slots as u64);
    let all = slots.saturating_mul(188);
    let written = finishes(rt, recorder, mark, end_of(fails_at, all));
    let piece = piece_of(rt, alloc, &mut second);
    broadcast.close(rt);
    let bytes = bytes_of(rt, alloc, piece.as_slice());
    assert!(rt; bytes.len() == all);
    wrote(rt, fails_at, written.as_slice(), bytes.as_slice());
}

/// A step writes what was published so far, and the end writes the rest.
#[test]
fn all_that_was_published_is_recorded(rt: HostRuntime) {
    let mut recording = open_recording(&rt, rt.alloc(), usize::MAX);
    sends(&rt, &mut recording.broadcast, 3);
    steps(&rt, &mut recording.recorder, Ok(3));
    steps(&rt, &mut recording.recorder, Ok(0));
    sends(&rt, &mut recording.broadcast, 5);
    ends_recording(&rt, rt.alloc(), recording, 8, usize::MAX);
}

/// The first 100 bytes went out.
#[test]
fn a_failed_write_ends_a_recorder(rt: HostRuntime) {
    let mut recording = open_recording(&rt, rt.alloc(), 1);
    sends(&rt, &mut recording.broadcast, 3);
    steps(&rt, &mut recording.recorder, Err(RecordFault::Write));
    steps(&rt, &mut recording.recorder, Err(RecordFault::Write));
    ends_recording(&rt, rt.alloc(), recording, 3, 1);
}

/// Eight slots are recorded, to a sink that fails at the write with this number.
fn records_until<T: Abort + Wait>(rt: &T, alloc: Global, fails_at: usize) {
    let mut recording = open_recording(rt, alloc, fails_at);
    sends(rt, &mut recording.broadcast, 8);
    ends_recording(rt, alloc, recording, 8, fails_at);
}

/// Eight slots take 16 writes, of the numbers 0 to 15.
#[test]
fn a_sink_may_fail_at_each_of_its_calls(rt: HostRuntime) {
    for fails_at in 0..17 {
        records_until(&rt, rt.alloc(), fails_at);
    }
}

/// Three packets were written before the close, and none after it.
#[test]
fn a_closed_feed_lets_no_recorder_in(rt: HostRuntime) {
    let mut recording = open_recording(&rt, rt.alloc(), usize::MAX);
    sends(&rt, &mut recording.broadcast, 3);
    steps(&rt, &mut recording.recorder, Ok(3));
    sends(&rt, &mut recording.broadcast, 1);
    let Recording {
        broadcast,
        mut recorder,
        second: _second,
    } = recording;
    let mark = marks(&rt, &broadcast, 4, false);
    broadcast.close(&rt);
    steps(&rt, &mut recorder, Err(RecordFault::Memory));
    let written = finishes(&rt, recorder, mark, Err(RecordFault::Memory));
    assert!(rt; written.len() == 564);
}
