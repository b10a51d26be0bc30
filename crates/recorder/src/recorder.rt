//! The recorder: its state, and its steps.

ghost use Rattle.std.specs.Prelude.{◌≡◌, ◌⊎◌, ◌+◌, ◌*◌, ◌<◌, ◌≤◌, ℕ, List, [], Err, true, false, length, vec_capacity, IfOk, OnOk, OnErr};
ghost use Rattle.reading.specs.Failures.{FailsOnce};
ghost use Rattle.marks.specs.Marks.{Begins};
ghost use Rattle.recorder.specs.Recording.{HasWritten, ReadsOn, HasMarked, EndsWithin, EndsWhole};

use crate::record_fault::RecordFault;
use crate::writing::gather;
use feed::{FeedReader, ReaderEnd, ReadingEnd};
use marks::Mark;
use outlet::{Sink, write_all};
use std::alloc::{AllocError, Global};
use std::marker::Model;
use std::snapshot::Snapshot;
use tspkt::Packet;

/// How many packets a step reads and writes at most: 256.
pub const PIECE: usize = 256;

/// How many bytes these have.
const PIECE_BYTES: usize = 48_128;

/// Writes what a reader reads to a sink. Contracts see the reader, the sink as it was given and as it is, and whether a write
/// failed. It isn't `Drop`: end it by `finish`.
///
/// Whenever a recorder is seen, a beginning of the bytes of what its reader has read was written, and all of them unless a write
/// failed. None of its calls locks, or waits but for the sink.
pub struct Recorder<W: Sink, E: ReadingEnd + Drop = ReaderEnd> {
    reader: FeedReader<E>,
    sink: W,
    /// The sink as it was given. It takes no bytes.
    given: Snapshot<W>,
    piece: Vec<Packet>,
    bytes: Vec<u8>,
    has_failed: bool,
}

impl<W: Sink, E: ReadingEnd + Drop> Model for Recorder<W, E> {
    ghost use Rattle.std.specs.Prelude.{◌≡◌};
    ghost use Rattle.emission.specs.Spans.{IsEmissionOf};
    ghost use Rattle.recorder.specs.Recording.{RecorderValue, HasWritten};

    ghost Value = { RecorderValue W };

    ghost view = { λ r. record {
      reader = r.reader;
      given = r.given.value;
      sink = r.sink;
      has_failed = r.has_failed;
    } };

    ghost invariant = { λ r. HasWritten (W.contents r.given.value) (W.contents r.sink) r.has_failed r.reader.read
        × IsEmissionOf r.reader.schedule r.reader.read };
}

/// Makes room for a piece and its bytes, once.
fn make_room(piece: &mut Vec<Packet>, bytes: &mut Vec<u8>) -> Result<(), AllocError>
    ensures piece { OnOk result (256 ≤ vec_capacity piece.new) }
    ensures bytes { OnOk result (48128 ≤ vec_capacity bytes.new) }
{
    piece.clear();
    piece.reserve(PIECE)?;
    bytes.clear();
    bytes.reserve(PIECE_BYTES)?;
    Ok(())
}

impl<W: Sink, E: ReadingEnd + Drop> Recorder<W, E> {
    /// A recorder of a reader that has read nothing. It asks for memory at its first step.
    pub fn new(alloc: Global, reader: FeedReader<E>, sink: W) -> Recorder<W, E>
        requires { reader.read ≡ [] }
        ensures { result ≡ record { reader = reader; given = sink; sink = sink; has_failed = false } }
    {
        let given = Snapshot::of(&sink);
        Recorder {
            reader,
            sink,
            given,
            piece: Vec::new(alloc),
            bytes: Vec::new(alloc),
            has_failed: false,
        }
    }

    /// Reads on, at most 256 packets, and writes their bytes: how many packets it wrote. Where these are fewer, all that was
    /// published when it looked is written. After a `Write` each later step answers `Write`, and does nothing. A step that answers
    /// `Memory` did nothing.
    pub fn step(&mut self) -> Result<usize, RecordFault>
        ensures given { self.new.given ≡ self.old.given }
        ensures reads { ReadsOn self.old.reader self.new.reader }
        ensures written { HasWritten (W.contents self.new.given) (W.contents self.new.sink) self.new.has_failed self.new.reader.read }
        ensures count { IfOk result (λ n. length self.new.reader.read ≡ length self.old.reader.read + n) }
        ensures whole { IfOk result (λ n. n < 256 → self.new.reader.read ≡ self.new.reader.known.packets) }
        ensures ok { OnOk result ((self.new.has_failed ≡ false) × (W.failures self.new.sink ≡ W.failures self.old.sink)) }
        ensures memory { result ≡ Err RecordFault.Memory → self.new ≡ self.old }
        ensures write { result ≡ Err RecordFault.Write → self.new.has_failed ≡ true }
        ensures failed { self.old.has_failed ≡ true → (result ≡ Err RecordFault.Write) × (self.new ≡ self.old) }
        ensures failures { result ≡ Err RecordFault.Write → self.old.has_failed ≡ false
            → FailsOnce (W.failures self.old.sink) (W.failures self.new.sink) }
    {
        let Recorder {
            reader,
            sink,
            piece,
            bytes,
            has_failed,
            ..
        } = self;
        if *has_failed {
            return Err(RecordFault::Write);
        }
        make_room(piece, bytes)?;
        if reader.read(piece, PIECE).is_err() {
            return Err(RecordFault::Memory);
        }
        gather(piece.as_slice(), bytes);
        if write_all(sink, bytes.as_slice()).is_err() {
            *has_failed = true;
            return Err(RecordFault::Write);
        }
        Ok(piece.len())
    }

    /// Learns a mark of its feed, and reads and writes until all that was published when it looked is written, the mark's packets among
    /// it. The sink comes back. After a `Write` of an earlier step it answers `Write` again, and does nothing.
    pub fn finish(self, mark: Mark) -> (W, Result<(), RecordFault>)
        requires { mark.feed ≡ self.reader.known.feed }
        ensures ok { OnOk result.1
            (EndsWhole self.reader.schedule self.reader.read mark (W.contents self.given) (W.contents result.0)) }
        ensures err { OnErr result.1
            (EndsWithin self.reader.schedule self.reader.read (W.contents self.given) (W.contents result.0)) }
        ensures wrote { OnOk result.1 (W.failures result.0 ≡ W.failures self.sink) }
        ensures memory { result.1 ≡ Err RecordFault.Memory → W.failures result.0 ≡ W.failures self.sink }
        ensures failed { result.1 ≡ Err RecordFault.Write
            → (self.has_failed ≡ true) ⊎ FailsOnce (W.failures self.sink) (W.failures result.0) }
        ensures earlier { self.has_failed ≡ true → (result.1 ≡ Err RecordFault.Write) × (result.0 ≡ self.sink) }
    {
        let mut recorder = self;
        let result = recorder.record_to(mark);
        let Recorder {
            reader: _reader,
            sink,
            given: _given,
            piece: _piece,
            bytes: _bytes,
            has_failed: _,
        } = recorder;
        (sink, result)
    }

    /// Learns a mark, and goes on until all that was published when it looked is written.
    fn record_to(&mut self, mark: Mark) -> Result<(), RecordFault>
        requires { mark.feed ≡ self.old.reader.known.feed }
        ensures given { self.new.given ≡ self.old.given }
        ensures reads { ReadsOn self.old.reader self.new.reader }
        ensures written { HasWritten (W.contents self.new.given) (W.contents self.new.sink) self.new.has_failed self.new.reader.read }
        ensures ok { OnOk result ((self.new.has_failed ≡ false) × HasMarked mark self.new.reader.read) }
        ensures wrote { OnOk result (W.failures self.new.sink ≡ W.failures self.old.sink) }
        ensures memory { result ≡ Err RecordFault.Memory → W.failures self.new.sink ≡ W.failures self.old.sink }
        ensures failed { result ≡ Err RecordFault.Write
            → (self.old.has_failed ≡ true) ⊎ FailsOnce (W.failures self.old.sink) (W.failures self.new.sink) }
        ensures earlier { self.old.has_failed ≡ true → (result ≡ Err RecordFault.Write) × (self.new ≡ self.old) }
    {
        if self.has_failed {
            return Err(RecordFault::Write);
        }
        self.reader.learn(mark);
        for _step in 0..u64::MAX {
            if self.step()? < PIECE {
                return Ok(());
            }
        }
        // No feed has so many packets.
        Err(RecordFault::Memory)
    }
}
