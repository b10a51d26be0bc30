//! How an input is read on.

ghost use Rattle.std.specs.Prelude.{◌≡◌, ◌<◌, ℕ, List, Option, Some, Err, length, OnOk, OnErr};
ghost use Rattle.mux.specs.declared.event.Event.{Event};
ghost use Rattle.mux.specs.History.{with_event};
ghost use Rattle.mux.specs.Answers.{IsLeastUnready};
ghost use Rattle.inlets.specs.Notes.{IsOfInput};
ghost use Rattle.serial.specs.Feeding.{Feeds, FeedsOn, HasFed, turns_left};
ghost use Rattle.reading.specs.declared.stop.Stop.TheVariants as stops;
ghost use Rattle.serial.specs.Sending.{WritesWaiting, ReadsWritten};
ghost use Rattle.reading.specs.PacketReading.{TellsFailures};

use inlets::{Entry, take};
use mux::Mux;
use outlet::{RunFault, Sink, SlotWriter};
use reading::{PacketReader, Source};

/// Reads on an input that the multiplex waits for and of which nothing is seen, and takes its turn then. Before it is read, which may
/// wait, what waits to go out is written. An `Err` is want of memory, or that this write failed: then the input wasn't read.
pub(crate) fn read_on<R: Source, W: Sink>(
    mux: &mut Mux,
    number: usize,
    input: &mut Entry<PacketReader<R>>,
    piece: &mut [u8],
    output: &mut SlotWriter,
    sink: &mut W,
) -> Result<(), RunFault>
    requires unready { IsLeastUnready mux.old number }
    requires piece { 0 < length piece.old }
    requires feeds { (start : Option (List ℕ)) × FeedsOn R.remaining mux.old.run.schedule mux.old.events number start input.old }
    ensures feeds { OnOk result ((start : Option (List ℕ)) → FeedsOn R.remaining mux.old.run.schedule mux.old.events number start input.old
        → Feeds R.remaining mux.old.run.schedule mux.new.events number start input.new) }
    ensures given { OnErr result ((start : Option (List ℕ)) → FeedsOn R.remaining mux.old.run.schedule mux.old.events number start input.old
        → HasFed R.remaining mux.old.run.schedule mux.old.events number start input.new) }
    ensures event { OnOk result ((e : Event) × (mux.new ≡ with_event mux.old e) × IsOfInput number e) }
    ensures fewer { OnOk result (turns_left number mux.new.events < turns_left number mux.old.events) }
    ensures limit { input.new.inlet.stream.items.limit ≡ input.old.inlet.stream.items.limit }
    ensures failures { (before : ℕ) → TellsFailures R.failures before input.old.inlet
        → TellsFailures R.failures before input.new.inlet }
    ensures refused { result ≡ Err RunFault.Memory → input.new.inlet.report.stopped ≡ Some stops.Memory }
    ensures unrefused { result ≡ Err RunFault.Write → input.new.inlet.report.stopped ≡ input.old.inlet.report.stopped }
    ensures err { OnErr result (mux.new ≡ mux.old) }
    ensures run { mux.new.run ≡ mux.old.run }
    ensures written { ReadsWritten input.old.inlet input.new.inlet output.new }
    ensures unread { result ≡ Err RunFault.Write → input.new.inlet.stream.source ≡ input.old.inlet.stream.source }
    ensures out { WritesWaiting W.contents W.failures output.old sink.old output.new sink.new result }
{
    mux.schedule().known();
    output.flush(sink)?;
    input.inlet.find(mux.schedule(), piece)?;
    take(mux, number, input);
    Ok(())
}
