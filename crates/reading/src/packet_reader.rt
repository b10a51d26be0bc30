//! The packets of an input that the plans of a schedule name, each with its time.

ghost use Rattle.std.specs.Prelude.{◌≡◌, ℕ, List, [], None, Some, IfSome};
ghost use Rattle.tspkt.specs.declared.stamped.Stamped.{Stamped as GivenPacket};
ghost use Rattle.tspkt.specs.declared.item.Item.{Item as ToldItem};
ghost use Rattle.reading.specs.Takeable.{place_of_item};
ghost use Rattle.reading.specs.Holding.{time_of, first_packet, held_of, stream_behind, HoldsPacket};
ghost use Rattle.reading.specs.PacketReading.{HasLooked};

use crate::classify::classify;
use crate::look::Look;
use crate::origin::Origin;
use crate::report::Report;
use crate::source::Source;
use crate::stop::Stop;
use crate::stream_reader::StreamReader;
use request::Input;
use schedule::Schedule;
use std::alloc::{AllocError, Global};
use std::marker::Model;
use tspkt::{Item, LentPacket};

/// An input: its stream, when its packets come, the packet that it gives next, and what was found so far. That packet isn't copied: it
/// lies first among the items that were told, and is lent there. Contracts see it beside the stream, and the stream behind it.
#[derive(Drop)]
pub struct PacketReader<R> {
    origin: Origin,
    stream: StreamReader<R>,
    /// When the packet comes that it gives next, in ticks of 27 MHz, where it was found: then that packet stands first in the stream.
    found: Option<u64>,
    report: Report,
}

impl<R> Model for PacketReader<R> {
    ghost use Rattle.reading.specs.Holding.{PacketReader as ReaderValue, held_of, stream_behind, HoldsPacket};

    ghost Value = { ReaderValue R };

    ghost view = { λ x. record {
      origin = x.origin;
      stream = stream_behind x.found x.stream;
      held = held_of x.found x.stream.items.ahead;
      report = x.report;
    } };

    ghost invariant = { λ x. HoldsPacket x.found x.stream.items.ahead };
}

/// Passes the items that were told, up to the next packet that its plan names, and counts them all: that packet stands first then, and
/// the place of its stream and its time are answered.
fn seek<R: Source>(
    schedule: &Schedule,
    origin: &mut Origin,
    stream: &mut StreamReader<R>,
    report: &mut Report,
) -> Option<(usize, u64)>
    ensures read { (bytes : List ℕ) (given : List GivenPacket) (looked : List ToldItem)
        → HasLooked R.remaining schedule.now origin.old stream.old None report.old bytes given looked
        → (more : List ToldItem) × HasLooked R.remaining schedule.now origin.new (stream_behind (time_of result) stream.new)
        (held_of (time_of result) stream.new.items.ahead) report.new bytes given more }
    ensures holds { HoldsPacket (time_of result) stream.new.items.ahead }
    ensures place { IfSome result (λ found. IfSome (first_packet found.1 stream.new.items.ahead)
        (λ item. Some found.0 ≡ place_of_item schedule.now origin.new item)) }
    ensures none { result ≡ None → stream.new.items.ahead ≡ [] }
    ensures origin { origin.new ≡ origin.old }
    ensures source { stream.new.source ≡ stream.old.source }
    ensures limit { stream.new.items.limit ≡ stream.old.items.limit }
    ensures framer { stream.new.items.framer ≡ stream.old.items.framer }
    ensures stopped { report.new.stopped ≡ report.old.stopped }
{
    while let Some(item) = stream.peek() {
        if let Some(found) = classify(schedule, origin, item, report) {
            return Some(found);
        }
        stream.pass();
    }
    None
}

impl<R: Source> PacketReader<R> {
    ghost use Rattle.std.specs.Prelude.{◌≡◌, ◌<◌, ◌≤◌, ◌⊎◌, ◌++◌, ℕ, List, [], length, None, Some, Ok, is_some, OnErr, OnOk, IsSome, IfSome};
    ghost use Rattle.std.specs.Option.{option_to_list};
    ghost use Rattle.tspkt.specs.declared.framer.TheConstants.{MAX_LIMIT};
    ghost use Rattle.tspkt.specs.declared.stamped.Stamped.{Stamped as GivenPacket};
    ghost use Rattle.request.specs.Request.{IsInput, input_value};
    ghost use Rattle.schedule.specs.Schedule.{ScheduleValue};
    ghost use Rattle.reading.specs.Failures.{FailsOnce};
    ghost use Rattle.reading.specs.Counting.{nothing_counted};
    ghost use Rattle.reading.specs.Takeable.{origin_of, place_of_item, stream_number};
    ghost use Rattle.reading.specs.Items.{given_up, left_to_read};
    ghost use Rattle.std.specs.Io.KnownBytes.{IsAtEnd};
    ghost use Rattle.reading.specs.PacketReading.{HasRead, ReadsOn, GoesOn, TellsFailures, WantsMore, IsSpent, BeginsTakeable, IsWhole, CountsTold};

    /// The input with this number in the plans, of which nothing was read, and of which at most so many bytes may come: up to
    /// 140,737,488,355,328.
    pub fn new(
        alloc: Global,
        number: usize,
        input: &Input,
        source: R,
        limit: u64,
    ) -> PacketReader<R>
        requires input { IsInput (input_value input.now) }
        requires limit { limit ≤ MAX_LIMIT }
        ensures read { (schedule : ScheduleValue) → HasRead R.remaining schedule result [] [] }
        ensures origin { result.origin ≡ origin_of number (input_value input.now) }
        ensures source { result.stream.source ≡ source }
        ensures limit { result.stream.items.limit ≡ limit }
        ensures report { result.report ≡ nothing_counted }
        ensures failures { TellsFailures R.failures (R.failures source) result }
    {
        PacketReader {
            origin: Origin::new(number, input),
            stream: StreamReader::new(alloc, input.size, source, limit),
            found: None,
            report: Report::new(),
        }
    }

    /// Finds the next packet that its plan names, with its time, holds it, and answers the place of its stream, as `look`
    /// does; `None` is answered where the input has no more. It reads pieces of at most the length of `piece` until there is
    /// one, and nothing where one is held. An `Err` is want of memory, for an input that was still read, and ends it.
    pub fn find(
        &mut self,
        schedule: &Schedule,
        piece: &mut [u8],
    ) -> Result<Option<usize>, AllocError>
        requires { 0 < length piece.old }
        ensures read { ReadsOn R.remaining schedule.now self.old self.new }
        ensures goes { GoesOn R.failures self.old self.new }
        ensures found { (number : ℕ) → result ≡ Ok (Some number) → IsSome self.new.held }
        ensures number { (number : ℕ) → result ≡ Ok (Some number)
            → IfSome self.new.held (λ item. number ≡ stream_number schedule.now self.new.origin item) }
        ensures done { result ≡ Ok None → IsSpent self.new }
        ensures stays { IsSome self.old.held → self.new ≡ self.old }
        ensures memory { OnErr result (self.new.report.stopped ≡ Some Stop.Memory) }
        ensures spent { OnErr result (IsSpent self.new) }
        ensures reading { OnErr result (IsSome self.old.stream.items.framer) }
        ensures unrefused { OnOk result (self.new.report.stopped ≡ Some Stop.Memory
            → self.old.report.stopped ≡ Some Stop.Memory) }
        ensures failed { self.new.report.stopped ≡ Some Stop.ReadFailed
            → (self.old.report.stopped ≡ Some Stop.ReadFailed)
            ⊎ FailsOnce (R.failures self.old.stream.source) (R.failures self.new.stream.source) }
    {
        loop {
            match self.look(schedule) {
                Look::Packet(number) => return Ok(Some(number)),
                Look::Over => return Ok(None),
                Look::More => self.read(piece)?,
            }
        }
    }

    /// Looks for the next packet, among what was read, that the plan names which it belongs to by its time, and holds it. It reads
    /// nothing, and looks at nothing where a packet is held. The number that is answered is the place in the schedule of the stream which
    /// that plan maps the packet's PID of this input to. For a packet that is held, and that only another schedule named, it is how many
    /// streams this one has.
    pub fn look(&mut self, schedule: &Schedule) -> Look
        ensures read { (bytes : List ℕ) (given : List GivenPacket) → HasRead R.remaining schedule.now self.old bytes given
            → HasRead R.remaining schedule.now self.new bytes given }
        ensures goes { GoesOn R.failures self.old self.new }
        ensures found { (number : ℕ) → result ≡ Look.Packet number → IsSome self.new.held }
        ensures number { (number : ℕ) → result ≡ Look.Packet number
            → IfSome self.new.held (λ item. number ≡ stream_number schedule.now self.new.origin item) }
        ensures more { result ≡ Look.More → WantsMore self.new }
        ensures over { result ≡ Look.Over → IsSpent self.new }
        ensures stays { IsSome self.old.held → self.new ≡ self.old }
        ensures source { self.new.stream.source ≡ self.old.stream.source }
        ensures stopped { self.new.report.stopped ≡ self.old.report.stopped }
        ensures left { left_to_read self.new.stream.items ≡ left_to_read self.old.stream.items }
    {
        if let Some(number) = self.held_number(schedule) {
            return Look::Packet(number);
        }
        if let Some(number) = self.find_told(schedule) {
            Look::Packet(number)
        } else if self.stream.is_over() {
            Look::Over
        } else {
            Look::More
        }
    }

    /// The place in a schedule of the stream of the packet that it holds, or how many streams that has where none is its; none where none
    /// is held.
    fn held_number(&self, schedule: &Schedule) -> Option<usize>
        ensures held { is_some result ≡ is_some self.now.held }
        ensures number { (number : ℕ) → result ≡ Some number
            → IfSome self.now.held (λ item. number ≡ stream_number schedule.now self.now.origin item) }
    {
        let item = self.held()?;
        let place = schedule.find(self.origin.number(), item.pid(), item.stamp());
        Some(place.unwrap_or(schedule.streams().len()))
    }

    /// Holds the next packet that its plan names of the items that were told, if there is one, and answers the place of its
    /// stream.
    fn find_told(&mut self, schedule: &Schedule) -> Option<usize>
        requires { self.old.held ≡ None }
        ensures read { (bytes : List ℕ) (given : List GivenPacket) → HasRead R.remaining schedule.now self.old bytes given
            → HasRead R.remaining schedule.now self.new bytes given }
        ensures found { is_some result ≡ is_some self.new.held }
        ensures number { IfSome self.new.held (λ item. result ≡ place_of_item schedule.now self.new.origin item) }
        ensures none { result ≡ None → self.new.stream.items.ahead ≡ [] }
        ensures origin { self.new.origin ≡ self.old.origin }
        ensures source { self.new.stream.source ≡ self.old.stream.source }
        ensures limit { self.new.stream.items.limit ≡ self.old.stream.items.limit }
        ensures framer { self.new.stream.items.framer ≡ self.old.stream.items.framer }
        ensures stopped { self.new.report.stopped ≡ self.old.report.stopped }
    {
        let PacketReader {
            origin,
            stream,
            found,
            report,
        } = self;
        let (place, stamp) = seek(schedule, origin, stream, report)?;
        *found = Some(stamp);
        Some(place)
    }

    /// Reads the next piece, of at most the length of `piece`, and frames it, where a look found that more has to be read. A
    /// failed read and a stream that is too long end the input, and what framing hasn't told is given up. An `Err` is want of
    /// memory, and ends the input.
    pub fn read(&mut self, piece: &mut [u8]) -> Result<(), AllocError>
        requires piece { 0 < length piece.old }
        requires more { WantsMore self.old }
        ensures read { (schedule : ScheduleValue) → ReadsOn R.remaining schedule self.old self.new }
        ensures goes { GoesOn R.failures self.old self.new }
        ensures smaller { left_to_read self.new.stream.items < left_to_read self.old.stream.items }
        ensures memory { OnErr result (self.new.report.stopped ≡ Some Stop.Memory) }
        ensures spent { OnErr result (IsSpent self.new) }
        ensures unrefused { OnOk result (self.new.report.stopped ≡ Some Stop.Memory
            → self.old.report.stopped ≡ Some Stop.Memory) }
        ensures held { self.new.held ≡ self.old.held }
    {
        match self.stream.read(piece) {
            Ok(()) => Ok(()),
            Err(Stop::Memory) => {
                self.report.stopped = Some(Stop::Memory);
                Err(AllocError)
            }
            Err(stop) => {
                self.report.stopped = Some(stop);
                Ok(())
            }
        }
    }

    /// The packet that it holds, lent: the one that it gives next.
    #[inline(always)]
    pub fn held(&self) -> Option<LentPacket<'_>>
        ensures { result ≡ self.now.held }
    {
        let stamp = self.found?;
        match self.stream.peek() {
            Some(Item::Packet(_, bytes)) => Some(LentPacket::new(bytes, stamp)),
            _ => unreachable!(),
        }
    }

    /// Gives the packet that it holds.
    pub fn release(&mut self)
        ensures read { (schedule : ScheduleValue) (bytes : List ℕ) (given : List GivenPacket)
            → HasRead R.remaining schedule self.old bytes given
            → HasRead R.remaining schedule self.new bytes (given ++ option_to_list self.old.held) }
        ensures stays { self.new ≡ record self.old { held = None } }
    {
        if self.found.take().is_some() {
            self.stream.pass();
        }
    }

    /// What was found so far. What was given begins what can be taken, and where nothing is left and nothing stopped the
    /// input it is all of it, and the report counts all items. At a failed read it counts what was told of the bytes before
    /// it. The input is told as too long exactly where it is.
    pub fn report(&self) -> Report
        ensures value { result ≡ self.now.report }
        ensures begins { (schedule : ScheduleValue) (bytes : List ℕ) (given : List GivenPacket)
            → HasRead R.remaining schedule self.now bytes given
            → BeginsTakeable schedule self.now.origin bytes given }
        ensures whole { (schedule : ScheduleValue) (bytes : List ℕ) (given : List GivenPacket)
            → HasRead R.remaining schedule self.now bytes given → IsSpent self.now
            → result.stopped ≡ None → IsWhole R.remaining schedule self.now bytes given }
        ensures too_much { (schedule : ScheduleValue) (bytes : List ℕ) (given : List GivenPacket)
            → HasRead R.remaining schedule self.now bytes given
            → result.stopped ≡ Some Stop.TooMuch → self.now.stream.items.limit < length bytes }
        ensures within { (schedule : ScheduleValue) (bytes : List ℕ) (given : List GivenPacket)
            → HasRead R.remaining schedule self.now bytes given
            → (result.stopped ≡ Some Stop.TooMuch → ⊥) → length bytes ≤ self.now.stream.items.limit }
        ensures told { (schedule : ScheduleValue) (bytes : List ℕ) (given : List GivenPacket)
            → HasRead R.remaining schedule self.now bytes given → result.stopped ≡ Some Stop.ReadFailed
            → CountsTold schedule self.now.origin bytes (IsAtEnd (R.remaining self.now.stream.source)) result }
    {
        self.report
    }

    /// What it was read from.
    pub fn into_source(self) -> R
        ensures { result ≡ self.stream.source }
    {
        self.stream.into_source()
    }
}
