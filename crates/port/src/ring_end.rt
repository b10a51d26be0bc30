//! The end of a ring that receives.

ghost use Rattle.std.specs.Prelude.{◌≡◌, ◌<◌, ◌++◌, ◌∷◌, List, [], false, None, Some, IsSome, is_some, length};
ghost use Rattle.tspkt.specs.declared.stamped.Stamped.{Stamped as GivenPacket};
ghost use Rattle.port.specs.Arrivals.{packets_of, marks_of};
ghost use Rattle.port.specs.Receiving.{IsReceived, IsLeft};
ghost use Rattle.port.specs.Advancing.{Shows, IsAdvanced, IsLast};

use crate::arrival::Arrival;
use crate::arrival_kind::ArrivalKind;
use crate::finished_port::FinishedPort;
use crate::ring_reader::RingReader;
use std::marker::Model;
use tspkt::Stamped;

/// The receiving end of an input's ring. Contracts see which ring it is, the packets that came out of it, the last of them where it is
/// shown until it is released, and whether the end mark came. None of its calls locks, waits or asks for memory.
#[derive(Drop)]
pub struct RingEnd {
    pub(crate) reader: RingReader,
    pub(crate) is_shown: bool,
    pub(crate) is_ended: bool,
}

impl Model for RingEnd {
    ghost use Rattle.std.specs.Prelude.{◌≡◌, ◌<◌, true, false, length};
    ghost use Rattle.port.specs.Arrivals.{packets_of, marks_of, mark_count};
    ghost use Rattle.port.specs.Rings.{RingEndValue, head_of};

    ghost Value = { RingEndValue };

    ghost view = { λ e. record {
      ring = e.reader.ring;
      received = packets_of e.reader.handed;
      head = head_of e.is_shown (packets_of e.reader.handed);
      is_ended = e.is_ended;
    } };

    // What is shown is a packet, and no end mark came behind it.
    ghost invariant = { λ e. (marks_of e.reader.handed ≡ mark_count e.is_ended)
        × (e.is_shown ≡ true → (e.is_ended ≡ false) × (0 < length (packets_of e.reader.handed))) };
}

/// The packet that came out of a ring last, where one did and no end mark came behind it.
#[inline(always)]
fn last_packet(reader: &RingReader) -> &Stamped
    requires came { 0 < length (packets_of reader.now.handed) }
    requires unmarked { marks_of reader.now.handed ≡ 0 }
    ensures { (before : List GivenPacket) × (packets_of reader.now.handed ≡ before ++ result.now ∷ []) }
{
    match reader.last().as_packet() {
        Some(item) => item,
        None => unreachable!(),
    }
}

impl RingEnd {
    /// Takes what comes next out of the ring: a packet, or the end mark. `None` is answered where nothing is seen in the
    /// ring, and always behind the end mark. A packet that was shown is released.
    pub fn next(&mut self) -> Option<Arrival>
        ensures ring { self.new.ring ≡ self.old.ring }
        ensures received { IsReceived self.old result self.new }
    {
        match self.advance()? {
            ArrivalKind::Packet => Some(Arrival::Packet(*self.last())),
            ArrivalKind::End => Some(Arrival::End),
        }
    }

    /// Shows what comes next, and tells what kind it is: a packet, which `head` lends and the next look shows again until it is
    /// released, or the end mark, which isn't shown again. `None` is answered where nothing is seen in the ring, and always behind
    /// the end mark.
    #[inline(always)]
    #[tactic(auto, using(crate::proofs::ArrivalLaws::packets_of_snoc, crate::proofs::ArrivalLaws::packets_of_mark, crate::proofs::ArrivalLaws::marks_of_snoc, crate::proofs::ArrivalLaws::marks_of_mark, crate::proofs::ArrivalLaws::unmarked))]
    pub fn peek(&mut self) -> Option<ArrivalKind>
        ensures ring { self.new.ring ≡ self.old.ring }
        ensures shows { Shows self.old result self.new }
    {
        let RingEnd {
            reader,
            is_shown,
            is_ended,
        } = self;
        if *is_shown {
            return Some(ArrivalKind::Packet);
        }
        if !reader.advance() {
            return None;
        }
        if let Some(_) = reader.last().as_packet() {
            *is_shown = true;
            return Some(ArrivalKind::Packet);
        }
        *is_ended = true;
        Some(ArrivalKind::End)
    }

    /// Whether a packet is shown.
    pub fn is_showing(&self) -> bool
        ensures { result ≡ is_some self.now.head }
    {
        self.is_shown
    }

    /// The packet that is shown.
    #[inline(always)]
    pub fn head(&self) -> &Stamped
        requires { IsSome self.now.head }
        ensures { self.now.head ≡ Some result.now }
    {
        last_packet(&self.reader)
    }

    /// What the packet that is shown was sent with, as the place of its stream: its sender's word, which nothing here tests.
    #[inline(always)]
    pub fn place(&self) -> usize
        requires { IsSome self.now.head }
    {
        self.reader.last().place() as usize
    }

    /// Shows the packet no more that is shown, which counts as one that came out of the ring. Where none is shown nothing changes.
    pub fn release(&mut self)
        ensures { self.new ≡ record self.old { head = None } }
    {
        self.is_shown = false;
    }

    /// Takes what comes next out of the ring, and tells what kind it is: a packet, which `last` then shows, or the end mark.
    /// `None` is answered where nothing is seen in the ring, and always behind the end mark. A packet that was shown is released.
    pub fn advance(&mut self) -> Option<ArrivalKind>
        ensures ring { self.new.ring ≡ self.old.ring }
        ensures advanced { IsAdvanced self.old result self.new }
    {
        self.release();
        let kind = self.peek();
        self.release();
        kind
    }

    /// The packet that came out of the ring last, where one did and no end mark came behind it.
    pub fn last(&self) -> &Stamped
        requires came { 0 < length self.now.received }
        requires unmarked { self.now.is_ended ≡ false }
        ensures { IsLast self.now result.now }
    {
        last_packet(&self.reader)
    }

    /// Whether the end mark came.
    pub fn is_ended(&self) -> bool
        ensures { result ≡ self.now.is_ended }
    {
        self.is_ended
    }

    /// How many packets didn't come out of it, of the port that was made with this end and sends no more. The end mark isn't
    /// counted.
    pub fn left(&mut self, finished: &mut FinishedPort) -> u64
        requires { finished.old.port.ring ≡ self.old.ring }
        ensures end { self.new ≡ self.old }
        ensures port { finished.new ≡ finished.old }
        ensures left { IsLeft self.old finished.old result }
    {
        let FinishedPort {
            producer,
            is_ended,
            ..
        } = finished;
        let items = self.reader.left(producer);
        let marks = if *is_ended && !self.is_ended { 1 } else { 0 };
        (items - marks) as u64
    }
}
