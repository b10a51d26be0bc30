//! What the packets of an input come through.

use port::{ArrivalKind, RingEnd};
use reading::{Look, PacketReader, Source};
use schedule::Schedule;
use tspkt::LentPacket;

/// What the packets of an input come through: it shows the next one until that is taken.
pub trait Inlet {
    ghost use Rattle.std.specs.Prelude.{◌≡◌, ℕ, Option, Some, None, IsSome};
    ghost use Rattle.tspkt.specs.declared.stamped.Stamped.{Stamped as GivenPacket};
    ghost use Rattle.schedule.specs.Schedule.{ScheduleValue};

    // The packet that it shows, which wasn't taken.
    ghost shown: { Self → Option GivenPacket };

    // Nothing more comes of it.
    ghost IsOver: { Self → Type 0 };

    // More may come, and nothing is seen.
    ghost IsWaiting: { Self → Type 0 };

    // A look led from the one to the other.
    ghost looks: { ScheduleValue → Self → Self → Type 0 };

    // The same inlet behind the packet that it showed.
    ghost released: { Self → Self };

    /// Looks for the next packet, and shows it from then on. `More`: none is seen yet. `Over`: none comes any more. With a packet comes the
    /// place of its stream in the schedule, as it was told: whoever uses it tests it.
    fn look(&mut self, schedule: &Schedule) -> Look
        ensures looks { looks schedule.now self.old self.new }
        ensures found { (place : ℕ) → result ≡ Look.Packet place → IsSome (shown self.new) }
        ensures more { result ≡ Look.More → IsWaiting self.new × (shown self.new ≡ None) }
        ensures over { result ≡ Look.Over → IsOver self.new × (shown self.new ≡ None) }
        ensures stays { IsSome (shown self.old) → self.new ≡ self.old };

    /// The packet that it shows, lent.
    fn head(&self) -> LentPacket<'_>
        requires { IsSome (shown self.now) }
        ensures { shown self.now ≡ Some result };

    /// Shows the packet no more that it shows.
    fn release(&mut self)
        ensures value { self.new ≡ released self.old }
        ensures none { shown self.new ≡ None };
}

impl<R: Source> Inlet for PacketReader<R> {
    ghost use Rattle.std.specs.Prelude.{None};
    ghost use Rattle.reading.specs.PacketReading.{IsSpent, WantsMore};
    ghost use Rattle.inlets.specs.Looking.{Looks};

    ghost shown = { λ x. x.held };

    ghost IsOver = { λ x. IsSpent x };

    ghost IsWaiting = { λ x. WantsMore x };

    ghost looks = { λ s old new. Looks R.remaining R.failures s old new };

    ghost released = { λ x. record x { held = None } };

    fn look(&mut self, schedule: &Schedule) -> Look {
        self.look(schedule)
    }

    fn head(&self) -> LentPacket<'_> {
        self.held().unwrap()
    }

    fn release(&mut self) {
        self.release();
    }
}

impl Inlet for RingEnd {
    ghost use Rattle.std.specs.Prelude.{◌≡◌, Option, None, true, false};
    ghost use Rattle.port.specs.declared.arrival_kind.ArrivalKind.{ArrivalKind as KindOfArrival};
    ghost use Rattle.port.specs.Advancing.{Shows};

    ghost shown = { λ e. e.head };

    ghost IsOver = { λ e. e.is_ended ≡ true };

    ghost IsWaiting = { λ e. e.is_ended ≡ false };

    ghost looks = { λ s old new. (kind : Option KindOfArrival) × Shows old kind new };

    ghost released = { λ e. record e { head = None } };

    fn look(&mut self, _schedule: &Schedule) -> Look {
        match self.peek() {
            Some(ArrivalKind::Packet) => Look::Packet(self.place()),
            Some(ArrivalKind::End) => Look::Over,
            None if self.is_ended() => Look::Over,
            None => Look::More,
        }
    }

    fn head(&self) -> LentPacket<'_> {
        LentPacket::of(self.head())
    }

    fn release(&mut self) {
        self.release();
    }
}
