//! What lies in a ring.

ghost use Rattle.std.specs.Prelude.{◌≡◌, ℕ, MatchOption};
ghost use Rattle.port.specs.Arrivals.{Packet, End};

use std::marker::Model;
use tspkt::{LentPacket, Stamped};

/// A packet or the end mark as it lies in a ring. The mark stands beside the packet, and not as an enum's tag: so a packet's bytes are
/// copied once on their way out.
#[derive(Clone, Copy)]
pub(crate) struct Carried {
    /// The packet; beside an end mark a null packet of time 0.
    item: Stamped,
    /// The place of its stream, as the port was told; beside an end mark 0. In four bytes it makes a place of a ring no longer.
    place: u32,
    is_end: bool,
}

impl Model for Carried {
    ghost use Rattle.port.specs.Arrivals.{CarriedValue};
    ghost use Rattle.port.specs.Carried.{carried_of, IsCarried, item_of, place_of, is_mark, same_item, same_place, same_mark};

    ghost Value = { CarriedValue };

    ghost view = { λ c. carried_of c.item c.place c.is_end };

    ghost invariant = { λ c. IsCarried c.item c.place c.is_end };

    ghost inverse = { λ a. record { item = item_of a; place = place_of a; is_end = is_mark a } };

    ghost inverse_ok = { λ c h i. record {
      item = same_item c.item c.place c.is_end h i;
      place = same_place c.item c.place c.is_end h i;
      is_end = same_mark c.item c.place c.is_end i;
    } };
}

impl Carried {
    ghost use Rattle.port.specs.Carried.{place_of};

    /// A packet with its time, copied, and the place of its stream.
    #[inline(always)]
    pub fn packet(item: &LentPacket, place: u32) -> Carried
        ensures { result ≡ Packet item.now place }
    {
        Carried {
            item: item.stamped(),
            place,
            is_end: false,
        }
    }

    /// The end mark.
    pub fn end() -> Carried
        ensures { result ≡ End }
    {
        let item = Stamped {
            packet: tspkt::null(),
            stamp: 0,
        };
        Carried {
            item,
            place: 0,
            is_end: true,
        }
    }

    /// The packet with its time; none where it is the end mark.
    #[inline(always)]
    pub fn as_packet(&self) -> Option<&Stamped>
        ensures { MatchOption result (self.now ≡ End) (λ item. (place : ℕ) × (self.now ≡ Packet item.now place)) }
    {
        if self.is_end { None } else { Some(&self.item) }
    }

    /// The place of the packet's stream.
    #[inline(always)]
    pub fn place(&self) -> u32
        ensures { result ≡ place_of self.now }
    {
        self.place
    }
}
