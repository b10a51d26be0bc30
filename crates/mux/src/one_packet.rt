//! A place for the packet of a slot.

use crate::outgoing::Outgoing;
use crate::standing::Standing;
use std::marker::Model;
use tspkt::{Packet, null};

/// A place for the packet of one slot. Once it is cleared the next slot's is written where that one stood; a null packet is
/// told, and not written.
#[derive(Drop)]
pub struct OnePacket {
    standing: Standing,
    /// The last one that was written here.
    other: Packet,
    null: Packet,
}

impl Model for OnePacket {
    ghost use Rattle.std.specs.Prelude.{◌≡◌, ℕ, List};
    ghost use Rattle.tspkt.specs.Packet.{null_packet};
    ghost use Rattle.mux.specs.Output.{stands_there};

    ghost Value = { List (List ℕ) };

    ghost view = { λ o. stands_there o.standing o.null o.other };

    ghost invariant = { λ o. o.null ≡ null_packet };
}

impl OnePacket {
    ghost use Rattle.std.specs.Prelude.{◌≡◌, [], option_copied};
    ghost use Rattle.std.specs.List.{slice_get};

    /// With no packet.
    pub fn new() -> OnePacket
        ensures { result ≡ [] }
    {
        OnePacket {
            standing: Standing::Nothing,
            other: null(),
            null: null(),
        }
    }

    /// Its packet, if there is one.
    pub fn get(&self) -> Option<&Packet>
        ensures { option_copied result ≡ slice_get self.now 0 }
    {
        match self.standing {
            Standing::Nothing => None,
            Standing::Null => Some(&self.null),
            Standing::Other => Some(&self.other),
        }
    }

    /// Lets its packet go.
    pub fn clear(&mut self)
        ensures { self.new ≡ [] }
    {
        self.standing = Standing::Nothing;
    }
}

impl Outgoing for OnePacket {
    ghost use Rattle.std.specs.Prelude.{◌-◌, length};

    ghost packets = { λ o. o };

    ghost room = { λ o. 1 - length o };

    #[inline(always)]
    fn add(&mut self, packet: &Packet) {
        self.other = *packet;
        self.standing = Standing::Other;
    }

    #[inline(always)]
    fn add_null(&mut self, _null: &Packet) {
        self.standing = Standing::Null;
    }

    #[inline(always)]
    fn add_rewritten(&mut self, packet: &Packet, pid: u16, delay: u64) {
        self.other.set_rewritten(packet, pid, delay);
        self.standing = Standing::Other;
    }

    #[inline(always)]
    fn last(&self) -> &Packet {
        match self.standing {
            Standing::Null => &self.null,
            Standing::Nothing | Standing::Other => &self.other,
        }
    }
}
