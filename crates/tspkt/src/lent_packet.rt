//! A packet that is lent, with its time.

use crate::fields;
use crate::packet::Packet;
use crate::stamped::Stamped;
use std::marker::Model;

/// A packet of an input that is lent where it lies, and when it came, in ticks of 27 MHz. Nothing is copied before `stamped`.
#[derive(Drop)]
pub struct LentPacket<'a> {
    bytes: &'a [u8; 188],
    stamp: u64,
}

impl<'a> Model for LentPacket<'a> {
    ghost use Rattle.tspkt.specs.declared.stamped.Stamped.{Stamped as GivenPacket};
    ghost use Rattle.tspkt.specs.Packet.{IsPacket};

    ghost Value = { GivenPacket };

    ghost view = { λ p. record { packet = p.bytes.now; stamp = p.stamp } };

    ghost invariant = { λ p. IsPacket p.bytes.now };
}

impl<'a> LentPacket<'a> {
    ghost use Rattle.std.specs.Prelude.{◌≡◌, ◌<◌, ◌^◌, None};
    ghost use Rattle.tspkt.specs.Packet.{fault_of, pid_of, IsPacket};

    /// The packet in these bytes, which are one, with its time.
    #[inline(always)]
    pub fn new(bytes: &'a [u8; 188], stamp: u64) -> LentPacket<'a>
        requires { fault_of bytes.now ≡ None }
        ensures { result ≡ record { packet = bytes.now; stamp = stamp } }
    {
        // That each of them is a byte is known with this.
        let _ = fields::sync_byte(bytes);
        LentPacket { bytes, stamp }
    }

    /// This packet, lent.
    #[inline(always)]
    pub fn of(item: &'a Stamped) -> LentPacket<'a>
        ensures { result ≡ item.now }
    {
        item.packet.known();
        LentPacket {
            bytes: item.packet.bytes(),
            stamp: item.stamp,
        }
    }

    /// When it came.
    #[inline(always)]
    pub fn stamp(&self) -> u64
        ensures { result ≡ self.now.stamp }
    {
        self.stamp
    }

    /// Its PID, 0 to 0x1FFF.
    #[inline(always)]
    pub fn pid(&self) -> u16
        ensures value { result ≡ pid_of self.now.packet }
        ensures fits { result < 2 ^ 13 }
    {
        Packet::pid_in(self.bytes)
    }

    /// What every lent packet keeps.
    #[inline(always)]
    pub fn known(&self)
        ensures { IsPacket self.now.packet }
    {
        let _ = &self.bytes;
    }

    /// Puts its copy where another packet stood. It is copied once.
    #[inline(always)]
    pub fn put_over(&self, place: &mut Stamped)
        ensures { place.new ≡ self.now }
    {
        self.known();
        place.packet.put(self.bytes);
        place.stamp = self.stamp;
    }

    /// Its copy.
    #[inline(always)]
    pub fn stamped(&self) -> Stamped
        ensures { result ≡ self.now }
    {
        Stamped {
            packet: Packet::holding(self.bytes),
            stamp: self.stamp,
        }
    }
}
