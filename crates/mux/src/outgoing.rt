//! Where the packets of slots go.

use std::slice;
use tspkt::Packet;

/// Where the packets of slots go, each behind those before.
pub trait Outgoing {
    ghost use Rattle.std.specs.Prelude.{◌≡◌, ◌<◌, ◌≤◌, ◌+◌, ◌-◌, ◌++◌, ◌∷◌, ◌^◌, [], ℕ, List, Some, length};
    ghost use Rattle.std.specs.List.{slice_get};
    ghost use Rattle.tspkt.specs.Packet.{null_packet};
    ghost use Rattle.tspkt.specs.Rewritten.{rewritten};

    // The packets that went there.
    ghost packets: { Self → List (List ℕ) };

    // For how many more there is room.
    ghost room: { Self → ℕ };

    /// One more packet. It is copied once.
    fn add(&mut self, packet: &Packet)
        requires { 0 < room self.old }
        ensures packets { packets self.new ≡ packets self.old ++ packet.now ∷ [] }
        ensures room { room self.old ≤ room self.new + 1 };

    /// The null packet, which this is. It is copied once, or not at all where a place has one of its own.
    fn add_null(&mut self, null: &Packet)
        requires room { 0 < room self.old }
        requires null { null.now ≡ null_packet }
        ensures packets { packets self.new ≡ packets self.old ++ null_packet ∷ [] }
        ensures room { room self.old ≤ room self.new + 1 };

    /// One more, put on another PID, below 0x2000, and later by a delay in ticks of 27 MHz. It is copied once.
    fn add_rewritten(&mut self, packet: &Packet, pid: u16, delay: u64)
        requires room { 0 < room self.old }
        requires pid { pid < 2 ^ 13 }
        ensures packets { packets self.new ≡ packets self.old ++ rewritten packet.now pid delay ∷ [] }
        ensures room { room self.old ≤ room self.new + 1 };

    /// The last one, lent.
    fn last(&self) -> &Packet
        requires { 0 < length (packets self.now) }
        ensures { slice_get (packets self.now) (length (packets self.now) - 1) ≡ Some result.now };
}

impl Outgoing for Vec<Packet> {
    ghost use Rattle.std.specs.Prelude.{◌-◌, vec_len, vec_capacity};

    ghost packets = { λ v. v.items };

    ghost room = { λ v. vec_capacity v - vec_len v };

    #[inline(always)]
    fn add(&mut self, packet: &Packet) {
        // So it is copied once, and by `push` twice.
        let Ok(()) = self.extend_from_slice(slice::from_ref(packet)) else {
            unreachable!()
        };
    }

    #[inline(always)]
    fn add_null(&mut self, null: &Packet) {
        self.add(null);
    }

    #[inline(always)]
    fn add_rewritten(&mut self, packet: &Packet, pid: u16, delay: u64) {
        self.add(packet);
        let last = self.len() - 1;
        self[last].move_on(pid, delay);
    }

    #[inline(always)]
    fn last(&self) -> &Packet {
        &self[self.len() - 1]
    }
}
