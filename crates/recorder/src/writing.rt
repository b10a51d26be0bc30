//! Packets as bytes on their way to a sink.

ghost use Rattle.std.specs.Prelude.{◌≡◌, ◌≤◌, ◌*◌, length, vec_capacity};
ghost use Rattle.outlet.specs.Sending.{bytes_of};

use tspkt::Packet;

/// Puts the bytes of these packets, one behind the other, in place of what stands in `bytes`, which has room for them.
pub(crate) fn gather(packets: &[Packet], bytes: &mut Vec<u8>)
    requires { 188 * length packets.now ≤ vec_capacity bytes.old }
    ensures bytes { bytes.new.items ≡ bytes_of packets.now }
    ensures room { vec_capacity bytes.old ≤ vec_capacity bytes.new }
{
    bytes.clear();
    for packet in packets {
        let Ok(()) = bytes.extend_from_slice(packet.bytes()) else {
            unreachable!()
        };
    }
}
