//! What the tests ask of a station and of a port: each is lent, so that a test owns nothing where an answer is compared.

ghost use Rattle.std.specs.Prelude.{◌≡◌, ◌<◌, length};
ghost use Rattle.schedule.specs.Streams.{all_streams};
ghost use Rattle.mux.specs.Lawful.{input_count};
ghost use Rattle.station.specs.Stations.{rings_of};

use mux::{OnePacket, Sending, Slot};
use port::{FinishedPort, Port};
use station::Station;
use std::alloc::Global;
use std::process::Abort;
use tspkt::{Packet, Stamped};

/// Packet k of an input, with counter k, PID 0x0101 and payload alone, 184 bytes 0xAA.
fn item(rt: &impl Abort, k: u8) -> Stamped {
    let mut bytes = [0xAA; 188];
    bytes[0] = 0x47;
    bytes[1] = 0x01;
    bytes[2] = 0x01;
    bytes[3] = 0x10 + k % 16;
    Stamped {
        packet: Packet::read(&bytes).expect(rt, "a packet"),
        stamp: 27_000 * u64::from(k) + 1_436,
    }
}

/// Packet k of the input goes into the ring.
pub fn offers(rt: &impl Abort, port: &mut Port, k: u8)
    ensures { port.new.ring ≡ port.old.ring }
{
    assert!(rt; port.offer(item(rt, k)).is_ok());
}

/// Packet k of the input, with this time, finds the ring full, and is handed back.
pub fn refuses(rt: &impl Abort, port: &mut Port, k: u8, stamp: u64)
    ensures { port.new.ring ≡ port.old.ring }
{
    assert!(rt; matches!(port.offer(item(rt, k)), Err(item) if item.stamp == stamp));
}

/// The port ends.
pub fn ends(rt: &impl Abort, port: Port) -> FinishedPort
    ensures { result.port ≡ port }
{
    port.end().ok().expect(rt, "room for the end mark")
}

/// A tick answers so; its packet, where it has one.
pub fn ticks(rt: &impl Abort, station: &mut Station, answer: Sending) -> OnePacket
    ensures rings { rings_of station.new.inputs ≡ rings_of station.old.inputs }
    ensures run { station.new.history.run ≡ station.old.history.run }
{
    let mut sent = OnePacket::new();
    assert_eq!(rt; station.tick_behind(&mut sent), answer);
    sent
}

/// The packet of a slot that was sent.
fn packet_of(slot: Slot) -> Option<Packet> {
    match slot {
        Slot::Sent(packet) => Some(packet),
        _ => None,
    }
}

/// A tick sends a packet with this PID and this counter.
pub fn sends(rt: &impl Abort, station: &mut Station, pid: u16, counter: u8)
    ensures rings { rings_of station.new.inputs ≡ rings_of station.old.inputs }
    ensures run { station.new.history.run ≡ station.old.history.run }
{
    let packet = packet_of(station.tick()).expect(rt, "a packet");
    assert_eq!(rt; (packet.pid(), packet.counter()), (pid, counter));
}

/// Many steps in one go do nothing, for want of a packet of input 0.
pub fn waits(rt: &impl Abort, alloc: Global, station: &mut Station) {
    let mut sent = Vec::with_capacity(alloc, 16).expect(rt, "memory");
    assert_eq!(rt; station.advance(16, &mut sent), Sending::NotReady(0));
    assert!(rt; sent.is_empty());
}

/// The same where what goes out would come behind other packets.
pub fn waits_behind(rt: &impl Abort, alloc: Global, station: &mut Station) {
    let mut sent = Vec::with_capacity(alloc, 16).expect(rt, "memory");
    sent.push(tspkt::null()).expect(rt, "memory");
    assert_eq!(rt; station.advance_behind(15, &mut sent), Sending::NotReady(0));
    assert_eq!(rt; sent.len(), 1);
}

/// The packet that was sent has this PID and this counter.
pub fn shows(rt: &impl Abort, sent: &OnePacket, pid: u16, counter: u8) {
    assert!(rt;
        matches!(sent.get(), Some(packet) if packet.pid() == pid && packet.counter() == counter)
    );
}

/// The station's first input is open, or isn't.
pub fn is_open(rt: &impl Abort, station: &Station, expected: bool)
    requires { 0 < input_count station.now.history.run.schedule }
{
    assert_eq!(rt; !station.is_closed(0), expected);
}

/// The largest delay of the first stream is this many ticks.
pub fn delayed(rt: &impl Abort, station: &Station, ticks: u64)
    requires { 0 < length (all_streams station.now.history.run.schedule) }
{
    assert_eq!(rt; station.peak(0).delay, ticks);
}
