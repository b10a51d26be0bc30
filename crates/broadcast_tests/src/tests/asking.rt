//! What the tests ask of a broadcast, of its port and of its readers: each is lent, so that a test owns nothing where an answer is
//! compared.

ghost use Rattle.std.specs.Prelude.{◌≡◌, ◌≤◌, ◌<◌, ◌^◌, length};
ghost use Rattle.schedule.specs.Streams.{all_streams};
ghost use Rattle.mux.specs.Lawful.{input_count};

use broadcast::{Broadcast, Ticked, TickedSlot};
use feed::{FeedReader, NotLetIn, PublishingEnd, ReadingEnd};
use marks::Mark;
use mux::Sending;
use port::Port;
use std::alloc::Global;
use std::process::Abort;
use std::sync::Wait;
use tspkt::{Packet, Stamped};

/// Packet k of an input, with counter k, PID 0x0101 and payload alone, 184 bytes 0xAA.
pub fn item(rt: &impl Abort, k: u64) -> Stamped
    requires { k ≤ 2 ^ 40 }
{
    let mut bytes = [0xAA; 188];
    bytes[0] = 0x47;
    bytes[1] = 0x01;
    bytes[2] = 0x01;
    bytes[3] = 0x10 + (k % 16) as u8;
    Stamped {
        packet: Packet::read(&bytes).expect(rt, "a packet"),
        stamp: 27_000 * k + 1_436,
    }
}

/// This number is the one that is expected.
pub fn equals(rt: &impl Abort, found: u64, expected: u64) {
    assert_eq!(rt; found, expected);
}

/// The first so many packets of the input go into the ring.
pub fn offers(rt: &impl Abort, port: &mut Port, count: u8) {
    for k in 0..count {
        assert!(rt; port.offer(item(rt, u64::from(k))).is_ok());
    }
}

/// The port ends.
pub fn ends(rt: &impl Abort, port: Port) {
    assert!(rt; port.end().is_ok());
}

/// A tick answers so, with so many packets behind.
pub fn ticks<T: Abort + Wait, E: PublishingEnd>(
    rt: &T,
    broadcast: &mut Broadcast<E>,
    slot: Sending,
    behind: u64,
)
    ensures feed { broadcast.new.feed ≡ broadcast.old.feed }
    ensures run { broadcast.new.station.history.run ≡ broadcast.old.station.history.run }
{
    let ticked = Ticked {
        slot: TickedSlot::Answered(slot),
        behind,
    };
    assert_eq!(rt; broadcast.tick(rt), ticked);
}

/// A tick wants memory for what an earlier one left behind, and publishes all of it.
pub fn wants_memory<T: Abort + Wait, E: PublishingEnd>(rt: &T, broadcast: &mut Broadcast<E>)
    ensures feed { broadcast.new.feed ≡ broadcast.old.feed }
    ensures run { broadcast.new.station.history.run ≡ broadcast.old.station.history.run }
{
    let ticked = Ticked {
        slot: TickedSlot::Memory,
        behind: 0,
    };
    assert_eq!(rt; broadcast.tick(rt), ticked);
}

/// So many ticks send a slot each, and publish it.
pub fn sends<T: Abort + Wait, E: PublishingEnd>(rt: &T, broadcast: &mut Broadcast<E>, count: u64)
    ensures feed { broadcast.new.feed ≡ broadcast.old.feed }
    ensures run { broadcast.new.station.history.run ≡ broadcast.old.station.history.run }
{
    for _ in 0..count {
        ticks(rt, broadcast, Sending::Sent, 0);
    }
}

/// What is behind is published, all of it.
pub fn publishes<T: Abort + Wait, E: PublishingEnd>(rt: &T, broadcast: &mut Broadcast<E>)
    ensures { broadcast.new.feed ≡ broadcast.old.feed }
{
    equals(rt, broadcast.publish(rt), 0);
}

/// A mark has so many packets, and is sealed or isn't.
fn is_mark(rt: &impl Abort, mark: &Mark, count: u64, is_sealed: bool) {
    equals(rt, mark.count(), count);
    assert!(rt; mark.is_sealed() == is_sealed);
}

/// The mark of what was published has so many packets, and is sealed or isn't.
pub fn marks<E: PublishingEnd>(
    rt: &impl Abort,
    broadcast: &Broadcast<E>,
    count: u64,
    is_sealed: bool,
) -> Mark
    ensures { result.feed ≡ broadcast.now.feed }
{
    let mark = broadcast.mark();
    is_mark(rt, &mark, count, is_sealed);
    mark
}

/// A reader learns the mark of what was published, which has so many packets and is sealed or isn't.
pub fn learns<E: PublishingEnd>(
    rt: &impl Abort,
    reader: &mut FeedReader,
    broadcast: &Broadcast<E>,
    count: u64,
    is_sealed: bool,
)
    requires { reader.old.known.feed ≡ broadcast.now.feed }
    ensures { reader.new.known.feed ≡ reader.old.known.feed }
{
    reader.learn(marks(rt, broadcast, count, is_sealed));
}

/// The feed is sealed behind so many packets.
pub fn seals<T: Abort + Wait, E: PublishingEnd>(
    rt: &T,
    broadcast: &mut Broadcast<E>,
    count: u64,
) -> Mark
    ensures mark { result.feed ≡ broadcast.old.feed }
    ensures feed { broadcast.new.feed ≡ broadcast.old.feed }
{
    let mark = broadcast.seal(rt).expect(rt, "a mark");
    is_mark(rt, &mark, count, true);
    mark
}

/// What a read gives, of at most 256 packets.
pub fn piece_of<R: ReadingEnd + Drop>(
    rt: &impl Abort,
    alloc: Global,
    reader: &mut FeedReader<R>,
) -> Vec<Packet>
    ensures { reader.new.known.feed ≡ reader.old.known.feed }
{
    let mut piece = Vec::with_capacity(alloc, 256).expect(rt, "memory");
    assert!(rt; reader.read(&mut piece, 256).is_ok());
    piece
}

/// The packets have these PIDs.
fn have_pids(rt: &impl Abort, packets: &[Packet], pids: &[u16]) {
    assert!(rt; packets.len() == pids.len());
    for (packet, pid) in packets.iter().zip(pids) {
        assert_eq!(rt; packet.pid(), *pid);
    }
}

/// A read gives packets of these PIDs.
pub fn reads(rt: &impl Abort, alloc: Global, reader: &mut FeedReader, pids: &[u16])
    ensures { reader.new.known.feed ≡ reader.old.known.feed }
{
    let piece = piece_of(rt, alloc, reader);
    have_pids(rt, piece.as_slice(), pids);
}

/// A read is refused.
pub fn is_refused(rt: &impl Abort, alloc: Global, reader: &mut FeedReader) {
    let mut piece = Vec::with_capacity(alloc, 16).expect(rt, "memory");
    assert!(rt; reader.read(&mut piece, 16) == Err(NotLetIn));
}

/// Of the packets of the input so many were taken, and so many of these were sent.
pub fn took<E: PublishingEnd>(rt: &impl Abort, broadcast: &Broadcast<E>, taken: u64, sent: u64)
    requires { 0 < input_count broadcast.now.station.history.run.schedule }
{
    let totals = broadcast.totals(0);
    equals(rt, totals.taken, taken);
    equals(rt, totals.sent, sent);
}

/// The largest delay of the stream's packets is this many ticks.
pub fn delayed<E: PublishingEnd>(rt: &impl Abort, broadcast: &Broadcast<E>, ticks: u64)
    requires { 0 < length (all_streams broadcast.now.station.history.run.schedule) }
{
    equals(rt, broadcast.station().peak(0).delay, ticks);
}

/// The example's PAT, with the packet's header and the pointer field; the rest of its packet is 0xFF.
const PAT: [u8; 25] = [
    0x47, 0x40, 0x00, 0x10, 0x00, 0x00, 0xB0, 0x11, 0x00, 0x01, 0xC1, 0x00, 0x00, 0x00, 0x00, 0xE0,
    0x10, 0x01, 0xF4, 0xE1, 0x00, 0xF8, 0x93, 0xDA, 0x6A,
];

/// The packet is that of the PAT.
fn is_the_pat(rt: &impl Abort, packet: &Packet) {
    let mut expected = [0xFF; 188];
    expected[..25].copy_from_slice(&PAT);
    assert_eq!(rt; packet.bytes(), &expected);
}

/// A read gives the packet of the PAT, and nothing else.
pub fn reads_the_pat(rt: &impl Abort, alloc: Global, reader: &mut FeedReader)
    ensures { reader.new.known.feed ≡ reader.old.known.feed }
{
    let piece = piece_of(rt, alloc, reader);
    assert!(rt; piece.len() == 1);
    is_the_pat(rt, &piece[0]);
}
