//! Framing a whole stream.

ghost use Rattle.std.specs.Prelude.{◌≡◌, ◌<◌, ◌≤◌, ◌↔◌, IsTrue, [], length, All, sum_by, Err, IfOk, OnOk};
ghost use Rattle.std.specs.List.{flat_map};
ghost use Rattle.tspkt.specs.PacketSize.{stride_of, limit_of};
ghost use Rattle.tspkt.specs.Framed.{framed, packets_of, still_to_tell, IsFramedSoFar, covered, IsCovered, IsAtItsPlace, ExactOnPackets, ExactOnLastPacket};

use crate::feed_fault::FeedFault;
use crate::framer::Framer;
use crate::item::Item;
use crate::packet_size::PacketSize;
use std::alloc::Global;

/// A framer that was fed these pieces, and what it told.
fn fed(
    alloc: Global,
    size: PacketSize,
    pieces: &[Vec<u8>],
) -> Result<(Framer, Vec<Item>), FeedFault>
    ensures told { IfOk result (λ fed.
        IsFramedSoFar fed.0 fed.1.items (flat_map (λ piece. piece.items) pieces.now)) }
    ensures stride { IfOk result (λ fed. fed.0.stride ≡ stride_of size) }
    ensures prompt { IfOk result (λ fed. packets_of (still_to_tell fed.0 []) ≡ []) }
    ensures within { OnOk result (length (flat_map (λ piece. piece.items) pieces.now) ≤ limit_of size) }
    ensures too_much { result ≡ Err FeedFault.TooMuch
        → limit_of size < length (flat_map (λ piece. piece.items) pieces.now) }
    ensures memory { result ≡ Err FeedFault.Memory → 0 < length (flat_map (λ piece. piece.items) pieces.now) }
{
    let mut framer = Framer::with_size(size, size.limit());
    let mut items = Vec::new(alloc);
    for piece in pieces {
        framer.feed(piece, &mut items)?;
    }
    Ok((framer, items))
}

/// Whether these pieces have more bytes than the limit in all.
fn is_too_long(limit: u64, pieces: &[Vec<u8>]) -> bool
    ensures { IsTrue result ↔ (limit < length (flat_map (λ piece. piece.items) pieces.now)) }
{
    let mut left = limit;
    for piece in pieces {
        let length = piece.len() as u64;
        if left < length {
            return true;
        }
        left -= length;
    }
    false
}

/// The items of a whole stream that comes in these pieces: packets of 188 bytes, at most 3,154,116,608 bytes in all.
/// `TooMuch` comes exactly where the stream passes that, and `Memory`, that there is no memory for the items, never of a
/// stream without bytes.
pub fn frame(alloc: Global, pieces: &[Vec<u8>]) -> Result<Vec<Item>, FeedFault>
    ensures items { IfOk result (λ items. items.items ≡ framed 188 (flat_map (λ piece. piece.items) pieces.now)) }

    // What that means: the items cover the stream, a packet is its bytes at its place, and packets are found.
    ensures cover { IfOk result (λ items.
        sum_by (covered 188) items.items ≡ length (flat_map (λ piece. piece.items) pieces.now)) }
    ensures places { IfOk result (λ items.
        All (IsAtItsPlace (flat_map (λ piece. piece.items) pieces.now)) items.items) }
    ensures found { IfOk result (λ items.
        ExactOnPackets 188 (flat_map (λ piece. piece.items) pieces.now) items.items) }

    ensures too_much { (result ≡ Err FeedFault.TooMuch)
        ↔ (3154116608 < length (flat_map (λ piece. piece.items) pieces.now)) }
    ensures memory { result ≡ Err FeedFault.Memory → 0 < length (flat_map (λ piece. piece.items) pieces.now) }
{
    frame_with_size(alloc, PacketSize::Ts188, pieces)
}

/// The same for packets of this size, at most as many bytes in all as its limit.
pub fn frame_with_size(
    alloc: Global,
    size: PacketSize,
    pieces: &[Vec<u8>],
) -> Result<Vec<Item>, FeedFault>
    ensures items { IfOk result (λ items.
        items.items ≡ framed (stride_of size) (flat_map (λ piece. piece.items) pieces.now)) }

    // What that means.
    ensures cover { IfOk result (λ items.
        IsCovered (stride_of size) (flat_map (λ piece. piece.items) pieces.now) items.items) }
    ensures places { IfOk result (λ items.
        All (IsAtItsPlace (flat_map (λ piece. piece.items) pieces.now)) items.items) }
    ensures found { IfOk result (λ items.
        ExactOnPackets (stride_of size) (flat_map (λ piece. piece.items) pieces.now) items.items) }
    ensures last { IfOk result (λ items.
        ExactOnLastPacket (stride_of size) (flat_map (λ piece. piece.items) pieces.now) items.items) }

    ensures too_much { (result ≡ Err FeedFault.TooMuch)
        ↔ (limit_of size < length (flat_map (λ piece. piece.items) pieces.now)) }
    ensures memory { result ≡ Err FeedFault.Memory → 0 < length (flat_map (λ piece. piece.items) pieces.now) }
{
    if is_too_long(size.limit(), pieces) {
        return Err(FeedFault::TooMuch);
    }
    let (framer, mut items) = fed(alloc, size, pieces)?;
    match framer.finish(&mut items) {
        Ok(()) => Ok(items),
        Err(_) => Err(FeedFault::Memory),
    }
}
