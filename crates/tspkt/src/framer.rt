//! Framing a stream that comes in pieces.

use crate::feed_fault::FeedFault;
use crate::item::Item;
use crate::item_buffer::ItemBuffer;
use crate::item_list::ItemList;
use crate::mode::Mode;
use crate::packet_size::PacketSize;
use crate::stepping::{advance, tell_end};
use crate::window::Window;
use std::alloc::AllocError;
use std::marker::Model;

/// The most bytes that are kept between two pieces: four packets of 204 bytes.
const KEPT: usize = 816;

// The packets that it is.
const _: () = prove!(KEPT == 4 * 204);

/// The greatest limit of the bytes of one stream: 2^47.
pub const MAX_LIMIT: u64 = 140_737_488_355_328;

// The power of two that it is.
const _: () = prove!(MAX_LIMIT == 8 * 1024 * 1024 * 1024 * 1024 * 16);

/// Finds the packets of a stream that comes in pieces (ISO/IEC 13818-1, 2.4.3.2; ETSI TR 101 290, 5.2.1).
///
/// A packet is told by the feed that brings its last byte or the fifth sync byte, whichever comes later; each item is told
/// by the feed whose bytes decide it.
#[derive(Drop)]
pub struct Framer {
    stride: usize,
    limit: u64,
    position: u64,
    mode: Mode,
    kept: [u8; KEPT],
    count: usize,
}

impl Model for Framer {
    ghost use Rattle.std.specs.Prelude.{◌≤◌, take};
    ghost use Rattle.tspkt.specs.Framed.{FramerState};
    ghost use Rattle.tspkt.specs.Stepping.{IsFramer};
    ghost use Rattle.tspkt.specs.declared.framer.TheConstants.{KEPT};

    ghost Value = { FramerState };

    ghost view = { λ f. record {
      stride = f.stride;
      limit = f.limit;
      position = f.position;
      mode = f.mode;
      kept = take f.count f.kept;
    } };

    ghost invariant = { λ f. (f.count ≤ KEPT) × IsFramer f.stride f.limit f.position f.mode (take f.count f.kept) };
}

impl Framer {
    ghost use Rattle.std.specs.Prelude.{◌≡◌, List, ℕ, [], ◌+◌, ◌*◌, ◌<◌, ◌≤◌, ◌↔◌, ◌++◌, length, vec_len, vec_capacity, OnOk, OnErr, IfErr, Err};
    ghost use Rattle.tspkt.specs.ItemLists.{IsLater, Tells};
    ghost use Rattle.tspkt.specs.Stepping.{IsFramer};
    ghost use Rattle.tspkt.specs.PacketSize.{stride_of};
    ghost use Rattle.tspkt.specs.Framed.{new_framer, seen, still_to_tell, packets_of, framed, HasToldAll, TakesPiece, WantsRoom, IsFramedSoFar};

    /// A framer that has seen nothing, for a stream of packets of 188 bytes, at most 3,154,116,608 bytes in all.
    pub fn new() -> Framer
        ensures state { result ≡ new_framer 188 3154116608 }
        ensures framed { IsFramedSoFar result [] [] }
        ensures prompt { packets_of (still_to_tell result []) ≡ [] }
        ensures told_all { HasToldAll result }
    {
        Framer::with_limit(PacketSize::Ts188.limit())
    }

    /// The same for a stream of at most so many bytes in all, of which there may be up to 140,737,488,355,328.
    pub fn with_limit(limit: u64) -> Framer
        requires { limit ≤ MAX_LIMIT }
        ensures state { result ≡ new_framer 188 limit }
        ensures framed { IsFramedSoFar result [] [] }
        ensures prompt { packets_of (still_to_tell result []) ≡ [] }
        ensures told_all { HasToldAll result }
    {
        Framer::with_size(PacketSize::Ts188, limit)
    }

    /// The same for packets of this size. The limit counts the bytes after packets too.
    #[tactic(auto, unfolding(crate::specs::Framed::framed_from))]
    pub fn with_size(size: PacketSize, limit: u64) -> Framer
        requires { limit ≤ MAX_LIMIT }
        ensures state { result ≡ new_framer (stride_of size) limit }
        ensures framed { IsFramedSoFar result [] [] }
        ensures prompt { packets_of (still_to_tell result []) ≡ [] }
        ensures told_all { HasToldAll result }
    {
        Framer {
            stride: size.stride(),
            limit,
            position: 0,
            mode: Mode::Hunting(0),
            kept: [0; KEPT],
            count: 0,
        }
    }

    /// Takes the next piece of the stream, and tells the packets that it decides, and items before and between them, behind
    /// those of `out`.
    ///
    /// A packet is told by the feed that brings its last byte or the fifth sync byte, whichever comes later, and no item that
    /// the bytes so far decide is left.
    /// `TooMuch` comes exactly where the stream would pass its limit, `Memory` where there is no memory for the items: only
    /// where more of them are decided than `out` has room for, and never at an empty piece.
    /// Either changes nothing: the framer and what is in `out` are as they were.
    #[tactic(auto, using(crate::proofs::FramingLaws::no_packet_kept))]
    pub fn feed(&mut self, piece: &[u8], out: &mut Vec<Item>) -> Result<(), FeedFault>
        ensures ok { OnOk result (TakesPiece self.old piece.now out.old.items self.new out.new.items) }

        // If the stream ended here no packet would be left to tell.
        ensures prompt { OnOk result (packets_of (still_to_tell self.new []) ≡ []) }

        ensures told_all { OnOk result (HasToldAll self.new) }

        // At most four packets wait for more bytes: 752 or 816.
        ensures kept { OnOk result (length self.new.kept ≤ 4 * self.new.stride) }

        ensures too_much { (result ≡ Err FeedFault.TooMuch) ↔ (self.old.limit < seen self.old + length piece.now) }
        ensures room { result ≡ Err FeedFault.Memory
            → vec_capacity out.old < vec_len out.old + length self.old.kept + length piece.now }
        ensures full { result ≡ Err FeedFault.Memory
            → WantsRoom self.old piece.now out.old.items (vec_capacity out.old) }
        ensures piece { result ≡ Err FeedFault.Memory → 0 < length piece.now }
        ensures long { result ≡ Err FeedFault.Memory → 188 ≤ length self.old.kept + length piece.now }
        ensures err { OnErr result ((self.new ≡ self.old) × (out.new.items ≡ out.old.items)) }
        ensures capacity { vec_capacity out.old ≤ vec_capacity out.new }
    {
        let before = out.len();
        let taken = self.take_piece(piece, out);
        if taken.is_err() {
            out.truncate(before);
        }
        taken
    }

    /// The same, but what is told is put over the items that `out` has from before: the items of this piece are then all that was told
    /// to it. Where a packet stood the bytes of the next are copied once, into its place. `TooMuch` and `Memory` come as from `feed`;
    /// then the framer is as it was, and nothing was told.
    #[tactic(auto, using(crate::proofs::FramingLaws::no_packet_kept))]
    pub fn refill(&mut self, piece: &[u8], out: &mut ItemBuffer) -> Result<(), FeedFault>
        ensures ok { OnOk result (TakesPiece self.old piece.now [] self.new out.new.told) }

        // With the items from before the list gets no shorter, and no longer than what is told.
        ensures stays { length out.old.told + out.old.stale ≤ length out.new.told + out.new.stale }
        ensures grows { OnOk result (length out.old.told + out.old.stale < length out.new.told + out.new.stale → out.new.stale ≡ 0) }

        ensures prompt { OnOk result (packets_of (still_to_tell self.new []) ≡ []) }
        ensures told_all { OnOk result (HasToldAll self.new) }
        ensures kept { OnOk result (length self.new.kept ≤ 4 * self.new.stride) }
        ensures too_much { (result ≡ Err FeedFault.TooMuch) ↔ (self.old.limit < seen self.old + length piece.now) }
        ensures room { result ≡ Err FeedFault.Memory
            → out.old.places < length self.old.kept + length piece.now }
        ensures full { result ≡ Err FeedFault.Memory → WantsRoom self.old piece.now [] out.old.places }
        ensures piece { result ≡ Err FeedFault.Memory → 0 < length piece.now }
        ensures long { result ≡ Err FeedFault.Memory → 188 ≤ length self.old.kept + length piece.now }
        ensures err { OnErr result ((self.new ≡ self.old) × (out.new.told ≡ [])) }
        ensures places { out.old.places ≤ out.new.places }
    {
        out.clear();
        let taken = self.take_piece(piece, out);
        if taken.is_err() {
            out.clear();
        }
        taken
    }

    /// Takes the next piece, and keeps what waits for more.
    fn take_piece<L: ItemList>(&mut self, piece: &[u8], out: &mut L) -> Result<(), FeedFault>
        ensures ok { OnOk result (TakesPiece self.old piece.now (L.list out.old).told self.new (L.list out.new).told) }
        ensures waits { OnOk result (IsFramer self.new.stride self.new.limit self.new.position self.new.mode self.new.kept) }
        ensures too_much { (result ≡ Err FeedFault.TooMuch) ↔ (self.old.limit < seen self.old + length piece.now) }
        ensures room { result ≡ Err FeedFault.Memory
            → (L.list out.old).places < length (L.list out.old).told + length self.old.kept + length piece.now }
        ensures full { result ≡ Err FeedFault.Memory
            → WantsRoom self.old piece.now (L.list out.old).told (L.list out.old).places }
        ensures piece { result ≡ Err FeedFault.Memory → 0 < length piece.now }
        ensures long { result ≡ Err FeedFault.Memory → 188 ≤ length self.old.kept + length piece.now }
        ensures err { OnErr result (self.new ≡ self.old) }
        ensures later { IsLater (L.list out.old) (L.list out.new) }
    {
        if piece.len() as u64 > self.limit - self.position - self.count as u64 {
            return Err(FeedFault::TooMuch);
        }
        if piece.is_empty() {
            return Ok(());
        }
        let kept = self.kept;
        let window = Window::new(&kept[..self.count], piece);
        match advance(self.stride, self.position, &window, self.mode, out) {
            Ok((done, mode)) => {
                let left = window.len() - done;
                window.copy(done, &mut self.kept[..left]);
                self.count = left;
                self.position += done as u64;
                self.mode = mode;
                Ok(())
            }
            Err(_) => Err(FeedFault::Memory),
        }
    }

    /// Ends the stream, and tells the items that are left behind those of `out`. An `Err` is want of memory: it comes only
    /// where `out` has no room, tells nothing and hands the framer back as it was.
    pub fn finish(self, out: &mut Vec<Item>) -> Result<(), (Framer, AllocError)>
        ensures ok { OnOk result (out.new.items ≡ out.old.items ++ still_to_tell self []) }
        ensures room { OnErr result (vec_capacity out.old ≤ vec_len out.old) }
        ensures left { OnErr result (0 < length (still_to_tell self [])) }
        ensures err { IfErr result (λ back. (back.0 ≡ self) × (out.new.items ≡ out.old.items)) }
        ensures capacity { vec_capacity out.old ≤ vec_capacity out.new }
    {
        self.end(out)
    }

    /// The same, told to a list that is filled anew from piece to piece, behind what was told to it.
    pub fn finish_refill(self, out: &mut ItemBuffer) -> Result<(), (Framer, AllocError)>
        ensures ok { OnOk result (out.new.told ≡ out.old.told ++ still_to_tell self []) }
        ensures room { OnErr result (out.old.places ≤ length out.old.told) }
        ensures left { OnErr result (0 < length (still_to_tell self [])) }
        ensures err { IfErr result (λ back. (back.0 ≡ self) × (out.new.told ≡ out.old.told)) }
        ensures places { out.old.places ≤ out.new.places }
    {
        self.end(out)
    }

    /// Ends the stream, and tells the items that are left.
    fn end<L: ItemList>(self, out: &mut L) -> Result<(), (Framer, AllocError)>
        ensures tells { Tells (L.list out.old) (still_to_tell self []) (L.list out.new) result }
        ensures back { IfErr result (λ back. back.0 ≡ self) }
    {
        let end = self.position + self.count as u64;
        match tell_end(self.mode, self.position, end, out) {
            Ok(()) => Ok(()),
            Err(e) => Err((self, e)),
        }
    }
}
