//! Framing that goes on while its items are taken.

use std::alloc::{AllocError, Global};
use std::marker::Model;
use tspkt::{FeedFault, Framer, Item, ItemBuffer, MAX_LIMIT, PacketSize};

/// A framer, the items that it told of the last piece, and how many of them were taken. Without a framer no more will be told.
#[derive(Drop)]
pub(crate) struct ItemReader {
    limit: u64,
    framer: Option<Framer>,
    items: ItemBuffer,
    taken: usize,
}

impl Model for ItemReader {
    ghost use Rattle.std.specs.Prelude.{◌≤◌, drop, length};
    ghost use Rattle.reading.specs.Items.{ItemsValue, AreItems};

    ghost Value = { ItemsValue };

    ghost view = { λ r. record { limit = r.limit; framer = r.framer; ahead = drop r.taken r.items.told } };

    ghost invariant = { λ r. (r.taken ≤ length r.items.told) × AreItems r.limit r.framer (drop r.taken r.items.told) };
}

impl ItemReader {
    ghost use Rattle.std.specs.Prelude.{◌≡◌, ◌<◌, ◌≤◌, [], length, drop, slice_get, option_copied, IfSome, OnOk, OnErr, Err, is_none};
    ghost use Rattle.tspkt.specs.declared.framer.TheConstants.{MAX_LIMIT};
    ghost use Rattle.tspkt.specs.PacketSize.{stride_of};
    ghost use Rattle.reading.specs.Items.{new_items, given_up, TakesMore, IsFull, Finishes, IsPlaced};

    /// One that has read nothing, of a stream of this size and of at most so many bytes.
    pub fn new(alloc: Global, size: PacketSize, limit: u64) -> ItemReader
        requires { limit ≤ MAX_LIMIT }
        ensures { result ≡ new_items (stride_of size) limit }
    {
        ItemReader {
            limit,
            framer: Some(Framer::with_size(size, limit)),
            items: ItemBuffer::new(alloc),
            taken: 0,
        }
    }

    /// Whether nothing more will be told.
    pub fn is_over(&self) -> bool
        ensures { result ≡ is_none self.now.framer }
    {
        self.framer.is_none()
    }

    /// The next item that was told.
    pub fn peek(&self) -> Option<&Item>
        ensures item { option_copied result ≡ slice_get self.now.ahead 0 }
        ensures placed { IfSome result (λ item. IsPlaced item.now) }
        ensures within { self.now.limit ≤ MAX_LIMIT }
    {
        self.items.told().get(self.taken)
    }

    /// Takes the next item.
    pub fn pass(&mut self)
        requires { 0 < length self.old.ahead }
        ensures { self.new ≡ record self.old { ahead = drop 1 self.old.ahead } }
    {
        // That many are told, and so one more fits.
        let _told = self.items.told().len();
        self.taken += 1;
    }

    /// Reads the next piece of the stream. An `Err` ends the framing.
    pub fn feed(&mut self, piece: &[u8]) -> Result<(), FeedFault>
        requires { self.old.ahead ≡ [] }
        ensures ok { OnOk result (TakesMore self.old.limit self.old.framer piece.now self.new) }
        ensures err { OnErr result (self.new ≡ given_up self.old) }
        ensures too_much { result ≡ Err FeedFault.TooMuch → IsFull self.old.limit self.old.framer piece.now }
        ensures full { IsFull self.old.limit self.old.framer piece.now → result ≡ Err FeedFault.TooMuch }
    {
        self.taken = 0;
        self.items.clear();
        let Some(mut framer) = self.framer.take() else {
            return Ok(());
        };
        framer.refill(piece, &mut self.items)?;
        self.framer = Some(framer);
        Ok(())
    }

    /// Ends the stream. An `Err` is want of memory, and tells nothing.
    pub fn finish(&mut self) -> Result<(), AllocError>
        requires { self.old.ahead ≡ [] }
        ensures ok { OnOk result (Finishes self.old.limit self.old.framer self.new) }
        ensures err { OnErr result (self.new ≡ given_up self.old) }
    {
        self.taken = 0;
        self.items.clear();
        let Some(framer) = self.framer.take() else {
            return Ok(());
        };
        match framer.finish_refill(&mut self.items) {
            Ok(()) => Ok(()),
            Err((_, e)) => Err(e),
        }
    }

    /// Gives up what wasn't taken, and tells no more.
    pub fn give_up(&mut self)
        ensures { self.new ≡ given_up self.old }
    {
        self.framer = None;
        self.taken = 0;
        self.items.clear();
    }
}
