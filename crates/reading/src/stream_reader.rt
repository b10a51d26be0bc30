//! The items of a stream that is read from a source.

use crate::item_reader::ItemReader;
use crate::source::Source;
use crate::stop::Stop;
use std::alloc::Global;
use tspkt::{FeedFault, Item, PacketSize};

/// How many bytes a run reads of an input at once, at most.
pub const PIECE: usize = 65_536;

/// A stream: what it is read from, and the items that framing told of it and that weren't taken yet.
#[derive(Drop)]
pub struct StreamReader<R> {
    source: R,
    items: ItemReader,
}

impl<R: Source> StreamReader<R> {
    ghost use Rattle.std.specs.Prelude.{◌≡◌, ◌<◌, ◌≤◌, ◌++◌, ◌∷◌, ℕ, List, [], length, drop, Ok, Err, None, Some, Option, IsSome, IfSome, OnOk, OnErr, is_none, slice_get, option_copied};
    ghost use Rattle.std.specs.Io.KnownBytes.{IsAtEnd};
    ghost use Rattle.tspkt.specs.declared.framer.TheConstants.{MAX_LIMIT};
    ghost use Rattle.tspkt.specs.declared.item.Item.{Item as ToldItem};
    ghost use Rattle.reading.specs.declared.stop.Stop.{Stop as Cause};
    ghost use Rattle.tspkt.specs.PacketSize.{stride_of};
    ghost use Rattle.reading.specs.Items.{new_items, given_up, left_to_read, IsPlaced};
    ghost use Rattle.reading.specs.StreamReading.{HasPassed, ReadsMore, ToldOfRead, stopped_by};

    /// A stream of this size of which nothing was read, of at most so many bytes: up to 140,737,488,355,328.
    pub fn new(alloc: Global, size: PacketSize, source: R, limit: u64) -> StreamReader<R>
        requires { limit ≤ MAX_LIMIT }
        ensures passed { HasPassed R.remaining (stride_of size) result [] None [] }
        ensures source { result.source ≡ source }
        ensures items { result.items ≡ new_items (stride_of size) limit }
    {
        StreamReader {
            source,
            items: ItemReader::new(alloc, size, limit),
        }
    }

    /// Whether nothing more will be read.
    pub fn is_over(&self) -> bool
        ensures { result ≡ is_none self.now.items.framer }
    {
        self.items.is_over()
    }

    /// The next item that was told.
    pub fn peek(&self) -> Option<&Item>
        ensures item { option_copied result ≡ slice_get self.now.items.ahead 0 }
        ensures placed { IfSome result (λ item. IsPlaced item.now) }
        ensures within { self.now.items.limit ≤ MAX_LIMIT }
    {
        self.items.peek()
    }

    /// Takes the next item.
    pub fn pass(&mut self)
        requires { 0 < length self.old.items.ahead }
        ensures passed { (stride : ℕ) (bytes : List ℕ) (stopped : Option Cause) (passed : List ToldItem) (item : ToldItem)
            → slice_get self.old.items.ahead 0 ≡ Some item
            → HasPassed R.remaining stride self.old bytes stopped passed
            → HasPassed R.remaining stride self.new bytes stopped (passed ++ item ∷ []) }
        ensures items { self.new ≡ record self.old {
          items = record self.old.items { ahead = drop 1 self.old.items.ahead };
        } }
    {
        self.items.pass();
    }

    /// Reads the next piece, of at most the length of `piece`, and frames it, where all items were taken. An `Err` says why
    /// the stream is read no further: a read failed, it is too long, or memory is wanted.
    pub fn read(&mut self, piece: &mut [u8]) -> Result<(), Stop>
        requires piece { 0 < length piece.old }
        requires ahead { self.old.items.ahead ≡ [] }
        requires open { IsSome self.old.items.framer }
        ensures read { ReadsMore R.remaining self.old self.new result }
        ensures told { ToldOfRead R.failures self.old self.new result }
        ensures smaller { left_to_read self.new.items < left_to_read self.old.items }
        ensures limit { self.new.items.limit ≡ self.old.items.limit }
        ensures over { OnErr result (self.new.items ≡ given_up self.old.items) }
    {
        match self.source.read(piece) {
            Ok(0) => self.finish(),
            Ok(count) => self.feed(&piece[..count]),
            Err(_) => {
                self.items.give_up();
                Err(Stop::ReadFailed)
            }
        }
    }

    /// Frames a piece.
    fn feed(&mut self, piece: &[u8]) -> Result<(), Stop>
        requires piece { 0 < length piece.now }
        requires ahead { self.old.items.ahead ≡ [] }
        requires open { IsSome self.old.items.framer }
        ensures read { (stride : ℕ) (bytes : List ℕ) (stopped : Option Cause) (passed : List ToldItem)
            → HasPassed R.remaining stride self.old bytes stopped passed
            → HasPassed R.remaining stride self.new (bytes ++ piece.now) (stopped_by result stopped) passed }
        ensures going { result ≡ Err Stop.Gate → ⊥ }
        ensures unfailed { result ≡ Err Stop.ReadFailed → ⊥ }
        ensures smaller { left_to_read self.new.items < left_to_read self.old.items }
        ensures limit { self.new.items.limit ≡ self.old.items.limit }
        ensures over { OnErr result (self.new.items ≡ given_up self.old.items) }
        ensures stays { self.new ≡ record self.old { items = self.new.items } }
    {
        match self.items.feed(piece) {
            Ok(()) => Ok(()),
            Err(FeedFault::TooMuch) => Err(Stop::TooMuch),
            Err(FeedFault::Memory) => Err(Stop::Memory),
        }
    }

    /// Ends the framing, at the source's end.
    fn finish(&mut self) -> Result<(), Stop>
        requires ahead { self.old.items.ahead ≡ [] }
        requires open { IsSome self.old.items.framer }
        ensures read { (stride : ℕ) (bytes : List ℕ) (stopped : Option Cause) (passed : List ToldItem)
            → IsAtEnd (R.remaining self.old.source)
            → HasPassed R.remaining stride self.old bytes stopped passed
            → HasPassed R.remaining stride self.new bytes (stopped_by result stopped) passed }
        ensures going { result ≡ Err Stop.Gate → ⊥ }
        ensures unfailed { result ≡ Err Stop.ReadFailed → ⊥ }
        ensures smaller { left_to_read self.new.items < left_to_read self.old.items }
        ensures limit { self.new.items.limit ≡ self.old.items.limit }
        ensures over { OnErr result (self.new.items ≡ given_up self.old.items) }
        ensures stays { self.new ≡ record self.old { items = self.new.items } }
    {
        match self.items.finish() {
            Ok(()) => Ok(()),
            Err(_) => Err(Stop::Memory),
        }
    }

    /// What it was read from.
    pub fn into_source(self) -> R
        ensures { result ≡ self.source }
    {
        self.source
    }
}
