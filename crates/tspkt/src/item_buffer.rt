//! Items that are put over those from before.

ghost use Rattle.std.specs.Prelude.{◌≡◌, ◌+◌, ◌<◌, ◌≤◌, ◌^◌, length, take, drop};
ghost use Rattle.tspkt.specs.declared.item.Item.TheVariants.{Packet};

use crate::item::Item;
use crate::item_list::ItemList;
use crate::window::Window;
use std::alloc::{AllocError, Global};
use std::marker::Model;

/// Makes an item the packet of 188 bytes from `at` on. They are copied once: an item that is made elsewhere is copied as it goes
/// to its place.
#[inline(always)]
fn become_packet(item: &mut Item, place: u64, window: &Window, at: usize)
    requires fits { length window.now < 2 ^ 64 }
    requires inside { at + 188 ≤ length window.now }
    ensures { item.new ≡ Packet place (take 188 (drop at window.now)) }
{
    if let Item::Packet(from, _) = item {
        *from = place;
    } else {
        *item = Item::Packet(place, [0; 188]);
    }
    if let Item::Packet(_, bytes) = item {
        window.copy_packet(at, bytes);
    }
}

/// The items that framing told of one piece. Those of the next are put over them, so that a packet's bytes are copied once.
#[derive(Drop)]
pub struct ItemBuffer {
    items: Vec<Item>,
    /// How many of them were told; the others are from before.
    told: usize,
}

impl Model for ItemBuffer {
    ghost use Rattle.std.specs.Prelude.{◌-◌, ◌≤◌, take, vec_len, vec_capacity};
    ghost use Rattle.tspkt.specs.ItemLists.{ListState};

    ghost Value = { ListState };

    ghost view = { λ b. record { told = take b.told b.items.items; stale = vec_len b.items - b.told; places = vec_capacity b.items } };

    ghost invariant = { λ b. b.told ≤ vec_len b.items };
}

impl ItemBuffer {
    ghost use Rattle.std.specs.Prelude.{◌≡◌, [], length};
    ghost use Rattle.tspkt.specs.ItemLists.{cleared};

    /// One to which nothing was told.
    pub fn new(alloc: Global) -> ItemBuffer
        ensures told { result.told ≡ [] }
        ensures stale { result.stale ≡ 0 }
    {
        ItemBuffer {
            items: Vec::new(alloc),
            told: 0,
        }
    }

    /// What was told.
    pub fn told(&self) -> &[Item]
        ensures { result.now ≡ self.now.told }
    {
        &self.items[..self.told]
    }

    /// Forgets what was told: the next items are put over it.
    pub fn clear(&mut self)
        ensures { self.new ≡ cleared self.old }
    {
        self.told = 0;
    }
}

impl ItemList for ItemBuffer {
    ghost list = { λ b. b };

    fn tell(&mut self, item: Item) -> Result<(), AllocError> {
        if self.told < self.items.len() {
            self.items[self.told] = item;
        } else {
            self.items.push(item)?;
        }
        self.told += 1;
        Ok(())
    }

    #[inline(always)]
    fn tell_packet(&mut self, place: u64, window: &Window, at: usize) -> Result<(), AllocError> {
        if self.told < self.items.len() {
            become_packet(&mut self.items[self.told], place, window, at);
        } else {
            self.items.tell_packet(place, window, at)?;
        }
        self.told += 1;
        Ok(())
    }
}
