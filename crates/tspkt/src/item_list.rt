//! Where what framing tells goes.

use crate::item::Item;
use crate::window::Window;
use std::alloc::AllocError;

/// A list to which framing tells items, each behind those told before.
pub trait ItemList {
    ghost use Rattle.std.specs.Prelude.{◌+◌, ◌<◌, ◌≤◌, ◌^◌, [], ◌∷◌, length, take, drop};
    ghost use Rattle.tspkt.specs.declared.item.Item.TheVariants.{Packet};
    ghost use Rattle.tspkt.specs.ItemLists.{ListState, Tells};

    // What was told, what lies behind it, and how much there is room for.
    ghost list: { Self → ListState };

    /// Tells an item.
    fn tell(&mut self, item: Item) -> Result<(), AllocError>
        ensures { Tells (list self.old) (item ∷ []) (list self.new) result };

    /// Tells the packet of 188 bytes from `at` on, the first of which stands at `place` of the stream.
    fn tell_packet(&mut self, place: u64, window: &Window, at: usize) -> Result<(), AllocError>
        requires fits { length window.now < 2 ^ 64 }
        requires inside { at + 188 ≤ length window.now }
        ensures { Tells (list self.old) (Packet place (take 188 (drop at window.now)) ∷ []) (list self.new) result };
}

impl ItemList for Vec<Item> {
    ghost use Rattle.std.specs.Prelude.{vec_capacity};

    ghost list = { λ v. record { told = v.items; stale = 0; places = vec_capacity v } };

    fn tell(&mut self, item: Item) -> Result<(), AllocError> {
        self.push(item)?;
        Ok(())
    }

    fn tell_packet(&mut self, place: u64, window: &Window, at: usize) -> Result<(), AllocError> {
        let mut bytes = [0; 188];
        window.copy_packet(at, &mut bytes);
        self.push(Item::Packet(place, bytes))?;
        Ok(())
    }
}
